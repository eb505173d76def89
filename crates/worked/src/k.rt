// Timetable K of document 01, built and asked; and built under other settings.
use crate::asking::ask;
use crate::building::{Built, NONE, build, show_lines, show_transfers};
use crate::telling::{Fault, Time, told};
use door::Settings;
use sizes::QuerySizes;
use std::io;

// Three stops, three trips, five listed departures, an origin and an egress stop.
const SIZES: QuerySizes = QuerySizes {
    stops: 3,
    trips: 3,
    times: 8,
    departures: 5,
    origins: 1,
    egress: 1,
    ..NONE
};

// T1 ends at one second, T2 begins at another.
#[rattlefmt::skip]
fn timetable(end: u32, begin: u32) -> [u32; 75] {
    [
        // stop times: stop, arrival, departure, sequence, pickup, drop-off
        0, 100, 100, 0, 0, 0,      1, 200, 210, 1, 0, 0,  2, 400, 400, 2, 0, 0, // T0
        0, 160, 160, 0, 0, 0,      1, 260, 270, 1, 0, 0,  2, end, end, 2, 0, 0, // T1
        1, begin, begin, 0, 0, 0,  2, 380, 380, 1, 0, 0, // T2
        // trips: first stop time, count, mode, wheelchair, first window, windows, active, excluded
        0, 3, 0, 0, 0, 0, 1, 0, // T0
        3, 3, 0, 0, 0, 0, 1, 0, // T1
        6, 2, 0, 0, 0, 0, 1, 0, // T2
        0, 0, 0, // the stops' cells
    ]
}

// Queries from stop 0 (10 seconds) to stop 2 (5 seconds).
fn queries(
    rt: &impl Print,
    tally: &mut [u32; 128],
    screen: u32,
    settings: Settings,
    tables: &[u32],
    built: &Built,
) -> io::Result<()> {
    let s = built.sizes;
    for (start, change) in [(90, 120), (90, 121), (91, 120), (150, 120), (151, 120)] {
        let time = Time(start);
        println!(rt; "Start {time}, change time {change} s")?;
        let query = [start, change, 0, 0, 0, 0, 0, 0, 10, 2, 5];
        ask(
            rt,
            tally,
            screen,
            settings,
            s,
            tables,
            built,
            &[12.5],
            &query,
        )?;
    }
    Ok(())
}

// Builds a day, and shows the lines and the transfers of T0 at stop 1 (stop event 1).
fn day(
    rt: &impl Print,
    tally: &mut [u32; 128],
    screen: u32,
    settings: Settings,
    tables: &[u32],
) -> Result<Built, Fault> {
    let runs = [0, 2, 2, 3, 5, 0]; // stop 0 lists two departures, stop 1 three, stop 2 none
    let mut rows = [0, 0, 1, 0, 0, 1, 1, 1, 2, 0]; // trip and offset: T0, T1; T0, T1, T2
    let built = build(tally, screen, settings, SIZES, tables, &runs, &mut rows)?;
    told(
        rt,
        show_lines(
            rt,
            tally,
            screen,
            settings,
            built.sizes,
            tables,
            &built.lines,
        ),
    )?;
    println!(rt; "  transfers of trip 0 at stop 1:")?;
    show_transfers(rt, &built.transfers, 1)?;
    Ok(built)
}

pub fn run(
    rt: &impl Print,
    tally: &mut [u32; 128],
    screen: u32,
    settings: Settings,
) -> Result<(), Fault> {
    println!(rt; "\nTimetable K, with trip 1 ending at 399")?;
    day(rt, tally, screen, settings, &timetable(399, 320))?;
    println!(rt; "Timetable K, with trip 2 leaving stop 1 at 319")?;
    day(rt, tally, screen, settings, &timetable(460, 319))?;
    println!(rt; "Timetable K")?;
    let tables = timetable(460, 320);
    let built = day(rt, tally, screen, settings, &tables)?;
    queries(rt, tally, screen, settings, &tables, &built)?;
    Ok(())
}

// T2 leaves stop 1 just 120 seconds after T0 arrives there.
fn house(
    rt: &impl Print,
    tally: &mut [u32; 128],
    screen: u32,
    settings: Settings,
    transfer_time: u32,
) -> Result<(), Fault> {
    let other = Settings {
        transfer_time,
        ..settings
    };
    println!(rt; "Transfer time {transfer_time} s")?;
    day(rt, tally, screen, other, &timetable(460, 320))?;
    Ok(())
}

// The same timetable where changes by built transfers take longer, and where a setting is out of its range.
pub fn houses(
    rt: &impl Print,
    tally: &mut [u32; 128],
    screen: u32,
    settings: Settings,
) -> io::Result<()> {
    println!(rt; "\nTimetable K under other settings")?;
    for transfer_time in [120, 121, 3601] {
        told(rt, house(rt, tally, screen, settings, transfer_time))?;
    }
    Ok(())
}
