// A larger timetable: ten stops, ten trips in five lines, stairs and lifts, a frequency trip, a trip that does not run.
use crate::asking::ask;
use crate::building::{Built, NONE, build, show_lines};
use crate::telling::{Fault, told};
use door::Settings;
use sizes::QuerySizes;
use std::io;

const SIZES: QuerySizes = QuerySizes {
    stops: 10,
    trips: 10,
    times: 31,
    windows: 1,
    edges: 6,
    departures: 21,
    origins: 1,
    egress: 2,
    ..NONE
};

// Metres: the six walk edges, then the origin.
const DISTANCES: [f64; 7] = [35.0, 40.0, 620.0, 35.0, 40.0, 80.0, 130.0];

#[rattlefmt::skip]
fn timetable() -> [u32; 309] {
    [
        // stop times: stop, arrival, departure, sequence, pickup, drop-off
        0, 28800, 28800, 0, 0, 0,  1, 29100, 29130, 1, 0, 0,  2, 29400, 29430, 2, 0, 0,  3, 29700, 29700, 3, 0, 0, // T0
        0, 29700, 29700, 0, 0, 0,  1, 30000, 30030, 1, 0, 0,  2, 30300, 30330, 2, 0, 0,  3, 30600, 30600, 3, 0, 0, // T1
        0, 30600, 30600, 0, 0, 0,  1, 30900, 30930, 1, 0, 0,  2, 31200, 31230, 2, 0, 0,  3, 31500, 31500, 3, 0, 0, // T2
        4, 29700, 29700, 0, 0, 0,  5, 30000, 30020, 1, 1, 0,  6, 30300, 30320, 2, 0, 1,  7, 30600, 30600, 3, 0, 0, // T3
        4, 30300, 30300, 0, 0, 0,  5, 30600, 30620, 1, 1, 0,  6, 30900, 30920, 2, 0, 1,  7, 31200, 31200, 3, 0, 0, // T4
        1, 28800, 28800, 0, 0, 0,  8, 29040, 29060, 1, 0, 0,  9, 29400, 29400, 2, 0, 0, // T5
        9, 30000, 30000, 0, 0, 0,  7, 30420, 30420, 1, 0, 0, // T6
        9, 30150, 30150, 0, 0, 0,  7, 30900, 30900, 1, 0, 0, // T7
        0, 28800, 28800, 0, 0, 0,  7, 29500, 29500, 1, 0, 0, // T8
        0, 28900, 28900, 0, 0, 0,  7, 31000, 31000, 1, 0, 0, // T9
        // trips: first stop time, count, mode, wheelchair, first window, windows, active, excluded
        0, 4, 0, 1, 0, 0, 1, 0, // T0, line 0
        4, 4, 0, 1, 0, 0, 1, 0, // T1, line 0
        8, 4, 0, 1, 0, 0, 1, 0, // T2, line 0
        12, 4, 0, 1, 0, 0, 1, 0, // T3, line 1: no pickup at stop 5, no drop-off at stop 6
        16, 4, 0, 1, 0, 0, 1, 0, // T4, line 1
        20, 3, 0, 1, 0, 1, 1, 0, // T5, line 2: a run every 600 s from 28800 on, before 32400
        23, 2, 0, 1, 0, 0, 1, 0, // T6, line 3
        25, 2, 0, 1, 0, 0, 1, 0, // T7, line 3
        27, 2, 0, 1, 0, 0, 0, 0, // T8, line 4: does not run on this day
        29, 2, 0, 2, 0, 0, 1, 0, // T9, line 4: not for wheelchairs
        28800, 32400, 600, // the window: start, end, headway
        // walk edges: from, to, duration, pathway mode, pattern
        2, 4, 60, 2, 0, // stairs
        2, 4, 240, 5, 0, // a lift beside them
        3, 6, 600, 1, 0, // a long walkway
        4, 2, 60, 2, 0, // the stairs back
        4, 2, 240, 5, 0, // the lift back
        8, 5, 90, 1, 0, // a walkway
        0, 0, 0, 0, 0, 0, 0, 0, 0, 0, // the stops' cells
    ]
}

// Each stop's run of listed departures: the first one, how many.
#[rattlefmt::skip]
fn runs() -> [u32; 20] {
    [0, 5,  5, 4,  9, 3,  12, 0,  12, 2,  14, 2,  16, 2,  18, 0,  18, 1,  19, 2]
}

// Each stop's listed departures: trip and offset.
#[rattlefmt::skip]
fn listed() -> [u32; 42] {
    [
        0, 0, 1, 0, 2, 0, 8, 0, 9, 0, // stop 0
        0, 1, 1, 1, 2, 1, 5, 0, // stop 1
        0, 2, 1, 2, 2, 2, // stop 2
        3, 0, 4, 0, // stop 4
        3, 1, 4, 1, // stop 5
        3, 2, 4, 2, // stop 6
        5, 1, // stop 8
        6, 0, 7, 0, // stop 9
    ]
}

// From stop 0 to stop 7 or stop 9.
#[rattlefmt::skip]
fn query(start: u32, wheelchair: u32) -> [u32; 13] {
    [
        start, 120, 0, 0, 0, wheelchair, 0, // start, change time, wanted rounds, transfers, modes, wheelchair, switch
        0, 120, // the origin: stop, seconds
        7, 60, // the egress stops: stop, seconds
        9, 1000,
    ]
}

// The same with trip 3 late by 300 seconds, but by 240 at its arrival at stop 7.
#[rattlefmt::skip]
fn query_delayed(start: u32) -> [u32; 20] {
    [
        start, 120, 0, 0, 0, 0, 0,
        0, 120,
        7, 60,
        9, 1000,
        3, 300, // the delay row: trip, delay
        0, 3, 2, 0, 240, // the stop row: delay row, sequence, flags (arrival given), departure delay, arrival delay
    ]
}

fn queries(
    rt: &impl Print,
    tally: &mut [u32; 128],
    screen: u32,
    settings: Settings,
    tables: &[u32],
    built: &Built,
) -> io::Result<()> {
    let plain = built.sizes;
    let delayed = QuerySizes {
        delays: 1,
        stop_rows: 1,
        ..plain
    };
    let mut asked = |s: QuerySizes, query: &[u32]| {
        ask(
            rt, tally, screen, settings, s, tables, built, &DISTANCES, query,
        )
    };
    println!(rt; "Start 28600 s (7:56:40)")?;
    asked(plain, &query(28600, 0))?;
    println!(rt; "Start 28600 s (7:56:40), trip 3 late by 300 s, at stop 7 by 240 s")?;
    asked(delayed, &query_delayed(28600))?;
    println!(rt; "Start 28600 s (7:56:40), in a wheelchair")?;
    asked(plain, &query(28600, 1))?;
    println!(rt; "Start 32400 s (9:00:00)")?;
    asked(plain, &query(32400, 0))
}

pub fn run(
    rt: &impl Print,
    tally: &mut [u32; 128],
    screen: u32,
    settings: Settings,
) -> Result<(), Fault> {
    println!(rt; "\nA larger timetable: ten stops, ten trips, stairs, lifts, a frequency trip")?;
    let tables = timetable();
    let mut rows = listed();
    let built = build(tally, screen, settings, SIZES, &tables, &runs(), &mut rows)?;
    told(
        rt,
        show_lines(
            rt,
            tally,
            screen,
            settings,
            built.sizes,
            &tables,
            &built.lines,
        ),
    )?;
    queries(rt, tally, screen, settings, &tables, &built)?;
    Ok(())
}
