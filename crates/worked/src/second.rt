// A second timetable: in round 1 trip 2 brings the guest to stop 2 sooner than trip 1 does in round 0, and trip 3 is boarded
// there in the same round. So the label before trip 3 is that of its own row.
use crate::asking::ask;
use crate::building::{NONE, build};
use crate::telling::Fault;
use door::Settings;
use sizes::QuerySizes;

const SIZES: QuerySizes = QuerySizes {
    stops: 4,
    trips: 4,
    times: 8,
    departures: 4,
    origins: 1,
    egress: 1,
    ..NONE
};

// Trip 0 arrives at stop 1 at this second.
#[rattlefmt::skip]
fn timetable(arrives: u32) -> [u32; 84] {
    [
        // stop times: stop, arrival, departure, sequence, pickup, drop-off
        0, 100, 100, 0, 0, 0,    1, arrives, 200, 1, 0, 0, // T0
        0, 1000, 1000, 0, 0, 0,  2, 2000, 2000, 1, 0, 0, // T1
        1, 400, 400, 0, 0, 0,    2, 500, 500, 1, 0, 0, // T2
        2, 700, 700, 0, 0, 0,    3, 800, 800, 1, 0, 0, // T3
        // trips: first stop time, count, mode, wheelchair, first window, windows, active, excluded
        0, 2, 0, 0, 0, 0, 1, 0, // T0
        2, 2, 0, 0, 0, 0, 1, 0, // T1
        4, 2, 0, 0, 0, 0, 1, 0, // T2
        6, 2, 0, 0, 0, 0, 1, 0, // T3
        0, 0, 0, 0, // the stops' cells
    ]
}

// From stop 0 (10 seconds) to stop 3 (5 seconds), at 90, change time 120.
fn day(
    rt: &impl Print,
    tally: &mut [u32; 128],
    screen: u32,
    settings: Settings,
    tables: &[u32],
) -> Result<(), Fault> {
    let runs = [0, 2, 2, 1, 3, 1, 4, 0]; // stop 0 lists two departures, stops 1 and 2 one each, stop 3 none
    let mut rows = [0, 0, 1, 0, 2, 0, 3, 0]; // trip and offset: T0, T1; T2; T3
    let built = build(tally, screen, settings, SIZES, tables, &runs, &mut rows)?;
    let query = [90, 120, 0, 0, 0, 0, 0, 0, 10, 3, 5];
    ask(
        rt,
        tally,
        screen,
        settings,
        built.sizes,
        tables,
        &built,
        &[12.5],
        &query,
    )?;
    Ok(())
}

pub fn run(
    rt: &impl Print,
    tally: &mut [u32; 128],
    screen: u32,
    settings: Settings,
) -> Result<(), Fault> {
    println!(rt; "\nA round that boards where it arrived: start 90, change time 120 s")?;
    day(rt, tally, screen, settings, &timetable(200))?;
    println!(rt; "The same, with trip 0 arriving at 90, before it leaves")?;
    day(rt, tally, screen, settings, &timetable(90))
}
