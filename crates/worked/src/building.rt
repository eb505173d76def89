// A timetable built by the exported calls, and what they made of it.
use crate::telling::{Fault, Refused, admitted, row, value};
use door::Settings;
use sizes::QuerySizes;
use std::io;

// The counts of nothing: a timetable names those that are not 0.
pub const NONE: QuerySizes = QuerySizes {
    trips: 0,
    windows: 0,
    times: 0,
    edges: 0,
    stops: 0,
    cells: 0,
    patterns: 0,
    lines: 0,
    entries: 0,
    transfers: 0,
    departures: 0,
    delays: 0,
    stop_rows: 0,
    origins: 0,
    egress: 0,
};

// There is room for so many stops, trips and as many lines, stop times and departures, and for 64 transfers. A timetable with more is refused by
// the call that is lent too little: by question 2, or by 7 for the transfers.
pub const STOPS: usize = 12;

const TRIPS: usize = 12;

const TIMES: usize = 48;

const DEPARTURES: usize = 48;

// What is built but for the transfers: each trip's line, the lines' runs and entries, the stops' runs, the departures, the marks, the stop events'
// runs.
const WORDS: usize = TRIPS * 4 + STOPS * 3 + DEPARTURES * 2 + TIMES * 2;

// The lines: how many, each trip's line, each line's run of entries, and the entries, which are the lines' trips in order.
#[derive(Clone, Copy)]
pub struct Lines {
    pub count: u32,
    pub of_trips: [u32; TRIPS],
    pub runs: [u32; TRIPS * 2],
    pub entries: [u32; TRIPS],
}

// The transfers: how many, the area that holds them, and each stop event's run of them.
#[derive(Clone, Copy)]
pub struct Transfers {
    pub count: u32,
    pub area: [u32; 256],
    pub runs: [u32; TIMES * 2],
}

// What was built of a timetable: the counts, of lines, entries and transfers too; all but the transfers once more, one table after
// the other.
#[derive(Clone, Copy)]
pub struct Built {
    pub sizes: QuerySizes,
    pub lines: Lines,
    pub transfers: Transfers,
    words: [u32; WORDS],
}

impl Built {
    // All but the transfers, as a query is lent it.
    pub fn words(&self) -> &[u32] {
        let s = self.sizes;
        let lines = s.trips as usize * 2 + s.lines as usize * 2;
        let departures = s.stops as usize * 3 + s.departures as usize * 2;
        let events = s.times as usize * 2;
        &self.words[..(lines + departures + events).min(WORDS)]
    }
}

// The lines of the timetable's trips.
fn group(
    tally: &mut [u32; 128],
    screen: u32,
    settings: Settings,
    s: QuerySizes,
    tables: &[u32],
) -> Result<Lines, Refused> {
    let trips = (s.trips as usize).min(TRIPS);
    let mut of_trips = [0; TRIPS];
    let mut runs = [0; TRIPS * 2];
    let mut entries = [0; TRIPS];
    let count = value(exports::savoiky_compute_line_groups(
        tally,
        screen,
        settings,
        s.stops,
        s.trips,
        s.times,
        s.windows,
        s.edges,
        tables,
        &mut of_trips[..trips],
        &mut runs[..trips * 2],
        &mut entries[..trips],
        &mut [0; TRIPS][..trips],
        &mut [0; TRIPS][..trips],
    ))?;
    Ok(Lines {
        count,
        of_trips,
        runs,
        entries,
    })
}

// Sorts the listed departures in place, and answers the stops' marks.
fn sort(
    tally: &mut [u32; 128],
    screen: u32,
    settings: Settings,
    s: QuerySizes,
    tables: &[u32],
    stop_runs: &[u32],
    rows: &mut [u32],
) -> Result<[u32; STOPS], Refused> {
    let stops = (s.stops as usize).min(STOPS);
    let departures = (s.departures as usize).min(DEPARTURES);
    let mut marks = [0; STOPS];
    admitted(exports::savoiky_sort_stop_departures(
        tally,
        screen,
        settings,
        s.stops,
        s.trips,
        s.times,
        s.windows,
        s.edges,
        s.departures,
        tables,
        stop_runs,
        rows,
        &mut marks[..stops],
        &mut [0; DEPARTURES][..departures],
        &mut [0; DEPARTURES][..departures],
    ))?;
    Ok(marks)
}

// The transfers. Each stop time belongs to one trip, so that there are as many stop events.
fn link(
    tally: &mut [u32; 128],
    screen: u32,
    settings: Settings,
    s: QuerySizes,
    tables: &[u32],
    lines: Lines,
    stop_runs: &[u32],
    rows: &[u32],
) -> Result<Transfers, Refused> {
    let trips = (s.trips as usize).min(TRIPS);
    let events = (s.times as usize).min(TIMES);
    let mut area = [0; 256];
    let mut runs = [0; TIMES * 2];
    let count = value(exports::savoiky_compute_trip_transfers(
        tally,
        screen,
        settings,
        s.stops,
        s.trips,
        s.times,
        s.windows,
        s.edges,
        s.lines,
        s.departures,
        tables,
        &lines.of_trips[..trips],
        stop_runs,
        rows,
        &mut area,
        &mut runs[..events * 2],
    ))?;
    Ok(Transfers { count, area, runs })
}

// Each piece at the end of what stands before it.
fn joined<const N: usize>(pieces: &[&[u32]]) -> [u32; N] {
    let mut words = [0; N];
    let all = pieces.iter().flat_map(|piece| piece.iter());
    for (to, word) in words.iter_mut().zip(all) {
        *to = *word;
    }
    words
}

// What was built but for the transfers, one table after the other.
fn words_of(
    s: QuerySizes,
    lines: Lines,
    stop_runs: &[u32],
    rows: &[u32],
    marks: [u32; STOPS],
    transfers: Transfers,
) -> [u32; WORDS] {
    let trips = (s.trips as usize).min(TRIPS);
    let count = (s.lines as usize).min(TRIPS);
    let stops = (s.stops as usize).min(STOPS);
    let events = (s.times as usize).min(TIMES);
    joined(&[
        &lines.of_trips[..trips],
        &lines.runs[..count * 2],
        &lines.entries[..trips],
        stop_runs,
        rows,
        &marks[..stops],
        &transfers.runs[..events * 2],
    ])
}

// Builds a timetable: the departures that the caller lists (`rows`, by the stops' runs) are sorted in place.
pub fn build(
    tally: &mut [u32; 128],
    screen: u32,
    settings: Settings,
    sizes: QuerySizes,
    tables: &[u32],
    stop_runs: &[u32],
    rows: &mut [u32],
) -> Result<Built, Refused> {
    let mut s = sizes;
    let lines = group(tally, screen, settings, s, tables)?;
    s.lines = lines.count;
    s.entries = s.trips;
    let marks = sort(tally, screen, settings, s, tables, stop_runs, rows)?;
    let transfers = link(tally, screen, settings, s, tables, lines, stop_runs, rows)?;
    s.transfers = transfers.count;
    let words = words_of(s, lines, stop_runs, rows, marks, transfers);
    Ok(Built {
        sizes: s,
        lines,
        transfers,
        words,
    })
}

// The lines' FIFO flags.
fn fifo(
    tally: &mut [u32; 128],
    screen: u32,
    settings: Settings,
    s: QuerySizes,
    tables: &[u32],
    lines: &Lines,
) -> Result<[u32; TRIPS], Refused> {
    let trips = (s.trips as usize).min(TRIPS);
    let count = (s.lines as usize).min(TRIPS);
    let mut flags = [0; TRIPS];
    admitted(exports::savoiky_line_layout(
        tally,
        screen,
        settings,
        s.stops,
        s.trips,
        s.times,
        s.windows,
        s.edges,
        s.lines,
        s.entries,
        tables,
        &lines.runs[..count * 2],
        &lines.entries[..trips],
        &mut [0; TRIPS][..trips],
        &mut flags[..count],
    ))?;
    Ok(flags)
}

// The lines, their trips in order, whether they are FIFO.
pub fn show_lines(
    rt: &impl Print,
    tally: &mut [u32; 128],
    screen: u32,
    settings: Settings,
    s: QuerySizes,
    tables: &[u32],
    lines: &Lines,
) -> Result<(), Fault> {
    let flags = fifo(tally, screen, settings, s, tables, lines)?;
    for (line, flag) in flags.iter().take(s.lines as usize).enumerate() {
        print!(rt; "  line {line}: trips")?;
        let [first, count] = row::<2>(&lines.runs, line);
        for trip in lines
            .entries
            .iter()
            .skip(first as usize)
            .take(count as usize)
        {
            print!(rt; " {trip}")?;
        }
        let not = if *flag == 1 { "" } else { "not " };
        println!(rt; ", {not}FIFO")?;
    }
    Ok(())
}

// The transfers of a stop event.
pub fn show_transfers(rt: &impl Print, transfers: &Transfers, event: usize) -> io::Result<()> {
    let [first, count] = row::<2>(&transfers.runs, event);
    if count == 0 {
        return println!(rt; "    none");
    }
    let (area, _) = transfers.area.as_chunks::<4>();
    for [trip, offset, _, _] in area.iter().skip(first as usize).take(count as usize) {
        println!(rt; "    to trip {trip} at its offset {offset}")?;
    }
    Ok(())
}
