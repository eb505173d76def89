// Lines of the building calls: a timetable of fixed shape, and what each call must answer and leave.
use crate::line_words::{Words, padded};
use door::{Answer, Settings};

// A timetable as the building calls are lent it: its counts, its tables, the runs of its stops and the listed departures.
#[derive(Clone, Copy)]
pub struct Timetable<'a> {
    pub stops: u32,
    pub trips: u32,
    pub times: u32,
    pub windows: u32,
    pub edges: u32,
    pub departures: u32,
    pub tables: &'a [u32],
    pub stop_runs: &'a [u32],
    pub rows: &'a [u32],
}

// What sorting leaves: the departures and the stops' marks.
#[derive(Clone, Copy)]
pub struct Sorted {
    pub code: u32,
    pub rows: [u32; 20],
    pub marks: [u32; 3],
}

// What grouping leaves: each trip's line, the lines' runs and their entries.
#[derive(Clone, Copy)]
pub struct Grouped {
    pub answer: Answer,
    pub lines: [u32; 5],
    pub runs: [u32; 10],
    pub entries: [u32; 5],
}

// What linking leaves: the transfers and the stop events' runs of them.
#[derive(Clone, Copy)]
pub struct Linked {
    pub answer: Answer,
    pub area: [u32; 96],
    pub runs: [u32; 30],
}

// What is lent to be written holds 7 in every word.
pub fn sort(tally: &mut [u32; 128], screen: u32, settings: Settings, t: Timetable<'_>) -> Sorted {
    let mut rows = padded::<20>(t.rows);
    let mut marks = [7; 3];
    let mut work = [7; 10];
    let mut other = [7; 10];
    let code = exports::savoiky_sort_stop_departures(
        tally,
        screen,
        settings,
        t.stops,
        t.trips,
        t.times,
        t.windows,
        t.edges,
        t.departures,
        t.tables,
        t.stop_runs,
        &mut rows,
        &mut marks,
        &mut work,
        &mut other,
    );
    Sorted { code, rows, marks }
}

pub fn group(tally: &mut [u32; 128], screen: u32, settings: Settings, t: Timetable<'_>) -> Grouped {
    let mut lines = [7; 5];
    let mut runs = [7; 10];
    let mut entries = [7; 5];
    let mut work = [7; 5];
    let mut other = [7; 5];
    let answer = exports::savoiky_compute_line_groups(
        tally,
        screen,
        settings,
        t.stops,
        t.trips,
        t.times,
        t.windows,
        t.edges,
        t.tables,
        &mut lines,
        &mut runs,
        &mut entries,
        &mut work,
        &mut other,
    );
    Grouped {
        answer,
        lines,
        runs,
        entries,
    }
}

// The transfers of so many lines; `of_trips` says each trip's.
pub fn link(
    tally: &mut [u32; 128],
    screen: u32,
    settings: Settings,
    t: Timetable<'_>,
    lines: u32,
    of_trips: &[u32],
) -> Linked {
    let mut area = [7; 96];
    let mut runs = [7; 30];
    let answer = exports::savoiky_compute_trip_transfers(
        tally,
        screen,
        settings,
        t.stops,
        t.trips,
        t.times,
        t.windows,
        t.edges,
        lines,
        t.departures,
        t.tables,
        of_trips,
        t.stop_runs,
        t.rows,
        &mut area,
        &mut runs,
    );
    Linked { answer, area, runs }
}

// A line's timetable, and what it has of the lines: how many for the transfers and for the layout, how many entries, each trip's line, the
// lines' runs and their entries.
#[derive(Clone, Copy)]
struct Case<'a> {
    timetable: Timetable<'a>,
    transfer_lines: u32,
    lines: u32,
    entries: u32,
    of_trips: &'a [u32],
    line_runs: &'a [u32],
    line_entries: &'a [u32],
}

impl<'a> Case<'a> {
    fn read(words: &mut Words<'a>) -> Case<'a> {
        let [stops, trips, times, windows, edges, departures] = words.take::<6>();
        let [transfer_lines, lines, entries] = words.take::<3>();
        Case {
            timetable: Timetable {
                stops,
                trips,
                times,
                windows,
                edges,
                departures,
                tables: words.part(141),
                stop_runs: words.part(6),
                rows: words.part(20),
            },
            transfer_lines,
            lines,
            entries,
            of_trips: words.part(5),
            line_runs: words.part(6),
            line_entries: words.part(6),
        }
    }
}

// What laying out leaves: the trips' positions in their lines, and which lines are FIFO.
#[derive(Clone, Copy)]
struct LaidOut {
    code: u32,
    positions: [u32; 5],
    fifo: [u32; 3],
}

fn lay_out(tally: &mut [u32; 128], screen: u32, settings: Settings, case: Case<'_>) -> LaidOut {
    let mut positions = [7; 5];
    let mut fifo = [7; 3];
    let t = case.timetable;
    let code = exports::savoiky_line_layout(
        tally,
        screen,
        settings,
        t.stops,
        t.trips,
        t.times,
        t.windows,
        t.edges,
        case.lines,
        case.entries,
        t.tables,
        case.line_runs,
        case.line_entries,
        &mut positions,
        &mut fifo,
    );
    LaidOut {
        code,
        positions,
        fifo,
    }
}

// Are the answers of all four calls those on the line?
pub fn built(
    tally: &mut [u32; 128],
    screen: u32,
    settings: Settings,
    mut words: Words<'_>,
) -> bool {
    let case = Case::read(&mut words);
    let t = case.timetable;
    let sorted = sort(tally, screen, settings, t);
    let grouped = group(tally, screen, settings, t);
    let laid_out = lay_out(tally, screen, settings, case);
    let linked = link(
        tally,
        screen,
        settings,
        t,
        case.transfer_lines,
        case.of_trips,
    );
    words.are(&[sorted.code])
        && words.are(&sorted.rows)
        && words.are(&sorted.marks)
        && words.are(&[grouped.answer.code, grouped.answer.value])
        && words.are(&grouped.lines)
        && words.are(&grouped.runs)
        && words.are(&grouped.entries)
        && words.are(&[laid_out.code])
        && words.are(&laid_out.positions)
        && words.are(&laid_out.fifo)
        && words.are(&[linked.answer.code, linked.answer.value])
        && words.are(&linked.area)
        && words.are(&linked.runs)
}
