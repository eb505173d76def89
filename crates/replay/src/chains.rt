// Lines of chains: a timetable of fixed shape put to the building calls, and a query on what they wrote; beside/list_chains.rs says what a line
// holds.
use crate::building::{Grouped, Linked, Sorted, Timetable, group, link, sort};
use crate::line_words::{Words, padded};
use crate::queries::{Areas, Lent, Outcome, query};
use door::Settings;
use sizes::QuerySizes;

fn sizes(lines: u32, transfers: u32) -> QuerySizes {
    QuerySizes {
        trips: 5,
        windows: 1,
        times: 15,
        edges: 3,
        stops: 3,
        cells: 0,
        patterns: 0,
        lines,
        entries: 5,
        transfers,
        departures: 10,
        delays: 0,
        stop_rows: 0,
        origins: 3,
        egress: 2,
    }
}

// The timetable that the building calls are lent, the runs of its stops and the caller's list.
fn timetable<'a>(words: &mut Words<'a>) -> Timetable<'a> {
    Timetable {
        stops: 3,
        trips: 5,
        times: 15,
        windows: 1,
        edges: 3,
        departures: 10,
        tables: words.part(151),
        stop_runs: words.part(6),
        rows: words.part(20),
    }
}

// Each piece at the end of what stands before it.
fn joined<const N: usize>(pieces: &[&[u32]]) -> [u32; N] {
    let mut words = [0; N];
    let all = pieces.iter().flat_map(|piece| piece.iter());
    for (to, word) in words.iter_mut().zip(all) {
        *to = *word;
    }
    words
}

// What the building calls left, as a query is lent it: each trip's line, the runs of two lines, the entries, the stops' runs, the sorted
// departures, the marks, the transfer runs.
fn built_of(stop_runs: &[u32], grouped: Grouped, sorted: Sorted, linked: Linked) -> [u32; 73] {
    joined(&[
        &grouped.lines,
        &grouped.runs[..4],
        &grouped.entries,
        &padded::<6>(stop_runs),
        &sorted.rows,
        &sorted.marks,
        &linked.runs,
    ])
}

// Is the answer of `query` the stated one? What is lent to be written holds 7 in every word.
fn asked(
    tally: &mut [u32; 128],
    screen: u32,
    settings: Settings,
    lent: Lent<'_>,
    stated: Outcome<'_>,
) -> bool {
    let mut areas = Areas {
        labels: &mut [7; 312],
        label_distances: &mut [7.0; 39],
        work: &mut [7; 189],
        queue_a: &mut [7; 8],
        queue_b: &mut [7; 8],
        candidates: &mut [7; 39],
    };
    let reply = query(tally, screen, settings, lent, &mut areas);
    stated.is_left(reply, areas)
}

// Are the codes of the building calls those on the line and, where all are 0, is the answer of `query`; else is what they left?
// The transfers are made of the caller's list; it is the query that is lent the sorted departures.
pub fn chained(
    tally: &mut [u32; 128],
    screen: u32,
    settings: Settings,
    mut words: Words<'_>,
) -> bool {
    let t = timetable(&mut words);
    let grouped = group(tally, screen, settings, t);
    let sorted = sort(tally, screen, settings, t);
    let lines = grouped.answer.value;
    let linked = link(tally, screen, settings, t, lines, &grouped.lines);
    let codes = [grouped.answer.code, sorted.code, linked.answer.code];
    if !words.are(&codes) {
        return false;
    }
    let built = built_of(t.stop_runs, grouped, sorted, linked);
    let tables = words.part(151);
    let query = words.part(17);
    let distances = padded::<6>(words.part(6)).map(f64::from);
    if codes == [0; 3] {
        let lent = Lent {
            sizes: sizes(lines, linked.answer.value),
            tables,
            built: &built,
            transfers: &linked.area,
            patterns: b"",
            distances: &distances,
            query,
        };
        return asked(tally, screen, settings, lent, Outcome::read(&mut words));
    }
    words.are(&built) && linked.area.iter().all(|word| *word == 7)
}
