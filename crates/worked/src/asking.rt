// A query put to the compiled call, and its answer printed.
use crate::building::{Built, STOPS};
use crate::legs::{Caller, arrival, joined, label_at, legs};
use crate::telling::{Fault, Refused, Time, admitted, told, value};
use door::Settings;
use query_reply::Reply;
use sizes::QuerySizes;
use std::io;

// The total of "no way".
const NEVER: u32 = u32::MAX;

// The best journey of a reply: its total, its stop, and how many candidates there are; none where there is no way.
fn best_of(reply: Reply) -> Result<Option<Reply>, Refused> {
    admitted(reply.code)?;
    Ok((reply.total != NEVER).then_some(reply))
}

// The total, and the legs where they join; the last leg is from the candidate's stop, reached at its label's arrival, on foot.
fn candidate(
    rt: &impl Print,
    tally: &mut [u32; 128],
    by: Caller,
    tables: &[u32],
    query: &[u32],
    [total, stop, row]: [u32; 3],
    labels: &[u32],
    distances: &[f64],
) -> io::Result<()> {
    let time = Time(total);
    print!(rt; "  candidate of row {row}, at stop {stop}, {time}:\n    ")?;
    if !joined(tally, by, tables, query, labels, distances, stop, row) {
        return println!(rt; "no card");
    }
    legs(
        rt, tally, by, 27, tables, query, labels, distances, stop, row,
    )?;
    let found = label_at(tally, by, stop, row, labels, distances);
    match total.checked_sub(arrival(found.label)) {
        Some(seconds) => println!(rt; "walk {seconds} s from stop {stop}"),
        None => Ok(()),
    }
}

// The best total and its stop, and each candidate; or that there is no way.
fn show(
    rt: &impl Print,
    tally: &mut [u32; 128],
    by: Caller,
    reply: Reply,
    tables: &[u32],
    query: &[u32],
    candidates: &[[u32; 3]],
    labels: &[u32],
    distances: &[f64],
) -> Result<(), Fault> {
    let Some(best) = best_of(reply)? else {
        println!(rt; "  no way")?;
        return Ok(());
    };
    let (total, stop) = (Time(best.total), best.stop);
    println!(rt; "  best {total} at stop {stop}")?;
    for &row in candidates.iter().take(best.candidates as usize) {
        candidate(rt, tally, by, tables, query, row, labels, distances)?;
    }
    Ok(())
}

// The call, with room for 64 segments in each half of the queue; no patterns.
fn replied(
    tally: &mut [u32; 128],
    by: Caller,
    tables: &[u32],
    built: &Built,
    distances: &[f64],
    query: &[u32],
    labels: &mut [u32],
    label_distances: &mut [f64],
    work: &mut [u32],
    candidates: &mut [[u32; 3]],
) -> Reply {
    exports::savoiky_query(
        tally,
        by.screen,
        by.settings,
        by.sizes,
        tables,
        built.words(),
        &built.transfers.area,
        b"",
        distances,
        query,
        labels,
        label_distances,
        work,
        &mut [0; 256],
        &mut [0; 256],
        candidates.as_flattened_mut(),
    )
}

// Asks and prints. There is room for the labels of STOPS stops and for 384 numbers of workspace.
fn asked(
    rt: &impl Print,
    tally: &mut [u32; 128],
    by: Caller,
    tables: &[u32],
    built: &Built,
    distances: &[f64],
    query: &[u32],
) -> Result<(), Fault> {
    let stops = (by.sizes.stops as usize).min(STOPS);
    let labels = &mut [0; STOPS * 104][..stops * 104];
    let metres = &mut [0.0; STOPS * 13][..stops * 13];
    let size = exports::savoiky_work_size(tally, by.screen, by.settings, by.sizes);
    let work = &mut [0; 384][..(value(size)? as usize).min(384)];
    let mut rows = [[0; 3]; 13];
    let reply = replied(
        tally, by, tables, built, distances, query, labels, metres, work, &mut rows,
    );
    show(rt, tally, by, reply, tables, query, &rows, labels, metres)
}

// Asks, and prints the answer or the refusal.
pub fn ask(
    rt: &impl Print,
    tally: &mut [u32; 128],
    screen: u32,
    settings: Settings,
    sizes: QuerySizes,
    tables: &[u32],
    built: &Built,
    distances: &[f64],
    query: &[u32],
) -> io::Result<()> {
    let by = Caller {
        screen,
        settings,
        sizes,
    };
    told(rt, asked(rt, tally, by, tables, built, distances, query))
}
