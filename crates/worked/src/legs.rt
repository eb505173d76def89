// The legs of an answer: the labels followed back from a stop and a row to an access label, and whether they join.
use crate::telling::{Time, row};
use door::Settings;
use label::Label;
use sizes::QuerySizes;
use std::io;

// A label and the row where it stands.
#[derive(Clone, Copy)]
pub struct RowLabel {
    pub row: u32,
    pub label: Label,
}

// Who asks: the screen, the settings of the house, the counts of what is asked on.
#[derive(Clone, Copy)]
pub struct Caller {
    pub screen: u32,
    pub settings: Settings,
    pub sizes: QuerySizes,
}

fn load(
    tally: &mut [u32; 128],
    by: Caller,
    stop: u32,
    row: u32,
    labels: &[u32],
    distances: &[f64],
) -> RowLabel {
    let loaded = exports::savoiky_label_load(
        tally,
        by.screen,
        by.settings,
        by.sizes.stops,
        stop,
        row,
        labels,
        distances,
    );
    RowLabel {
        row,
        label: Label::from(loaded.row),
    }
}

// The label of a stop in this row, or in the next lower row that has one.
pub fn label_at(
    tally: &mut [u32; 128],
    by: Caller,
    stop: u32,
    row: u32,
    labels: &[u32],
    distances: &[f64],
) -> RowLabel {
    for lower in (1..=row).rev() {
        let found = load(tally, by, stop, lower, labels, distances);
        if !matches!(found.label, Label::Empty) {
            return found;
        }
    }
    load(tally, by, stop, 0, labels, distances)
}

// When a label's stop is reached.
pub fn arrival(label: Label) -> u32 {
    match label {
        Label::Empty => 0,
        Label::Access { arrival_s, .. } => arrival_s,
        Label::Transit { arrival_s, .. } => arrival_s,
        Label::Walk { arrival_s, .. } => arrival_s,
    }
}

// A query's delay rows and its stop rows, which stand after its numbers, its origins and its egress stops.
fn delay_tables(s: QuerySizes, query: &[u32]) -> (&[u32], &[u32]) {
    let start = 7 + 2 * (s.origins as usize + s.egress as usize);
    let (_, tables) = query.split_at(start.min(query.len()));
    let delays = 2 * s.delays as usize;
    tables.split_at(delays.min(tables.len()))
}

// When a trip leaves a stop by its delays: `sequence` and `scheduled` are those of its stop time there.
fn effective(
    tally: &mut [u32; 128],
    by: Caller,
    query: &[u32],
    trip: u32,
    sequence: u32,
    scheduled: u32,
) -> u32 {
    let s = by.sizes;
    let (delays, stop_rows) = delay_tables(s, query);
    let d = exports::savoiky_delay_at(
        tally,
        by.screen,
        by.settings,
        s.trips,
        s.delays,
        s.stop_rows,
        delays,
        stop_rows,
        trip,
        sequence,
    );
    let departs = exports::savoiky_effective_departure(
        tally,
        by.screen,
        by.settings,
        scheduled,
        d.trip_delay,
        d.flags,
        d.departure_delay,
    );
    departs.value
}

// When a ride leaves: at the effective departure where it was boarded; a frequency trip's run by its shift later.
fn departure(
    tally: &mut [u32; 128],
    by: Caller,
    tables: &[u32],
    query: &[u32],
    trip: u32,
    offset: u32,
    shift: u32,
) -> u32 {
    let (_, trips) = tables.split_at(tables.len().min(6 * by.sizes.times as usize));
    let [first, _, _, _, _, windows, _, _] = row::<8>(trips, trip as usize);
    let [_, _, scheduled, sequence, _, _] = row::<6>(tables, first as usize + offset as usize);
    let leaves = effective(tally, by, query, trip, sequence, scheduled);
    if windows == 0 {
        leaves
    } else {
        leaves.wrapping_add(shift)
    }
}

// The change time before a ride: none in round 0, which writes row 1.
fn change(query: &[u32], row: u32) -> u32 {
    match query {
        [_, change, ..] if 2 <= row => *change,
        _ => 0,
    }
}

// Does a ride or a walk begin no sooner than its stop is reached? A walk begins its duration before it arrives, a ride the
// change time before it leaves; and a ride does not arrive before it leaves.
fn joins(
    tally: &mut [u32; 128],
    by: Caller,
    tables: &[u32],
    query: &[u32],
    reached: u32,
    found: RowLabel,
) -> bool {
    let from = u64::from(reached);
    match found.label {
        Label::Empty => true,
        Label::Access { .. } => true,
        Label::Transit {
            arrival_s,
            trip_idx,
            board_off,
            time_shift_s,
            ..
        } => {
            let leaves = departure(tally, by, tables, query, trip_idx, board_off, time_shift_s);
            from + u64::from(change(query, found.row)) <= u64::from(leaves) && leaves <= arrival_s
        }
        Label::Walk {
            arrival_s,
            duration_s,
            ..
        } => from + u64::from(duration_s) <= u64::from(arrival_s),
    }
}

// The stop that a ride or a walk came from; none for an access walk, or where there is no label.
fn stop_before(label: Label) -> Option<u32> {
    match label {
        Label::Empty => None,
        Label::Access { .. } => None,
        Label::Transit { board_stop, .. } => Some(board_stop),
        Label::Walk { from_stop, .. } => Some(from_stop),
    }
}

// Do the legs to a stop in a row join, at most 26 after an access walk?
pub fn joined(
    tally: &mut [u32; 128],
    by: Caller,
    tables: &[u32],
    query: &[u32],
    labels: &[u32],
    distances: &[f64],
    stop: u32,
    row: u32,
) -> bool {
    let mut found = label_at(tally, by, stop, row, labels, distances);
    for _ in 0..26 {
        let Some(from) = stop_before(found.label) else {
            break;
        };
        let before = label_at(tally, by, from, found.row, labels, distances);
        if !joins(tally, by, tables, query, arrival(before.label), found) {
            return false;
        }
        found = before;
    }
    matches!(found.label, Label::Access { .. })
}

// One leg, to a stop: an access walk, a ride or a walk.
fn leg(
    rt: &impl Print,
    tally: &mut [u32; 128],
    by: Caller,
    tables: &[u32],
    query: &[u32],
    label: Label,
    stop: u32,
) -> io::Result<()> {
    match label {
        Label::Empty => Ok(()),
        Label::Access {
            stop_idx,
            walk_duration,
            ..
        } => print!(rt; "walk {walk_duration} s to stop {stop_idx}; "),
        Label::Transit {
            arrival_s,
            trip_idx,
            board_stop,
            board_off,
            time_shift_s,
            ..
        } => {
            let leaves = departure(tally, by, tables, query, trip_idx, board_off, time_shift_s);
            let (leaving, arriving) = (Time(leaves), Time(arrival_s));
            print!(rt;
                "trip {trip_idx} from stop {board_stop} at {leaving} to stop {stop}, arriving {arriving}; "
            )
        }
        Label::Walk {
            from_stop,
            to_stop,
            duration_s,
            ..
        } => print!(rt; "walk {duration_s} s from stop {from_stop} to stop {to_stop}; "),
    }
}

// The legs to a stop in a row, at most so many: those to the stop that the label there came from, then this one. A label leads
// back to the highest row not above its own, since a round sees its own gains.
pub fn legs(
    rt: &impl Print,
    tally: &mut [u32; 128],
    by: Caller,
    most: u32,
    tables: &[u32],
    query: &[u32],
    labels: &[u32],
    distances: &[f64],
    stop: u32,
    row: u32,
) -> io::Result<()> {
    if most == 0 {
        return Ok(());
    }
    let RowLabel { row, label } = label_at(tally, by, stop, row, labels, distances);
    if let Some(from) = stop_before(label) {
        legs(
            rt,
            tally,
            by,
            most - 1,
            tables,
            query,
            labels,
            distances,
            from,
            row,
        )?;
    }
    leg(rt, tally, by, tables, query, label, stop)
}
