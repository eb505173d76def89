// departure_scan: the departures listed at a stop: which of them are scanned, which is too late, which is boarded, and the trip that is then scanned.
// Place: the search.
// Specs (inner): what is read (Listed).
// Proves: departures_at hands on the stop's part of the list, not_before what is the model's `not_before` of it, in order again; board_listed is the
// model's `boarding`, and each scan is the model's of the same name on the state in memory, for all tables, queries and states that agree with what
// is read; what is read stays as it came.
// Assumes nothing.
#![tactic(auto)]

ghost use Rattle.std.specs.Prelude.{◌≡◌, ◌+◌, ◌/◌, ◌≤◌, ◌<◌, ◌-◌, ◌||◌, not, ◌&&◌, length, leb};
ghost use Rattle.loops.specs.Order.{Halved};
ghost use Rattle.tables.specs.Timetable.{timetable};
ghost use Rattle.departures.specs.Departures.{row_at, rows_of, row_departure, departures_of};
ghost use Rattle.departures.specs.Listed.{RunsListed, RowsKnown};
ghost use Rattle.model.specs.Tables.{Tables, Query, permitted, no_pickup, departure};
ghost use Rattle.model.specs.Search.{Boardings, State, not_before, skipped, pruned, boarding, margin_of, scan_departures};
ghost use Rattle.trip_boarding.specs.Reads.{hit_of, Known, Ground, Event, Agree, Asks};
ghost use Rattle.line_pruning.specs.Books.{Agrees, Books};
ghost use Rattle.query_input.specs.Lent.{marks_at, stop_runs, departure_rows};
ghost use Rattle.query_input.specs.Sane.{Limits};
ghost use Rattle.departure_scan.specs.Listed.{RoundChains, RowsOrdered, AsBoarded};
ghost use Rattle.tables.specs.Sane.{Sane};
ghost use Rattle.search_state.specs.View.{memory};
ghost use Rattle.ride_step.specs.Laid.{Rides};
ghost use Rattle.ride_step.specs.Going.{Going, Rode, taken};
ghost use Rattle.query_types.specs.Slices.{slices};

use departures::DepartureRow;
use frequency::BoardedRun;
use query_types::{Head, Lay, Phase, QueryCounts, Ride, Scan, StopScan, Terms};
use tables::Counts;

// The departures listed at stop x, two numbers each.
pub fn departures_at(counts: QueryCounts, built: &[u32], x: usize) -> &[u32]
    requires limits { Limits counts }
    requires marks_at { marks_at counts ≤ length built.now }
    requires runs_listed { RunsListed counts.timetable (stop_runs built.now counts) counts.departures }
    requires x_bound { x < counts.timetable.stops }
    ensures { result.now ≡ departures_of (stop_runs built.now counts) (departure_rows built.now counts) x }
{
    let r = departures::stop_run(query_input::stop_runs(built, counts), x);
    departures::departures_of(
        query_input::departure_rows(built, counts),
        r.first,
        r.length,
    )
}

// The first of departures in order that is not before m, by halving; their number where there is none.
fn first_not_before(tables: &[u32], c: Counts, list: &[u32], m: u32) -> usize
    requires { RowsOrdered tables.now c list.now (length list.now / 2) }
    ensures { Halved (λ i. leb m (row_departure (timetable tables.now c) (row_at list.now i)))
        (length list.now / 2) result result }
{
    let mut lo: usize = 0;
    let mut hi = list.len() / 2;
    while lo < hi {
        let mid = lo + (hi - lo) / 2;
        if departures::row_departure(tables, c, departures::departure_row(list, mid)) < m as usize {
            lo = mid + 1;
            continue;
        }
        hi = mid;
    }
    lo
}

// Of departures in order, those from the first on that is not before m, found by halving.
pub fn not_before<'a>(tables: &[u32], c: Counts, list: &'a [u32], m: u32) -> &'a [u32]
    requires { RowsOrdered tables.now c list.now (length list.now / 2) }
    ensures rows_ordered { RowsOrdered tables.now c result.now (length result.now / 2) }
    ensures meaning { ((T : Tables) → T.timetable ≡ timetable tables.now c → rows_of result.now (length result.now / 2)
        ≡ not_before T m (rows_of list.now (length list.now / 2))) }
{
    let from = first_not_before(tables, c, list, m);
    departures::departures_of(list, from, list.len() / 2 - from)
}

// Is the trip not permitted, pruned, without pickup at the offset, or skipping it?
fn barred_listed(
    tables: &[u32],
    c: Counts,
    delay_rows: &[u32],
    stop_rows: &[u32],
    built: &[u32],
    terms: Terms,
    lay: Lay,
    stamp: u32,
    adj: Option<usize>,
    trip: usize,
    off: usize,
    work: &[u32],
) -> bool
    requires on_ground { Ground tables.now c delay_rows.now stop_rows.now }
    requires known { Known delay_rows.now adj }
    requires event { Event tables.now c trip off }
    requires round_chains { RoundChains lay stamp c built.now work.now }
    ensures { (T : Tables) (Q : Query) (b : Boardings) → Agree T Q tables.now c delay_rows.now
        stop_rows.now → Asks Q terms → Agrees T lay c built.now work.now
        → Books lay stamp T Q work.now b → result
        ≡ (((not (permitted T Q trip) || pruned T Q (hit_of adj) trip off b) || no_pickup T trip off) || skipped T Q (hit_of adj) trip off) }
{
    !trip_boarding::permitted(tables, c, terms, trip)
        || line_pruning::pruned(lay, stamp, built, adj, trip, off, work)
        || tables::time(tables, c, tables::trip(tables, c, trip, 0) + off, 4) == 1
        || trip_boarding::skipped(tables, c, delay_rows, stop_rows, adj, trip, off)
}

// The tests of one listed departure, in the Rust's order: how it is boarded, if it is.
fn board_listed(
    tables: &[u32],
    c: Counts,
    delay_rows: &[u32],
    stop_rows: &[u32],
    built: &[u32],
    terms: Terms,
    lay: Lay,
    stamp: u32,
    adj: Option<usize>,
    trip: usize,
    off: usize,
    after: u32,
    best: u32,
    work: &[u32],
) -> Option<BoardedRun>
    requires on_ground { Ground tables.now c delay_rows.now stop_rows.now }
    requires known { Known delay_rows.now adj }
    requires event { Event tables.now c trip off }
    requires after_bound { after < 134217728 }
    requires round_chains { RoundChains lay stamp c built.now work.now }
    ensures meaning { ((T : Tables) (Q : Query) (s : State)
        → Agree T Q tables.now c delay_rows.now stop_rows.now
        → Asks Q terms → Agrees T lay c built.now work.now → Books lay stamp T Q work.now s.boardings
        → s.arrivals.best ≡ best → result ≡ boarding T Q stamp after (hit_of adj) trip off s) }
    ensures as_boarded { AsBoarded tables.now c delay_rows.now stop_rows.now adj trip off after result }
{
    if barred_listed(
        tables, c, delay_rows, stop_rows, built, terms, lay, stamp, adj, trip, off, work,
    ) {
        return None;
    }
    let b = trip_boarding::board_at(tables, c, delay_rows, stop_rows, adj, trip, off, after)?;
    if best <= b.departure
        || line_pruning::passed_over(lay, stamp, trip, off as u32, b.departure, work)
    {
        return None;
    }
    Some(b)
}

// One listed departure of stop x, without the test whether it is too late: boarded not before `after`, if it can be, and scanned.
fn take_departure(
    tables: &[u32],
    delay_rows: &[u32],
    stop_rows: &[u32],
    built: &[u32],
    patterns: &[u8],
    transfers: &[u32],
    p: Phase,
    at: StopScan,
    d: DepartureRow,
    work: &mut [u32],
    labels: &mut [u32],
    label_distances: &mut [f64],
    queue: &mut [u32],
    h: Head,
) -> Head
    requires going { Going p.context (slices tables.now delay_rows.now stop_rows.now built.now patterns.now transfers.now)
        p.stamp (memory work.old labels.old label_distances.old h) queue.old }
    requires event { Event tables.now p.context.counts.timetable d.trip d.offset }
    requires after_bound { at.after < 134217728 }
    ensures { Rode p.context.lay p.stamp
        (Rides p.context (slices tables.now delay_rows.now stop_rows.now built.now
        patterns.now transfers.now) work.old)
        (λ T Q. taken T Q p.context.flagged (p.stamp - 2) p.stamp at.stop at.after d)
        (memory work.old labels.old label_distances.old h)
        (memory work.new labels.new label_distances.new result) queue.old queue.new }
{
    let trip = d.trip as u32;
    let off = d.offset as u32;
    let counts = p.context.counts.timetable;
    let lay = p.context.lay;
    let adj = trip_boarding::delay_of(delay_rows, trip);
    let Some(b) = board_listed(
        tables,
        counts,
        delay_rows,
        stop_rows,
        built,
        p.context.net.terms,
        lay,
        p.stamp,
        adj,
        d.trip,
        d.offset,
        at.after,
        h.best,
        work,
    ) else {
        return h;
    };
    line_pruning::note(lay, p.stamp, built, adj, d.trip, off, b.departure, work);
    let ride = Ride {
        stamp: p.stamp,
        trip,
        stop: at.stop,
        offset: off,
        shift: b.time_shift_s,
    };
    let context = p.context;
    let s = Scan { context, adj, ride };
    trip_scan::scan_trip_forward(
        tables,
        delay_rows,
        stop_rows,
        built,
        patterns,
        transfers,
        s,
        work,
        labels,
        label_distances,
        queue,
        h,
    )
}

// At a stop without frequency trips: does a trip depart so late that no delay brings it before the best total?
fn too_late(tables: &[u32], p: Phase, has_freq: bool, d: DepartureRow, best: u32) -> bool
    requires sane { Sane tables.now p.context.counts.timetable }
    requires event { Event tables.now p.context.counts.timetable d.trip d.offset }
    ensures { (T : Tables) (Q : Query) → T.timetable ≡ timetable tables.now p.context.counts.timetable
        → Asks Q p.context.net.terms → result ≡ (not has_freq && leb (best + margin_of T Q) (departure T d.trip d.offset)) }
{
    let first = tables::trip(tables, p.context.counts.timetable, d.trip, 0);
    let dep = tables::time(tables, p.context.counts.timetable, first + d.offset, 2) as u64;
    !has_freq && best as u64 + p.context.net.terms.margin as u64 <= dep
}

// The departures of stop x in `list`, one by one; at a stop without frequency trips until one is too late.
pub fn scan_departures(
    tables: &[u32],
    delay_rows: &[u32],
    stop_rows: &[u32],
    built: &[u32],
    patterns: &[u8],
    transfers: &[u32],
    p: Phase,
    at: StopScan,
    list: &[u32],
    work: &mut [u32],
    labels: &mut [u32],
    label_distances: &mut [f64],
    queue: &mut [u32],
    h: Head,
) -> Head
    requires going { Going p.context (slices tables.now delay_rows.now stop_rows.now built.now patterns.now transfers.now)
        p.stamp (memory work.old labels.old label_distances.old h) queue.old }
    requires rows_known { RowsKnown tables.now p.context.counts.timetable list.now (length list.now / 2) }
    requires after_bound { at.after < 134217728 }
    ensures { Rode p.context.lay p.stamp
        (Rides p.context (slices tables.now delay_rows.now stop_rows.now built.now
        patterns.now transfers.now) work.old)
        (λ T Q. scan_departures T Q p.context.flagged at.has_freq (p.stamp - 2) p.stamp at.stop at.after
        (rows_of list.now (length list.now / 2)))
        (memory work.old labels.old label_distances.old h)
        (memory work.new labels.new label_distances.new result) queue.old queue.new }
{
    let m = list.len() / 2;
    let mut g = h;
    for i in 0..m {
        let d = departures::departure_row(list, i);
        if too_late(tables, p, at.has_freq, d, g.best) {
            return g;
        }
        g = take_departure(
            tables,
            delay_rows,
            stop_rows,
            built,
            patterns,
            transfers,
            p,
            at,
            d,
            work,
            labels,
            label_distances,
            queue,
            g,
        );
        if g.full {
            return g;
        }
    }
    g
}
