// ride_phase: the ride phase of a round: the segments queued by the round before ridden one by one, then the departures of the stops reached before
// scanned (`departure_scan`), from the first not too early on.
// Place: the search.
// Specs (inner): which departures of a stop are scanned (Scanned); the contract of a part of the phase: `ride_step` specs/Going.
// Proves: each function is the model's of the same name on the state in memory, for all tables and queries that agree with what is read; what is read
// stays as it came.
// Assumes nothing.
#![tactic(auto)]

ghost use Rattle.std.specs.Prelude.{◌≡◌, [], ◌∷◌, ◌+◌, ◌*◌, ◌-◌, ◌≤◌, ◌/◌, ◌<◌, length, get_or, cond, eqb};
ghost use Rattle.tables.specs.Timetable.{timetable};
ghost use Rattle.model.specs.Search.{ride_segments, scan_stops};
ghost use Rattle.search_state.specs.View.{memory, segment_at, queue_of};
ghost use Rattle.answer_laws.specs.Lawful.{latest};
ghost use Rattle.search_state.specs.Places.{StopsListed};
ghost use Rattle.ride_step.specs.Laid.{Rides, Segments, Laid};
ghost use Rattle.ride_step.specs.Going.{Going, Rode, ride_of, Changing};
ghost use Rattle.door.specs.Door.{time_limit};
ghost use Rattle.departures.specs.Listed.{RowsKnown, RunsListed};
ghost use Rattle.model.specs.Tables.{Tables};
ghost use Rattle.search_state.specs.Part.{part};
ghost use Rattle.query_input.specs.Lent.{marks_at, stop_runs};
ghost use Rattle.query_input.specs.Sane.{Limits};
ghost use Rattle.departure_scan.specs.Listed.{RowsOrdered};
ghost use Rattle.ride_step.specs.Phase.{Opening, RidePhase};
ghost use Rattle.ride_phase.specs.Scanned.{list_at, listed_rows, scanned};
ghost use Rattle.query_types.specs.Slices.{slices};

use query_types::{Head, Phase, QueryCounts, Ride, Scan, StopScan};

// The ride of segment k of `from`.
fn ride_of(from: &[u32], stamp: u32, k: usize) -> Ride
    requires { 4 * k + 4 ≤ length from.now }
    ensures { result ≡ ride_of stamp (segment_at from.now k) }
{
    let at = 4 * k;
    Ride {
        stamp,
        trip: from[at],
        offset: from[at + 1],
        stop: from[at + 2],
        shift: from[at + 3],
    }
}

// Segment k of `from` is ridden where its trip is permitted.
fn ride_segment(
    tables: &[u32],
    delay_rows: &[u32],
    stop_rows: &[u32],
    built: &[u32],
    patterns: &[u8],
    transfers: &[u32],
    p: Phase,
    k: usize,
    from: &[u32],
    work: &mut [u32],
    labels: &mut [u32],
    label_distances: &mut [f64],
    queue: &mut [u32],
    h: Head,
) -> Head
    requires going { Going p.context (slices tables.now delay_rows.now stop_rows.now built.now patterns.now transfers.now)
        p.stamp (memory work.old labels.old label_distances.old h) queue.old }
    requires segments { Segments p.context.counts.timetable from.now (k + 1) }
    ensures { Rode p.context.lay p.stamp
        (Rides p.context (slices tables.now delay_rows.now stop_rows.now built.now
        patterns.now transfers.now) work.old)
        (λ T Q. ride_segments T Q p.context.flagged (p.stamp - 2) p.stamp (segment_at from.now k ∷ []))
        (memory work.old labels.old label_distances.old h)
        (memory work.new labels.new label_distances.new result) queue.old queue.new }
{
    let ride = ride_of(from, p.stamp, k);
    let counts = p.context.counts.timetable;
    if !trip_boarding::permitted(tables, counts, p.context.net.terms, ride.trip as usize) {
        return h;
    }
    let adj = trip_boarding::delay_of(delay_rows, ride.trip);
    let context = p.context;
    let s = Scan { context, adj, ride };
    trip_scan::scan_trip_forward(
        tables,
        delay_rows,
        stop_rows,
        built,
        patterns,
        transfers,
        s,
        work,
        labels,
        label_distances,
        queue,
        h,
    )
}

// The first m segments of `from`, one by one, until a segment does not fit.
fn ride_segments(
    tables: &[u32],
    delay_rows: &[u32],
    stop_rows: &[u32],
    built: &[u32],
    patterns: &[u8],
    transfers: &[u32],
    p: Phase,
    m: usize,
    from: &[u32],
    work: &mut [u32],
    labels: &mut [u32],
    label_distances: &mut [f64],
    queue: &mut [u32],
    h: Head,
) -> Head
    requires going { Going p.context (slices tables.now delay_rows.now stop_rows.now built.now patterns.now transfers.now)
        p.stamp (memory work.old labels.old label_distances.old h) queue.old }
    requires segments { Segments p.context.counts.timetable from.now m }
    ensures { Rode p.context.lay p.stamp
        (Rides p.context (slices tables.now delay_rows.now stop_rows.now built.now
        patterns.now transfers.now) work.old)
        (λ T Q. ride_segments T Q p.context.flagged (p.stamp - 2) p.stamp (queue_of from.now m))
        (memory work.old labels.old label_distances.old h)
        (memory work.new labels.new label_distances.new result) queue.old queue.new }
{
    let mut g = h;
    for k in 0..m {
        g = ride_segment(
            tables,
            delay_rows,
            stop_rows,
            built,
            patterns,
            transfers,
            p,
            k,
            from,
            work,
            labels,
            label_distances,
            queue,
            g,
        );
        if g.full {
            return g;
        }
    }
    g
}

// Is the frequency mark of stop x 1?
fn marked(counts: QueryCounts, built: &[u32], x: usize) -> bool
    requires limits { Limits counts }
    requires marks_at { marks_at counts + counts.timetable.stops ≤ length built.now }
    requires x_bound { x < counts.timetable.stops }
    ensures { result ≡ eqb (get_or built.now (marks_at counts + x) 0) 1 }
{
    built[query_input::marks_at(counts) + x] == 1
}

// The departures of stop x that are scanned: from the first on that is not before `m`; all of them where it has frequency trips.
fn departures_from<'a>(
    tables: &[u32],
    counts: QueryCounts,
    built: &'a [u32],
    x: usize,
    has_freq: bool,
    m: u32,
) -> &'a [u32]
    requires limits { Limits counts }
    requires marks_at { marks_at counts ≤ length built.now }
    requires runs_listed { RunsListed counts.timetable (stop_runs built.now counts) counts.departures }
    requires x_bound { x < counts.timetable.stops }
    requires rows_ordered { RowsOrdered tables.now counts.timetable (list_at built.now counts x) (length (list_at built.now counts x) / 2) }
    ensures rows_known { RowsKnown tables.now counts.timetable result.now (length result.now / 2) }
    ensures meaning { ((T : Tables) → T.timetable ≡ timetable tables.now counts.timetable → listed_rows result.now
        ≡ scanned T has_freq m (listed_rows (list_at built.now counts x))) }
{
    let list = departure_scan::departures_at(counts, built, x);
    if has_freq {
        list
    } else {
        departure_scan::not_before(tables, counts.timetable, list, m)
    }
}

// The departures of stop x, reached before, are scanned where they can be before the best total.
fn scan_stop(
    tables: &[u32],
    delay_rows: &[u32],
    stop_rows: &[u32],
    built: &[u32],
    patterns: &[u8],
    transfers: &[u32],
    p: Phase,
    x: usize,
    work: &mut [u32],
    labels: &mut [u32],
    label_distances: &mut [f64],
    queue: &mut [u32],
    h: Head,
) -> Head
    requires going { Going p.context (slices tables.now delay_rows.now stop_rows.now built.now patterns.now transfers.now)
        p.stamp (memory work.old labels.old label_distances.old h) queue.old }
    requires x_bound { x < p.context.counts.timetable.stops }
    requires work_word { get_or work.old x 0 ≤ 108003224 }
    requires change_bound { p.change ≤ time_limit }
    ensures { Rode p.context.lay p.stamp
        (Changing p.context (slices tables.now delay_rows.now stop_rows.now built.now
        patterns.now transfers.now) (p.stamp - 2) p.change work.old)
        (λ T Q. scan_stops T Q p.context.flagged (p.stamp - 2) p.stamp (x ∷ []))
        (memory work.old labels.old label_distances.old h)
        (memory work.new labels.new label_distances.new result) queue.old queue.new }
{
    let after = work[x] + p.change;
    if h.best <= after {
        return h;
    }
    let has_freq = marked(p.context.counts, built, x);
    // the earliest scheduled departure that a delay may bring to `after` or later
    let from = after.saturating_sub(p.context.net.terms.margin);
    let list = departures_from(tables, p.context.counts, built, x, has_freq, from);
    let stop = x as u32;
    let at = StopScan {
        stop,
        after,
        has_freq,
    };
    departure_scan::scan_departures(
        tables,
        delay_rows,
        stop_rows,
        built,
        patterns,
        transfers,
        p,
        at,
        list,
        work,
        labels,
        label_distances,
        queue,
        h,
    )
}

// The first `count` stops of lay.other, one by one, until a segment does not fit.
fn scan_stops(
    tables: &[u32],
    delay_rows: &[u32],
    stop_rows: &[u32],
    built: &[u32],
    patterns: &[u8],
    transfers: &[u32],
    p: Phase,
    count: usize,
    work: &mut [u32],
    labels: &mut [u32],
    label_distances: &mut [f64],
    queue: &mut [u32],
    h: Head,
) -> Head
    requires going { Going p.context (slices tables.now delay_rows.now stop_rows.now built.now patterns.now transfers.now)
        p.stamp (memory work.old labels.old label_distances.old h) queue.old }
    requires stops_listed { StopsListed p.context.lay work.old count latest }
    requires change_bound { p.change ≤ time_limit }
    ensures { Rode p.context.lay p.stamp
        (Changing p.context (slices tables.now delay_rows.now stop_rows.now built.now
        patterns.now transfers.now) (p.stamp - 2) p.change work.old)
        (λ T Q. scan_stops T Q p.context.flagged (p.stamp - 2) p.stamp (part work.old p.context.lay.other count))
        (memory work.old labels.old label_distances.old h)
        (memory work.new labels.new label_distances.new result) queue.old queue.new }
{
    let mut g = h;
    for i in 0..count {
        let at = p.context.lay.other + i;
        let x = work[at] as usize;
        g = scan_stop(
            tables,
            delay_rows,
            stop_rows,
            built,
            patterns,
            transfers,
            p,
            x,
            work,
            labels,
            label_distances,
            queue,
            g,
        );
        if g.full {
            return g;
        }
    }
    g
}

// How many of the queued segments are ridden: with arc flags in use all of them, else none.
fn ridden(flagged: bool, queued: usize) -> usize
    ensures { result ≡ cond flagged queued 0 }
{
    if flagged { queued } else { 0 }
}

// THE RIDE PHASE of a round: the segments in `from` are ridden, then the departures of the first h.count stops of lay.other scanned; the stops
// reached go to lay.list, the segments queued to `queue`.
pub fn ride_phase(
    tables: &[u32],
    delay_rows: &[u32],
    stop_rows: &[u32],
    built: &[u32],
    patterns: &[u8],
    transfers: &[u32],
    p: Phase,
    from: &[u32],
    work: &mut [u32],
    labels: &mut [u32],
    label_distances: &mut [f64],
    queue: &mut [u32],
    h: Head,
) -> Head
    requires laid { Laid p.context (slices tables.now delay_rows.now stop_rows.now built.now patterns.now transfers.now)
        work.old }
    requires opening { Opening p.context.counts.timetable p.context.lay p.stamp p.change
        (memory work.old labels.old label_distances.old h) from.now }
    ensures { RidePhase p.context.lay p.context.flagged p.stamp p.change
        (Rides p.context (slices tables.now delay_rows.now stop_rows.now built.now
        patterns.now transfers.now) work.old)
        (memory work.old labels.old label_distances.old h)
        (memory work.new labels.new label_distances.new result) from.now queue.old
        queue.new }
{
    let count = h.count;
    let m = ridden(p.context.flagged, h.queued);
    let g = Head {
        best: h.best,
        count: 0,
        queued: 0,
        full: false,
    };
    let x = ride_segments(
        tables,
        delay_rows,
        stop_rows,
        built,
        patterns,
        transfers,
        p,
        m,
        from,
        work,
        labels,
        label_distances,
        queue,
        g,
    );
    if x.full {
        return x;
    }
    scan_stops(
        tables,
        delay_rows,
        stop_rows,
        built,
        patterns,
        transfers,
        p,
        count,
        work,
        labels,
        label_distances,
        queue,
        x,
    )
}
