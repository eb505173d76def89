// trip_scan: a trip scanned from a boarding on (scan_trip_forward): alighting at its later stops and, with arc flags in use, the transfers there.
// Place: the search.
// Specs (inner): what a scan reads, and which tables and queries agree with it (Scan).
// Proves: `alightings`, `transferring` and `scan_trip_forward` are the model's functions of these names on the state seen as the model's, for all
// tables and queries that agree; all else in memory is as it came. Where a segment does not fit in the queue, the model queues more than the queue
// has rows for. proofs/Turning: both loops turn by turn; Along, Queuing: loops of steps; Keeping: what is read stays as it is.
// Assumes nothing.
#![tactic(auto)]

ghost use Rattle.std.specs.Prelude.{◌≡◌, ◌-◌, ◌≤◌, cond, ◌||◌, [], ◌∷◌, length};
ghost use Rattle.model.specs.Tables.{Tables, Query, stop_count, no_drop_off, stop_at};
ghost use Rattle.model.specs.Search.{skipped as skips, alightings as alighted, take_transfers, transferring as transferred, scan_trip_forward};
ghost use Rattle.search_state.specs.View.{memory};
ghost use Rattle.search_state.specs.Step.{Ready, Step, QueueStep};
ghost use Rattle.trip_boarding.specs.Reads.{hit_of, Known, Ground, Event, Agree};
ghost use Rattle.trip_scan.specs.Scan.{Riding, Reads, Nets, Netted, RunIn, Open, BoardedAt, CountsAgree, boarded};
ghost use Rattle.tables.specs.Timetable.{timetable};
ghost use Rattle.event_transfers.specs.Transfers.{transfer_at, transfers_at};
ghost use Rattle.search_state.specs.Places.{EgressTable};
ghost use Rattle.query_types.specs.Slices.{slices};

use departures::StopRun;
use frequency::BoardedRun;
use query_types::{Head, Scan, Seg};
use tables::Counts;

// Is drop-off 1 at a trip's stop time?
fn no_drop_off(
    tables: &[u32],
    c: Counts,
    delay_rows: &[u32],
    stop_rows: &[u32],
    trip: usize,
    off: usize,
) -> bool
    requires on_ground { Ground tables.now c delay_rows.now stop_rows.now }
    requires event { Event tables.now c trip off }
    ensures { (T : Tables) (Q : Query) → Agree T Q tables.now c delay_rows.now stop_rows.now
        → result ≡ no_drop_off T trip off }
{
    let first = tables::trip(tables, c, trip, 0);
    tables::time(tables, c, first + off, 5) == 1
}

// Can nobody alight at a trip's stop time: is drop-off 1 or, where skipped stops are tested, the stop skipped?
fn shut(
    tables: &[u32],
    c: Counts,
    delay_rows: &[u32],
    stop_rows: &[u32],
    adj: Option<usize>,
    tested: bool,
    trip: usize,
    off: usize,
) -> bool
    requires on_ground { Ground tables.now c delay_rows.now stop_rows.now }
    requires known { Known delay_rows.now adj }
    requires event { Event tables.now c trip off }
    ensures { (T : Tables) (Q : Query) → Agree T Q tables.now c delay_rows.now stop_rows.now
        → result ≡ cond tested (no_drop_off T trip off || skips T Q (hit_of adj) trip off) (no_drop_off T trip off) }
{
    no_drop_off(tables, c, delay_rows, stop_rows, trip, off)
        || tested && trip_boarding::skipped(tables, c, delay_rows, stop_rows, adj, trip, off)
}

// Alighting at the trip's stop times from offset `p` on, until one is not before the best total.
fn alightings(
    tables: &[u32],
    delay_rows: &[u32],
    stop_rows: &[u32],
    s: Scan,
    p: usize,
    work: &mut [u32],
    labels: &mut [u32],
    label_distances: &mut [f64],
    h: Head,
) -> Head
    requires riding { Riding tables.now s.context.counts.timetable delay_rows.now stop_rows.now s.adj s.context.lay
        s.ride }
    requires ready { Ready s.context.lay s.ride.stamp (memory work.old labels.old label_distances.old h) }
    ensures { Step s.context.lay s.ride.stamp
        (Reads tables.now s.context.counts.timetable delay_rows.now stop_rows.now s.context.lay
        work.old) (λ T Q. alighted T Q s.ride.stamp (hit_of s.adj) s.ride.shift s.ride.trip s.ride.stop
        s.ride.offset (stop_count T s.ride.trip - p) p)
        (memory work.old labels.old label_distances.old h)
        (memory work.new labels.new label_distances.new result) }
{
    let trip = s.ride.trip as usize;
    let adj = s.adj;
    let n = tables::trip(tables, s.context.counts.timetable, trip, 1);
    let mut x = h;
    for o in p..n {
        if shut(
            tables,
            s.context.counts.timetable,
            delay_rows,
            stop_rows,
            adj,
            true,
            trip,
            o,
        ) {
            continue;
        }
        let v = trip_boarding::arrival_now(
            tables,
            s.context.counts.timetable,
            delay_rows,
            stop_rows,
            adj,
            s.ride.shift,
            trip,
            o,
        );
        if x.best <= v {
            return x;
        }
        x = search_state::alight(
            tables,
            s.context.counts.timetable,
            s.context.lay,
            s.ride,
            o,
            v,
            work,
            labels,
            label_distances,
            x,
        );
    }
    x
}

// A boarding taken after a transfer: its stop is reached on foot from stop `from`, its segment queued.
fn take_boarding(
    tables: &[u32],
    s: Scan,
    from: u32,
    off: usize,
    time: u32,
    trip: u32,
    b: BoardedRun,
    work: &mut [u32],
    labels: &mut [u32],
    label_distances: &mut [f64],
    queue: &mut [u32],
    h: Head,
) -> Head
    requires counts_agree { CountsAgree tables.now s.context.counts.timetable s.context.lay }
    requires boarded_at { BoardedAt tables.now s.context.counts.timetable trip off b.departure }
    requires ready { Ready s.context.lay s.ride.stamp (memory work.old labels.old label_distances.old h) }
    requires is_open { Open h (length queue.old) }
    ensures { QueueStep s.context.lay s.ride.stamp
        (λ T Q. EgressTable Q.egress s.context.lay work.old
        × (T.timetable ≡ timetable tables.now s.context.counts.timetable))
        (λ T Q. boarded T Q s.ride.stamp from off time trip b)
        (memory work.old labels.old label_distances.old h)
        (memory work.new labels.new label_distances.new result) queue.old queue.new }
{
    let i = trip as usize;
    let first = tables::trip(tables, s.context.counts.timetable, i, 0);
    let stop = tables::time(tables, s.context.counts.timetable, first + off, 0);
    let plain = tables::trip(tables, s.context.counts.timetable, i, 5) == 0;
    let seg = Seg {
        trip,
        offset: off as u32,
        stop: stop as u32,
        shift: b.time_shift_s,
    };
    let v = b.departure;
    search_state::transfer(
        s.context.lay,
        s.ride.stamp,
        plain,
        seg,
        v,
        from,
        time,
        work,
        labels,
        label_distances,
        queue,
        h,
    )
}

// Transfer `k` of the area, taken at a stop `from` that is reached at `v`.
fn take_transfer(
    tables: &[u32],
    delay_rows: &[u32],
    stop_rows: &[u32],
    built: &[u32],
    patterns: &[u8],
    transfers: &[u32],
    s: Scan,
    v: u32,
    from: u32,
    k: usize,
    work: &mut [u32],
    labels: &mut [u32],
    label_distances: &mut [f64],
    queue: &mut [u32],
    h: Head,
) -> Head
    requires netted { Netted s.context (slices tables.now delay_rows.now stop_rows.now built.now patterns.now transfers.now)
        work.old }
    requires run_in { RunIn transfers.now k 1 }
    requires ready { Ready s.context.lay s.ride.stamp (memory work.old labels.old label_distances.old h) }
    requires is_open { Open h (length queue.old) }
    requires v_bound { v ≤ 2097150 }
    ensures { QueueStep s.context.lay s.ride.stamp
        (Nets s.context (slices tables.now delay_rows.now stop_rows.now built.now
        patterns.now transfers.now) work.old)
        (λ T Q. take_transfers T Q s.ride.stamp v from (transfer_at transfers.now k ∷ []))
        (memory work.old labels.old label_distances.old h)
        (memory work.new labels.new label_distances.new result) queue.old queue.new }
{
    let at = k * 4;
    let target = s.context.net.target;
    if !arc_flags::holds_target(
        patterns,
        s.context.net.patterns,
        target,
        transfers[at + 3] as usize,
    ) {
        return h;
    }
    let time = transfers[at + 2];
    let off = transfers[at + 1] as usize;
    let Some(found) = target_resolving::resolve(
        tables,
        s.context.counts.timetable,
        delay_rows,
        stop_rows,
        built,
        work,
        s.context.net.lined,
        s.context.net.terms,
        transfers[at],
        off,
        v + time,
        h.best,
    ) else {
        return h;
    };
    take_boarding(
        tables,
        s,
        from,
        off,
        time,
        found.trip,
        found.run,
        work,
        labels,
        label_distances,
        queue,
        h,
    )
}

// The transfers of a run, until a segment does not fit.
fn take_transfers(
    tables: &[u32],
    delay_rows: &[u32],
    stop_rows: &[u32],
    built: &[u32],
    patterns: &[u8],
    transfers: &[u32],
    s: Scan,
    v: u32,
    from: u32,
    run: StopRun,
    work: &mut [u32],
    labels: &mut [u32],
    label_distances: &mut [f64],
    queue: &mut [u32],
    h: Head,
) -> Head
    requires netted { Netted s.context (slices tables.now delay_rows.now stop_rows.now built.now patterns.now transfers.now)
        work.old }
    requires run_in { RunIn transfers.now run.first run.length }
    requires ready { Ready s.context.lay s.ride.stamp (memory work.old labels.old label_distances.old h) }
    requires is_open { Open h (length queue.old) }
    requires v_bound { v ≤ 2097150 }
    ensures { QueueStep s.context.lay s.ride.stamp
        (Nets s.context (slices tables.now delay_rows.now stop_rows.now built.now
        patterns.now transfers.now) work.old)
        (λ T Q. take_transfers T Q s.ride.stamp v from (transfers_at transfers.now run))
        (memory work.old labels.old label_distances.old h)
        (memory work.new labels.new label_distances.new result) queue.old queue.new }
{
    let mut x = h;
    for j in 0..run.length {
        let k = run.first + j;
        x = take_transfer(
            tables,
            delay_rows,
            stop_rows,
            built,
            patterns,
            transfers,
            s,
            v,
            from,
            k,
            work,
            labels,
            label_distances,
            queue,
            x,
        );
        if x.full {
            return x;
        }
    }
    x
}

// The transfers of a trip's stop time that is reached at `v`.
fn take_event(
    tables: &[u32],
    delay_rows: &[u32],
    stop_rows: &[u32],
    built: &[u32],
    patterns: &[u8],
    transfers: &[u32],
    s: Scan,
    v: u32,
    off: usize,
    work: &mut [u32],
    labels: &mut [u32],
    label_distances: &mut [f64],
    queue: &mut [u32],
    h: Head,
) -> Head
    requires netted { Netted s.context (slices tables.now delay_rows.now stop_rows.now built.now patterns.now transfers.now)
        work.old }
    requires event { Event tables.now s.context.counts.timetable s.ride.trip off }
    requires ready { Ready s.context.lay s.ride.stamp (memory work.old labels.old label_distances.old h) }
    requires is_open { Open h (length queue.old) }
    requires v_bound { v ≤ 2097150 }
    ensures { QueueStep s.context.lay s.ride.stamp
        (Nets s.context (slices tables.now delay_rows.now stop_rows.now built.now
        patterns.now transfers.now) work.old)
        (λ T Q. take_transfers T Q s.ride.stamp v (stop_at T s.ride.trip off) (T.transfers s.ride.trip off))
        (memory work.old labels.old label_distances.old h)
        (memory work.new labels.new label_distances.new result) queue.old queue.new }
{
    let trip = s.ride.trip as usize;
    let i = tables::trip(tables, s.context.counts.timetable, trip, 0);
    let from = tables::time(tables, s.context.counts.timetable, i + off, 0) as u32;
    let at = s.context.net.runs + (work[s.context.net.events + trip] as usize + off) * 2;
    let first = built[at] as usize;
    let length = built[at + 1] as usize;
    let run = StopRun { first, length };
    take_transfers(
        tables,
        delay_rows,
        stop_rows,
        built,
        patterns,
        transfers,
        s,
        v,
        from,
        run,
        work,
        labels,
        label_distances,
        queue,
        h,
    )
}

// The transfers at the trip's stop times from offset `p` on, until one is not before the best total. Skipped stops are not tested.
fn transferring(
    tables: &[u32],
    delay_rows: &[u32],
    stop_rows: &[u32],
    built: &[u32],
    patterns: &[u8],
    transfers: &[u32],
    s: Scan,
    p: usize,
    work: &mut [u32],
    labels: &mut [u32],
    label_distances: &mut [f64],
    queue: &mut [u32],
    h: Head,
) -> Head
    requires netted { Netted s.context (slices tables.now delay_rows.now stop_rows.now built.now patterns.now transfers.now)
        work.old }
    requires riding { Riding tables.now s.context.counts.timetable delay_rows.now stop_rows.now s.adj s.context.lay s.ride }
    requires ready { Ready s.context.lay s.ride.stamp (memory work.old labels.old label_distances.old h) }
    requires is_open { Open h (length queue.old) }
    ensures { QueueStep s.context.lay s.ride.stamp
        (Nets s.context (slices tables.now delay_rows.now stop_rows.now built.now
        patterns.now transfers.now) work.old)
        (λ T Q. transferred T Q s.ride.stamp (hit_of s.adj) s.ride.shift s.ride.trip (stop_count T s.ride.trip - p) p)
        (memory work.old labels.old label_distances.old h)
        (memory work.new labels.new label_distances.new result) queue.old queue.new }
{
    let trip = s.ride.trip as usize;
    let adj = s.adj;
    let n = tables::trip(tables, s.context.counts.timetable, trip, 1);
    let mut x = h;
    for o in p..n {
        if shut(
            tables,
            s.context.counts.timetable,
            delay_rows,
            stop_rows,
            adj,
            false,
            trip,
            o,
        ) {
            continue;
        }
        let v = trip_boarding::arrival_now(
            tables,
            s.context.counts.timetable,
            delay_rows,
            stop_rows,
            adj,
            s.ride.shift,
            trip,
            o,
        );
        if x.best <= v {
            return x;
        }
        x = take_event(
            tables,
            delay_rows,
            stop_rows,
            built,
            patterns,
            transfers,
            s,
            v,
            o,
            work,
            labels,
            label_distances,
            queue,
            x,
        );
        if x.full {
            return x;
        }
    }
    x
}

// A TRIP SCANNED from a boarding on: alighting at its later stops, then, with arc flags, the transfers there.
pub fn scan_trip_forward(
    tables: &[u32],
    delay_rows: &[u32],
    stop_rows: &[u32],
    built: &[u32],
    patterns: &[u8],
    transfers: &[u32],
    s: Scan,
    work: &mut [u32],
    labels: &mut [u32],
    label_distances: &mut [f64],
    queue: &mut [u32],
    h: Head,
) -> Head
    requires netted { Netted s.context (slices tables.now delay_rows.now stop_rows.now built.now patterns.now transfers.now)
        work.old }
    requires riding { Riding tables.now s.context.counts.timetable delay_rows.now stop_rows.now s.adj s.context.lay s.ride }
    requires ready { Ready s.context.lay s.ride.stamp (memory work.old labels.old label_distances.old h) }
    requires is_open { Open h (length queue.old) }
    ensures { QueueStep s.context.lay s.ride.stamp
        (Nets s.context (slices tables.now delay_rows.now stop_rows.now built.now
        patterns.now transfers.now) work.old)
        (λ T Q. scan_trip_forward T Q s.context.flagged s.ride.stamp (hit_of s.adj) s.ride.shift s.ride.trip s.ride.stop
        s.ride.offset) (memory work.old labels.old label_distances.old h)
        (memory work.new labels.new label_distances.new result) queue.old queue.new }
{
    let p = s.ride.offset as usize + 1;
    let x = alightings(
        tables,
        delay_rows,
        stop_rows,
        s,
        p,
        work,
        labels,
        label_distances,
        h,
    );
    if !s.context.flagged {
        return x;
    }
    transferring(
        tables,
        delay_rows,
        stop_rows,
        built,
        patterns,
        transfers,
        s,
        p,
        work,
        labels,
        label_distances,
        queue,
        x,
    )
}
