// event_transfers: the transfers of every stop event (document 01, item 8): from one event to each line at its stop, lines rising, the first
// departure not too early; then all events, trip by trip and offset by offset, counted and written with their runs.
// Place: tables. Its call: `transfers_call`.
// Specs: the transfers of a timetable (Transfers, a claim); how the code holds a departure in one number and writes row by row (Packed, inner).
// Proves: each function meets its definition of Packed, which `transfers_call` shows to be Transfers' own; how many events there are.
// Assumes nothing.
#![tactic(auto)]

ghost use Rattle.std.specs.Prelude.{◌≡◌, ◌+◌, ◌-◌, ◌/◌, ◌≤◌, ◌<◌, ℕ, min, length, get_or, drop, ltb, leb, eqb};
ghost use Rattle.loops.specs.Count.{one};
ghost use Rattle.door.specs.Settings.{transfer_time_limit};
ghost use Rattle.loops.specs.Order.{Halved};
ghost use Rattle.sorts.specs.Sort.{hi};
ghost use Rattle.event_transfers.specs.Packed.{Keys, Stretch, LineEnds, LineEnd, Group, laid, lay, lay_row, put_row, to_group, targets};
ghost use Rattle.event_transfers.specs.Packed.{LinesAfter};
ghost use Rattle.event_transfers.specs.Packed.{dep_x, area_walk, put_run, lay_event, lay_events, Most, MostAt, prepared, alight_keys, event_keys};
ghost use Rattle.event_transfers.specs.Packed.{trip_keys, all_keys, SortedRuns, EventAt, TripAt};
ghost use mathlib.Core.List.{flatten};
ghost use Rattle.tables.specs.Tables.{time_of};
ghost use Rattle.tables.specs.Sane.{CountsOk, SlicesOk, Sane};
ghost use Rattle.departures.specs.Listed.{RunsListed};
ghost use Rattle.tables.specs.Timetable.{timetable};
ghost use Rattle.event_transfers.specs.Transfers.{events_before};

use tables::Counts;

// 1 where x is below the key, else 0. A division, so that no branch has to be foreseen: over ten to a hundred departures the search is then
// faster than the library's.
fn below(x: u64, key: u64) -> usize
    requires x_bound { x < 4294967296 }
    requires key_bound { key ≤ 8589934592 }
    ensures value { result ≡ one (ltb x key) }
    ensures bound { result ≤ 1 }
{
    ((1099511627775 + key - x) / 1099511627776) as usize
}

// One halving of a search: the middle where the number there is below the key, else the start.
fn narrowed(part: &[u64], key: u64, lo: usize, size: usize) -> usize
    requires keys { Keys part.now }
    requires key_bound { key ≤ 8589934592 }
    requires halved { Halved (λ i. leb key (hi (get_or part.now i 0))) (length part.now) lo (lo + size) }
    requires size_above { 1 < size }
    ensures { Halved (λ i. leb key (hi (get_or part.now i 0))) (length part.now) result (result + (size - size / 2)) }
{
    let half = size / 2;
    lo + half * below(part[lo + half] / 4294967296, key)
}

// The first number whose upper half is not below this key, by halving; the length where there is none.
fn first_from(part: &[u64], key: u64) -> usize
    requires keys { Keys part.now }
    requires key_bound { key ≤ 8589934592 }
    requires part_above { 0 < length part.now }
    ensures { Halved (λ i. leb key (hi (get_or part.now i 0))) (length part.now) result result }
{
    let n = part.len();
    if part[n - 1] / 4294967296 < key {
        return n;
    }
    let mut lo: usize = 0;
    let mut size = n;
    while 1 < size {
        lo = narrowed(part, key, lo, size);
        size -= size / 2;
    }
    if part[lo] / 4294967296 < key {
        return lo + 1;
    }
    lo
}

// How many departures from the i-th on are of its line, where from the next one on `left` are of that one's.
fn line_left(work: &[u64], i: usize, left: u64) -> u64
    requires i_bound { i < length work.now }
    requires i_bound_2 { (i + 1 < length work.now → Stretch work.now (i + 1) left) }
    requires left_bound { left < 4294967296 }
    ensures stretch { Stretch work.now i result }
    ensures bound { result ≤ left + 1 }
{
    if i + 1 < work.len() && work[i] / 4503599627370496 == work[i + 1] / 4503599627370496 {
        left + 1
    } else {
        1
    }
}

// The same of every departure, from the last to the first.
pub fn line_ends(work: &[u64], ends: &mut [u64])
    requires ends_length { length ends.old ≡ length work.now }
    requires work_length { length work.now ≤ 65536 }
    ensures { LineEnds work.now ends.new }
{
    let mut left: u64 = 0;
    for i in (0..work.len()).rev() {
        left = line_left(work, i, left);
        ends[i] = left;
    }
}

// How many departures of a stop, from the k-th on, are of its line.
fn line_end(run: &[u64], ends: &[u64], k: usize) -> usize
    requires keys { Keys run.now }
    requires line_ends { LineEnds run.now ends.now }
    requires k_bound { k < length run.now }
    ensures { LineEnd (drop k run.now) result }
{
    (ends[k] as usize).min(run.len() - k)
}

// A transfer is written at row n, where the area has that row.
fn put_row(area: &mut [u32], time: usize, n: usize, x: u64)
    requires time_bound { time ≤ transfer_time_limit }
    requires n_bound { n ≤ 65536 }
    ensures { area.new ≡ put_row time area.old n x }
{
    let at = n * 4;
    if area.len() < at + 4 {
        return;
    }
    area[at] = (x % 4294967296 / 65536) as u32;
    area[at + 1] = (x % 65536) as u32;
    area[at + 2] = time as u32;
    area[at + 3] = 0;
}

// One transfer more. Past 65,536 none is counted or written.
fn lay_row(area: &mut [u32], time: usize, n: usize, x: u64) -> usize
    requires { time ≤ transfer_time_limit }
    ensures { laid result area.new ≡ lay_row time x (laid n area.old) }
{
    if 65536 < n {
        return n;
    }
    put_row(area, time, n, x);
    n + 1
}

// The transfer to one line: its first departure not before w, unless that is the same trip.
fn to_line(group: &[u64], area: &mut [u32], time: usize, ti: usize, w: usize, n: usize) -> usize
    requires group { Group group.now }
    requires time_bound { time ≤ transfer_time_limit }
    requires w_bound { w < 4294967296 }
    ensures { laid result area.new ≡ lay time (to_group group.now ti w) (laid n area.old) }
{
    let line = group[0] / 4503599627370496;
    let p = first_from(group, line * 1048576 + w as u64);
    if group.len() <= p {
        return n;
    }
    let x = group[p];
    if (x % 4294967296 / 65536) as usize == ti {
        return n;
    }
    lay_row(area, time, n, x)
}

// 1 where a departure is not before w, else 0.
#[tactic(auto, unfolding(crate::specs::Packed::dep_x))]
fn ready(x: u64, w: usize) -> usize
    ensures value { result ≡ one (leb w (dep_x x)) }
    ensures bound { result ≤ 1 }
{
    usize::from(w <= (x / 4294967296 % 1048576) as usize)
}

// How many lines of a stop's sorted departures have one not before w: no fewer than there are transfers to them.
fn lines_after(run: &[u64], ends: &[u64], w: usize) -> usize
    requires keys { Keys run.now }
    requires line_ends { LineEnds run.now ends.now }
    ensures { LinesAfter run.now w result }
{
    let mut n: usize = 0;
    let mut k: usize = 0;
    while k < run.len() {
        let q = k + line_end(run, ends, k);
        n += ready(run[q - 1], w);
        k = q;
    }
    n
}

// The transfers to every line of a stop's sorted departures, lines rising.
fn to_lines(
    run: &[u64],
    ends: &[u64],
    area: &mut [u32],
    time: usize,
    ti: usize,
    w: usize,
    n: usize,
) -> usize
    requires keys { Keys run.now }
    requires line_ends { LineEnds run.now ends.now }
    requires time_bound { time ≤ transfer_time_limit }
    requires w_bound { w < 4294967296 }
    ensures { laid result area.new ≡ lay time (targets run.now ti w) (laid n area.old) }
{
    let mut m = n;
    let mut k: usize = 0;
    while k < run.len() {
        let q = k + line_end(run, ends, k);
        m = to_line(&run[k..q], area, time, ti, w, m);
        k = q;
    }
    m
}

// Is getting off barred at a stop time? Only drop-off 1 bars.
fn barred(tables: &[u32], c: Counts, at: usize) -> bool
    requires counts_ok { CountsOk c }
    requires slices_ok { SlicesOk tables.now c }
    requires at_bound { at < c.times }
    ensures { result ≡ eqb (time_of tables.now at 5) 1 }
{
    tables::time(tables, c, at, 5) == 1
}

// Getting off at a stop time: where drop-off is not 1, the transfers to every line at its stop.
fn alight(
    tables: &[u32],
    c: Counts,
    runs: &[u32],
    d: usize,
    work: &[u64],
    ends: &[u64],
    area: &mut [u32],
    time: usize,
    ti: usize,
    at: usize,
    n: usize,
) -> usize
    requires sane { Sane tables.now c }
    requires runs_listed { RunsListed c runs.now d }
    requires sorted_runs { SortedRuns c runs.now work.now ends.now d }
    requires at_bound { at < c.times }
    requires time_bound { time ≤ transfer_time_limit }
    ensures { laid result area.new
        ≡ lay time (alight_keys (prepared tables.now c runs.now work.now time) ti at)
        (laid n area.old) }
{
    if 65536 < n {
        return n;
    }
    if barred(tables, c, at) {
        return n;
    }
    let w = tables::time(tables, c, at, 1) + time;
    let r = departures::stop_run(runs, tables::time(tables, c, at, 0));
    let first = r.first;
    let end = first + r.length;
    to_lines(&work[first..end], &ends[first..end], area, time, ti, w, n)
}

// The run of event e, where there is space for it: n transfers stand before it, r after it.
fn put_run(transfer_runs: &mut [u32], e: usize, n: usize, r: usize)
    requires e_bound { e < 268435456 }
    requires n_bound { n ≤ r }
    requires r_bound { r ≤ 65537 }
    ensures { transfer_runs.new ≡ put_run transfer_runs.old e n (r - n) }
{
    let at = e * 2;
    if transfer_runs.len() < at + 2 {
        return;
    }
    transfer_runs[at] = n as u32;
    transfer_runs[at + 1] = (r - n) as u32;
}

// One stop event of a trip, number e of all events.
fn event(
    tables: &[u32],
    c: Counts,
    runs: &[u32],
    d: usize,
    work: &[u64],
    ends: &[u64],
    area: &mut [u32],
    transfer_runs: &mut [u32],
    time: usize,
    ti: usize,
    off: usize,
    e: usize,
    n: usize,
) -> usize
    requires sane { Sane tables.now c }
    requires runs_listed { RunsListed c runs.now d }
    requires sorted_runs { SortedRuns c runs.now work.now ends.now d }
    requires event_at { EventAt tables.now c ti off e n time }
    ensures area_walk { area_walk result area.new transfer_runs.new
        ≡ lay_event time e (event_keys (prepared tables.now c runs.now work.now time) ti off)
        (area_walk n area.old transfer_runs.old) }
    ensures bound { result ≤ 65537 }
{
    let at = tables::trip(tables, c, ti, 0) + off;
    let r = alight(tables, c, runs, d, work, ends, area, time, ti, at, n);
    put_run(transfer_runs, e, n, r);
    r
}

// The stop events of a trip, number e and on of all events.
fn trip_events(
    tables: &[u32],
    c: Counts,
    runs: &[u32],
    d: usize,
    work: &[u64],
    ends: &[u64],
    area: &mut [u32],
    transfer_runs: &mut [u32],
    time: usize,
    ti: usize,
    e: usize,
    n: usize,
) -> usize
    requires sane { Sane tables.now c }
    requires runs_listed { RunsListed c runs.now d }
    requires sorted_runs { SortedRuns c runs.now work.now ends.now d }
    requires trip_at { TripAt c ti e n time }
    ensures area_walk { area_walk result area.new transfer_runs.new
        ≡ lay_events time e (trip_keys (prepared tables.now c runs.now work.now time) ti)
        (area_walk n area.old transfer_runs.old) }
    ensures bound { result ≤ 65537 }
{
    let count = tables::trip(tables, c, ti, 1);
    let mut m = n;
    for off in 0..count {
        m = event(
            tables,
            c,
            runs,
            d,
            work,
            ends,
            area,
            transfer_runs,
            time,
            ti,
            off,
            e + off,
            m,
        );
    }
    m
}

// All stop events. How many transfers there are, counted no further than 65,537.
pub fn all_events(
    tables: &[u32],
    c: Counts,
    runs: &[u32],
    d: usize,
    work: &[u64],
    ends: &[u64],
    area: &mut [u32],
    transfer_runs: &mut [u32],
    time: usize,
) -> usize
    requires sane { Sane tables.now c }
    requires runs_listed { RunsListed c runs.now d }
    requires sorted_runs { SortedRuns c runs.now work.now ends.now d }
    requires time_bound { time ≤ transfer_time_limit }
    ensures area_walk { area_walk result area.new transfer_runs.new
        ≡ lay_events time 0 (all_keys (prepared tables.now c runs.now work.now time))
        (area_walk 0 area.old transfer_runs.old) }
    ensures bound { result ≤ 65537 }
{
    let mut n: usize = 0;
    let mut e: usize = 0;
    for ti in 0..c.trips {
        n = trip_events(
            tables,
            c,
            runs,
            d,
            work,
            ends,
            area,
            transfer_runs,
            time,
            ti,
            e,
            n,
        );
        e += tables::trip(tables, c, ti, 1);
    }
    n
}

// No fewer than the transfers of an event at a stop time, after n of others; past 65,536 no more are counted.
fn most_alight(
    tables: &[u32],
    c: Counts,
    runs: &[u32],
    d: usize,
    work: &[u64],
    ends: &[u64],
    time: usize,
    at: usize,
    n: usize,
) -> usize
    requires sane { Sane tables.now c }
    requires runs_listed { RunsListed c runs.now d }
    requires sorted_runs { SortedRuns c runs.now work.now ends.now d }
    requires most_at { MostAt at c.times n time }
    ensures { (ti : ℕ)
        → Most n (length (alight_keys (prepared tables.now c runs.now work.now time) ti at)) result 0 }
{
    if 65536 < n {
        return n;
    }
    if barred(tables, c, at) {
        return n;
    }
    let w = tables::time(tables, c, at, 1) + time;
    let r = departures::stop_run(runs, tables::time(tables, c, at, 0));
    let first = r.first;
    let end = first + r.length;
    n + lines_after(&work[first..end], &ends[first..end], w)
}

// Of a trip's events.
fn most_trip(
    tables: &[u32],
    c: Counts,
    runs: &[u32],
    d: usize,
    work: &[u64],
    ends: &[u64],
    time: usize,
    ti: usize,
    n: usize,
) -> usize
    requires sane { Sane tables.now c }
    requires runs_listed { RunsListed c runs.now d }
    requires sorted_runs { SortedRuns c runs.now work.now ends.now d }
    requires most_at { MostAt ti c.trips n time }
    ensures { Most n
        (length (flatten (trip_keys (prepared tables.now c runs.now work.now time) ti))) result 0 }
{
    let first = tables::trip(tables, c, ti, 0);
    let count = tables::trip(tables, c, ti, 1);
    let mut m = n;
    for off in 0..count {
        m = most_alight(tables, c, runs, d, work, ends, time, first + off, m);
    }
    m
}

// Of all events.
pub fn most_all(
    tables: &[u32],
    c: Counts,
    runs: &[u32],
    d: usize,
    work: &[u64],
    ends: &[u64],
    time: usize,
) -> usize
    requires sane { Sane tables.now c }
    requires runs_listed { RunsListed c runs.now d }
    requires sorted_runs { SortedRuns c runs.now work.now ends.now d }
    requires time_bound { time ≤ transfer_time_limit }
    ensures { Most 0 (length (flatten (all_keys (prepared tables.now c runs.now work.now time)))) result 0 }
{
    let mut n: usize = 0;
    for ti in 0..c.trips {
        n = most_trip(tables, c, runs, d, work, ends, time, ti, n);
    }
    n
}

// How many transfers there are, counted no further than 65,537: the same walk with space for none.
pub fn total(
    tables: &[u32],
    c: Counts,
    runs: &[u32],
    d: usize,
    work: &[u64],
    ends: &[u64],
    time: usize,
) -> usize
    requires sane { Sane tables.now c }
    requires runs_listed { RunsListed c runs.now d }
    requires sorted_runs { SortedRuns c runs.now work.now ends.now d }
    requires time_bound { time ≤ transfer_time_limit }
    ensures { result
        ≡ min (length (flatten (all_keys (prepared tables.now c runs.now work.now time)))) 65537 }
{
    let mut a = [0u32; 1];
    let mut v = [0u32; 1];
    all_events(tables, c, runs, d, work, ends, &mut a, &mut v, time)
}

// How many stop events the trips have.
pub fn event_count(tables: &[u32], c: Counts) -> usize
    requires counts_ok { CountsOk c }
    requires slices_ok { SlicesOk tables.now c }
    ensures value { result ≡ events_before (timetable tables.now c) c.trips }
    ensures bound { result ≤ 17592186044416 }
{
    let mut e: usize = 0;
    for i in 0..c.trips {
        e += tables::trip(tables, c, i, 1);
    }
    e
}
