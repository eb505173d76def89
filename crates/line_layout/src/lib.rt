// line_layout: each line's FIFO flag and each trip's position in its line (document 01, item 7). Its call: `layout_call`.
// Place: tables.
// Specs: FIFO, neighbours and positions (Layout); the questions that concern the lines' table and what a yes gives (Listed); both
// claims. What the laws speak of (Claims).
// Proves: positions and flags equal to their definitions, on lines made by hand too; each question answers exactly its definition. In
// proofs/Laws: a line is FIFO exactly if no trip of it has windows and any two have equal stop counts and codes, the one at the earlier place nowhere
// later; a trip's position is its place where it is listed last, 4,294,967,295 where no line lists it; where every trip is listed once,
// in its line, its position is its place there.
// Assumes nothing.
#![tactic(auto)]

ghost use Rattle.std.specs.Prelude.{◌≡◌, ◌+◌, ◌*◌, ◌-◌, ◌≤◌, ◌<◌, eqb, length, get_or};
ghost use Rattle.loops.specs.Count.{tab};
ghost use Rattle.loops.specs.Iter.{every_in};
ghost use Rattle.tables.specs.Tables.{windows_of, stop_time_at};
ghost use Rattle.tables.specs.Timetable.{timetable};
ghost use Rattle.tables.specs.Sane.{Sane};
ghost use Rattle.line_layout.specs.Layout.{line_run_at, trips_in, in_order, neighbours, fifo_line, fifo_of, unlisted, placed, positions_of, fifos_of};
ghost use Rattle.line_layout.specs.Listed.{line_run_in, line_runs_ok, entries_ok, EntriesListed, LinesListed};

use tables::{Counts, StopTimeRow};

// Where a line's trips stand among the entries.
#[derive(Clone, Copy)]
pub struct LineRun {
    pub first: usize,
    pub count: usize,
}

// The run of line l.
fn line_run(runs: &[u32], l: usize) -> LineRun
    requires { l * 2 + 1 < length runs.now }
    ensures value { result ≡ line_run_at runs.now l }
    ensures first { result.first < 4294967296 }
    ensures count { result.count < 4294967296 }
{
    LineRun {
        first: runs[l * 2] as usize,
        count: runs[l * 2 + 1] as usize,
    }
}

// Question 3 of one line: does its run lie in the n entries?
#[tactic(auto, unfolding(crate::specs::Listed::line_run_in))]
fn run_in(r: LineRun, n: usize) -> bool
    requires first_bound { r.first < 4294967296 }
    requires count_bound { r.count < 4294967296 }
    ensures { result ≡ line_run_in n r }
{
    r.first + r.count <= n
}

// Question 3 of every line.
pub fn line_runs_ok(runs: &[u32], lines: usize, n: usize) -> bool
    requires { length runs.now ≡ lines * 2 }
    ensures { result ≡ line_runs_ok runs.now lines n }
{
    (0..lines).all(|l| run_in(line_run(runs, l), n))
}

// Question 4 of every entry: is its trip below the count?
pub fn entries_ok(c: Counts, entries: &[u32], n: usize) -> bool
    requires { length entries.now ≡ n }
    ensures { result ≡ entries_ok c entries.now n }
{
    (0..n).all(|p| (entries[p] as usize) < c.trips)
}

// The trips of a run: each has its place there as its position, until it is listed again.
fn place_run(c: Counts, entries: &[u32], positions: &mut [u32], r: LineRun)
    requires entries_listed { EntriesListed c entries.now }
    requires positions_length { length positions.old ≡ c.trips }
    requires first_bound { r.first + r.count ≤ length entries.now }
    ensures { positions.new ≡ tab (placed (trips_in entries.now r) positions.old) c.trips }
{
    for p in 0..r.count {
        positions[entries[r.first + p] as usize] = p as u32;
    }
}

// The trips of every line.
fn place_lines(c: Counts, lines: usize, runs: &[u32], entries: &[u32], positions: &mut [u32])
    requires lines_listed { LinesListed c lines runs.now entries.now }
    requires positions_is { positions.old ≡ tab (λ a. unlisted) c.trips }
    ensures { positions.new ≡ positions_of c lines runs.now entries.now }
{
    for l in 0..lines {
        place_run(c, entries, positions, line_run(runs, l));
    }
}

// Each trip's position in its line; at first as if no trip were listed.
pub fn line_positions(c: Counts, lines: usize, runs: &[u32], entries: &[u32], positions: &mut [u32])
    requires lines_listed { LinesListed c lines runs.now entries.now }
    requires positions_length { length positions.old ≡ c.trips }
    ensures { positions.new ≡ positions_of c lines runs.now entries.now }
{
    positions.fill(u32::MAX);
    place_lines(c, lines, runs, entries, positions);
}

// From a trip's stop time to the next trip's: does no time fall, and are the codes equal?
#[tactic(auto, unfolding(crate::specs::Layout::in_order))]
fn in_order(p: StopTimeRow, q: StopTimeRow) -> bool
    ensures { result ≡ in_order p q }
{
    p.arrival <= q.arrival
        && p.departure <= q.departure
        && p.pickup == q.pickup
        && p.drop_off == q.drop_off
}

// Of n stop times from x on, against those from y on.
fn times_in_order(tables: &[u32], c: Counts, x: usize, y: usize, n: usize) -> bool
    requires sane { Sane tables.now c }
    requires x_bound { x + n ≤ c.times }
    requires y_bound { y + n ≤ c.times }
    ensures { result ≡ every_in (λ k. in_order (stop_time_at tables.now (x + k)) (stop_time_at tables.now (y + k))) 0 n }
{
    for k in 0..n {
        let p = tables::stop_time_row(tables, c, x + k);
        let q = tables::stop_time_row(tables, c, y + k);
        if !in_order(p, q) {
            return false;
        }
    }
    true
}

fn no_windows(tables: &[u32], c: Counts, a: usize) -> bool
    requires sane { Sane tables.now c }
    requires a_bound { a < c.trips }
    ensures { result ≡ eqb (windows_of tables.now c a) 0 }
{
    tables::trip(tables, c, a, 5) == 0
}

// May trip b stand after trip a in a FIFO line?
#[tactic(auto, unfolding(crate::specs::Layout::neighbours))]
fn neighbours_ok(tables: &[u32], c: Counts, a: usize, b: usize) -> bool
    requires sane { Sane tables.now c }
    requires a_bound { a < c.trips }
    requires b_bound { b < c.trips }
    ensures { result ≡ neighbours (timetable tables.now c) a b }
{
    let n = tables::trip(tables, c, a, 1);
    let x = tables::trip(tables, c, a, 0);
    let y = tables::trip(tables, c, b, 0);
    no_windows(tables, c, a)
        && no_windows(tables, c, b)
        && n == tables::trip(tables, c, b, 1)
        && times_in_order(tables, c, x, y, n)
}

// Of all neighbours of a run.
fn run_in_order(tables: &[u32], c: Counts, entries: &[u32], first: usize, n: usize) -> bool
    requires sane { Sane tables.now c }
    requires entries_listed { EntriesListed c entries.now }
    requires first_bound { first + n ≤ length entries.now }
    ensures { result ≡ every_in (λ p. neighbours (timetable tables.now c) (get_or entries.now (first + (p - 1)) 0)
        (get_or entries.now (first + p) 0)) 1 n }
{
    (1..n).all(|p| neighbours_ok(
        tables,
        c,
        entries[first + (p - 1)] as usize,
        entries[first + p] as usize,
    ))
}

// Is a run FIFO?
#[tactic(auto, unfolding(crate::specs::Layout::fifo_line))]
fn run_fifo(tables: &[u32], c: Counts, entries: &[u32], r: LineRun) -> bool
    requires sane { Sane tables.now c }
    requires entries_listed { EntriesListed c entries.now }
    requires first_bound { r.first + r.count ≤ length entries.now }
    ensures { result ≡ fifo_line (timetable tables.now c) (trips_in entries.now r) }
{
    if r.count == 1 {
        no_windows(tables, c, entries[r.first] as usize)
    } else {
        run_in_order(tables, c, entries, r.first, r.count)
    }
}

// A line's FIFO flag.
fn fifo_at(tables: &[u32], c: Counts, lines: usize, runs: &[u32], entries: &[u32], l: usize) -> u32
    requires sane { Sane tables.now c }
    requires lines_listed { LinesListed c lines runs.now entries.now }
    requires l_bound { l < lines }
    ensures { result ≡ fifo_of (timetable tables.now c) runs.now entries.now l }
{
    u32::from(run_fifo(tables, c, entries, line_run(runs, l)))
}

// Each line's FIFO flag.
pub fn line_fifo(
    tables: &[u32],
    c: Counts,
    lines: usize,
    runs: &[u32],
    entries: &[u32],
    fifo: &mut [u32],
)
    requires sane { Sane tables.now c }
    requires lines_listed { LinesListed c lines runs.now entries.now }
    requires fifo_length { length fifo.old ≡ lines }
    ensures { fifo.new ≡ fifos_of (timetable tables.now c) lines runs.now entries.now }
{
    for l in 0..lines {
        fifo[l] = fifo_at(tables, c, lines, runs, entries, l);
    }
}
