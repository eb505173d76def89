// line_numbers: each trip's line, numbered by first trip: a trip finds its line by a key of its stops.
// Place: tables. Its call: `lines_call`.
// Specs: lines of a timetable (Lines: document 01, item 6; a claim); how far the code has come (Grouping, inner).
// Proves: `number_lines` writes each trip's line and each line's first trip, as Lines defines them; no promise rests on the key. In proofs/Laws:
// trips have one line exactly if they have the same stops in the same order; every trip stands once among the entries, in its line's run; lines are
// numbered by first trip.
// Assumes nothing.
#![tactic(auto)]

ghost use Rattle.std.specs.Prelude.{◌≡◌, ◌+◌, ◌≤◌, ◌<◌, length};
ghost use Rattle.loops.specs.Count.{tab};
ghost use Rattle.loops.specs.Iter.{every_in, range};
ghost use Rattle.tables.specs.Timetable.{timetable};
ghost use Rattle.tables.specs.Sane.{CountsOk, SlicesOk, Sane};
ghost use Rattle.line_numbers.specs.Lines.{same, line_of, lines_of};
ghost use Rattle.line_numbers.specs.Grouping.{run_same, key_step, bucket_of, Leads, found_line, Chained, Grouping};

use tables::Counts;

// Have two runs of stop times the same stops?
fn same_run(tables: &[u32], c: Counts, x: usize, y: usize, n: usize) -> bool
    requires counts_ok { CountsOk c }
    requires slices_ok { SlicesOk tables.now c }
    requires x_bound { x + n ≤ c.times }
    requires y_bound { y + n ≤ c.times }
    ensures { result ≡ every_in (run_same (timetable tables.now c) x y) 0 n }
{
    (0..n).all(|k| tables::time(tables, c, x + k, 0) == tables::time(tables, c, y + k, 0))
}

// Have two trips the same stops in the same order?
#[tactic(auto, unfolding(crate::specs::Lines::same))]
fn same_stops(tables: &[u32], c: Counts, a: usize, b: usize) -> bool
    requires sane { Sane tables.now c }
    requires a_bound { a < c.trips }
    requires b_bound { b < c.trips }
    ensures { result ≡ same (timetable tables.now c) a b }
{
    let n = tables::trip(tables, c, a, 1);
    let m = tables::trip(tables, c, b, 1);
    let x = tables::trip(tables, c, a, 0);
    let y = tables::trip(tables, c, b, 0);
    n == m && same_run(tables, c, x, y, n)
}

// The key of n stop times from x on, made of their stops.
fn key_run(tables: &[u32], c: Counts, x: usize, n: usize) -> usize
    requires counts_ok { CountsOk c }
    requires slices_ok { SlicesOk tables.now c }
    requires x_bound { x + n ≤ c.times }
    ensures value { result ≡ range (key_step (timetable tables.now c) x) 0 n 0 }
    ensures bound { result < 4294967296 }
{
    let mut h: usize = 0;
    for k in 0..n {
        h = (h * 1000003 + tables::time(tables, c, x + k, 0) + 1) % 4294967296;
    }
    h
}

// The bucket of a trip.
#[tactic(auto, unfolding(crate::specs::Grouping::bucket_of, crate::specs::Grouping::key_of))]
fn bucket(tables: &[u32], c: Counts, i: usize) -> usize
    requires sane { Sane tables.now c }
    requires i_bound { i < c.trips }
    ensures { result ≡ bucket_of (timetable tables.now c) i }
{
    let x = tables::trip(tables, c, i, 0);
    let n = tables::trip(tables, c, i, 1);
    key_run(tables, c, x, n) * 1000003 % 4294967296 / 65536 % c.trips
}

// Which of the first n lines has trip i's stops, if one has? Only the lines of i's bucket, b, are looked at.
fn find_line(
    tables: &[u32],
    c: Counts,
    leads: &[u32],
    work: &[u64],
    other: &[u64],
    n: usize,
    i: usize,
    b: usize,
) -> Option<usize>
    requires sane { Sane tables.now c }
    requires leads { Leads (timetable tables.now c) leads.now n i }
    requires chained { Chained (timetable tables.now c) leads.now work.now other.now n }
    requires i_bound { i < c.trips }
    requires b_is { b ≡ bucket_of (timetable tables.now c) i }
    ensures { result ≡ found_line (timetable tables.now c) leads.now n i }
{
    let mut l = work[b] as usize;
    while l != 0 {
        let k = l - 1;
        if same_stops(tables, c, leads[k] as usize, i) {
            return Some(k);
        }
        l = other[k] as usize;
    }
    None
}

// Trip i joins its line, or is the first of a new one. How many lines there are then.
#[tactic(auto, using(crate::proofs::Chain::bucket_below))]
fn place(
    tables: &[u32],
    c: Counts,
    lines: &mut [u32],
    leads: &mut [u32],
    work: &mut [u64],
    other: &mut [u64],
    n: usize,
    i: usize,
) -> usize
    requires sane { Sane tables.now c }
    requires grouping { Grouping (timetable tables.now c) lines.old leads.old work.old other.old n i }
    requires i_bound { i < c.trips }
    ensures { Grouping (timetable tables.now c) lines.new leads.new work.new other.new result
        (i + 1) }
{
    let b = bucket(tables, c, i);
    match find_line(tables, c, leads, work, other, n, i, b) {
        Some(l) => {
            lines[i] = l as u32;
            n
        }
        None => {
            lines[i] = n as u32;
            leads[n] = i as u32;
            other[n] = work[b];
            work[b] = (n + 1) as u64;
            n + 1
        }
    }
}

// Each trip's line, and how many lines there are.
pub fn number_lines(
    tables: &[u32],
    c: Counts,
    lines: &mut [u32],
    leads: &mut [u32],
    work: &mut [u64],
    other: &mut [u64],
) -> usize
    requires sane { Sane tables.now c }
    requires lines_length { length lines.old ≡ c.trips }
    requires leads_length { length leads.old ≡ c.trips }
    requires work_length { length work.old ≡ c.trips }
    requires other_length { length other.old ≡ c.trips }
    ensures lines_new { lines.new ≡ tab (line_of (timetable tables.now c)) c.trips }
    ensures value { result ≡ lines_of (timetable tables.now c) }
{
    work.fill(0);
    let mut n: usize = 0;
    for i in 0..c.trips {
        n = place(tables, c, lines, leads, work, other, n, i);
    }
    n
}
