// departure_order: are listed departures in order (question 6 of a query), stop by stop; and one pass over all of them that asks questions 4 and 6.
// Place: tables.
// Specs: the order of a stop's departures, and of all (Order, a claim: the query's question 6 names it); what the pass gives (Turn, inner).
// Proves: `departure_order` answers the question; `in_turn` reads each row once, and its yes is a yes to both questions.
// Assumes nothing.
#![tactic(auto)]

ghost use Rattle.std.specs.Prelude.{◌≡◌, ◌*◌, ◌≤◌, ◌<◌, true, length, IfSome};
ghost use Rattle.tables.specs.Timetable.{timetable};
ghost use Rattle.tables.specs.Sane.{SlicesOk, CountsOk, RunsOk};
ghost use Rattle.departures.specs.Departures.{row_at, row_departure, departures_of, run_length};
ghost use Rattle.departures.specs.Listed.{RunsListed, RowsKnown, RowsListed};
ghost use Rattle.departure_order.specs.Order.{part_order, departure_order};
ghost use Rattle.departure_order.specs.Turn.{Leaving, RunRight, InTurn};

use departures::DepartureRow;
use tables::Counts;

// The departure of row k of a stop's part.
fn departure_at(tables: &[u32], c: Counts, rows: &[u32], count: usize, k: usize) -> usize
    requires rows_known { RowsKnown tables.now c rows.now count }
    requires k_bound { k < count }
    ensures { result ≡ row_departure (timetable tables.now c) (row_at rows.now k) }
{
    departures::row_departure(tables, c, departures::departure_row(rows, k))
}

// Question 6 of a stop's part: is no row earlier than the one before it?
fn part_order(tables: &[u32], c: Counts, rows: &[u32], count: usize) -> bool
    requires { RowsKnown tables.now c rows.now count }
    ensures { result ≡ part_order (timetable tables.now c) rows.now count }
{
    if count == 0 {
        return true;
    }
    let mut last = departure_at(tables, c, rows, count, 0);
    for k in 1..count {
        let next = departure_at(tables, c, rows, count, k);
        if next < last {
            return false;
        }
        last = next;
    }
    true
}

// Of a stop.
fn stop_order(tables: &[u32], c: Counts, runs: &[u32], rows: &[u32], d: usize, s: usize) -> bool
    requires rows_listed { RowsListed tables.now c runs.now rows.now d }
    requires s_bound { s < c.stops }
    ensures { result ≡ part_order (timetable tables.now c) (departures_of runs.now rows.now s)
        (run_length runs.now s) }
{
    let r = departures::stop_run(runs, s);
    part_order(
        tables,
        c,
        departures::departures_of(rows, r.first, r.length),
        r.length,
    )
}

// Of every stop.
pub fn departure_order(tables: &[u32], c: Counts, runs: &[u32], rows: &[u32], d: usize) -> bool
    requires { RowsListed tables.now c runs.now rows.now d }
    ensures { result ≡ departure_order (timetable tables.now c) runs.now rows.now c.stops }
{
    (0..c.stops).all(|s| stop_order(tables, c, runs, rows, d, s))
}

// Questions 4 and 6 of a listed row of stop s: when it leaves; None where its numbers or its stop are not right.
#[tactic(auto, using(departures::proofs::Parts::row_time, departures::proofs::Yes::row_known))]
fn leaving(tables: &[u32], c: Counts, s: usize, r: DepartureRow) -> Option<usize>
    requires counts_ok { CountsOk c }
    requires slices_ok { SlicesOk tables.now c }
    requires runs_ok { RunsOk tables.now c }
    ensures { IfSome result (λ b. Leaving tables.now c s r b) }
{
    if !departures::row_numbers(tables, c, r) {
        return None;
    }
    let at = tables::trip(tables, c, r.trip, 0) + r.offset;
    if tables::time(tables, c, at, 0) != s {
        return None;
    }
    Some(tables::time(tables, c, at, 2))
}

// Of the rows of stop s from `first` on, up to `end`: is each right, and none earlier than the one before it?
fn run_right(tables: &[u32], c: Counts, rows: &[u32], s: usize, first: usize, end: usize) -> bool
    requires counts_ok { CountsOk c }
    requires slices_ok { SlicesOk tables.now c }
    requires runs_ok { RunsOk tables.now c }
    requires end_bound { end * 2 ≤ length rows.now }
    ensures { result ≡ true → RunRight tables.now c rows.now s first end }
{
    let mut last: usize = 0;
    for k in first..end {
        let Some(next) = leaving(tables, c, s, departures::departure_row(rows, k)) else {
            return false;
        };
        if next < last {
            return false;
        }
        last = next;
    }
    true
}

// Of all departures, each read once. Only where the stops' runs follow one another and leave no row out; else false.
pub fn in_turn(tables: &[u32], c: Counts, runs: &[u32], rows: &[u32], d: usize) -> bool
    requires slices_ok { SlicesOk tables.now c }
    requires runs_ok { RunsOk tables.now c }
    requires runs_listed { RunsListed c runs.now d }
    requires rows_length { length rows.now ≡ d * 2 }
    ensures { result ≡ true → InTurn tables.now c runs.now rows.now d }
{
    let mut end: usize = 0;
    for s in 0..c.stops {
        let r = departures::stop_run(runs, s);
        if r.first != end {
            return false;
        }
        end += r.length;
        if !run_right(tables, c, rows, s, r.first, end) {
            return false;
        }
    }
    end == d
}
