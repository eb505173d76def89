// target_resolving: a transfer's target resolved (document 01, item 9): at most 64 trips of its line, from the target on.
// Place: the search.
// Specs (inner): one trip of a line tried; the lines' tables as `built` and the workspace hold them (Resolving).
// Proves: each function equal to the model's definition of the same name, for all tables and queries that agree with what is read.
// Assumes nothing.
#![tactic(auto)]

ghost use Rattle.std.specs.Prelude.{◌≡◌, ℕ, ◌+◌, ◌≤◌, ◌<◌, min, ◌&&◌, List, length, get_or, ltb, leb, eqb};
ghost use Rattle.tables.specs.Timetable.{timetable};
ghost use Rattle.tables.specs.Sane.{CountsOk, Sane};
ghost use Rattle.model.specs.Tables.{Tables, Query, no_windows, departure};
ghost use Rattle.model.specs.Search.{margin_of, line_at, resolve_in, resolve};
ghost use Rattle.event_transfers.specs.Transfers.{Transfer};
ghost use Rattle.trip_boarding.specs.Reads.{Ground, Event, Agree, Asks};
ghost use Rattle.target_resolving.specs.Resolving.{weighed, tried, resolved_of, TripsAt, Names, lined_of, LinesHeld, LinesOf};

use frequency::BoardedRun;
use query_types::{Lined, Terms};
use tables::Counts;

// How a trip of a line was tried.
#[derive(Clone, Copy)]
pub enum Tried {
    Next,
    Stop,
    Take(BoardedRun),
}

// What a transfer leads to: the trip that is boarded, and the run of it.
#[derive(Clone, Copy)]
pub struct BoardedTrip {
    pub trip: u32,
    pub run: BoardedRun,
}

// Resolving a transfer

// On a FIFO line: does the trip depart so late that no delay brings it before the best total?
fn too_late(
    tables: &[u32],
    c: Counts,
    terms: Terms,
    is_fifo: bool,
    trip: usize,
    off: usize,
    best: u32,
) -> bool
    requires sane { Sane tables.now c }
    requires event { Event tables.now c trip off }
    ensures { (T : Tables) (Q : Query) → T.timetable ≡ timetable tables.now c → Asks Q terms → result
        ≡ ((is_fifo && leb (best + margin_of T Q) (departure T trip off)) && no_windows T trip) }
{
    let dep = u64::from(trip_boarding::event_word(tables, c, trip, off, 2));
    let late = u64::from(best) + u64::from(terms.margin) <= dep;
    is_fifo && late && tables::trip(tables, c, trip, 5) == 0
}

// A boarding against the best total.
fn weigh(is_fifo: bool, best: u32, b: Option<BoardedRun>) -> Tried
    ensures { result ≡ weighed is_fifo best b }
{
    match b {
        Some(run) if run.departure < best => Tried::Take(run),
        Some(_) if is_fifo => Tried::Stop,
        _ => Tried::Next,
    }
}

// One trip of a line. One past the table is passed over.
#[tactic(auto, unfolding(crate::specs::Resolving::tried))]
fn try_trip(
    tables: &[u32],
    c: Counts,
    delay_rows: &[u32],
    stop_rows: &[u32],
    terms: Terms,
    is_fifo: bool,
    trip: usize,
    off: usize,
    after: u32,
    best: u32,
) -> Tried
    requires on_ground { Ground tables.now c delay_rows.now stop_rows.now }
    requires after_bound { after < 134217728 }
    ensures { (T : Tables) (Q : Query) → Agree T Q tables.now c delay_rows.now stop_rows.now
        → Asks Q terms → result ≡ tried T Q is_fifo off after best trip }
{
    if c.trips <= trip || tables::trip(tables, c, trip, 1) <= off {
        return Tried::Next;
    }
    if too_late(tables, c, terms, is_fifo, trip, off, best) {
        return Tried::Stop;
    }
    let adj = trip_boarding::delay_of(delay_rows, trip as u32);
    if trip_boarding::barred(tables, c, delay_rows, stop_rows, terms, adj, trip, off) {
        return Tried::Next;
    }
    let b = trip_boarding::board_at(tables, c, delay_rows, stop_rows, adj, trip, off, after);
    weigh(is_fifo, best, b)
}

// The trips at k places of `built` from `from` on, one after the other.
fn resolve_in(
    tables: &[u32],
    c: Counts,
    delay_rows: &[u32],
    stop_rows: &[u32],
    built: &[u32],
    terms: Terms,
    is_fifo: bool,
    from: usize,
    k: usize,
    off: usize,
    after: u32,
    best: u32,
) -> Option<BoardedTrip>
    requires on_ground { Ground tables.now c delay_rows.now stop_rows.now }
    requires after_bound { after < 134217728 }
    requires from_bound { from + k ≤ length built.now }
    ensures { (T : Tables) (Q : Query) (trip : ℕ → ℕ) (p : ℕ)
        → Agree T Q tables.now c delay_rows.now stop_rows.now → Asks Q terms
        → TripsAt trip p built.now from k → resolved_of result ≡ resolve_in T Q is_fifo off after best trip k p }
{
    for j in 0..k {
        let trip = built[from + j] as usize;
        let step = try_trip(
            tables, c, delay_rows, stop_rows, terms, is_fifo, trip, off, after, best,
        );
        match step {
            Tried::Next => {}
            Tried::Stop => return None,
            Tried::Take(run) => {
                return Some(BoardedTrip {
                    trip: trip as u32,
                    run,
                });
            }
        }
    }
    None
}

// The line of a trip; a trip past the table has none.
fn line_at(c: Counts, built: &[u32], trip: usize) -> usize
    requires { c.trips ≤ length built.now }
    ensures bound { result < 4294967296 }
    ensures bound_2 { result < 4294967295 → trip < c.trips }
    ensures meaning { ((T : Tables) (n : Lined) (work : List ℕ) → T.timetable.trips ≡ c.trips → LinesOf T c n built.now work → result
        ≡ line_at T trip) }
{
    if trip < c.trips {
        built[trip] as usize
    } else {
        4294967295
    }
}

// Does the trip at place p of a run of `count` entries from `first` on exist, and is it the target?
fn stands(built: &[u32], first: usize, count: usize, p: usize, target: usize) -> bool
    requires { first + count ≤ length built.now }
    ensures { result ≡ (ltb p count && eqb (get_or built.now (first + p) 0) target) }
{
    p < count && built[first + p] as usize == target
}

// The target alone.
fn resolve_alone(
    tables: &[u32],
    c: Counts,
    delay_rows: &[u32],
    stop_rows: &[u32],
    terms: Terms,
    is_fifo: bool,
    target: u32,
    off: usize,
    after: u32,
    best: u32,
) -> Option<BoardedTrip>
    requires on_ground { Ground tables.now c delay_rows.now stop_rows.now }
    requires after_bound { after < 134217728 }
    ensures { (T : Tables) (Q : Query) → Agree T Q tables.now c delay_rows.now stop_rows.now
        → Asks Q terms → resolved_of result ≡ resolve_in T Q is_fifo off after best (λ p. target) (min 1 Q.settings.line_scan) 0 }
{
    if terms.line_scan == 0 {
        return None;
    }
    let trip = target as usize;
    let step = try_trip(
        tables, c, delay_rows, stop_rows, terms, is_fifo, trip, off, after, best,
    );
    match step {
        Tried::Take(run) => Some(BoardedTrip { trip: target, run }),
        Tried::Next | Tried::Stop => None,
    }
}

// A transfer to a trip of this line: at most line_scan trips of the line from the target's position on, or the target alone
// where it does not stand there.
fn resolve_line(
    tables: &[u32],
    c: Counts,
    delay_rows: &[u32],
    stop_rows: &[u32],
    built: &[u32],
    work: &[u32],
    lined: Lined,
    terms: Terms,
    line: usize,
    target: u32,
    off: usize,
    after: u32,
    best: u32,
) -> Option<BoardedTrip>
    requires on_ground { Ground tables.now c delay_rows.now stop_rows.now }
    requires after_bound { after < 134217728 }
    requires lines_held { LinesHeld c lined built.now work.now }
    requires line_bound { line < lined.lines }
    requires target_bound { target < c.trips }
    ensures { (T : Tables) (Q : Query) (e : Transfer) → Agree T Q tables.now c delay_rows.now
        stop_rows.now → Asks Q terms → LinesOf T c lined built.now work.now → Names e target off → line
        ≡ line_at T target → resolved_of result ≡ resolve T Q e after best }
{
    let is_fifo = work[lined.fifo + line] == 1;
    let first = lined.entries + built[lined.runs + line * 2] as usize;
    let count = built[lined.runs + line * 2 + 1] as usize;
    let p = work[lined.positions + target as usize] as usize;
    if !stands(built, first, count, p, target as usize) {
        return resolve_alone(
            tables, c, delay_rows, stop_rows, terms, is_fifo, target, off, after, best,
        );
    }
    let k = (count - p).min(terms.line_scan as usize);
    resolve_in(
        tables,
        c,
        delay_rows,
        stop_rows,
        built,
        terms,
        is_fifo,
        first + p,
        k,
        off,
        after,
        best,
    )
}

// What a transfer to a trip at an offset leads to, not before `after` and before the best total.
pub fn resolve(
    tables: &[u32],
    c: Counts,
    delay_rows: &[u32],
    stop_rows: &[u32],
    built: &[u32],
    work: &[u32],
    lined: Lined,
    terms: Terms,
    target: u32,
    off: usize,
    after: u32,
    best: u32,
) -> Option<BoardedTrip>
    requires on_ground { Ground tables.now c delay_rows.now stop_rows.now }
    requires after_bound { after < 134217728 }
    requires lines_held { LinesHeld c lined built.now work.now }
    ensures { (T : Tables) (Q : Query) (e : Transfer) → Agree T Q tables.now c delay_rows.now
        stop_rows.now → Asks Q terms → LinesOf T c lined built.now work.now → Names e target off
        → resolved_of result
        ≡ resolve T Q e after best }
{
    let line = line_at(c, built, target as usize);
    if lined.lines <= line {
        return resolve_alone(
            tables, c, delay_rows, stop_rows, terms, false, target, off, after, best,
        );
    }
    resolve_line(
        tables, c, delay_rows, stop_rows, built, work, lined, terms, line, target, off, after, best,
    )
}

// Where the tables of lines stand in a query's memory.
pub fn line_tables(c: Counts, lines: usize) -> Lined
    requires counts_ok { CountsOk c }
    requires lines_bound { lines ≤ 4096 }
    ensures { result ≡ lined_of c lines }
{
    let lay = query_types::lay_for(c, lines);
    let positions = query_types::positions_at(lay);
    let fifo = query_types::fifo_at(lay);
    Lined {
        lines,
        runs: c.trips,
        entries: c.trips + lines * 2,
        positions,
        fifo,
    }
}
