// transfers_call: the call that writes the transfers of every stop event (document 01, item 8; the Rust's compute_trip_transfers).
// Place: a call crate; only `exports`, the promise and programs use it.
// Specs: the call, its questions in order and what it answers and writes (Call, a claim); the same of the numbers that the code sorts (Settled,
// inner). The transfers of an event, over any timetable, and as the area holds them: `event_transfers` specs/Transfers.
// Proves: the call's outcome is the defined one on every input. In proofs/Laws: what each transfer is, and that an event's
// run, read out of the area, is its list of transfers.
// Assumes nothing.
#![tactic(auto)]

ghost use Rattle.std.specs.Prelude.{◌≡◌, ◌&&◌, ◌≤◌, ◌<◌, length, get_or};
ghost use Rattle.loops.specs.Count.{tab};
ghost use Rattle.door.specs.Door.{answer_of, code_of};
ghost use Rattle.door.specs.Settings.{transfer_time_limit};
ghost use Rattle.tables.specs.Door.{slices_ok};
ghost use Rattle.tables.specs.Sane.{CountsOk, SlicesOk, Sane};
ghost use Rattle.departures.specs.Listed.{RunsListed, RowKnown, RowsKnown};
ghost use Rattle.event_transfers.specs.Packed.{pack_line, packed_line_at, prepared, SortedRuns};
ghost use Rattle.transfers_call.specs.Settled.{settled_keys};
ghost use Rattle.transfers_call.specs.Call.{transfer_lent, input_of, transfer_areas, lines_ok, transfer_sizes_ok, transfers_verdict, room_ok};
ghost use Rattle.transfers_call.specs.Call.{transfers_settled, transfers_outcome, transfers_outcome_of, TransfersAdmitted, LinesBelow};

use departures::DepartureRow;
use door::{Refusal, Settings};
use tables::Counts;

// Question 7.
#[tactic(auto, unfolding(crate::specs::Call::room_ok))]
fn room_ok(n: usize, area: usize) -> bool
    requires { n ≤ 131072 }
    ensures { result ≡ room_ok n area }
{
    n <= 65536 && n * 4 <= area
}

// The transfers, or question 7's refusal, from the sorted departures. Where there is room for one to each line that has a departure left, they
// are written at once; else they are first counted.
#[tactic(auto, unfolding(crate::specs::Settled::settled_keys))]
fn settle(
    tables: &[u32],
    c: Counts,
    runs: &[u32],
    d: usize,
    work: &[u64],
    ends: &[u64],
    area: &mut [u32],
    transfer_runs: &mut [u32],
    time: usize,
) -> Result<u32, Refusal>
    requires sane { Sane tables.now c }
    requires runs_listed { RunsListed c runs.now d }
    requires sorted_runs { SortedRuns c runs.now work.now ends.now d }
    requires time_bound { time ≤ transfer_time_limit }
    ensures { transfers_outcome_of (answer_of result) (transfer_areas area.new transfer_runs.new)
        ≡ settled_keys (prepared tables.now c runs.now work.now time)
        (transfer_areas area.old transfer_runs.old) }
{
    let most = event_transfers::most_all(tables, c, runs, d, work, ends, time);
    if room_ok(most, area.len()) {
        let m = event_transfers::all_events(
            tables,
            c,
            runs,
            d,
            work,
            ends,
            area,
            transfer_runs,
            time,
        );
        return Ok(m as u32);
    }
    let n = event_transfers::total(tables, c, runs, d, work, ends, time);
    door::ask(Refusal::Room, room_ok(n, area.len()))?;
    event_transfers::all_events(tables, c, runs, d, work, ends, area, transfer_runs, time);
    Ok(n as u32)
}

// A row as one number: its line and its departure above, its trip and offset below.
fn pack_line(tables: &[u32], c: Counts, lines: &[u32], r: DepartureRow) -> u64
    requires sane { Sane tables.now c }
    requires row_known { RowKnown tables.now c r }
    requires lines_length { length lines.now ≡ c.trips }
    requires lines_word { get_or lines.now r.trip 0 < 4096 }
    ensures { result ≡ pack_line tables.now c lines.now r }
{
    let line = lines[r.trip] as usize;
    let at = tables::trip(tables, c, r.trip, 0) + r.offset;
    let departure = tables::time(tables, c, at, 2);
    ((line * 1048576 + departure) * 4294967296 + r.trip * 65536 + r.offset) as u64
}

fn pack_lines(
    tables: &[u32],
    c: Counts,
    lines: &[u32],
    rows: &[u32],
    d: usize,
    n: usize,
    work: &mut [u64],
)
    requires sane { Sane tables.now c }
    requires rows_known { RowsKnown tables.now c rows.now d }
    requires lines_below { LinesBelow lines.now c.trips n }
    requires work_length { length work.old ≡ d }
    ensures { work.new ≡ tab (packed_line_at tables.now c lines.now rows.now) d }
{
    for k in 0..d {
        work[k] = pack_line(tables, c, lines, departures::departure_row(rows, k));
    }
}

// Question 2: is each slice as long as the counts say?
#[tactic(auto, unfolding(crate::specs::Call::transfer_sizes_ok))]
fn sizes_ok(
    tables: &[u32],
    c: Counts,
    d: usize,
    lines: usize,
    runs: usize,
    rows: usize,
    evs: usize,
) -> bool
    requires counts_ok { CountsOk c }
    requires slices_ok { SlicesOk tables.now c }
    requires d_bound { d ≤ 65536 }
    ensures { result ≡ transfer_sizes_ok tables.now c d lines runs rows evs }
{
    let events = event_transfers::event_count(tables, c);
    lines == c.trips && runs == c.stops * 2 && rows == d * 2 && evs == events * 2
}

// First the timetable's own slice, whose counts the others are measured by.
#[tactic(auto, using(tables::proofs::Yes::slices_yes))]
fn lent_ok(
    tables: &[u32],
    c: Counts,
    d: usize,
    lines: usize,
    runs: usize,
    rows: usize,
    evs: usize,
) -> bool
    requires counts_ok { CountsOk c }
    requires d_bound { d ≤ 65536 }
    ensures { result ≡ (slices_ok tables.now c && transfer_sizes_ok tables.now c d lines runs rows evs) }
{
    tables::slices_ok(tables, c) && sizes_ok(tables, c, d, lines, runs, rows, evs)
}

// Question 4: is each trip's line below the count?
fn lines_ok(lines: &[u32], line_count: usize) -> bool
    ensures { result ≡ lines_ok lines.now (length lines.now) line_count }
{
    (0..lines.len()).all(|i| (lines[i] as usize) < line_count)
}

// The questions 1, 14 and 2 to 6, in order: the first no refuses.
#[tactic(auto, unfolding(crate::specs::Call::transfers_verdict, crate::specs::Call::transfers_question1, crate::specs::Call::transfers_question2, crate::specs::Call::transfers_question3, crate::specs::Call::transfers_question4, crate::specs::Call::transfers_question5, crate::specs::Call::transfers_question6), using(crate::proofs::Asking::yes))]
fn questions(
    settings: Settings,
    tables: &[u32],
    c: Counts,
    line_count: usize,
    lines: &[u32],
    d: usize,
    runs: &[u32],
    rows: &[u32],
    evs: usize,
) -> Result<(), Refusal>
    ensures { code_of result ≡ transfers_verdict (transfer_lent settings tables.now c line_count lines.now d
        runs.now rows.now) evs }
{
    let few = tables::counts_ok(c) && line_count <= 4096 && d <= 65536;
    door::limits(few, settings)?;
    let lent = lent_ok(tables, c, d, lines.len(), runs.len(), rows.len(), evs);
    door::ask(Refusal::Sizes, lent)?;
    let within = departures::stop_runs_ok(runs, c, d);
    door::ask(Refusal::Runs, tables::runs_ok(tables, c) && within)?;
    let listed = departures::listed_ok(tables, c, runs, rows, d);
    let known = lines_ok(lines, line_count) && listed;
    door::ask(Refusal::Numbers, tables::numbers_ok(tables, c) && known)?;
    door::ask(Refusal::Ranges, tables::ranges_ok(tables, c))?;
    door::ask(Refusal::Order, tables::order_ok(tables, c))
}

// What an admitted call writes. The sort works in `work` and `other`, of d numbers each.
fn build_in(
    settings: Settings,
    tables: &[u32],
    c: Counts,
    line_count: usize,
    lines: &[u32],
    d: usize,
    runs: &[u32],
    rows: &[u32],
    area: &mut [u32],
    transfer_runs: &mut [u32],
    work: &mut [u64],
    other: &mut [u64],
) -> Result<u32, Refusal>
    requires transfers_admitted { TransfersAdmitted (transfer_lent settings tables.now c line_count lines.now d runs.now rows.now)
        (length transfer_runs.old) }
    requires work_length { length work.old ≡ d }
    requires other_length { length other.old ≡ d }
    ensures { transfers_outcome_of (answer_of result) (transfer_areas area.new transfer_runs.new)
        ≡ transfers_settled (input_of (transfer_lent settings tables.now c line_count lines.now d runs.now
        rows.now)) (transfer_areas area.old transfer_runs.old) }
{
    pack_lines(tables, c, lines, rows, d, line_count, work);
    departures::sort_stops(c, runs, d, work, other);
    event_transfers::line_ends(work, other);
    let time = settings.transfer_time as usize;
    settle(tables, c, runs, d, work, other, area, transfer_runs, time)
}

// The same in the first d numbers of two longer slices.
fn build(
    settings: Settings,
    tables: &[u32],
    c: Counts,
    line_count: usize,
    lines: &[u32],
    d: usize,
    runs: &[u32],
    rows: &[u32],
    area: &mut [u32],
    transfer_runs: &mut [u32],
    work: &mut [u64],
    other: &mut [u64],
) -> Result<u32, Refusal>
    requires transfers_admitted { TransfersAdmitted (transfer_lent settings tables.now c line_count lines.now d runs.now rows.now)
        (length transfer_runs.old) }
    requires d_bound { d ≤ length work.old }
    requires d_bound_2 { d ≤ length other.old }
    ensures { transfers_outcome_of (answer_of result) (transfer_areas area.new transfer_runs.new)
        ≡ transfers_settled (input_of (transfer_lent settings tables.now c line_count lines.now d runs.now
        rows.now)) (transfer_areas area.old transfer_runs.old) }
{
    build_in(
        settings,
        tables,
        c,
        line_count,
        lines,
        d,
        runs,
        rows,
        area,
        transfer_runs,
        &mut work[..d],
        &mut other[..d],
    )
}

// The transfers of every stop event. `lines` is each trip's line, below `line_count`; `runs` and `rows` are the d listed
// departures, in any order. `area` takes rows of four words (target trip, offset, the setting transfer time, pattern 0) and
// keeps its words past the last one; `transfer_runs` takes a pair (first, count) for each stop time of each trip, trip by trip.
// A refusal leaves both as they came.
pub fn compute_trip_transfers(
    settings: Settings,
    tables: &[u32],
    c: Counts,
    line_count: usize,
    lines: &[u32],
    d: usize,
    runs: &[u32],
    rows: &[u32],
    area: &mut [u32],
    transfer_runs: &mut [u32],
) -> Result<u32, Refusal>
    ensures { transfers_outcome_of (answer_of result) (transfer_areas area.new transfer_runs.new)
        ≡ transfers_outcome (transfer_lent settings tables.now c line_count lines.now d runs.now
        rows.now) (transfer_areas area.old transfer_runs.old) }
{
    questions(
        settings,
        tables,
        c,
        line_count,
        lines,
        d,
        runs,
        rows,
        transfer_runs.len(),
    )?;
    let mut work = [0u64; 65536];
    let mut other = [0u64; 65536];
    build(
        settings,
        tables,
        c,
        line_count,
        lines,
        d,
        runs,
        rows,
        area,
        transfer_runs,
        &mut work,
        &mut other,
    )
}
