// layout_call: the call that writes each line's FIFO flag and each trip's position in its line (document 01, item 7; the Rust's line_layout).
// Place: a call crate; only `exports` and programs use it.
// Specs (a claim): its questions in order and what it answers and writes (Call). What the flags and positions are: `line_layout`.
// Proves: the call's outcome is the defined one on every input, on lines made by hand too. In proofs/Examples: Timetable K, computed.
// Assumes nothing.
#![tactic(auto)]

ghost use Rattle.std.specs.Prelude.{◌≡◌, ◌≤◌, length};
ghost use Rattle.door.specs.Door.{code_of};
ghost use Rattle.layout_call.specs.Call.{layout_areas, layout_sizes_ok, layout_verdict, layout_made, layout_outcome, layout_outcome_of};
ghost use Rattle.layout_call.specs.Call.{LayoutAdmitted};

use door::{Refusal, Settings};
use tables::Counts;

// Question 2: is each slice as long as the counts say?
#[tactic(auto, unfolding(crate::specs::Call::layout_sizes_ok))]
fn sizes_ok(
    c: Counts,
    lines: usize,
    n: usize,
    runs: usize,
    entries: usize,
    positions: usize,
    fifo: usize,
) -> bool
    requires { lines ≤ 4096 }
    ensures { result ≡ layout_sizes_ok c lines n runs entries positions fifo }
{
    runs == lines * 2 && entries == n && positions == c.trips && fifo == lines
}

// The questions, in order: the first no refuses. One pass asks 4 and 5 of each row of the timetable; only where it finds a no are they asked
// one by one.
#[tactic(auto, unfolding(crate::specs::Call::layout_verdict), using(tables::proofs::Yes::counts_yes, tables::proofs::Yes::slices_yes, crate::proofs::Outcome::sizes_yes))]
fn questions(
    settings: Settings,
    tables: &[u32],
    c: Counts,
    lines: usize,
    n: usize,
    runs: &[u32],
    entries: &[u32],
    positions: usize,
    fifo: usize,
) -> Result<(), Refusal>
    ensures { code_of result ≡ layout_verdict settings tables.now c lines n runs.now entries.now
        (layout_sizes_ok c lines n (length runs.now) (length entries.now) positions fifo) }
{
    door::limits(tables::counts_ok(c) && lines <= 4096 && n <= 4096, settings)?;
    let sized = sizes_ok(c, lines, n, runs.len(), entries.len(), positions, fifo);
    door::ask(Refusal::Sizes, tables::slices_ok(tables, c) && sized)?;
    let within = line_layout::line_runs_ok(runs, lines, n);
    door::ask(Refusal::Runs, tables::runs_ok(tables, c) && within)?;
    let known = line_layout::entries_ok(c, entries, n);
    if !(known && tables::rows_ok(tables, c)) {
        door::ask(Refusal::Numbers, tables::numbers_ok(tables, c) && known)?;
        return Err(Refusal::Ranges);
    }
    door::ask(Refusal::Order, tables::order_ok(tables, c))
}

// What an admitted call writes.
fn lay_out(
    tables: &[u32],
    c: Counts,
    lines: usize,
    runs: &[u32],
    entries: &[u32],
    positions: &mut [u32],
    fifo: &mut [u32],
)
    requires { LayoutAdmitted tables.now c lines runs.now entries.now (layout_areas positions.old fifo.old) }
    ensures { layout_areas positions.new fifo.new
        ≡ layout_made tables.now c lines runs.now entries.now }
{
    line_layout::line_positions(c, lines, runs, entries, positions);
    line_layout::line_fifo(tables, c, lines, runs, entries, fifo);
}

// Positions and FIFO flags. `runs` are pairs (first entry, count), one a line; `entries` are trip numbers; `positions` takes
// one number a trip, `fifo` one a line, 1 or 0. A refusal leaves both slices as they came.
pub fn line_layout(
    settings: Settings,
    tables: &[u32],
    c: Counts,
    lines: usize,
    entry_count: usize,
    runs: &[u32],
    entries: &[u32],
    positions: &mut [u32],
    fifo: &mut [u32],
) -> Result<(), Refusal>
    ensures { layout_outcome_of (code_of result) (layout_areas positions.new fifo.new)
        ≡ layout_outcome settings tables.now c lines entry_count runs.now entries.now
        (layout_areas positions.old fifo.old) }
{
    questions(
        settings,
        tables,
        c,
        lines,
        entry_count,
        runs,
        entries,
        positions.len(),
        fifo.len(),
    )?;
    lay_out(tables, c, lines, runs, entries, positions, fifo);
    Ok(())
}
