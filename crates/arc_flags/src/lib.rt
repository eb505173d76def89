// arc_flags: arc flags of a query: the cells of its egress stops, patterns against them, and whether the flags skip anything.
// Place: the search.
// Specs: patterns and egress rows as the slices hold them (Flags, a claim); inner: which tables and queries agree with them, rows that flags skip
// (Skipping).
// Proves: each public function equal to the model's definition of the same name, for all tables and queries that agree.
// Assumes nothing.
#![tactic(auto)]

ghost use Rattle.std.specs.Prelude.{◌≡◌, ℕ, ◌+◌, ◌*◌, ◌/◌, ◌≤◌, ◌<◌, Bool, length};
ghost use Rattle.tables.specs.Timetable.{timetable};
ghost use Rattle.tables.specs.Sane.{Sane};
ghost use Rattle.cell_bitset.specs.CellSet.{cell_limit};
ghost use Rattle.model.specs.Tables.{Tables, Query};
ghost use Rattle.model.specs.Search.{holds_target, use_arc_flags, skips_edge, skips_transfer, flags_in_use};
ghost use Rattle.arc_flags.specs.Flags.{egress_rows};
ghost use Rattle.arc_flags.specs.Skipping.{target_words, Patterned, PatternsOk, EgressIn, Aimed, RowsIn, RunsIn};
ghost use Rattle.arc_flags.specs.Skipping.{run_has, row_skipped, first_skipped, some_run};
ghost use Rattle.arc_flags.specs.Skipping.{Transferring, within_run, CountedFrom, SkippedCounted, WindowSkips, RunsSkip};
ghost use Rattle.loops.specs.Iter.{some_in};
ghost use Rattle.loops.specs.Count.{one, count};

use cell_bitset::CellBitSet;
use tables::Counts;

// The cells of the egress stops, set one by one, as words.
pub fn target_cells(tables: &[u32], c: Counts, cells: u32, egress: &[u32]) -> [u64; 8]
    requires sane { Sane tables.now c }
    requires cells_bound { cells ≤ cell_limit }
    requires egress_in { EgressIn c egress.now }
    ensures { (T : Tables) (Q : Query) → T.timetable ≡ timetable tables.now c → T.cells ≡ cells → Q.egress
        ≡ egress_rows egress.now → result ≡ target_words T Q }
{
    let from = c.times * 6 + c.trips * 8 + c.windows * 3 + c.edges * 5;
    let mut set = CellBitSet::new(cells);
    for i in 0..egress.len() / 2 {
        let stop = egress[i * 2] as usize;
        set = set.set_bit(tables[from + stop]);
    }
    set.words()
}

// Does a pattern hold a target cell? A pattern number past the table counts as holding all.
pub fn holds_target(patterns: &[u8], count: usize, target: [u64; 8], p: usize) -> bool
    requires { PatternsOk patterns.now count }
    ensures { (T : Tables) (Q : Query) → Patterned T patterns.now count → target ≡ target_words T Q
        → result ≡ holds_target T Q p }
{
    count <= p || byte_words::row_shares(patterns, p * 64, target)
}

// Are there target cells and patterns, and are the flags not put off?
pub fn use_arc_flags(count: usize, target: [u64; 8], flags_off: bool) -> bool
    ensures { (T : Tables) (Q : Query) → T.patterns ≡ count → Q.flags_off ≡ flags_off → target ≡ target_words T Q
        → result ≡ use_arc_flags T Q }
{
    !byte_words::no_bit(target) && count != 0 && !flags_off
}

// Do the flags skip some walk edge?
fn skips_edge(tables: &[u32], c: Counts, patterns: &[u8], count: usize, target: [u64; 8]) -> bool
    requires sane { Sane tables.now c }
    requires patterns_ok { PatternsOk patterns.now count }
    ensures { (T : Tables) (Q : Query) → T.timetable ≡ timetable tables.now c → Patterned T patterns.now count
        → target ≡ target_words T Q → result ≡ skips_edge T Q }
{
    (0..c.edges).any(|k| {
        let p = tables::edge(tables, c, k, 4);
        !holds_target(patterns, count, target, p)
    })
}

// Do the flags skip row k of the transfer area?
fn row_skipped(transfers: &[u32], patterns: &[u8], count: usize, target: [u64; 8], k: usize) -> bool
    requires patterns_ok { PatternsOk patterns.now count }
    requires k_bound { k * 4 + 4 ≤ length transfers.now }
    ensures { (T : Tables) (Q : Query) → Aimed T Q patterns.now count target
        → result ≡ row_skipped T Q transfers.now k }
{
    let p = transfers[k * 4 + 3] as usize;
    !holds_target(patterns, count, target, p)
}

// The first of so many rows that the flags skip.
fn first_skipped(
    transfers: &[u32],
    patterns: &[u8],
    count: usize,
    target: [u64; 8],
    transfer_rows: usize,
) -> Option<usize>
    requires patterns_ok { PatternsOk patterns.now count }
    requires rows_in { RowsIn transfers.now transfer_rows }
    ensures { (T : Tables) (Q : Query) → Aimed T Q patterns.now count target → result
        ≡ first_skipped T Q transfers.now transfer_rows }
{
    (0..transfer_rows).find(|k| row_skipped(transfers, patterns, count, target, *k))
}

// Has the run of some event row k?
fn some_run_has(transfer_runs: &[u32], k: usize) -> bool
    ensures { result ≡ some_in (run_has transfer_runs.now k) 0 (length transfer_runs.now / 2) }
{
    (0..transfer_runs.len() / 2).any(|e| {
        let first = transfer_runs[e * 2] as usize;
        let end = first + transfer_runs[e * 2 + 1] as usize;
        first <= k && k < end
    })
}

// Of the n rows from `from` on, how many before each of them the flags skip, and how many in all.
fn count_skipped(
    transfers: &[u32],
    patterns: &[u8],
    count: usize,
    target: [u64; 8],
    from: usize,
    n: usize,
    counts: &mut [u32],
)
    requires patterns_ok { PatternsOk patterns.now count }
    requires rows_in { RowsIn transfers.now (from + n) }
    requires n_bound { n < length counts.old }
    ensures { SkippedCounted transfers.now patterns.now count target from n counts.new }
{
    let mut skipped: u32 = 0;
    for k in 0..n {
        counts[k] = skipped;
        skipped += u32::from(row_skipped(transfers, patterns, count, target, from + k));
    }
    counts[n] = skipped;
}

// How many rows of the window before row k pass. A row before the window counts as its first, a row after it as its end.
fn counted_before(counts: &[u32], from: usize, n: usize, k: usize) -> u32
    requires { n < length counts.now }
    ensures { (f : ℕ → Bool) → CountedFrom f from n counts.now → result ≡ count (within_run f from n) k }
{
    counts[k.saturating_sub(from).min(n)]
}

// Has some event's run a row of the window that passes? By the counts: more pass before the run's end than before its first row.
fn some_run_passes(transfer_runs: &[u32], from: usize, n: usize, counts: &[u32]) -> bool
    requires { n < length counts.now }
    ensures { (f : ℕ → Bool) → CountedFrom f from n counts.now
        → result ≡ some_run (within_run f from n) transfer_runs.now }
{
    (0..transfer_runs.len() / 2).any(|e| {
        let first = transfer_runs[e * 2] as usize;
        let end = first + transfer_runs[e * 2 + 1] as usize;
        counted_before(counts, from, n, first) < counted_before(counts, from, n, end)
    })
}

// Has some event's run a row of one window that the flags skip? The window has at most 4,096 rows, so that its counts need little stack. Where they
// skip none of its rows, no run is looked at.
fn window_skips(
    transfer_runs: &[u32],
    transfers: &[u32],
    patterns: &[u8],
    count: usize,
    target: [u64; 8],
    from: usize,
    n: usize,
) -> bool
    requires patterns_ok { PatternsOk patterns.now count }
    requires rows_in { RowsIn transfers.now (from + n) }
    requires n_bound { n ≤ 4096 }
    ensures { WindowSkips transfer_runs.now transfers.now patterns.now count target from n result }
{
    let mut counts = [0u32; 4097];
    count_skipped(transfers, patterns, count, target, from, n, &mut counts);
    counts[n] != 0 && some_run_passes(transfer_runs, from, n, &counts)
}

// Has some event's run a row that the flags skip? Window by window.
fn some_window_skips(
    transfer_runs: &[u32],
    transfers: &[u32],
    transfer_rows: usize,
    patterns: &[u8],
    count: usize,
    target: [u64; 8],
) -> bool
    requires patterns_ok { PatternsOk patterns.now count }
    requires rows_in { RowsIn transfers.now transfer_rows }
    requires runs_in { RunsIn transfer_runs.now transfer_rows }
    ensures { RunsSkip transfer_runs.now transfers.now patterns.now count target result }
{
    for from in (0..transfer_rows).step_by(4096) {
        let n = (transfer_rows - from).min(4096);
        if window_skips(transfer_runs, transfers, patterns, count, target, from, n) {
            return true;
        }
    }
    false
}

// Do the flags skip some transfer? Runs may overlap, so no run is read row by row: that could take events times rows. Most often no row is skipped,
// or some run has the first that is. Only where neither is so are the skipped rows counted, in windows of 4,096 rows, and in each window a run
// is two look-ups: at most 16 passes over the events.
fn skips_transfer(
    transfer_runs: &[u32],
    transfers: &[u32],
    transfer_rows: usize,
    patterns: &[u8],
    count: usize,
    target: [u64; 8],
) -> bool
    requires patterns_ok { PatternsOk patterns.now count }
    requires rows_in { RowsIn transfers.now transfer_rows }
    requires runs_in { RunsIn transfer_runs.now transfer_rows }
    ensures { (T : Tables) (Q : Query) → Patterned T patterns.now count
        → Transferring T transfer_runs.now transfers.now → target ≡ target_words T Q → result ≡ skips_transfer T Q }
{
    match first_skipped(transfers, patterns, count, target, transfer_rows) {
        None => false,
        Some(k) => {
            some_run_has(transfer_runs, k)
                || some_window_skips(
                    transfer_runs,
                    transfers,
                    transfer_rows,
                    patterns,
                    count,
                    target,
                )
        }
    }
}

// Are the flags in use: not put off, and do they skip some walk edge or transfer?
pub fn flags_in_use(
    tables: &[u32],
    c: Counts,
    transfer_runs: &[u32],
    transfers: &[u32],
    transfer_rows: usize,
    patterns: &[u8],
    count: usize,
    target: [u64; 8],
    flags_off: bool,
) -> bool
    requires sane { Sane tables.now c }
    requires patterns_ok { PatternsOk patterns.now count }
    requires rows_in { RowsIn transfers.now transfer_rows }
    requires runs_in { RunsIn transfer_runs.now transfer_rows }
    ensures { (T : Tables) (Q : Query) → T.timetable ≡ timetable tables.now c → Patterned T patterns.now count
        → Transferring T transfer_runs.now transfers.now → target ≡ target_words T Q → Q.flags_off ≡ flags_off
        → result ≡ flags_in_use T Q }
{
    use_arc_flags(count, target, flags_off)
        && (skips_edge(tables, c, patterns, count, target)
            || skips_transfer(
                transfer_runs,
                transfers,
                transfer_rows,
                patterns,
                count,
                target,
            ))
}
