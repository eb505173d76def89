// sized_calls: the calls whose counts a caller hands in one number each, over the call crates, which take them as one record.
// Place: beside `exports`, below the tally.
// Specs (a claim): what a call shows of an outcome (Shown).
// Proves: each call's whole outcome is the call crate's definition of it.
// Assumes nothing.
#![tactic(auto)]

ghost use Rattle.std.specs.Prelude.{◌≡◌};
ghost use Rattle.door.specs.Door.{answer_of, code_of};
ghost use Rattle.departures_call.specs.Call.{sort_areas, sort_outcome_of, sort_outcome};
ghost use Rattle.lines_call.specs.Call.{line_areas, lines_outcome};
ghost use Rattle.layout_call.specs.Call.{layout_areas, layout_outcome_of, layout_outcome};
ghost use Rattle.transfers_call.specs.Call.{transfer_areas, transfer_lent, transfers_outcome};
ghost use Rattle.query_input.specs.Lent.{lent};
ghost use Rattle.query_call.specs.Workspace.{workspace_answer};
ghost use Rattle.query_reply.specs.Outcome.{query_areas};
ghost use Rattle.query_call.specs.Call.{run_tbr_outcome, query_outcome};
ghost use Rattle.sizes.specs.Counts.{counts_of, query_counts_of};
ghost use Rattle.sized_calls.specs.Shown.{shown, shown_of, shown_transfers, shown_transfers_of};

use door::{Refusal, Settings};
use query_reply::Reply;
use sizes::QuerySizes;

pub fn sort_stop_departures(
    settings: Settings,
    stops: u32,
    trips: u32,
    times: u32,
    windows: u32,
    edges: u32,
    departures: u32,
    tables: &[u32],
    runs: &[u32],
    rows: &mut [u32],
    marks: &mut [u32],
    work: &mut [u64],
    other: &mut [u64],
) -> Result<(), Refusal>
    ensures { sort_outcome_of (code_of result) (sort_areas rows.new marks.new work.new other.new)
        ≡ sort_outcome settings tables.now (counts_of stops trips times windows edges) departures runs.now
        (sort_areas rows.old marks.old work.old other.old) }
{
    let c = sizes::counts(stops, trips, times, windows, edges);
    departures_call::sort_stop_departures(
        settings,
        tables,
        c,
        departures as usize,
        runs,
        rows,
        marks,
        work,
        other,
    )
}

pub fn compute_line_groups(
    settings: Settings,
    stops: u32,
    trips: u32,
    times: u32,
    windows: u32,
    edges: u32,
    tables: &[u32],
    lines: &mut [u32],
    runs: &mut [u32],
    entries: &mut [u32],
    work: &mut [u64],
    other: &mut [u64],
) -> Result<u32, Refusal>
    ensures { shown (answer_of result) (line_areas lines.new runs.new entries.new work.new other.new)
        ≡ shown_of (lines_outcome settings tables.now (counts_of stops trips times windows edges)
        (line_areas lines.old runs.old entries.old work.old other.old)) }
{
    let c = sizes::counts(stops, trips, times, windows, edges);
    lines_call::compute_line_groups(settings, tables, c, lines, runs, entries, work, other)
}

pub fn line_layout(
    settings: Settings,
    stops: u32,
    trips: u32,
    times: u32,
    windows: u32,
    edges: u32,
    lines: u32,
    entry_count: u32,
    tables: &[u32],
    runs: &[u32],
    entries: &[u32],
    positions: &mut [u32],
    fifo: &mut [u32],
) -> Result<(), Refusal>
    ensures { layout_outcome_of (code_of result) (layout_areas positions.new fifo.new)
        ≡ layout_outcome settings tables.now (counts_of stops trips times windows edges) lines entry_count runs.now
        entries.now (layout_areas positions.old fifo.old) }
{
    let c = sizes::counts(stops, trips, times, windows, edges);
    layout_call::line_layout(
        settings,
        tables,
        c,
        lines as usize,
        entry_count as usize,
        runs,
        entries,
        positions,
        fifo,
    )
}

pub fn compute_trip_transfers(
    settings: Settings,
    stops: u32,
    trips: u32,
    times: u32,
    windows: u32,
    edges: u32,
    line_count: u32,
    departures: u32,
    tables: &[u32],
    lines: &[u32],
    runs: &[u32],
    rows: &[u32],
    area: &mut [u32],
    transfer_runs: &mut [u32],
) -> Result<u32, Refusal>
    ensures { shown_transfers (answer_of result) (transfer_areas area.new transfer_runs.new)
        ≡ shown_transfers_of (transfers_outcome (transfer_lent settings tables.now (counts_of stops trips times windows edges) line_count
        lines.now departures runs.now rows.now)
        (transfer_areas area.old transfer_runs.old)) }
{
    let c = sizes::counts(stops, trips, times, windows, edges);
    transfers_call::compute_trip_transfers(
        settings,
        tables,
        c,
        line_count as usize,
        lines,
        departures as usize,
        runs,
        rows,
        area,
        transfer_runs,
    )
}

pub fn work_size(settings: Settings, sizes: QuerySizes) -> Result<u32, Refusal>
    ensures { answer_of result ≡ workspace_answer (query_counts_of settings sizes) }
{
    query_call::workspace(sizes::query_counts(settings, sizes))
}

pub fn run_tbr(
    settings: Settings,
    sizes: QuerySizes,
    tables: &[u32],
    built: &[u32],
    transfers: &[u32],
    patterns: &[u8],
    distances: &[f64],
    query: &[u32],
    labels: &mut [u32],
    label_distances: &mut [f64],
    work: &mut [u32],
    queue_a: &mut [u32],
    queue_b: &mut [u32],
    candidates: &mut [u32],
) -> Reply
    ensures { record {
      reply = result;
      areas = query_areas labels.new label_distances.new work.new
          queue_a.new queue_b.new candidates.new;
    }
        ≡ run_tbr_outcome (lent (query_counts_of settings sizes) tables.now built.now transfers.now
        patterns.now distances.now query.now)
        (query_areas labels.old label_distances.old work.old queue_a.old queue_b.old
        candidates.old) }
{
    query_call::run_tbr(
        sizes::query_counts(settings, sizes),
        tables,
        built,
        transfers,
        patterns,
        distances,
        query,
        labels,
        label_distances,
        work,
        queue_a,
        queue_b,
        candidates,
    )
}

pub fn query(
    settings: Settings,
    sizes: QuerySizes,
    tables: &[u32],
    built: &[u32],
    transfers: &[u32],
    patterns: &[u8],
    distances: &[f64],
    query: &[u32],
    labels: &mut [u32],
    label_distances: &mut [f64],
    work: &mut [u32],
    queue_a: &mut [u32],
    queue_b: &mut [u32],
    candidates: &mut [u32],
) -> Reply
    ensures { record {
      reply = result;
      areas = query_areas labels.new label_distances.new work.new
          queue_a.new queue_b.new candidates.new;
    }
        ≡ query_outcome (lent (query_counts_of settings sizes) tables.now built.now transfers.now
        patterns.now distances.now query.now)
        (query_areas labels.old label_distances.old work.old queue_a.old queue_b.old
        candidates.old) }
{
    query_call::query(
        sizes::query_counts(settings, sizes),
        tables,
        built,
        transfers,
        patterns,
        distances,
        query,
        labels,
        label_distances,
        work,
        queue_a,
        queue_b,
        candidates,
    )
}
