// exports_c: the calls of the library as a static library, for C and for Rust. A crate is a library or a static library and not both, so
// `exports` is the library, on which the programs stand, and this crate has a function of the same C name for each of its calls, which makes
// that call.
// Written by bindings/generate: change crates/exports/src/lib.rt, which also says what each call is, and not this file.
// Place: above exports; no crate stands on it.
// Proves: each call keeps the clauses of its like in `exports`, which stand here word for word.
// Assumes nothing.
#![tactic(auto)]

ghost use Rattle.std.specs.Prelude.{◌≡◌};
ghost use Rattle.tally.specs.Screen.{for_screen, tally_after};
ghost use Rattle.door.specs.Door.{refusal};
ghost use Rattle.cell_bitset.specs.CellSet.{empty_set};
ghost use Rattle.cell_set_call.specs.CellSetCall.{created, resized, with_cell_answer, held_answer, meets_answer, union_answer, empty_answer};
ghost use Rattle.leaf_calls.specs.WalkCall.{walk_duration, rounds_answer};
ghost use Rattle.frequency_call.specs.FrequencyCall.{no_board, freq_outcome};
ghost use Rattle.leaf_calls.specs.StopDelayCall.{departure_outcome, arrival_outcome, skipped_outcome};
ghost use Rattle.stop_delay.specs.Times.{no_delay};
ghost use Rattle.delay_call.specs.DelayCall.{told, margin_outcome, delay_at_outcome};
ghost use Rattle.label_call.specs.Calls.{label_outcome, store_outcome, refused_label, load_answer};
ghost use Rattle.label.specs.declared.Label.TheVariants.{Access, Transit, Walk};
ghost use Rattle.leaf_calls.specs.ClockCall.{service_second};
ghost use Rattle.departures_call.specs.Call.{sort_areas, sort_outcome_of, sort_outcome};
ghost use Rattle.lines_call.specs.Call.{line_areas, lines_outcome};
ghost use Rattle.layout_call.specs.Call.{layout_areas, layout_outcome_of, layout_outcome};
ghost use Rattle.transfers_call.specs.Call.{transfer_areas, transfer_lent, transfers_outcome};
ghost use Rattle.query_input.specs.Lent.{lent};
ghost use Rattle.query_call.specs.Workspace.{workspace_answer};
ghost use Rattle.query_reply.specs.Outcome.{query_areas, refused};
ghost use Rattle.query_call.specs.Call.{run_tbr_outcome, query_outcome};
ghost use Rattle.sizes.specs.Counts.{counts_of, query_counts_of};
ghost use Rattle.sized_calls.specs.Shown.{shown, shown_of, shown_transfers, shown_transfers_of};

use cell_bitset::CellBitSet;
use cell_set_call::CellSetAnswer;
use delay_call::DelayAt;
use door::{Answer, Settings};
use frequency_call::FreqAnswer;
use label_call::LabelAnswer;
use query_reply::Reply;
use sizes::QuerySizes;

#[unsafe(no_mangle)]
pub extern "C" fn savoiky_cell_bitset_new(
    tally: &mut [u32; 128],
    screen: u32,
    settings: Settings,
    num_cells: u32,
) -> CellSetAnswer
    ensures outcome { result ≡ for_screen screen (record { code = 15; set = empty_set 0 }) (created settings num_cells) }
    ensures counts { tally.new ≡ tally_after tally.old screen result.code }
{
    exports::savoiky_cell_bitset_new(tally, screen, settings, num_cells)
}

#[unsafe(no_mangle)]
pub extern "C" fn savoiky_cell_bitset_ensure_sized(
    tally: &mut [u32; 128],
    screen: u32,
    settings: Settings,
    set: CellBitSet,
    num_cells: u32,
) -> CellSetAnswer
    ensures outcome { result ≡ for_screen screen (record { code = 15; set = set }) (resized settings set num_cells) }
    ensures counts { tally.new ≡ tally_after tally.old screen result.code }
{
    exports::savoiky_cell_bitset_ensure_sized(tally, screen, settings, set, num_cells)
}

#[unsafe(no_mangle)]
pub extern "C" fn savoiky_cell_bitset_set_bit(
    tally: &mut [u32; 128],
    screen: u32,
    settings: Settings,
    set: CellBitSet,
    cell: u32,
) -> CellSetAnswer
    ensures outcome { result ≡ for_screen screen (record { code = 15; set = set }) (with_cell_answer settings set cell) }
    ensures counts { tally.new ≡ tally_after tally.old screen result.code }
{
    exports::savoiky_cell_bitset_set_bit(tally, screen, settings, set, cell)
}

#[unsafe(no_mangle)]
pub extern "C" fn savoiky_cell_bitset_get_bit(
    tally: &mut [u32; 128],
    screen: u32,
    settings: Settings,
    set: CellBitSet,
    cell: u32,
) -> Answer
    ensures outcome { result ≡ for_screen screen (refusal 15) (held_answer settings set cell) }
    ensures counts { tally.new ≡ tally_after tally.old screen result.code }
{
    exports::savoiky_cell_bitset_get_bit(tally, screen, settings, set, cell)
}

#[unsafe(no_mangle)]
pub extern "C" fn savoiky_cell_bitset_intersects(
    tally: &mut [u32; 128],
    screen: u32,
    settings: Settings,
    set: CellBitSet,
    other: CellBitSet,
) -> Answer
    ensures outcome { result ≡ for_screen screen (refusal 15) (meets_answer settings set other) }
    ensures counts { tally.new ≡ tally_after tally.old screen result.code }
{
    exports::savoiky_cell_bitset_intersects(tally, screen, settings, set, other)
}

#[unsafe(no_mangle)]
pub extern "C" fn savoiky_cell_bitset_union_with(
    tally: &mut [u32; 128],
    screen: u32,
    settings: Settings,
    set: CellBitSet,
    other: CellBitSet,
) -> CellSetAnswer
    ensures outcome { result ≡ for_screen screen (record { code = 15; set = set }) (union_answer settings set other) }
    ensures counts { tally.new ≡ tally_after tally.old screen result.code }
{
    exports::savoiky_cell_bitset_union_with(tally, screen, settings, set, other)
}

#[unsafe(no_mangle)]
pub extern "C" fn savoiky_cell_bitset_is_empty(
    tally: &mut [u32; 128],
    screen: u32,
    settings: Settings,
    set: CellBitSet,
) -> Answer
    ensures outcome { result ≡ for_screen screen (refusal 15) (empty_answer settings set) }
    ensures counts { tally.new ≡ tally_after tally.old screen result.code }
{
    exports::savoiky_cell_bitset_is_empty(tally, screen, settings, set)
}

#[unsafe(no_mangle)]
pub extern "C" fn savoiky_walk_duration(
    tally: &mut [u32; 128],
    screen: u32,
    settings: Settings,
    duration: u32,
    pathway_mode: u32,
    wheelchair: u32,
) -> Answer
    ensures outcome { result ≡ for_screen screen (refusal 15) (walk_duration settings duration pathway_mode wheelchair) }
    ensures counts { tally.new ≡ tally_after tally.old screen result.code }
{
    exports::savoiky_walk_duration(tally, screen, settings, duration, pathway_mode, wheelchair)
}

#[unsafe(no_mangle)]
pub extern "C" fn savoiky_max_rounds(
    tally: &mut [u32; 128],
    screen: u32,
    settings: Settings,
    wanted: u32,
    transfers: u32,
) -> Answer
    ensures outcome { result ≡ for_screen screen (refusal 15) (rounds_answer settings wanted transfers) }
    ensures counts { tally.new ≡ tally_after tally.old screen result.code }
{
    exports::savoiky_max_rounds(tally, screen, settings, wanted, transfers)
}

#[unsafe(no_mangle)]
pub extern "C" fn savoiky_freq_board(
    tally: &mut [u32; 128],
    screen: u32,
    settings: Settings,
    count: u32,
    windows: &[u32],
    base: u32,
    dep: u32,
    after: u32,
) -> FreqAnswer
    ensures outcome { result ≡ for_screen screen (no_board 15) (freq_outcome settings count windows.now base dep after) }
    ensures counts { tally.new ≡ tally_after tally.old screen result.code }
{
    exports::savoiky_freq_board(tally, screen, settings, count, windows, base, dep, after)
}

#[unsafe(no_mangle)]
pub extern "C" fn savoiky_effective_departure(
    tally: &mut [u32; 128],
    screen: u32,
    settings: Settings,
    departure: u32,
    trip_delay: u32,
    flags: u32,
    departure_delay: u32,
) -> Answer
    ensures outcome { result ≡ for_screen screen (refusal 15)
        (departure_outcome settings departure trip_delay flags departure_delay) }
    ensures counts { tally.new ≡ tally_after tally.old screen result.code }
{
    exports::savoiky_effective_departure(
        tally,
        screen,
        settings,
        departure,
        trip_delay,
        flags,
        departure_delay,
    )
}

#[unsafe(no_mangle)]
pub extern "C" fn savoiky_effective_arrival(
    tally: &mut [u32; 128],
    screen: u32,
    settings: Settings,
    arrival: u32,
    time_shift_s: u32,
    trip_delay: u32,
    flags: u32,
    arrival_delay: u32,
) -> Answer
    ensures outcome { result ≡ for_screen screen (refusal 15)
        (arrival_outcome settings arrival time_shift_s trip_delay flags arrival_delay) }
    ensures counts { tally.new ≡ tally_after tally.old screen result.code }
{
    exports::savoiky_effective_arrival(
        tally,
        screen,
        settings,
        arrival,
        time_shift_s,
        trip_delay,
        flags,
        arrival_delay,
    )
}

#[unsafe(no_mangle)]
pub extern "C" fn savoiky_skipped(
    tally: &mut [u32; 128],
    screen: u32,
    settings: Settings,
    flags: u32,
) -> Answer
    ensures outcome { result ≡ for_screen screen (refusal 15) (skipped_outcome settings flags) }
    ensures counts { tally.new ≡ tally_after tally.old screen result.code }
{
    exports::savoiky_skipped(tally, screen, settings, flags)
}

#[unsafe(no_mangle)]
pub extern "C" fn savoiky_margin(
    tally: &mut [u32; 128],
    screen: u32,
    settings: Settings,
    trips: u32,
    delay_row_count: u32,
    stop_row_count: u32,
    delay_rows: &[u32],
    stop_rows: &[u32],
) -> Answer
    ensures outcome { result ≡ for_screen screen (refusal 15)
        (margin_outcome settings trips delay_row_count stop_row_count delay_rows.now stop_rows.now) }
    ensures counts { tally.new ≡ tally_after tally.old screen result.code }
{
    exports::savoiky_margin(
        tally,
        screen,
        settings,
        trips,
        delay_row_count,
        stop_row_count,
        delay_rows,
        stop_rows,
    )
}

#[unsafe(no_mangle)]
pub extern "C" fn savoiky_delay_at(
    tally: &mut [u32; 128],
    screen: u32,
    settings: Settings,
    trips: u32,
    delay_row_count: u32,
    stop_row_count: u32,
    delay_rows: &[u32],
    stop_rows: &[u32],
    trip: u32,
    sequence: u32,
) -> DelayAt
    ensures outcome { result ≡ for_screen screen (told 15 0 no_delay)
        (delay_at_outcome settings trips delay_row_count stop_row_count delay_rows.now stop_rows.now
        trip sequence) }
    ensures counts { tally.new ≡ tally_after tally.old screen result.code }
{
    exports::savoiky_delay_at(
        tally,
        screen,
        settings,
        trips,
        delay_row_count,
        stop_row_count,
        delay_rows,
        stop_rows,
        trip,
        sequence,
    )
}

#[unsafe(no_mangle)]
pub extern "C" fn savoiky_service_second(
    tally: &mut [u32; 128],
    screen: u32,
    settings: Settings,
    hour: u32,
    minute: u32,
    second: u32,
) -> Answer
    ensures outcome { result ≡ for_screen screen (refusal 15) (service_second settings hour minute second) }
    ensures counts { tally.new ≡ tally_after tally.old screen result.code }
{
    exports::savoiky_service_second(tally, screen, settings, hour, minute, second)
}

#[unsafe(no_mangle)]
pub extern "C" fn savoiky_label_store_access(
    tally: &mut [u32; 128],
    screen: u32,
    settings: Settings,
    stops: u32,
    stop: u32,
    row: u32,
    stop_idx: u32,
    arrival_s: u32,
    walk_duration: u32,
    walk_distance: f64,
    labels: &mut [u32],
    label_distances: &mut [f64],
) -> u32
    ensures outcome { label_outcome result labels.new label_distances.new
        ≡ for_screen screen (label_outcome 15 labels.old label_distances.old)
        (store_outcome settings (Access stop_idx arrival_s walk_duration walk_distance) stops stop row labels.old
        label_distances.old) }
    ensures counts { tally.new ≡ tally_after tally.old screen result }
{
    exports::savoiky_label_store_access(
        tally,
        screen,
        settings,
        stops,
        stop,
        row,
        stop_idx,
        arrival_s,
        walk_duration,
        walk_distance,
        labels,
        label_distances,
    )
}

#[unsafe(no_mangle)]
pub extern "C" fn savoiky_label_store_transit(
    tally: &mut [u32; 128],
    screen: u32,
    settings: Settings,
    stops: u32,
    stop: u32,
    row: u32,
    arrival_s: u32,
    trip_idx: u32,
    board_stop: u32,
    board_off: u32,
    alight_off: u32,
    prev_round: u32,
    time_shift_s: u32,
    labels: &mut [u32],
    label_distances: &mut [f64],
) -> u32
    ensures outcome { label_outcome result labels.new label_distances.new
        ≡ for_screen screen (label_outcome 15 labels.old label_distances.old)
        (store_outcome settings (Transit arrival_s trip_idx board_stop board_off alight_off prev_round time_shift_s)
        stops stop row
        labels.old label_distances.old) }
    ensures counts { tally.new ≡ tally_after tally.old screen result }
{
    exports::savoiky_label_store_transit(
        tally,
        screen,
        settings,
        stops,
        stop,
        row,
        arrival_s,
        trip_idx,
        board_stop,
        board_off,
        alight_off,
        prev_round,
        time_shift_s,
        labels,
        label_distances,
    )
}

#[unsafe(no_mangle)]
pub extern "C" fn savoiky_label_store_walk(
    tally: &mut [u32; 128],
    screen: u32,
    settings: Settings,
    stops: u32,
    stop: u32,
    row: u32,
    arrival_s: u32,
    from_stop: u32,
    to_stop: u32,
    duration_s: u32,
    distance_m: f64,
    prev_round: u32,
    labels: &mut [u32],
    label_distances: &mut [f64],
) -> u32
    ensures outcome { label_outcome result labels.new label_distances.new
        ≡ for_screen screen (label_outcome 15 labels.old label_distances.old)
        (store_outcome settings (Walk arrival_s from_stop to_stop duration_s distance_m prev_round) stops stop row
        labels.old
        label_distances.old) }
    ensures counts { tally.new ≡ tally_after tally.old screen result }
{
    exports::savoiky_label_store_walk(
        tally,
        screen,
        settings,
        stops,
        stop,
        row,
        arrival_s,
        from_stop,
        to_stop,
        duration_s,
        distance_m,
        prev_round,
        labels,
        label_distances,
    )
}

#[unsafe(no_mangle)]
pub extern "C" fn savoiky_label_load(
    tally: &mut [u32; 128],
    screen: u32,
    settings: Settings,
    stops: u32,
    stop: u32,
    row: u32,
    labels: &[u32],
    label_distances: &[f64],
) -> LabelAnswer
    ensures outcome { result ≡ for_screen screen (refused_label 15)
        (load_answer settings stops stop row labels.now label_distances.now) }
    ensures counts { tally.new ≡ tally_after tally.old screen result.code }
{
    exports::savoiky_label_load(
        tally,
        screen,
        settings,
        stops,
        stop,
        row,
        labels,
        label_distances,
    )
}

#[unsafe(no_mangle)]
pub extern "C" fn savoiky_sort_stop_departures(
    tally: &mut [u32; 128],
    screen: u32,
    settings: Settings,
    stops: u32,
    trips: u32,
    times: u32,
    windows: u32,
    edges: u32,
    departures: u32,
    tables: &[u32],
    runs: &[u32],
    rows: &mut [u32],
    marks: &mut [u32],
    work: &mut [u64],
    other: &mut [u64],
) -> u32
    ensures outcome { sort_outcome_of result (sort_areas rows.new marks.new work.new other.new)
        ≡ for_screen screen (sort_outcome_of 15 (sort_areas rows.old marks.old work.old other.old))
        (sort_outcome settings tables.now (counts_of stops trips times windows edges) departures runs.now
        (sort_areas rows.old marks.old work.old other.old)) }
    ensures counts { tally.new ≡ tally_after tally.old screen result }
{
    exports::savoiky_sort_stop_departures(
        tally, screen, settings, stops, trips, times, windows, edges, departures, tables, runs,
        rows, marks, work, other,
    )
}

#[unsafe(no_mangle)]
pub extern "C" fn savoiky_compute_line_groups(
    tally: &mut [u32; 128],
    screen: u32,
    settings: Settings,
    stops: u32,
    trips: u32,
    times: u32,
    windows: u32,
    edges: u32,
    tables: &[u32],
    lines: &mut [u32],
    runs: &mut [u32],
    entries: &mut [u32],
    work: &mut [u64],
    other: &mut [u64],
) -> Answer
    ensures outcome { shown result (line_areas lines.new runs.new entries.new work.new
        other.new)
        ≡ for_screen screen (shown (refusal 15) (line_areas lines.old runs.old entries.old work.old
        other.old))
        (shown_of (lines_outcome settings tables.now (counts_of stops trips times windows edges)
        (line_areas lines.old runs.old entries.old work.old other.old))) }
    ensures counts { tally.new ≡ tally_after tally.old screen result.code }
{
    exports::savoiky_compute_line_groups(
        tally, screen, settings, stops, trips, times, windows, edges, tables, lines, runs, entries,
        work, other,
    )
}

#[unsafe(no_mangle)]
pub extern "C" fn savoiky_line_layout(
    tally: &mut [u32; 128],
    screen: u32,
    settings: Settings,
    stops: u32,
    trips: u32,
    times: u32,
    windows: u32,
    edges: u32,
    lines: u32,
    entry_count: u32,
    tables: &[u32],
    runs: &[u32],
    entries: &[u32],
    positions: &mut [u32],
    fifo: &mut [u32],
) -> u32
    ensures outcome { layout_outcome_of result (layout_areas positions.new fifo.new)
        ≡ for_screen screen (layout_outcome_of 15 (layout_areas positions.old fifo.old))
        (layout_outcome settings tables.now (counts_of stops trips times windows edges) lines entry_count runs.now
        entries.now
        (layout_areas positions.old fifo.old)) }
    ensures counts { tally.new ≡ tally_after tally.old screen result }
{
    exports::savoiky_line_layout(
        tally,
        screen,
        settings,
        stops,
        trips,
        times,
        windows,
        edges,
        lines,
        entry_count,
        tables,
        runs,
        entries,
        positions,
        fifo,
    )
}

#[unsafe(no_mangle)]
pub extern "C" fn savoiky_compute_trip_transfers(
    tally: &mut [u32; 128],
    screen: u32,
    settings: Settings,
    stops: u32,
    trips: u32,
    times: u32,
    windows: u32,
    edges: u32,
    line_count: u32,
    departures: u32,
    tables: &[u32],
    lines: &[u32],
    runs: &[u32],
    rows: &[u32],
    area: &mut [u32],
    transfer_runs: &mut [u32],
) -> Answer
    ensures outcome { shown_transfers result (transfer_areas area.new transfer_runs.new)
        ≡ for_screen screen (shown_transfers (refusal 15) (transfer_areas area.old transfer_runs.old))
        (shown_transfers_of (transfers_outcome (transfer_lent settings tables.now (counts_of stops trips times windows edges) line_count
        lines.now departures runs.now rows.now)
        (transfer_areas area.old transfer_runs.old))) }
    ensures counts { tally.new ≡ tally_after tally.old screen result.code }
{
    exports::savoiky_compute_trip_transfers(
        tally,
        screen,
        settings,
        stops,
        trips,
        times,
        windows,
        edges,
        line_count,
        departures,
        tables,
        lines,
        runs,
        rows,
        area,
        transfer_runs,
    )
}

#[unsafe(no_mangle)]
pub extern "C" fn savoiky_work_size(
    tally: &mut [u32; 128],
    screen: u32,
    settings: Settings,
    sizes: QuerySizes,
) -> Answer
    ensures outcome { result ≡ for_screen screen (refusal 15) (workspace_answer (query_counts_of settings sizes)) }
    ensures counts { tally.new ≡ tally_after tally.old screen result.code }
{
    exports::savoiky_work_size(tally, screen, settings, sizes)
}

#[unsafe(no_mangle)]
pub extern "C" fn savoiky_run_tbr(
    tally: &mut [u32; 128],
    screen: u32,
    settings: Settings,
    sizes: QuerySizes,
    tables: &[u32],
    built: &[u32],
    transfers: &[u32],
    patterns: &[u8],
    distances: &[f64],
    query: &[u32],
    labels: &mut [u32],
    label_distances: &mut [f64],
    work: &mut [u32],
    queue_a: &mut [u32],
    queue_b: &mut [u32],
    candidates: &mut [u32],
) -> Reply
    ensures outcome { record {
      reply = result;
      areas = query_areas labels.new label_distances.new work.new queue_a.new queue_b.new
          candidates.new;
    }
        ≡ for_screen screen (refused 15 (query_areas labels.old label_distances.old work.old
        queue_a.old
        queue_b.old candidates.old))
        (run_tbr_outcome (lent (query_counts_of settings sizes) tables.now built.now transfers.now
        patterns.now distances.now query.now)
        (query_areas labels.old label_distances.old work.old queue_a.old queue_b.old
        candidates.old)) }
    ensures counts { tally.new ≡ tally_after tally.old screen result.code }
{
    exports::savoiky_run_tbr(
        tally,
        screen,
        settings,
        sizes,
        tables,
        built,
        transfers,
        patterns,
        distances,
        query,
        labels,
        label_distances,
        work,
        queue_a,
        queue_b,
        candidates,
    )
}

#[unsafe(no_mangle)]
pub extern "C" fn savoiky_query(
    tally: &mut [u32; 128],
    screen: u32,
    settings: Settings,
    sizes: QuerySizes,
    tables: &[u32],
    built: &[u32],
    transfers: &[u32],
    patterns: &[u8],
    distances: &[f64],
    query: &[u32],
    labels: &mut [u32],
    label_distances: &mut [f64],
    work: &mut [u32],
    queue_a: &mut [u32],
    queue_b: &mut [u32],
    candidates: &mut [u32],
) -> Reply
    ensures outcome { record {
      reply = result;
      areas = query_areas labels.new label_distances.new work.new queue_a.new queue_b.new
          candidates.new;
    }
        ≡ for_screen screen (refused 15 (query_areas labels.old label_distances.old work.old
        queue_a.old
        queue_b.old candidates.old))
        (query_outcome (lent (query_counts_of settings sizes) tables.now built.now transfers.now patterns.now
        distances.now query.now)
        (query_areas labels.old label_distances.old work.old queue_a.old queue_b.old
        candidates.old)) }
    ensures counts { tally.new ≡ tally_after tally.old screen result.code }
{
    exports::savoiky_query(
        tally,
        screen,
        settings,
        sizes,
        tables,
        built,
        transfers,
        patterns,
        distances,
        query,
        labels,
        label_distances,
        work,
        queue_a,
        queue_b,
        candidates,
    )
}
