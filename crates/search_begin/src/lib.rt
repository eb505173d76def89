// search_begin: how a query begins: a new state, the egress table, positions, FIFO flags and events laid out in the working numbers, and the origins.
// Place: the search.
// Specs (inner): slices filled (Fill); what the rounds read and the state before the first of them (Begin); a section filled, the origins gone
// through (Laying).
// Proves: after `begin` memory holds the model's `begin` of the tables and the query that the lent slices say, and all that the rounds read.
// proofs/Turns: from one phase to the next.
// Assumes nothing.
#![tactic(auto)]

ghost use Rattle.std.specs.Prelude.{◌≡◌, Bool, ◌+◌, ◌≤◌, ◌<◌, [], length, get_or, set, replicate};
ghost use Rattle.label.specs.Label.{no_distance};
ghost use Rattle.search_state.specs.Places.{WorkSized, Sized, EgressTable, turned};
ghost use Rattle.query_types.specs.Layout.{rest_at, positions_at, fifo_at, events_at, lay_of};
ghost use Rattle.search_state.specs.View.{memory};
ghost use Rattle.search_begin.specs.Fill.{Fresh, EgressRows, Egressed, egress_of};
ghost use Rattle.tables.specs.Timetable.{timetable};
ghost use Rattle.tables.specs.Sane.{Sane};
ghost use Rattle.line_layout.specs.Layout.{position_in, line_trips_in, fifo_of};
ghost use Rattle.event_transfers.specs.Transfers.{events_before};
ghost use Rattle.model.specs.Search.{set_out};
ghost use Rattle.search_state.specs.Step.{Starting, StartStep};
ghost use Rattle.query_types.specs.declared.Lengths.{Lengths};
ghost use Rattle.query_input.specs.Lent.{Lent, lent, line_runs, line_entries, origin_at};
ghost use Rattle.query_input.specs.Sane.{Admitted};
ghost use Rattle.search_begin.specs.Begin.{net_of, Lends, Askable, LaidOut, Begun, context_of};
ghost use Rattle.search_begin.specs.Laying.{LinesIn, Layable, Put, Origins, Accessed};

use query_types::{Head, Lay, Net, QueryCounts, Terms};

// Labels, their distances and the working numbers become 0.
fn zero_all(work: &mut [u32], labels: &mut [u32], label_distances: &mut [f64])
    ensures work_new { work.new ≡ replicate (length work.old) 0 }
    ensures labels_new { labels.new ≡ replicate (length labels.old) 0 }
    ensures label_distances_new { label_distances.new ≡ replicate (length label_distances.old) no_distance }
{
    work.fill(0);
    labels.fill(0);
    label_distances.fill(0.0);
}

// A new query's state.
fn reset(lay: Lay, work: &mut [u32], labels: &mut [u32], label_distances: &mut [f64]) -> Head
    requires { Sized lay (length work.old) (length labels.old) (length label_distances.old) }
    ensures fresh { Fresh lay (memory work.new labels.new label_distances.new result) }
    ensures label_distances_new { label_distances.new ≡ replicate (length label_distances.old) no_distance }
{
    zero_all(work, labels, label_distances);
    let reach = query_types::reach_at(lay);
    work[0..lay.stops].fill(4294967295);
    work[reach..reach + lay.trips].fill(4294967295);
    Head {
        best: 4294967295,
        count: 0,
        queued: 0,
        full: false,
    }
}

// One egress stop of the query, its row at `at`, into the egress table.
fn put_egress(lay: Lay, query: &[u32], at: usize, work: &mut [u32])
    requires work_sized { WorkSized lay (length work.old) }
    requires at_bound { at + 1 < length query.now }
    requires query_word { get_or query.now at 0 < lay.stops }
    requires query_word_2 { get_or query.now (at + 1) 0 ≤ 1048575 }
    ensures { work.new ≡ set work.old (rest_at lay + get_or query.now at 0)
        (get_or query.now (at + 1) 0 + 1) }
{
    let i = query_types::rest_at(lay) + query[at] as usize;
    work[i] = query[at + 1] + 1;
}

// All of them, into an empty egress table, the last row first.
fn put_egresses(lay: Lay, query: &[u32], first: usize, n: usize, work: &mut [u32])
    requires work_sized { WorkSized lay (length work.old) }
    requires egress_rows { EgressRows lay query.now first n }
    requires egressed { Egressed [] lay work.old work.old }
    ensures { Egressed (egress_of query.now first n) lay work.old work.new }
{
    for k in (0..n).rev() {
        put_egress(lay, query, first + 2 * k, work);
    }
}

// The egress table: 0 for no egress stop, else its walk + 1.
fn fill_egress(lay: Lay, query: &[u32], first: usize, n: usize, work: &mut [u32])
    requires work_sized { WorkSized lay (length work.old) }
    requires egress_rows { EgressRows lay query.now first n }
    ensures { Egressed (egress_of query.now first n) lay work.old work.new }
{
    let rest = query_types::rest_at(lay);
    work[rest..rest + lay.stops].fill(0);
    put_egresses(lay, query, first, n, work);
}

// The same with the two lists exchanged.
fn turn(lay: Lay) -> Lay
    ensures { result ≡ turned lay }
{
    Lay {
        list: lay.other,
        other: lay.list,
        ..lay
    }
}

// Where the tables stand, and what they are asked.
pub fn net_of(
    counts: QueryCounts,
    tables: &[u32],
    built: &[u32],
    distances: &[f64],
    query: &[u32],
) -> Net
    requires { Askable counts tables.now built.now distances.now query.now }
    ensures { (x : Lent) (l : Lengths) → Admitted x l
        → Lends x counts tables.now built.now distances.now
        query.now → result ≡ net_of x }
{
    let c = counts.timetable;
    let rows = query_input::delay_rows(query, counts);
    let stop_rows = query_input::stop_rows(query, counts);
    let margin = delay_lookup::rt_margin(rows, stop_rows, counts.settings.margin_cap);
    let egress = query_input::egress_rows(query, counts);
    let target = arc_flags::target_cells(tables, c, counts.cells as u32, egress);
    let terms = Terms {
        modes: query[4],
        wheelchair: query[5] == 1,
        margin,
        line_scan: counts.settings.line_scan,
    };
    let lined = target_resolving::line_tables(c, counts.lines);
    Net {
        lined,
        terms,
        patterns: counts.patterns,
        target,
        runs: query_input::transfer_runs_at(counts),
        events: query_types::events_at(query_types::lay_for(c, counts.lines)),
    }
}

// Each trip's position in its line.
fn put_positions(counts: QueryCounts, built: &[u32], lay: Lay, work: &mut [u32])
    requires lines_in { LinesIn counts built.now }
    requires lay_is { lay ≡ lay_of counts }
    requires work_sized { WorkSized lay (length work.old) }
    ensures { Put (positions_at lay) lay.trips
        (position_in (line_trips_in (line_runs built.now counts) (line_entries built.now counts)) counts.lines)
        work.old
        work.new }
{
    let a = query_types::positions_at(lay);
    let b = a + lay.trips;
    let runs = query_input::line_runs(built, counts);
    let entries = query_input::line_entries(built, counts);
    line_layout::line_positions(
        counts.timetable,
        counts.lines,
        runs,
        entries,
        &mut work[a..b],
    );
}

// Each line's FIFO flag.
fn put_fifo(counts: QueryCounts, tables: &[u32], built: &[u32], lay: Lay, work: &mut [u32])
    requires lines_in { LinesIn counts built.now }
    requires sane { Sane tables.now counts.timetable }
    requires lay_is { lay ≡ lay_of counts }
    requires work_sized { WorkSized lay (length work.old) }
    ensures { Put (fifo_at lay) lay.lines
        (fifo_of (timetable tables.now counts.timetable) (line_runs built.now counts)
        (line_entries built.now counts))
        work.old work.new }
{
    let a = query_types::fifo_at(lay);
    let b = a + lay.lines;
    let runs = query_input::line_runs(built, counts);
    let entries = query_input::line_entries(built, counts);
    line_layout::line_fifo(
        tables,
        counts.timetable,
        counts.lines,
        runs,
        entries,
        &mut work[a..b],
    );
}

// How many stop times the trips before each trip have.
fn put_events(counts: QueryCounts, tables: &[u32], lay: Lay, work: &mut [u32])
    requires sane { Sane tables.now counts.timetable }
    requires lay_is { lay ≡ lay_of counts }
    requires work_sized { WorkSized lay (length work.old) }
    ensures { Put (events_at lay) lay.trips (events_before (timetable tables.now counts.timetable)) work.old
        work.new }
{
    let c = counts.timetable;
    let a = query_types::events_at(lay);
    let mut before: usize = 0;
    for i in 0..lay.trips {
        work[a + i] = before as u32;
        before += tables::trip(tables, c, i, 1);
    }
}

// All that the rounds read of the working numbers.
fn set_up(
    counts: QueryCounts,
    tables: &[u32],
    built: &[u32],
    query: &[u32],
    lay: Lay,
    work: &mut [u32],
)
    requires layable { Layable counts tables.now built.now query.now }
    requires lay_is { lay ≡ lay_of counts }
    requires work_sized { WorkSized lay (length work.old) }
    ensures { LaidOut (lent counts tables.now built.now [] [] [] query.now) lay work.old
        work.new }
{
    fill_egress(lay, query, 7 + counts.origins * 2, counts.egress, work);
    put_positions(counts, built, lay, work);
    put_fifo(counts, tables, built, lay, work);
    put_events(counts, tables, lay, work);
}

// Origin k.
fn set_out_at(
    counts: QueryCounts,
    distances: &[f64],
    query: &[u32],
    lay: Lay,
    k: usize,
    work: &mut [u32],
    labels: &mut [u32],
    label_distances: &mut [f64],
    h: Head,
) -> Head
    requires origins { Origins counts lay.stops query.now (length distances.now) }
    requires k_bound { k < counts.origins }
    requires starting { Starting lay (memory work.old labels.old label_distances.old h) }
    ensures { StartStep lay (λ T Q. EgressTable Q.egress lay work.old × (Q.start ≡ get_or query.now 0 0))
        (λ T Q. set_out T Q (origin_at query.now distances.now counts k))
        (memory work.old labels.old label_distances.old h)
        (memory work.new labels.new label_distances.new result) }
{
    let at = counts.timetable.edges + k;
    search_state::set_out(
        lay,
        query[0],
        query[7 + k * 2],
        query[7 + 1 + k * 2],
        distances[at],
        work,
        labels,
        label_distances,
        h,
    )
}

// All origins.
fn access(
    counts: QueryCounts,
    distances: &[f64],
    query: &[u32],
    lay: Lay,
    work: &mut [u32],
    labels: &mut [u32],
    label_distances: &mut [f64],
    h: Head,
) -> Head
    requires origins { Origins counts lay.stops query.now (length distances.now) }
    requires count_is { h.count ≡ 0 }
    requires starting { Starting lay (memory work.old labels.old label_distances.old h) }
    ensures { Accessed counts query.now distances.now lay
        (memory work.old labels.old label_distances.old h)
        (memory work.new labels.new label_distances.new result) }
{
    let mut x = h;
    for k in 0..counts.origins {
        x = set_out_at(
            counts,
            distances,
            query,
            lay,
            k,
            work,
            labels,
            label_distances,
            x,
        );
    }
    x
}

// The state before the first round.
pub fn begin(
    counts: QueryCounts,
    tables: &[u32],
    built: &[u32],
    distances: &[f64],
    query: &[u32],
    lay: Lay,
    work: &mut [u32],
    labels: &mut [u32],
    label_distances: &mut [f64],
) -> Head
    requires askable { Askable counts tables.now built.now distances.now query.now }
    requires lay_is { lay ≡ lay_of counts }
    requires sized { Sized lay (length work.old) (length labels.old) (length label_distances.old) }
    ensures { (x : Lent) (l : Lengths) → Admitted x l
        → Lends x counts tables.now built.now distances.now
        query.now → (flagged : Bool) → Begun x (context_of x (net_of x) lay flagged)
        (memory work.new labels.new label_distances.new result) }
{
    let h = reset(lay, work, labels, label_distances);
    set_up(counts, tables, built, query, lay, work);
    access(
        counts,
        distances,
        query,
        turn(lay),
        work,
        labels,
        label_distances,
        h,
    )
}
