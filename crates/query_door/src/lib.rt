// query_door: the door of a query: questions 1, 14 and 2 to 6, in order.
// Place: the search; `query_call` asks it.
// Specs: each question as a test of the lists, and the verdict (Door, a claim); a column of numbers in a list (Columns, inner); questions 4 to 6
// asked at once (Once, inner).
// Proves: `questions` answers the verdict on every input. A pass that reads each stop time and each listed departure once (`passed`) admits what is
// in order; only where it does not is each question asked on its own, for the number. In proofs/Yes: what each yes gives, and that a verdict of 0
// gives the model's door. In proofs/Converse: question 6 finds departures and egress stops in order where the model's door has them so. In
// proofs/Examples: Timetable K passes, damaged copies are refused.
// Assumes nothing.
#![tactic(auto)]

ghost use Rattle.std.specs.Prelude.{◌≡◌, ◌+◌, ◌*◌, ◌≤◌, ◌-◌, ◌<◌, length, true, ltb};
ghost use Rattle.door.specs.Door.{code_of};
ghost use Rattle.tables.specs.Sane.{SlicesOk};
ghost use Rattle.query_input.specs.Lent.{transfer_runs_at, built_size, marks_at, query_size, delays_of, stop_runs, departure_rows, lent};
ghost use Rattle.query_door.specs.Door.{query_question1, read_ok, written_ok, query_question2, transfer_runs_ok, query_question3, column_below};
ghost use Rattle.query_door.specs.Door.{column_at, line_numbers, query_numbers, query_question4, mark_ranges, transfer_ranges, query_ranges};
ghost use Rattle.query_door.specs.Door.{walk_ranges, query_question5, column_rises, query_question6, query_verdict};
ghost use Rattle.query_types.specs.Layout.{work_size_of};
ghost use Rattle.query_input.specs.Sane.{Limits, ReadSized, Placed};
ghost use Rattle.query_door.specs.Columns.{Column};
ghost use Rattle.departures.specs.Listed.{RowsListed};
ghost use Rattle.query_door.specs.Once.{query_ok, tables_ok, Passed};
ghost use Rattle.delay_rows.specs.Door.{delay_numbers, delay_ranges, delay_order};

use door::Refusal;
use query_types::{Lengths, QueryCounts};

pub fn work_size(counts: QueryCounts) -> usize
    requires { Limits counts }
    ensures { result ≡ work_size_of counts }
{
    query_types::work_size(query_types::lay_for(counts.timetable, counts.lines))
}

// Question 1.
#[tactic(auto, unfolding(crate::specs::Door::query_question1))]
pub fn counts_ok(counts: QueryCounts) -> bool
    ensures { result ≡ query_question1 counts }
{
    tables::counts_ok(counts.timetable)
        && counts.cells <= 512
        && counts.patterns <= 4096
        && counts.lines <= 4096
        && counts.entries <= 4096
        && counts.departures <= 65536
        && counts.transfers <= 65536
        && counts.delays <= 4096
        && counts.stop_rows <= 4096
        && counts.origins <= 64
        && counts.egress <= 64
}

// Question 2 of what is read, but for the timetable's slice, whose numbers the others are measured by.
#[tactic(auto, unfolding(crate::specs::Door::read_ok))]
fn read_ok(
    tables: &[u32],
    counts: QueryCounts,
    built: usize,
    patterns: usize,
    distances: usize,
    q: usize,
) -> bool
    requires limits { Limits counts }
    requires slices_ok { SlicesOk tables.now counts.timetable }
    ensures { result ≡ read_ok tables.now counts built patterns distances q }
{
    let events = event_transfers::event_count(tables, counts.timetable);
    built == query_input::transfer_runs_at(counts) + events * 2
        && patterns == counts.patterns * 64
        && distances == counts.timetable.edges + counts.origins
        && q == query_input::query_size(counts)
}

// Question 2 of what is written.
#[tactic(auto, unfolding(crate::specs::Door::written_ok))]
fn written_ok(counts: QueryCounts, l: Lengths) -> bool
    requires { Limits counts }
    ensures { result ≡ written_ok counts l }
{
    l.labels == counts.timetable.stops * 13 * 8
        && l.label_distances == counts.timetable.stops * 13
        && l.work == work_size(counts)
        && l.queue_a == l.queue_b
        && l.candidates == 39
}

#[tactic(auto, unfolding(crate::specs::Door::query_question2), using(tables::proofs::Yes::slices_yes))]
fn sizes_ok(
    tables: &[u32],
    counts: QueryCounts,
    built: usize,
    patterns: usize,
    distances: usize,
    q: usize,
    l: Lengths,
) -> bool
    requires { Limits counts }
    ensures { result ≡ query_question2 tables.now counts built patterns distances q l }
{
    tables::slices_ok(tables, counts.timetable)
        && read_ok(tables, counts, built, patterns, distances, q)
        && written_ok(counts, l)
}

// Question 3 of every event's transfer run, no branch between them: kept are all bits of first row and length, and whether each sum is in the
// rows. Below 2^31 no sum wraps.
fn transfer_runs_ok(built: &[u32], counts: QueryCounts, events: usize, transfer_rows: usize) -> bool
    requires limits { Limits counts }
    requires transfer_runs_at { transfer_runs_at counts + events * 2 ≤ length built.now }
    requires transfer_rows_bound { transfer_rows ≤ 65536 }
    ensures { result ≡ transfer_runs_ok built.now counts events transfer_rows }
{
    let from = query_input::transfer_runs_at(counts);
    let limit = transfer_rows as u32;
    let mut inside = true;
    let mut bits: u32 = 0;
    for e in 0..events {
        let at = from + e * 2;
        let first = built[at];
        let length = built[at + 1];
        inside &= first % 2147483648 + length % 2147483648 <= limit;
        bits |= first | length;
    }
    inside & (bits <= 2147483647)
}

// Question 3.
#[tactic(auto, unfolding(crate::specs::Door::query_question3))]
fn runs_ok(tables: &[u32], built: &[u32], counts: QueryCounts, transfer_rows: usize) -> bool
    requires limits { Limits counts }
    requires slices_ok { SlicesOk tables.now counts.timetable }
    requires built_length { length built.now ≡ built_size tables.now counts }
    requires transfer_rows_bound { transfer_rows ≤ 65536 }
    ensures { result ≡ query_question3 tables.now built.now counts transfer_rows }
{
    let lines = line_layout::line_runs_ok(
        query_input::line_runs(built, counts),
        counts.lines,
        counts.entries,
    );
    let stops = departures::stop_runs_ok(
        query_input::stop_runs(built, counts),
        counts.timetable,
        counts.departures,
    );
    let events = event_transfers::event_count(tables, counts.timetable);
    tables::runs_ok(tables, counts.timetable)
        && lines
        && stops
        && transfer_runs_ok(built, counts, events, transfer_rows)
}

// Are so many numbers of a column below the bound?
fn column_below(s: &[u32], first: usize, stride: usize, count: usize, bound: usize) -> bool
    requires { Column (length s.now) first stride count }
    ensures { result ≡ column_below s.now first stride count bound }
{
    (0..count).all(|i| (s[first + i * stride] as usize) < bound)
}

// Question 4 of the lines.
#[tactic(auto, unfolding(crate::specs::Door::line_numbers))]
fn line_numbers(built: &[u32], counts: QueryCounts) -> bool
    requires limits { Limits counts }
    requires marks_at { marks_at counts ≤ length built.now }
    ensures { result ≡ line_numbers built.now counts }
{
    let lines = column_below(built, 0, 1, counts.timetable.trips, counts.lines);
    let entries = line_layout::entries_ok(
        counts.timetable,
        query_input::line_entries(built, counts),
        counts.entries,
    );
    lines && entries
}

// Question 4 of origins and egress.
#[tactic(auto, unfolding(crate::specs::Door::query_numbers))]
fn query_numbers(query: &[u32], counts: QueryCounts) -> bool
    requires limits { Limits counts }
    requires query_size { query_size counts ≤ length query.now }
    ensures { result ≡ query_numbers query.now counts }
{
    let stops = counts.timetable.stops;
    let origins = column_below(query, 7, 2, counts.origins, stops);
    let egress = column_below(query, 7 + counts.origins * 2, 2, counts.egress, stops);
    origins && egress
}

// Questions 4, 5 and 6 of the delay tables.
fn delay_numbers(query: &[u32], counts: QueryCounts) -> bool
    requires limits { Limits counts }
    requires query_size { query_size counts ≤ length query.now }
    ensures { result ≡ delay_numbers counts.timetable.trips (delays_of query.now counts) }
{
    let trips = counts.timetable.trips as u32;
    let rows = query_input::delay_rows(query, counts);
    delay_rows::numbers_ok(trips, rows, query_input::stop_rows(query, counts))
}

fn delay_ranges(query: &[u32], counts: QueryCounts) -> bool
    requires limits { Limits counts }
    requires query_size { query_size counts ≤ length query.now }
    ensures { result ≡ delay_ranges (delays_of query.now counts) }
{
    let rows = query_input::delay_rows(query, counts);
    delay_rows::ranges_ok(rows, query_input::stop_rows(query, counts))
}

fn delay_order(query: &[u32], counts: QueryCounts) -> bool
    requires limits { Limits counts }
    requires query_size { query_size counts ≤ length query.now }
    ensures { result ≡ delay_order (delays_of query.now counts) }
{
    let rows = query_input::delay_rows(query, counts);
    delay_rows::order_ok(rows, query_input::stop_rows(query, counts))
}

// Question 4.
#[tactic(auto, unfolding(crate::specs::Door::query_question4))]
fn numbers_ok(
    tables: &[u32],
    built: &[u32],
    query: &[u32],
    counts: QueryCounts,
    transfer_rows: usize,
) -> bool
    requires limits { Limits counts }
    requires read_sized { ReadSized tables.now counts (length built.now) (length query.now) }
    requires placed { Placed tables.now built.now counts transfer_rows }
    ensures { result ≡ query_question4 tables.now built.now query.now counts }
{
    let c = counts.timetable;
    let listed = departures::listed_ok(
        tables,
        c,
        query_input::stop_runs(built, counts),
        query_input::departure_rows(built, counts),
        counts.departures,
    );
    tables::numbers_ok(tables, c)
        && line_numbers(built, counts)
        && listed
        && query_numbers(query, counts)
        && delay_numbers(query, counts)
}

// Question 5 of the marks.
fn mark_ranges(built: &[u32], counts: QueryCounts) -> bool
    requires limits { Limits counts }
    requires transfer_runs_at { transfer_runs_at counts ≤ length built.now }
    ensures { result ≡ mark_ranges built.now counts }
{
    column_below(
        built,
        query_input::marks_at(counts),
        1,
        counts.timetable.stops,
        2,
    )
}

// Question 5 of the transfers: all bits of their times are kept.
fn transfer_ranges(transfers: &[u32], transfer_rows: usize) -> bool
    requires { transfer_rows * 4 ≤ length transfers.now }
    ensures { result ≡ transfer_ranges transfers.now transfer_rows }
{
    let mut bits: u32 = 0;
    for k in 0..transfer_rows {
        bits |= transfers[2 + k * 4];
    }
    bits <= 1048575
}

// Question 5 of start, change time, modes, wheelchair and switch.
#[tactic(auto, unfolding(crate::specs::Door::query_ranges))]
fn query_ranges(query: &[u32]) -> bool
    requires { 7 ≤ length query.now }
    ensures { result ≡ query_ranges query.now }
{
    query[0] <= door::TIME_LIMIT
        && query[1] <= door::TIME_LIMIT
        && query[4] <= 127
        && query[5] <= 1
        && query[6] <= 1
}

// Question 5 of origins and egress.
#[tactic(auto, unfolding(crate::specs::Door::walk_ranges))]
fn walk_ranges(query: &[u32], counts: QueryCounts) -> bool
    requires limits { Limits counts }
    requires query_size { query_size counts ≤ length query.now }
    ensures { result ≡ walk_ranges query.now counts }
{
    let origins = column_below(query, 8, 2, counts.origins, 1048576);
    let egress = column_below(query, 7 + counts.origins * 2 + 1, 2, counts.egress, 1048576);
    origins && egress
}

// Question 5.
#[tactic(auto, unfolding(crate::specs::Door::query_question5))]
fn ranges_ok(
    tables: &[u32],
    built: &[u32],
    transfers: &[u32],
    query: &[u32],
    counts: QueryCounts,
    transfer_rows: usize,
) -> bool
    requires limits { Limits counts }
    requires read_sized { ReadSized tables.now counts (length built.now) (length query.now) }
    requires transfer_rows_bound { transfer_rows * 4 ≤ length transfers.now }
    ensures { result ≡ query_question5 tables.now built.now transfers.now
        query.now counts transfer_rows }
{
    tables::ranges_ok(tables, counts.timetable)
        && mark_ranges(built, counts)
        && transfer_ranges(transfers, transfer_rows)
        && query_ranges(query)
        && walk_ranges(query, counts)
        && delay_ranges(query, counts)
}

// Question 6 of an egress stop: is it above the one before it? They begin at `at`.
fn stop_rises(query: &[u32], at: usize, i: usize) -> bool
    requires i_above { 0 < i }
    requires at_bound { at + i * 2 < length query.now }
    ensures { result ≡ ltb (column_at query.now at 2 (i - 1)) (column_at query.now at 2 i) }
{
    query[at + (i - 1) * 2] < query[at + i * 2]
}

// Of all egress stops.
fn egress_order(query: &[u32], at: usize, count: usize) -> bool
    requires { at + count * 2 ≤ length query.now }
    ensures { result ≡ column_rises query.now at 2 count }
{
    (1..count).all(|i| stop_rises(query, at, i))
}

// Question 6.
#[tactic(auto, unfolding(crate::specs::Door::query_question6))]
fn order_ok(tables: &[u32], built: &[u32], query: &[u32], counts: QueryCounts) -> bool
    requires limits { Limits counts }
    requires read_sized { ReadSized tables.now counts (length built.now) (length query.now) }
    requires rows_listed { RowsListed tables.now counts.timetable (stop_runs built.now counts) (departure_rows built.now counts)
        counts.departures }
    ensures { result ≡ query_question6 tables.now built.now query.now counts }
{
    let c = counts.timetable;
    let listed = departure_order::departure_order(
        tables,
        c,
        query_input::stop_runs(built, counts),
        query_input::departure_rows(built, counts),
        counts.departures,
    );
    tables::order_ok(tables, c)
        && listed
        && egress_order(query, 7 + counts.origins * 2, counts.egress)
        && delay_order(query, counts)
}

// Questions 4 to 6 of the query's numbers.
#[tactic(auto, unfolding(crate::specs::Once::query_ok))]
fn query_ok(query: &[u32], counts: QueryCounts) -> bool
    requires limits { Limits counts }
    requires query_size { query_size counts ≤ length query.now }
    ensures { result ≡ query_ok query.now counts }
{
    query_numbers(query, counts)
        && delay_numbers(query, counts)
        && query_ranges(query)
        && walk_ranges(query, counts)
        && delay_ranges(query, counts)
        && egress_order(query, 7 + counts.origins * 2, counts.egress)
        && delay_order(query, counts)
}

// Of the tables but for the departures.
#[tactic(auto, unfolding(crate::specs::Once::tables_ok))]
fn tables_ok(
    tables: &[u32],
    built: &[u32],
    transfers: &[u32],
    counts: QueryCounts,
    transfer_rows: usize,
) -> bool
    requires limits { Limits counts }
    requires slices_ok { SlicesOk tables.now counts.timetable }
    requires transfer_runs_at { transfer_runs_at counts ≤ length built.now }
    requires transfer_rows_bound { transfer_rows * 4 ≤ length transfers.now }
    ensures { result ≡ tables_ok tables.now built.now transfers.now counts transfer_rows }
{
    let c = counts.timetable;
    tables::rows_ok(tables, c)
        && tables::order_ok(tables, c)
        && line_numbers(built, counts)
        && mark_ranges(built, counts)
        && transfer_ranges(transfers, transfer_rows)
}

// Questions 4, 5 and 6 at once. True is a yes to all three; false says nothing.
fn passed(
    tables: &[u32],
    built: &[u32],
    transfers: &[u32],
    query: &[u32],
    counts: QueryCounts,
    transfer_rows: usize,
) -> bool
    requires limits { Limits counts }
    requires read_sized { ReadSized tables.now counts (length built.now) (length query.now) }
    requires placed { Placed tables.now built.now counts transfer_rows }
    requires transfer_rows_bound { transfer_rows * 4 ≤ length transfers.now }
    ensures { result ≡ true → Passed tables.now built.now transfers.now
        query.now counts transfer_rows }
{
    if !query_ok(query, counts) {
        return false;
    }
    if !tables_ok(tables, built, transfers, counts, transfer_rows) {
        return false;
    }
    let runs = query_input::stop_runs(built, counts);
    let listed = query_input::departure_rows(built, counts);
    departure_order::in_turn(tables, counts.timetable, runs, listed, counts.departures)
}

// THE QUESTIONS, in order: the first no refuses.
#[tactic(auto, unfolding(crate::specs::Door::query_verdict), using(crate::proofs::Yes::limits_yes, crate::proofs::Yes::sized_yes, crate::proofs::Yes::placed_yes, crate::proofs::Yes::numbered_yes))]
pub fn questions(
    counts: QueryCounts,
    tables: &[u32],
    built: &[u32],
    transfers: &[u32],
    patterns: &[u8],
    distances: &[f64],
    query: &[u32],
    l: Lengths,
) -> Result<(), Refusal>
    ensures { code_of result ≡ query_verdict (lent counts tables.now built.now transfers.now patterns.now
        distances.now query.now) l }
{
    door::limits(counts_ok(counts), counts.settings)?;
    let sized = sizes_ok(
        tables,
        counts,
        built.len(),
        patterns.len(),
        distances.len(),
        query.len(),
        l,
    );
    door::ask(Refusal::Sizes, sized)?;
    let transfer_rows = query_input::transfer_rows(counts, transfers.len());
    door::ask(Refusal::Runs, runs_ok(tables, built, counts, transfer_rows))?;
    if passed(tables, built, transfers, query, counts, transfer_rows) {
        return Ok(());
    }
    let numbered = numbers_ok(tables, built, query, counts, transfer_rows);
    door::ask(Refusal::Numbers, numbered)?;
    let ranged = ranges_ok(tables, built, transfers, query, counts, transfer_rows);
    door::ask(Refusal::Ranges, ranged)?;
    door::ask(Refusal::Order, order_ok(tables, built, query, counts))
}
