// query_input: what a query is lent to read: its sections, and the tables and the query that they say (document 01, items 9 and 10).
// Place: the search.
// Specs: where each section stands, the tables and the query that the lent slices say (Lent, a claim); what the door's yes gives (Sane, inner).
// Proves: each function meets its definition; in proofs/Laws that what the door admits is what the model's door admits.
// Assumes nothing.
#![tactic(auto)]

ghost use Rattle.std.specs.Prelude.{◌≡◌, ◌+◌, ◌*◌, ◌≤◌, ◌<◌, length, get_or, eqb};
ghost use Rattle.query_input.specs.Lent.{marks_at, transfer_runs_at, query_size, section, line_runs, line_entries, stop_runs, departure_rows};
ghost use Rattle.query_input.specs.Lent.{delay_rows, stop_rows, egress_part, transfer_runs, transfer_rows};
ghost use Rattle.query_input.specs.Sane.{Limits};

use query_types::QueryCounts;

// Sections as parts of their slice.
fn part(s: &[u32], first: usize, count: usize) -> &[u32]
    requires { first + count ≤ length s.now }
    ensures { result.now ≡ section s.now first count }
{
    &s[first..first + count]
}

pub fn line_runs(built: &[u32], counts: QueryCounts) -> &[u32]
    requires limits { Limits counts }
    requires marks_at { marks_at counts ≤ length built.now }
    ensures { result.now ≡ line_runs built.now counts }
{
    part(built, counts.timetable.trips, counts.lines * 2)
}

pub fn line_entries(built: &[u32], counts: QueryCounts) -> &[u32]
    requires limits { Limits counts }
    requires marks_at { marks_at counts ≤ length built.now }
    ensures { result.now ≡ line_entries built.now counts }
{
    part(
        built,
        counts.timetable.trips + counts.lines * 2,
        counts.entries,
    )
}

pub fn stop_runs(built: &[u32], counts: QueryCounts) -> &[u32]
    requires limits { Limits counts }
    requires marks_at { marks_at counts ≤ length built.now }
    ensures { result.now ≡ stop_runs built.now counts }
{
    part(
        built,
        counts.timetable.trips + counts.lines * 2 + counts.entries,
        counts.timetable.stops * 2,
    )
}

pub fn departure_rows(built: &[u32], counts: QueryCounts) -> &[u32]
    requires limits { Limits counts }
    requires marks_at { marks_at counts ≤ length built.now }
    ensures { result.now ≡ departure_rows built.now counts }
{
    part(
        built,
        counts.timetable.trips + counts.lines * 2 + counts.entries + counts.timetable.stops * 2,
        counts.departures * 2,
    )
}

pub fn delay_rows(query: &[u32], counts: QueryCounts) -> &[u32]
    requires limits { Limits counts }
    requires query_size { query_size counts ≤ length query.now }
    ensures { result.now ≡ delay_rows query.now counts }
{
    part(
        query,
        7 + counts.origins * 2 + counts.egress * 2,
        counts.delays * 2,
    )
}

pub fn stop_rows(query: &[u32], counts: QueryCounts) -> &[u32]
    requires limits { Limits counts }
    requires query_size { query_size counts ≤ length query.now }
    ensures { result.now ≡ stop_rows query.now counts }
{
    part(
        query,
        7 + counts.origins * 2 + counts.egress * 2 + counts.delays * 2,
        counts.stop_rows * 5,
    )
}

pub fn egress_rows(query: &[u32], counts: QueryCounts) -> &[u32]
    requires limits { Limits counts }
    requires query_size { query_size counts ≤ length query.now }
    ensures { result.now ≡ egress_part query.now counts }
{
    part(query, 7 + counts.origins * 2, counts.egress * 2)
}

pub fn transfer_runs(built: &[u32], counts: QueryCounts) -> &[u32]
    requires limits { Limits counts }
    requires transfer_runs_at { transfer_runs_at counts ≤ length built.now }
    ensures { result.now ≡ transfer_runs built.now counts }
{
    let first = transfer_runs_at(counts);
    &built[first..]
}

// Where the marks and the transfer runs begin, how many numbers a query has, and the workspace.
pub fn marks_at(counts: QueryCounts) -> usize
    requires { Limits counts }
    ensures value { result ≡ marks_at counts }
    ensures bound { result ≤ 200000 }
{
    counts.timetable.trips
        + counts.lines * 2
        + counts.entries
        + counts.timetable.stops * 2
        + counts.departures * 2
}

pub fn transfer_runs_at(counts: QueryCounts) -> usize
    requires { Limits counts }
    ensures value { result ≡ transfer_runs_at counts }
    ensures bound { result ≤ 300000 }
{
    marks_at(counts) + counts.timetable.stops
}

pub fn query_size(counts: QueryCounts) -> usize
    requires { Limits counts }
    ensures { result ≡ query_size counts }
{
    7 + counts.origins * 2 + counts.egress * 2 + counts.delays * 2 + counts.stop_rows * 5
}

// How many transfers the area of this length holds.
pub fn transfer_rows(counts: QueryCounts, area: usize) -> usize
    ensures { result ≡ transfer_rows counts area }
{
    counts.transfers.min(area / 4)
}

// Is the switch on that puts arc flags off?
pub fn flags_off(query: &[u32]) -> bool
    requires { 6 < length query.now }
    ensures { result ≡ eqb (get_or query.now 6 0) 1 }
{
    query[6] == 1
}
