// sizes: the counts of a timetable and of a query as a caller of the exports hands them in, one u32 each.
// Place: beside `exports`.
// Specs (a claim): the counts made of those numbers (Counts).
// Proves: every function equal to its definition.
// Assumes nothing.
#![tactic(auto)]

ghost use Rattle.std.specs.Prelude.{◌≡◌};
ghost use Rattle.sizes.specs.Counts.{counts_of, query_counts_of};

use door::Settings;
use query_types::QueryCounts;
use tables::Counts;

pub fn counts(stops: u32, trips: u32, times: u32, windows: u32, edges: u32) -> Counts
    ensures { result ≡ counts_of stops trips times windows edges }
{
    Counts {
        stops: stops as usize,
        trips: trips as usize,
        times: times as usize,
        windows: windows as usize,
        edges: edges as usize,
    }
}

// The counts of a query: entries are line entries, delays the delay rows, egress the egress stops.
#[repr(C)]
#[derive(Clone, Copy)]
pub struct QuerySizes {
    pub trips: u32,
    pub windows: u32,
    pub times: u32,
    pub edges: u32,
    pub stops: u32,
    pub cells: u32,
    pub patterns: u32,
    pub lines: u32,
    pub entries: u32,
    pub transfers: u32,
    pub departures: u32,
    pub delays: u32,
    pub stop_rows: u32,
    pub origins: u32,
    pub egress: u32,
}

pub fn query_counts(settings: Settings, s: QuerySizes) -> QueryCounts
    ensures { result ≡ query_counts_of settings s }
{
    let timetable = counts(s.stops, s.trips, s.times, s.windows, s.edges);
    QueryCounts {
        settings,
        timetable,
        cells: s.cells as usize,
        patterns: s.patterns as usize,
        lines: s.lines as usize,
        entries: s.entries as usize,
        departures: s.departures as usize,
        transfers: s.transfers as usize,
        delays: s.delays as usize,
        stop_rows: s.stop_rows as usize,
        origins: s.origins as usize,
        egress: s.egress as usize,
    }
}
