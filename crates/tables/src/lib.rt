// tables: the caller's timetable in one lent slice of numbers, its counts by value, getters, and the questions that every
// call asks of it (document 01, questions 1 to 6).
// Place: tables.
// Specs (claims): where each number stands (Tables), the timetable free of memory (Timetable), each question as a test of the lists,
// row by row (Door), what a yes gives (Sane).
// Proves: each test answers exactly its definition; a timetable that passes has the facts that inner functions need.
// Assumes nothing.
#![tactic(auto)]

ghost use Rattle.std.specs.Prelude.{◌≡◌, ◌&&◌, ◌+◌, ◌*◌, ◌<◌};
ghost use Rattle.tables.specs.Tables.{time_of, trip_of, edge_of, window_of, stop_time_at, trip_at, window_at, edge_at};
ghost use Rattle.tables.specs.Door.{counts_ok, slices_ok, trip_runs, stop_time_numbers, edge_numbers, stop_time_ranges, trip_ranges, window_ranges};
ghost use Rattle.tables.specs.Door.{edge_ranges, edge_rises, every_row, runs_ok, numbers_ok, ranges_ok, order_ok};
ghost use Rattle.tables.specs.Sane.{CountsOk, SlicesOk};

// How many there are of each.
#[derive(Clone, Copy)]
pub struct Counts {
    pub stops: usize,
    pub trips: usize,
    pub times: usize,
    pub windows: usize,
    pub edges: usize,
}

// The rows, as document 01 lists their fields.
#[derive(Clone, Copy)]
pub struct StopTimeRow {
    pub stop: usize,
    pub arrival: usize,
    pub departure: usize,
    pub sequence: usize,
    pub pickup: usize,
    pub drop_off: usize,
}

#[derive(Clone, Copy)]
pub struct TripRow {
    pub first: usize,
    pub count: usize,
    pub mode: usize,
    pub wheelchair: usize,
    pub window: usize,
    pub windows: usize,
    pub active: usize,
    pub excluded: usize,
}

#[derive(Clone, Copy)]
pub struct WindowRow {
    pub start: usize,
    pub end: usize,
    pub headway: usize,
}

#[derive(Clone, Copy)]
pub struct EdgeRow {
    pub from: usize,
    pub to: usize,
    pub duration: usize,
    pub pathway: usize,
    pub pattern: usize,
}

// A check: what is asked of every row of a table. Contracts and specs name the checks by it; each has a function of its own.
#[derive(Clone, Copy)]
pub enum Check {
    TripRuns,
    StopTimeNumbers,
    EdgeNumbers,
    StopTimeRanges,
    TripRanges,
    WindowRanges,
    EdgeRanges,
    EdgeOrder,
}

// Field k of stop time i: stop, arrival, departure, sequence, pickup, drop-off.
#[tactic(auto, unfolding(crate::specs::Tables::time_of))]
pub fn time(tables: &[u32], c: Counts, i: usize, k: usize) -> usize
    requires counts_ok { CountsOk c }
    requires slices_ok { SlicesOk tables.now c }
    requires i_bound { i < c.times }
    requires k_bound { k < 6 }
    ensures value { result ≡ time_of tables.now i k }
    ensures bound { result < 4294967296 }
{
    tables[i * 6 + k] as usize
}

// Field k of trip i: first stop time, count, mode, wheelchair, first window, window count, active, excluded.
#[tactic(auto, unfolding(crate::specs::Tables::trip_of))]
pub fn trip(tables: &[u32], c: Counts, i: usize, k: usize) -> usize
    requires counts_ok { CountsOk c }
    requires slices_ok { SlicesOk tables.now c }
    requires i_bound { i < c.trips }
    requires k_bound { k < 8 }
    ensures value { result ≡ trip_of tables.now c i k }
    ensures bound { result < 4294967296 }
{
    tables[c.times * 6 + i * 8 + k] as usize
}

// Field k of window i: start, end, headway.
#[tactic(auto, unfolding(crate::specs::Tables::window_of))]
fn window(tables: &[u32], c: Counts, i: usize, k: usize) -> usize
    requires counts_ok { CountsOk c }
    requires slices_ok { SlicesOk tables.now c }
    requires i_bound { i < c.windows }
    requires k_bound { k < 3 }
    ensures value { result ≡ window_of tables.now c i k }
    ensures bound { result < 4294967296 }
{
    tables[c.times * 6 + c.trips * 8 + i * 3 + k] as usize
}

// Field k of walk edge i: from, to, duration, mode, pattern.
#[tactic(auto, unfolding(crate::specs::Tables::edge_of))]
pub fn edge(tables: &[u32], c: Counts, i: usize, k: usize) -> usize
    requires counts_ok { CountsOk c }
    requires slices_ok { SlicesOk tables.now c }
    requires i_bound { i < c.edges }
    requires k_bound { k < 5 }
    ensures value { result ≡ edge_of tables.now c i k }
    ensures bound { result < 4294967296 }
{
    tables[c.times * 6 + c.trips * 8 + c.windows * 3 + i * 5 + k] as usize
}

// Rows by value.
pub fn stop_time_row(tables: &[u32], c: Counts, i: usize) -> StopTimeRow
    requires counts_ok { CountsOk c }
    requires slices_ok { SlicesOk tables.now c }
    requires i_bound { i < c.times }
    ensures { result ≡ stop_time_at tables.now i }
{
    StopTimeRow {
        stop: time(tables, c, i, 0),
        arrival: time(tables, c, i, 1),
        departure: time(tables, c, i, 2),
        sequence: time(tables, c, i, 3),
        pickup: time(tables, c, i, 4),
        drop_off: time(tables, c, i, 5),
    }
}

fn trip_row(tables: &[u32], c: Counts, i: usize) -> TripRow
    requires counts_ok { CountsOk c }
    requires slices_ok { SlicesOk tables.now c }
    requires i_bound { i < c.trips }
    ensures value { result ≡ trip_at tables.now c i }
    ensures first { result.first < 4294967296 }
    ensures count { result.count < 4294967296 }
    ensures window { result.window < 4294967296 }
    ensures windows { result.windows < 4294967296 }
{
    TripRow {
        first: trip(tables, c, i, 0),
        count: trip(tables, c, i, 1),
        mode: trip(tables, c, i, 2),
        wheelchair: trip(tables, c, i, 3),
        window: trip(tables, c, i, 4),
        windows: trip(tables, c, i, 5),
        active: trip(tables, c, i, 6),
        excluded: trip(tables, c, i, 7),
    }
}

fn window_row(tables: &[u32], c: Counts, i: usize) -> WindowRow
    requires counts_ok { CountsOk c }
    requires slices_ok { SlicesOk tables.now c }
    requires i_bound { i < c.windows }
    ensures { result ≡ window_at tables.now c i }
{
    WindowRow {
        start: window(tables, c, i, 0),
        end: window(tables, c, i, 1),
        headway: window(tables, c, i, 2),
    }
}

pub fn edge_row(tables: &[u32], c: Counts, i: usize) -> EdgeRow
    requires counts_ok { CountsOk c }
    requires slices_ok { SlicesOk tables.now c }
    requires i_bound { i < c.edges }
    ensures { result ≡ edge_at tables.now c i }
{
    EdgeRow {
        from: edge(tables, c, i, 0),
        to: edge(tables, c, i, 1),
        duration: edge(tables, c, i, 2),
        pathway: edge(tables, c, i, 3),
        pattern: edge(tables, c, i, 4),
    }
}

// Question 1.
#[tactic(auto, unfolding(crate::specs::Door::counts_ok))]
pub fn counts_ok(c: Counts) -> bool
    ensures { result ≡ counts_ok c }
{
    c.stops <= 4096 && c.trips <= 4096 && c.times <= 65536 && c.windows <= 65536 && c.edges <= 65536
}

// Question 2.
#[tactic(auto, unfolding(crate::specs::Door::slices_ok))]
pub fn slices_ok(tables: &[u32], c: Counts) -> bool
    requires { CountsOk c }
    ensures { result ≡ slices_ok tables.now c }
{
    tables.len() == c.times * 6 + c.trips * 8 + c.windows * 3 + c.edges * 5 + c.stops
}

// Question 3 of one trip.
#[tactic(auto, unfolding(crate::specs::Door::trip_runs))]
fn trip_runs(r: TripRow, c: Counts) -> bool
    requires first_bound { r.first < 4294967296 }
    requires count_bound { r.count < 4294967296 }
    requires window_bound { r.window < 4294967296 }
    requires windows_bound { r.windows < 4294967296 }
    ensures { result ≡ trip_runs c r }
{
    0 < r.count && r.first + r.count <= c.times && r.window + r.windows <= c.windows
}

// Question 4 of one stop time and of one walk edge.
#[tactic(auto, unfolding(crate::specs::Door::stop_time_numbers))]
fn stop_time_numbers(r: StopTimeRow, c: Counts) -> bool
    ensures { result ≡ stop_time_numbers c r }
{
    r.stop < c.stops
}

#[tactic(auto, unfolding(crate::specs::Door::edge_numbers))]
fn edge_numbers(r: EdgeRow, c: Counts) -> bool
    ensures { result ≡ edge_numbers c r }
{
    r.from < c.stops && r.to < c.stops
}

// Question 5 of one row of each table.
#[tactic(auto, unfolding(crate::specs::Door::stop_time_ranges))]
fn stop_time_ranges(r: StopTimeRow) -> bool
    ensures { result ≡ stop_time_ranges r }
{
    r.arrival <= 1048575 && r.departure <= 1048575 && r.pickup <= 3 && r.drop_off <= 3
}

#[tactic(auto, unfolding(crate::specs::Door::trip_ranges))]
fn trip_ranges(r: TripRow) -> bool
    ensures { result ≡ trip_ranges r }
{
    r.mode <= 6 && r.wheelchair <= 2 && r.active <= 1 && r.excluded <= 1
}

#[tactic(auto, unfolding(crate::specs::Door::window_ranges))]
fn window_ranges(r: WindowRow) -> bool
    ensures { result ≡ window_ranges r }
{
    r.start <= 1048575 && r.end <= 1048575 && r.headway <= 1048575
}

#[tactic(auto, unfolding(crate::specs::Door::edge_ranges))]
fn edge_ranges(r: EdgeRow) -> bool
    ensures { result ≡ edge_ranges r }
{
    r.duration <= 1048575 && r.pathway <= 7
}

// Question 6 of a walk edge: it does not leave a lower stop than the one before it.
#[tactic(auto, unfolding(crate::specs::Door::edge_rises))]
fn edge_rises(tables: &[u32], c: Counts, i: usize) -> bool
    requires counts_ok { CountsOk c }
    requires slices_ok { SlicesOk tables.now c }
    requires i_bound { i < c.edges }
    ensures { result ≡ edge_rises tables.now c i }
{
    i == 0 || edge(tables, c, i - 1, 0) <= edge(tables, c, i, 0)
}

// Question 3 of every trip.
#[tactic(auto, unfolding(crate::specs::Door::runs_ok))]
pub fn runs_ok(tables: &[u32], c: Counts) -> bool
    requires counts_ok { CountsOk c }
    requires slices_ok { SlicesOk tables.now c }
    ensures { result ≡ runs_ok tables.now c }
{
    (0..c.trips).all(|i| trip_runs(trip_row(tables, c, i), c))
}

// Question 4 of every stop time, and of every walk edge.
fn stop_times_known(tables: &[u32], c: Counts) -> bool
    requires counts_ok { CountsOk c }
    requires slices_ok { SlicesOk tables.now c }
    ensures { result ≡ every_row tables.now c Check.StopTimeNumbers }
{
    (0..c.times).all(|i| stop_time_numbers(stop_time_row(tables, c, i), c))
}

fn edges_known(tables: &[u32], c: Counts) -> bool
    requires counts_ok { CountsOk c }
    requires slices_ok { SlicesOk tables.now c }
    ensures { result ≡ every_row tables.now c Check.EdgeNumbers }
{
    for i in 0..c.edges {
        if !edge_numbers(edge_row(tables, c, i), c) {
            return false;
        }
    }
    true
}

// Of both.
#[tactic(auto, unfolding(crate::specs::Door::numbers_ok))]
pub fn numbers_ok(tables: &[u32], c: Counts) -> bool
    requires counts_ok { CountsOk c }
    requires slices_ok { SlicesOk tables.now c }
    ensures { result ≡ numbers_ok tables.now c }
{
    stop_times_known(tables, c) && edges_known(tables, c)
}

// Question 5 of every row of each table.
fn stop_times_in_range(tables: &[u32], c: Counts) -> bool
    requires counts_ok { CountsOk c }
    requires slices_ok { SlicesOk tables.now c }
    ensures { result ≡ every_row tables.now c Check.StopTimeRanges }
{
    (0..c.times).all(|i| stop_time_ranges(stop_time_row(tables, c, i)))
}

fn trips_in_range(tables: &[u32], c: Counts) -> bool
    requires counts_ok { CountsOk c }
    requires slices_ok { SlicesOk tables.now c }
    ensures { result ≡ every_row tables.now c Check.TripRanges }
{
    (0..c.trips).all(|i| trip_ranges(trip_row(tables, c, i)))
}

fn windows_in_range(tables: &[u32], c: Counts) -> bool
    requires counts_ok { CountsOk c }
    requires slices_ok { SlicesOk tables.now c }
    ensures { result ≡ every_row tables.now c Check.WindowRanges }
{
    (0..c.windows).all(|i| window_ranges(window_row(tables, c, i)))
}

fn edges_in_range(tables: &[u32], c: Counts) -> bool
    requires counts_ok { CountsOk c }
    requires slices_ok { SlicesOk tables.now c }
    ensures { result ≡ every_row tables.now c Check.EdgeRanges }
{
    for i in 0..c.edges {
        if !edge_ranges(edge_row(tables, c, i)) {
            return false;
        }
    }
    true
}

// Of all.
#[tactic(auto, unfolding(crate::specs::Door::ranges_ok))]
pub fn ranges_ok(tables: &[u32], c: Counts) -> bool
    requires counts_ok { CountsOk c }
    requires slices_ok { SlicesOk tables.now c }
    ensures { result ≡ ranges_ok tables.now c }
{
    stop_times_in_range(tables, c)
        && trips_in_range(tables, c)
        && windows_in_range(tables, c)
        && edges_in_range(tables, c)
}

// Questions 4 and 5 of every stop time, each read once and no branch between them: kept are the greatest stop plus one, and all bits of the
// times and of the codes.
#[tactic(auto, using(crate::proofs::Yes::kept_all))]
fn stop_times_ok(tables: &[u32], c: Counts) -> bool
    requires counts_ok { CountsOk c }
    requires slices_ok { SlicesOk tables.now c }
    ensures { result ≡ every_row tables.now c Check.StopTimeNumbers && every_row tables.now c Check.StopTimeRanges }
{
    let mut stops: usize = 0;
    let mut times: u32 = 0;
    let mut codes: u32 = 0;
    for i in 0..c.times {
        let at = i * 6;
        stops = stops.max(tables[at] as usize + 1);
        times |= tables[at + 1] | tables[at + 2];
        codes |= tables[at + 4] | tables[at + 5];
    }
    stops <= c.stops && (times <= 1048575 && codes <= 3)
}

// Questions 4 and 5 at once, each stop time read once.
#[tactic(auto, unfolding(crate::specs::Door::numbers_ok, crate::specs::Door::ranges_ok))]
pub fn rows_ok(tables: &[u32], c: Counts) -> bool
    requires counts_ok { CountsOk c }
    requires slices_ok { SlicesOk tables.now c }
    ensures { result ≡ numbers_ok tables.now c && ranges_ok tables.now c }
{
    stop_times_ok(tables, c)
        && edges_known(tables, c)
        && trips_in_range(tables, c)
        && windows_in_range(tables, c)
        && edges_in_range(tables, c)
}

// Question 6 of every walk edge.
pub fn order_ok(tables: &[u32], c: Counts) -> bool
    requires counts_ok { CountsOk c }
    requires slices_ok { SlicesOk tables.now c }
    ensures { result ≡ order_ok tables.now c }
{
    for i in 0..c.edges {
        if !edge_rises(tables, c, i) {
            return false;
        }
    }
    true
}
