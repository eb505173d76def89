// delay_rows: the delay tables (document 01, item 4), and what is asked of their rows.
// Two tables of u32 numbers are lent. A delay row has 2: trip (4294967295 for an unknown trip) and delay. A stop row has 5:
// delay row, sequence, flags (1 departure given, 2 arrival given, 4 skipped), departure delay, arrival delay. Delays are the
// bits of an i32; what they mean is said in crate `signed`, what they do to a stop time in crate `stop_delay`.
// Place: a leaf. Its calls: `delay_call`.
// Specs: Delays (what the tables say of a stop time, the margin), Flat (the tables from two slices), Door (questions 4, 5 and
// 6 of the rows); these are claims.
// Proves: each question is answered as its definition, on every input.
// Assumes nothing.
#![tactic(auto)]

ghost use Rattle.std.specs.Prelude.{◌≡◌, ◌<◌};
ghost use Rattle.delay_rows.specs.Flat.{delay_row_count, stop_row_count, delay_row_at, stop_row_at, delay_tables};
ghost use Rattle.delay_rows.specs.Door.{trip_numbered, row_numbered, stop_in_range, trips_rise, stops_rise};
ghost use Rattle.delay_rows.specs.Door.{delay_numbers, delay_ranges, delay_order};

// The trip of a delay row that no trip of the timetable has.
const UNKNOWN_TRIP: u32 = u32::MAX;

// A delay row.
#[derive(Clone, Copy)]
pub struct DelayRow {
    pub trip: u32,
    pub delay: u32,
}

// A stop row.
#[derive(Clone, Copy)]
pub struct StopRow {
    pub row: u32,
    pub sequence: u32,
    pub flags: u32,
    pub departure_delay: u32,
    pub arrival_delay: u32,
}

// Rows

// Row i of each table.
pub fn delay_row_at(delay_rows: &[u32], i: usize) -> DelayRow
    requires { i < delay_row_count delay_rows.now }
    ensures { result ≡ delay_row_at delay_rows.now i }
{
    DelayRow {
        trip: delay_rows[i * 2],
        delay: delay_rows[i * 2 + 1],
    }
}

pub fn stop_row_at(stop_rows: &[u32], j: usize) -> StopRow
    requires { j < stop_row_count stop_rows.now }
    ensures { result ≡ stop_row_at stop_rows.now j }
{
    StopRow {
        row: stop_rows[j * 5],
        sequence: stop_rows[j * 5 + 1],
        flags: stop_rows[j * 5 + 2],
        departure_delay: stop_rows[j * 5 + 3],
        arrival_delay: stop_rows[j * 5 + 4],
    }
}

// Questions at the door

// Question 4 of one delay row, and of one stop row where there are n delay rows.
fn trip_numbered(trips: u32, row: DelayRow) -> bool
    ensures { result ≡ trip_numbered trips row }
{
    row.trip < trips || row.trip == UNKNOWN_TRIP
}

fn row_numbered(n: usize, row: StopRow) -> bool
    ensures { result ≡ row_numbered n row }
{
    (row.row as usize) < n
}

// Question 5 of one stop row.
fn stop_in_range(row: StopRow) -> bool
    ensures { result ≡ stop_in_range row }
{
    row.flags <= 7
        && stop_delay::size_ok(row.departure_delay)
        && stop_delay::size_ok(row.arrival_delay)
}

// Question 6 of two neighbours, delay rows and stop rows.
fn trips_rise(a: DelayRow, b: DelayRow) -> bool
    ensures { result ≡ trips_rise a b }
{
    a.trip < b.trip || (a.trip == UNKNOWN_TRIP && b.trip == UNKNOWN_TRIP)
}

fn stops_rise(a: StopRow, b: StopRow) -> bool
    ensures { result ≡ stops_rise a b }
{
    a.row < b.row || (a.row == b.row && a.sequence < b.sequence)
}

// Question 4 of both tables.
pub fn numbers_ok(trips: u32, delay_rows: &[u32], stop_rows: &[u32]) -> bool
    ensures { result ≡ delay_numbers trips (delay_tables delay_rows.now stop_rows.now) }
{
    let n = delay_rows.len() / 2;
    let m = stop_rows.len() / 5;
    let delays = (0..n).all(|i| trip_numbered(trips, delay_row_at(delay_rows, i)));
    let stops = (0..m).all(|j| row_numbered(n, stop_row_at(stop_rows, j)));
    delays && stops
}

// Question 5.
pub fn ranges_ok(delay_rows: &[u32], stop_rows: &[u32]) -> bool
    ensures { result ≡ delay_ranges (delay_tables delay_rows.now stop_rows.now) }
{
    let n = delay_rows.len() / 2;
    let m = stop_rows.len() / 5;
    let delays = (0..n).all(|i| stop_delay::size_ok(delay_row_at(delay_rows, i).delay));
    let stops = (0..m).all(|j| stop_in_range(stop_row_at(stop_rows, j)));
    delays && stops
}

// Question 6: each row is the first, or rises from the one before it.
pub fn order_ok(delay_rows: &[u32], stop_rows: &[u32]) -> bool
    ensures { result ≡ delay_order (delay_tables delay_rows.now stop_rows.now) }
{
    let n = delay_rows.len() / 2;
    let m = stop_rows.len() / 5;
    let delays = (0..n).all(|i| {
        i == 0 || trips_rise(delay_row_at(delay_rows, i - 1), delay_row_at(delay_rows, i))
    });
    let stops = (0..m).all(|j| {
        j == 0 || stops_rise(stop_row_at(stop_rows, j - 1), stop_row_at(stop_rows, j))
    });
    delays && stops
}
