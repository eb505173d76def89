// delay_lookup: which delays a stop time has, and the margin of tbr.rs (document 01, item 4), from the delay tables (crate `delay_rows`).
// Place: a leaf. Its calls: `delay_call`.
// Specs (inner): what a yes to the door's questions gives (Sane), how the code searches (Halving).
// Proves: every function equal to its definition (`delay_rows` specs/Delays), the searches by halving among them; that a door
// without a no gives tables with one row for a trip and one for a stop time, and delays in their range; that without a delay row the
// margin is 0; that the margin covers every trip delay and every given stop delay, or is the cap.
// Assumes nothing.
#![tactic(auto)]

ghost use Rattle.std.specs.Prelude.{◌≡◌, cond, ◌+◌, ◌*◌, ◌<◌, length, leb};
ghost use Rattle.loops.specs.Iter.{found, hit};
ghost use Rattle.loops.specs.Order.{Halved};
ghost use Rattle.stop_delay.specs.Times.{size_of};
ghost use Rattle.delay_rows.specs.Delays.{delay_row, stop_row, stop_delay, given_size, largest, margin};
ghost use Rattle.delay_rows.specs.Flat.{delay_row_count, stop_row_count, delay_row_at, stop_row_at, delay_tables, delays_alone, stops_alone};
ghost use Rattle.delay_lookup.specs.Sane.{DelayRows, StopRows};
ghost use Rattle.delay_lookup.specs.Halving.{key_at, Keyed};

use delay_rows::StopRow;
use stop_delay::StopDelay;

// Searches

// Two numbers as one key: the first decides, then the second.
fn key_of(a: u32, b: u32) -> u64
    ensures { result ≡ a * 4294967296 + b }
{
    u64::from(a) * 4294967296 + u64::from(b)
}

// The key of row i of a table: its first two numbers.
fn key_at(t: &[u32], width: usize, i: usize) -> u64
    requires { i * width + 1 < length t.now }
    ensures { result ≡ key_at t.now width i }
{
    let at = i * width;
    key_of(t[at], t[at + 1])
}

// The first of n rows whose key is not below this one, by halving; n where there is none.
fn first_from(t: &[u32], width: usize, n: usize, key: u64) -> usize
    requires { Keyed t.now width n key }
    ensures { Halved (λ i. leb key (key_at t.now width i)) n result result }
{
    let mut lo: usize = 0;
    let mut hi = n;
    while lo < hi {
        let mid = lo + (hi - lo) / 2;
        if key_at(t, width, mid) < key {
            lo = mid + 1;
        } else {
            hi = mid;
        }
    }
    lo
}

// The delay row of a trip: the first one, by halving.
pub fn delay_row(delay_rows: &[u32], trip: u32) -> Option<usize>
    requires { DelayRows (delay_row_count delay_rows.now) (delay_row_at delay_rows.now) }
    ensures { result ≡ found (delay_row (delays_alone delay_rows.now) trip) }
{
    let n = delay_rows.len() / 2;
    let at = first_from(delay_rows, 2, n, key_of(trip, 0));
    (at < n && delay_rows[at * 2] == trip).then_some(at)
}

// The stop row of a delay row at a sequence, by halving.
fn stop_row(stop_rows: &[u32], row: u32, sequence: u32) -> Option<usize>
    requires { StopRows (stop_row_count stop_rows.now) (stop_row_at stop_rows.now) }
    ensures { result ≡ found (stop_row (stops_alone stop_rows.now) row sequence) }
{
    let m = stop_rows.len() / 5;
    let key = key_of(row, sequence);
    let at = first_from(stop_rows, 5, m, key);
    (at < m && key_at(stop_rows, 5, at) == key).then_some(at)
}

// What the tables say of a stop time, of a trip whose delay row is at `row`.
pub fn stop_delay(delay_rows: &[u32], stop_rows: &[u32], row: usize, sequence: u32) -> StopDelay
    requires delay_rows_1 { DelayRows (delay_row_count delay_rows.now) (delay_row_at delay_rows.now) }
    requires delay_rows_2 { row < delay_row_count delay_rows.now }
    requires stop_rows { StopRows (stop_row_count stop_rows.now) (stop_row_at stop_rows.now) }
    ensures { result ≡ stop_delay (delay_tables delay_rows.now stop_rows.now) (hit row) sequence }
{
    let own = delay_rows::delay_row_at(delay_rows, row);
    match stop_row(stop_rows, row as u32, sequence) {
        Some(j) => {
            let stop = delay_rows::stop_row_at(stop_rows, j);
            StopDelay {
                trip_delay: own.delay,
                flags: stop.flags,
                departure_delay: stop.departure_delay,
                arrival_delay: stop.arrival_delay,
            }
        }
        None => StopDelay {
            trip_delay: own.delay,
            flags: 0,
            departure_delay: 0,
            arrival_delay: 0,
        },
    }
}

// Margin

// The size of a delay that counts, else 0.
fn size_if(given: bool, bits: u32) -> u32
    ensures { result ≡ cond given (size_of bits) 0 }
{
    if given { signed::size(bits) } else { 0 }
}

// What a stop row counts for the margin: the larger size of its given delays.
fn given_size(row: StopRow) -> u32
    ensures { result ≡ given_size row }
{
    let departure = size_if(stop_delay::departure_given(row.flags), row.departure_delay);
    let arrival = size_if(stop_delay::arrival_given(row.flags), row.arrival_delay);
    departure.max(arrival)
}

// The largest over each table; a delay row counts the size of its delay, its trip known or not.
fn largest_trip(delay_rows: &[u32]) -> u32
    ensures { result ≡ largest (λ i. size_of (delay_row_at delay_rows.now i).delay)
        (delay_row_count delay_rows.now) }
{
    let n = delay_rows.len() / 2;
    (0..n).fold(0, |most, i| {
        most.max(signed::size(delay_rows::delay_row_at(delay_rows, i).delay))
    })
}

fn largest_stop(stop_rows: &[u32]) -> u32
    ensures { result ≡ largest (λ j. given_size (stop_row_at stop_rows.now j)) (stop_row_count stop_rows.now) }
{
    let m = stop_rows.len() / 5;
    (0..m).fold(0, |most, j| {
        most.max(given_size(delay_rows::stop_row_at(stop_rows, j)))
    })
}

// The largest size among trip delays and given stop delays, at most the cap.
pub fn rt_margin(delay_rows: &[u32], stop_rows: &[u32], cap: u32) -> u32
    ensures { result ≡ margin (delay_tables delay_rows.now stop_rows.now) cap }
{
    cap.min(largest_trip(delay_rows).max(largest_stop(stop_rows)))
}
