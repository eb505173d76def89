// delay_call: the exported calls that read the delay tables (document 01, item 4): what they say of a stop time, and the margin. They ask their
// questions, then hand on to `delay_lookup`.
// Place: a call crate; only `exports` and programs use it.
// Specs (claims): the questions and the outcome of both calls (DelayCall). Rows, look-up and margin are defined in `delay_rows`.
// Proves: each call's outcome is the defined one, on every input; worked rows (proofs/DelayExamples).
// Assumes nothing.
#![tactic(auto)]

ghost use Rattle.std.specs.Prelude.{◌≡◌};
ghost use Rattle.door.specs.Door.{code_of, answer_of};
ghost use Rattle.delay_call.specs.DelayCall.{delay_counts, delay_lengths, delays_door, margin_outcome, told, delay_at_of, delay_at_outcome};
ghost use Rattle.delay_rows.specs.Delays.{margin};

use door::{Refusal, Settings};
use stop_delay::StopDelay;

// What a caller in C reads of `delay_at`: code 0, and known 1 where the trip has a delay row; or the number of the first no, the rest 0.
#[repr(C)]
#[derive(Clone, Copy)]
pub struct DelayAt {
    pub code: u32,
    pub known: u32,
    pub trip_delay: u32,
    pub flags: u32,
    pub departure_delay: u32,
    pub arrival_delay: u32,
}

// Question 1.
fn delay_counts(trips: u32, delay_row_count: u32, stop_row_count: u32) -> bool
    ensures { result ≡ delay_counts trips delay_row_count stop_row_count }
{
    trips <= 4096 && delay_row_count <= 4096 && stop_row_count <= 4096
}

// Question 2.
fn delay_lengths(
    delay_row_count: u32,
    stop_row_count: u32,
    delay_rows: &[u32],
    stop_rows: &[u32],
) -> bool
    ensures { result ≡ delay_lengths delay_row_count stop_row_count delay_rows.now stop_rows.now }
{
    let delays = delay_rows.len() == 2 * (delay_row_count as usize);
    let stops = stop_rows.len() == 5 * (stop_row_count as usize);
    delays && stops
}

// The door of the delay tables. `numbered` is the caller's own part of question 4.
#[tactic(auto, unfolding(crate::specs::DelayCall::delays_door), using(door::proofs::Laws::not_within))]
fn delays_door(
    settings: Settings,
    trips: u32,
    delay_row_count: u32,
    stop_row_count: u32,
    delay_rows: &[u32],
    stop_rows: &[u32],
    numbered: bool,
) -> Result<(), Refusal>
    ensures { code_of result ≡ delays_door settings trips delay_row_count stop_row_count
        delay_rows.now stop_rows.now numbered }
{
    let counts = delay_counts(trips, delay_row_count, stop_row_count);
    door::limits(counts, settings)?;
    let lengths = delay_lengths(delay_row_count, stop_row_count, delay_rows, stop_rows);
    door::ask(Refusal::Sizes, lengths)?;
    let numbers = delay_rows::numbers_ok(trips, delay_rows, stop_rows);
    door::ask(Refusal::Numbers, numbers && numbered)?;
    let ranges = delay_rows::ranges_ok(delay_rows, stop_rows);
    door::ask(Refusal::Ranges, ranges)?;
    let order = delay_rows::order_ok(delay_rows, stop_rows);
    door::ask(Refusal::Order, order)
}

// Questions 1, 14, 2, 4, 5 and 6, then the margin.
pub fn margin(
    settings: Settings,
    trips: u32,
    delay_row_count: u32,
    stop_row_count: u32,
    delay_rows: &[u32],
    stop_rows: &[u32],
) -> Result<u32, Refusal>
    ensures { answer_of result ≡ margin_outcome settings trips delay_row_count stop_row_count
        delay_rows.now stop_rows.now }
{
    delays_door(
        settings,
        trips,
        delay_row_count,
        stop_row_count,
        delay_rows,
        stop_rows,
        true,
    )?;
    Ok(delay_lookup::rt_margin(delay_rows, stop_rows, settings.margin_cap))
}

// An answer of delay_at.
fn told(code: u32, known: u32, d: StopDelay) -> DelayAt
    ensures { result ≡ told code known d }
{
    DelayAt {
        code,
        known,
        trip_delay: d.trip_delay,
        flags: d.flags,
        departure_delay: d.departure_delay,
        arrival_delay: d.arrival_delay,
    }
}

// What a caller in C reads of delay_at.
impl From<Result<Option<StopDelay>, Refusal>> for DelayAt {
    ghost from_gives = { λ r a. a ≡ delay_at_of r };

    fn from(outcome: Result<Option<StopDelay>, Refusal>) -> DelayAt {
        match outcome {
            Ok(Some(delay)) => told(0, 1, delay),
            Ok(None) => told(0, 0, stop_delay::no_delay()),
            Err(question) => told(u32::from(question), 0, stop_delay::no_delay()),
        }
    }
}

// Questions 1, 14, 2, 4 (with the trip), 5 and 6, then what the tables say of the trip's stop time with this sequence;
// None: the trip has no delay row.
#[tactic(auto, using(crate::proofs::DelayCall::read_steps))]
pub fn delay_at(
    settings: Settings,
    trips: u32,
    delay_row_count: u32,
    stop_row_count: u32,
    delay_rows: &[u32],
    stop_rows: &[u32],
    trip: u32,
    sequence: u32,
) -> Result<Option<StopDelay>, Refusal>
    ensures { delay_at_of result ≡ delay_at_outcome settings trips delay_row_count stop_row_count
        delay_rows.now stop_rows.now trip sequence }
{
    delays_door(
        settings,
        trips,
        delay_row_count,
        stop_row_count,
        delay_rows,
        stop_rows,
        trip < trips,
    )?;
    let row = delay_lookup::delay_row(delay_rows, trip);
    Ok(row.map(|row| delay_lookup::stop_delay(delay_rows, stop_rows, row, sequence)))
}
