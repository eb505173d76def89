// leaf_calls: the exported calls of the leaves that take numbers alone (document 01, items 2, 4 and 11): walks and rounds, effective times,
// clock readings. Each asks its questions, 14 (the settings) among them, then hands on to the leaf's own function. The calls of cell sets and of
// leaves that are lent slices: `cell_set_call`, `frequency_call`, `delay_call`.
// Place: a call crate; only `exports` and programs use it.
// Specs (claims): the questions and the outcome of each call (WalkCall, StopDelayCall, ClockCall). What a leaf computes is defined beside its
// function, in its own crate.
// Proves: each call's outcome is the defined one, on every input; of clock readings that none is above 172,799, and that two are equal only if
// hours, minutes and seconds are; document 01's worked rows (proofs/..Examples).
// Assumes nothing.
#![tactic(auto)]

ghost use Rattle.std.specs.Prelude.{◌≡◌, true};
ghost use Rattle.door.specs.Door.{answer_of};
ghost use Rattle.leaf_calls.specs.ClockCall.{clock_in_range, reading, service_second};
ghost use Rattle.leaf_calls.specs.StopDelayCall.{time_in_range, departure_outcome, arrival_outcome, skipped_outcome};
ghost use Rattle.leaf_calls.specs.WalkCall.{walk_in_range, walk_duration, rounds_answer};

use door::{Refusal, Settings};
use stop_delay::StopDelay;

// Is this a clock reading?
fn clock_in_range(hour: u32, minute: u32, second: u32) -> bool
    ensures { result ≡ clock_in_range hour minute second }
{
    hour <= 47 && minute <= 59 && second <= 59
}

// The seconds of a clock reading.
#[tactic(auto, using(crate::proofs::Clock::ranges))]
fn reading(hour: u32, minute: u32, second: u32) -> u32
    requires { clock_in_range hour minute second ≡ true }
    ensures { result ≡ reading hour minute second }
{
    3600 * hour + 60 * minute + second
}

// The service second of a clock reading; refused by question 5 if it is none.
pub fn service_second(
    settings: Settings,
    hour: u32,
    minute: u32,
    second: u32,
) -> Result<u32, Refusal>
    ensures { answer_of result ≡ service_second settings hour minute second }
{
    door::ranges(settings, clock_in_range(hour, minute, second))?;
    Ok(reading(hour, minute, second))
}

// Question 5 of an effective time.
fn time_in_range(time: u32, flags: u32, trip_delay: u32, own: u32) -> bool
    ensures { result ≡ time_in_range time flags trip_delay own }
{
    (time <= door::TIME_LIMIT && flags <= 7)
        && (stop_delay::size_ok(trip_delay) && stop_delay::size_ok(own))
}

// Questions 14 and 5, then the effective departure.
pub fn effective_departure(
    settings: Settings,
    departure: u32,
    trip_delay: u32,
    flags: u32,
    departure_delay: u32,
) -> Result<u32, Refusal>
    ensures { answer_of result ≡ departure_outcome settings departure trip_delay flags departure_delay }
{
    door::ranges(
        settings,
        time_in_range(departure, flags, trip_delay, departure_delay),
    )?;
    let d = StopDelay {
        trip_delay,
        flags,
        departure_delay,
        arrival_delay: 0,
    };
    Ok(stop_delay::rt_effective_dep_s(departure, d))
}

// Questions 14 and 5, then the effective arrival.
pub fn effective_arrival(
    settings: Settings,
    arrival: u32,
    time_shift_s: u32,
    trip_delay: u32,
    flags: u32,
    arrival_delay: u32,
) -> Result<u32, Refusal>
    ensures { answer_of result ≡ arrival_outcome settings arrival time_shift_s trip_delay flags arrival_delay }
{
    let ranged = time_in_range(arrival, flags, trip_delay, arrival_delay);
    door::ranges(settings, ranged && stop_delay::size_ok(time_shift_s))?;
    let d = StopDelay {
        trip_delay,
        flags,
        departure_delay: 0,
        arrival_delay,
    };
    Ok(stop_delay::rt_effective_arr_s(arrival, time_shift_s, d))
}

// Questions 14 and 5, then 1 if the stop is skipped, else 0.
pub fn skipped(settings: Settings, flags: u32) -> Result<u32, Refusal>
    ensures { answer_of result ≡ skipped_outcome settings flags }
{
    door::ranges(settings, flags <= 7)?;
    let d = StopDelay {
        flags,
        ..stop_delay::no_delay()
    };
    Ok(u32::from(stop_delay::is_skipped(d)))
}

// Question 5 of a walk.
fn walk_in_range(duration: u32, pathway_mode: u32, wheelchair: u32) -> bool
    ensures { result ≡ walk_in_range duration pathway_mode wheelchair }
{
    duration <= door::TIME_LIMIT && pathway_mode <= 7 && wheelchair <= 1
}

// The duration of a walk in a query; refused by question 5 if a number is out of its range.
pub fn walk_duration(
    settings: Settings,
    duration: u32,
    pathway_mode: u32,
    wheelchair: u32,
) -> Result<u32, Refusal>
    ensures { answer_of result ≡ walk_duration settings duration pathway_mode wheelchair }
{
    door::ranges(settings, walk_in_range(duration, pathway_mode, wheelchair))?;
    Ok(walk_time::effective_duration_s(duration, pathway_mode, wheelchair == 1))
}

// The rounds of a query, behind question 14.
pub fn max_rounds(settings: Settings, wanted: u32, transfers: u32) -> Result<u32, Refusal>
    ensures { answer_of result ≡ rounds_answer settings wanted transfers }
{
    door::ask(Refusal::Settings, door::settings_ok(settings))?;
    Ok(walk_time::tbr_max_rounds(wanted, transfers))
}
