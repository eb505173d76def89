// stop_delay: what delays do to one stop time (document 01, item 4): `rt_effective_dep_s` and `rt_effective_arr_s` of raptor.rs,
// `RtTripAdjust` of journey.rs. Which delays a stop time has is in crate `delay_lookup`.
// Flags: 1 departure given, 2 arrival given, 4 skipped. Delays are the bits of an i32; what they mean is said in crate `signed`.
// Place: a leaf. Its calls: `leaf_calls`.
// Specs (claims): Times (flags, effective times), Door (the size of a delay that question 5 admits).
// Proves: every function equal to its definition; that without a delay row times stand; that effective times are at most
// 2,097,150 where question 5 is answered yes.
// Assumes nothing.
#![tactic(auto)]

ghost use Rattle.std.specs.Prelude.{◌≡◌, ◌<◌};
ghost use Rattle.stop_delay.specs.Times.{departure_given, arrival_given, skipped_at, no_delay, effective_departure, effective_arrival};
ghost use Rattle.stop_delay.specs.Door.{size_ok};

// The delays of one stop time. Its trip has no delay row: all 0. It has no stop row: flags, departure_delay and arrival_delay 0.
#[derive(Clone, Copy, Default)]
pub struct StopDelay {
    pub trip_delay: u32,
    pub flags: u32,
    pub departure_delay: u32,
    pub arrival_delay: u32,
}

// A trip without a delay row: all numbers 0.
pub fn no_delay() -> StopDelay
    ensures { result ≡ no_delay }
{
    StopDelay::default()
}

// Flag 1.
pub fn departure_given(flags: u32) -> bool
    ensures { result ≡ departure_given flags }
{
    flags % 2 == 1
}

// Flag 2.
pub fn arrival_given(flags: u32) -> bool
    ensures { result ≡ arrival_given flags }
{
    flags / 2 % 2 == 1
}

// Flag 4.
pub fn is_skipped(d: StopDelay) -> bool
    ensures { result ≡ skipped_at d.flags }
{
    d.flags / 4 % 2 == 1
}

// The departure with its own delay if one is given, else the trip's, no lower than 0.
pub fn rt_effective_dep_s(departure: u32, d: StopDelay) -> u32
    requires { departure < 2147483648 }
    ensures { result ≡ effective_departure departure d }
{
    let delay = if departure_given(d.flags) {
        d.departure_delay
    } else {
        d.trip_delay
    };
    signed::moved(departure, delay)
}

// The arrival with its own delay, else the trip's, if the stop row gives either time; else with the shift. No lower than 0.
pub fn rt_effective_arr_s(arrival: u32, time_shift_s: u32, d: StopDelay) -> u32
    requires { arrival < 2147483648 }
    ensures { result ≡ effective_arrival arrival time_shift_s d }
{
    let own = arrival_given(d.flags);
    let delay = if departure_given(d.flags) || own {
        if own { d.arrival_delay } else { d.trip_delay }
    } else {
        time_shift_s
    };
    signed::moved(arrival, delay)
}

// Exported calls

// Is the size of a signed delay within the limit?
pub fn size_ok(bits: u32) -> bool
    ensures { result ≡ size_ok bits }
{
    signed::size(bits) <= door::TIME_LIMIT
}
