// door: what an entry answers, and the settings that every call receives. Document 01 puts its questions in order; the answer to the
// first no is that question's number, 0 is success.
// Place: the foundation.
// Specs (claims): `ask` (the first no wins), an answer that carries one number, the limit of times (Door); the four settings of request
// T-07, their ranges, which are question 14, and the Rust's own numbers (Settings).
// Proves: that the two ways to make an answer are those of the definition, and question 14 with the one that is asked before or after it.
// In proofs/House: what a yes to question 14 gives, each range's ends.
// Assumes nothing.
#![tactic(auto)]

ghost use Rattle.std.specs.Prelude.{◌≡◌, MatchResult, true, false};
ghost use Rattle.door.specs.Door.{ask, refusal, success, number_of, code_of, answer_of};
ghost use Rattle.door.specs.Settings.{default_settings, settings_ok, ranges_asked};

use std::fmt;

// The largest time, duration, headway or delay size, in seconds.
pub const TIME_LIMIT: u32 = 1048575;

// Why a call refuses: the first of its questions that is answered no. The questions are asked by their numbers, but that 14 comes after 1 and
// 15 before all.
#[derive(Clone, Copy, Debug, PartialEq, Eq)]
pub enum Refusal {
    Counts,
    Sizes,
    Runs,
    Numbers,
    Ranges,
    Order,
    Room,
    Queue,
    Settings,
    Screen,
}

// The question's number, which a caller in C reads.
impl From<Refusal> for u32 {
    ghost from_gives = { λ q n. n ≡ number_of q };

    fn from(question: Refusal) -> u32 {
        match question {
            Refusal::Counts => 1,
            Refusal::Sizes => 2,
            Refusal::Runs => 3,
            Refusal::Numbers => 4,
            Refusal::Ranges => 5,
            Refusal::Order => 6,
            Refusal::Room => 7,
            Refusal::Queue => 8,
            Refusal::Settings => 14,
            Refusal::Screen => 15,
        }
    }
}

impl fmt::Display for Refusal {
    fn fmt<W: fmt::Write>(&self, f: &mut fmt::Formatter<W>) -> fmt::Result {
        f.write_str(match self {
            Refusal::Counts => "a count is above its limit",
            Refusal::Sizes => "a lent slice is not as long as its counts say",
            Refusal::Runs => "a trip has no stop time, or a run lies outside its table",
            Refusal::Numbers => "a number is not below its count, or a departure not at its stop",
            Refusal::Ranges => "a time or code is out of its range",
            Refusal::Order => "rows are not in order",
            Refusal::Room => "there are more transfers than the area holds",
            Refusal::Queue => "a round has more segments than the queue holds",
            Refusal::Settings => "a setting is out of its range",
            Refusal::Screen => "there is no such screen",
        })
    }
}

// An outcome: code 0 with a value, or the number of the first no with value 0.
#[repr(C)]
#[derive(Clone, Copy)]
pub struct Answer {
    pub code: u32,
    pub value: u32,
}

// The settings of the house, in seconds but for line_scan: the time of a built transfer (at most 3,600), how many trips of a line are
// tried for a transfer (1 to 4,096), how much later than the best total a candidate may arrive (at most 21,600), the cap of the delay
// margin (at most 1,048,575).
#[repr(C)]
#[derive(Clone, Copy)]
pub struct Settings {
    pub transfer_time: u32,
    pub line_scan: u32,
    pub candidate_slack: u32,
    pub margin_cap: u32,
}

// The Rust's four numbers.
impl Default for Settings {
    fn default() -> Settings
        ensures { result ≡ default_settings }
    {
        Settings {
            transfer_time: 120,
            line_scan: 64,
            candidate_slack: 3600,
            margin_cap: 21600,
        }
    }
}

// Question 14.
#[tactic(auto, unfolding(crate::specs::Settings::settings_ok))]
pub fn settings_ok(settings: Settings) -> bool
    ensures { result ≡ settings_ok settings }
{
    settings.transfer_time <= 3600
        && 1 <= settings.line_scan
        && settings.line_scan <= 4096
        && settings.candidate_slack <= 21600
        && settings.margin_cap <= TIME_LIMIT
}

// A question: a no refuses.
pub fn ask(question: Refusal, yes: bool) -> Result<(), Refusal>
    ensures { MatchResult result (λ _. yes ≡ true) (λ q. (q ≡ question) × (yes ≡ false)) }
{
    if yes { Ok(()) } else { Err(question) }
}

// Questions 1 and 14: `counts` says whether all counts are within the limits.
pub fn limits(counts: bool, settings: Settings) -> Result<(), Refusal>
    ensures { code_of result ≡ ask 1 counts (ask 14 (settings_ok settings) 0) }
{
    ask(Refusal::Counts, counts)?;
    ask(Refusal::Settings, settings_ok(settings))
}

// Questions 14 and 5, of a call that is handed numbers alone: `ranged` says whether every time and code is in its range.
pub fn ranges(settings: Settings, ranged: bool) -> Result<(), Refusal>
    ensures { code_of result ≡ ranges_asked settings ranged }
{
    ask(Refusal::Settings, settings_ok(settings))?;
    ask(Refusal::Ranges, ranged)
}

// What a caller in C reads of a call that hands back no value: 0, or the question's number.
pub fn code(outcome: Result<(), Refusal>) -> u32
    ensures { result ≡ code_of outcome }
{
    match outcome {
        Ok(()) => 0,
        Err(question) => u32::from(question),
    }
}

// What a caller in C reads of a call that hands back one number.
impl From<Result<u32, Refusal>> for Answer {
    ghost from_gives = { λ r a. a ≡ answer_of r };

    fn from(outcome: Result<u32, Refusal>) -> Answer {
        match outcome {
            Ok(value) => given(value),
            Err(question) => refused(u32::from(question)),
        }
    }
}

pub fn refused(code: u32) -> Answer
    ensures { result ≡ refusal code }
{
    Answer {
        code: code,
        value: 0,
    }
}

pub fn given(value: u32) -> Answer
    ensures { result ≡ success value }
{
    Answer {
        code: 0,
        value: value,
    }
}
