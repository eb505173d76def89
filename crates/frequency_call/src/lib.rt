// frequency_call: the exported call of frequency boarding (document 01, item 3; document 02, T-02). It asks its questions, then hands on to
// `frequency`.
// Place: a call crate; only `exports`, the demands and programs use it.
// Specs (claims): the questions and the outcome of the call (FrequencyCall), what its answer tells (Told). Runs and boarding: `frequency`.
// Proves: the call's outcome is the defined one, on every input; it tells the earliest boarding with its waiting, or that there is none
// (`freq_told`); the worked rows of documents 01 and 02 (proofs/FrequencyExamples).
// Assumes nothing.
#![tactic(auto)]

ghost use Rattle.std.specs.Prelude.{◌≡◌, ◌<◌};
ghost use Rattle.frequency.specs.Gtfs.{window_count, window_in};
ghost use Rattle.frequency_call.specs.FrequencyCall.{are_times, window_in_range, windows_in_range, freq_in_range, no_board, freq_of, freq_outcome};

use door::{Refusal, Settings};
use frequency::BoardedRun;

// The most windows.
const WINDOW_LIMIT: u32 = 65536;

// What the entry answers: the code; then found 1 with the boarding's numbers, or found 0 and zeros. The window is numbered from 0; the run's
// number is n, the whole headways from the window's start to it; quotient and remainder are those of need by the headway.
#[repr(C)]
#[derive(Clone, Copy)]
pub struct FreqAnswer {
    pub code: u32,
    pub found: u32,
    pub departure: u32,
    pub time_shift_s: u32,
    pub window: u32,
    pub run: u32,
    pub quotient: u32,
    pub remainder: u32,
    pub wait: u32,
}

// No boarding: the number of the question that refused, or 0 where no run can be boarded.
pub fn no_board(code: u32) -> FreqAnswer
    ensures { result ≡ no_board code }
{
    FreqAnswer {
        code,
        found: 0,
        departure: 0,
        time_shift_s: 0,
        window: 0,
        run: 0,
        quotient: 0,
        remainder: 0,
        wait: 0,
    }
}

// What a caller in C reads of the call.
impl From<Result<Option<BoardedRun>, Refusal>> for FreqAnswer {
    ghost from_gives = { λ r a. a ≡ freq_of r };

    fn from(outcome: Result<Option<BoardedRun>, Refusal>) -> FreqAnswer {
        match outcome {
            Ok(Some(b)) => FreqAnswer {
                code: 0,
                found: 1,
                departure: b.departure,
                time_shift_s: b.time_shift_s,
                window: b.headways.window,
                run: b.headways.run,
                quotient: b.headways.quotient,
                remainder: b.headways.remainder,
                wait: b.wait,
            },
            Ok(None) => no_board(0),
            Err(question) => no_board(u32::from(question)),
        }
    }
}

// Is each of the three a time in its range?
fn are_times(a: u32, b: u32, c: u32) -> bool
    ensures { result ≡ are_times a b c }
{
    a <= door::TIME_LIMIT && b <= door::TIME_LIMIT && c <= door::TIME_LIMIT
}

// The start, the end and the headway of window i?
fn window_in_range(windows: &[u32], i: usize) -> bool
    requires { i < window_count windows.now }
    ensures { result ≡ window_in_range (window_in windows.now i) }
{
    are_times(windows[3 * i], windows[3 * i + 1], windows[3 * i + 2])
}

// Those of every window?
fn windows_in_range(windows: &[u32]) -> bool
    ensures { result ≡ windows_in_range windows.now }
{
    for i in 0..windows.len() / 3 {
        if !window_in_range(windows, i) {
            return false;
        }
    }
    true
}

// Question 5: is every time in its range?
fn freq_in_range(windows: &[u32], base: u32, dep: u32, after: u32) -> bool
    ensures { result ≡ freq_in_range windows.now base dep after }
{
    are_times(base, dep, after) && windows_in_range(windows)
}

// Frequency boarding with its questions: 1 counts, 14 settings, 2 lengths, 5 times. None: no run can be boarded.
pub fn freq_board(
    settings: Settings,
    count: u32,
    windows: &[u32],
    base: u32,
    dep: u32,
    after: u32,
) -> Result<Option<BoardedRun>, Refusal>
    ensures { freq_of result ≡ freq_outcome settings count windows.now base dep after }
{
    door::limits(count <= WINDOW_LIMIT, settings)?;
    door::ask(Refusal::Sizes, windows.len() == 3 * (count as usize))?;
    door::ask(Refusal::Ranges, freq_in_range(windows, base, dep, after))?;
    Ok(frequency::earliest_freq_board(windows, base, dep, after))
}
