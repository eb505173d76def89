// frequency: boarding a frequency trip (document 01, item 3; GTFS frequencies.txt), the Rust's `earliest_freq_board`, with the waiting of
// document 02, T-02; and the record of a boarding, which a trip without windows gets too.
// Place: a leaf. Its call: `frequency_call`.
// Specs (claims): Gtfs has windows, runs, what is told of a boarding, and the earliest one, found by trying the runs one by one; Reading
// says in plain terms what the earliest boarding is, Waits what its numbers mean. For a law: what the Rust computes (Rust). Inner: how the
// code hands on a run (Found).
// Proves: the code, which divides, finds the boarding of the definition; that is the earliest, in the first window of equals, and none is
// found only where there is none (Reading, with the sizes of its numbers); n, quotient, remainder and wait are as a reader expects, and the
// two formulas of the wait one number (Waits); the Rust's arithmetic with its limit of 32 tries gives the same departure and shift (Rust).
// Worked examples: `frequency_call`.
// Assumes nothing.
#![tactic(auto)]

ghost use Rattle.std.specs.Prelude.{◌≡◌, ◌-◌, ◌≤◌, ◌<◌};
ghost use Rattle.frequency.specs.Gtfs.{boarding_of, board_ordinary};
ghost use Rattle.frequency.specs.Gtfs.{window_count, window_from, window_in, earliest_freq_board, Nominal};
ghost use Rattle.frequency.specs.Found.{window_run, earlier_run, headways_by, Remains, board_of, Drawn};

// Where a boarded run stands among its trip's windows (document 02, T-02): the window, from 0 within the trip; n, the whole headways from
// the window's start to the run, which is the run's number, from 0; quotient and remainder of need by the headway. All 0 where a
// trip has no windows.
#[derive(Clone, Copy, Default)]
pub struct Headways {
    pub window: u32,
    pub run: u32,
    pub quotient: u32,
    pub remainder: u32,
}

// A boarding: its departure at the boarding stop, its shift from the template (an i32's bits), where the run stands, and the wait, from
// the wanted time to the departure.
#[derive(Clone, Copy)]
pub struct BoardedRun {
    pub departure: u32,
    pub time_shift_s: u32,
    pub headways: Headways,
    pub wait: u32,
}

// A run by its start, with its window and its number there. A window that has none gives NO_RUN, which is later than every run.
// (An Option of a run would carry a word more through the loop over the windows, which was measured as slower.)
#[derive(Clone, Copy)]
struct Run {
    start: u32,
    window: u32,
    run: u32,
}

const NO_RUN: Run = Run {
    start: u32::MAX,
    window: 0,
    run: 0,
};

// The one place where a boarding is made. The wait is from the wanted time `after` on.
fn boarding_of(departure: u32, time_shift_s: u32, headways: Headways, after: u32) -> BoardedRun
    requires { after ≤ departure }
    ensures { result ≡ boarding_of departure time_shift_s headways (departure - after) }
{
    BoardedRun {
        departure,
        time_shift_s,
        headways,
        wait: departure - after,
    }
}

// Boarding a trip without windows: it leaves at dep, planned is its scheduled departure.
pub fn board_ordinary(planned: u32, dep: u32, after: u32) -> BoardedRun
    requires planned_bound { planned ≤ 1048575 }
    requires dep_bound { dep < 4194304 }
    requires after_bound { after ≤ dep }
    ensures { result ≡ board_ordinary planned dep after }
{
    let shift = signed::difference(dep, planned);
    boarding_of(dep, shift, Headways::default(), after)
}

// The first run of a window that can be boarded, by division. Run 0 leaves the boarding stop `need` seconds too early, if it does.
fn first_run(
    window: u32,
    start: u32,
    end: u32,
    headway: u32,
    base: u32,
    dep: u32,
    after: u32,
) -> Run
    requires start_bound { (start ≤ 1048575) × (end ≤ 1048575) × (headway ≤ 1048575) }
    requires base_bound { (base ≤ 1048575) × (dep < 4194304) × (after < 134217728) }
    ensures { result ≡ window_run (window_from start end headway) window base dep after }
{
    if headway == 0 {
        return NO_RUN;
    }
    if end <= start {
        return NO_RUN;
    }
    let wanted = after + base;
    if end + dep <= wanted {
        return NO_RUN;
    }
    if wanted <= start + dep {
        return Run {
            start,
            window,
            run: 0,
        };
    }
    let need = wanted - (start + dep);
    let run = need.div_ceil(headway);
    let t = start + run * headway;
    if t < end {
        return Run {
            start: t,
            window,
            run,
        };
    }
    NO_RUN
}

// The first run of window i.
fn run_at(windows: &[u32], base: u32, dep: u32, after: u32, i: usize) -> Run
    requires nominal { Nominal (window_count windows.now) (window_in windows.now) base dep after }
    requires i_bound { i < window_count windows.now }
    ensures { result ≡ window_run (window_in windows.now i) i base dep after }
{
    let start = windows[3 * i];
    let end = windows[3 * i + 1];
    let headway = windows[3 * i + 2];
    first_run(i as u32, start, end, headway, base, dep, after)
}

// The earlier of two runs; of equal ones the first.
fn earlier(kept: Run, next: Run) -> Run
    ensures { result ≡ earlier_run kept next }
{
    if next.start < kept.start { next } else { kept }
}

// Where a run stands, with quotient and remainder of need by the headway where need is above zero. They follow from n and the wait without
// another division: n is the quotient rounded up, and the wait is what the remainder lacks to a headway.
fn headways_of(run: Run, headway: u32, above: bool, wait: u32) -> Headways
    requires { Remains run.run headway above wait }
    ensures { result ≡ headways_by run.window run.run headway above wait }
{
    let (quotient, remainder) = if !above {
        (0, 0)
    } else if wait == 0 {
        (run.run, 0)
    } else {
        (run.run - 1, headway - wait)
    };
    Headways {
        window: run.window,
        run: run.run,
        quotient,
        remainder,
    }
}

// The run as it is boarded.
fn board_at(windows: &[u32], run: Run, base: u32, dep: u32, after: u32) -> Option<BoardedRun>
    requires nominal { Nominal (window_count windows.now) (window_in windows.now) base dep after }
    requires drawn { Drawn (window_count windows.now) (window_in windows.now) base dep after run }
    ensures { result ≡ board_of (window_in windows.now) run base dep after }
{
    if NO_RUN.start <= run.start {
        return None;
    }
    let i = run.window as usize;
    let departure = run.start + dep - base;
    let shift = signed::difference(run.start, base);
    let above = windows[3 * i] + dep < after + base;
    let headways = headways_of(run, windows[3 * i + 2], above, departure - after);
    Some(boarding_of(departure, shift, headways, after))
}

// The earliest boarding over a trip's windows: its own part of the windows' table, three words a row (start, end, headway).
// base: the template's first departure; dep: its departure where one boards; after: the wanted time.
// The earliest departure is that of the earliest run, as each run leaves the stop equally long after its start.
pub fn earliest_freq_board(windows: &[u32], base: u32, dep: u32, after: u32) -> Option<BoardedRun>
    requires { Nominal (window_count windows.now) (window_in windows.now) base dep after }
    ensures { result ≡ earliest_freq_board (window_count windows.now) (window_in windows.now) base dep after }
{
    let mut best = NO_RUN;
    for i in 0..windows.len() / 3 {
        best = earlier(best, run_at(windows, base, dep, after, i));
    }
    board_at(windows, best, base, dep, after)
}
