// trip_boarding: which trips a query permits, the delays of a stop time, the change time, and boarding a trip; these only read.
// Delay rows and stop rows are two slices of their own.
// Place: the search.
// Specs (inner): what is read, and which tables and queries agree with it (Reads); the boarding of a frequency trip (Frequency).
// Proves: each function equal to the model's definition of the same name, for all tables and queries that agree.
// Assumes nothing.
#![tactic(auto)]

ghost use Rattle.std.specs.Prelude.{◌≡◌, ℕ, ◌+◌, ◌≤◌, ◌<◌, ◌||◌, not, List};
ghost use Rattle.door.specs.Door.{time_limit};
ghost use Rattle.stop_delay.specs.Times.{size_of};
ghost use Rattle.stop_delay.specs.Door.{Bounded};
ghost use Rattle.tables.specs.Tables.{time_of, first_of};
ghost use Rattle.tables.specs.Timetable.{timetable};
ghost use Rattle.tables.specs.Sane.{Sane};
ghost use Rattle.delay_rows.specs.Flat.{delay_row_count, delay_row_at, delay_tables};
ghost use Rattle.delay_lookup.specs.Sane.{DelayRows};
ghost use Rattle.model.specs.Tables.{Tables, Query, mode_wanted, usable, permitted, no_pickup, change_before};
ghost use Rattle.model.specs.Search.{delay_of, delay_at, skipped, departure_now, arrival_now, board_at};
ghost use Rattle.trip_boarding.specs.Reads.{hit_of, Known, Ground, Event, Agree, Asks};
ghost use Rattle.trip_boarding.specs.Frequency.{freq_board_at};

use frequency::BoardedRun;
use query_types::Terms;
use stop_delay::StopDelay;
use tables::Counts;

// Trips

// Is a mode wanted?
#[tactic(auto, unfolding(model::specs::Tables::mode_wanted))]
fn mode_wanted(modes: u32, mode: u32) -> bool
    requires { mode < 32 }
    ensures { result ≡ mode_wanted modes mode }
{
    modes == 0 || (modes >> mode) % 2 == 1
}

// Active, not excluded, and fit for a wheelchair where one is asked for.
#[tactic(auto, unfolding(model::specs::Tables::usable))]
fn usable(tables: &[u32], c: Counts, terms: Terms, i: usize) -> bool
    requires sane { Sane tables.now c }
    requires i_bound { i < c.trips }
    ensures { (T : Tables) (Q : Query) → T.timetable ≡ timetable tables.now c → Asks Q terms
        → result ≡ usable T Q i }
{
    tables::trip(tables, c, i, 6) == 1
        && tables::trip(tables, c, i, 7) == 0
        && !(terms.wheelchair && tables::trip(tables, c, i, 3) == 2)
}

// Usable, and of a wanted mode.
#[tactic(auto, unfolding(model::specs::Tables::permitted))]
pub fn permitted(tables: &[u32], c: Counts, terms: Terms, i: usize) -> bool
    requires sane { Sane tables.now c }
    requires i_bound { i < c.trips }
    ensures { (T : Tables) (Q : Query) → T.timetable ≡ timetable tables.now c → Asks Q terms
        → result ≡ permitted T Q i }
{
    let mode = tables::trip(tables, c, i, 2) as u32;
    usable(tables, c, terms, i) && mode_wanted(terms.modes, mode)
}

// Delays

// The delay row of a trip.
pub fn delay_of(delay_rows: &[u32], trip: u32) -> Option<usize>
    requires { DelayRows (delay_row_count delay_rows.now) (delay_row_at delay_rows.now) }
    ensures known { Known delay_rows.now result }
    ensures meaning { ((Q : Query) (stops : List ℕ) → Q.delays ≡ delay_tables delay_rows.now stops
        → hit_of result ≡ delay_of Q trip) }
{
    delay_lookup::delay_row(delay_rows, trip)
}

// Field k of a trip's stop time.
pub fn event_word(tables: &[u32], c: Counts, trip: usize, off: usize, k: usize) -> u32
    requires sane { Sane tables.now c }
    requires event { Event tables.now c trip off }
    requires k_bound { k < 6 }
    ensures { result ≡ time_of tables.now (first_of tables.now c trip + off) k }
{
    tables::time(tables, c, tables::trip(tables, c, trip, 0) + off, k) as u32
}

// What the delay rows say of a trip's stop time, where the trip's delay row is this.
fn delay_at(
    tables: &[u32],
    c: Counts,
    delay_rows: &[u32],
    stop_rows: &[u32],
    adj: Option<usize>,
    trip: usize,
    off: usize,
) -> StopDelay
    requires on_ground { Ground tables.now c delay_rows.now stop_rows.now }
    requires known { Known delay_rows.now adj }
    requires event { Event tables.now c trip off }
    ensures bounded { Bounded result }
    ensures meaning { ((T : Tables) (Q : Query) → Agree T Q tables.now c delay_rows.now stop_rows.now → result
        ≡ delay_at T Q (hit_of adj) trip off) }
{
    let sequence = event_word(tables, c, trip, off, 3);
    match adj {
        Some(i) => delay_lookup::stop_delay(delay_rows, stop_rows, i, sequence),
        None => stop_delay::no_delay(),
    }
}

// Is the stop skipped?
pub fn skipped(
    tables: &[u32],
    c: Counts,
    delay_rows: &[u32],
    stop_rows: &[u32],
    adj: Option<usize>,
    trip: usize,
    off: usize,
) -> bool
    requires on_ground { Ground tables.now c delay_rows.now stop_rows.now }
    requires known { Known delay_rows.now adj }
    requires event { Event tables.now c trip off }
    ensures { (T : Tables) (Q : Query) → Agree T Q tables.now c delay_rows.now stop_rows.now
        → result ≡ skipped T Q (hit_of adj) trip off }
{
    stop_delay::is_skipped(delay_at(tables, c, delay_rows, stop_rows, adj, trip, off))
}

// The effective departure of a stop time.
fn departure_now(
    tables: &[u32],
    c: Counts,
    delay_rows: &[u32],
    stop_rows: &[u32],
    adj: Option<usize>,
    trip: usize,
    off: usize,
) -> u32
    requires on_ground { Ground tables.now c delay_rows.now stop_rows.now }
    requires known { Known delay_rows.now adj }
    requires event { Event tables.now c trip off }
    ensures bound { result ≤ 2097150 }
    ensures meaning { ((T : Tables) (Q : Query) → Agree T Q tables.now c delay_rows.now stop_rows.now → result
        ≡ departure_now T Q (hit_of adj) trip off) }
{
    let d = delay_at(tables, c, delay_rows, stop_rows, adj, trip, off);
    stop_delay::rt_effective_dep_s(event_word(tables, c, trip, off, 2), d)
}

// The effective arrival of a stop time on a ride with this shift.
pub fn arrival_now(
    tables: &[u32],
    c: Counts,
    delay_rows: &[u32],
    stop_rows: &[u32],
    adj: Option<usize>,
    shift: u32,
    trip: usize,
    off: usize,
) -> u32
    requires on_ground { Ground tables.now c delay_rows.now stop_rows.now }
    requires known { Known delay_rows.now adj }
    requires event { Event tables.now c trip off }
    requires size_of { size_of shift ≤ time_limit }
    ensures bound { result ≤ 2097150 }
    ensures meaning { ((T : Tables) (Q : Query) → Agree T Q tables.now c delay_rows.now stop_rows.now → result
        ≡ arrival_now T Q (hit_of adj) shift trip off) }
{
    let d = delay_at(tables, c, delay_rows, stop_rows, adj, trip, off);
    stop_delay::rt_effective_arr_s(event_word(tables, c, trip, off, 1), shift, d)
}

// Boarding

// The earliest run of a frequency trip that leaves a stop time, whose effective departure is dep, not before `after`.
fn freq_board_at(tables: &[u32], c: Counts, trip: usize, dep: u32, after: u32) -> Option<BoardedRun>
    requires sane { Sane tables.now c }
    requires trip_bound { trip < c.trips }
    requires dep_bound { dep ≤ 2097150 }
    requires after_bound { after < 134217728 }
    ensures { result ≡ freq_board_at (timetable tables.now c) trip dep after }
{
    let base = event_word(tables, c, trip, 0, 2);
    let from = c.times * 6 + c.trips * 8 + tables::trip(tables, c, trip, 4) * 3;
    let end = from + tables::trip(tables, c, trip, 5) * 3;
    frequency::earliest_freq_board(&tables[from..end], base, dep, after)
}

// Boarding a trip at an offset, not before `after`.
#[tactic(auto, unfolding(model::specs::Search::board_at))]
pub fn board_at(
    tables: &[u32],
    c: Counts,
    delay_rows: &[u32],
    stop_rows: &[u32],
    adj: Option<usize>,
    trip: usize,
    off: usize,
    after: u32,
) -> Option<BoardedRun>
    requires on_ground { Ground tables.now c delay_rows.now stop_rows.now }
    requires known { Known delay_rows.now adj }
    requires event { Event tables.now c trip off }
    requires after_bound { after < 134217728 }
    ensures { (T : Tables) (Q : Query) → Agree T Q tables.now c delay_rows.now stop_rows.now
        → result ≡ board_at T Q (hit_of adj) trip off after }
{
    let dep = departure_now(tables, c, delay_rows, stop_rows, adj, trip, off);
    if tables::trip(tables, c, trip, 5) != 0 {
        return freq_board_at(tables, c, trip, dep, after);
    }
    if dep < after {
        return None;
    }
    let planned = event_word(tables, c, trip, off, 2);
    Some(frequency::board_ordinary(planned, dep, after))
}

// Is the trip not usable, without pickup at the offset, or skipping it? Modes are not asked.
pub fn barred(
    tables: &[u32],
    c: Counts,
    delay_rows: &[u32],
    stop_rows: &[u32],
    terms: Terms,
    adj: Option<usize>,
    trip: usize,
    off: usize,
) -> bool
    requires on_ground { Ground tables.now c delay_rows.now stop_rows.now }
    requires known { Known delay_rows.now adj }
    requires event { Event tables.now c trip off }
    ensures { (T : Tables) (Q : Query) → Agree T Q tables.now c delay_rows.now stop_rows.now
        → Asks Q terms → result ≡ ((not (usable T Q trip) || no_pickup T trip off) || skipped T Q (hit_of adj) trip off) }
{
    !usable(tables, c, terms, trip)
        || event_word(tables, c, trip, off, 4) == 1
        || skipped(tables, c, delay_rows, stop_rows, adj, trip, off)
}

// The change time before a boarding in round r: none in the first.
#[tactic(auto, unfolding(model::specs::Tables::change_before))]
pub fn change_before(r: u32, change: u32) -> u32
    ensures { (Q : Query) → Q.change ≡ change → change_before Q r ≡ result }
{
    if r == 0 { 0 } else { change }
}
