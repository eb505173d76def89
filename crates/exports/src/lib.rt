// exports: every call of the library for C and Rust. Each asks question 15 (the screen), makes the call of its crate, counts it in the box's tally
// and hands the answer on, under a C name and with the whole contract: `outcome` (the call's own, or 15 with everything as it came) and `counts`
// (the tally at exit).
// Numbers and structs pass as themselves, a slice as a pointer and a length, the tally as a pointer. No call has a `requires`: what the door of
// document 01 does not admit is refused by the number of the first question answered no, and what was lent is as it came, the tally aside.
// The comments above calls and structs, and those that stand alone, go into the C header (bindings/generate).
// Place: the library's own crate.
// Proves: each call's whole outcome is its crate's definition of it, for a screen of 0 to 63; the tally at exit, on every input.
// Assumes nothing.
#![tactic(auto, using(crate::proofs::Refused::gate))]

ghost use Rattle.std.specs.Prelude.{◌≡◌};
ghost use Rattle.tally.specs.Screen.{for_screen, tally_after};
ghost use Rattle.door.specs.Door.{refusal};
ghost use Rattle.cell_bitset.specs.CellSet.{empty_set};
ghost use Rattle.cell_set_call.specs.CellSetCall.{created, resized, with_cell_answer, held_answer, meets_answer, union_answer, empty_answer};
ghost use Rattle.leaf_calls.specs.WalkCall.{walk_duration, rounds_answer};
ghost use Rattle.frequency_call.specs.FrequencyCall.{no_board, freq_outcome};
ghost use Rattle.leaf_calls.specs.StopDelayCall.{departure_outcome, arrival_outcome, skipped_outcome};
ghost use Rattle.stop_delay.specs.Times.{no_delay};
ghost use Rattle.delay_call.specs.DelayCall.{told, margin_outcome, delay_at_outcome};
ghost use Rattle.label_call.specs.Calls.{label_outcome, store_outcome, refused_label, load_answer};
ghost use Rattle.label.specs.declared.Label.TheVariants.{Access, Transit, Walk};
ghost use Rattle.leaf_calls.specs.ClockCall.{service_second};
ghost use Rattle.departures_call.specs.Call.{sort_areas, sort_outcome_of, sort_outcome};
ghost use Rattle.lines_call.specs.Call.{line_areas, lines_outcome};
ghost use Rattle.layout_call.specs.Call.{layout_areas, layout_outcome_of, layout_outcome};
ghost use Rattle.transfers_call.specs.Call.{transfer_areas, transfer_lent, transfers_outcome};
ghost use Rattle.query_input.specs.Lent.{lent};
ghost use Rattle.query_call.specs.Workspace.{workspace_answer};
ghost use Rattle.query_reply.specs.Outcome.{query_areas, refused};
ghost use Rattle.query_call.specs.Call.{run_tbr_outcome, query_outcome};
ghost use Rattle.sizes.specs.Counts.{counts_of, query_counts_of};
ghost use Rattle.sized_calls.specs.Shown.{shown, shown_of, shown_transfers, shown_transfers_of};

use cell_bitset::CellBitSet;
use cell_set_call::CellSetAnswer;
use delay_call::DelayAt;
use door::{Answer, Settings};
use frequency_call::FreqAnswer;
use label_call::LabelAnswer;
use query_reply::Reply;
use sizes::QuerySizes;

// The last screen: a number above it is no screen (question 15).
const LAST_SCREEN: u32 = 63;

// RULES OF EVERY CALL. A slice is lent as a pointer to its first element and the number of its elements. The pointer is not
// null and is aligned for its elements, also where the number is 0 (then nothing is read or written through it). The tally is
// lent as a pointer to the box's record. What is written overlaps nothing else that is lent, and nothing else touches lent
// memory during the call. A call keeps no pointer, allocates nothing and has no state, so calls on different memory (each with
// a tally of its own) may run at the same time.
// A word is a u32 (uint32_t), a distance an f64 (double). Times and durations are seconds, from 0 to 1,048,575. Signed numbers
// (delays, time_shift_s) are the bits of an i32. Stops, trips, lines and rows are numbered from 0; an offset counts a trip's stop
// times from 0. A run is two words: its first row and its length; runs may overlap, leave gaps and stand in any order. What is
// lent only to be written may have any content before the call.

// CODES. A call answers 0, or the number of the first of its questions that is answered no:
//   0  none: success
//  15  Is the screen one of 0 to 63? Every call asks this before all else; where not, nothing is touched, the tally neither.
//   1  Are all counts within the limits? (4,096 stops, trips, lines, line entries, patterns, delay rows and stop rows; 65,536
//      stop times, walk edges, departures, windows and transfers; 512 cells; 64 origins; 64 egress stops)
//  14  Is every setting in its range? Every call asks this, after 1 and before 2.
//   2  Is every lent slice exactly as long as its counts say? (The transfer area and the queue may have any length; the two
//      halves of the queue have the same.)
//   3  Has every trip a stop time, and do all runs lie in their tables? (First + length at most the table's rows.)
//   4  Is every stop, trip, line and delay-row number below its count, and each departure's offset below its trip's count, with
//      that stop time at its stop?
//   5  Is every time and code in its range?
//   6  Are walk edges, delay rows, stop rows, egress stops and, for a query, departures in order?
//   7  Building transfers: are there at most 65,536, and does the area hold all of them?
//   8  Query: does a half of the segment queue hold every round's segments?
// After a refusal everything lent is as it came, the tally aside, a set that was handed in is handed back, and the other fields of
// the answer are 0; after 8 the labels, their distances, the workspace and both halves of the queue are zero. What is said below of a
// call's questions leaves 15 out.

// TALLY: the box owns one record of the answered and refused calls of each screen, 0 to 63, zero at first, and lends it to every call
// with the number of the screen that the call is made for. The call adds one to that screen: to answered where its code is 0 ("no way"
// is answered), else to refused. A count at 4,294,967,295 stays there. A screen above 63 is refused by 15 and counts nowhere. What a
// call answers does not depend on the tally, and what a screen's tally shows does not depend on the calls of other screens.

// SETTINGS OF THE HOUSE: four numbers that every call receives. Most calls only ask whether they are in their ranges (14). Transfers are
// built with transfer_time; the margin is cut at margin_cap; a query reads line_scan, candidate_slack and margin_cap. Journeys on a plain
// day keep their guarantee under every setting where the transfers were built with the transfer_time that the query is asked with.

// CELL SETS, the arc flags' patterns: a value of 64 bytes and the count of reserved ones, handed in and handed back.

// An empty set for so many cells: whole groups of 64 are reserved. Question 1: at most 512 cells.
#[unsafe(no_mangle)]
pub extern "C" fn savoiky_cell_bitset_new(
    tally: &mut [u32; 128],
    screen: u32,
    settings: Settings,
    num_cells: u32,
) -> CellSetAnswer
    ensures outcome { result ≡ for_screen screen (record { code = 15; set = empty_set 0 }) (created settings num_cells) }
    ensures counts { tally.new ≡ tally_after tally.old screen result.code }
{
    if LAST_SCREEN < screen {
        return cell_set_call::answered(Err(door::Refusal::Screen), CellBitSet::new(0));
    }
    let made = cell_set_call::answered(
        cell_set_call::create(settings, num_cells),
        CellBitSet::new(0),
    );
    tally::count_call(tally, screen, made.code);
    made
}

// The set with at least the groups of so many cells reserved; it holds the same cells. Question 1: at most 512 cells; refused, the
// set is as it came.
#[unsafe(no_mangle)]
pub extern "C" fn savoiky_cell_bitset_ensure_sized(
    tally: &mut [u32; 128],
    screen: u32,
    settings: Settings,
    set: CellBitSet,
    num_cells: u32,
) -> CellSetAnswer
    ensures outcome { result ≡ for_screen screen (record { code = 15; set = set }) (resized settings set num_cells) }
    ensures counts { tally.new ≡ tally_after tally.old screen result.code }
{
    if LAST_SCREEN < screen {
        return cell_set_call::answered(Err(door::Refusal::Screen), set);
    }
    let sized = cell_set_call::answered(cell_set_call::resize(settings, set, num_cells), set);
    tally::count_call(tally, screen, sized.code);
    sized
}

// The set with this cell; a cell past the reserved groups is dropped. Question 14 alone; refused, the set is as it came.
#[unsafe(no_mangle)]
pub extern "C" fn savoiky_cell_bitset_set_bit(
    tally: &mut [u32; 128],
    screen: u32,
    settings: Settings,
    set: CellBitSet,
    cell: u32,
) -> CellSetAnswer
    ensures outcome { result ≡ for_screen screen (record { code = 15; set = set }) (with_cell_answer settings set cell) }
    ensures counts { tally.new ≡ tally_after tally.old screen result.code }
{
    if LAST_SCREEN < screen {
        return cell_set_call::answered(Err(door::Refusal::Screen), set);
    }
    let changed = cell_set_call::answered(cell_set_call::set_bit(settings, set, cell), set);
    tally::count_call(tally, screen, changed.code);
    changed
}

// Is this cell in the set? The value: 1 for yes, else 0. Question 14 alone.
#[unsafe(no_mangle)]
pub extern "C" fn savoiky_cell_bitset_get_bit(
    tally: &mut [u32; 128],
    screen: u32,
    settings: Settings,
    set: CellBitSet,
    cell: u32,
) -> Answer
    ensures outcome { result ≡ for_screen screen (refusal 15) (held_answer settings set cell) }
    ensures counts { tally.new ≡ tally_after tally.old screen result.code }
{
    if LAST_SCREEN < screen {
        return Answer::from(Err(door::Refusal::Screen));
    }
    let held = Answer::from(cell_set_call::get_bit(settings, set, cell));
    tally::count_call(tally, screen, held.code);
    held
}

// Have the sets a cell in common? The value: 1 for yes, else 0. Question 14 alone.
#[unsafe(no_mangle)]
pub extern "C" fn savoiky_cell_bitset_intersects(
    tally: &mut [u32; 128],
    screen: u32,
    settings: Settings,
    set: CellBitSet,
    other: CellBitSet,
) -> Answer
    ensures outcome { result ≡ for_screen screen (refusal 15) (meets_answer settings set other) }
    ensures counts { tally.new ≡ tally_after tally.old screen result.code }
{
    if LAST_SCREEN < screen {
        return Answer::from(Err(door::Refusal::Screen));
    }
    let met = Answer::from(cell_set_call::intersects(settings, set, other));
    tally::count_call(tally, screen, met.code);
    met
}

// The set with the cells of the other, and room for them. Question 14 alone; refused, the set is as it came.
#[unsafe(no_mangle)]
pub extern "C" fn savoiky_cell_bitset_union_with(
    tally: &mut [u32; 128],
    screen: u32,
    settings: Settings,
    set: CellBitSet,
    other: CellBitSet,
) -> CellSetAnswer
    ensures outcome { result ≡ for_screen screen (record { code = 15; set = set }) (union_answer settings set other) }
    ensures counts { tally.new ≡ tally_after tally.old screen result.code }
{
    if LAST_SCREEN < screen {
        return cell_set_call::answered(Err(door::Refusal::Screen), set);
    }
    let united = cell_set_call::answered(cell_set_call::union_with(settings, set, other), set);
    tally::count_call(tally, screen, united.code);
    united
}

// Does the set hold no cell? The value: 1 for yes, else 0. Question 14 alone.
#[unsafe(no_mangle)]
pub extern "C" fn savoiky_cell_bitset_is_empty(
    tally: &mut [u32; 128],
    screen: u32,
    settings: Settings,
    set: CellBitSet,
) -> Answer
    ensures outcome { result ≡ for_screen screen (refusal 15) (empty_answer settings set) }
    ensures counts { tally.new ≡ tally_after tally.old screen result.code }
{
    if LAST_SCREEN < screen {
        return Answer::from(Err(door::Refusal::Screen));
    }
    let empty = Answer::from(cell_set_call::is_empty(settings, set));
    tally::count_call(tally, screen, empty.code);
    empty
}

// WALKS AND ROUNDS, FREQUENCY TRIPS, DELAYS, CLOCK READINGS: the leaves of a query, for a caller's own reckoning.

// How long a walk takes: for a wheelchair query (1) stairs and escalators (pathway modes 2 and 4) take 100 times as long.
// Question 5: duration at most 1,048,575, pathway mode at most 7, wheelchair at most 1.
#[unsafe(no_mangle)]
pub extern "C" fn savoiky_walk_duration(
    tally: &mut [u32; 128],
    screen: u32,
    settings: Settings,
    duration: u32,
    pathway_mode: u32,
    wheelchair: u32,
) -> Answer
    ensures outcome { result ≡ for_screen screen (refusal 15) (walk_duration settings duration pathway_mode wheelchair) }
    ensures counts { tally.new ≡ tally_after tally.old screen result.code }
{
    if LAST_SCREEN < screen {
        return Answer::from(Err(door::Refusal::Screen));
    }
    let walk = Answer::from(leaf_calls::walk_duration(
        settings,
        duration,
        pathway_mode,
        wheelchair,
    ));
    tally::count_call(tally, screen, walk.code);
    walk
}

// The rounds of a query: min(12, max(wanted, transfers + 2, 4)). Any numbers; question 14 alone.
#[unsafe(no_mangle)]
pub extern "C" fn savoiky_max_rounds(
    tally: &mut [u32; 128],
    screen: u32,
    settings: Settings,
    wanted: u32,
    transfers: u32,
) -> Answer
    ensures outcome { result ≡ for_screen screen (refusal 15) (rounds_answer settings wanted transfers) }
    ensures counts { tally.new ≡ tally_after tally.old screen result.code }
{
    if LAST_SCREEN < screen {
        return Answer::from(Err(door::Refusal::Screen));
    }
    let rounds = Answer::from(leaf_calls::max_rounds(settings, wanted, transfers));
    tally::count_call(tally, screen, rounds.code);
    rounds
}

// The earliest run of a frequency trip that leaves here no sooner than `after`: `count` windows of three words each (start,
// end, headway), the departure of the trip's first stop time (base), its departure here (dep). Runs leave the first stop at
// start, start + headway and so on, before end. Found 0: none, and zeros. Else its departure here, its time_shift_s, its window (from
// 0), its run (n, the whole headways from the window's start to it) and the wait from `after` to its departure. Where need = after -
// (dep - base) - start is above zero, quotient and remainder are need's by the headway, else 0. Of windows with the same departure the
// first counts. Questions 1 (at most 65,536 windows), 2 (three words for each), 5 (every number at most 1,048,575).
#[unsafe(no_mangle)]
pub extern "C" fn savoiky_freq_board(
    tally: &mut [u32; 128],
    screen: u32,
    settings: Settings,
    count: u32,
    windows: &[u32],
    base: u32,
    dep: u32,
    after: u32,
) -> FreqAnswer
    ensures outcome { result ≡ for_screen screen (no_board 15) (freq_outcome settings count windows.now base dep after) }
    ensures counts { tally.new ≡ tally_after tally.old screen result.code }
{
    if LAST_SCREEN < screen {
        return FreqAnswer::from(Err(door::Refusal::Screen));
    }
    let board = FreqAnswer::from(frequency_call::freq_board(
        settings, count, windows, base, dep, after,
    ));
    tally::count_call(tally, screen, board.code);
    board
}

// The departure under delays: flags 1 departure given at the stop, 2 arrival given, 4 skipped, added. By its own delay where
// one is given, else by the trip's; at least 0. Question 5: times and sizes of delays at most 1,048,575, flags at most 7.
#[unsafe(no_mangle)]
pub extern "C" fn savoiky_effective_departure(
    tally: &mut [u32; 128],
    screen: u32,
    settings: Settings,
    departure: u32,
    trip_delay: u32,
    flags: u32,
    departure_delay: u32,
) -> Answer
    ensures outcome { result ≡ for_screen screen (refusal 15)
        (departure_outcome settings departure trip_delay flags departure_delay) }
    ensures counts { tally.new ≡ tally_after tally.old screen result.code }
{
    if LAST_SCREEN < screen {
        return Answer::from(Err(door::Refusal::Screen));
    }
    let departs = Answer::from(leaf_calls::effective_departure(
        settings,
        departure,
        trip_delay,
        flags,
        departure_delay,
    ));
    tally::count_call(tally, screen, departs.code);
    departs
}

// The arrival under delays: where the stop has either time given, by its own delay, else the trip's, and no shift; where not,
// by the shift alone; at least 0. Question 5, as above.
#[unsafe(no_mangle)]
pub extern "C" fn savoiky_effective_arrival(
    tally: &mut [u32; 128],
    screen: u32,
    settings: Settings,
    arrival: u32,
    time_shift_s: u32,
    trip_delay: u32,
    flags: u32,
    arrival_delay: u32,
) -> Answer
    ensures outcome { result ≡ for_screen screen (refusal 15)
        (arrival_outcome settings arrival time_shift_s trip_delay flags arrival_delay) }
    ensures counts { tally.new ≡ tally_after tally.old screen result.code }
{
    if LAST_SCREEN < screen {
        return Answer::from(Err(door::Refusal::Screen));
    }
    let arrives = Answer::from(leaf_calls::effective_arrival(
        settings,
        arrival,
        time_shift_s,
        trip_delay,
        flags,
        arrival_delay,
    ));
    tally::count_call(tally, screen, arrives.code);
    arrives
}

// 1 where the flags say skipped, else 0. Question 5: flags at most 7.
#[unsafe(no_mangle)]
pub extern "C" fn savoiky_skipped(
    tally: &mut [u32; 128],
    screen: u32,
    settings: Settings,
    flags: u32,
) -> Answer
    ensures outcome { result ≡ for_screen screen (refusal 15) (skipped_outcome settings flags) }
    ensures counts { tally.new ≡ tally_after tally.old screen result.code }
{
    if LAST_SCREEN < screen {
        return Answer::from(Err(door::Refusal::Screen));
    }
    let skips = Answer::from(leaf_calls::skipped(settings, flags));
    tally::count_call(tally, screen, skips.code);
    skips
}

// The delay margin: the largest size among trip delays and given stop delays, at most margin_cap. Delay rows of two words (trip,
// delay), the trips strictly rising; 4,294,967,295 is an unknown trip, which may repeat at the end. Stop rows of five (delay row,
// sequence, flags as above, departure delay, arrival delay), strictly rising by delay row, then sequence. Questions 1, 2, 4, 5, 6.
#[unsafe(no_mangle)]
pub extern "C" fn savoiky_margin(
    tally: &mut [u32; 128],
    screen: u32,
    settings: Settings,
    trips: u32,
    delay_row_count: u32,
    stop_row_count: u32,
    delay_rows: &[u32],
    stop_rows: &[u32],
) -> Answer
    ensures outcome { result ≡ for_screen screen (refusal 15)
        (margin_outcome settings trips delay_row_count stop_row_count delay_rows.now stop_rows.now) }
    ensures counts { tally.new ≡ tally_after tally.old screen result.code }
{
    if LAST_SCREEN < screen {
        return Answer::from(Err(door::Refusal::Screen));
    }
    let margin = Answer::from(delay_call::margin(
        settings,
        trips,
        delay_row_count,
        stop_row_count,
        delay_rows,
        stop_rows,
    ));
    tally::count_call(tally, screen, margin.code);
    margin
}

// What the delay tables say of the stop time of a trip with this sequence number: known 1 where the trip has a delay row. The
// same questions, and 4 for a trip not below the count.
#[unsafe(no_mangle)]
pub extern "C" fn savoiky_delay_at(
    tally: &mut [u32; 128],
    screen: u32,
    settings: Settings,
    trips: u32,
    delay_row_count: u32,
    stop_row_count: u32,
    delay_rows: &[u32],
    stop_rows: &[u32],
    trip: u32,
    sequence: u32,
) -> DelayAt
    ensures outcome { result ≡ for_screen screen (told 15 0 no_delay)
        (delay_at_outcome settings trips delay_row_count stop_row_count delay_rows.now stop_rows.now
        trip sequence) }
    ensures counts { tally.new ≡ tally_after tally.old screen result.code }
{
    if LAST_SCREEN < screen {
        return DelayAt::from(Err(door::Refusal::Screen));
    }
    let delay = DelayAt::from(delay_call::delay_at(
        settings,
        trips,
        delay_row_count,
        stop_row_count,
        delay_rows,
        stop_rows,
        trip,
        sequence,
    ));
    tally::count_call(tally, screen, delay.code);
    delay
}

// The service second of a clock reading: 3600 hour + 60 minute + second. Question 5: hour at most 47, minute and second at
// most 59.
#[unsafe(no_mangle)]
pub extern "C" fn savoiky_service_second(
    tally: &mut [u32; 128],
    screen: u32,
    settings: Settings,
    hour: u32,
    minute: u32,
    second: u32,
) -> Answer
    ensures outcome { result ≡ for_screen screen (refusal 15) (service_second settings hour minute second) }
    ensures counts { tally.new ≡ tally_after tally.old screen result.code }
{
    if LAST_SCREEN < screen {
        return Answer::from(Err(door::Refusal::Screen));
    }
    let reading = Answer::from(leaf_calls::service_second(settings, hour, minute, second));
    tally::count_call(tally, screen, reading.code);
    reading
}

// LABELS: when and how a stop was reached in a round. A stop has 13 rows: row 0 is its access walk, round k writes row k + 1. The
// label of stop s, row r is record 13 s + r: eight words from 8 (13 s + r) on in `labels` and one f64 at 13 s + r in
// `label_distances`. So `labels` has 104 words a stop and `label_distances` 13. The words, unused ones 0, an unused distance 0.0:
//   0 empty
//   1 Access: stop_idx, arrival_s, walk_duration; the distance is the origin's
//   2 Transit: arrival_s, trip_idx, board_stop, board_off, alight_off, prev_round, time_shift_s
//   3 Walk: arrival_s, from_stop, to_stop, duration_s, prev_round; the distance is the walk edge's
// A ride leads back to its board_stop, a walk to its from_stop: there to the highest row that is not empty and not above the
// label's own (a round sees its own gains). Compare the times all the same: a walk begins its duration before it arrives, a
// ride when it departs (its stop time's effective departure, a frequency trip's plus time_shift_s), in a row above 1 the change
// time before. Where one begins before the label that it leads back to arrives, or a ride ends before it departs (times that
// fall, times given for single stops, arc flags), show the total without legs.
// These calls ask questions 1 (stops), 2, 4 (the stop; storing, the stop numbers in the label too: stop_idx, board_stop, from_stop,
// to_stop) and 5 (the row at most 12; reading, a kind at most 3). A label's times, durations, shift and other numbers may be any:
// they are results.

// Stores an Access label. Question 4: stop and stop_idx below the count of stops.
#[unsafe(no_mangle)]
pub extern "C" fn savoiky_label_store_access(
    tally: &mut [u32; 128],
    screen: u32,
    settings: Settings,
    stops: u32,
    stop: u32,
    row: u32,
    stop_idx: u32,
    arrival_s: u32,
    walk_duration: u32,
    walk_distance: f64,
    labels: &mut [u32],
    label_distances: &mut [f64],
) -> u32
    ensures outcome { label_outcome result labels.new label_distances.new
        ≡ for_screen screen (label_outcome 15 labels.old label_distances.old)
        (store_outcome settings (Access stop_idx arrival_s walk_duration walk_distance) stops stop row labels.old
        label_distances.old) }
    ensures counts { tally.new ≡ tally_after tally.old screen result }
{
    if LAST_SCREEN < screen {
        return door::code(Err(door::Refusal::Screen));
    }
    let code = door::code(label_call::store_access(
        settings,
        stops,
        stop,
        row,
        stop_idx,
        arrival_s,
        walk_duration,
        walk_distance,
        labels,
        label_distances,
    ));
    tally::count_call(tally, screen, code);
    code
}

// Stores a Transit label. Question 4: stop and board_stop below the count of stops.
#[unsafe(no_mangle)]
pub extern "C" fn savoiky_label_store_transit(
    tally: &mut [u32; 128],
    screen: u32,
    settings: Settings,
    stops: u32,
    stop: u32,
    row: u32,
    arrival_s: u32,
    trip_idx: u32,
    board_stop: u32,
    board_off: u32,
    alight_off: u32,
    prev_round: u32,
    time_shift_s: u32,
    labels: &mut [u32],
    label_distances: &mut [f64],
) -> u32
    ensures outcome { label_outcome result labels.new label_distances.new
        ≡ for_screen screen (label_outcome 15 labels.old label_distances.old)
        (store_outcome settings (Transit arrival_s trip_idx board_stop board_off alight_off prev_round time_shift_s)
        stops stop row
        labels.old label_distances.old) }
    ensures counts { tally.new ≡ tally_after tally.old screen result }
{
    if LAST_SCREEN < screen {
        return door::code(Err(door::Refusal::Screen));
    }
    let code = door::code(label_call::store_transit(
        settings,
        stops,
        stop,
        row,
        arrival_s,
        trip_idx,
        board_stop,
        board_off,
        alight_off,
        prev_round,
        time_shift_s,
        labels,
        label_distances,
    ));
    tally::count_call(tally, screen, code);
    code
}

// Stores a Walk label. Question 4: stop, from_stop and to_stop below the count of stops.
#[unsafe(no_mangle)]
pub extern "C" fn savoiky_label_store_walk(
    tally: &mut [u32; 128],
    screen: u32,
    settings: Settings,
    stops: u32,
    stop: u32,
    row: u32,
    arrival_s: u32,
    from_stop: u32,
    to_stop: u32,
    duration_s: u32,
    distance_m: f64,
    prev_round: u32,
    labels: &mut [u32],
    label_distances: &mut [f64],
) -> u32
    ensures outcome { label_outcome result labels.new label_distances.new
        ≡ for_screen screen (label_outcome 15 labels.old label_distances.old)
        (store_outcome settings (Walk arrival_s from_stop to_stop duration_s distance_m prev_round) stops stop row
        labels.old
        label_distances.old) }
    ensures counts { tally.new ≡ tally_after tally.old screen result }
{
    if LAST_SCREEN < screen {
        return door::code(Err(door::Refusal::Screen));
    }
    let code = door::code(label_call::store_walk(
        settings,
        stops,
        stop,
        row,
        arrival_s,
        from_stop,
        to_stop,
        duration_s,
        distance_m,
        prev_round,
        labels,
        label_distances,
    ));
    tally::count_call(tally, screen, code);
    code
}

// Reads a label. Question 4: stop below the count of stops; the label's own numbers are given as they stand.
#[unsafe(no_mangle)]
pub extern "C" fn savoiky_label_load(
    tally: &mut [u32; 128],
    screen: u32,
    settings: Settings,
    stops: u32,
    stop: u32,
    row: u32,
    labels: &[u32],
    label_distances: &[f64],
) -> LabelAnswer
    ensures outcome { result ≡ for_screen screen (refused_label 15)
        (load_answer settings stops stop row labels.now label_distances.now) }
    ensures counts { tally.new ≡ tally_after tally.old screen result.code }
{
    if LAST_SCREEN < screen {
        return LabelAnswer::from(Err(door::Refusal::Screen));
    }
    let label = LabelAnswer::from(label_call::load(
        settings,
        stops,
        stop,
        row,
        labels,
        label_distances,
    ));
    tally::count_call(tally, screen, label.code);
    label
}

// THE TIMETABLE, `tables`, is one slice of 6 times + 8 trips + 3 windows + 5 edges + stops words, in this order:
//   stop times, six words: stop, arrival, departure, sequence (any number), pickup, drop-off (0 to 3; only 1 bars)
//   trips, eight words: first stop time, count (at least 1), mode (0 tram, 1 metro, 2 rail, 3 bus, 4 ferry, 5 coach, 6 other),
//     wheelchair (0 to 2; 2 bars a wheelchair query), first window, window count, active (0 or 1), excluded (0 or 1)
//   windows, three words: start, end, headway; runs of a trip with windows leave at start, start + headway, .. before end
//   walk edges, five words, by rising from-stop: from, to, duration, pathway mode (0 none, 1 walkway, 2 stairs, 3 moving
//     sidewalk, 4 escalator, 5 elevator, 6 fare gate, 7 exit gate), pattern (any number; 0 where there are none)
//   stops, a word each: the cell (any number; 0 where there are none)
// A trip is boarded only where the caller lists its departure: rows of two words (trip, offset), and for each stop the run of its
// rows (so 2 departures and 2 stops words). Its last stop is not listed, as a rule.
// The building calls: lines, then departure sorting, then transfers; a query finds positions and FIFO flags by itself. The bytes
// active and excluded may change from query to query: nothing built depends on them.

// Sorts each stop's listed departures by scheduled departure, in place and stably, and sets the stops' marks (one word a stop: 1
// where a trip with windows is listed). runs: of the stops; rows: the departures. work, other: `departures` u64 each, zero
// afterwards. Questions 1 to 6; 6 is of the walk edges alone, the departures may come in any order.
#[unsafe(no_mangle)]
pub extern "C" fn savoiky_sort_stop_departures(
    tally: &mut [u32; 128],
    screen: u32,
    settings: Settings,
    stops: u32,
    trips: u32,
    times: u32,
    windows: u32,
    edges: u32,
    departures: u32,
    tables: &[u32],
    runs: &[u32],
    rows: &mut [u32],
    marks: &mut [u32],
    work: &mut [u64],
    other: &mut [u64],
) -> u32
    ensures outcome { sort_outcome_of result (sort_areas rows.new marks.new work.new other.new)
        ≡ for_screen screen (sort_outcome_of 15 (sort_areas rows.old marks.old work.old other.old))
        (sort_outcome settings tables.now (counts_of stops trips times windows edges) departures runs.now
        (sort_areas rows.old marks.old work.old other.old)) }
    ensures counts { tally.new ≡ tally_after tally.old screen result }
{
    if LAST_SCREEN < screen {
        return door::code(Err(door::Refusal::Screen));
    }
    let code = door::code(sized_calls::sort_stop_departures(
        settings, stops, trips, times, windows, edges, departures, tables, runs, rows, marks, work,
        other,
    ));
    tally::count_call(tally, screen, code);
    code
}

// Groups the trips into lines: trips with the same stops in the same order, by first departure. The value says how many lines.
// lines: each trip's line; runs: each line's run of entries, space for as many lines as trips (2 trips words; those past the lines
// keep their content); entries: trip numbers, as many as trips. work, other: `trips` u64 each, zero afterwards. Questions 1 to 6.
#[unsafe(no_mangle)]
pub extern "C" fn savoiky_compute_line_groups(
    tally: &mut [u32; 128],
    screen: u32,
    settings: Settings,
    stops: u32,
    trips: u32,
    times: u32,
    windows: u32,
    edges: u32,
    tables: &[u32],
    lines: &mut [u32],
    runs: &mut [u32],
    entries: &mut [u32],
    work: &mut [u64],
    other: &mut [u64],
) -> Answer
    ensures outcome { shown result (line_areas lines.new runs.new entries.new work.new
        other.new)
        ≡ for_screen screen (shown (refusal 15) (line_areas lines.old runs.old entries.old work.old
        other.old))
        (shown_of (lines_outcome settings tables.now (counts_of stops trips times windows edges)
        (line_areas lines.old runs.old entries.old work.old other.old))) }
    ensures counts { tally.new ≡ tally_after tally.old screen result.code }
{
    if LAST_SCREEN < screen {
        return Answer::from(Err(door::Refusal::Screen));
    }
    let grouped = Answer::from(sized_calls::compute_line_groups(
        settings, stops, trips, times, windows, edges, tables, lines, runs, entries, work, other,
    ));
    tally::count_call(tally, screen, grouped.code);
    grouped
}

// Each trip's position in its line (4,294,967,295: in none) and each line's FIFO flag (1: no trip overtakes another), of any
// lines. runs: each line's run of entries (2 lines words); entries: `entry_count` trip numbers; positions: a word a trip; fifo: a
// word a line. Questions 1 to 6. No query needs this call.
#[unsafe(no_mangle)]
pub extern "C" fn savoiky_line_layout(
    tally: &mut [u32; 128],
    screen: u32,
    settings: Settings,
    stops: u32,
    trips: u32,
    times: u32,
    windows: u32,
    edges: u32,
    lines: u32,
    entry_count: u32,
    tables: &[u32],
    runs: &[u32],
    entries: &[u32],
    positions: &mut [u32],
    fifo: &mut [u32],
) -> u32
    ensures outcome { layout_outcome_of result (layout_areas positions.new fifo.new)
        ≡ for_screen screen (layout_outcome_of 15 (layout_areas positions.old fifo.old))
        (layout_outcome settings tables.now (counts_of stops trips times windows edges) lines entry_count runs.now
        entries.now
        (layout_areas positions.old fifo.old)) }
    ensures counts { tally.new ≡ tally_after tally.old screen result }
{
    if LAST_SCREEN < screen {
        return door::code(Err(door::Refusal::Screen));
    }
    let code = door::code(sized_calls::line_layout(
        settings,
        stops,
        trips,
        times,
        windows,
        edges,
        lines,
        entry_count,
        tables,
        runs,
        entries,
        positions,
        fifo,
    ));
    tally::count_call(tally, screen, code);
    code
}

// Builds the transfers of every stop event (each stop time of each trip, trip by trip). The value says how many.
// lines: each trip's line, of `line_count` lines; runs and rows: the listed departures, in any order. area: rows of four words
// (target trip, offset, transfer_time, pattern 0), space for any number of them; it keeps its content past the last one written.
// transfer_runs: a run for each event, so 2 words for each stop time of each trip. Questions 1 to 7. The call needs about 1 MiB
// of stack.
#[unsafe(no_mangle)]
pub extern "C" fn savoiky_compute_trip_transfers(
    tally: &mut [u32; 128],
    screen: u32,
    settings: Settings,
    stops: u32,
    trips: u32,
    times: u32,
    windows: u32,
    edges: u32,
    line_count: u32,
    departures: u32,
    tables: &[u32],
    lines: &[u32],
    runs: &[u32],
    rows: &[u32],
    area: &mut [u32],
    transfer_runs: &mut [u32],
) -> Answer
    ensures outcome { shown_transfers result (transfer_areas area.new transfer_runs.new)
        ≡ for_screen screen (shown_transfers (refusal 15) (transfer_areas area.old transfer_runs.old))
        (shown_transfers_of (transfers_outcome (transfer_lent settings tables.now (counts_of stops trips times windows edges) line_count
        lines.now departures runs.now rows.now)
        (transfer_areas area.old transfer_runs.old))) }
    ensures counts { tally.new ≡ tally_after tally.old screen result.code }
{
    if LAST_SCREEN < screen {
        return Answer::from(Err(door::Refusal::Screen));
    }
    let built = Answer::from(sized_calls::compute_trip_transfers(
        settings,
        stops,
        trips,
        times,
        windows,
        edges,
        line_count,
        departures,
        tables,
        lines,
        runs,
        rows,
        area,
        transfer_runs,
    ));
    tally::count_call(tally, screen, built.code);
    built
}

// How many words of workspace a query needs: 5 stops + 8 trips + 3 lines + 128. Question 1.
#[unsafe(no_mangle)]
pub extern "C" fn savoiky_work_size(
    tally: &mut [u32; 128],
    screen: u32,
    settings: Settings,
    sizes: QuerySizes,
) -> Answer
    ensures outcome { result ≡ for_screen screen (refusal 15) (workspace_answer (query_counts_of settings sizes)) }
    ensures counts { tally.new ≡ tally_after tally.old screen result.code }
{
    if LAST_SCREEN < screen {
        return Answer::from(Err(door::Refusal::Screen));
    }
    let size = Answer::from(sized_calls::work_size(settings, sizes));
    tally::count_call(tally, screen, size.code);
    size
}

// A QUERY. Lent to be read:
//   tables: the timetable
//   built: what the building calls wrote, one after the other: each trip's line (a word a trip), the lines' runs (2 a line), the
//     entries (a word each), the stops' runs (2 a stop), the departures (2 each), the marks (a word a stop), the transfer runs (2
//     for each stop time of each trip)
//   transfers: the transfer area, any length; the first `transfers` rows of four words count
//   patterns: 64 bytes each; cell c is bit c % 8 of byte c / 8. While arc flags are in use, a walk edge or transfer is skipped
//     whose pattern holds no cell of an egress stop; a pattern number past the table counts as holding all
//   distances: of the walk edges, then of the origins; any bits, carried into the labels
//   query: seven words, start, change time, wanted rounds (any), transfers (any), modes (bit m: mode m is wanted; 0: all),
//     wheelchair (0 or 1), switch (1 puts arc flags off); then origins (stop, duration); egress stops (stop, duration), strictly
//     rising by stop; delay rows (2 words) and stop rows (5 words), as for the margin
// Lent to be written, of any content before:
//   labels: 104 words a stop; label_distances: 13 a stop; the labels of the answer, all 13 rows
//   work: as many words as savoiky_work_size says; zero afterwards
//   queue_a, queue_b: two halves of the segment queue, four words a segment, of one length; zero afterwards. As many rows as the
//     trips have stop times together are always enough without frequency trips; with no arc flags in use none is needed
//   candidates: 39 words, 13 rows (total, stop, row), of which the answer says how many; the rest are zero. Rows rise and totals
//     fall: the last one's total is the best, an earlier one arrives later, by at most candidate_slack, in fewer rounds
// The answer: the best total (when the guest arrives, egress walk included) and its stop. "No way" is success: code 0, total and
// stop 4,294,967,295, no candidates. Questions 1 to 6, and 8.

// As the Rust answers: run_tbr.
#[unsafe(no_mangle)]
pub extern "C" fn savoiky_run_tbr(
    tally: &mut [u32; 128],
    screen: u32,
    settings: Settings,
    sizes: QuerySizes,
    tables: &[u32],
    built: &[u32],
    transfers: &[u32],
    patterns: &[u8],
    distances: &[f64],
    query: &[u32],
    labels: &mut [u32],
    label_distances: &mut [f64],
    work: &mut [u32],
    queue_a: &mut [u32],
    queue_b: &mut [u32],
    candidates: &mut [u32],
) -> Reply
    ensures outcome { record {
      reply = result;
      areas = query_areas labels.new label_distances.new work.new queue_a.new queue_b.new
          candidates.new;
    }
        ≡ for_screen screen (refused 15 (query_areas labels.old label_distances.old work.old
        queue_a.old
        queue_b.old candidates.old))
        (run_tbr_outcome (lent (query_counts_of settings sizes) tables.now built.now transfers.now
        patterns.now distances.now query.now)
        (query_areas labels.old label_distances.old work.old queue_a.old queue_b.old
        candidates.old)) }
    ensures counts { tally.new ≡ tally_after tally.old screen result.code }
{
    if LAST_SCREEN < screen {
        return Reply {
            code: u32::from(door::Refusal::Screen),
            total: 0,
            stop: 0,
            candidates: 0,
        };
    }
    let rust_reply = sized_calls::run_tbr(
        settings,
        sizes,
        tables,
        built,
        transfers,
        patterns,
        distances,
        query,
        labels,
        label_distances,
        work,
        queue_a,
        queue_b,
        candidates,
    );
    tally::count_call(tally, screen, rust_reply.code);
    rust_reply
}

// What a board asks: run_tbr with arc flags put off where they would skip nothing. On a plain day no journey beats its answer; on a steady day,
// which has delays (docs/PROMISE.md), none does by effective times.
#[unsafe(no_mangle)]
pub extern "C" fn savoiky_query(
    tally: &mut [u32; 128],
    screen: u32,
    settings: Settings,
    sizes: QuerySizes,
    tables: &[u32],
    built: &[u32],
    transfers: &[u32],
    patterns: &[u8],
    distances: &[f64],
    query: &[u32],
    labels: &mut [u32],
    label_distances: &mut [f64],
    work: &mut [u32],
    queue_a: &mut [u32],
    queue_b: &mut [u32],
    candidates: &mut [u32],
) -> Reply
    ensures outcome { record {
      reply = result;
      areas = query_areas labels.new label_distances.new work.new queue_a.new queue_b.new
          candidates.new;
    }
        ≡ for_screen screen (refused 15 (query_areas labels.old label_distances.old work.old
        queue_a.old
        queue_b.old candidates.old))
        (query_outcome (lent (query_counts_of settings sizes) tables.now built.now transfers.now patterns.now
        distances.now query.now)
        (query_areas labels.old label_distances.old work.old queue_a.old queue_b.old
        candidates.old)) }
    ensures counts { tally.new ≡ tally_after tally.old screen result.code }
{
    if LAST_SCREEN < screen {
        return Reply {
            code: u32::from(door::Refusal::Screen),
            total: 0,
            stop: 0,
            candidates: 0,
        };
    }
    let reply = sized_calls::query(
        settings,
        sizes,
        tables,
        built,
        transfers,
        patterns,
        distances,
        query,
        labels,
        label_distances,
        work,
        queue_a,
        queue_b,
        candidates,
    );
    tally::count_call(tally, screen, reply.code);
    reply
}
