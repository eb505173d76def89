// The cases: is each answer the one on the line?
use crate::line_words::{Words, length_of};
use crate::{building, chains, queries};
use cell_bitset::CellBitSet;
use delay_call::DelayAt;
use door::{Answer, Settings};
use label_call::LabelAnswer;

// What a line puts to the calls, or does with the tally.
#[derive(Clone, Copy)]
enum Kind {
    Cells,
    Walk,
    Rounds,
    Frequency,
    Departure,
    Arrival,
    Margin,
    StopTime,
    Clock,
    Label,
    Building,
    Search,
    Chain,
    SetTally,
    HoldTally,
}

// A line's first word is its kind's number; beside/list.rs says what a line of each kind holds.
impl TryFrom<u32> for Kind {
    type Error = u32;

    fn try_from(number: u32) -> Result<Kind, u32> {
        match number {
            1 => Ok(Kind::Cells),
            2 => Ok(Kind::Walk),
            3 => Ok(Kind::Rounds),
            4 => Ok(Kind::Frequency),
            5 => Ok(Kind::Departure),
            6 => Ok(Kind::Arrival),
            7 => Ok(Kind::Margin),
            8 => Ok(Kind::StopTime),
            9 => Ok(Kind::Clock),
            10 => Ok(Kind::Label),
            11 => Ok(Kind::Building),
            12 => Ok(Kind::Search),
            13 => Ok(Kind::Chain),
            14 => Ok(Kind::SetTally),
            15 => Ok(Kind::HoldTally),
            _ => Err(number),
        }
    }
}

fn answered(answer: Answer, code: u32, value: u32) -> bool {
    answer.code == code && answer.value == value
}

// The set of the words: its reserved cells, how many it holds, and those.
fn set_of(
    tally: &mut [u32; 128],
    screen: u32,
    settings: Settings,
    words: &mut Words<'_>,
) -> CellBitSet {
    let [reserved, count] = words.take::<2>();
    let mut set = exports::savoiky_cell_bitset_new(tally, screen, settings, reserved).set;
    for _ in 0..length_of(count) {
        let cell = words.word();
        set = exports::savoiky_cell_bitset_set_bit(tally, screen, settings, set, cell).set;
    }
    set
}

// What is asked of the sets is for one screen; the sets are made, and the union is looked into, for `making`.
fn cells(tally: &mut [u32; 128], screen: u32, settings: Settings, mut words: Words<'_>) -> bool {
    let making = words.word();
    let a = set_of(tally, making, settings, &mut words);
    let b = set_of(tally, making, settings, &mut words);
    let [probe, code] = words.take::<2>();
    let union = exports::savoiky_cell_bitset_union_with(tally, screen, settings, a, b);
    let held = exports::savoiky_cell_bitset_get_bit(tally, screen, settings, a, probe);
    let empty = exports::savoiky_cell_bitset_is_empty(tally, screen, settings, a);
    let meet = exports::savoiky_cell_bitset_intersects(tally, screen, settings, a, b);
    let joined = exports::savoiky_cell_bitset_get_bit(tally, making, settings, union.set, probe);
    let codes = [union.code, held.code, empty.code, meet.code];
    codes == [code; 4]
        && words.are(&[
            joined.code,
            held.value,
            empty.value,
            meet.value,
            joined.value,
            union.set.reserved,
        ])
}

fn frequency(
    tally: &mut [u32; 128],
    screen: u32,
    settings: Settings,
    mut words: Words<'_>,
) -> bool {
    let count = words.word();
    let Some(windows) = words.counted() else {
        return false;
    };
    let [base, departure, wanted] = words.take::<3>();
    let a = exports::savoiky_freq_board(
        tally, screen, settings, count, windows, base, departure, wanted,
    );
    words.are(&[
        a.code,
        a.found,
        a.departure,
        a.time_shift_s,
        a.window,
        a.run,
        a.quotient,
        a.remainder,
        a.wait,
    ])
}

// One stop time: skipped, departure and arrival under what the tables say of it.
fn timed(
    tally: &mut [u32; 128],
    screen: u32,
    settings: Settings,
    d: DelayAt,
    mut words: Words<'_>,
) -> bool {
    let [time, shift, code, is_skipped, departs, arrives] = words.take::<6>();
    let skipped = exports::savoiky_skipped(tally, screen, settings, d.flags);
    let departure = exports::savoiky_effective_departure(
        tally,
        screen,
        settings,
        time,
        d.trip_delay,
        d.flags,
        d.departure_delay,
    );
    let arrival = exports::savoiky_effective_arrival(
        tally,
        screen,
        settings,
        time,
        shift,
        d.trip_delay,
        d.flags,
        d.arrival_delay,
    );
    d.code == code
        && answered(skipped, code, is_skipped)
        && answered(departure, code, departs)
        && answered(arrival, code, arrives)
}

// The margin of the delay tables.
fn margin(tally: &mut [u32; 128], screen: u32, settings: Settings, mut words: Words<'_>) -> bool {
    let [trips, delays, stop_delays] = words.take::<3>();
    let (Some(rows), Some(stop_rows)) = (words.counted(), words.counted()) else {
        return false;
    };
    let [code, value] = words.take::<2>();
    let margin = exports::savoiky_margin(
        tally,
        screen,
        settings,
        trips,
        delays,
        stop_delays,
        rows,
        stop_rows,
    );
    answered(margin, code, value)
}

// What the delay tables say of a stop time.
fn stop_time(
    tally: &mut [u32; 128],
    screen: u32,
    settings: Settings,
    mut words: Words<'_>,
) -> bool {
    let [trips, delays, stop_delays] = words.take::<3>();
    let (Some(rows), Some(stop_rows)) = (words.counted(), words.counted()) else {
        return false;
    };
    let [trip, sequence] = words.take::<2>();
    let d = exports::savoiky_delay_at(
        tally,
        screen,
        settings,
        trips,
        delays,
        stop_delays,
        rows,
        stop_rows,
        trip,
        sequence,
    );
    timed(tally, screen, settings, d, words)
}

// Stores a label at a stop and row of three stops, by its kind and its seven fields; the code.
fn stored(
    tally: &mut [u32; 128],
    screen: u32,
    settings: Settings,
    kind: u32,
    fields: [u32; 7],
    metres: f64,
    stop: u32,
    row: u32,
    labels: &mut [u32],
    distances: &mut [f64],
) -> u32 {
    let [a, b, c, d, e, f, g] = fields;
    match kind {
        1 => exports::savoiky_label_store_access(
            tally, screen, settings, 3, stop, row, a, b, c, metres, labels, distances,
        ),
        2 => exports::savoiky_label_store_transit(
            tally, screen, settings, 3, stop, row, a, b, c, d, e, f, g, labels, distances,
        ),
        _ => exports::savoiky_label_store_walk(
            tally, screen, settings, 3, stop, row, a, b, c, d, metres, e, labels, distances,
        ),
    }
}

// Are these the codes of storing and of reading and, after them, the label of the words?
fn is_label(code: u32, loaded: LabelAnswer, mut words: Words<'_>) -> bool {
    let r = loaded.row;
    let stored_and_loaded = words.are(&[code, loaded.code]);
    let row = words.are(&[
        r.kind, r.word1, r.word2, r.word3, r.word4, r.word5, r.word6, r.word7,
    ]);
    let distance = words.word();
    stored_and_loaded && row && r.distance == f64::from(distance)
}

// The label is stored for one screen and read for another.
fn label(tally: &mut [u32; 128], screen: u32, settings: Settings, mut words: Words<'_>) -> bool {
    let mut labels = [0; 312];
    let mut distances = [0.0; 39];
    let kind = words.word();
    let fields = words.take();
    let [distance, stop, row, reading] = words.take::<4>();
    let code = stored(
        tally,
        screen,
        settings,
        kind,
        fields,
        f64::from(distance),
        stop,
        row,
        &mut labels,
        &mut distances,
    );
    let loaded = exports::savoiky_label_load(
        tally, reading, settings, 3, stop, row, &labels, &distances,
    );
    is_label(code, loaded, words)
}

fn walk(tally: &mut [u32; 128], screen: u32, settings: Settings, words: [u32; 5]) -> bool {
    let [duration, mode, wheelchair, code, value] = words;
    let walk = exports::savoiky_walk_duration(tally, screen, settings, duration, mode, wheelchair);
    answered(walk, code, value)
}

fn rounds(tally: &mut [u32; 128], screen: u32, settings: Settings, words: [u32; 4]) -> bool {
    let [wanted, transfers, code, value] = words;
    let rounds = exports::savoiky_max_rounds(tally, screen, settings, wanted, transfers);
    answered(rounds, code, value)
}

fn departure(tally: &mut [u32; 128], screen: u32, settings: Settings, words: [u32; 6]) -> bool {
    let [time, trip_delay, flags, own, code, value] = words;
    let departure = exports::savoiky_effective_departure(
        tally, screen, settings, time, trip_delay, flags, own,
    );
    answered(departure, code, value)
}

fn arrival(tally: &mut [u32; 128], screen: u32, settings: Settings, words: [u32; 7]) -> bool {
    let [time, shift, trip_delay, flags, own, code, value] = words;
    let arrival = exports::savoiky_effective_arrival(
        tally, screen, settings, time, shift, trip_delay, flags, own,
    );
    answered(arrival, code, value)
}

fn clock(tally: &mut [u32; 128], screen: u32, settings: Settings, words: [u32; 5]) -> bool {
    let [hour, minute, second, code, value] = words;
    let clock = exports::savoiky_service_second(tally, screen, settings, hour, minute, second);
    answered(clock, code, value)
}

// The settings that all calls of a line have.
fn settings_of(words: [u32; 4]) -> Settings {
    let [transfer_time, line_scan, candidate_slack, margin_cap] = words;
    Settings {
        transfer_time,
        line_scan,
        candidate_slack,
        margin_cap,
    }
}

// Every call that is made of a line is counted in the one tally of all lines. A line may set it, or say what it must be; else it says for which
// screen and by which settings its calls are made, then the case.
pub fn right(tally: &mut [u32; 128], line: &[u32]) -> bool {
    let mut words = Words(line);
    let number = words.word();
    let Ok(kind) = Kind::try_from(number) else {
        return false;
    };
    let mut case = words;
    let screen = case.word();
    let settings = settings_of(case.take());
    match kind {
        Kind::Cells => cells(tally, screen, settings, case),
        Kind::Walk => walk(tally, screen, settings, case.take()),
        Kind::Rounds => rounds(tally, screen, settings, case.take()),
        Kind::Frequency => frequency(tally, screen, settings, case),
        Kind::Departure => departure(tally, screen, settings, case.take()),
        Kind::Arrival => arrival(tally, screen, settings, case.take()),
        Kind::Margin => margin(tally, screen, settings, case),
        Kind::StopTime => stop_time(tally, screen, settings, case),
        Kind::Clock => clock(tally, screen, settings, case.take()),
        Kind::Label => label(tally, screen, settings, case),
        Kind::Building => building::built(tally, screen, settings, case),
        Kind::Search => queries::searched(tally, screen, settings, case),
        Kind::Chain => chains::chained(tally, screen, settings, case),
        Kind::HoldTally => words.0 == tally.as_slice(),
        Kind::SetTally => {
            *tally = words.take();
            line.len() == 129
        }
    }
}
