// label_call: the calls that store and load one label by its stop and row (document 01, item 10, "Label rows").
// Place: a call crate; only `exports` and programs use it.
// Specs (a claim): their questions, what store_access, store_transit, store_walk and load answer and leave (Calls).
// Proves: each call meets its definition for every input, refusals included; in proofs/Calls that a label stored by a call and loaded by
// one is the same label, and that a store, made or refused, changes no load of another record; in proofs/Examples a label of each kind.
// Assumes nothing.
#![tactic(auto)]

ghost use Rattle.std.specs.Prelude.{◌≡◌};
ghost use Rattle.door.specs.Door.{code_of};
ghost use Rattle.label.specs.Table.{lengths_right};
ghost use Rattle.label_call.specs.Calls.{stops_below, place_code, label_outcome, store_outcome, refused_label, label_of_outcome, load_answer};

use door::{Refusal, Settings};
use label::{Label, LabelRow};

// What a caller in C reads of `load`: code 0 with the row, or the number of the first no with an empty row.
#[repr(C)]
#[derive(Clone, Copy)]
pub struct LabelAnswer {
    pub code: u32,
    pub row: LabelRow,
}

impl From<Result<LabelRow, Refusal>> for LabelAnswer {
    ghost from_gives = { λ r a. a ≡ label_of_outcome r };

    fn from(outcome: Result<LabelRow, Refusal>) -> LabelAnswer {
        match outcome {
            Ok(row) => LabelAnswer { code: 0, row },
            Err(question) => refused_label(u32::from(question)),
        }
    }
}

// Has each slice a place for every record of the stops, and no more?
fn lengths_right(stops: u32, words: usize, numbers: usize) -> bool
    ensures { result ≡ lengths_right stops words numbers }
{
    let records = (stops as usize) * 13;
    words == records * 8 && numbers == records
}

// Questions 1, 14, 2, 4 and 5 about a stop's row, in slices of these lengths; `below` says whether the stop numbers are below the count.
#[tactic(auto, unfolding(crate::specs::Calls::place_code), using(door::proofs::Laws::not_within))]
fn place(
    settings: Settings,
    below: bool,
    stops: u32,
    row: u32,
    words: usize,
    numbers: usize,
) -> Result<(), Refusal>
    ensures { code_of result ≡ place_code settings below stops row words numbers }
{
    door::limits(stops <= 4096, settings)?;
    door::ask(Refusal::Sizes, lengths_right(stops, words, numbers))?;
    door::ask(Refusal::Numbers, below)?;
    door::ask(Refusal::Ranges, row <= 12)
}

// A label is stored at its stop's row, or refused, and then nothing is written. `below` says whether the stop numbers in it are below
// the count.
fn store(
    settings: Settings,
    label: Label,
    below: bool,
    stops: u32,
    stop: u32,
    row: u32,
    labels: &mut [u32],
    label_distances: &mut [f64],
) -> Result<(), Refusal>
    requires { below ≡ stops_below label stops }
    ensures { label_outcome (code_of result) labels.new label_distances.new
        ≡ store_outcome settings label stops stop row labels.old label_distances.old }
{
    let known = stop < stops && below;
    place(
        settings,
        known,
        stops,
        row,
        labels.len(),
        label_distances.len(),
    )?;
    label::store_label(label, labels, label_distances, label::record_of(stop, row));
    Ok(())
}

// An access label is stored. Question 4 is also of its stop.
pub fn store_access(
    settings: Settings,
    stops: u32,
    stop: u32,
    row: u32,
    stop_idx: u32,
    arrival_s: u32,
    walk_duration: u32,
    walk_distance: f64,
    labels: &mut [u32],
    label_distances: &mut [f64],
) -> Result<(), Refusal>
    ensures { label_outcome (code_of result) labels.new label_distances.new
        ≡ store_outcome settings (Label.Access stop_idx arrival_s walk_duration walk_distance) stops stop row labels.old
        label_distances.old }
{
    let label = Label::Access {
        stop_idx,
        arrival_s,
        walk_duration,
        walk_distance,
    };
    store(
        settings,
        label,
        stop_idx < stops,
        stops,
        stop,
        row,
        labels,
        label_distances,
    )
}

// A ride's label is stored. Question 4 is also of the stop where it was boarded.
pub fn store_transit(
    settings: Settings,
    stops: u32,
    stop: u32,
    row: u32,
    arrival_s: u32,
    trip_idx: u32,
    board_stop: u32,
    board_off: u32,
    alight_off: u32,
    prev_round: u32,
    time_shift_s: u32,
    labels: &mut [u32],
    label_distances: &mut [f64],
) -> Result<(), Refusal>
    ensures { label_outcome (code_of result) labels.new label_distances.new
        ≡ store_outcome settings
        (Label.Transit arrival_s trip_idx board_stop board_off alight_off prev_round time_shift_s)
        stops stop row labels.old label_distances.old }
{
    let label = Label::Transit {
        arrival_s,
        trip_idx,
        board_stop,
        board_off,
        alight_off,
        prev_round,
        time_shift_s,
    };
    store(
        settings,
        label,
        board_stop < stops,
        stops,
        stop,
        row,
        labels,
        label_distances,
    )
}

// A walk's label is stored. Question 4 is also of both its stops.
pub fn store_walk(
    settings: Settings,
    stops: u32,
    stop: u32,
    row: u32,
    arrival_s: u32,
    from_stop: u32,
    to_stop: u32,
    duration_s: u32,
    distance_m: f64,
    prev_round: u32,
    labels: &mut [u32],
    label_distances: &mut [f64],
) -> Result<(), Refusal>
    ensures { label_outcome (code_of result) labels.new label_distances.new
        ≡ store_outcome settings (Label.Walk arrival_s from_stop to_stop duration_s distance_m prev_round)
        stops stop row labels.old label_distances.old }
{
    let label = Label::Walk {
        arrival_s,
        from_stop,
        to_stop,
        duration_s,
        distance_m,
        prev_round,
    };
    let below = from_stop < stops && to_stop < stops;
    store(
        settings,
        label,
        below,
        stops,
        stop,
        row,
        labels,
        label_distances,
    )
}

pub fn refused_label(code: u32) -> LabelAnswer
    ensures { result ≡ refused_label code }
{
    let row = LabelRow::default();
    LabelAnswer { code, row }
}

// The label at a stop's row, as a row; question 5 is also of its kind.
#[tactic(auto, using(crate::proofs::Calls::load_steps))]
pub fn load(
    settings: Settings,
    stops: u32,
    stop: u32,
    row: u32,
    labels: &[u32],
    label_distances: &[f64],
) -> Result<LabelRow, Refusal>
    ensures { label_of_outcome result ≡ load_answer settings stops stop row labels.now label_distances.now }
{
    place(
        settings,
        stop < stops,
        stops,
        row,
        labels.len(),
        label_distances.len(),
    )?;
    let record = label::record_of(stop, row);
    let r = label::get_row(labels, label_distances, record);
    door::ask(Refusal::Ranges, r.kind <= 3)?;
    Ok(LabelRow::from(Label::from(r)))
}
