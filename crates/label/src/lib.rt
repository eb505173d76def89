// label: how a stop was reached in a row of a query's labels (`TbrReach` of tbr.rs, `Empty` for its `None`): an enum that carries its distance, and
// where it lies in the lent tables (document 01, item 10, "Label rows").
// A row is eight numbers, kind first (0 empty, 1 Access, 2 Transit, 3 Walk), and a distance. A stop has 13 rows. The label of a stop's row is record
// 13 * stop + row: eight numbers from 8 * record on in `labels`, and one distance at `record` in the labels' distances.
// Place: a leaf. Its call: `label_call`.
// Specs (claims): a label's row and a row's label (Label); a record's place, what it holds, the tables with a row put at a record (Table).
// Proves: each function meets its definition; in proofs/Laws that a label stored and loaded is the same label, its distance with it; that a store
// changes no other record; that records of different stops or rows are different. Distances are equal as the prover's floats are: it has one NaN.
// Assumes nothing. (That a record lies in both slices is required of a caller; the call asks it.)
#![tactic(auto)]

ghost use Rattle.std.specs.Prelude.{◌≡◌, ◌<◌, length, replicate};
ghost use Rattle.label.specs.Label.{row_of, label_of, no_distance};
ghost use Rattle.label.specs.Table.{InTable, record_of, label_row_at, loaded, put_words, put_distance};

// How a stop was reached. `time_shift_s` is the bits of a signed number.
#[derive(Clone, Copy)]
pub enum Label {
    Empty,
    Access {
        stop_idx: u32,
        arrival_s: u32,
        walk_duration: u32,
        walk_distance: f64,
    },
    Transit {
        arrival_s: u32,
        trip_idx: u32,
        board_stop: u32,
        board_off: u32,
        alight_off: u32,
        prev_round: u32,
        time_shift_s: u32,
    },
    Walk {
        arrival_s: u32,
        from_stop: u32,
        to_stop: u32,
        duration_s: u32,
        distance_m: f64,
        prev_round: u32,
    },
}

// A label as the tables hold it: the kind, its fields in their order, unused ones 0, and the distance.
#[repr(C)]
#[derive(Clone, Copy, Default)]
pub struct LabelRow {
    pub kind: u32,
    pub word1: u32,
    pub word2: u32,
    pub word3: u32,
    pub word4: u32,
    pub word5: u32,
    pub word6: u32,
    pub word7: u32,
    pub distance: f64,
}

// A label's row.
impl From<Label> for LabelRow {
    ghost from_gives = { λ x r. r ≡ row_of x };

    fn from(label: Label) -> LabelRow {
        match label {
            Label::Empty => LabelRow::default(),
            Label::Access {
                stop_idx,
                arrival_s,
                walk_duration,
                walk_distance,
            } => LabelRow {
                kind: 1,
                word1: stop_idx,
                word2: arrival_s,
                word3: walk_duration,
                distance: walk_distance,
                ..LabelRow::default()
            },
            Label::Transit {
                arrival_s,
                trip_idx,
                board_stop,
                board_off,
                alight_off,
                prev_round,
                time_shift_s,
            } => LabelRow {
                kind: 2,
                word1: arrival_s,
                word2: trip_idx,
                word3: board_stop,
                word4: board_off,
                word5: alight_off,
                word6: prev_round,
                word7: time_shift_s,
                ..LabelRow::default()
            },
            Label::Walk {
                arrival_s,
                from_stop,
                to_stop,
                duration_s,
                distance_m,
                prev_round,
            } => LabelRow {
                kind: 3,
                word1: arrival_s,
                word2: from_stop,
                word3: to_stop,
                word4: duration_s,
                word5: prev_round,
                distance: distance_m,
                ..LabelRow::default()
            },
        }
    }
}

// A row's label, by its kind.
impl From<LabelRow> for Label {
    ghost from_gives = { λ r x. x ≡ label_of r };

    fn from(r: LabelRow) -> Label {
        match r.kind {
            1 => Label::Access {
                stop_idx: r.word1,
                arrival_s: r.word2,
                walk_duration: r.word3,
                walk_distance: r.distance,
            },
            2 => Label::Transit {
                arrival_s: r.word1,
                trip_idx: r.word2,
                board_stop: r.word3,
                board_off: r.word4,
                alight_off: r.word5,
                prev_round: r.word6,
                time_shift_s: r.word7,
            },
            3 => Label::Walk {
                arrival_s: r.word1,
                from_stop: r.word2,
                to_stop: r.word3,
                duration_s: r.word4,
                distance_m: r.distance,
                prev_round: r.word5,
            },
            _ => Label::Empty,
        }
    }
}

// A row is put at a record.
#[tactic(auto, using(crate::proofs::Laws::eight), unfolding(crate::specs::Table::put_words, crate::specs::Table::put_distance))]
fn put_row(r: LabelRow, labels: &mut [u32], label_distances: &mut [f64], record: usize)
    requires { InTable labels.old label_distances.old «record» }
    ensures labels_new { labels.new ≡ put_words r labels.old «record» }
    ensures label_distances_new { label_distances.new ≡ put_distance r label_distances.old «record» }
{
    let at = 8 * record;
    labels[at] = r.kind;
    labels[at + 1] = r.word1;
    labels[at + 2] = r.word2;
    labels[at + 3] = r.word3;
    labels[at + 4] = r.word4;
    labels[at + 5] = r.word5;
    labels[at + 6] = r.word6;
    labels[at + 7] = r.word7;
    label_distances[record] = r.distance;
}

// The row of a record.
pub fn get_row(labels: &[u32], label_distances: &[f64], record: usize) -> LabelRow
    requires { InTable labels.now label_distances.now «record» }
    ensures { result ≡ label_row_at labels.now label_distances.now «record» }
{
    let at = 8 * record;
    LabelRow {
        kind: labels[at],
        word1: labels[at + 1],
        word2: labels[at + 2],
        word3: labels[at + 3],
        word4: labels[at + 4],
        word5: labels[at + 5],
        word6: labels[at + 6],
        word7: labels[at + 7],
        distance: label_distances[record],
    }
}

// The label is put into its record.
pub fn store_label(label: Label, labels: &mut [u32], label_distances: &mut [f64], record: usize)
    requires { InTable labels.old label_distances.old «record» }
    ensures labels_new { labels.new ≡ put_words (row_of label) labels.old «record» }
    ensures label_distances_new { label_distances.new ≡ put_distance (row_of label) label_distances.old «record» }
{
    put_row(LabelRow::from(label), labels, label_distances, record);
}

// The label of a record.
#[tactic(auto, unfolding(crate::specs::Table::loaded))]
pub fn load_label(labels: &[u32], label_distances: &[f64], record: usize) -> Label
    requires { InTable labels.now label_distances.now «record» }
    ensures { result ≡ loaded labels.now label_distances.now «record» }
{
    Label::from(get_row(labels, label_distances, record))
}

// The record of a stop's row.
pub fn record_of(stop: u32, row: u32) -> usize
    ensures { result ≡ record_of stop row }
{
    13 * (stop as usize) + (row as usize)
}
