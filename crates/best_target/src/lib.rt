// best_target: the answer of a query over its memory: the best total with its stop, and the candidates of the rows.
// Place: the search.
// Specs (inner): egress rows, earliest arrivals and labels as the slices hold them (Totals).
// Proves: each function equal to the model's definition of the same name, for all states that agree.
// Assumes nothing.
#![tactic(auto)]

ghost use Rattle.std.specs.Prelude.{◌≡◌, suc, ◌+◌, ◌*◌, ◌/◌, ◌≤◌, ◌<◌, length, ◌&&◌, ltb, leb, ◌⊎◌};
ghost use Rattle.model.specs.Tables.{Tables, Query, never};
ghost use Rattle.model.specs.Search.{Arrivals, best_target, row_target, reached_by, candidates_from};
ghost use Rattle.label.specs.Table.{record_of, loaded};
ghost use Rattle.best_target.specs.Totals.{EgressOk, target_of, EarliestOk, EarliestAre, better, with_stop, with_reach, LabelsOk, Labelled};
ghost use Rattle.best_target.specs.Totals.{candidates_in, ZeroFrom, CandidatePut};
ghost use Rattle.arc_flags.specs.Flags.{egress_rows};

use label::Label;

// A total with its stop; both 4294967295 for none.
#[derive(Clone, Copy)]
pub struct Target {
    pub total: u32,
    pub stop: u32,
}

// No stop.
const NONE: Target = Target {
    total: 4294967295,
    stop: 4294967295,
};

// The better of the best so far and a total over a stop; equal ones keep the first.
fn better(best: Target, total: u32, stop: u32) -> Target
    ensures { target_of result ≡ better (target_of best) total stop }
{
    if total < best.total {
        Target { total, stop }
    } else {
        best
    }
}

// An egress stop reached at v: never, or at a time.
fn with_stop(best: Target, v: u32, stop: u32, walk: u32) -> Target
    requires v_bound { (v ≡ never) ⊎ (v < 134217728) }
    requires walk_bound { walk ≤ 1048575 }
    ensures { target_of result ≡ with_stop (target_of best) v stop walk }
{
    if v == 4294967295 {
        best
    } else {
        better(best, v + walk, stop)
    }
}

// The least total over the egress stops with its stop.
pub fn best_target(work: &[u32], stops: usize, egress: &[u32]) -> Target
    requires earliest_ok { EarliestOk stops work.now }
    requires egress_ok { EgressOk stops egress.now }
    ensures { (T : Tables) (Q : Query) (a : Arrivals) → EarliestAre a stops work.now → target_of result
        ≡ best_target T Q a (egress_rows egress.now) (never, never) }
{
    let mut best = NONE;
    for i in 0..egress.len() / 2 {
        let stop = egress[i * 2];
        best = with_stop(best, work[stop as usize], stop, egress[i * 2 + 1]);
    }
    best
}

// A label's arrival plus one; 0 for no label.
fn reached_by(x: Label) -> u32
    requires { reached_by x ≤ 134217728 }
    ensures { result ≡ reached_by x }
{
    match x {
        Label::Empty => 0,
        Label::Access {
            stop_idx,
            arrival_s,
            walk_duration,
            walk_distance,
        } => arrival_s + 1,
        Label::Transit {
            arrival_s,
            trip_idx,
            board_stop,
            board_off,
            alight_off,
            prev_round,
            time_shift_s,
        } => arrival_s + 1,
        Label::Walk {
            arrival_s,
            from_stop,
            to_stop,
            duration_s,
            distance_m,
            prev_round,
        } => arrival_s + 1,
    }
}

// An egress stop whose label arrives at x - 1, or has no label.
fn with_reach(best: Target, x: u32, stop: u32, walk: u32) -> Target
    requires x_bound { x ≤ 134217728 }
    requires walk_bound { walk ≤ 1048575 }
    ensures { target_of result ≡ with_reach (target_of best) x stop walk }
{
    if x == 0 {
        best
    } else {
        better(best, x - 1 + walk, stop)
    }
}

// The arrival plus one of a stop's label of a row; 0 for no label.
fn reached_in(labels: &[u32], label_distances: &[f64], stops: usize, stop: u32, row: u32) -> u32
    requires labels_ok { LabelsOk stops labels.now label_distances.now }
    requires stop_bound { stop < stops }
    requires row_bound { row < 13 }
    ensures { result ≡ reached_by (loaded labels.now label_distances.now (record_of stop row)) }
{
    reached_by(label::load_label(labels, label_distances, label::record_of(stop, row)))
}

// The least total over the egress stops' labels of a row, with its stop.
fn row_target(
    labels: &[u32],
    label_distances: &[f64],
    stops: usize,
    egress: &[u32],
    row: u32,
) -> Target
    requires labels_ok { LabelsOk stops labels.now label_distances.now }
    requires egress_ok { EgressOk stops egress.now }
    requires row_bound { row < 13 }
    ensures { (T : Tables) (Q : Query) (a : Arrivals) → Labelled a stops labels.now label_distances.now
        → target_of result ≡ row_target T Q a row (egress_rows egress.now) (never, never) }
{
    let mut best = NONE;
    for i in 0..egress.len() / 2 {
        let stop = egress[i * 2];
        let x = reached_in(labels, label_distances, stops, stop, row);
        best = with_reach(best, x, stop, egress[i * 2 + 1]);
    }
    best
}

// Candidate m.
fn put_candidate(candidates: &mut [u32], m: usize, b: Target, row: u32)
    requires { m * 3 + 3 ≤ length candidates.old }
    ensures { CandidatePut candidates.old candidates.new m b.total b.stop row }
{
    let at = m * 3;
    candidates[at] = b.total;
    candidates[at + 1] = b.stop;
    candidates[at + 2] = row;
}

// Is the least total of a row a candidate: earlier than the last one taken, and not later than the best by more than the slack?
fn taken(total: u32, last: u32, top: u32, slack: u32) -> bool
    ensures { result ≡ (ltb total last && leb total (top + slack)) }
{
    total < last && (total as u64) <= top as u64 + slack as u64
}

// The candidates of the rows from 0 to `rounds`, and how many; the words past them 0.
pub fn candidates(
    labels: &[u32],
    label_distances: &[f64],
    stops: usize,
    egress: &[u32],
    top: u32,
    slack: u32,
    rounds: u32,
    candidates: &mut [u32],
) -> usize
    requires labels_ok { LabelsOk stops labels.now label_distances.now }
    requires egress_ok { EgressOk stops egress.now }
    requires rounds_bound { rounds < 13 }
    requires candidates_length { length candidates.old ≡ 39 }
    ensures zero_from { ZeroFrom candidates.new result }
    ensures meaning { ((T : Tables) (Q : Query) (a : Arrivals) → Labelled a stops labels.now label_distances.now → Q.egress
        ≡ egress_rows egress.now → Q.settings.candidate_slack ≡ slack → candidates_in candidates.new result
        ≡ candidates_from T Q a top (suc rounds) 0 never) }
    ensures bound { result ≤ 13 }
{
    candidates.fill(0);
    let mut last: u32 = 4294967295;
    let mut m: usize = 0;
    for row in 0..rounds + 1 {
        let b = row_target(labels, label_distances, stops, egress, row);
        if !taken(b.total, last, top, slack) {
            continue;
        }
        put_candidate(candidates, m, b, row);
        last = b.total;
        m += 1;
    }
    m
}
