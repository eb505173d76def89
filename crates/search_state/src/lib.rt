// search_state: a query's state in memory (the Rust's TbrScratch): an arrival, a queued segment, an origin.
// Place: the search.
// Specs (inner): sections of the working numbers and how long each slice is (Places), parts of a list (Part), the state seen as the model's (View),
// what a call does to it (Step).
// Proves: best_after, improve, relax, enqueue and set_out are the model's functions on the state seen so, for all tables and queries
// that agree with what they read, and all else in memory is as it came; every label record stays its label's row, no word left over
// (Written). proofs/Steps, Queue: how calls compose (step_as, step-then, queue_step, queue_then; alight and transfer are
// callers); proofs/Labels: the label slices are the words and distances of the model's labels (labels_are).
// Assumes nothing.
#![tactic(auto)]

ghost use Rattle.std.specs.Prelude.{◌≡◌, ℕ, ◌+◌, ◌*◌, ◌-◌, ◌/◌, ◌≤◌, ◌<◌, false, cond, List, length, set, Float};
ghost use Rattle.label.specs.Label.{no_distance};
ghost use Rattle.tables.specs.Timetable.{timetable};
ghost use Rattle.model.specs.Tables.{no_windows, stop_at};
ghost use Rattle.model.specs.Search.{improve as improved, relax as relaxed, enqueue as enqueued, set_out};
ghost use Rattle.search_state.specs.Places.{WorkSized, Counted, EgressTable};
ghost use Rattle.search_state.specs.View.{memory, put_segment};
ghost use Rattle.search_state.specs.Step.{Ready, Step, QueueStep, Starting, StartStep, Entered, Marked, best_by, AlightAt};
ghost use Rattle.query_types.specs.Layout.{list_room};

use label::Label;
use query_types::{Head, Lay, Ride, Seg};
use tables::Counts;

// The best total after an arrival at `v` at a stop with this number in the egress table.
#[tactic(auto, unfolding(crate::specs::Step::best_by))]
fn best_after(word: u32, v: u32, best: u32) -> u32
    requires word_bound { word ≤ 1048576 }
    requires v_bound { v < 134217728 }
    ensures { result ≡ best_by word v best }
{
    if word == 0 {
        best
    } else {
        best.min(v + (word - 1))
    }
}

// Stop `s`, reached at `v`, is stamped and put at the end of the list.
fn enter(lay: Lay, stamp: u32, s: usize, v: u32, work: &mut [u32], count: usize)
    requires work_sized { WorkSized lay (length work.old) }
    requires s_bound { s < lay.stops }
    requires count_bound { count < list_room lay.stops }
    ensures { Entered lay stamp s v work.old work.new count }
{
    let at = query_types::stamps_at(lay) + s;
    let end = lay.list + count;
    work[s] = v;
    work[at] = stamp;
    work[end] = s as u32;
}

// Stop `s`, reached at `v`, among the working numbers. The answer is how many stops the list has then.
fn mark(lay: Lay, stamp: u32, s: usize, v: u32, work: &mut [u32], count: usize) -> usize
    requires work_sized { WorkSized lay (length work.old) }
    requires counted { Counted lay stamp work.old count }
    requires s_bound { s < lay.stops }
    ensures { Marked lay stamp s v work.old work.new count result }
{
    let at = query_types::stamps_at(lay) + s;
    if work[at] == stamp {
        work[s] = v;
        return count;
    }
    enter(lay, stamp, s, v, work, count);
    count + 1
}

// An arrival at stop `s` at `v`, with its label.
fn improve(
    lay: Lay,
    stamp: u32,
    s: usize,
    v: u32,
    how: Label,
    work: &mut [u32],
    labels: &mut [u32],
    label_distances: &mut [f64],
    h: Head,
) -> Head
    requires ready { Ready lay stamp (memory work.old labels.old label_distances.old h) }
    requires s_bound { s < lay.stops }
    requires v_bound { v < 134217728 }
    ensures { Step lay stamp (λ T Q. EgressTable Q.egress lay work.old) (λ T Q. improved T Q stamp s v how)
        (memory work.old labels.old label_distances.old h)
        (memory work.new labels.new label_distances.new result) }
{
    let at = query_types::rest_at(lay) + s;
    let best = best_after(work[at], v, h.best);
    let row = 13 * s + (stamp - 1) as usize;
    let count = mark(lay, stamp, s, v, work, h.count);
    label::store_label(how, labels, label_distances, row);
    Head { best, count, ..h }
}

// The same, where it is earlier than the stop's earliest arrival.
pub fn relax(
    lay: Lay,
    stamp: u32,
    s: usize,
    v: u32,
    how: Label,
    work: &mut [u32],
    labels: &mut [u32],
    label_distances: &mut [f64],
    h: Head,
) -> Head
    requires ready { Ready lay stamp (memory work.old labels.old label_distances.old h) }
    requires s_bound { s < lay.stops }
    requires v_bound { v < 134217728 }
    ensures { Step lay stamp (λ T Q. EgressTable Q.egress lay work.old) (λ T Q. relaxed T Q stamp s v how)
        (memory work.old labels.old label_distances.old h)
        (memory work.new labels.new label_distances.new result) }
{
    if work[s] <= v {
        return h;
    }
    improve(lay, stamp, s, v, how, work, labels, label_distances, h)
}

// A segment into row `k` of a queue.
#[tactic(auto, unfolding(crate::specs::View::put_segment))]
fn put_segment(seg: Seg, queue: &mut [u32], k: usize)
    requires { 4 * k + 4 ≤ length queue.old }
    ensures { queue.new ≡ put_segment (record { trip = seg.trip; offset = seg.offset; stop = seg.stop; shift = seg.shift })
        queue.old k }
{
    let at = 4 * k;
    queue[at] = seg.trip;
    queue[at + 1] = seg.offset;
    queue[at + 2] = seg.stop;
    queue[at + 3] = seg.shift;
}

// The least queued offset of a trip without windows.
fn lower(plain: bool, at: usize, offset: u32, work: &mut [u32])
    requires { at < length work.old }
    ensures { work.new ≡ cond plain (set work.old at offset) work.old }
{
    if plain {
        work[at] = offset;
    }
}

// A segment is queued; `plain`: its trip has no windows.
fn enqueue(lay: Lay, plain: bool, seg: Seg, work: &mut [u32], queue: &mut [u32], h: Head) -> Head
    requires work_sized { WorkSized lay (length work.old) }
    requires trip_bound { seg.trip < lay.trips }
    requires queued_bound { h.queued ≤ length queue.old / 4 }
    ensures { (stamp : ℕ) (l : List ℕ) (m : List Float) → Ready lay stamp (memory work.old l m h)
        → QueueStep lay stamp (λ T Q. no_windows T seg.trip ≡ plain) (λ T Q. enqueued T Q seg.trip seg.offset seg.stop seg.shift)
        (memory work.old l m h) (memory work.new l m result) queue.old queue.new }
{
    let at = query_types::reach_at(lay) + seg.trip as usize;
    let offset = seg.offset;
    let queued = h.queued;
    if plain && work[at] <= offset {
        return Head { full: false, ..h };
    }
    if queue.len() / 4 <= queued {
        return Head { full: true, ..h };
    }
    put_segment(seg, queue, queued);
    lower(plain, at, offset, work);
    Head {
        queued: queued + 1,
        full: false,
        ..h
    }
}

// An origin: its stop and access walk.
pub fn set_out(
    lay: Lay,
    start: u32,
    stop: u32,
    duration: u32,
    distance: f64,
    work: &mut [u32],
    labels: &mut [u32],
    label_distances: &mut [f64],
    h: Head,
) -> Head
    requires starting { Starting lay (memory work.old labels.old label_distances.old h) }
    requires stop_bound { stop < lay.stops }
    requires start_bound { start + duration < 134217728 }
    ensures { StartStep lay (λ T Q. EgressTable Q.egress lay work.old × (Q.start ≡ start))
        (λ T Q. set_out T Q (record { stop = stop; duration = duration; distance = distance }))
        (memory work.old labels.old label_distances.old h)
        (memory work.new labels.new label_distances.new result) }
{
    let v = start + duration;
    let s = stop as usize;
    let count = h.count;
    let at = query_types::rest_at(lay) + s;
    let best = best_after(work[at], v, h.best);
    if work[s] <= v {
        return Head { best, ..h };
    }
    enter(lay, 1, s, v, work, count);
    let how = Label::Access {
        stop_idx: stop,
        arrival_s: v,
        walk_duration: duration,
        walk_distance: distance,
    };
    label::store_label(how, labels, label_distances, label::record_of(stop, 0));
    Head {
        best,
        count: count + 1,
        ..h
    }
}

// Alighting at `v` at the trip's stop time at offset `p`: one turn of the first loop of scan_trip_forward.
pub fn alight(
    tables: &[u32],
    c: Counts,
    lay: Lay,
    ride: Ride,
    p: usize,
    v: u32,
    work: &mut [u32],
    labels: &mut [u32],
    label_distances: &mut [f64],
    h: Head,
) -> Head
    requires alight_at { AlightAt tables.now c lay ride p }
    requires ready { Ready lay ride.stamp (memory work.old labels.old label_distances.old h) }
    requires v_bound { v < 134217728 }
    ensures { Step lay ride.stamp (λ T Q. EgressTable Q.egress lay work.old
        × (T.timetable ≡ timetable tables.now c))
        (λ T Q. relaxed T Q ride.stamp (stop_at T ride.trip p) v
        (Label.Transit v ride.trip ride.stop ride.offset p (ride.stamp - 2) ride.shift))
        (memory work.old labels.old label_distances.old h)
        (memory work.new labels.new label_distances.new result) }
{
    let first = tables::trip(tables, c, ride.trip as usize, 0);
    let s = tables::time(tables, c, first + p, 0);
    let how = Label::Transit {
        arrival_s: v,
        trip_idx: ride.trip,
        board_stop: ride.stop,
        board_off: ride.offset,
        alight_off: p as u32,
        prev_round: ride.stamp - 2,
        time_shift_s: ride.shift,
    };
    relax(lay, ride.stamp, s, v, how, work, labels, label_distances, h)
}

// A transfer taken: the stop where its trip is boarded at `v` is reached on foot from stop `from`, and its segment is queued.
pub fn transfer(
    lay: Lay,
    stamp: u32,
    plain: bool,
    seg: Seg,
    v: u32,
    from: u32,
    time: u32,
    work: &mut [u32],
    labels: &mut [u32],
    label_distances: &mut [f64],
    queue: &mut [u32],
    h: Head,
) -> Head
    requires ready { Ready lay stamp (memory work.old labels.old label_distances.old h) }
    requires trip_bound { seg.trip < lay.trips }
    requires stop_bound { seg.stop < lay.stops }
    requires v_bound { v < 134217728 }
    requires full_is { h.full ≡ false }
    requires queued_bound { h.queued ≤ length queue.old / 4 }
    ensures { QueueStep lay stamp (λ T Q. EgressTable Q.egress lay work.old × (no_windows T seg.trip ≡ plain))
        (λ T Q a. enqueued T Q seg.trip seg.offset seg.stop seg.shift
        (relaxed T Q stamp seg.stop v (Label.Walk v from seg.stop time no_distance (stamp - 1)) a))
        (memory work.old labels.old label_distances.old h)
        (memory work.new labels.new label_distances.new result) queue.old queue.new }
{
    let how = Label::Walk {
        arrival_s: v,
        from_stop: from,
        to_stop: seg.stop,
        duration_s: time,
        distance_m: 0.0,
        prev_round: stamp - 1,
    };
    let s = seg.stop as usize;
    let x = relax(lay, stamp, s, v, how, work, labels, label_distances, h);
    enqueue(lay, plain, seg, work, queue, x)
}
