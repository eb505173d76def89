// query_reply: what a query leaves: its reply and every area at exit.
// Place: the search.
// Specs: the outcome of a search that was refused, that ran out of queue, or that was answered (Outcome, a claim); what the functions that write it
// are given and leave (Finish, inner).
// Proves: after the rounds the reply, the candidate rows and the cleared areas are as the outcome says.
// Assumes nothing.
#![tactic(auto)]

ghost use Rattle.std.specs.Prelude.{◌≡◌, false, length};
ghost use Rattle.model.specs.Tables.{Tables, Query};
ghost use Rattle.model.specs.Search.{Arrivals};
ghost use Rattle.query_reply.specs.Outcome.{query_areas, cleared};
ghost use Rattle.query_reply.specs.Finish.{Ending, AnswerAgrees, Replied, Finished};

use door::Refusal;
use query_types::{Head, QueryCounts};

// What a call gives back: the number of the first question answered no, or 0; the best total and its stop; how many candidates.
#[repr(C)]
#[derive(Clone, Copy)]
pub struct Reply {
    pub code: u32,
    pub total: u32,
    pub stop: u32,
    pub candidates: u32,
}

// Total, stop and candidates, the candidate rows written.
fn reply_of(
    counts: QueryCounts,
    query: &[u32],
    work: &[u32],
    labels: &[u32],
    label_distances: &[f64],
    candidates: &mut [u32],
) -> Reply
    requires ending { Ending counts query.now work.now labels.now label_distances.now }
    requires candidates_length { length candidates.old ≡ 39 }
    ensures { (T : Tables) (Q : Query) (a : Arrivals)
        → AnswerAgrees T Q a counts query.now work.now labels.now
        label_distances.now → Replied T Q a result candidates.new }
{
    let stops = counts.timetable.stops;
    let egress = query_input::egress_rows(query, counts);
    let best = best_target::best_target(work, stops, egress);
    if best.total == u32::MAX {
        candidates.fill(0);
        return Reply {
            code: 0,
            total: best.total,
            stop: best.stop,
            candidates: 0,
        };
    }
    let rounds = walk_time::tbr_max_rounds(query[2], query[3]);
    let m = best_target::candidates(
        labels,
        label_distances,
        stops,
        egress,
        best.total,
        counts.settings.candidate_slack,
        rounds,
        candidates,
    );
    Reply {
        code: 0,
        total: best.total,
        stop: best.stop,
        candidates: m as u32,
    }
}

// Workspace and queue become 0.
fn zero_work(work: &mut [u32], queue_a: &mut [u32], queue_b: &mut [u32])
    ensures work_new { work.new ≡ cleared work.old }
    ensures queue_a_new { queue_a.new ≡ cleared queue_a.old }
    ensures queue_b_new { queue_b.new ≡ cleared queue_b.old }
{
    work.fill(0);
    queue_a.fill(0);
    queue_b.fill(0);
}

// After the rounds: 8 with all areas but the candidate rows zero, or the answer.
pub fn finish(
    counts: QueryCounts,
    query: &[u32],
    h: Head,
    labels: &mut [u32],
    label_distances: &mut [f64],
    work: &mut [u32],
    queue_a: &mut [u32],
    queue_b: &mut [u32],
    candidates: &mut [u32],
) -> Reply
    requires full_is { (h.full ≡ false → Ending counts query.now work.old labels.old label_distances.old) }
    requires candidates_length { length candidates.old ≡ 39 }
    ensures { Finished counts query.now h.full
        (query_areas labels.old label_distances.old work.old queue_a.old queue_b.old
        candidates.old) (query_areas labels.new label_distances.new work.new queue_a.new
        queue_b.new candidates.new) result }
{
    if h.full {
        zero_work(work, queue_a, queue_b);
        labels.fill(0);
        label_distances.fill(0.0);
        return Reply {
            code: u32::from(Refusal::Queue),
            total: 0,
            stop: 0,
            candidates: 0,
        };
    }
    let r = reply_of(counts, query, work, labels, label_distances, candidates);
    zero_work(work, queue_a, queue_b);
    r
}
