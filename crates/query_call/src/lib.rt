// query_call: the two calls that answer a query: `run_tbr`, the Rust's answer, and `query`, the promise's: `run_tbr` with arc flags put off where
// they would skip nothing; and the call that says how long a workspace to lend.
// Place: a call crate; only `exports`, the promise and programs use it.
// Specs: the outcome of both (Call, a claim) and of the workspace's size (Workspace, a claim); the two calls as one (Parts, inner).
// Proves: each call's whole outcome is its definition, on every input. Inside: after `search` memory holds the model's `final` in the mode of the
// call, or question 8 is answered no. The three demands of the calls: crate `promise`.
// Assumes nothing.
#![tactic(auto)]

ghost use Rattle.std.specs.Prelude.{◌≡◌, List, ℕ, ◌/◌, length, Float};
ghost use Rattle.door.specs.Door.{answer_of};
ghost use Rattle.query_call.specs.Workspace.{workspace_answer};
ghost use Rattle.search_state.specs.View.{memory};
ghost use Rattle.query_input.specs.Lent.{lent, query_of};
ghost use Rattle.query_types.specs.Layout.{lay_of};
ghost use Rattle.search_begin.specs.Begin.{net_of};
ghost use Rattle.rounds.specs.Rounds.{Ended};
ghost use Rattle.query_call.specs.Parts.{mode_by, Flagging, AdmittedWith, outcome_by, answer_by};
ghost use Rattle.query_input.specs.Sane.{Admitted};
ghost use Rattle.query_reply.specs.Outcome.{query_areas, query_lengths, queue_full, query_settled};
ghost use Rattle.query_call.specs.Call.{run_tbr_outcome, query_outcome};
ghost use Rattle.query_reply.specs.Finish.{query_outcome_of};

use door::Refusal;
use query_reply::Reply;
use query_types::{Context, Head, Lengths, Net, QueryCounts};

// How long a workspace the caller has to lend.
#[tactic(auto, unfolding(crate::specs::Workspace::workspace_answer), using(query_door::proofs::Yes::limits_yes))]
pub fn workspace(counts: QueryCounts) -> Result<u32, Refusal>
    ensures { answer_of result ≡ workspace_answer counts }
{
    door::limits(query_door::counts_ok(counts), counts.settings)?;
    Ok(query_door::work_size(counts) as u32)
}

// Which of the two calls is made.
#[derive(Clone, Copy, Debug, PartialEq, Eq)]
enum Mode {
    RunTbr,
    Query,
}

// Are arc flags in use? Of `run_tbr` where they are not put off; of `query` where besides they skip something.
fn in_use(
    mode: Mode,
    counts: QueryCounts,
    tables: &[u32],
    built: &[u32],
    transfers: &[u32],
    patterns: &[u8],
    net: Net,
    flags_off: bool,
) -> bool
    requires { Flagging counts tables.now built.now transfers.now patterns.now }
    ensures { (d : List Float) (q : List ℕ) → net
        ≡ net_of (lent counts tables.now built.now transfers.now patterns.now d q)
        → (query_of (lent counts tables.now built.now transfers.now patterns.now d q)).flags_off
        ≡ flags_off → result
        ≡ mode_by mode (lent counts tables.now built.now transfers.now patterns.now d q) }
{
    let target = net.target;
    match mode {
        Mode::RunTbr => arc_flags::use_arc_flags(counts.patterns, target, flags_off),
        Mode::Query => {
            let transfer_runs = query_input::transfer_runs(built, counts);
            let transfer_rows = query_input::transfer_rows(counts, transfers.len());
            arc_flags::flags_in_use(
                tables,
                counts.timetable,
                transfer_runs,
                transfers,
                transfer_rows,
                patterns,
                counts.patterns,
                target,
                flags_off,
            )
        }
    }
}

// From the beginning to the end of the rounds.
fn search(
    mode: Mode,
    counts: QueryCounts,
    tables: &[u32],
    built: &[u32],
    transfers: &[u32],
    patterns: &[u8],
    distances: &[f64],
    query: &[u32],
    labels: &mut [u32],
    label_distances: &mut [f64],
    work: &mut [u32],
    queue_a: &mut [u32],
    queue_b: &mut [u32],
) -> Head
    requires { AdmittedWith (lent counts tables.now built.now transfers.now patterns.now distances.now query.now)
        (length labels.old) (length label_distances.old) (length work.old) (length queue_a.old) (length queue_b.old) }
    ensures { Ended (lent counts tables.now built.now transfers.now patterns.now
        distances.now query.now)
        (mode_by mode (lent counts tables.now built.now transfers.now patterns.now distances.now
        query.now)) (length queue_a.old / 4) (lay_of counts)
        (memory work.new labels.new label_distances.new result) }
{
    let lay = query_types::lay_for(counts.timetable, counts.lines);
    let net = search_begin::net_of(counts, tables, built, distances, query);
    let flags_off = query_input::flags_off(query);
    let flagged = in_use(
        mode, counts, tables, built, transfers, patterns, net, flags_off,
    );
    let h = search_begin::begin(
        counts,
        tables,
        built,
        distances,
        query,
        lay,
        work,
        labels,
        label_distances,
    );
    let change = query[1];
    let ctx = Context {
        counts,
        lay,
        net,
        flagged,
        change,
    };
    rounds::rounds(
        ctx,
        tables,
        built,
        transfers,
        patterns,
        distances,
        query,
        work,
        labels,
        label_distances,
        queue_a,
        queue_b,
        h,
    )
}

// A query that the door admits.
fn answer_query(
    mode: Mode,
    counts: QueryCounts,
    tables: &[u32],
    built: &[u32],
    transfers: &[u32],
    patterns: &[u8],
    distances: &[f64],
    query: &[u32],
    labels: &mut [u32],
    label_distances: &mut [f64],
    work: &mut [u32],
    queue_a: &mut [u32],
    queue_b: &mut [u32],
    candidates: &mut [u32],
) -> Reply
    requires { Admitted (lent counts tables.now built.now transfers.now patterns.now distances.now query.now)
        (query_lengths (query_areas labels.old label_distances.old work.old queue_a.old queue_b.old candidates.old)) }
    ensures { query_outcome_of result (query_areas labels.new label_distances.new work.new
        queue_a.new queue_b.new candidates.new)
        ≡ query_settled 0 (queue_full (answer_by mode
        (lent counts tables.now built.now transfers.now patterns.now distances.now
        query.now)) (query_areas labels.old label_distances.old work.old queue_a.old
        queue_b.old candidates.old))
        (answer_by mode (lent counts tables.now built.now transfers.now patterns.now
        distances.now query.now))
        (query_areas labels.old label_distances.old work.old queue_a.old queue_b.old
        candidates.old) }
{
    let h = search(
        mode,
        counts,
        tables,
        built,
        transfers,
        patterns,
        distances,
        query,
        labels,
        label_distances,
        work,
        queue_a,
        queue_b,
    );
    query_reply::finish(
        counts,
        query,
        h,
        labels,
        label_distances,
        work,
        queue_a,
        queue_b,
        candidates,
    )
}

// The questions first; a no is returned at once.
fn ask(
    mode: Mode,
    counts: QueryCounts,
    tables: &[u32],
    built: &[u32],
    transfers: &[u32],
    patterns: &[u8],
    distances: &[f64],
    query: &[u32],
    labels: &mut [u32],
    label_distances: &mut [f64],
    work: &mut [u32],
    queue_a: &mut [u32],
    queue_b: &mut [u32],
    candidates: &mut [u32],
) -> Reply
    ensures { query_outcome_of result (query_areas labels.new label_distances.new work.new
        queue_a.new queue_b.new candidates.new)
        ≡ outcome_by mode (lent counts tables.now built.now transfers.now patterns.now
        distances.now query.now)
        (query_areas labels.old label_distances.old work.old queue_a.old queue_b.old
        candidates.old) }
{
    let l = Lengths {
        labels: labels.len(),
        label_distances: label_distances.len(),
        work: work.len(),
        queue_a: queue_a.len(),
        queue_b: queue_b.len(),
        candidates: candidates.len(),
    };
    let asked = query_door::questions(
        counts, tables, built, transfers, patterns, distances, query, l,
    );
    if let Err(question) = asked {
        return Reply {
            code: u32::from(question),
            total: 0,
            stop: 0,
            candidates: 0,
        };
    }
    answer_query(
        mode,
        counts,
        tables,
        built,
        transfers,
        patterns,
        distances,
        query,
        labels,
        label_distances,
        work,
        queue_a,
        queue_b,
        candidates,
    )
}

// THE CALL `run_tbr`.
pub fn run_tbr(
    counts: QueryCounts,
    tables: &[u32],
    built: &[u32],
    transfers: &[u32],
    patterns: &[u8],
    distances: &[f64],
    query: &[u32],
    labels: &mut [u32],
    label_distances: &mut [f64],
    work: &mut [u32],
    queue_a: &mut [u32],
    queue_b: &mut [u32],
    candidates: &mut [u32],
) -> Reply
    ensures { record {
      reply = result;
      areas = query_areas labels.new label_distances.new work.new
          queue_a.new queue_b.new candidates.new;
    }
        ≡ run_tbr_outcome (lent counts tables.now built.now transfers.now patterns.now
        distances.now query.now)
        (query_areas labels.old label_distances.old work.old queue_a.old queue_b.old
        candidates.old) }
{
    ask(
        Mode::RunTbr,
        counts,
        tables,
        built,
        transfers,
        patterns,
        distances,
        query,
        labels,
        label_distances,
        work,
        queue_a,
        queue_b,
        candidates,
    )
}

// THE CALL `query`.
pub fn query(
    counts: QueryCounts,
    tables: &[u32],
    built: &[u32],
    transfers: &[u32],
    patterns: &[u8],
    distances: &[f64],
    query: &[u32],
    labels: &mut [u32],
    label_distances: &mut [f64],
    work: &mut [u32],
    queue_a: &mut [u32],
    queue_b: &mut [u32],
    candidates: &mut [u32],
) -> Reply
    ensures { record {
      reply = result;
      areas = query_areas labels.new label_distances.new work.new
          queue_a.new queue_b.new candidates.new;
    }
        ≡ query_outcome (lent counts tables.now built.now transfers.now patterns.now
        distances.now query.now)
        (query_areas labels.old label_distances.old work.old queue_a.old queue_b.old
        candidates.old) }
{
    ask(
        Mode::Query,
        counts,
        tables,
        built,
        transfers,
        patterns,
        distances,
        query,
        labels,
        label_distances,
        work,
        queue_a,
        queue_b,
        candidates,
    )
}
