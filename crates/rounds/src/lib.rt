// rounds: the rounds of a query, each a ride phase and a walk phase, one after the other; the two queue halves and the two lists of stops in turn.
// Place: the search.
// Specs (inner): one round in memory (Round); question 8, the state after all rounds (Rounds).
// Proves: `round` is the model's on the state in memory, or a segment does not fit in the queue, and what is read stays as it came; after `rounds`
// memory holds the model's `final` of the tables and the query that the lent slices say, or question 8 is answered no.
// Assumes nothing.
#![tactic(auto)]

ghost use Rattle.std.specs.Prelude.{◌≡◌, length, ◌||◌, ◌/◌};
ghost use Rattle.search_state.specs.View.{memory};
ghost use Rattle.rounds.specs.Round.{BeforeRound, Round, idle_head, read, filled};
ghost use Rattle.query_input.specs.Lent.{lent};
ghost use Rattle.rounds.specs.Rounds.{Started, Ended};
ghost use Rattle.query_types.specs.Slices.{slices};

use query_types::{Context, Head, Phase, Turn};

// ONE ROUND: the segments in `from` are ridden, the stops of lay.other boarded at; then walks. Segments are queued in `queue`.
fn round(
    ctx: Context,
    r: u32,
    tables: &[u32],
    delay_rows: &[u32],
    stop_rows: &[u32],
    built: &[u32],
    patterns: &[u8],
    transfers: &[u32],
    distances: &[f64],
    from: &[u32],
    work: &mut [u32],
    labels: &mut [u32],
    label_distances: &mut [f64],
    queue: &mut [u32],
    h: Head,
) -> Head
    requires { BeforeRound ctx (slices tables.now delay_rows.now stop_rows.now built.now patterns.now transfers.now)
        distances.now r (memory work.old labels.old label_distances.old h) from.now (length queue.old) }
    ensures { Round ctx (slices tables.now delay_rows.now stop_rows.now built.now
        patterns.now transfers.now) distances.now r
        (memory work.old labels.old label_distances.old h)
        (memory work.new labels.new label_distances.new result) from.now queue.old
        queue.new }
{
    let stamp = r + 2;
    let change = trip_boarding::change_before(r, ctx.change);
    let p = Phase {
        context: ctx,
        stamp,
        change,
    };
    let g = ride_phase::ride_phase(
        tables,
        delay_rows,
        stop_rows,
        built,
        patterns,
        transfers,
        p,
        from,
        work,
        labels,
        label_distances,
        queue,
        h,
    );
    if g.full {
        return g;
    }
    walk_phase::walk_phase(
        ctx,
        stamp,
        tables,
        distances,
        patterns,
        work,
        labels,
        label_distances,
        g,
    )
}

// The same with the halves of the queue in turn: an even round reads the first and fills the second.
fn turn(
    ctx: Context,
    at: Turn,
    tables: &[u32],
    delay_rows: &[u32],
    stop_rows: &[u32],
    built: &[u32],
    patterns: &[u8],
    transfers: &[u32],
    distances: &[f64],
    work: &mut [u32],
    labels: &mut [u32],
    label_distances: &mut [f64],
    queue_a: &mut [u32],
    queue_b: &mut [u32],
    h: Head,
) -> Head
    requires { BeforeRound ctx (slices tables.now delay_rows.now stop_rows.now built.now patterns.now transfers.now)
        distances.now at.round (memory work.old labels.old label_distances.old h) (read at.even queue_a.old queue_b.old)
        (length (filled at.even queue_a.old queue_b.old)) }
    ensures { Round ctx (slices tables.now delay_rows.now stop_rows.now built.now
        patterns.now transfers.now) distances.now at.round
        (memory work.old labels.old label_distances.old h)
        (memory work.new labels.new label_distances.new result)
        (read at.even queue_a.old queue_b.old)
        (filled at.even queue_a.old queue_b.old)
        (filled at.even queue_a.new queue_b.new) }
{
    if at.even {
        round(
            ctx,
            at.round,
            tables,
            delay_rows,
            stop_rows,
            built,
            patterns,
            transfers,
            distances,
            queue_a,
            work,
            labels,
            label_distances,
            queue_b,
            h,
        )
    } else {
        round(
            ctx,
            at.round,
            tables,
            delay_rows,
            stop_rows,
            built,
            patterns,
            transfers,
            distances,
            queue_b,
            work,
            labels,
            label_distances,
            queue_a,
            h,
        )
    }
}

// Is no stop left to board at and, flagged, no segment to ride?
fn idle(flagged: bool, h: Head) -> bool
    ensures { result ≡ idle_head flagged h }
{
    h.count == 0 && (!flagged || h.queued == 0)
}

// Do the rounds end: did a segment not fit, or is nothing left to do?
fn ends(flagged: bool, h: Head) -> bool
    ensures { result ≡ (h.full || idle_head flagged h) }
{
    h.full || idle(flagged, h)
}

// THE ROUNDS of a query.
pub fn rounds(
    ctx: Context,
    tables: &[u32],
    built: &[u32],
    transfers: &[u32],
    patterns: &[u8],
    distances: &[f64],
    query: &[u32],
    work: &mut [u32],
    labels: &mut [u32],
    label_distances: &mut [f64],
    queue_a: &mut [u32],
    queue_b: &mut [u32],
    h: Head,
) -> Head
    requires { Started (lent ctx.counts tables.now built.now transfers.now patterns.now distances.now query.now) ctx
        (memory work.old labels.old label_distances.old h) (length queue_a.old) (length queue_b.old) }
    ensures { Ended (lent ctx.counts tables.now built.now transfers.now patterns.now
        distances.now query.now) ctx.flagged (length queue_a.old / 4) ctx.lay
        (memory work.new labels.new label_distances.new result) }
{
    let delay_rows = query_input::delay_rows(query, ctx.counts);
    let stop_rows = query_input::stop_rows(query, ctx.counts);
    let limit = walk_time::tbr_max_rounds(query[2], query[3]);
    let mut g = h;
    let mut even = true;
    for r in 0..limit {
        if ends(ctx.flagged, g) {
            return g;
        }
        let at = Turn { round: r, even };
        g = turn(
            ctx,
            at,
            tables,
            delay_rows,
            stop_rows,
            built,
            patterns,
            transfers,
            distances,
            work,
            labels,
            label_distances,
            queue_a,
            queue_b,
            g,
        );
        even = !even;
    }
    g
}
