// walk_phase: the walk phase of a round.
// Place: the search.
// Specs (inner): what walks read and which tables and queries agree with it (Walking); the two lists of reached stops (Lists).
// Proves: each function is the model's of the same name on a query's state in memory, for all tables and queries that agree with
// what it reads; all else in memory is as it came; no stop's earliest arrival rises.
// Assumes nothing.
#![tactic(auto)]

ghost use Rattle.std.specs.Prelude.{◌≡◌, [], ◌∷◌, ◌+◌, ◌≤◌, ◌<◌, length, leb, not, ◌&&◌};
ghost use Rattle.loops.specs.Order.{Halved};
ghost use Rattle.tables.specs.Tables.{edge_of};
ghost use Rattle.tables.specs.Sane.{Sane, OrderOk};
ghost use Rattle.model.specs.Tables.{Tables, Query, edges_from};
ghost use Rattle.model.specs.Search.{holds_target, walk_from, walk_all};
ghost use Rattle.search_state.specs.Part.{part};
ghost use Rattle.search_state.specs.Places.{WorkSized, StopsListed, turned, Falls};
ghost use Rattle.search_state.specs.View.{memory};
ghost use Rattle.search_state.specs.Step.{Ready, Step};
ghost use Rattle.walk_phase.specs.Walking.{WalkGround, WalksAgree};
ghost use Rattle.arc_flags.specs.Skipping.{target_words, Patterned, PatternsOk};
ghost use Rattle.walk_phase.specs.Lists.{latest_walker, bearing, Appended, WalkPhase};
ghost use Rattle.query_types.specs.Layout.{list_room};

use label::Label;
use query_types::{Context, Head, Lay};
use tables::Counts;

// Do the arc flags skip an edge of pattern p?
fn skips(ctx: Context, patterns: &[u8], p: usize) -> bool
    requires { PatternsOk patterns.now ctx.net.patterns }
    ensures { (T : Tables) (Q : Query) → Patterned T patterns.now ctx.net.patterns
        → ctx.net.target ≡ target_words T Q → result ≡ (ctx.flagged && not (holds_target T Q p)) }
{
    ctx.flagged && !arc_flags::holds_target(patterns, ctx.net.patterns, ctx.net.target, p)
}

// The first walk edge whose from-stop is not below x, by halving; the number of edges where there is none.
fn first_edge(tables: &[u32], c: Counts, x: usize) -> usize
    requires sane { Sane tables.now c }
    requires order_ok { OrderOk tables.now c }
    ensures { Halved (λ i. leb x (edge_of tables.now c i 0)) c.edges result result }
{
    let mut lo: usize = 0;
    let mut hi = c.edges;
    while lo < hi {
        let mid = lo + (hi - lo) / 2;
        if tables::edge(tables, c, mid, 0) < x {
            lo = mid + 1;
        } else {
            hi = mid;
        }
    }
    lo
}

// One walk edge e of stop x, reached at v.
fn walk_edge(
    lay: Lay,
    ctx: Context,
    stamp: u32,
    x: usize,
    v: u32,
    e: usize,
    tables: &[u32],
    distances: &[f64],
    patterns: &[u8],
    work: &mut [u32],
    labels: &mut [u32],
    label_distances: &mut [f64],
    h: Head,
) -> Head
    requires ready { Ready lay stamp (memory work.old labels.old label_distances.old h) }
    requires walk_ground { WalkGround lay ctx tables.now (length distances.now) (length patterns.now) }
    requires x_bound { x < lay.stops }
    requires v_bound { v ≤ latest_walker }
    requires e_bound { e < ctx.counts.timetable.edges }
    ensures step { Step lay stamp (WalksAgree lay ctx tables.now distances.now patterns.now work.old)
        (λ T Q. walk_from T Q ctx.flagged stamp x v (e ∷ []))
        (memory work.old labels.old label_distances.old h)
        (memory work.new labels.new label_distances.new result) }
    ensures falls { Falls lay work.old work.new }
{
    let c = ctx.counts.timetable;
    let row = tables::edge_row(tables, c, e);
    if skips(ctx, patterns, row.pattern) {
        return h;
    }
    let d = walk_time::effective_duration_s(
        row.duration as u32,
        row.pathway as u32,
        ctx.net.terms.wheelchair,
    );
    let w = v + d;
    if h.best <= w {
        return h;
    }
    let how = Label::Walk {
        arrival_s: w,
        from_stop: x as u32,
        to_stop: row.to as u32,
        duration_s: d,
        distance_m: distances[e],
        prev_round: stamp - 1,
    };
    search_state::relax(lay, stamp, row.to, w, how, work, labels, label_distances, h)
}

// The walk edges of stop x, reached at v.
fn walk_from(
    lay: Lay,
    ctx: Context,
    stamp: u32,
    x: usize,
    v: u32,
    tables: &[u32],
    distances: &[f64],
    patterns: &[u8],
    work: &mut [u32],
    labels: &mut [u32],
    label_distances: &mut [f64],
    h: Head,
) -> Head
    requires ready { Ready lay stamp (memory work.old labels.old label_distances.old h) }
    requires walk_ground { WalkGround lay ctx tables.now (length distances.now) (length patterns.now) }
    requires x_bound { x < lay.stops }
    requires v_bound { v ≤ latest_walker }
    ensures step { Step lay stamp (WalksAgree lay ctx tables.now distances.now patterns.now work.old)
        (λ T Q. walk_from T Q ctx.flagged stamp x v (edges_from T x))
        (memory work.old labels.old label_distances.old h)
        (memory work.new labels.new label_distances.new result) }
    ensures falls { Falls lay work.old work.new }
{
    let c = ctx.counts.timetable;
    let mut g = h;
    for e in first_edge(tables, c, x)..c.edges {
        if tables::edge(tables, c, e, 0) != x {
            return g;
        }
        g = walk_edge(
            lay,
            ctx,
            stamp,
            x,
            v,
            e,
            tables,
            distances,
            patterns,
            work,
            labels,
            label_distances,
            g,
        );
    }
    g
}

// The walks from the first n stops of the other list, each from when it is reached as its turn comes.
fn walk_all(
    lay: Lay,
    ctx: Context,
    stamp: u32,
    n: usize,
    tables: &[u32],
    distances: &[f64],
    patterns: &[u8],
    work: &mut [u32],
    labels: &mut [u32],
    label_distances: &mut [f64],
    h: Head,
) -> Head
    requires ready { Ready lay stamp (memory work.old labels.old label_distances.old h) }
    requires walk_ground { WalkGround lay ctx tables.now (length distances.now) (length patterns.now) }
    requires stops_listed { StopsListed lay work.old n latest_walker }
    ensures step { Step lay stamp (WalksAgree lay ctx tables.now distances.now patterns.now work.old)
        (λ T Q. walk_all T Q ctx.flagged stamp (part work.old lay.other n))
        (memory work.old labels.old label_distances.old h)
        (memory work.new labels.new label_distances.new result) }
    ensures falls { Falls lay work.old work.new }
{
    let mut g = h;
    for i in 0..n {
        let x = work[lay.other + i] as usize;
        let v = work[x];
        g = walk_from(
            lay,
            ctx,
            stamp,
            x,
            v,
            tables,
            distances,
            patterns,
            work,
            labels,
            label_distances,
            g,
        );
    }
    g
}

// Stop s is put behind the list where it bears the stamp. The answer is how many stops the list has then.
fn append_one(lay: Lay, stamp: u32, s: usize, work: &mut [u32], count: usize) -> usize
    requires work_sized { WorkSized lay (length work.old) }
    requires s_bound { s < lay.stops }
    requires count_bound { count < list_room lay.stops }
    ensures { Appended lay work.old work.new count result (bearing lay stamp work.old (s ∷ [])) }
{
    let at = query_types::stamps_at(lay) + s;
    if work[at] != stamp {
        return count;
    }
    let end = lay.list + count;
    work[end] = s as u32;
    count + 1
}

// Those of the first n stops of the other list that bear the stamp are put behind the list.
fn append_stamped(lay: Lay, stamp: u32, n: usize, work: &mut [u32], count: usize) -> usize
    requires work_sized { WorkSized lay (length work.old) }
    requires stops_listed { StopsListed lay work.old n latest_walker }
    requires count_bound { count + n ≤ list_room lay.stops }
    ensures { Appended lay work.old work.new count result
        (bearing lay stamp work.old (part work.old lay.other n)) }
{
    let mut k = count;
    for i in 0..n {
        let s = work[lay.other + i] as usize;
        k = append_one(lay, stamp, s, work, k);
    }
    k
}

// THE WALK PHASE of a round: walks from the stops that the ride phase left in the list, and the stops for the next round in the other
// one: those reached on foot and, unflagged, after them those reached by transit.
pub fn walk_phase(
    ctx: Context,
    stamp: u32,
    tables: &[u32],
    distances: &[f64],
    patterns: &[u8],
    work: &mut [u32],
    labels: &mut [u32],
    label_distances: &mut [f64],
    h: Head,
) -> Head
    requires ready { Ready ctx.lay stamp (memory work.old labels.old label_distances.old h) }
    requires walk_ground { WalkGround ctx.lay ctx tables.now (length distances.now) (length patterns.now) }
    requires stops_listed { StopsListed (turned ctx.lay) work.old h.count latest_walker }
    ensures { WalkPhase ctx.lay ctx.flagged stamp
        (WalksAgree ctx.lay ctx tables.now distances.now patterns.now work.old)
        (memory work.old labels.old label_distances.old h)
        (memory work.new labels.new label_distances.new result) }
{
    let back = Lay {
        list: ctx.lay.other,
        other: ctx.lay.list,
        ..ctx.lay
    };
    let n = h.count;
    let g = Head { count: 0, ..h };
    let x = walk_all(
        back,
        ctx,
        stamp,
        n,
        tables,
        distances,
        patterns,
        work,
        labels,
        label_distances,
        g,
    );
    if ctx.flagged {
        return x;
    }
    let count = append_stamped(back, stamp, n, work, x.count);
    Head { count, ..x }
}
