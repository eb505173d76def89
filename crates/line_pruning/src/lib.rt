// line_pruning: the boardings of a round in memory: which departures are passed over, for an earlier trip of their FIFO line boarded in this round or
// for the trip itself, and what a boarding changes: each trip's stamp, offset and departure, and the chain of its line's trips boarded in this round.
// Place: the search.
// Specs (inner): the chain of each line's trips boarded in this round (Chain), the model's boardings in memory (Books).
// Proves: each test is the model's of the same name and `note` is its `board`, for all tables and queries that agree with what they read; all else in
// memory is as it came. proofs/Rounds: the boardings of a new round.
// Assumes nothing.
#![tactic(auto)]

ghost use Rattle.std.specs.Prelude.{◌≡◌, ℕ, ◌≤◌, ◌<◌, true, List, length, get_or};
ghost use Rattle.tables.specs.declared.Counts.{Counts};
ghost use Rattle.trip_boarding.specs.Reads.{hit_of};
ghost use Rattle.model.specs.Tables.{Tables, Query};
ghost use Rattle.model.specs.Search.{Boardings, line_at, prunable as mayPrune, dominated as isDominated, pruned as isPruned, passed_over};
ghost use Rattle.search_state.specs.Places.{WorkSized};
ghost use Rattle.line_pruning.specs.Chain.{chain_first, chain_from, before, some_before, linked, lowered, listed, stamped_as};
ghost use Rattle.line_pruning.specs.Books.{Agrees, Chains, Books, Inside, Noted};

use query_types::Lay;

// May the trip prune and be pruned?
fn prunable(lay: Lay, built: &[u32], adj: Option<usize>, trip: usize, work: &[u32]) -> bool
    requires work_sized { WorkSized lay (length work.now) }
    requires trips_bound { lay.trips ≤ length built.now }
    requires trip_bound { trip < lay.trips }
    ensures value { (result ≡ true → get_or built.now trip 0 < lay.lines) }
    ensures meaning { ((T : Tables) (Q : Query) (c : Counts) → Agrees T lay c built.now work.now
        → result ≡ mayPrune T Q (hit_of adj) trip) }
{
    let line = built[trip] as usize;
    line < lay.lines && adj.is_none() && work[query_types::fifo_at(lay) + line] == 1
}

// Where the chain of a line begins.
fn first_of(lay: Lay, stamp: u32, line: usize, work: &[u32]) -> u32
    requires work_sized { WorkSized lay (length work.now) }
    requires line_bound { line < lay.lines }
    ensures { result ≡ chain_first lay stamp work.now line }
{
    let at = query_types::line_stamps_at(lay) + line;
    if work[at] == stamp {
        work[query_types::heads_at(lay) + line]
    } else {
        0
    }
}

// Does a trip stand before position `p`, and was it boarded at this offset or before?
fn is_before(lay: Lay, trip: usize, p: usize, off: usize, work: &[u32]) -> bool
    requires work_sized { WorkSized lay (length work.now) }
    requires trip_bound { trip < lay.trips }
    ensures { result ≡ before lay work.now p off trip }
{
    let place = work[query_types::positions_at(lay) + trip] as usize;
    let least = work[query_types::least_at(lay) + trip] as usize;
    place < p && least <= off
}

// Does one trip of the chain from `first` on?
fn some_before(lay: Lay, first: usize, p: usize, off: usize, work: &[u32]) -> bool
    requires work_sized { WorkSized lay (length work.now) }
    requires inside { Inside lay (chain_from lay work.now lay.trips first) }
    ensures { result ≡ some_before lay work.now p off (chain_from lay work.now lay.trips first) }
{
    let links = query_types::links_at(lay);
    let mut h = first;
    for _k in 0..lay.trips {
        if h == 0 {
            return false;
        }
        if is_before(lay, h - 1, p, off, work) {
            return true;
        }
        h = work[links + (h - 1)] as usize;
    }
    false
}

// An earlier trip of this line was boarded in this round at this offset or before.
fn dominated(lay: Lay, stamp: u32, line: usize, trip: usize, off: usize, work: &[u32]) -> bool
    requires work_sized { WorkSized lay (length work.now) }
    requires chains { Chains lay stamp work.now }
    requires line_bound { line < lay.lines }
    requires trip_bound { trip < lay.trips }
    ensures { (T : Tables) (Q : Query) (c : Counts) (built : List ℕ) (b : Boardings) → Agrees T lay c built work.now
        → Books lay stamp T Q work.now b → line ≡ line_at T trip → result ≡ isDominated T Q trip off b.line_boards }
{
    let p = work[query_types::positions_at(lay) + trip] as usize;
    let first = first_of(lay, stamp, line, work) as usize;
    some_before(lay, first, p, off, work)
}

// The trip may be pruned, and is.
pub fn pruned(
    lay: Lay,
    stamp: u32,
    built: &[u32],
    adj: Option<usize>,
    trip: usize,
    off: usize,
    work: &[u32],
) -> bool
    requires work_sized { WorkSized lay (length work.now) }
    requires chains { Chains lay stamp work.now }
    requires trips_bound { lay.trips ≤ length built.now }
    requires trip_bound { trip < lay.trips }
    ensures { (T : Tables) (Q : Query) (c : Counts) (b : Boardings) → Agrees T lay c built.now work.now
        → Books lay stamp T Q work.now b → result ≡ isPruned T Q (hit_of adj) trip off b }
{
    prunable(lay, built, adj, trip, work)
        && dominated(lay, stamp, built[trip] as usize, trip, off, work)
}

// The trip was boarded in this round, and a boarding at this offset with this departure is no better.
pub fn passed_over(lay: Lay, stamp: u32, trip: usize, off: u32, dep: u32, work: &[u32]) -> bool
    requires work_sized { WorkSized lay (length work.now) }
    requires trip_bound { trip < lay.trips }
    ensures { (T : Tables) (Q : Query) (b : Boardings) → Books lay stamp T Q work.now b → result
        ≡ passed_over T Q stamp trip off dep b }
{
    let at = query_types::trip_stamps_at(lay) + trip;
    if work[at] != stamp {
        return false;
    }
    let o = work[query_types::boarded_offsets_at(lay) + trip];
    let d = work[query_types::boarded_departures_at(lay) + trip];
    !(dep < d || dep == d && off < o)
}

// A trip at the front of a line's chain, with this offset.
fn link(lay: Lay, stamp: u32, line: usize, trip: usize, off: u32, work: &mut [u32])
    requires work_sized { WorkSized lay (length work.old) }
    requires line_bound { line < lay.lines }
    requires trip_bound { trip < lay.trips }
    ensures { work.new ≡ linked lay stamp line trip off work.old }
{
    let at = query_types::line_stamps_at(lay) + line;
    let head = query_types::heads_at(lay) + line;
    let next = query_types::links_at(lay) + trip;
    let least = query_types::least_at(lay) + trip;
    let first = first_of(lay, stamp, line, work);
    work[next] = first;
    work[least] = off;
    work[head] = trip as u32 + 1;
    work[at] = stamp;
}

// The least offset of a trip, lowered.
fn lower(lay: Lay, trip: usize, off: u32, work: &mut [u32])
    requires work_sized { WorkSized lay (length work.old) }
    requires trip_bound { trip < lay.trips }
    ensures { work.new ≡ lowered lay trip off work.old }
{
    let least = query_types::least_at(lay) + trip;
    if work[least] <= off {
        return;
    }
    work[least] = off;
}

// A trip that may prune, in its line's chain.
fn list(lay: Lay, stamp: u32, prunes: bool, line: usize, trip: usize, off: u32, work: &mut [u32])
    requires work_sized { WorkSized lay (length work.old) }
    requires prunes_is { (prunes ≡ true → line < lay.lines) }
    requires trip_bound { trip < lay.trips }
    ensures { work.new ≡ listed lay stamp prunes line trip off work.old }
{
    if !prunes {
        return;
    }
    let at = query_types::trip_stamps_at(lay) + trip;
    if work[at] == stamp {
        lower(lay, trip, off, work);
        return;
    }
    link(lay, stamp, line, trip, off, work);
}

// The stamp, offset and departure of a trip.
fn stamp_trip(lay: Lay, stamp: u32, trip: usize, off: u32, dep: u32, work: &mut [u32])
    requires work_sized { WorkSized lay (length work.old) }
    requires trip_bound { trip < lay.trips }
    ensures { work.new ≡ stamped_as lay stamp trip off dep work.old }
{
    let at = query_types::trip_stamps_at(lay) + trip;
    let offset = query_types::boarded_offsets_at(lay) + trip;
    let departure = query_types::boarded_departures_at(lay) + trip;
    work[at] = stamp;
    work[offset] = off;
    work[departure] = dep;
}

// A trip is boarded.
pub fn note(
    lay: Lay,
    stamp: u32,
    built: &[u32],
    adj: Option<usize>,
    trip: usize,
    off: u32,
    dep: u32,
    work: &mut [u32],
)
    requires work_sized { WorkSized lay (length work.old) }
    requires chains { Chains lay stamp work.old }
    requires trips_bound { lay.trips ≤ length built.now }
    requires trip_bound { trip < lay.trips }
    ensures { Noted lay stamp built.now (hit_of adj) trip off dep work.old work.new }
{
    let prunes = prunable(lay, built, adj, trip, work);
    let line = built[trip] as usize;
    list(lay, stamp, prunes, line, trip, off, work);
    stamp_trip(lay, stamp, trip, off, dep, work);
}
