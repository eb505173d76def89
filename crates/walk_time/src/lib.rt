// walk_time: how long a walk takes in a query, and how many rounds a query has (document 01, item 2; `effective_duration_s`
// of pack.rs, `tbr_max_rounds` of tbr.rs).
// Place: a leaf. The call of the duration: `leaf_calls`.
// Specs (a claim): the GTFS pathway modes that a wheelchair query takes at 100 times their duration; the effective duration; the
// round count.
// Proves: both are those of the definitions, for every input; an effective duration lies between the duration and
// 104,857,500 seconds, a round count between 4 and 12, and it never falls when an argument grows.
// Assumes nothing.
#![tactic(auto)]

ghost use Rattle.std.specs.Prelude.{◌≡◌, ◌≤◌};
ghost use Rattle.door.specs.Door.{time_limit};
ghost use Rattle.walk_time.specs.Walk.{stairs_or_escalator, effective_duration, round_count};

// Pathway modes of GTFS.
const STAIRS: u32 = 2;

const ESCALATOR: u32 = 4;

// Is this a pathway that a wheelchair query avoids?
fn stairs_or_escalator(pathway_mode: u32) -> bool
    ensures { result ≡ stairs_or_escalator pathway_mode }
{
    pathway_mode == STAIRS || pathway_mode == ESCALATOR
}

// Effective walk duration: stairs and escalators count 100 times in a wheelchair query.
#[tactic(auto, unfolding(crate::specs::Walk::effective_duration))]
pub fn effective_duration_s(duration: u32, pathway_mode: u32, wheelchair: bool) -> u32
    requires { duration ≤ time_limit }
    ensures { result ≡ effective_duration duration pathway_mode wheelchair }
{
    if wheelchair && stairs_or_escalator(pathway_mode) {
        duration * 100
    } else {
        duration
    }
}

// The round count of a query, for any wanted rounds and transfers. Ten transfers already ask for all 12 rounds.
#[tactic(auto, unfolding(crate::specs::Walk::round_count))]
pub fn tbr_max_rounds(wanted: u32, transfers: u32) -> u32
    ensures { result ≡ round_count wanted transfers }
{
    wanted.min(12).max(transfers.min(10) + 2).max(4)
}
