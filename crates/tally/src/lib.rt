// tally: answered and refused calls of each screen, 0 to 63 (request T-08).
// The box owns one record of 128 numbers, answered calls of screen s at s and its refused calls at 64 + s, and lends it to every exported call.
// `count` is the one thin function with `&mut` to a tally record, a screen's own (`ScreenTally`), over `counted`, which is on the numbers;
// `tallied` lends it a record that is held by value; `count_call`, with plain parameters, serves every exported call.
// Place: the foundation.
// Specs (claims): the tally, one call more (Tally); a call for a screen and the tally after it (Screen); sequences of calls and their laws (Laws).
// Proves: every function equal to its definition; in proofs/Laws what a screen shows after any calls, that the other screens' calls do not change
// it, and the sum over all screens; in proofs/Gate a call for a screen by its two cases; in proofs/Examples rows by computation.
// Assumes nothing.
#![tactic(auto)]

ghost use Rattle.std.specs.Prelude.{◌≡◌, ◌≤◌};
ghost use Rattle.tally.specs.Tally.{with_call, tally_with};

// The box's record: the answered and refused calls of screens 0 to 63. It is lent to every call, which sees its 128 numbers.
#[repr(C)]
#[derive(Drop)]
pub struct Tally {
    pub answered: [u32; 64],
    pub refused: [u32; 64],
}

// What one screen's tally shows.
#[derive(Clone, Copy)]
pub struct ScreenTally {
    pub answered: u32,
    pub refused: u32,
}

// A screen's numbers with one call more, which ended with this code; the greatest count stays. Both are made before the code is looked at, so that it
// chooses a number and not a way: an answer that the caller hands on is then not copied once more for each.
fn counted(t: ScreenTally, code: u32) -> ScreenTally
    ensures { result ≡ with_call t code }
{
    let answered = t.answered.saturating_add(1);
    let refused = t.refused.saturating_add(1);
    if code == 0 {
        ScreenTally { answered, ..t }
    } else {
        ScreenTally { refused, ..t }
    }
}

// The lent record counts one call more.
fn count(tally: &mut ScreenTally, code: u32)
    ensures { tally.new ≡ with_call tally.old code }
{
    *tally = counted(*tally, code);
}

// A record held by value is lent to `count`.
fn tallied(t: ScreenTally, code: u32) -> ScreenTally
    ensures { result ≡ with_call t code }
{
    let mut next = t;
    count(&mut next, code);
    next
}

// The box's numbers count one call more of a screen.
#[tactic(auto, unfolding(crate::specs::Tally::tally_with))]
pub fn count_call(tally: &mut [u32; 128], screen: u32, code: u32)
    requires { screen ≤ 63 }
    ensures { tally.new ≡ tally_with tally.old screen code }
{
    let at = screen as usize;
    let before = ScreenTally {
        answered: tally[at],
        refused: tally[at + 64],
    };
    let after = tallied(before, code);
    tally[at] = after.answered;
    tally[at + 64] = after.refused;
}
