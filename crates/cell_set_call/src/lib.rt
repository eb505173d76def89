// cell_set_call: the exported calls of cell sets (document 01, item 1): made, grown, changed and asked. Each asks its questions, 1 where it takes
// a number of cells and 14 (the settings), then hands on to the method of `cell_bitset`.
// Place: a call crate; only `exports` and programs use it.
// Specs (claim): the questions and the outcome of each call (CellSetCall). What a set then holds is defined in `cell_bitset`.
// Proves: each call's outcome is the defined one, on every value of the struct; the limits and question 14 as computed rows (proofs/Examples).
// Assumes nothing.
#![tactic(auto)]

ghost use Rattle.std.specs.Prelude.{◌≡◌};
ghost use Rattle.door.specs.Door.{answer_of};
ghost use Rattle.cell_bitset.specs.CellSet.{empty_set};
ghost use Rattle.cell_set_call.specs.CellSetCall.{set_of, created, resized, with_cell_answer, union_answer, held_answer, meets_answer, empty_answer};

use cell_bitset::CellBitSet;
use door::{Refusal, Settings};

// The most cells that a set has room for.
const CELL_LIMIT: u32 = 512;

// What a caller in C reads of a call that gives a set: 0 and the set made, or the number of the first no and the set as it came (of a call that is handed
// none, an empty one).
#[repr(C)]
#[derive(Clone, Copy)]
pub struct CellSetAnswer {
    pub code: u32,
    pub set: CellBitSet,
}

// Refused, `back` is handed back.
pub fn answered(outcome: Result<CellBitSet, Refusal>, back: CellBitSet) -> CellSetAnswer
    ensures { result ≡ set_of outcome back }
{
    match outcome {
        Ok(set) => CellSetAnswer { code: 0, set },
        Err(question) => CellSetAnswer {
            code: u32::from(question),
            set: back,
        },
    }
}

// A new set, behind questions 1 and 14.
pub fn create(settings: Settings, num_cells: u32) -> Result<CellBitSet, Refusal>
    ensures { set_of result (empty_set 0) ≡ created settings num_cells }
{
    door::limits(num_cells <= CELL_LIMIT, settings)?;
    Ok(CellBitSet::new(num_cells))
}

// A set with room for more cells, behind questions 1 and 14.
pub fn resize(settings: Settings, set: CellBitSet, num_cells: u32) -> Result<CellBitSet, Refusal>
    ensures { set_of result set ≡ resized settings set num_cells }
{
    let few = num_cells <= CELL_LIMIT;
    door::limits(few, settings)?;
    Ok(set.ensure_sized(num_cells))
}

// A set with one cell more, behind question 14, as all that follow.
pub fn set_bit(settings: Settings, set: CellBitSet, cell: u32) -> Result<CellBitSet, Refusal>
    ensures { set_of result set ≡ with_cell_answer settings set cell }
{
    door::ask(Refusal::Settings, door::settings_ok(settings))?;
    Ok(set.set_bit(cell))
}

// Two sets in one.
pub fn union_with(
    settings: Settings,
    set: CellBitSet,
    other: CellBitSet,
) -> Result<CellBitSet, Refusal>
    ensures { set_of result set ≡ union_answer settings set other }
{
    door::ask(Refusal::Settings, door::settings_ok(settings))?;
    Ok(set.union_with(other))
}

// Is the cell in the set? 1 for yes, 0 for no, as the next two.
pub fn get_bit(settings: Settings, set: CellBitSet, cell: u32) -> Result<u32, Refusal>
    ensures { answer_of result ≡ held_answer settings set cell }
{
    door::ask(Refusal::Settings, door::settings_ok(settings))?;
    Ok(u32::from(set.get_bit(cell)))
}

// Have the sets a cell in common?
pub fn intersects(settings: Settings, set: CellBitSet, other: CellBitSet) -> Result<u32, Refusal>
    ensures { answer_of result ≡ meets_answer settings set other }
{
    door::ask(Refusal::Settings, door::settings_ok(settings))?;
    Ok(u32::from(set.intersects(other)))
}

// Does the set hold no cell?
pub fn is_empty(settings: Settings, set: CellBitSet) -> Result<u32, Refusal>
    ensures { answer_of result ≡ empty_answer settings set }
{
    door::ask(Refusal::Settings, door::settings_ok(settings))?;
    Ok(u32::from(set.is_empty()))
}
