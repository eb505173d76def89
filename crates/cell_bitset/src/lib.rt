// cell_bitset: the cell set of the arc flags (CellBitSet of the Rust), by value: at most 512 cells, as bytes.
// Place: a leaf. The calls that ask question 1 of a count: `cell_set_call`.
// Specs (claims): when a cell is in a set (`held`), the set with one cell more (`with_cell`), that two sets share a cell
// (`meets`), their union, a set with room for more cells (`sized`). Inner: the eight words of a set (CellWords).
// Proves: each method equal to its definition for every value of the struct, also one whose `reserved` is past the 64
// bytes or no multiple of 8, or whose bytes past the reserved ones are not zero; in proofs/Laws which cells the sets so
// made hold and keep, and that two sets meet exactly where their bytes share a bit; in proofs/WellFormed that whole groups
// stay whole groups with nothing past them; in proofs/Examples the worked examples.
// Assumes nothing.
#![tactic(auto)]

ghost use Rattle.std.specs.Prelude.{◌≡◌, ◌≤◌, min, get_or};
ghost use Rattle.std.specs.Int.Bits.{bit_or};
ghost use Rattle.loops.specs.Count.{tab};
ghost use Rattle.cell_bitset.specs.CellWords.{cell_words};
ghost use Rattle.cell_bitset.specs.CellSet.{cell_limit, empty_set, held, with_cell, meets, holds_none, byte_upto, union, sized};

#[repr(C)]
#[derive(Clone, Copy)]
pub struct CellBitSet {
    // cell c is bit c % 8 of byte c / 8
    pub bytes: [u8; 64],
    // how many of the bytes are reserved, 8 for each group of 64 cells; they come first
    pub reserved: u32,
}

// The reserved bytes of a set, of which there are at most 64.
fn reserved_bytes(reserved: u32) -> usize
    ensures { result ≡ min reserved 64 }
{
    reserved.min(64) as usize
}

// The first n bytes as they are, the others 0.
fn cleared(mut bytes: [u8; 64], n: usize) -> [u8; 64]
    ensures { result ≡ tab (byte_upto n bytes) 64 }
{
    for i in n..64 {
        bytes[i] = 0;
    }
    bytes
}

// The bits of the first n bytes of `from` set in `bytes` too.
fn merged(mut bytes: [u8; 64], from: [u8; 64], n: usize) -> [u8; 64]
    requires { n ≤ 64 }
    ensures { result ≡ tab (λ i. bit_or (get_or bytes i 0) (byte_upto n from i)) 64 }
{
    for i in 0..n {
        bytes[i] |= from[i];
    }
    bytes
}

impl CellBitSet {
    pub const CELLS_PER_GROUP: u32 = 64;

    // Whole groups are reserved.
    pub fn new(num_cells: u32) -> Self
        requires { num_cells ≤ cell_limit }
        ensures { result ≡ empty_set num_cells }
    {
        let groups = (num_cells + 63) / CellBitSet::CELLS_PER_GROUP;
        Self {
            bytes: [0u8; 64],
            reserved: 8 * groups,
        }
    }

    // Grows, and never shrinks.
    pub fn ensure_sized(mut self, num_cells: u32) -> Self
        requires { num_cells ≤ cell_limit }
        ensures { result ≡ sized self num_cells }
    {
        let a = reserved_bytes(self.reserved);
        let wanted = CellBitSet::new(num_cells);
        self.bytes = cleared(self.bytes, a);
        self.reserved = a.max(wanted.reserved as usize) as u32;
        self
    }

    // A cell past the reserved groups is dropped.
    pub fn set_bit(mut self, cell: u32) -> Self
        ensures { result ≡ with_cell self cell }
    {
        let at = (cell / 8) as usize;
        if at < reserved_bytes(self.reserved) {
            self.bytes[at] |= 1u8 << (cell % 8);
        }
        self
    }

    pub fn get_bit(self, cell: u32) -> bool
        ensures { result ≡ held self cell }
    {
        let at = (cell / 8) as usize;
        at < reserved_bytes(self.reserved) && self.bytes[at] & (1u8 << (cell % 8)) != 0
    }

    // Stops at the shorter set; by the word.
    pub fn intersects(self, other: CellBitSet) -> bool
        ensures { result ≡ meets self other }
    {
        let a = reserved_bytes(self.reserved);
        let b = reserved_bytes(other.reserved);
        byte_words::share_bit(self.bytes, other.bytes, a.min(b))
    }

    // The words of the reserved bytes, eight in all; past them 0.
    pub fn words(self) -> [u64; 8]
        ensures { result ≡ cell_words self }
    {
        let n = reserved_bytes(self.reserved);
        byte_words::words_of(cleared(self.bytes, n))
    }

    pub fn union_with(mut self, other: CellBitSet) -> Self
        ensures { result ≡ union self other }
    {
        let a = reserved_bytes(self.reserved);
        let b = reserved_bytes(other.reserved);
        self.bytes = merged(cleared(self.bytes, a), other.bytes, b);
        self.reserved = a.max(b) as u32;
        self
    }

    pub fn is_empty(self) -> bool
        ensures { result ≡ holds_none self }
    {
        let end = reserved_bytes(self.reserved);
        let mut found: u8 = 0;
        for at in 0..end {
            found |= self.bytes[at];
        }
        found == 0
    }
}
