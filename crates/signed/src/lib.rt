// signed: signed seconds, carried as the 32 bits of an i32 in a u32, as the lent tables hold them.
// Place: the foundation.
// Specs (a claim): what the bits mean is the language's own reading of an i32 (`to_z w32`); a time moved by signed seconds stops at 0.
// Proves: size, moved time and difference are those of the integers that the bits mean.
// Assumes nothing.
#![tactic(auto)]

ghost use Rattle.std.specs.Prelude.{◌≡◌, ◌<◌, pos, nat_abs, ◌+ℤ◌};
ghost use Rattle.std.proofs.Math.IntN.{sub_ℕ};
ghost use Rattle.signed.specs.Signed.{of_bits, floored, bits_of};

// The size of a signed number: 3 for 3 and for -3 (`unsigned_abs`).
pub fn size(bits: u32) -> u32
    ensures { result ≡ nat_abs (of_bits bits) }
{
    bits.cast_signed().unsigned_abs()
}

// A time moved by signed seconds, no lower than 0.
pub fn moved(time: u32, bits: u32) -> u32
    requires { time < 2147483648 }
    ensures { result ≡ floored (pos time +ℤ of_bits bits) }
{
    (i64::from(time) + i64::from(bits.cast_signed())).max(0) as u32
}

// a - b, as signed seconds.
pub fn difference(a: u32, b: u32) -> u32
    requires a_bound { a < 2147483648 }
    requires b_bound { b < 2147483648 }
    ensures { result ≡ bits_of (sub_ℕ a b) }
{
    (a.cast_signed() - b.cast_signed()).cast_unsigned()
}
