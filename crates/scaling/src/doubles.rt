// Doubles, their bits, and the coordinate of a stored value.
ghost use Rattle.std.specs.Prelude.{◌≡◌};
ghost use Rattle.std.specs.Float.{binary64};
ghost use Rattle.std.specs.Float.Ieee.{of_bits, to_bits};
ghost use Rattle.scaling.specs.Scaling.{coordinate_of, coordinate_bits};

use std::num::{f64_from_bits_with_nan, f64_to_bits_with_nan};

// The double with these bits. Every NaN pattern gives a NaN.
pub fn double_of(bits: u64) -> f64
    ensures { result ≡ of_bits binary64 bits }
{
    f64_from_bits_with_nan(bits)
}

// The bits of a double. Of a NaN they are 0x7ff8_0000_0000_0000.
// (This and `double_of` are the library's, said by IEEE 754's `to_bits` and `of_bits`.)
pub fn bits_of(x: f64) -> u64
    ensures { result ≡ to_bits binary64 x }
{
    f64_to_bits_with_nan(x)
}

// Stored value times scale, rounded once, plus offset, rounded once.
pub fn coordinate(stored: i32, scale: f64, offset: f64) -> f64
    ensures { result ≡ coordinate_of stored scale offset }
{
    (stored as f64) * scale + offset
}

// The coordinate, with scale, offset and result by their bits.
pub fn coordinate_bits(stored: i32, scale: u64, offset: u64) -> u64
    ensures { result ≡ coordinate_bits stored (of_bits binary64 scale) (of_bits binary64 offset) }
{
    bits_of(coordinate(stored, double_of(scale), double_of(offset)))
}
