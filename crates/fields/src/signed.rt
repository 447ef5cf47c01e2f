// Numbers in two's complement, out of the bytes at a place. Bytes past the end count as 0.
ghost use Rattle.std.specs.Prelude.{◌≡◌, get_or};
ghost use Rattle.std.specs.Int.{w8, w32};
ghost use Rattle.std.proofs.Common.{to_z};
ghost use Rattle.fields.specs.Bytes.{num, part};

// The byte at a place as a signed number.
pub fn i8_at(s: &[u8], at: usize) -> i8
    ensures { result ≡ to_z w8 (get_or s.now at 0) }
{
    crate::numbers::u8_at(s, at).cast_signed()
}

// The four bytes at a place as a signed number.
pub fn i32_at(s: &[u8], at: usize) -> i32
    ensures { result ≡ to_z w32 (num (part at 4 s.now)) }
{
    (crate::numbers::number_at(s, at, 4) as u32).cast_signed()
}
