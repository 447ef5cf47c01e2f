// Numbers of one width, written back to back. What has no room is left out.
ghost use Rattle.std.specs.Prelude.{◌≡◌};
ghost use Rattle.std.proofs.lemmas.List.Edits.{sets};
ghost use Rattle.fields.specs.Bytes.{numbers_bytes};

use crate::numbers::{least, put_number};

// Writes each number into `width` bytes, the first at a place. A place past the end is taken as the end, so that the
// sum of place and width stays in range.
pub fn put_numbers(out: &mut [u8], at: usize, width: usize, numbers: &[u64])
    ensures { out.new ≡ sets out.old at (numbers_bytes width numbers.now) }
{
    let mut to = least(at, out.len());
    for number in numbers {
        put_number(out, to, width, *number);
        to += least(width, out.len() - to);
    }
}
