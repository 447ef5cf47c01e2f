// Text fields: the cut of a text, compared and written.
ghost use Rattle.std.specs.Prelude.{◌≡◌, [], length, drop};
ghost use Rattle.std.proofs.lemmas.List.Edits.{sets};
ghost use Rattle.fields.specs.Bytes.{part, same};
ghost use Rattle.fields.specs.Text.{cut, padded};

use crate::{copying, numbers, slices};

// The length of a text's cut: `end` is behind the last byte that is no space, and `spaces` follow it. (Both texts of a
// record are cut at each step over it: counting so takes less time than the places of `enumerate`.)
pub fn cut_length(text: &[u8]) -> usize
    ensures { result ≡ length (cut text.now) }
{
    let mut end = 0;
    let mut spaces = 0;
    for byte in text {
        if *byte == 0 {
            return end;
        }
        if *byte == 0x20 {
            spaces += 1;
        } else {
            end += spaces + 1;
            spaces = 0;
        }
    }
    end
}

// Whether the cut of a text's bytes from a place on is empty.
#[tactic(auto, using(crate::proofs::ByteLaws::from_place))]
fn is_over(text: &[u8], at: usize) -> bool
    ensures { result ≡ same (cut (drop at text.now)) [] }
{
    let rest = slices::part_at(text, at, text.len());
    for next in rest {
        if *next == 0 {
            return true;
        }
        if *next != 0x20 {
            return false;
        }
    }
    true
}

// Whether two texts have the same cut: where their next bytes differ, only if the cuts of both rests are empty.
pub fn same_cut(a: &[u8], b: &[u8]) -> bool
    ensures { result ≡ same (cut a.now) (cut b.now) }
{
    for (i, one) in a.iter().enumerate() {
        if *one != numbers::u8_at(b, i) {
            return is_over(a, i) && is_over(b, i);
        }
        if *one == 0 {
            return true;
        }
    }
    is_over(b, a.len())
}

// Writes the cut of the text in the `width` bytes at `from` of `source` into the field of `width` bytes at a place,
// padded with zeros.
pub fn put_text(dst: &mut [u8], at: usize, width: usize, source: &[u8], from: usize)
    ensures { dst.new
        ≡ sets dst.old at (padded width (cut (part from width source.now))) }
{
    if dst.len() <= at {
        return;
    }
    let text = slices::part_at(source, from, width);
    let n = cut_length(text);
    copying::copy(slices::part_at(text, 0, n), dst, at);
    slices::zero(dst, at + n, width - n);
}
