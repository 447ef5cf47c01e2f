// Little-endian numbers of any width up to 8 bytes, read and written at any place. Bytes past the end read as 0 and are
// not written.
ghost use Rattle.std.specs.Prelude.{◌≡◌, ◌+◌, ◌-◌, ◌*◌, ◌^◌, ◌≤◌, ◌<◌, min, leb, length, get_or};
ghost use Rattle.std.proofs.lemmas.List.Edits.{sets};
ghost use Rattle.fields.specs.Bytes.{part, num, bytes_of};

use crate::slices::part_at;

// Whether n bytes from a place on end by `length`. The sum of place and n is one of whole numbers: it cannot wrap.
pub fn fits_in(length: usize, at: usize, n: usize) -> bool
    ensures { result ≡ leb (at + n) length }
{
    if at <= length {
        n <= length - at
    } else {
        false
    }
}

// The smaller of the two.
// (The library's, under the name of old and with one fact, which proofs cite.)
pub fn least(a: usize, b: usize) -> usize
    ensures { result ≡ min a b }
{
    a.min(b)
}

// The byte at a place.
// (The library's `get`, with 0 past the end.)
pub fn u8_at(s: &[u8], at: usize) -> u8
    ensures { result ≡ get_or s.now at 0 }
{
    s.get(at).copied().unwrap_or(0)
}

// The number of at most 8 bytes, the lowest first.
#[tactic(auto, using(crate::proofs::numbers::WordLaws::read_word))]
fn number_of(bytes: &[u8]) -> u64
    requires { length bytes.now ≤ 8 }
    ensures { result ≡ num bytes.now }
{
    let mut word = [0; 8];
    word[..bytes.len()].copy_from_slice(bytes);
    u64::from_le_bytes(word)
}

// The same byte by byte, the highest first: where bytes are missing, a caller is to need no call.
#[tactic(auto, using(crate::proofs::numbers::WordLaws::by_bytes))]
fn number_by_bytes(bytes: &[u8]) -> u64
    requires { length bytes.now ≤ 8 }
    ensures { result ≡ num bytes.now }
{
    let mut number = 0;
    for i in (0..bytes.len()).rev() {
        number = 256 * number + u64::from(bytes[i]);
    }
    number
}

// The number of the `width` bytes at a place; of the first 8 where there are more. Whether all are there is asked
// first: the width is then a constant where the caller's is.
// (Bytes, place and width stay three parameters: they meet for one call, here and at all who call it.)
#[tactic(auto, using(crate::proofs::ByteLaws::reading), unfolding(crate::specs::Bytes::part))]
pub fn number_at(s: &[u8], at: usize, width: usize) -> u64
    ensures { (result ≡ num (part at (min width 8) s.now)) × (result < 256 ^ min width 8) }
{
    let w = least(width, 8);
    if fits_in(s.len(), at, w) {
        let end = at + w;
        number_of(&s[at..end])
    } else {
        number_by_bytes(part_at(s, at, w))
    }
}

// Fills bytes with those of a number, the lowest first; behind its 8 come zeros.
#[tactic(auto, using(crate::proofs::numbers::WordLaws::written))]
fn write_number(bytes: &mut [u8], n: u64)
    ensures { bytes.new ≡ bytes_of (length bytes.old) n }
{
    let word = n.to_le_bytes();
    let low = least(bytes.len(), 8);
    bytes[..low].copy_from_slice(&word[..low]);
    bytes[low..].fill(0);
}

// Writes as many of the lowest bytes of a number as there is room for at a place.
#[cold]
#[inline(never)]
#[tactic(auto, using(crate::proofs::numbers::WordLaws::numbering))]
fn put_short(s: &mut [u8], at: usize, n: u64)
    ensures { s.new ≡ sets s.old at (bytes_of (length s.old - at) n) }
{
    if at < s.len() {
        write_number(&mut s[at..], n);
    }
}

// Writes a number into the `width` bytes at a place. Whether there is room for all is asked first, as above.
#[tactic(auto, using(crate::proofs::numbers::WordLaws::numbering))]
pub fn put_number(s: &mut [u8], at: usize, width: usize, n: u64)
    ensures { s.new ≡ sets s.old at (bytes_of width n) }
{
    if fits_in(s.len(), at, width) {
        let end = at + width;
        write_number(&mut s[at..end], n);
    } else {
        put_short(s, at, n);
    }
}
