// Copying bytes, 16 at a time. `copy` leaves out what has no room, `copy_whole` all of it where there is not room for
// all.
ghost use Rattle.std.specs.Prelude.{◌≡◌, cond, ◌+◌, ◌≤◌, leb, length, drop};
ghost use Rattle.std.proofs.Math.Seq.{paste};
ghost use Rattle.std.proofs.lemmas.List.Edits.{sets};

// Copies n bytes, one by one: the library's copy of a length that is not known is a call of C's memmove, which a
// static library would need from outside.
// (The functions of this file are no twins: three copy fewer than 16 bytes, 16 to 32 and more, by `copy_16`;
// `copy_all` picks one; `copy_whole` and `copy` differ in what they do without room. Bytes and places stay
// parameters of their own, and what must be there is asked: it is of two slices, and these two make sure of it.)
fn copy_bytes(src: &[u8], n: usize, dst: &mut [u8], at: usize)
    requires { (n ≤ length src.now) × (at + n ≤ length dst.old) }
    ensures { dst.new ≡ paste dst.old at src.now n }
{
    for i in 0..n {
        dst[at + i] = src[i];
    }
}

// Copies 16 bytes. All are read before the first is written, so that the compiler moves them at once.
fn copy_16(src: &[u8], from: usize, dst: &mut [u8], at: usize)
    requires { (from + 16 ≤ length src.now) × (at + 16 ≤ length dst.old) }
    ensures { dst.new ≡ paste dst.old at (drop from src.now) 16 }
{
    let mut block = [0u8; 16];
    let next = from + 16;
    block.copy_from_slice(&src[from..next]);
    let end = at + 16;
    dst[at..end].copy_from_slice(&block);
}

// Copies 16 bytes or more, 16 at a time. The last 16 may overlap those before them, so that chunks
// do not fit. (A `for` over `(0..last).step_by(16)` has two ways out, which the proof does not have yet.)
fn copy_blocks(src: &[u8], n: usize, dst: &mut [u8], at: usize)
    requires { (16 ≤ n) × (n ≤ length src.now) × (at + n ≤ length dst.old) }
    ensures { dst.new ≡ paste dst.old at src.now n }
{
    let last = n - 16;
    let mut i = 0;
    while i < last {
        copy_16(src, i, dst, at + i);
        i += 16;
    }
    copy_16(src, last, dst, at + last);
}

// Copies 16 to 32 bytes as two blocks, which may overlap.
fn copy_two(src: &[u8], n: usize, dst: &mut [u8], at: usize)
    requires { (16 ≤ n) × (n ≤ 32) × (n ≤ length src.now) × (at + n ≤ length dst.old) }
    ensures { dst.new ≡ paste dst.old at src.now n }
{
    copy_16(src, 0, dst, at);
    let last = n - 16;
    copy_16(src, last, dst, at + last);
}

// Copies all of src where dst has room for it.
fn copy_all(src: &[u8], dst: &mut [u8], at: usize)
    requires { at + length src.now ≤ length dst.old }
    ensures { dst.new ≡ sets dst.old at src.now }
{
    let n = src.len();
    if n < 16 {
        copy_bytes(src, n, dst, at);
    } else if n <= 32 {
        copy_two(src, n, dst, at);
    } else {
        copy_blocks(src, n, dst, at);
    }
}

// Copies src over dst from a place on, where dst has room for all of it; else nothing. In a loop over records of one
// length this is faster than `copy`: the tests of the length are made once.
pub fn copy_whole(src: &[u8], dst: &mut [u8], at: usize)
    ensures { dst.new
        ≡ cond (leb (at + length src.now) (length dst.old))
        (sets dst.old at src.now) dst.old }
{
    if crate::numbers::fits_in(dst.len(), at, src.len()) {
        copy_all(src, dst, at);
    }
}

// Copies src over dst from a place on.
pub fn copy(src: &[u8], dst: &mut [u8], at: usize)
    ensures { dst.new ≡ sets dst.old at src.now }
{
    if dst.len() <= at {
        return;
    }
    let n = crate::numbers::least(src.len(), dst.len() - at);
    copy_all(&src[..n], dst, at);
}
