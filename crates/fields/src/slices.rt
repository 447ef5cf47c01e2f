// Runs of bytes: parts, comparing and zeroing. What would lie past the end is left out.
ghost use Rattle.std.specs.Prelude.{◌≡◌};
ghost use Rattle.std.proofs.lemmas.List.Edits.{sets};
ghost use Rattle.fields.specs.Bytes.{part, same, zeros};

// The n bytes from a place on, or those of them that there are.
pub fn part_at(s: &[u8], at: usize, n: usize) -> &[u8]
    ensures { result.now ≡ part at n s.now }
{
    if s.len() <= at {
        return &s[..0];
    }
    if n <= s.len() - at {
        let end = at + n;
        &s[at..end]
    } else {
        &s[at..]
    }
}

// Whether two runs are the same. (The library's, with `same` for its answer.)
pub fn same_bytes(a: &[u8], b: &[u8]) -> bool
    ensures { result ≡ same a.now b.now }
{
    a == b
}

// Zeroes n bytes from a place on, one by one: the library's `fill` writes the last byte by itself, so that each text of
// a record takes a store beside its call of C's memset.
#[tactic(auto, using(crate::proofs::StoreLaws::zeroing))]
pub fn zero(dst: &mut [u8], at: usize, n: usize)
    ensures { dst.new ≡ sets dst.old at (zeros n) }
{
    if dst.len() <= at {
        return;
    }
    let end = at + crate::numbers::least(n, dst.len() - at);
    for i in at..end {
        dst[i] = 0;
    }
}
