// The five bins: what one point adds to them.
ghost use Rattle.std.specs.Prelude.{◌≡◌, ◌^◌, ◌<◌, ◌≤◌, eqb};
ghost use mir.Val.{bool_byte};
ghost use Rattle.tally.specs.Bins.{one_among_zeros, one_in, bins_with, bins_fit, BinsUpTo};

use crate::Bins;

// The largest number that 4 bytes hold.
pub(crate) const LARGEST: u64 = 4294967295;

// Twelve numbers, of which number 5 is 1 and the others are 0. They are made once for many points: a look-up in them
// costs less than to compare a return number with a bin's. (Lent, and no constant in place: with that the point pass
// took 1.25 times as long. That they are these is asked: a type that holds it would have one value.)
pub(crate) fn one_among_zeros() -> [u64; 12]
    ensures { result ≡ one_among_zeros }
{
    [0, 0, 0, 0, 0, 1, 0, 0, 0, 0, 0, 0]
}

// What a point of return number n adds to a bin: n + 5 - bin is 5 exactly where they are equal.
fn added(ones: &[u64; 12], n: u8, bin: usize) -> u64
    requires { (ones.now ≡ one_among_zeros) × (n < 8) × (1 ≤ bin) × (bin ≤ 5) }
    ensures { result ≡ bool_byte (eqb n bin) }
{
    ones[usize::from(n) + 5 - bin]
}

// What it adds to all five.
pub(crate) fn one_in(ones: &[u64; 12], n: u8) -> Bins
    requires { (ones.now ≡ one_among_zeros) × (n < 8) }
    ensures { result ≡ one_in n }
{
    Bins {
        first: added(ones, n, 1),
        second: added(ones, n, 2),
        third: added(ones, n, 3),
        fourth: added(ones, n, 4),
        fifth: added(ones, n, 5),
    }
}

// The bins with one point more.
// (Here and in the steps of a tally numbers are asked to be small, and no type holds it: `tally_more` takes a tally of
// any numbers, and is open to callers; and `one` is a `Bins` like any other, made by `one_in`.)
pub(crate) fn binned(b: Bins, one: Bins) -> Bins
    requires { BinsUpTo b (2 ^ 33) × BinsUpTo one 1 }
    ensures { result ≡ bins_with b one }
{
    Bins {
        first: b.first + one.first,
        second: b.second + one.second,
        third: b.third + one.third,
        fourth: b.fourth + one.fourth,
        fifth: b.fifth + one.fifth,
    }
}

// Whether no bin is above what 4 bytes hold.
pub(crate) fn bins_fit(b: Bins) -> bool
    ensures { result ≡ bins_fit b }
{
    (b.first <= LARGEST)
        & (b.second <= LARGEST)
        & (b.third <= LARGEST)
        & (b.fourth <= LARGEST)
        & (b.fifth <= LARGEST)
}
