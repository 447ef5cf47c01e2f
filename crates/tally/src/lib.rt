// Counts, bins and bounds of points.
#![tactic(auto)]

mod by_return;
mod extremes;
pub mod in_header;

ghost use Rattle.std.specs.Prelude.{◌≡◌, ◌*◌, ◌^◌, ◌<◌, ◌≤◌, length};
ghost use mathlib.Core.List.{foldl};
ghost use Rattle.fields.specs.Bytes.{pieces};
ghost use Rattle.points.specs.Raw.{points_of};
ghost use Rattle.tally.specs.Bins.{one_among_zeros, BinsUpTo};
ghost use Rattle.tally.specs.Tally.{no_tally, tally_with, tallied, tally_more, counts_fit, CountsUpTo};
ghost use Rattle.tally.specs.Tally.{tally_bounds};

use points::raw;
use points::raw::Stored;
use scaling::{Bounds, Extremes, Scaling};

// How many points have the return numbers 1 to 5.
#[derive(Clone, Copy, Debug, Default, PartialEq, Eq)]
pub struct Bins {
    pub first: u64,
    pub second: u64,
    pub third: u64,
    pub fourth: u64,
    pub fifth: u64,
}

// The number of points, points by return, and the extremes of the stored coordinates.
#[derive(Clone, Copy, Debug, PartialEq, Eq)]
pub struct Tally {
    pub count: u64,
    pub bins: Bins,
    pub extremes: Extremes,
}

// The tally before any point.
#[tactic(auto, unfolding(crate::specs::Tally::no_tally, crate::specs::Extremes::no_extremes))]
pub fn fresh() -> Tally
    ensures { result ≡ no_tally }
{
    Tally {
        count: 0,
        bins: Bins::default(),
        extremes: Extremes {
            max_x: i32::MIN,
            min_x: i32::MAX,
            max_y: i32::MIN,
            min_y: i32::MAX,
            max_z: i32::MIN,
            min_z: i32::MAX,
        },
    }
}

// Whether no count is above what the 4 bytes of a LAS 1.2 header hold.
fn counts_fit(t: Tally) -> bool
    ensures { result ≡ counts_fit t }
{
    (t.count <= by_return::LARGEST) & by_return::bins_fit(t.bins)
}

// The tally with one point more, which adds `one` to the bins.
fn with_point(t: Tally, one: Bins, p: Stored) -> Tally
    requires { CountsUpTo t (2 ^ 33) × BinsUpTo one 1 }
    ensures { result ≡ tally_with t one p }
{
    Tally {
        count: t.count + 1,
        bins: by_return::binned(t.bins, one),
        extremes: extremes::extended(t.extremes, p),
    }
}

// The thin function: the tally is lent, and one point is added in place.
fn count_point(t: &mut Tally, one: Bins, p: Stored)
    requires { CountsUpTo t.old (2 ^ 33) × BinsUpTo one 1 }
    ensures { t.new ≡ tally_with t.old one p }
{
    *t = with_point(*t, one, p);
}

// A tally of one's own, lent for one point.
fn step(t: Tally, one: Bins, p: Stored) -> Tally
    requires { CountsUpTo t (2 ^ 33) × BinsUpTo one 1 }
    ensures { result ≡ tally_with t one p }
{
    let mut u = t;
    count_point(&mut u, one, p);
    u
}

// The tally with the point of these bytes.
fn add_point(t: Tally, ones: &[u64; 12], format: u8, point: &[u8]) -> Tally
    requires { CountsUpTo t (2 ^ 33) × (ones.now ≡ one_among_zeros) }
    ensures { result ≡ tallied format t point.now }
{
    let one = by_return::one_in(ones, raw::return_of(format, point));
    step(t, one, raw::stored_of(point))
}

// The tally with the points of a run that holds them all.
#[tactic(auto, using(crate::proofs::RunLaws::running))]
fn tally_run(t: Tally, run: &[u8], format: u8, record_length: usize, count: usize) -> Tally
    requires { (count < 2 ^ 32) × (count * record_length ≤ length run.now) × CountsUpTo t (2 ^ 32) }
    ensures { result ≡ foldl (tallied format) t (pieces count record_length run.now) }
{
    let ones = by_return::one_among_zeros();
    let mut tally = t;
    let mut rest = run;
    for _i in 0..count {
        let (point, behind) = rest.split_at(record_length);
        tally = add_point(tally, &ones, format, point);
        rest = behind;
    }
    tally
}

// The tally with the first `count` records of `run`, points of a format, `record_length` bytes each; as it is where the
// run does not hold them, or where a count is above what a LAS 1.2 header holds.
pub fn tally_more(t: Tally, run: &[u8], format: u8, record_length: usize, count: usize) -> Tally
    ensures { result ≡ tally_more format t (points_of count record_length run.now) }
{
    if counts_fit(t) & raw::holds(run.len(), record_length, count) {
        return tally_run(t, run, format, record_length, count);
    }
    t
}

// The bits of the bounds: of the coordinates of the extremes, or of +0.0 where there is no point.
pub fn tally_bounds(t: Tally, s: Scaling) -> Bounds
    ensures { result ≡ tally_bounds t s }
{
    if t.count == 0 {
        return Bounds::default();
    }
    s.bounds_of(t.extremes)
}
