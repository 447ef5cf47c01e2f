// A run of points in blocks: 64 records each, and last as many as are left. So many records, and what is said of them,
// stay in the first-level cache between one look at them and the next.
ghost use Rattle.std.specs.Prelude.{◌≡◌, MatchOption};
ghost use Rattle.std.specs.Iterator.{at_most};
ghost use Rattle.release.specs.Blocks.{TakesBlock};

use crate::run::Points;

// How many records are looked at before the kept ones among them are copied.
pub(crate) const BLOCK: usize = 64;

// (Clone and Copy alone: nothing compares or prints it.)
#[derive(Clone, Copy)]
pub(crate) struct Blocks<'a> {
    pub(crate) rest: Points<'a>,
}

impl<'a> Iterator for Blocks<'a> {
    type Item = Points<'a>;

    ghost remaining = { λ s. at_most s.rest.count };

    ghost next_gives = { λ s r t. MatchOption r (s.rest.count ≡ 0) (λ block. TakesBlock s.rest block t.rest) };

    fn next(&mut self) -> Option<Points<'a>> {
        let points = self.rest;
        if points.count == 0 {
            return None;
        }
        let (block, rest) = points.split_at(points.count.min(BLOCK));
        self.rest = rest;
        Some(block)
    }
}
