// The stored extremes: the largest and the smallest stored value of each axis.
ghost use Rattle.std.specs.Prelude.{◌≡◌};
ghost use Rattle.tally.specs.Extremes.{extremes_with};

use points::raw::Stored;
use scaling::Extremes;

// The extremes with one point more.
pub(crate) fn extended(e: Extremes, p: Stored) -> Extremes
    ensures { result ≡ extremes_with e p }
{
    Extremes {
        max_x: p.x.max(e.max_x),
        min_x: e.min_x.min(p.x),
        max_y: p.y.max(e.max_y),
        min_y: e.min_y.min(p.y),
        max_z: p.z.max(e.max_z),
        min_z: e.min_z.min(p.z),
    }
}
