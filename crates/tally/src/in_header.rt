// The fields of a header that a tally gives, written at their places: what has no room is left out.
ghost use Rattle.std.specs.Prelude.{◌≡◌, ◌∷◌};
ghost use Rattle.std.proofs.lemmas.List.Edits.{sets};
ghost use Rattle.fields.specs.Bytes.{numbers_bytes};
ghost use Rattle.publicpart.specs.Bounds.{bound_numbers};
ghost use Rattle.tally.specs.Bins.{bin_numbers};

use crate::Bins;
use fields::arrays::put_numbers;
use lasfile::header;
use scaling::Bounds;

// The number of points, and points by return.
pub fn put_counts(out: &mut [u8], points: u64, b: Bins)
    ensures { out.new ≡ sets out.old 107 (numbers_bytes 4 (points ∷ bin_numbers b)) }
{
    put_numbers(
        out,
        header::POINT_COUNT,
        4,
        &[points, b.first, b.second, b.third, b.fourth, b.fifth],
    );
}

// The bounds by their bits.
pub fn put_bounds(out: &mut [u8], b: Bounds)
    ensures { out.new ≡ sets out.old 179 (numbers_bytes 8 (bound_numbers b)) }
{
    put_numbers(
        out,
        header::BOUNDS,
        8,
        &[b.max_x, b.min_x, b.max_y, b.min_y, b.max_z, b.min_z],
    );
}
