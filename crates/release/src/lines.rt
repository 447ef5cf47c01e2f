// The lines of a lent list, one at a time.
ghost use Rattle.std.specs.Prelude.{◌≡◌, ◌<◌, length, set};
ghost use Rattle.publicpart.specs.Cutting.{span};

use publicpart::Span;

// Puts a line at that number.
pub(crate) fn put_line(list: &mut [Span], i: usize, place: u64, size: u64)
    requires { i < length list.old }
    ensures { list.new ≡ set list.old i (span place size) }
{
    list[i] = Span {
        place,
        length: size,
    };
}
