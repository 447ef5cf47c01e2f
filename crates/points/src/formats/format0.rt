// Point format 0: the shared 20 bytes alone.
ghost use Rattle.std.specs.Prelude.{refl};
ghost use Rattle.points.specs.Formats.{format_size};

use crate::formats::Format;

#[derive(Clone, Copy, Debug, PartialEq, Eq)]
pub struct Format0;

#[tactic(auto, unfolding(crate::specs::Formats::format_size, crate::specs::Formats::time_place, crate::specs::Formats::colour_place))]
impl Format for Format0 {
    ghost NUMBER = { 0 };

    ghost SIZE = { format_size 0 };

    ghost size_known = { refl };

    const NUMBER: u8 = 0;

    const SIZE: usize = 20;

    fn time_place() -> Option<usize> {
        None // no GPS time
    }

    fn colour_place() -> Option<usize> {
        None // no colour
    }
}
