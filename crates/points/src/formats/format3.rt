// Point format 3: the shared 20 bytes, GPS time and colour.
ghost use Rattle.std.specs.Prelude.{refl};
ghost use Rattle.points.specs.Formats.{format_size};

use crate::formats::Format;

#[derive(Clone, Copy, Debug, PartialEq, Eq)]
pub struct Format3;

#[tactic(auto, unfolding(crate::specs::Formats::format_size, crate::specs::Formats::time_place, crate::specs::Formats::colour_place))]
impl Format for Format3 {
    ghost NUMBER = { 3 };

    ghost SIZE = { format_size 3 };

    ghost size_known = { refl };

    const NUMBER: u8 = 3;

    const SIZE: usize = 34;

    fn time_place() -> Option<usize> {
        Some(20)
    }

    fn colour_place() -> Option<usize> {
        Some(28)
    }
}
