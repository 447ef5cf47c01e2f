// Point format 1: the shared 20 bytes and GPS time.
ghost use Rattle.std.specs.Prelude.{refl};
ghost use Rattle.points.specs.Formats.{format_size};

use crate::formats::Format;

#[derive(Clone, Copy, Debug, PartialEq, Eq)]
pub struct Format1;

#[tactic(auto, unfolding(crate::specs::Formats::format_size, crate::specs::Formats::time_place, crate::specs::Formats::colour_place))]
impl Format for Format1 {
    ghost NUMBER = { 1 };

    ghost SIZE = { format_size 1 };

    ghost size_known = { refl };

    const NUMBER: u8 = 1;

    const SIZE: usize = 28;

    fn time_place() -> Option<usize> {
        Some(20)
    }

    fn colour_place() -> Option<usize> {
        None // no colour
    }
}
