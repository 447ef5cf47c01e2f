// Point format 2: the shared 20 bytes and colour.
ghost use Rattle.std.specs.Prelude.{refl};
ghost use Rattle.points.specs.Formats.{format_size};

use crate::formats::Format;

#[derive(Clone, Copy, Debug, PartialEq, Eq)]
pub struct Format2;

#[tactic(auto, unfolding(crate::specs::Formats::format_size, crate::specs::Formats::time_place, crate::specs::Formats::colour_place))]
impl Format for Format2 {
    ghost NUMBER = { 2 };

    ghost SIZE = { format_size 2 };

    ghost size_known = { refl };

    const NUMBER: u8 = 2;

    const SIZE: usize = 26;

    fn time_place() -> Option<usize> {
        None // no GPS time
    }

    fn colour_place() -> Option<usize> {
        Some(20)
    }
}
