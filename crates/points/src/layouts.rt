// The layout of a point format by its number.
ghost use Rattle.std.specs.Prelude.{◌≡◌};
ghost use Rattle.points.specs.Formats.{layout_of};

use crate::formats::Format;
use crate::formats::format0::Format0;
use crate::formats::format1::Format1;
use crate::formats::format2::Format2;
use crate::formats::format3::Format3;

// A format's record size, and the places of GPS time and colour.
#[derive(Clone, Copy, Debug, PartialEq, Eq, Default)]
pub struct Layout {
    pub size: usize,
    pub time: Option<usize>,
    pub colour: Option<usize>,
}

// The highest number of a format.
pub const HIGHEST: u8 = 3;

impl Layout {
    #[tactic(auto, unfolding(crate::specs::Formats::layout_of))]
    fn of<F: Format>() -> Layout
        ensures { result ≡ layout_of F.NUMBER }
    {
        Layout {
            size: F::SIZE,
            time: F::time_place(),
            colour: F::colour_place(),
        }
    }
}

// The layout of a format by its number; size 0 and no places above the highest.
#[tactic(auto, using(crate::proofs::formats::FormatLaws::no_layout))]
pub fn layout_of(format: u8) -> Layout
    ensures { result ≡ layout_of format }
{
    match format {
        Format0::NUMBER => Layout::of::<Format0>(),
        Format1::NUMBER => Layout::of::<Format1>(),
        Format2::NUMBER => Layout::of::<Format2>(),
        Format3::NUMBER => Layout::of::<Format3>(),
        _ => Layout::default(),
    }
}
