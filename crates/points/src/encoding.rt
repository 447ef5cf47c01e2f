// A point's fields into the bytes of a record.
ghost use Rattle.std.specs.Prelude.{◌≡◌, ℕ, ◌+◌, ◌≤◌, length, Some};
ghost use Rattle.fields.specs.Bytes.{bytes_of, join};
ghost use Rattle.fields.specs.Checks.{fails};
ghost use Rattle.fields.specs.Refusals.{verdict_of};
ghost use Rattle.points.specs.Formats.{format_size};
ghost use Rattle.points.specs.Encoding.{colours, large, stored_at, with_others, encoded};

use crate::{Point, common, layouts};
use fields::refusal::Refusal;

// Red, green and blue as one number of 6 bytes.
#[tactic(auto, using(crate::proofs::common::PackedLaws::bytes_three), unfolding(crate::specs::Encoding::colours))]
fn colour_of(point: Point) -> u64
    ensures { bytes_of 6 result ≡ join (colours point) }
{
    u64::from(point.red) + 65536 * u64::from(point.green) + 4294967296 * u64::from(point.blue)
}

// Writes a number at a place, if the format has it. That there is room is asked once more, as in `time_in`.
#[tactic(auto, unfolding(crate::specs::Encoding::stored_at))]
fn put_at(room: &mut [u8], place: Option<usize>, width: usize, n: u64)
    requires { (at : ℕ) → place ≡ Some at → at + width ≤ length room.old }
    ensures { room.new ≡ stored_at place (bytes_of width n) room.old }
{
    if let Some(at) = place
        && fields::numbers::fits_in(room.len(), at, width)
    {
        fields::numbers::put_number(room, at, width, n);
    }
}

// Writes GPS time and colour, those that the format has.
fn put_others(room: &mut [u8], format: u8, point: Point)
    requires { (format ≤ 3) × (format_size format ≤ length room.old) }
    ensures { room.new ≡ with_others format point room.old }
{
    let layout = layouts::layout_of(format);
    put_at(room, layout.time, 8, point.gps_time);
    put_at(room, layout.colour, 6, colour_of(point));
}

// Whether a field is too large to encode.
fn is_large(format: u8, point: Point) -> bool
    ensures { result ≡ fails (large format point) }
{
    (7 < point.return_number) | ((7 < point.returns) | (31 < point.classification))
}

// Writes a point's fields into a room of the record length. The bytes behind the format's size stay. What all formats
// share comes last: the other fields need not be kept until it is written.
pub fn encode(format: u8, record_length: u16, point: Point, room: &mut [u8]) -> Result<(), Refusal>
    ensures { (verdict_of result, room.new) ≡ encoded format record_length point room.old }
{
    if !crate::has_shape(format, record_length, room.len()) {
        return Err(Refusal::BadShape);
    }
    if is_large(format, point) {
        return Err(Refusal::FieldTooLarge);
    }
    put_others(room, format, point);
    common::put_shared(room, format, point);
    Ok(())
}
