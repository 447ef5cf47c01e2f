// The fields that all point formats share, into the first 20 bytes of a record.
ghost use Rattle.std.specs.Prelude.{◌≡◌, drop, ℕ};
ghost use Rattle.std.proofs.lemmas.List.Edits.{sets};
ghost use Rattle.fields.specs.Bytes.{bytes_of, join};
ghost use Rattle.points.specs.Encoding.{flag_byte, joined_class, shared_fields};

use crate::Point;
use crate::raw::{CLASSIFICATION, RETURNS};

// The byte at 14.
#[tactic(auto, using(crate::proofs::FieldLaws::flag_le), unfolding(crate::specs::Encoding::flag_byte))]
fn flag_byte(point: Point) -> u64
    ensures { result ≡ flag_byte point }
{
    u64::from(point.return_number)
        + 8 * u64::from(point.returns)
        + 64 * u64::from(point.scan_direction)
        + 128 * u64::from(point.edge)
}

// The classification byte.
#[tactic(auto, using(crate::proofs::FieldLaws::flag_le), unfolding(crate::specs::Encoding::joined_class))]
fn joined_class(format: u8, point: Point) -> u64
    ensures { result ≡ joined_class format point }
{
    u64::from(point.classification)
        + 32 * u64::from(point.synthetic)
        + 64 * u64::from(point.key_point)
        + 128 * u64::from(point.withheld)
}

// Scan angle, user data and source ID as one number of 4 bytes, so that fewer numbers wait to be written. They are the
// same in every format.
fn last_of(point: Point) -> u64
    ensures { (f : ℕ) → bytes_of 4 result ≡ join (drop 6 (shared_fields f point)) }
{
    u64::from(point.scan_angle.cast_unsigned())
        + 256 * u64::from(point.user_data)
        + 65536 * u64::from(point.source_id)
}

// Writes the fields that all formats share.
pub(crate) fn put_shared(room: &mut [u8], format: u8, point: Point)
    ensures { room.new ≡ sets room.old 0 (join (shared_fields format point)) }
{
    fields::numbers::put_number(room, 0, 4, u64::from(point.x.cast_unsigned()));
    fields::numbers::put_number(room, 4, 4, u64::from(point.y.cast_unsigned()));
    fields::numbers::put_number(room, 8, 4, u64::from(point.z.cast_unsigned()));
    fields::numbers::put_number(room, 12, 2, u64::from(point.intensity));
    fields::numbers::put_number(room, RETURNS, 1, flag_byte(point));
    fields::numbers::put_number(room, CLASSIFICATION, 1, joined_class(format, point));
    fields::numbers::put_number(room, 16, 4, last_of(point));
}
