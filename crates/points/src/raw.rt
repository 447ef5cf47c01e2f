// What is read off the bytes of point records by themselves: whether a run holds its records, and a record's class,
// flags, return number and stored coordinates. Formats 0 to 3 have each field in one place, so that `format` is not
// looked at yet. Bytes past the end count as 0.
ghost use Rattle.std.specs.Prelude.{◌≡◌};
ghost use Rattle.points.specs.Raw.{class_in, synthetic_in, key_point_in, withheld_in, class_byte, return_of, stored_of, in_run};

use fields::numbers::u8_at;
use fields::signed;

// The places of the byte with the return number, and of the classification byte.
pub(crate) const RETURNS: usize = 14;

pub(crate) const CLASSIFICATION: usize = 15;

// The size of the shortest format's records, and a number of records that no LAS 1.2 header can count.
pub const SHORTEST: usize = 20;

const TOO_MANY: usize = 4294967296;

// The stored X, Y and Z of a point. (Not one generic type with `scaling::Coordinates`: names say which is meant.)
#[derive(Clone, Copy, Debug, PartialEq, Eq)]
pub struct Stored {
    pub x: i32,
    pub y: i32,
    pub z: i32,
}

// What a classification byte says: the class, and three flags.
#[tactic(auto, unfolding(crate::specs::Raw::class_in, crate::specs::Raw::bits))]
pub fn class_in(format: u8, byte: u8) -> u8
    ensures { result ≡ class_in format byte }
{
    byte % 32
}

// (Three flags, and not one function of a bit: each name is one of LAS 1.2, and each body one line.)
#[tactic(auto, unfolding(crate::specs::Raw::synthetic_in, crate::specs::Raw::bit, crate::specs::Raw::bits))]
pub fn synthetic_in(format: u8, byte: u8) -> bool
    ensures { result ≡ synthetic_in format byte }
{
    byte / 32 % 2 == 1
}

#[tactic(auto, unfolding(crate::specs::Raw::key_point_in, crate::specs::Raw::bit, crate::specs::Raw::bits))]
pub fn key_point_in(format: u8, byte: u8) -> bool
    ensures { result ≡ key_point_in format byte }
{
    byte / 64 % 2 == 1
}

#[tactic(auto, unfolding(crate::specs::Raw::withheld_in, crate::specs::Raw::bit, crate::specs::Raw::bits))]
pub fn withheld_in(format: u8, byte: u8) -> bool
    ensures { result ≡ withheld_in format byte }
{
    byte / 128 % 2 == 1
}

// (Format and point stay two: the bytes of a point do not say their format.)
#[tactic(auto, unfolding(crate::specs::Raw::class_byte))]
pub fn class_byte(format: u8, point: &[u8]) -> u8
    ensures { result ≡ class_byte format point.now }
{
    u8_at(point, CLASSIFICATION)
}

#[tactic(auto, unfolding(crate::specs::Raw::return_of, crate::specs::Raw::bits))]
pub fn return_of(format: u8, point: &[u8]) -> u8
    ensures { result ≡ return_of format point.now }
{
    u8_at(point, RETURNS) % 8
}

// The same in every format.
pub fn stored_of(point: &[u8]) -> Stored
    ensures { result ≡ stored_of point.now }
{
    Stored {
        x: signed::i32_at(point, 0),
        y: signed::i32_at(point, 4),
        z: signed::i32_at(point, 8),
    }
}

// Whether `count` records of `record_length` bytes lie in `size` bytes. A point record has 20 bytes or more, and there
// are fewer than 2^32 of them.
#[tactic(auto, unfolding(crate::specs::Raw::in_run))]
pub fn holds(size: usize, record_length: usize, count: usize) -> bool
    ensures { result ≡ in_run count record_length size }
{
    if record_length < SHORTEST {
        return false;
    }
    (count < TOO_MANY) & (count <= size / record_length)
}
