// Point records: the formats, decoding and encoding.
#![tactic(auto)]

mod common;
pub mod encoding;
pub mod formats;
pub mod layouts;
pub mod raw;

ghost use Rattle.std.specs.Prelude.{◌≡◌, ℕ, ◌+◌, ◌≤◌, length, not, Some};
ghost use Rattle.fields.specs.Bytes.{num, part};
ghost use Rattle.fields.specs.Checks.{fails};
ghost use Rattle.fields.specs.Refusals.{by_number};
ghost use Rattle.points.specs.Points.{Fields, Refused, number_in, shape, point_of, decoded};
ghost use Rattle.points.specs.Encoding.{blank};

use fields::refusal::Refusal;
use fields::signed;

// A point's fields. GPS time is its 64 bits, and the last three are flags of the classification byte.
#[derive(Clone, Copy, Debug, PartialEq, Eq, Default)]
pub struct Point {
    pub x: i32,
    pub y: i32,
    pub z: i32,
    pub intensity: u16,
    pub return_number: u8,
    pub returns: u8,
    pub scan_direction: bool,
    pub edge: bool,
    pub classification: u8,
    pub scan_angle: i8,
    pub user_data: u8,
    pub source_id: u16,
    pub gps_time: u64,
    pub red: u16,
    pub green: u16,
    pub blue: u16,
    pub synthetic: bool,
    pub key_point: bool,
    pub withheld: bool,
}

fn u16_at(s: &[u8], at: usize) -> u16
    ensures { result ≡ num (part at 2 s.now) }
{
    fields::numbers::number_at(s, at, 2) as u16
}

// GPS time; 0 where the format lacks it. That the record holds it is asked once more here: it shows the compiler that
// no byte is missing.
#[tactic(auto, unfolding(crate::specs::Points::number_in))]
fn time_in(s: &[u8], place: Option<usize>) -> u64
    requires { (at : ℕ) → place ≡ Some at → at + 8 ≤ length s.now }
    ensures { result ≡ number_in 8 place 0 s.now }
{
    match place {
        Some(at) if fields::numbers::fits_in(s.len(), at, 8) => {
            fields::numbers::number_at(s, at, 8)
        }
        _ => 0,
    }
}

#[derive(Clone, Copy, Debug, PartialEq, Eq, Default)]
struct Colour {
    red: u16,
    green: u16,
    blue: u16,
}

// Red, green and blue; 0 where the format lacks them. The record is asked as for GPS time, once for all three: a test
// for each makes `decode` longer.
#[tactic(auto, unfolding(crate::specs::Points::number_in))]
fn colour_in(s: &[u8], place: Option<usize>) -> Colour
    requires { (at : ℕ) → place ≡ Some at → at + 6 ≤ length s.now }
    ensures { (result.red ≡ number_in 2 place 0 s.now)
        × (result.green ≡ number_in 2 place 2 s.now)
        × (result.blue ≡ number_in 2 place 4 s.now) }
{
    match place {
        Some(at) if fields::numbers::fits_in(s.len(), at, 6) => Colour {
            red: u16_at(s, at),
            green: u16_at(s, at + 2),
            blue: u16_at(s, at + 4),
        },
        _ => Colour::default(),
    }
}

// The fields of a record that all formats share; the others, which format 0 lacks, are 0.
#[inline(always)]
fn shared_of(format: u8, s: &[u8]) -> Point
    ensures { result ≡ blank 0 (point_of format s.now) }
{
    let stored = raw::stored_of(s);
    let flags = fields::numbers::u8_at(s, raw::RETURNS);
    let class_byte = raw::class_byte(format, s);
    Point {
        x: stored.x,
        y: stored.y,
        z: stored.z,
        intensity: u16_at(s, 12),
        return_number: raw::return_of(format, s),
        returns: flags / 8 % 8,
        scan_direction: flags / 64 % 2 == 1,
        edge: flags / 128 % 2 == 1,
        classification: raw::class_in(format, class_byte),
        scan_angle: signed::i8_at(s, 16),
        user_data: fields::numbers::u8_at(s, 17),
        source_id: u16_at(s, 18),
        synthetic: raw::synthetic_in(format, class_byte),
        key_point: raw::key_point_in(format, class_byte),
        withheld: raw::withheld_in(format, class_byte),
        ..Point::default()
    }
}

// Whether n bytes are the record length, and that length and the format can be. The last part follows from the others:
// it shows the compiler that the fields that all formats share are there.
pub(crate) fn has_shape(format: u8, record_length: u16, n: usize) -> bool
    ensures { result ≡ not (fails (shape format record_length n)) }
{
    let size = layouts::layout_of(format).size;
    let len = usize::from(record_length);
    (n == len) & (size <= len) & (format <= layouts::HIGHEST) & (raw::SHORTEST <= n)
}

// The fields of a point record, or 12. It is inlined with `shared_of`, so that the fields go to where its caller has
// them and not through memory first; the shared fields are read before the others, which takes less time than behind
// them.
// (Format and record length stay two numbers: C gives both, and 12 says that they do not go together.)
#[inline(always)]
pub fn decode(format: u8, record_length: u16, bytes: &[u8]) -> Result<Point, Refusal>
    ensures { by_number Fields Refused result ≡ decoded format record_length bytes.now }
{
    if !has_shape(format, record_length, bytes.len()) {
        return Err(Refusal::BadShape);
    }
    let layout = layouts::layout_of(format);
    let shared = shared_of(format, bytes);
    let gps_time = time_in(bytes, layout.time);
    let colour = colour_in(bytes, layout.colour);
    let point = Point {
        gps_time,
        red: colour.red,
        green: colour.green,
        blue: colour.blue,
        ..shared
    };
    Ok(point)
}
