// The fields of a header that say where things are and how many there are. Bytes past the end read as 0.
ghost use Rattle.std.specs.Prelude.{◌≡◌, ◌^◌, ◌<◌};
ghost use Rattle.lasfile.specs.HeaderFields.{header_size, point_offset, record_count, format, record_length, point_count};

use fields::numbers::number_at;

// The size of the public header block.
pub const HEADER_BLOCK: usize = 227;

// The places of its fields that more than one crate reads or writes; each text has 32 bytes.
pub const IDS: usize = 4;

pub const VERSION: usize = 24;

pub const SYSTEM: usize = 26;

pub const SOFTWARE: usize = 58;

pub const DAY: usize = 90;

pub const YEAR: usize = 92;

pub const HEADER_SIZE: usize = 94;

pub const POINT_OFFSET: usize = 96;

pub const FORMAT: usize = 104;

pub const RECORD_LENGTH: usize = 105;

pub const POINT_COUNT: usize = 107;

pub const SCALING: usize = 131;

pub const BOUNDS: usize = 179;

pub fn header_size(file: &[u8]) -> usize
    ensures { (result ≡ header_size file.now) × (result < 2 ^ 16) }
{
    number_at(file, HEADER_SIZE, 2) as usize
}

pub fn point_offset(file: &[u8]) -> usize
    ensures { (result ≡ point_offset file.now) × (result < 2 ^ 32) }
{
    number_at(file, POINT_OFFSET, 4) as usize
}

pub fn record_count(file: &[u8]) -> usize
    ensures { (result ≡ record_count file.now) × (result < 2 ^ 32) }
{
    number_at(file, 100, 4) as usize
}

pub fn format(file: &[u8]) -> u8
    ensures { (result ≡ format file.now) × (result < 2 ^ 8) }
{
    number_at(file, FORMAT, 1) as u8
}

pub fn record_length(file: &[u8]) -> usize
    ensures { (result ≡ record_length file.now) × (result < 2 ^ 16) }
{
    number_at(file, RECORD_LENGTH, 2) as usize
}

pub fn point_count(file: &[u8]) -> usize
    ensures { (result ≡ point_count file.now) × (result < 2 ^ 32) }
{
    number_at(file, POINT_COUNT, 4) as usize
}
