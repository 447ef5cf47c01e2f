// The public header block.
ghost use Rattle.std.specs.Prelude.{◌≡◌, length};
ghost use Rattle.fields.specs.Bytes.{part};
ghost use Rattle.fields.specs.Refusals.{by_number};
ghost use Rattle.fields.specs.Text.{cut};
ghost use Rattle.reader.specs.Header.{Fields, Refused, identity_of, creation_of, file_layout_of, by_return_of, stated_bounds, header_of, header_read};

use fields::numbers::number_at;
use fields::refusal::Refusal;
use fields::{slices, text};
use lasfile::header;
use scaling::{Bounds, Scaling};

// Bytes 4 to 25. The GUID stands in four numbers, the last of 8 bytes.
#[derive(Clone, Copy, Debug, PartialEq, Eq)]
pub struct Identity {
    pub file_source_id: u64,
    pub global_encoding: u64,
    pub guid_1: u64,
    pub guid_2: u64,
    pub guid_3: u64,
    pub guid_4: u64,
    pub version_major: u64,
    pub version_minor: u64,
}

// What made the file and when. The texts stand at 26 and 58; these are the lengths of their cuts.
#[derive(Clone, Copy, Debug, PartialEq, Eq)]
pub struct Creation {
    pub system_length: u64,
    pub software_length: u64,
    pub day: u64,
    pub year: u64,
}

// Where things are and how many there are.
#[derive(Clone, Copy, Debug, PartialEq, Eq)]
pub struct FileLayout {
    pub header_size: u64,
    pub point_offset: u64,
    pub vlr_count: u64,
    pub point_format: u64,
    pub record_length: u64,
    pub point_count: u64,
}

// The stated number of points of each return number. (Not the `Bins` of tally: those are counted, and this crate stands
// below tally.)
#[derive(Clone, Copy, Debug, PartialEq, Eq)]
pub struct ByReturn {
    pub first: u64,
    pub second: u64,
    pub third: u64,
    pub fourth: u64,
    pub fifth: u64,
}

// The bounds are the stated ones, as their 64 bits: they may be NaNs.
#[derive(Clone, Copy, Debug, PartialEq)]
pub struct Header {
    pub identity: Identity,
    pub creation: Creation,
    pub layout: FileLayout,
    pub by_return: ByReturn,
    pub scaling: Scaling,
    pub bounds: Bounds,
}

fn identity_of(file: &[u8]) -> Identity
    ensures { result ≡ identity_of file.now }
{
    Identity {
        file_source_id: number_at(file, 4, 2),
        global_encoding: number_at(file, 6, 2),
        guid_1: number_at(file, 8, 4),
        guid_2: number_at(file, 12, 2),
        guid_3: number_at(file, 14, 2),
        guid_4: number_at(file, 16, 8),
        version_major: number_at(file, 24, 1),
        version_minor: number_at(file, 25, 1),
    }
}

// The length of the cut of the 32-byte text at a place.
fn text_length(file: &[u8], at: usize) -> u64
    ensures { result ≡ length (cut (part at 32 file.now)) }
{
    text::cut_length(slices::part_at(file, at, 32)) as u64
}

fn creation_of(file: &[u8]) -> Creation
    ensures { result ≡ creation_of file.now }
{
    Creation {
        system_length: text_length(file, header::SYSTEM),
        software_length: text_length(file, header::SOFTWARE),
        day: number_at(file, header::DAY, 2),
        year: number_at(file, header::YEAR, 2),
    }
}

fn file_layout_of(file: &[u8]) -> FileLayout
    ensures { result ≡ file_layout_of file.now }
{
    FileLayout {
        header_size: header::header_size(file) as u64,
        point_offset: header::point_offset(file) as u64,
        vlr_count: header::record_count(file) as u64,
        point_format: header::format(file) as u64,
        record_length: header::record_length(file) as u64,
        point_count: header::point_count(file) as u64,
    }
}

fn by_return_of(file: &[u8]) -> ByReturn
    ensures { result ≡ by_return_of file.now }
{
    ByReturn {
        first: number_at(file, 111, 4),
        second: number_at(file, 115, 4),
        third: number_at(file, 119, 4),
        fourth: number_at(file, 123, 4),
        fifth: number_at(file, 127, 4),
    }
}

fn stated_bounds(file: &[u8]) -> Bounds
    ensures { result ≡ stated_bounds file.now }
{
    Bounds {
        max_x: number_at(file, 179, 8),
        min_x: number_at(file, 187, 8),
        max_y: number_at(file, 195, 8),
        min_y: number_at(file, 203, 8),
        max_z: number_at(file, 211, 8),
        min_z: number_at(file, 219, 8),
    }
}

fn header_of(file: &[u8]) -> Header
    ensures { result ≡ header_of file.now }
{
    Header {
        identity: identity_of(file),
        creation: creation_of(file),
        layout: file_layout_of(file),
        by_return: by_return_of(file),
        scaling: Scaling::read(file),
        bounds: stated_bounds(file),
    }
}

// Every field of a file's header, or the first file check that fails.
#[tactic(auto, unfolding(crate::specs::Header::header_read, crate::specs::Header::header_if))]
pub fn read_header(file: &[u8]) -> Result<Header, Refusal>
    ensures { by_number Fields Refused result ≡ header_read file.now }
{
    lasfile::check_file(file)?;
    Ok(header_of(file))
}
