// A header as a struct of numbers with C's layout.
ghost use Rattle.std.specs.Prelude.{◌≡◌};
ghost use Rattle.publicpart.specs.Bounds.{bound_numbers};
ghost use Rattle.fields.specs.Refusals.{by_number};
ghost use Rattle.reader.specs.Header.{Fields, Refused};
ghost use Rattle.capi.specs.HeaderAnswers.{by_return_numbers, scale_numbers, offset_numbers, no_header, found_header, header_numbers};

use fields::refusal::Refusal;
use reader::header;
use scaling::doubles::bits_of;

// Scales, offsets and bounds are the 64 bits of doubles, in the header's own order.
#[repr(C)]
#[derive(Clone, Copy, Debug, Default, PartialEq, Eq)]
pub struct las_header {
    pub number: u64,
    pub file_source_id: u64,
    pub global_encoding: u64,
    pub guid_1: u64,
    pub guid_2: u64,
    pub guid_3: u64,
    pub guid_4: u64,
    pub major: u64,
    pub minor: u64,
    pub system_length: u64,
    pub software_length: u64,
    pub day: u64,
    pub year: u64,
    pub header_size: u64,
    pub point_offset: u64,
    pub vlr_count: u64,
    pub point_format: u64,
    pub record_length: u64,
    pub point_count: u64,
    pub by_return: [u64; 5],
    pub scale: [u64; 3],
    pub offset: [u64; 3],
    pub bounds: [u64; 6],
}

// (No `From` here and in the next three: neither type is of this crate. The arrays are the layout that C reads.)
fn by_return_numbers(b: header::ByReturn) -> [u64; 5]
    ensures { result ≡ by_return_numbers b }
{
    [b.first, b.second, b.third, b.fourth, b.fifth]
}

fn scale_numbers(s: scaling::Scaling) -> [u64; 3]
    ensures { result ≡ scale_numbers s }
{
    [bits_of(s.x_scale), bits_of(s.y_scale), bits_of(s.z_scale)]
}

fn offset_numbers(s: scaling::Scaling) -> [u64; 3]
    ensures { result ≡ offset_numbers s }
{
    [
        bits_of(s.x_offset),
        bits_of(s.y_offset),
        bits_of(s.z_offset),
    ]
}

fn bound_numbers(b: scaling::Bounds) -> [u64; 6]
    ensures { result ≡ bound_numbers b }
{
    [b.max_x, b.min_x, b.max_y, b.min_y, b.max_z, b.min_z]
}

// (No `From`: it makes an answer with the number 0, of one part of what `From` takes.)
fn found_header(h: header::Header) -> las_header
    ensures { result ≡ found_header h }
{
    let by_return = by_return_numbers(h.by_return);
    let scale = scale_numbers(h.scaling);
    let offset = offset_numbers(h.scaling);
    let bounds = bound_numbers(h.bounds);
    las_header {
        number: 0,
        file_source_id: h.identity.file_source_id,
        global_encoding: h.identity.global_encoding,
        guid_1: h.identity.guid_1,
        guid_2: h.identity.guid_2,
        guid_3: h.identity.guid_3,
        guid_4: h.identity.guid_4,
        major: h.identity.version_major,
        minor: h.identity.version_minor,
        system_length: h.creation.system_length,
        software_length: h.creation.software_length,
        day: h.creation.day,
        year: h.creation.year,
        header_size: h.layout.header_size,
        point_offset: h.layout.point_offset,
        vlr_count: h.layout.vlr_count,
        point_format: h.layout.point_format,
        record_length: h.layout.record_length,
        point_count: h.layout.point_count,
        by_return,
        scale,
        offset,
        bounds,
    }
}

// The numbers of a refusal: all but its own are 0.
#[tactic(auto, unfolding(crate::specs::HeaderAnswers::no_header))]
fn refused_header(number: u64) -> las_header
    ensures { result ≡ no_header number }
{
    las_header {
        number,
        ..las_header::default()
    }
}

// The numbers of a header.
impl From<Result<header::Header, Refusal>> for las_header {
    ghost from_gives = { λ answer numbers. numbers ≡ header_numbers (by_number Fields Refused answer) };

    fn from(answer: Result<header::Header, Refusal>) -> las_header {
        match answer {
            Ok(header) => found_header(header),
            Err(refusal) => refused_header(refusal.number()),
        }
    }
}
