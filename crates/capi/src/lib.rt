// The interface for other languages: each function calls the library's and hands its answer back as numbers. A lent
// `out`, `room` or `list` overlaps no other argument.
#![tactic(auto)]

pub mod answers;
pub mod header;
pub mod point;
pub mod vlr;

ghost use Rattle.std.specs.Prelude.{◌≡◌};
ghost use Rattle.capi.specs.Interface.{las_level, las_check_file, las_check_sheet, las_read_header, las_vlr_step, las_point_at, las_decode, las_encode, las_coordinate, las_class_kept, las_class_test, las_record_kept, las_geokey_find, las_geokey_halve, las_release, las_cutting_list, las_release_by_list, las_mend};

use crate::answers::{las_class_line, las_kept, las_listed, las_mended, las_released, number_of};
use crate::header::las_header;
use crate::point::las_point;
use crate::vlr::{las_geokey, las_geokey_read, las_record};
use editor::mend::mend;
use geokeys::find;
use geokeys::halving::find_by_halving;
use lasfile::check_file;
use points::encoding::encode;
use points::{Point, decode};
use publicpart::Span;
use reader::cursor::VlrCursor;
use reader::header::read_header;
use reader::point::point_at;
use release::by_list::release_by_list;
use release::cutting::cutting_list;
use release::release;
use scaling::doubles::coordinate_bits;
use sheet::answers::{class_kept, class_test, record_kept};
use sheet::check_sheet;

// The last change request that is in.
pub fn las_level() -> u64
    ensures { result ≡ las_level }
{
    7
}

pub fn las_check_file(file: &[u8]) -> u64
    ensures { result ≡ las_check_file file.now }
{
    number_of(check_file(file))
}

pub fn las_check_sheet(sheet: &[u8]) -> u64
    ensures { result ≡ las_check_sheet sheet.now }
{
    number_of(check_sheet(sheet))
}

pub fn las_read_header(file: &[u8]) -> las_header
    ensures { result ≡ las_read_header file.now }
{
    las_header::from(read_header(file))
}

// One step of the walk: first index 0, at the header size.
pub fn las_vlr_step(file: &[u8], index: usize, position: usize) -> las_record
    ensures { result ≡ las_vlr_step file.now index position }
{
    las_record::from(VlrCursor { index, position }.step(file))
}

pub fn las_point_at(file: &[u8], index: usize) -> las_point
    ensures { result ≡ las_point_at file.now index }
{
    las_point::from(point_at(file, index))
}

pub fn las_decode(format: u8, record_length: u16, bytes: &[u8]) -> las_point
    ensures { result ≡ las_decode format record_length bytes.now }
{
    las_point::from(decode(format, record_length, bytes))
}

// Changes the room only where it answers 0.
pub fn las_encode(format: u8, record_length: u16, point: las_point, room: &mut [u8]) -> u64
    ensures { (result, room.new) ≡ las_encode format record_length point room.old }
{
    number_of(encode(format, record_length, Point::from(point), room))
}

// Scale, offset and result are the 64 bits of doubles, of any pattern.
pub fn las_coordinate(stored: i32, scale: u64, offset: u64) -> u64
    ensures { result ≡ las_coordinate stored scale offset }
{
    coordinate_bits(stored, scale, offset)
}

// The class is one number from 0 to 255, with no flags in it.
pub fn las_class_kept(sheet: &[u8], classification: u8) -> las_kept
    ensures { result ≡ las_class_kept sheet.now classification }
{
    las_kept::from(class_kept(sheet, classification))
}

// The same, and the number of lines that were looked at for it.
pub fn las_class_test(sheet: &[u8], classification: u8) -> las_class_line
    ensures { result ≡ las_class_test sheet.now classification }
{
    las_class_line::from(class_test(sheet, classification))
}

// The user ID is any number of bytes, cut as any text.
pub fn las_record_kept(sheet: &[u8], user: &[u8], record_id: u16) -> las_kept
    ensures { result ≡ las_record_kept sheet.now user.now record_id }
{
    las_kept::from(record_kept(sheet, user, record_id))
}

pub fn las_geokey_find(file: &[u8], key: u16) -> las_geokey
    ensures { result ≡ las_geokey_find file.now key }
{
    las_geokey::from(find(file, key))
}

// The same by halving, and the number of entries that were read for it.
pub fn las_geokey_halve(file: &[u8], key: u16) -> las_geokey_read
    ensures { result ≡ las_geokey_halve file.now key }
{
    las_geokey_read::from(find_by_halving(file, key))
}

// Changes the output only where it answers 0.
pub fn las_release(file: &[u8], sheet: &[u8], out: &mut [u8]) -> las_released
    ensures { (result, out.new) ≡ las_release file.now sheet.now out.old }
{
    las_released::from(release(file, sheet, out))
}

// Changes the list only where it answers 0.
pub fn las_cutting_list(file: &[u8], sheet: &[u8], list: &mut [Span]) -> las_listed
    ensures { (result, list.new) ≡ las_cutting_list file.now sheet.now list.old }
{
    las_listed::from(cutting_list(file, sheet, list))
}

// Changes output and list only where it answers 0.
pub fn las_release_by_list(
    file: &[u8],
    sheet: &[u8],
    out: &mut [u8],
    list: &mut [Span],
) -> las_released
    ensures { ((result, out.new), list.new)
        ≡ las_release_by_list file.now sheet.now out.old list.old }
{
    las_released::from(release_by_list(file, sheet, out, list))
}

// Changes the file only where it answers 0.
pub fn las_mend(file: &mut [u8]) -> las_mended
    ensures { (result, file.new) ≡ las_mend file.old }
{
    las_mended::from(mend(file))
}
