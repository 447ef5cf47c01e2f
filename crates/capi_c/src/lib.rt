// The exported functions of the library, under the names that C callers know: each calls the one of its name in `capi`.
// A lent `out`, `room` or `list` overlaps no other argument.
#![tactic(auto)]

ghost use Rattle.std.specs.Prelude.{◌≡◌};
ghost use Rattle.capi.specs.Interface.{las_level, las_check_file, las_check_sheet, las_read_header, las_vlr_step, las_point_at, las_decode, las_encode, las_coordinate, las_class_kept, las_class_test, las_record_kept, las_geokey_find, las_geokey_halve, las_release, las_cutting_list, las_release_by_list, las_mend};

use capi::answers::{las_class_line, las_kept, las_listed, las_mended, las_released};
use capi::header::las_header;
use capi::point::las_point;
use capi::vlr::{las_geokey, las_geokey_read, las_record};
use publicpart::Span;

// The last change request that is in.
#[unsafe(no_mangle)]
pub extern "C" fn las_level() -> u64
    ensures { result ≡ las_level }
{
    capi::las_level()
}

#[unsafe(no_mangle)]
pub extern "C" fn las_check_file(file: &[u8]) -> u64
    ensures { result ≡ las_check_file file.now }
{
    capi::las_check_file(file)
}

#[unsafe(no_mangle)]
pub extern "C" fn las_check_sheet(sheet: &[u8]) -> u64
    ensures { result ≡ las_check_sheet sheet.now }
{
    capi::las_check_sheet(sheet)
}

#[unsafe(no_mangle)]
pub extern "C" fn las_read_header(file: &[u8]) -> las_header
    ensures { result ≡ las_read_header file.now }
{
    capi::las_read_header(file)
}

// One step of the walk: first index 0, at the header size.
#[unsafe(no_mangle)]
pub extern "C" fn las_vlr_step(file: &[u8], index: usize, position: usize) -> las_record
    ensures { result ≡ las_vlr_step file.now index position }
{
    capi::las_vlr_step(file, index, position)
}

#[unsafe(no_mangle)]
pub extern "C" fn las_point_at(file: &[u8], index: usize) -> las_point
    ensures { result ≡ las_point_at file.now index }
{
    capi::las_point_at(file, index)
}

#[unsafe(no_mangle)]
pub extern "C" fn las_decode(format: u8, record_length: u16, bytes: &[u8]) -> las_point
    ensures { result ≡ las_decode format record_length bytes.now }
{
    capi::las_decode(format, record_length, bytes)
}

// Changes the room only where it answers 0.
#[unsafe(no_mangle)]
pub extern "C" fn las_encode(
    format: u8,
    record_length: u16,
    point: las_point,
    room: &mut [u8],
) -> u64
    ensures { (result, room.new) ≡ las_encode format record_length point room.old }
{
    capi::las_encode(format, record_length, point, room)
}

// Scale, offset and result are the 64 bits of doubles, of any pattern.
#[unsafe(no_mangle)]
pub extern "C" fn las_coordinate(stored: i32, scale: u64, offset: u64) -> u64
    ensures { result ≡ las_coordinate stored scale offset }
{
    capi::las_coordinate(stored, scale, offset)
}

// The class is one number from 0 to 255, with no flags in it.
#[unsafe(no_mangle)]
pub extern "C" fn las_class_kept(sheet: &[u8], classification: u8) -> las_kept
    ensures { result ≡ las_class_kept sheet.now classification }
{
    capi::las_class_kept(sheet, classification)
}

// The same, and the number of lines that were looked at for it.
#[unsafe(no_mangle)]
pub extern "C" fn las_class_test(sheet: &[u8], classification: u8) -> las_class_line
    ensures { result ≡ las_class_test sheet.now classification }
{
    capi::las_class_test(sheet, classification)
}

// The user ID is any number of bytes, cut as any text.
#[unsafe(no_mangle)]
pub extern "C" fn las_record_kept(sheet: &[u8], user: &[u8], record_id: u16) -> las_kept
    ensures { result ≡ las_record_kept sheet.now user.now record_id }
{
    capi::las_record_kept(sheet, user, record_id)
}

#[unsafe(no_mangle)]
pub extern "C" fn las_geokey_find(file: &[u8], key: u16) -> las_geokey
    ensures { result ≡ las_geokey_find file.now key }
{
    capi::las_geokey_find(file, key)
}

// The same by halving, and the number of entries that were read for it.
#[unsafe(no_mangle)]
pub extern "C" fn las_geokey_halve(file: &[u8], key: u16) -> las_geokey_read
    ensures { result ≡ las_geokey_halve file.now key }
{
    capi::las_geokey_halve(file, key)
}

// Changes the output only where it answers 0.
#[unsafe(no_mangle)]
pub extern "C" fn las_release(file: &[u8], sheet: &[u8], out: &mut [u8]) -> las_released
    ensures { (result, out.new) ≡ las_release file.now sheet.now out.old }
{
    capi::las_release(file, sheet, out)
}

// Changes the list only where it answers 0.
#[unsafe(no_mangle)]
pub extern "C" fn las_cutting_list(file: &[u8], sheet: &[u8], list: &mut [Span]) -> las_listed
    ensures { (result, list.new) ≡ las_cutting_list file.now sheet.now list.old }
{
    capi::las_cutting_list(file, sheet, list)
}

// Changes output and list only where it answers 0.
#[unsafe(no_mangle)]
pub extern "C" fn las_release_by_list(
    file: &[u8],
    sheet: &[u8],
    out: &mut [u8],
    list: &mut [Span],
) -> las_released
    ensures { ((result, out.new), list.new)
        ≡ las_release_by_list file.now sheet.now out.old list.old }
{
    capi::las_release_by_list(file, sheet, out, list)
}

// Changes the file only where it answers 0.
#[unsafe(no_mangle)]
pub extern "C" fn las_mend(file: &mut [u8]) -> las_mended
    ensures { (result, file.new) ≡ las_mend file.old }
{
    capi::las_mend(file)
}
