// GeoKey lookups: numbers 40 to 46, or a key's value.
#![tactic(auto)]

pub mod halving;

ghost use Rattle.std.specs.Prelude.{◌≡◌, ◌+◌, ◌*◌, ◌≤◌, ◌<◌, ◌^◌, length, IfSome};
ghost use Rattle.std.proofs.Math.Option.{some};
ghost use Rattle.fields.specs.Checks.{first_failing};
ghost use Rattle.fields.specs.Refusals.{verdict_of, by_number};
ghost use Rattle.geokeys.specs.GeoKeys.{Refused, is_projection, projection_place, payload_at, key_count, directory_checks, entries, entry_of, in_payload, from_entry, lookup};
ghost use Rattle.geokeys.specs.Places as directory;
ghost use Rattle.geokeys.specs.Values.{geokey_of};
ghost use Rattle.geokeys.specs.Places.{place_in, entry_in, place_if, Searches};

use fields::numbers::number_at;
use fields::refusal::Refusal;
use fields::{slices, text};
use lasfile::vlr;
use lasfile::vlr::{FRONT, RECORD_ID, Records, USER_ID};

// A key's value: a number, a double's 64 bits, or a text's place in the file and its length.
#[derive(Clone, Copy, Debug, PartialEq, Eq)]
pub enum KeyValue {
    Number(u64),
    Double(u64),
    Text(usize, usize),
}

// The record IDs of the directory, and of the records that hold doubles and texts; a key's location is one of these
// two, or 0.
const DIRECTORY: u64 = 34735;

pub const DOUBLES: u64 = 34736;

pub const TEXTS: u64 = 34737;

// The size of a directory's head, and of an entry, and the places of an entry's fields behind its key.
pub(crate) const ENTRY: usize = 8;

const LOCATION: usize = 2;

const COUNT: usize = 4;

const VALUE_OFFSET: usize = 6;

// A directory's head: the version 1, the revision 1.0, and at this place the number of keys.
const OPENING: &[u8] = b"\x01\x00\x01\x00\x00\x00";

const KEY_COUNT: usize = 6;

// Whether a record is of "LASF_Projection" and has this record ID. `vlr` is bytes that begin with a record.
fn is_projection(vlr: &[u8], id: u64) -> bool
    ensures { result ≡ is_projection vlr.now id 0 }
{
    let named = text::same_cut(slices::part_at(vlr, USER_ID, 16), b"LASF_Projection");
    named & (number_at(vlr, RECORD_ID, 2) == id)
}

// The place of the first such record. (It and `find_entry` walk different things: records of a file, entries of a
// directory.)
fn find_projection(file: &[u8], id: u64) -> Option<usize>
    ensures { (place_in result ≡ projection_place file.now id) × IfSome result (λ at. at < 2 ^ 50) }
{
    for vlr in Records::new(file) {
        if is_projection(vlr.bytes, id) {
            return Some(vlr.place);
        }
    }
    None
}

// (That `at + 54` does not wrap is asked, and no type of places holds it: places of a walk are plain numbers in four
// crates, and each walk knows its own end. Place and file stay two: they meet for one call.)
pub(crate) fn payload_at(file: &[u8], at: usize) -> &[u8]
    requires { at + 54 < 2 ^ 64 }
    ensures { result.now ≡ payload_at file.now at }
{
    slices::part_at(file, at + FRONT, vlr::payload_length_at(file, at))
}

// Number 41.
fn check_directory(directory: &[u8]) -> Result<(), Refusal>
    ensures { verdict_of result ≡ first_failing (directory_checks directory.now) }
{
    if directory.len() < ENTRY + ENTRY * number_at(directory, KEY_COUNT, 2) as usize {
        return Err(Refusal::BadDirectory);
    }
    if !slices::same_bytes(slices::part_at(directory, 0, KEY_COUNT), OPENING) {
        return Err(Refusal::BadDirectory);
    }
    Ok(())
}

// The place of a directory, where it passes.
#[tactic(auto, unfolding(crate::specs::Places::place_if))]
fn checked_at(file: &[u8], at: usize) -> Result<usize, Refusal>
    requires { at + 54 < 2 ^ 64 }
    ensures { by_number directory.Place directory.Refused result
        ≡ place_if (first_failing (directory_checks (payload_at file.now at))) at }
{
    check_directory(payload_at(file, at))?;
    Ok(at)
}

// The entries of a directory that has room for as many as it states.
// (The room is asked, and no type of directories holds it: `find_directory` makes sure of it for both lookups.)
pub(crate) fn entries(directory: &[u8]) -> &[[u8; ENTRY]]
    requires { 8 + 8 * key_count directory.now ≤ length directory.now }
    ensures { (result.now ≡ entries directory.now) × (length result.now < 2 ^ 16) }
{
    let count = number_at(directory, KEY_COUNT, 2) as usize;
    let (_, behind) = directory.split_at(ENTRY);
    let (entries, _) = behind.as_chunks::<ENTRY>();
    &entries[..count]
}

// The first entry of a key.
fn find_entry(entries: &[[u8; ENTRY]], key: u16) -> Option<&[u8; ENTRY]>
    ensures { entry_in result ≡ entry_of entries.now key }
{
    for entry in entries {
        if number_at(entry, 0, 2) == key as u64 {
            return Some(entry);
        }
    }
    None
}

// The value of an entry in the payload of a parameter record, whose place is `at`: number 46, or a double, or a text.
fn in_payload(entry: &[u8], at: usize, parameters: &[u8]) -> Result<KeyValue, Refusal>
    requires { at < 2 ^ 50 }
    ensures { by_number geokey_of Refused result ≡ in_payload entry.now at parameters.now }
{
    let count = number_at(entry, COUNT, 2) as usize;
    let offset = number_at(entry, VALUE_OFFSET, 2) as usize;
    if number_at(entry, LOCATION, 2) == DOUBLES {
        if parameters.len() < 8 * offset + 8 {
            return Err(Refusal::ValuePastEnd);
        }
        return Ok(KeyValue::Double(number_at(parameters, 8 * offset, 8)));
    }
    if parameters.len() < offset + count {
        return Err(Refusal::ValuePastEnd);
    }
    Ok(KeyValue::Text(at + FRONT + offset, count))
}

// Numbers 43 to 46, or the value of an entry.
fn from_entry(file: &[u8], entry: &[u8]) -> Result<KeyValue, Refusal>
    ensures { by_number geokey_of Refused result ≡ from_entry file.now (some entry.now) }
{
    let location = number_at(entry, LOCATION, 2);
    let count = number_at(entry, COUNT, 2);
    if !((location == 0) | ((location == DOUBLES) | (location == TEXTS))) {
        return Err(Refusal::BadLocation);
    }
    if !((location == TEXTS) | (count == 1)) {
        return Err(Refusal::BadCount);
    }
    if location == 0 {
        return Ok(KeyValue::Number(number_at(entry, VALUE_OFFSET, 2)));
    }
    let found = find_projection(file, location);
    match found {
        Some(at) => in_payload(entry, at, payload_at(file, at)),
        None => Err(Refusal::NoParameters),
    }
}

// Numbers 42 to 46, or the value of the entry that a search found.
pub(crate) fn at_entry(file: &[u8], found: Option<&[u8; ENTRY]>) -> Result<KeyValue, Refusal>
    ensures { by_number geokey_of Refused result ≡ from_entry file.now (entry_in found.entry) }
{
    match found {
        Some(entry) => from_entry(file, entry),
        None => Err(Refusal::NoKey),
    }
}

// Numbers 42 to 46, or the value of a key in a directory.
fn in_directory(file: &[u8], directory: &[u8], key: u16) -> Result<KeyValue, Refusal>
    requires { 8 + 8 * key_count directory.now ≤ length directory.now }
    ensures { by_number geokey_of Refused result ≡ from_entry file.now (entry_of (entries directory.now) key) }
{
    at_entry(file, find_entry(entries(directory), key))
}

// Checks the file, then 40 and 41.
pub(crate) fn find_directory(file: &[u8]) -> Result<usize, Refusal>
    ensures { Searches file.now (by_number directory.Place directory.Refused result) }
{
    lasfile::check_file(file)?;
    let found = find_projection(file, DIRECTORY);
    match found {
        Some(at) => checked_at(file, at),
        None => Err(Refusal::NoDirectory),
    }
}

// The value of a key: it checks the file, then 40 to 46.
// (File and key stay two: C gives both, and nothing keeps them together.)
pub fn find(file: &[u8], key: u16) -> Result<KeyValue, Refusal>
    ensures { by_number geokey_of Refused result ≡ lookup file.now key }
{
    let at = find_directory(file)?;
    in_directory(file, payload_at(file, at), key)
}
