// The records that a sheet keeps of a file: how many and how long they are, and writing them. What is said here holds
// of any file; one that fails the file checks may count records that it does not have, and each takes a step. `vlr` is
// bytes that begin with a record.
ghost use Rattle.std.specs.Prelude.{◌≡◌, ◌<◌, ◌^◌};
ghost use Rattle.std.proofs.lemmas.List.Edits.{sets};
ghost use Rattle.lasfile.specs.Records.{record_of, written_length, record_bytes};
ghost use Rattle.publicpart.specs.Public.{sheet_keeps, public_of};
ghost use Rattle.release.specs.KeptRecords.{measured, name_bytes, content_bytes};
ghost use Rattle.release.specs.Assembly.{with_records};

use fields::numbers::{number_at, put_number};
use fields::{copying, slices, text};
use lasfile::header::HEADER_BLOCK;
use lasfile::vlr;
use lasfile::vlr::{DESCRIPTION, FRONT, PAYLOAD_LENGTH, RECORD_ID, Records, USER_ID};
use sheet::lookup;

// How many records are kept, and where they end in a released file: its points begin there.
#[derive(Clone, Copy, Debug, PartialEq, Eq)]
pub struct KeptRecords {
    pub count: usize,
    pub end: usize,
}

// Whether a sheet keeps the record.
pub(crate) fn keeps(sheet: &[u8], vlr: &[u8]) -> bool
    ensures { result ≡ sheet_keeps sheet.now (record_of 2 vlr.now) }
{
    let id = number_at(vlr, RECORD_ID, 2) as u16;
    lookup::holds_record(sheet, slices::part_at(vlr, USER_ID, 16), id)
}

// Its payload, as far as it is there.
fn payload_of(vlr: &[u8]) -> &[u8]
    ensures { result.now ≡ (record_of 2 vlr.now).payload }
{
    slices::part_at(vlr, FRONT, vlr::payload_length_at(vlr, 0))
}

// The bytes that it takes in a released file.
fn written_length(vlr: &[u8]) -> usize
    ensures { (result ≡ written_length 2 (record_of 2 vlr.now)) × (result < 2 ^ 17) }
{
    let payload = payload_of(vlr);
    FRONT + payload.len()
}

// Measures the records that a sheet keeps of a file.
pub(crate) fn measure(file: &[u8], sheet: &[u8]) -> KeptRecords
    ensures { result ≡ measured (public_of sheet.now file.now).records }
{
    let mut count = 0;
    let mut end = HEADER_BLOCK;
    for vlr in Records::new(file) {
        if keeps(sheet, vlr.bytes) {
            count += 1;
            end += written_length(vlr.bytes);
        }
    }
    KeptRecords { count, end }
}

// Places 0 to 19 of a record: reserved 0, user ID, record ID.
fn put_name(vlr: &[u8], out: &mut [u8])
    ensures { out.new ≡ sets out.old 0 (name_bytes (record_of 2 vlr.now)) }
{
    put_number(out, 0, 2, 0);
    text::put_text(out, USER_ID, 16, vlr, USER_ID);
    put_number(out, RECORD_ID, 2, number_at(vlr, RECORD_ID, 2));
}

// Places 20 on: payload length, description, payload. Says where the payload ends.
fn put_contents(vlr: &[u8], out: &mut [u8]) -> usize
    ensures { (result ≡ written_length 2 (record_of 2 vlr.now))
        × (out.new ≡ sets out.old 20 (content_bytes (record_of 2 vlr.now))) }
{
    let payload = payload_of(vlr);
    let end = FRONT + payload.len();
    put_number(out, PAYLOAD_LENGTH, 2, payload.len() as u64);
    text::put_text(out, DESCRIPTION, 32, vlr, DESCRIPTION);
    copying::copy(payload, out, FRONT);
    end
}

// Writes a record to the front of `out`: reserved 0, texts padded with zeros, the payload as it is. Says its length.
fn put_record(vlr: &[u8], out: &mut [u8]) -> usize
    ensures { (result ≡ written_length 2 (record_of 2 vlr.now))
        × (out.new ≡ sets out.old 0 (record_bytes 2 (record_of 2 vlr.now))) }
{
    put_name(vlr, out);
    put_contents(vlr, out)
}

// Writes a record to the part of `out` that starts at a place, and says how long it is.
pub(crate) fn put_record_at(vlr: &[u8], out: &mut [u8], to: usize) -> usize
    ensures { (result ≡ written_length 2 (record_of 2 vlr.now))
        × (result < 2 ^ 17)
        × (out.new ≡ sets out.old to (record_bytes 2 (record_of 2 vlr.now))) }
{
    if out.len() <= to {
        return written_length(vlr);
    }
    put_record(vlr, &mut out[to..])
}

// Writes the records that a sheet keeps of a file one after the other, directly after the header.
pub(crate) fn copy_records(file: &[u8], sheet: &[u8], out: &mut [u8])
    ensures { out.new ≡ with_records sheet.now file.now out.old }
{
    let mut to = HEADER_BLOCK;
    for vlr in Records::new(file) {
        if keeps(sheet, vlr.bytes) {
            to += put_record_at(vlr.bytes, out, to);
        }
    }
}
