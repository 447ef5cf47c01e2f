// A LAS file: the places and counts of its header, its variable length records, and the file checks.
#![tactic(auto)]

pub mod header;
pub mod inputs;
pub mod vlr;

ghost use Rattle.std.specs.Prelude.{◌≡◌, take, drop};
ghost use Rattle.fields.specs.Checks.{first_failing};
ghost use Rattle.fields.specs.Refusals.{verdict_of};
ghost use Rattle.lasfile.specs.FileChecks.{file_checks, file_verdict, mend_verdict};

use crate::header::HEADER_BLOCK;
use fields::refusal::Refusal;
use fields::slices;
use points::layouts;

// Checks 1 to 7, which look at the header and the file's length.
fn check_header(file: &[u8]) -> Result<(), Refusal>
    ensures { verdict_of result ≡ first_failing (take 7 (file_checks file.now)) }
{
    let length = file.len();
    if length < HEADER_BLOCK {
        return Err(Refusal::FileTooShort);
    }
    if !slices::same_bytes(slices::part_at(file, 0, 4), b"LASF") {
        return Err(Refusal::BadSignature);
    }
    if !slices::same_bytes(slices::part_at(file, header::VERSION, 2), b"\x01\x02") {
        return Err(Refusal::BadVersion);
    }
    let size = header::header_size(file);
    if size < HEADER_BLOCK {
        return Err(Refusal::BadHeaderSize);
    }
    if length < size {
        return Err(Refusal::BadHeaderSize);
    }
    check_points(file)
}

// Checks 5 to 7.
fn check_points(file: &[u8]) -> Result<(), Refusal>
    ensures { verdict_of result ≡ first_failing (take 3 (drop 4 (file_checks file.now))) }
{
    let format = header::format(file);
    if layouts::HIGHEST < format {
        return Err(Refusal::BadFormat);
    }
    let layout = layouts::layout_of(format);
    let size = layout.size;
    if header::record_length(file) < size {
        return Err(Refusal::BadRecordLength);
    }
    let offset = header::point_offset(file);
    if offset < header::header_size(file) {
        return Err(Refusal::BadPointOffset);
    }
    if file.len() < offset {
        return Err(Refusal::BadPointOffset);
    }
    Ok(())
}

// Check 10.
fn check_scaling(file: &[u8]) -> Result<(), Refusal>
    ensures { verdict_of result ≡ first_failing (drop 9 (file_checks file.now)) }
{
    if !scaling::Scaling::read(file).is_good() {
        return Err(Refusal::BadScaling);
    }
    Ok(())
}

// Checks 8 to 10. Counts and lengths are of 4 and 2 bytes, so that no sum and no product wraps.
fn check_contents(file: &[u8]) -> Result<(), Refusal>
    ensures { verdict_of result ≡ first_failing (drop 7 (file_checks file.now)) }
{
    let offset = header::point_offset(file);
    if !vlr::records_fit(file, offset) {
        return Err(Refusal::RecordsPastOffset);
    }
    let length = header::record_length(file);
    let points = header::point_count(file);
    if file.len() < offset + points * length {
        return Err(Refusal::PointsPastEnd);
    }
    check_scaling(file)
}

// The first file check that fails.
pub fn check_file(file: &[u8]) -> Result<(), Refusal>
    ensures { verdict_of result ≡ file_verdict file.now }
{
    check_header(file)?;
    check_contents(file)
}

// The first that fails of those that a file must pass to be mended: all but 9. Where 9 is the first of all, 10 is left.
pub fn check_mendable(file: &[u8]) -> Result<(), Refusal>
    ensures { verdict_of result ≡ mend_verdict file.now }
{
    match check_file(file) {
        Ok(()) => Ok(()),
        Err(refusal) => match refusal {
            Refusal::PointsPastEnd => check_scaling(file),
            _ => Err(refusal),
        },
    }
}
