// The second, plain way to release: the list is filled, and then what its lines say is written.
ghost use Rattle.std.specs.Prelude.{◌≡◌, length};
ghost use Rattle.publicpart.specs.Answers.{answer_of};
ghost use Rattle.publicpart.specs.Cutting.{release_by_list};
ghost use Rattle.release.specs.ByList.{Counted, DecidesRoom, Decides, FinishFits, finished_file};

use crate::{assembly, cutting, head, vlrs, writing};
use fields::slices;
use lasfile::header;
use publicpart::{ReleaseError, Released, Span};

// What a release answers for an output of so many bytes, where the list has room for all lines, and so many are kept.
fn decide_room(
    file: &[u8],
    sheet: &[u8],
    room: usize,
    lines: usize,
) -> Result<Released, ReleaseError>
    requires { Counted sheet.now file.now lines }
    ensures { DecidesRoom sheet.now file.now room (answer_of result) }
{
    let kept = vlrs::measure(file, sheet);
    let records = kept.count;
    let points = lines - records;
    let needed = kept.end + points * header::record_length(file);
    if room < needed {
        return Err(ReleaseError::OutputTooShort(needed));
    }
    Ok(Released {
        length: needed,
        points,
        records,
    })
}

// What it answers for an output of so many bytes and a list of so many lines: 31 comes before 30.
fn decide(
    file: &[u8],
    sheet: &[u8],
    room: usize,
    list_length: usize,
) -> Result<Released, ReleaseError>
    ensures { Decides sheet.now file.now room list_length (answer_of result) }
{
    let lines = cutting::decide_list(file, sheet, list_length)?;
    decide_room(file, sheet, room, lines)
}

// Finishes a released file, whose records and points are written: zeros behind it, and its header.
fn finish(file: &[u8], released: Released, out: &mut [u8])
    requires { FinishFits file.now released.length released.points (length out.old) }
    ensures { out.new ≡ finished_file file.now released.length released.points released.records out.old }
{
    let format = header::format(file);
    let record_length = header::record_length(file);
    let start = released.length - released.points * record_length;
    let room = out.len();
    slices::zero(out, released.length, room);
    let tally = tally::tally_more(
        tally::fresh(),
        &out[start..],
        format,
        record_length,
        released.points,
    );
    let totals = assembly::totals_of(file, tally, released.records, start);
    head::put_head(file, totals, out);
}

// Releases what a sheet keeps of a file, by a list that it fills: answer and output are those of `release`, where the
// list is long enough. Everything that can refuse is decided before the first write to output or list.
pub fn release_by_list(
    file: &[u8],
    sheet: &[u8],
    out: &mut [u8],
    list: &mut [Span],
) -> Result<Released, ReleaseError>
    ensures { ((answer_of result, out.new), list.new)
        ≡ release_by_list sheet.now file.now out.old list.old }
{
    let released = decide(file, sheet, out.len(), list.len())?;
    cutting::fill_list(file, sheet, released.records + released.points, list);
    writing::write_lines(file, list, released, out);
    finish(file, released, out);
    Ok(released)
}
