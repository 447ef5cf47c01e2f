// The release: cuts a sample out of a LAS 1.2 file under a keep sheet, so that the output shows the public part and
// nothing else. `cutting` lists which parts go out, and `by_list` releases from that list.
#![tactic(auto)]

mod assembly;
mod blocks;
mod box_index;
pub mod by_list;
mod copier;
pub mod cutting;
mod filling;
mod head;
mod kept_points;
mod lines;
mod run;
mod vlrs;
mod writing;

ghost use Rattle.std.specs.Prelude.{◌≡◌, ◌+◌, ◌*◌, ◌^◌, ◌<◌, length};
ghost use Rattle.lasfile.specs.HeaderFields.{point_count, record_length};
ghost use Rattle.fields.specs.Checks.{then};
ghost use Rattle.fields.specs.Refusals.{verdict_of};
ghost use Rattle.lasfile.specs.FileChecks.{file_verdict};
ghost use Rattle.sheet.specs.Sheet.{sheet_verdict};
ghost use Rattle.publicpart.specs.Answers.{answer_of};
ghost use Rattle.publicpart.specs.Release.{release};
ghost use Rattle.release.specs.Assembly.{kept_in, room_asked};

use crate::kept_points::Keeper;
use crate::run::Points;
use fields::refusal::Refusal;
use lasfile::header;
use publicpart::{ReleaseError, Released};

// How many points of a file are kept.
pub(crate) fn count_kept(file: &[u8], keeper: &Keeper) -> usize
    ensures { result ≡ length (kept_in keeper.now file.now) }
{
    keeper.count(Points::of(file))
}

// The room that is asked of an output for points from `start` on. One with room for all the points of the file is asked
// for that much, and the kept ones are not counted: their number comes out of the writing.
fn room_for(file: &[u8], keeper: &Keeper, start: usize, room: usize) -> usize
    requires { start + point_count file.now * record_length file.now < 2 ^ 64 }
    ensures { result ≡ room_asked keeper.now file.now start room }
{
    let record_length = header::record_length(file);
    let count = header::point_count(file);
    let most = start + count * record_length;
    if most <= room {
        return most;
    }
    start + count_kept(file, keeper) * record_length
}

// Checks a file, and then a sheet.
#[tactic(auto, unfolding(fields::specs::Checks::then))]
pub(crate) fn check_both(file: &[u8], sheet: &[u8]) -> Result<(), Refusal>
    ensures { verdict_of result ≡ then (file_verdict file.now) (sheet_verdict sheet.now) }
{
    lasfile::check_file(file)?;
    sheet::check_sheet(sheet)
}

// Releases what a sheet keeps of a file. Everything that can refuse is decided before the first byte is written.
// (File, sheet, output and list stay parameters of their own in this crate: C lends each by itself, and a contract
// says what each becomes.)
pub fn release(file: &[u8], sheet: &[u8], out: &mut [u8]) -> Result<Released, ReleaseError>
    ensures { (answer_of result, out.new) ≡ release sheet.now file.now out.old }
{
    check_both(file, sheet)?;
    let kept = vlrs::measure(file, sheet);
    let keeper = Keeper::of(file, sheet);
    let records = kept.count;
    let start = kept.end;
    let needed = room_for(file, &keeper, start, out.len());
    if out.len() < needed {
        return Err(ReleaseError::OutputTooShort(needed));
    }
    let points = assembly::write(file, sheet, &keeper, kept, out);
    let length = start + points * header::record_length(file);
    Ok(Released {
        length,
        points,
        records,
    })
}
