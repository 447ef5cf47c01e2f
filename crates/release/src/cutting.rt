// The cutting list: which parts of a file a release takes, in a lent list.
ghost use Rattle.std.specs.Prelude.{◌≡◌, ◌≤◌, length, take};
ghost use Rattle.fields.specs.Checks.{Passes};
ghost use Rattle.lasfile.specs.FileChecks.{file_verdict};
ghost use Rattle.publicpart.specs.Public.{public_of};
ghost use Rattle.fields.specs.Refusals.{by_number};
ghost use Rattle.publicpart.specs.Cutting.{Lines, Refused, cutting_lines, fill, cutting_list};
ghost use Rattle.release.specs.Filling.{kept_lines};
ghost use Rattle.release.specs.ByList.{DecidesList};

use crate::kept_points::Keeper;
use crate::{filling, lines, vlrs};
use fields::refusal::Refusal;
use publicpart::Span;

// Puts the first n lines of a file into a list. Each turn puts the line of what is at hand, kept or not; where that is
// not kept, the next turn puts its own over it. So no turn branches on whether a point is kept, which no processor can
// guess. The loop ends with the last kept thing, and no line behind the last is touched.
// (File and keeper stay two: the keeper owns what it holds, and the file is lent.)
fn fill_kept(file: &[u8], sheet: &[u8], keeper: &Keeper, n: usize, list: &mut [Span])
    requires { (n ≤ length (kept_lines sheet.now keeper.now file.now)) × (n ≤ length list.old) }
    ensures { list.new ≡ fill (take n (kept_lines sheet.now keeper.now file.now)) list.old }
{
    let mut t = filling::first_line(file, n);
    // (no range or iterator says how many turns there are: the last kept thing ends the loop)
    while t.more {
        lines::put_line(list, t.k, t.place, t.length);
        t = filling::next_line(file, sheet, keeper, t);
    }
}

// The same, where the sheet says what is kept.
pub(crate) fn fill_list(file: &[u8], sheet: &[u8], n: usize, list: &mut [Span])
    requires { (n ≤ length (cutting_lines sheet.now file.now)) × (n ≤ length list.old) }
    ensures { list.new
        ≡ fill (take n (cutting_lines sheet.now file.now)) list.old }
{
    fill_kept(file, sheet, &Keeper::of(file, sheet), n, list);
}

// How many points a sheet keeps of a file that passes.
fn points_kept(file: &[u8], sheet: &[u8]) -> usize
    ensures { file_verdict file.now ≡ Passes
        → result ≡ length (public_of sheet.now file.now).points }
{
    crate::count_kept(file, &Keeper::of(file, sheet))
}

// What a cutting list answers for a list of so many lines.
pub(crate) fn decide_list(file: &[u8], sheet: &[u8], list_length: usize) -> Result<usize, Refusal>
    ensures { DecidesList sheet.now file.now list_length (by_number Lines Refused result) }
{
    crate::check_both(file, sheet)?;
    let kept = vlrs::measure(file, sheet);
    let lines = kept.count + points_kept(file, sheet);
    if list_length < lines {
        return Err(Refusal::ListTooShort);
    }
    Ok(lines)
}

// Fills a list with a line for the payload of every kept record and for every kept point. Everything that can refuse is
// decided before the first line is written. Says how many lines these are.
pub fn cutting_list(file: &[u8], sheet: &[u8], list: &mut [Span]) -> Result<usize, Refusal>
    ensures { (by_number Lines Refused result, list.new)
        ≡ cutting_list sheet.now file.now list.old }
{
    let lines = decide_list(file, sheet, list.len())?;
    fill_list(file, sheet, lines, list);
    Ok(lines)
}
