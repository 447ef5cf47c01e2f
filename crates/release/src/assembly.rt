// A released file, put together in the output: kept records, kept points and zeros behind them, and the header of
// these.
ghost use Rattle.std.specs.Prelude.{◌≡◌, length};
ghost use Rattle.lasfile.specs.HeaderFields.{format};
ghost use Rattle.tally.specs.Tally.{tally_of};
ghost use Rattle.release.specs.Assembly.{kept_in, RoomFor, with_points, totals_of, written};

use crate::head::HeadTotals;
use crate::kept_points::Keeper;
use crate::run::Points;
use crate::vlrs::KeptRecords;
use crate::{copier, head, vlrs};
use tally::Tally;

// Lends the output from the new point offset `start` on to the point copier, which zeros the rest, and says the tally
// of the kept points.
fn put_points(file: &[u8], keeper: &Keeper, start: usize, out: &mut [u8]) -> Tally
    requires { RoomFor keeper.now file.now start (length out.old) }
    ensures { (result ≡ tally_of (format file.now) (kept_in keeper.now file.now))
        × (out.new ≡ with_points keeper.now file.now start out.old) }
{
    copier::copy_points(keeper, Points::of(file), &mut out[start..])
}

// What the header says of `records` records and of a tally of points that begin at `start`.
pub(crate) fn totals_of(file: &[u8], tally: Tally, records: usize, start: usize) -> HeadTotals
    ensures { result ≡ totals_of file.now tally records start }
{
    let bins = tally.bins;
    let bounds = tally::tally_bounds(tally, scaling::Scaling::read(file));
    HeadTotals {
        offset: start as u64,
        records: records as u64,
        points: tally.count,
        bins,
        bounds,
    }
}

// Writes the released file and zeros the rest: the kept records after the header, the kept points from the new point
// offset on, where these records end, and last the header, which counts the points; and says how many these are.
pub(crate) fn write(
    file: &[u8],
    sheet: &[u8],
    keeper: &Keeper,
    kept: KeptRecords,
    out: &mut [u8],
) -> usize
    requires { RoomFor keeper.now file.now kept.end (length out.old) }
    ensures { (result ≡ length (kept_in keeper.now file.now))
        × (out.new ≡ written sheet.now file.now keeper.now kept.count kept.end out.old) }
{
    vlrs::copy_records(file, sheet, out);
    let tally = put_points(file, keeper, kept.end, out);
    head::put_head(file, totals_of(file, tally, kept.count, kept.end), out);
    tally.count as usize
}
