// The point copier: writes the points that a sheet keeps, and no byte of another, and tallies them.
ghost use Rattle.std.specs.Prelude.{◌≡◌, ◌++◌, ◌*◌, ◌<◌, ◌≤◌, length, take};
ghost use Rattle.std.proofs.lemmas.List.Edits.{sets};
ghost use Rattle.fields.specs.Bytes.{join, zeros};
ghost use Rattle.sheet.specs.Boxes.{keeps_by};
ghost use Rattle.tally.specs.Tally.{tally_of};
ghost use Rattle.release.specs.KeptPoints.{kept_of, picked, Places, chosen_of};

use crate::blocks::Blocks;
use crate::kept_points::{Chosen, Keeper};
use crate::run::Points;
use fields::{copying, slices};
use tally::Tally;

// Writes the chosen records of a block to the front of `out`, one behind the other. It stays a function of its own when
// compiled, so that its loop keeps what it needs in registers.
#[inline(never)]
fn copy_chosen(block: Points<'_>, chosen: &Chosen, out: &mut [u8])
    requires { (chosen.now.count ≤ 64)
        × Places block.record_length block.bytes.now (chosen_of chosen.now)
        × (chosen.now.count * block.record_length ≤ length out.old) }
    ensures { out.new
        ≡ sets out.old 0 (join (picked block.entry.record_length block.entry.bytes.now (chosen_of chosen.now))) }
{
    let mut to = 0;
    for at in &chosen.places[..chosen.count] {
        copying::copy_whole(block.record_at(*at), out, to);
        to += block.record_length;
    }
}

// Writes the kept records of a block to the front of `out`, and nothing else, and says how many they are. Where all are
// kept they are one run.
fn copy_block(keeper: &Keeper, block: Points<'_>, chosen: &mut Chosen, out: &mut [u8]) -> usize
    requires { (block.count ≤ 64)
        × (length (kept_of (keeps_by keeper.now.table keeper.now.boxes block.format) block) * block.record_length
        ≤ length out.old) }
    ensures { (result
        ≡ length (kept_of (keeps_by keeper.now.table keeper.now.boxes block.entry.format) block.entry))
        × (out.new
        ≡ sets out.old 0
        (join (kept_of (keeps_by keeper.now.table keeper.now.boxes block.entry.format) block.entry))) }
{
    keeper.choose(block, chosen);
    let k = chosen.count;
    if k == block.count {
        let end = k * block.record_length;
        copying::copy_whole(&block.bytes[..end], out, 0);
    } else {
        copy_chosen(block, chosen, out);
    }
    k
}

// Writes the kept points to the front of `out`, block by block, and nothing else, and tallies the kept points of each
// block where they stand now, while they are in the first-level cache.
fn copy_blocks(keeper: &Keeper, points: Points<'_>, out: &mut [u8]) -> Tally
    requires { length (kept_of (keeps_by keeper.now.table keeper.now.boxes points.format) points)
        * points.record_length
        ≤ length out.old }
    ensures { (result
        ≡ tally_of points.entry.format
        (kept_of (keeps_by keeper.now.table keeper.now.boxes points.entry.format) points.entry))
        × (out.new
        ≡ sets out.old 0
        (join (kept_of (keeps_by keeper.now.table keeper.now.boxes points.entry.format) points.entry))) }
{
    let mut chosen = Chosen::default();
    let mut t = tally::fresh();
    let mut to = 0;
    let blocks = Blocks { rest: points };
    for block in blocks {
        let k = copy_block(keeper, block, &mut chosen, &mut out[to..]);
        t = tally::tally_more(t, &out[to..], block.format, block.record_length, k);
        to += k * block.record_length;
    }
    t
}

// Writes the kept points, one behind the other, and zeros behind them, and says their tally; `out` has room for them.
pub(crate) fn copy_points(keeper: &Keeper, points: Points<'_>, out: &mut [u8]) -> Tally
    requires { length (kept_of (keeps_by keeper.now.table keeper.now.boxes points.format) points)
        * points.record_length
        ≤ length out.old }
    ensures { (result
        ≡ tally_of points.entry.format
        (kept_of (keeps_by keeper.now.table keeper.now.boxes points.entry.format) points.entry))
        × (out.new
        ≡ take (length out.old)
        (join (kept_of (keeps_by keeper.now.table keeper.now.boxes points.entry.format) points.entry)
        ++ zeros (length out.old))) }
{
    let room = out.len();
    let t = copy_blocks(keeper, points, out);
    let to = (t.count as usize) * points.record_length;
    slices::zero(out, to, room);
    t
}
