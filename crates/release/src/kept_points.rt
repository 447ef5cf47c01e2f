// The points of a run that a sheet keeps: where they stand, and how many they are.
// No loop over points branches on whether one is kept, since no processor can guess which way it goes.
ghost use Rattle.std.specs.Prelude.{◌≡◌, ◌≤◌, ◌<◌, length, take};
ghost use Rattle.lasfile.specs.HeaderFields.{format};
ghost use Rattle.sheet.specs.Keeping.{TableOf, in_table};
ghost use Rattle.sheet.specs.Boxes.{BoxesOf, box_count, in_boxes, keeps_by};
ghost use Rattle.release.specs.BoxIndex.{Covers};
ghost use Rattle.release.specs.KeptPoints.{kept_of, Places, Chooses, Leaves};

use crate::blocks::Blocks;
use crate::box_index::BoxIndex;
use crate::run::Points;
use lasfile::header;
use points::raw;
use sheet::boxes::Boxes;
use sheet::{boxes, class_table};

// The places of chosen records of a block, in order, and how many they are.
// (Clone and Copy alone: nothing compares or prints it.)
#[derive(Clone, Copy)]
pub(crate) struct Chosen {
    pub(crate) places: [usize; 64],
    pub(crate) count: usize,
}

// None is chosen yet.
impl Default for Chosen {
    fn default() -> Chosen {
        Chosen {
            places: [0; 64],
            count: 0,
        }
    }
}

// What a sheet keeps of the points of a file, made once for a release.
// (Clone and Copy alone: nothing compares or prints it.)
#[derive(Clone, Copy)]
pub(crate) struct Keeper {
    pub(crate) table: [bool; 256],
    pub(crate) boxes: Boxes,
    index: BoxIndex,
    ghost covers: { Covers boxes index },
}

impl Keeper {
    pub(crate) fn of(file: &[u8], sheet: &[u8]) -> Keeper
        ensures table { TableOf sheet.now (format file.now) result.table }
        ensures boxes { BoxesOf sheet.now result.boxes }
    {
        let table = class_table::class_table(sheet, header::format(file));
        let boxes = boxes::boxes_of(sheet);
        let index = BoxIndex::of(&boxes);
        Keeper {
            table,
            boxes,
            index,
        }
    }

    // Whether it keeps a point.
    pub(crate) fn keeps(&self, format: u8, point: &[u8]) -> bool
        ensures { result ≡ keeps_by self.now.table self.now.boxes format point.now }
    {
        boxes::keeps_by(&self.table, &self.boxes, format, point)
    }

    // Chooses the records of a block that the table keeps. Each place is put behind those chosen before, and stays
    // there only where its record is kept.
    // (`block.count ≤ 64` is asked, and no type of blocks holds it: `Points` are a run of any length, and it is
    // asked in this file and its one caller alone. Block and chosen stay two: one is read, the other filled anew
    // for each block.)
    fn choose_by_table(&self, block: Points<'_>, chosen: &mut Chosen)
        requires { block.count ≤ 64 }
        ensures { Chooses (in_table self.now.table block.entry.format) block.entry chosen.new }
    {
        let mut k = 0;
        for i in 0..block.count {
            let at = i * block.record_length;
            chosen.places[k] = at;
            let point = block.record_at(at);
            k += usize::from(class_table::in_table(&self.table, block.format, point));
        }
        chosen.count = k;
    }

    // Leaves of the chosen records those that lie in a box. Each place is put behind those that stay, and stays there
    // only where its record lies in one. No record is shorter than 20 bytes; that is asked so that the compiler knows
    // it, and makes no code for stored values cut short.
    // (That there is a box is asked, and no type of keepers with boxes holds it: `choose` and `count` ask `no_box`
    // before they call one of the three.)
    fn leave_in_boxes(&self, block: Points<'_>, chosen: &mut Chosen)
        requires { (chosen.old.count ≤ 64)
            × Places block.record_length block.bytes.now (take chosen.old.count chosen.old.places)
            × (0 < box_count self.now.boxes) }
        ensures { Leaves (in_boxes self.now.boxes) block.entry chosen.old chosen.new }
    {
        if block.record_length < raw::SHORTEST {
            return;
        }
        let n = boxes::count(&self.boxes);
        let mut m = 0;
        for j in 0..chosen.count {
            let at = chosen.places[j];
            chosen.places[m] = at;
            let p = raw::stored_of(block.record_at(at));
            m += usize::from(self.index.in_boxes(&self.boxes, n, p));
        }
        chosen.count = m;
    }

    // Chooses the kept records of a block. Boxes are asked only of the records that the table keeps.
    fn choose_by_both(&self, block: Points<'_>, chosen: &mut Chosen)
        requires { (block.count ≤ 64) × (0 < box_count self.now.boxes) }
        ensures { Chooses (keeps_by self.now.table self.now.boxes block.entry.format) block.entry chosen.new }
    {
        self.choose_by_table(block, chosen);
        self.leave_in_boxes(block, chosen);
    }

    // The same. Where there is no box, none is asked: a switch once for a block. A closure that is chosen here would be
    // called for each point.
    pub(crate) fn choose(&self, block: Points<'_>, chosen: &mut Chosen)
        requires { block.count ≤ 64 }
        ensures { Chooses (keeps_by self.now.table self.now.boxes block.entry.format) block.entry chosen.new }
    {
        if boxes::no_box(&self.boxes) {
            self.choose_by_table(block, chosen);
        } else {
            self.choose_by_both(block, chosen);
        }
    }

    // Counts the points that the table keeps.
    fn count_by_table(&self, points: Points<'_>) -> usize
        ensures { result ≡ length (kept_of (in_table self.now.table points.entry.format) points.entry) }
    {
        let mut n = 0;
        for i in 0..points.count {
            let point = points.record_at(i * points.record_length);
            n += usize::from(class_table::in_table(&self.table, points.format, point));
        }
        n
    }

    // Counts the kept points, block by block.
    fn count_by_both(&self, points: Points<'_>) -> usize
        requires { 0 < box_count self.now.boxes }
        ensures { result
            ≡ length (kept_of (keeps_by self.now.table self.now.boxes points.entry.format) points.entry) }
    {
        let mut chosen = Chosen::default();
        let mut n = 0;
        let blocks = Blocks { rest: points };
        for block in blocks {
            self.choose_by_both(block, &mut chosen);
            n += chosen.count;
        }
        n
    }

    // Counts the kept points. Where there is no box, none is asked: a switch once for all, as above.
    pub(crate) fn count(&self, points: Points<'_>) -> usize
        ensures { result
            ≡ length (kept_of (keeps_by self.now.table self.now.boxes points.entry.format) points.entry) }
    {
        if boxes::no_box(&self.boxes) {
            return self.count_by_table(points);
        }
        self.count_by_both(points)
    }
}
