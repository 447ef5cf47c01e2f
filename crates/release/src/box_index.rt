// An index of boxes: which of them a point may lie in, by a grid of 64 cells on each axis. It is made once for a pass
// over points where there are several boxes, so that one of them is asked of a point, in most files, and not all.
ghost use Rattle.std.specs.Prelude.{◌≡◌, ◌≤◌, ◌<◌};
ghost use Rattle.sheet.specs.Boxes.{box_count, along, in_any};
ghost use Rattle.release.specs.BoxIndex.{key, cell_on, boxes_at, MarksCells, Marks, AxisCovers, Covers, Near};

use points::raw;
use sheet::boxes;
use sheet::boxes::{Boxes, Edges};

// How many cells an axis has.
const CELLS: usize = 64;

// The cells of one axis, bit j of a cell being set where box j reaches into it; where its first cell begins; and by how
// many bits a cell is wide. Stored values before the first cell and behind the last count as in these. So where an axis
// begins and how wide its cells are matters for speed alone.
#[derive(Clone, Copy, Debug, PartialEq, Eq)]
pub(crate) struct Axis {
    cells: [u64; 64],
    begin: u64,
    bits: u64,
}

#[derive(Clone, Copy, Debug, PartialEq, Eq)]
pub(crate) struct BoxIndex {
    x: Axis,
    y: Axis,
    z: Axis,
}

// A stored value as a number from 0 on, in the same order. (The library has no name for it.)
fn key(z: i32) -> u64
    ensures { result ≡ key z }
{
    (z as i64 + 2147483648) as u64
}

impl Axis {
    // The cells from the lowest low of the first n boxes to their highest high, with no box in them. A range with z
    // leading zeros has at most 64 cells of 58 - z bits; a range below 64 has 58 zeros or more, and cells one wide.
    // (Here and in `of` a number of boxes is asked to be at most 64, and in `mark_cells` and `mark` that of one box to
    // be below 64: a type of such numbers would be made of a `usize` and turned into one again at each use.)
    fn laid(edges: &Edges, n: usize) -> Axis
        requires { n ≤ 64 }
    {
        let low = key(edges.low[..n].iter().copied().min().unwrap_or(i32::MAX));
        let high = key(edges.high[..n].iter().copied().max().unwrap_or(i32::MIN));
        let zeros = u64::from(high.saturating_sub(low).leading_zeros());
        Axis {
            cells: [0; 64],
            begin: low,
            bits: 58u64.saturating_sub(zeros),
        }
    }

    // The cell of a stored value.
    fn cell_of(&self, z: i32) -> usize
        ensures { (result ≡ cell_on self.now z) × (result < 64) }
    {
        let cell = key(z).saturating_sub(self.begin) >> (self.bits % 64);
        (cell as usize).min(CELLS - 1)
    }

    // Sets bit j in the cells from one to another.
    fn mark_cells(&mut self, first: usize, last: usize, j: usize)
        requires { (j < 64) × (last < 64) }
        ensures { MarksCells first last j self.old self.new }
    {
        let bit = 1u64 << j;
        for k in first..=last {
            self.cells[k] |= bit;
        }
    }

    // Sets bit j in every cell that box j reaches into, from its low to its high.
    fn mark(&mut self, j: usize, low: i32, high: i32)
        requires { j < 64 }
        ensures { Marks j low high self.old self.new }
    {
        let first = self.cell_of(low);
        let last = self.cell_of(high);
        self.mark_cells(first, last, j);
    }

    // The axis of the first n boxes.
    fn of(edges: &Edges, n: usize) -> Axis
        requires { n ≤ 64 }
        ensures { AxisCovers edges.now n result }
    {
        let mut axis = Axis::laid(edges, n);
        for j in 0..n {
            axis.mark(j, edges.low[j], edges.high[j]);
        }
        axis
    }

    // The boxes that reach into the cell of a stored value, as bits.
    fn boxes_at(&self, z: i32) -> u64
        ensures { result ≡ boxes_at self.now z }
    {
        self.cells[self.cell_of(z)]
    }
}

impl BoxIndex {
    // The index of boxes. Where there are fewer than two it says nothing, and nobody asks it.
    pub(crate) fn of(boxes: &Boxes) -> BoxIndex
        ensures { Covers boxes.now result }
    {
        let count = boxes::count(boxes);
        let n = if 1 < count { count } else { 0 };
        BoxIndex {
            x: Axis::of(&boxes.x, n),
            y: Axis::of(&boxes.y, n),
            z: Axis::of(&boxes.z, n),
        }
    }

    // The boxes that stored values may lie in, as bits.
    fn boxes_near(&self, p: raw::Stored) -> u64
        ensures { Near self.now p result }
    {
        self.x.boxes_at(p.x) & self.y.boxes_at(p.y) & self.z.boxes_at(p.z)
    }

    // Whether stored values lie in one of n boxes. Where the index leaves one box at most, that box alone is asked,
    // with no branch on what it says, and else all of them.
    pub(crate) fn in_boxes(&self, boxes: &Boxes, n: usize, p: raw::Stored) -> bool
        requires { (0 < n) × (n ≡ box_count boxes.now) × Covers boxes.now self.now }
        ensures { result ≡ in_any boxes.now (along p) }
    {
        if n == 1 {
            return boxes::in_box(boxes, 0, p);
        }
        let near = self.boxes_near(p);
        let j = (u64::trailing_zeros(near) % 64) as usize;
        let inside = (j < n) & boxes::in_box(boxes, j, p);
        if (near == 0) | (near == 1u64 << j) {
            return inside;
        }
        boxes::in_any(boxes, p)
    }
}
