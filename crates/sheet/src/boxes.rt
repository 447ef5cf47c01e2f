// The boxes of a keep sheet, read once for a release, and whether a point lies in one of them.
ghost use Rattle.std.specs.Prelude.{◌≡◌, ◌≤◌, ◌<◌, ◌&&◌, eqb, ltb};
ghost use Rattle.sheet.specs.Keeping.{is_box};
ghost use Rattle.sheet.specs.Boxes.{BoxesOf, no_edges, no_boxes, edges_with, with_box, with_line, box_count, in_axis, along, in_box_at, in_first, in_any, in_boxes, keeps_by};

use crate::{Kind, Lines, class_table};
use points::raw;

// The lows and the highs of boxes on one axis, those of box j at place j, so that one edge of several boxes is read at
// once.
#[derive(Clone, Copy, Debug, PartialEq, Eq)]
pub struct Edges {
    pub low: [i32; 64],
    pub high: [i32; 64],
}

// The edges of up to 64 boxes on each axis, and how many boxes there are: below 0 stands for none, and above 64 for 64.
#[derive(Clone, Copy, Debug, PartialEq, Eq)]
pub struct Boxes {
    pub x: Edges,
    pub y: Edges,
    pub z: Edges,
    pub count: i32,
}

// No edges yet.
impl Default for Edges {
    fn default() -> Edges
        ensures { result ≡ no_edges }
    {
        Edges {
            low: [0; 64],
            high: [0; 64],
        }
    }
}

// No boxes yet.
impl Default for Boxes {
    fn default() -> Boxes
        ensures { result ≡ no_boxes }
    {
        Boxes {
            x: Edges::default(),
            y: Edges::default(),
            z: Edges::default(),
            count: 0,
        }
    }
}

impl Edges {
    // Puts the edges of box j.
    // (That j is one of 64 is asked, here, in `holds` and in `in_box_at`, as n is at most 64 in `in_first`: a type of
    // such numbers would be made of a `usize` and turned into one again at each use.)
    #[tactic(auto, unfolding(crate::specs::Boxes::edges_with))]
    fn put(&mut self, j: usize, low: i32, high: i32)
        requires { j < 64 }
        ensures { self.new ≡ edges_with j low high self.old }
    {
        self.low[j] = low;
        self.high[j] = high;
    }

    // Whether a stored value lies in box j on this axis.
    fn holds(&self, j: usize, z: i32) -> bool
        requires { j < 64 }
        ensures { result ≡ in_axis self.now j z }
    {
        (self.low[j] <= z) & (z <= self.high[j])
    }
}

#[tactic(auto, unfolding(crate::specs::Keeping::is_box))]
fn is_box(line: &[u8]) -> bool
    ensures { result ≡ is_box line.now }
{
    matches!(Kind::of(line), Some(Kind::Region))
}

// Puts the edges of a line's box behind those of the others.
fn put_box(line: &[u8], boxes: &mut Boxes)
    requires { box_count boxes.old < 64 }
    ensures { boxes.new ≡ with_box line.now boxes.old }
{
    let j = count(boxes);
    boxes.x.put(j, crate::edge(line, 0), crate::edge(line, 1));
    boxes.y.put(j, crate::edge(line, 2), crate::edge(line, 3));
    boxes.z.put(j, crate::edge(line, 4), crate::edge(line, 5));
}

// The same for a line that is a box, and counts it; one that is none changes nothing.
#[tactic(auto, unfolding(crate::specs::Boxes::with_line, crate::specs::Boxes::with_box))]
fn take_line(line: &[u8], boxes: &mut Boxes)
    requires { box_count boxes.old < 64 }
    ensures { boxes.new ≡ with_line boxes.old line.now }
{
    if is_box(line) {
        put_box(line, boxes);
        boxes.count = (count(boxes) + 1) as i32;
    }
}

// The boxes of a sheet. They are read once for a release, so that no point is looked up in the sheet.
pub fn boxes_of(sheet: &[u8]) -> Boxes
    ensures { BoxesOf sheet.now result }
{
    let mut boxes = Boxes::default();
    for line in Lines::new(sheet) {
        take_line(line, &mut boxes);
    }
    boxes
}

// How many boxes there are, from 0 to 64.
pub fn count(boxes: &Boxes) -> usize
    ensures { (result ≡ box_count boxes.now) × (result ≤ 64) }
{
    let n = boxes.count;
    if n < 0 {
        return 0;
    }
    if n < 64 { n as usize } else { 64 }
}

// Whether there is no box at all.
pub fn no_box(boxes: &Boxes) -> bool
    ensures { result ≡ eqb (box_count boxes.now) 0 }
{
    count(boxes) == 0
}

// Whether stored values lie in box j.
fn in_box_at(boxes: &Boxes, j: usize, p: raw::Stored) -> bool
    requires { j < 64 }
    ensures { result ≡ in_box_at boxes.now j (along p) }
{
    boxes.x.holds(j, p.x) & (boxes.y.holds(j, p.y) & boxes.z.holds(j, p.z))
}

// The same of any j: there is room for 64 boxes.
pub fn in_box(boxes: &Boxes, j: usize, p: raw::Stored) -> bool
    ensures { result ≡ (ltb j 64 && in_box_at boxes.now j (along p)) }
{
    if 64 <= j {
        return false;
    }
    in_box_at(boxes, j, p)
}

// Whether they lie in one of the first n boxes. All are looked at, with no branch, so that the compiler looks at
// several at once.
fn in_first(boxes: &Boxes, n: usize, p: raw::Stored) -> bool
    requires { n ≤ 64 }
    ensures { result ≡ in_first boxes.now n (along p) }
{
    let mut found = false;
    for j in 0..n {
        found |= in_box_at(boxes, j, p);
    }
    found
}

// Whether they lie in one of the boxes, where there are any.
pub fn in_any(boxes: &Boxes, p: raw::Stored) -> bool
    ensures { result ≡ in_any boxes.now (along p) }
{
    let n = count(boxes);
    (n == 0) | in_first(boxes, n, p)
}

// Whether a point does, by its bytes.
fn in_boxes(boxes: &Boxes, point: &[u8]) -> bool
    ensures { result ≡ in_boxes boxes.now point.now }
{
    in_any(boxes, raw::stored_of(point))
}

// Whether a table and boxes keep a point. Boxes are asked only where the table keeps it. Whether there is one is asked
// first, so that the loop that fills a list has little to pass where there is none.
pub fn keeps_by(table: &[bool; 256], boxes: &Boxes, format: u8, point: &[u8]) -> bool
    ensures { result ≡ keeps_by table.now boxes.now format point.now }
{
    if no_box(boxes) {
        return class_table::in_table(table, format, point);
    }
    let kept = class_table::in_table(table, format, point);
    if kept { in_boxes(boxes, point) } else { false }
}
