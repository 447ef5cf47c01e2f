// The keep sheet: its lines and checks, and which classes, records and points it keeps.
#![tactic(auto)]

pub mod answers;
pub mod boxes;
pub mod class_table;
pub mod lookup;

ghost use Rattle.std.specs.Prelude.{◌≡◌, [], ◌∷◌, drop, ◌<◌};
ghost use Rattle.std.specs.Iterator.{YieldsFirstRef, item_count};
ghost use Rattle.fields.specs.Bytes.{part, same};
ghost use Rattle.fields.specs.Checks.{first_failing};
ghost use Rattle.fields.specs.Refusals.{verdict_of};
ghost use Rattle.std.specs.Int.Signed.{le_z};
ghost use Rattle.sheet.specs.Sheet.{kind, kind_of, length_of, line_length, edge, low, high, box_in_order, first_line, after_line, lines_from, lines, in_order, line_checks, sheet_verdict};

use fields::refusal::Refusal;
use fields::{signed, slices};

// The places of a line's fields: its kind, the classes of a kind 1 line, and the six numbers of a kind 3 line.
const KIND: usize = 2;

pub(crate) const LOWEST: usize = 3;

pub(crate) const HIGHEST: usize = 4;

const EDGES: usize = 3;

// A sheet has at most so many lines.
const MOST_LINES: u8 = 64;

// The kind of a line: what it keeps.
#[derive(Clone, Copy, Debug, PartialEq, Eq)]
pub(crate) enum Kind {
    Classes,
    Record,
    Region,
}

impl Kind {
    // The kind of the line that bytes begin with, if it is a known one.
    #[tactic(auto, unfolding(crate::specs::Sheet::kind, crate::specs::Sheet::kind_of))]
    pub(crate) fn of(rest: &[u8]) -> Option<Kind>
        ensures { result ≡ kind_of (kind rest.now) }
    {
        match fields::numbers::u8_at(rest, KIND) {
            1 => Some(Kind::Classes),
            2 => Some(Kind::Record),
            3 => Some(Kind::Region),
            _ => None,
        }
    }

    // How long a line of the kind is.
    fn length(self) -> usize
        ensures { result ≡ length_of self }
    {
        match self {
            Kind::Classes => 5,
            Kind::Record => 21,
            Kind::Region => 27,
        }
    }
}

// The length of the line that bytes begin with, 0 for an unknown kind.
#[tactic(auto, using(crate::proofs::LineLaws::kinds))]
fn line_length(rest: &[u8]) -> usize
    ensures { result ≡ line_length (kind rest.now) }
{
    match Kind::of(rest) {
        Some(kind) => kind.length(),
        None => 0,
    }
}

// The line that bytes begin with, or as much of it as there is.
fn first_line(rest: &[u8]) -> &[u8]
    ensures { result.now ≡ first_line rest.now }
{
    slices::part_at(rest, 0, line_length(rest))
}

// What follows the line that bytes begin with: all behind its end, so that a walk works out one length for each line.
#[tactic(auto, using(crate::proofs::LineLaws::first_fits))]
fn after_line(rest: &[u8]) -> &[u8]
    ensures { result.now ≡ after_line rest.now }
{
    let line = first_line(rest);
    &rest[line.len()..]
}

// The lines of a sheet that are left, of which there are at most `left`.
#[derive(Clone, Debug, PartialEq, Eq, Drop)]
pub(crate) struct Lines<'a> {
    rest: &'a [u8],
    left: u8,
}

impl<'a> Lines<'a> {
    pub(crate) fn new(sheet: &'a [u8]) -> Lines<'a>
        ensures { lines_from result.left result.rest.now ≡ lines sheet.now }
    {
        Lines {
            rest: sheet,
            left: MOST_LINES,
        }
    }
}

#[tactic(auto, using(crate::proofs::LineLaws::turns))]
impl<'a> Iterator for Lines<'a> {
    type Item = &'a [u8];

    ghost remaining = { item_count (λ s. lines_from s.left s.rest.now) };

    ghost next_gives = { YieldsFirstRef (λ s. lines_from s.left s.rest.now) };

    fn next(&mut self) -> Option<&'a [u8]> {
        if self.left == 0 || self.rest.is_empty() {
            return None;
        }
        let line = first_line(self.rest);
        self.rest = after_line(self.rest);
        self.left -= 1;
        Some(line)
    }
}

// Number i of a box: low X, high X, low Y, high Y, low Z, high Z.
pub(crate) fn edge(line: &[u8], i: usize) -> i32
    requires { i < 6 }
    ensures { result ≡ edge i line.now }
{
    signed::i32_at(line, EDGES + 4 * i)
}

// Whether a box's low is at most its high on an axis.
fn axis_in_order(line: &[u8], axis: usize) -> bool
    requires { axis < 3 }
    ensures { result ≡ le_z (low axis line.now) (high axis line.now) }
{
    let low = edge(line, 2 * axis);
    let high = edge(line, 2 * axis + 1);
    low <= high
}

// The same on every axis.
fn box_in_order(line: &[u8]) -> bool
    ensures { result ≡ box_in_order line.now }
{
    axis_in_order(line, 0) & (axis_in_order(line, 1) & axis_in_order(line, 2))
}

// Whether a line has no low above its high, whether classes or edges of a box; true of a line that has none.
#[tactic(auto, unfolding(crate::specs::Sheet::in_order, crate::specs::Sheet::kind, crate::specs::Sheet::lowest, crate::specs::Sheet::highest))]
fn in_order(line: &[u8]) -> bool
    ensures { result ≡ in_order line.now }
{
    match Kind::of(line) {
        Some(Kind::Classes) => {
            fields::numbers::u8_at(line, LOWEST) <= fields::numbers::u8_at(line, HIGHEST)
        }
        Some(Kind::Region) => box_in_order(line),
        _ => true,
    }
}

// Whether bytes begin with a line's mark.
fn marked(rest: &[u8]) -> bool
    ensures { result ≡ same (part 0 2 rest.now) (0x4B ∷ 0x53 ∷ []) }
{
    slices::same_bytes(slices::part_at(rest, 0, 2), b"KS")
}

// Checks a line behind its mark: its kind, its length, and that no low is above its high.
#[tactic(auto, using(crate::proofs::LineLaws::kinds), unfolding(crate::specs::Sheet::line_checks, fields::specs::Checks::first_failing, fields::specs::Checks::fail_if, fields::specs::Checks::fails))]
fn check_body(rest: &[u8]) -> Result<(), Refusal>
    ensures { verdict_of result ≡ first_failing (drop 2 (line_checks rest.now)) }
{
    let Some(kind) = Kind::of(rest) else {
        return Err(Refusal::BadKind);
    };
    if rest.len() < kind.length() {
        return Err(Refusal::LineCut);
    }
    if in_order(rest) {
        Ok(())
    } else {
        Err(Refusal::LowAboveHigh)
    }
}

// Checks the line that bytes begin with.
fn check_line(rest: &[u8]) -> Result<(), Refusal>
    ensures { verdict_of result ≡ first_failing (line_checks rest.now) }
{
    if rest.len() < 3 {
        return Err(Refusal::LineCut);
    }
    if marked(rest) {
        check_body(rest)
    } else {
        Err(Refusal::BadMark)
    }
}

// The first check of a sheet that fails, line by line.
pub fn check_sheet(sheet: &[u8]) -> Result<(), Refusal>
    ensures { verdict_of result ≡ sheet_verdict sheet.now }
{
    let mut rest = sheet;
    for _ in Lines::new(sheet) {
        check_line(rest)?;
        rest = after_line(rest);
    }
    if rest.is_empty() {
        Ok(())
    } else {
        Err(Refusal::TooManyLines)
    }
}
