// Which classes and records a keep sheet keeps, by its lines alone.
ghost use Rattle.std.specs.Prelude.{◌≡◌, Bool};
ghost use Rattle.fields.specs.Bytes.{Bytes};
ghost use Rattle.fields.specs.Text.{cut};
ghost use Rattle.sheet.specs.Sheet.{lines};
ghost use Rattle.sheet.specs.Keeping.{contains_class, names_record, keeps_class, keeps_record, search_of};

use crate::{Kind, Lines};
use fields::{numbers, slices, text};

// The places of a kind 2 line's fields.
const USER_ID: usize = 3;

const RECORD_ID: usize = 19;

// What is looked for on a sheet.
trait Sought {
    ghost is_kept_by: { Self → Bytes → Bool };

    // Whether a line keeps it.
    fn is_kept_by(&self, line: &[u8]) -> bool
        ensures { result ≡ is_kept_by self.now line.now };
}

// A class: lines of kind 1 keep those that they contain.
#[derive(Clone, Copy, Debug, PartialEq, Eq)]
struct Class(u8);

#[tactic(auto, unfolding(crate::specs::Keeping::contains_class))]
impl Sought for Class {
    ghost is_kept_by = { λ c line. contains_class line c.0 };

    fn is_kept_by(&self, line: &[u8]) -> bool {
        match Kind::of(line) {
            Some(Kind::Classes) => {
                (numbers::u8_at(line, crate::LOWEST) <= self.0)
                    & (self.0 <= numbers::u8_at(line, crate::HIGHEST))
            }
            _ => false,
        }
    }
}

// A record by its user ID and its record ID: lines of kind 2 keep those that they name.
#[derive(Clone, Copy, Debug, PartialEq, Eq)]
struct Record<'a> {
    user: &'a [u8],
    id: u16,
}

#[tactic(auto, unfolding(crate::specs::Keeping::names_record))]
impl<'a> Sought for Record<'a> {
    ghost is_kept_by = { λ r line. names_record line (cut r.user.now) r.id };

    fn is_kept_by(&self, line: &[u8]) -> bool {
        match Kind::of(line) {
            Some(Kind::Record) => {
                text::same_cut(slices::part_at(line, USER_ID, 16), self.user)
                    & (numbers::number_at(line, RECORD_ID, 2) == u64::from(self.id))
            }
            _ => false,
        }
    }
}

// What a search comes to: whether a line keeps what is looked for, and how many lines were looked at. No Option: the
// lines are said of what is not kept too, and both come back in one register.
#[derive(Clone, Copy, Debug, PartialEq, Eq)]
pub struct Searched {
    pub found: bool,
    pub lines: u8,
}

// Looks for a line that keeps what is looked for, from the first line on, and leaves at the first that does.
fn search<S: Sought>(sheet: &[u8], sought: &S) -> Searched
    ensures { result ≡ search_of (S.is_kept_by sought.now) (lines sheet.now) }
{
    let mut looked = 0;
    for line in Lines::new(sheet) {
        looked += 1;
        if sought.is_kept_by(line) {
            return Searched {
                found: true,
                lines: looked,
            };
        }
    }
    Searched {
        found: false,
        lines: looked,
    }
}

// Looks for a line that contains a class. Does not check the sheet.
pub(crate) fn search_class(sheet: &[u8], class: u8) -> Searched
    ensures { result ≡ search_of (λ l. contains_class l class) (lines sheet.now) }
{
    search(sheet, &Class(class))
}

// Whether some line contains a class. Does not check the sheet.
#[tactic(auto, unfolding(crate::specs::Keeping::keeps_class, crate::specs::Keeping::search_of))]
pub(crate) fn holds_class(sheet: &[u8], class: u8) -> bool
    ensures { result ≡ keeps_class sheet.now class }
{
    search_class(sheet, class).found
}

// Whether some line names a record. Does not check the sheet.
#[tactic(auto, unfolding(crate::specs::Keeping::keeps_record, crate::specs::Keeping::search_of))]
pub fn holds_record(sheet: &[u8], user: &[u8], id: u16) -> bool
    ensures { result ≡ keeps_record sheet.now (cut user.now) id }
{
    search(sheet, &Record { user, id }).found
}
