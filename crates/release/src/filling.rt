// Where the filling of a list stands, as a file is looked at one thing after the other: records, and then points.
ghost use Rattle.std.specs.Prelude.{◌≡◌, ◌+◌, ◌<◌};
ghost use Rattle.fields.specs.Bytes.{Bytes};
ghost use Rattle.release.specs.declared.kept_points.Keeper as declared;
ghost use Rattle.release.specs.Filling.{Ready, with_line, HasLine, Begun, Looked};

use crate::kept_points::Keeper;
use crate::vlrs;
use fields::slices;
use lasfile::{header, vlr};

// Where the filling of a list stands: line k comes next, and `more` says that k is less than n, the lines to fill.
// Still to look at are `records` records from `record_at` on, and then `points` points from `point_at` on. At hand is
// the first of these, and `place` and `length` are its line. The last two are the file's, so that no turn reads them
// again. (No Option in place of `more`: what is at hand is put before anything says whether it counts.)
// (Clone and Copy alone: nothing compares or prints it.)
#[derive(Clone, Copy)]
pub struct Filling {
    pub more: bool,
    pub k: usize,
    pub place: u64,
    pub length: u64,
    pub n: usize,
    pub records: usize,
    pub record_at: usize,
    pub points: usize,
    pub point_at: usize,
    pub format: u8,
    pub record_length: usize,
}

// The same, with the line of the thing at hand.
// (`Ready` and `HasLine` are asked, and are no fields: they speak of the file, which `Filling` does not hold.)
fn with_line(file: &[u8], t: Filling) -> Filling
    requires { Ready file.now t }
    ensures { result ≡ with_line file.now t }
{
    let mut u = t;
    u.more = t.k < t.n;
    if 0 < t.records {
        u.place = (t.record_at + vlr::FRONT) as u64;
        u.length = vlr::payload_length_at(file, t.record_at) as u64;
        return u;
    }
    u.place = t.point_at as u64;
    u.length = t.record_length as u64;
    u
}

// Where the filling of n lines begins.
pub(crate) fn first_line(file: &[u8], n: usize) -> Filling
    ensures { Begun file.now n result × HasLine file.now result }
{
    with_line(
        file,
        Filling {
            more: false,
            k: 0,
            place: 0,
            length: 0,
            n,
            records: header::record_count(file),
            record_at: header::header_size(file),
            points: header::point_count(file),
            point_at: header::point_offset(file),
            format: header::format(file),
            record_length: header::record_length(file),
        },
    )
}

// Behind the record at hand: k goes up where it is kept.
fn past_record(file: &[u8], sheet: &[u8], t: Filling) -> Filling
    requires { Ready file.now t × HasLine file.now t × (0 < t.records) }
    ensures { (keeper : declared.Keeper) → Looked sheet.now keeper file.now t result }
{
    let vlr = slices::part_at(file, t.record_at, file.len());
    let mut u = t;
    u.k = t.k + usize::from(vlrs::keeps(sheet, vlr));
    u.records = t.records - 1;
    u.record_at = t.record_at + vlr::size_at(file, t.record_at);
    u
}

// Behind the point at hand, with no branch on whether it is kept, where there is no box.
fn past_point(file: &[u8], keeper: &Keeper, t: Filling) -> Filling
    requires { Ready file.now t × HasLine file.now t × (t.records ≡ 0) × (0 < t.points) }
    ensures { (sheet : Bytes) → Looked sheet keeper.now file.now t result }
{
    let point = slices::part_at(file, t.point_at, t.record_length);
    let mut u = t;
    u.k = t.k + usize::from(keeper.keeps(t.format, point));
    u.points = t.points - 1;
    u.point_at = t.point_at + t.record_length;
    u
}

// Behind the thing at hand, and at the next. There is one as long as a line is still to fill.
pub(crate) fn next_line(file: &[u8], sheet: &[u8], keeper: &Keeper, t: Filling) -> Filling
    requires { Ready file.now t × HasLine file.now t × (0 < t.records + t.points) }
    ensures { Looked sheet.now keeper.now file.now t result
        × HasLine file.now result }
{
    if 0 < t.records {
        return with_line(file, past_record(file, sheet, t));
    }
    with_line(file, past_point(file, keeper, t))
}
