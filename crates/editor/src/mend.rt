// Mends a header that lies: number of points, points by return and bounds are worked out over the points that are
// there.
ghost use Rattle.std.specs.Prelude.{◌≡◌, ◌+◌, ◌*◌, ◌^◌, ◌≤◌, ◌<◌, length};
ghost use Rattle.fields.specs.Checks.{Passes};
ghost use Rattle.lasfile.specs.HeaderFields.{header_block, format};
ghost use Rattle.lasfile.specs.FileChecks.{mend_verdict};
ghost use Rattle.tally.specs.Tally.{tally_of, CountsUpTo};
ghost use Rattle.editor.specs.Mend.{mended_of, mended_count, mended_points, mend, differs, AllFit, six_differ, marks_for};

use fields::refusal::Refusal;
use fields::{numbers, slices};
use lasfile::header;
use scaling::{Bounds, Scaling};
use tally::{Tally, in_header};

// The smaller of the stated number of points and the whole records that fit after the point offset, so that a stated
// number costs no more than the bytes that are there.
fn points_there(file: &[u8]) -> usize
    requires { mend_verdict file.now ≡ Passes }
    ensures { result ≡ mended_count file.now }
{
    let stated = header::point_count(file);
    let room = file.len() - header::point_offset(file);
    let whole = room / header::record_length(file);
    numbers::least(stated, whole)
}

// Their tally.
fn tally_there(file: &[u8]) -> Tally
    requires { mend_verdict file.now ≡ Passes }
    ensures { result ≡ tally_of (format file.now) (mended_points file.now) }
{
    let offset = header::point_offset(file);
    let run = slices::part_at(file, offset, file.len());
    let format = header::format(file);
    let record_length = header::record_length(file);
    let count = points_there(file);
    tally::tally_more(tally::fresh(), run, format, record_length, count)
}

// Whether the bytes of a field are not those of a number.
// (Place, width and file stay three, as in `fields::numbers`: they meet for one call.)
fn field_differs(file: &[u8], at: usize, width: usize, n: u64) -> bool
    requires { (width ≤ 8) × (at + width ≤ length file.now) × (n < 256 ^ width) }
    ensures { result ≡ differs file.now at width n }
{
    numbers::number_at(file, at, width) != n
}

// The same of six fields, back to back from a place on.
fn six_differ(file: &[u8], at: usize, width: usize, n: &[u64; 6]) -> [bool; 6]
    requires { (width ≤ 8) × (at + 6 * width ≤ length file.now) × AllFit width n.now }
    ensures { result ≡ six_differ file.now at width n.now }
{
    [
        field_differs(file, at, width, n[0]),
        field_differs(file, at + width, width, n[1]),
        field_differs(file, at + 2 * width, width, n[2]),
        field_differs(file, at + 3 * width, width, n[3]),
        field_differs(file, at + 4 * width, width, n[4]),
        field_differs(file, at + 5 * width, width, n[5]),
    ]
}

// The marks of the twelve fields, before they are written: those of a tally and of bounds.
fn marks_for(file: &[u8], t: Tally, b: Bounds) -> [bool; 12]
    requires { (header_block ≤ length file.now) × CountsUpTo t 4294967295 }
    ensures { result ≡ marks_for file.now t b }
{
    let bins = t.bins;
    let counts = [
        t.count,
        bins.first,
        bins.second,
        bins.third,
        bins.fourth,
        bins.fifth,
    ];
    let bounds = [b.max_x, b.min_x, b.max_y, b.min_y, b.max_z, b.min_z];
    let c = six_differ(file, header::POINT_COUNT, 4, &counts);
    let d = six_differ(file, header::BOUNDS, 8, &bounds);
    [
        c[0], c[1], c[2], c[3], c[4], c[5], d[0], d[1], d[2], d[3], d[4], d[5],
    ]
}

// Mends a file that can be mended, and says which of the twelve fields changed.
fn mend_fields(file: &mut [u8]) -> [bool; 12]
    requires { mend_verdict file.old ≡ Passes }
    ensures { (record { verdict = Passes; marks = result }, file.new) ≡ mend file.old }
{
    let tally = tally_there(file);
    let bounds = tally::tally_bounds(tally, Scaling::read(file));
    let marks = marks_for(file, tally, bounds);
    in_header::put_counts(file, tally.count, tally.bins);
    in_header::put_bounds(file, bounds);
    marks
}

// Mends a file in place: number of points, points by return and bounds become those of the points that are there. Says
// of each of the twelve fields whether its bytes changed: number of points, points by return 1 to 5, max X, min X, max
// Y, min Y, max Z, min Z.
#[tactic(auto, unfolding(crate::specs::Mend::mend, crate::specs::Mend::mend_by))]
pub fn mend(file: &mut [u8]) -> Result<[bool; 12], Refusal>
    ensures { (mended_of result, file.new) ≡ mend file.old }
{
    lasfile::check_mendable(file)?;
    Ok(mend_fields(file))
}
