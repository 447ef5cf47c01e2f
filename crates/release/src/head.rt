// A header, written from what it says: the carried fields of a file, and totals.
ghost use Rattle.std.specs.Prelude.{◌≡◌};
ghost use Rattle.std.proofs.lemmas.List.Edits.{sets};
ghost use Rattle.release.specs.declared.head.HeadTotals.{HeadTotals};
ghost use Rattle.release.specs.Heads.{head_with, head_bytes, fields_stored};

use fields::arrays::put_numbers;
use fields::numbers::{number_at, put_number};
use fields::{copying, slices, text};
use lasfile::header;
use lasfile::header::{HEADER_BLOCK, SCALING};
use scaling::Bounds;
use tally::{Bins, in_header};

// What a header says besides the carried fields.
// (Clone and Copy alone: nothing compares or prints it.)
#[derive(Clone, Copy)]
pub struct HeadTotals {
    pub offset: u64,
    pub records: u64,
    pub points: u64,
    pub bins: Bins,
    pub bounds: Bounds,
}

// Places 0 to 89: signature to generating software, which are the same for all totals.
fn put_front(source: &[u8], out: &mut [u8])
    ensures { (t : HeadTotals)
        → out.new ≡ fields_stored 0 5 (head_with source.now t) out.old }
{
    copying::copy(b"LASF", out, 0);
    copying::copy(slices::part_at(source, header::IDS, 20), out, header::IDS);
    copying::copy(b"\x01\x02", out, header::VERSION);
    text::put_text(out, header::SYSTEM, 32, source, header::SYSTEM);
    text::put_text(out, header::SOFTWARE, 32, source, header::SOFTWARE);
}

// Places 90 to 130: creation day to points by return.
fn put_middle(source: &[u8], totals: HeadTotals, out: &mut [u8])
    ensures { out.new ≡ fields_stored 5 9 (head_with source.now totals) out.old }
{
    let day = number_at(source, header::DAY, 2);
    let year = number_at(source, header::YEAR, 2);
    put_numbers(out, header::DAY, 2, &[day, year, HEADER_BLOCK as u64]);
    put_numbers(
        out,
        header::POINT_OFFSET,
        4,
        &[totals.offset, totals.records],
    );
    put_number(out, header::FORMAT, 1, header::format(source) as u64);
    put_number(
        out,
        header::RECORD_LENGTH,
        2,
        header::record_length(source) as u64,
    );
    in_header::put_counts(out, totals.points, totals.bins);
}

// Writes a header at the front of `out`: the carried fields of the file `source`, and these totals. A source shorter
// than a header gives none.
pub(crate) fn put_head(source: &[u8], totals: HeadTotals, out: &mut [u8])
    ensures { out.new ≡ sets out.old 0 (head_bytes source.now totals) }
{
    if source.len() < HEADER_BLOCK {
        return;
    }
    put_front(source, out);
    put_middle(source, totals, out);
    copying::copy(slices::part_at(source, SCALING, 48), out, SCALING);
    in_header::put_bounds(out, totals.bounds);
}
