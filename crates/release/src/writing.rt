// Writes what the lines of a list name: records with their headers, and points.
ghost use Rattle.std.specs.Prelude.{◌≡◌, ◌+◌, ◌-◌, ◌≤◌, length};
ghost use Rattle.std.proofs.lemmas.List.Edits.{sets};
ghost use Rattle.lasfile.specs.Records.{front_size};
ghost use Rattle.publicpart.specs.Cutting.{named};
ghost use Rattle.release.specs.Writing.{record_from, records_named, points_named, ItemsFit, with_items};

use crate::vlrs;
use fields::{copying, numbers, slices};
use lasfile::{header, vlr};
use publicpart::{Released, Span};

// The place of a record, from that of its payload.
fn record_place(payload: usize) -> usize
    ensures { result ≡ payload - front_size 2 }
{
    if payload < vlr::FRONT {
        0
    } else {
        payload - vlr::FRONT
    }
}

// Writes the record whose payload a line names, with its header, to the part of `out` that starts at a place, and says
// how long it is. No payload is longer than the file, so that the sum does not wrap.
fn write_record(file: &[u8], line: Span, out: &mut [u8], to: usize) -> usize
    ensures { (result ≡ length (record_from file.now line))
        × (out.new ≡ sets out.old to (record_from file.now line)) }
{
    let record = record_place(line.place as usize);
    let payload = numbers::least(line.length as usize, file.len());
    let vlr = slices::part_at(file, record, vlr::FRONT + payload);
    vlrs::put_record_at(vlr, out, to)
}

// Writes the point that a line names, as it is.
fn write_point(file: &[u8], line: Span, out: &mut [u8], to: usize) -> usize
    ensures { (result ≡ length (named file.now line))
        × (out.new ≡ sets out.old to (named file.now line)) }
{
    let point = slices::part_at(file, line.place as usize, line.length as usize);
    copying::copy(point, out, to);
    point.len()
}

// Writes the records that lines name one after the other, from a place on, and says where they end.
#[tactic(auto, using(crate::proofs::writing::ItemLaws::writing))]
fn write_records(file: &[u8], list: &[Span], out: &mut [u8], from: usize) -> usize
    requires { from + length (records_named file.now list.now) ≤ length out.old }
    ensures { (result ≡ from + length (records_named file.now list.now))
        × (out.new ≡ sets out.old from (records_named file.now list.now)) }
{
    let mut to = from;
    for line in list {
        to += write_record(file, *line, out, to);
    }
    to
}

// Writes the points that lines name one after the other, from a place on.
#[tactic(auto, using(crate::proofs::writing::ItemLaws::writing))]
fn write_points(file: &[u8], list: &[Span], out: &mut [u8], from: usize)
    requires { from + length (points_named file.now list.now) ≤ length out.old }
    ensures { out.new ≡ sets out.old from (points_named file.now list.now) }
{
    let mut to = from;
    for line in list {
        to += write_point(file, *line, out, to);
    }
}

// Writes what the lines of a list name one after the other, directly after the header: first records, then points.
pub(crate) fn write_lines(file: &[u8], list: &[Span], released: Released, out: &mut [u8])
    requires { ItemsFit file.now list.now released (length out.old) }
    ensures { out.new ≡ with_items file.now list.now released out.old }
{
    let (records, behind) = list.split_at(released.records);
    let end = write_records(file, records, out, header::HEADER_BLOCK);
    write_points(file, &behind[..released.points], out, end);
}
