// One point of a file.
ghost use Rattle.std.specs.Prelude.{◌≡◌};
ghost use Rattle.fields.specs.Refusals.{by_number};
ghost use Rattle.reader.specs.OnePoint.{At, Refused, point_at_of};

use fields::refusal::Refusal;
use fields::slices;
use lasfile::header;
use points::Point;

// The point of an index: the place of its record in the file, and its fields; else a file check, or 11.
pub fn point_at(file: &[u8], index: usize) -> Result<(usize, Point), Refusal>
    ensures { by_number (λ x. At x.0 x.1) Refused result ≡ point_at_of file.now index }
{
    lasfile::check_file(file)?;
    if header::point_count(file) <= index {
        return Err(Refusal::NoPoint);
    }
    let length = header::record_length(file);
    let place = header::point_offset(file) + index * length;
    let format = header::format(file);
    let point = points::decode(format, length as u16, slices::part_at(file, place, length))?;
    Ok((place, point))
}
