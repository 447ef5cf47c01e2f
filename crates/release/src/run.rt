// A run of point records.
ghost use Rattle.std.specs.Prelude.{◌≡◌, ◌+◌, ◌-◌, ◌*◌, ◌^◌, ◌≤◌, ◌<◌, length, take, drop};
ghost use Rattle.fields.specs.Bytes.{part, pieces};
ghost use Rattle.points.specs.Raw.{points_of};
ghost use Rattle.lasfile.specs.HeaderFields.{format, point_count, point_offset, record_length};

use fields::slices;
use lasfile::header;
use points::raw;

// Records of a format, one behind the other, that all lie in the bytes.
// (Clone and Copy alone: nothing compares or prints it.)
#[derive(Clone, Copy)]
pub(crate) struct Points<'a> {
    pub(crate) bytes: &'a [u8],
    pub(crate) format: u8,
    pub(crate) record_length: usize,
    pub(crate) count: usize,
    ghost long: { 20 ≤ record_length },
    ghost few: { count < 2 ^ 32 },
    ghost held: { count * record_length ≤ length bytes.now },
}

impl<'a> Points<'a> {
    // The first `count` records of a run, `record_length` bytes each; none where the run does not hold them.
    pub(crate) fn new(run: &'a [u8], format: u8, record_length: usize, count: usize) -> Points<'a>
        ensures records { pieces result.count result.record_length result.bytes.now
            ≡ points_of count record_length run.now }
        ensures format { result.format ≡ format }
        ensures size { 0 < result.count → result.record_length ≡ record_length }
    {
        if raw::holds(run.len(), record_length, count) {
            return Points {
                bytes: run,
                format,
                record_length,
                count,
            };
        }
        Points {
            bytes: run,
            format,
            record_length: raw::SHORTEST,
            count: 0,
        }
    }

    // The points of a file, as its header says where they are.
    pub(crate) fn of(file: &'a [u8]) -> Points<'a>
        ensures records { pieces result.count result.record_length result.bytes.now
            ≡ points_of (point_count file.now) (record_length file.now) (drop (point_offset file.now) file.now) }
        ensures format { result.format ≡ format file.now }
        ensures size { 0 < result.count → result.record_length ≡ record_length file.now }
    {
        let run = slices::part_at(file, header::point_offset(file), file.len());
        Points::new(
            run,
            header::format(file),
            header::record_length(file),
            header::point_count(file),
        )
    }

    // The record at a place.
    pub(crate) fn record_at(self, at: usize) -> &'a [u8]
        requires { at + self.record_length ≤ length self.bytes.now }
        ensures { result.now ≡ part at self.entry.record_length self.entry.bytes.now }
    {
        let end = at + self.record_length;
        &self.bytes[at..end]
    }

    // The first n records, and those behind them.
    pub(crate) fn split_at(self, n: usize) -> (Points<'a>, Points<'a>)
        requires { n ≤ self.count }
        ensures { (result.0.format ≡ self.entry.format)
            × (result.0.record_length ≡ self.entry.record_length)
            × (result.0.count ≡ n)
            × (result.0.bytes.now ≡ take (n * self.entry.record_length) self.entry.bytes.now)
            × (result.1.format ≡ self.entry.format)
            × (result.1.record_length ≡ self.entry.record_length)
            × (result.1.count ≡ self.entry.count - n)
            × (result.1.bytes.now ≡ drop (n * self.entry.record_length) self.entry.bytes.now) }
    {
        let (front, behind) = self.bytes.split_at(n * self.record_length);
        let block = Points {
            bytes: front,
            format: self.format,
            record_length: self.record_length,
            count: n,
        };
        let rest = Points {
            bytes: behind,
            format: self.format,
            record_length: self.record_length,
            count: self.count - n,
        };
        (block, rest)
    }
}
