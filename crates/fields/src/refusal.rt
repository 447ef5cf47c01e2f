// Why a call is refused: a case for each number of the tables in docs/SPECIFICATION.md, which has the conditions and
// their order.
ghost use Rattle.std.specs.Prelude.{◌≡◌, Some};
ghost use Rattle.fields.specs.Refusals.{refusal_number, refusal_words};

use std::error::Error;
use std::fmt;

#[derive(Clone, Copy, Debug, PartialEq, Eq)]
pub enum Refusal {
    // Fewer than 227 bytes.
    FileTooShort,
    // The signature is not "LASF".
    BadSignature,
    // The version is not 1.2.
    BadVersion,
    // The header size is below 227 or above the file's length.
    BadHeaderSize,
    // The point format is above 3.
    BadFormat,
    // The record length is below the format's size.
    BadRecordLength,
    // The point offset is below the header size or above the file's length.
    BadPointOffset,
    // A counted record runs past the point offset.
    RecordsPastOffset,
    // The points run past the file's end.
    PointsPastEnd,
    // A scale or an offset is out of its range.
    BadScaling,
    // The index is not below the number of points.
    NoPoint,
    // Bytes or room, record length and format do not go together.
    BadShape,
    // A field is too large to encode.
    FieldTooLarge,
    // There is no such record at the position.
    NoRecord,
    // A line does not begin with its mark.
    BadMark,
    // A line is of an unknown kind.
    BadKind,
    // A line is cut.
    LineCut,
    // A line's lowest class is above its highest, or a box's low above its high.
    LowAboveHigh,
    // A 65th line begins.
    TooManyLines,
    // The output is shorter than the released file: `publicpart::ReleaseError` has the length that is needed.
    OutputTooShort,
    // The list has fewer lines than there are kept records and points.
    ListTooShort,
    // There is no GeoKey directory.
    NoDirectory,
    // The directory is cut or of another version.
    BadDirectory,
    // The key is not found in the directory.
    NoKey,
    // The key's location is none that is known.
    BadLocation,
    // A number or a double has a count other than 1.
    BadCount,
    // The parameter record is absent.
    NoParameters,
    // The value runs past its record.
    ValuePastEnd,
    // A file has over 32,768 bytes.
    InputTooLong,
    // A file was not opened, read or written.
    FileFailed,
}

impl Refusal {
    // Its number in the tables.
    pub fn number(self) -> u64
        ensures { result ≡ refusal_number self }
    {
        match self {
            Refusal::FileTooShort => 1,
            Refusal::BadSignature => 2,
            Refusal::BadVersion => 3,
            Refusal::BadHeaderSize => 4,
            Refusal::BadFormat => 5,
            Refusal::BadRecordLength => 6,
            Refusal::BadPointOffset => 7,
            Refusal::RecordsPastOffset => 8,
            Refusal::PointsPastEnd => 9,
            Refusal::BadScaling => 10,
            Refusal::NoPoint => 11,
            Refusal::BadShape => 12,
            Refusal::FieldTooLarge => 13,
            Refusal::NoRecord => 18,
            Refusal::BadMark => 20,
            Refusal::BadKind => 21,
            Refusal::LineCut => 22,
            Refusal::LowAboveHigh => 23,
            Refusal::TooManyLines => 24,
            Refusal::OutputTooShort => 30,
            Refusal::ListTooShort => 31,
            Refusal::NoDirectory => 40,
            Refusal::BadDirectory => 41,
            Refusal::NoKey => 42,
            Refusal::BadLocation => 43,
            Refusal::BadCount => 44,
            Refusal::NoParameters => 45,
            Refusal::ValuePastEnd => 46,
            Refusal::InputTooLong => 50,
            Refusal::FileFailed => 51,
        }
    }
}

impl fmt::Display for Refusal {
    ghost output = { λ r. Some (refusal_words r) };

    fn fmt<W: fmt::Write>(&self, f: &mut fmt::Formatter<W>) -> fmt::Result {
        f.write_str(match self {
            Refusal::FileTooShort => "fewer than 227 bytes",
            Refusal::BadSignature => "signature is not \"LASF\"",
            Refusal::BadVersion => "version is not 1.2",
            Refusal::BadHeaderSize => "header size out of range",
            Refusal::BadFormat => "point format above 3",
            Refusal::BadRecordLength => "record length below the format's size",
            Refusal::BadPointOffset => "point offset out of range",
            Refusal::RecordsPastOffset => "a record runs past the point offset",
            Refusal::PointsPastEnd => "the points run past the file's end",
            Refusal::BadScaling => "a scale or an offset out of range",
            Refusal::NoPoint => "no such point",
            Refusal::BadShape => "wrong length for a point",
            Refusal::FieldTooLarge => "field too large to encode",
            Refusal::NoRecord => "no record at that index and position",
            Refusal::BadMark => "sheet line with a wrong mark",
            Refusal::BadKind => "sheet line of an unknown kind",
            Refusal::LineCut => "sheet line cut short",
            Refusal::LowAboveHigh => "sheet line with its low above its high",
            Refusal::TooManyLines => "more than 64 sheet lines",
            Refusal::OutputTooShort => "output shorter than the released file",
            Refusal::ListTooShort => "list shorter than the kept records and points",
            Refusal::NoDirectory => "no GeoKey directory",
            Refusal::BadDirectory => "unsound GeoKey directory",
            Refusal::NoKey => "key not in the directory",
            Refusal::BadLocation => "unknown key location",
            Refusal::BadCount => "key count is not 1",
            Refusal::NoParameters => "parameter record absent",
            Refusal::ValuePastEnd => "value runs past its record",
            Refusal::InputTooLong => "more than 32,768 bytes",
            Refusal::FileFailed => "not opened, read or written",
        })
    }
}

impl Error for Refusal {}
