// The walk over a file's variable length records, a step at a time.
ghost use Rattle.std.specs.Prelude.{◌≡◌, ◌+◌, ◌<◌, ◌^◌};
ghost use Rattle.fields.specs.Refusals.{by_number};
ghost use Rattle.reader.specs.Steps.{Record, Refused, record_places, step_of};

use fields::numbers::{fits_in, number_at};
use fields::refusal::Refusal;
use fields::{slices, text};
use lasfile::vlr::{DESCRIPTION, FRONT, RECORD_ID, USER_ID};
use lasfile::{header, vlr};

// Where the parts of a record lie in the file. The texts' lengths are those of their cuts.
#[derive(Clone, Copy, Debug, PartialEq, Eq)]
pub struct RecordPlaces {
    pub user_place: usize,
    pub user_length: usize,
    pub record_id: u64,
    pub description_place: usize,
    pub description_length: usize,
    pub payload_place: usize,
    pub payload_length: usize,
}

// An index among the records, and a position in the file: first 0 and the header size. The two need not belong
// together.
#[derive(Clone, Copy, Debug, PartialEq, Eq)]
pub struct VlrCursor {
    pub index: usize,
    pub position: usize,
}

fn places_at(file: &[u8], at: usize) -> RecordPlaces
    requires { at + 54 < 2 ^ 64 }
    ensures { result ≡ record_places file.now at }
{
    RecordPlaces {
        user_place: at + USER_ID,
        user_length: text::cut_length(slices::part_at(file, at + USER_ID, 16)),
        record_id: number_at(file, at + RECORD_ID, 2),
        description_place: at + DESCRIPTION,
        description_length: text::cut_length(slices::part_at(file, at + DESCRIPTION, 32)),
        payload_place: at + FRONT,
        payload_length: vlr::payload_length_at(file, at),
    }
}

impl VlrCursor {
    // The record at the cursor and the next cursor; else a file check, or 18.
    pub fn step(self, file: &[u8]) -> Result<(RecordPlaces, VlrCursor), Refusal>
        ensures { by_number (λ x. Record x.0 x.1) Refused result ≡ step_of file.now self.index self.position }
    {
        lasfile::check_file(file)?;
        let index = self.index;
        let position = self.position;
        if header::record_count(file) <= index {
            return Err(Refusal::NoRecord);
        }
        if position < header::header_size(file) {
            return Err(Refusal::NoRecord);
        }
        if !fits_in(
            header::point_offset(file),
            position,
            vlr::size_at(file, position),
        ) {
            return Err(Refusal::NoRecord);
        }
        let places = places_at(file, position);
        let next = places.payload_place + places.payload_length;
        let behind = VlrCursor {
            index: index + 1,
            position: next,
        };
        Ok((places, behind))
    }
}
