// What is found in a file's records, as structs of numbers with C's layout: a step of the walk, and a GeoKey.
ghost use Rattle.std.specs.Prelude.{◌≡◌};
ghost use Rattle.fields.specs.Refusals.{by_number};
ghost use Rattle.reader.specs.Steps.{Record};
ghost use Rattle.reader.specs.Steps as step;
ghost use Rattle.geokeys.specs.GeoKeys as key;
ghost use Rattle.geokeys.specs.Values.{geokey_of, read_of};
ghost use Rattle.capi.specs.RecordAnswers.{found_record, record_numbers, geokey_numbers, read_numbers};

use fields::refusal::Refusal;
use geokeys::halving::KeyRead;
use geokeys::{DOUBLES, KeyValue, TEXTS};
use reader::cursor::{RecordPlaces, VlrCursor};

#[repr(C)]
#[derive(Clone, Copy, Debug, Default, PartialEq, Eq)]
pub struct las_record {
    pub number: u64,
    pub user_place: u64,
    pub user_length: u64,
    pub record_id: u64,
    pub description_place: u64,
    pub description_length: u64,
    pub payload_place: u64,
    pub payload_length: u64,
    pub next_index: u64,
    pub next_position: u64,
}

#[repr(C)]
#[derive(Clone, Copy, Debug, Default, PartialEq, Eq)]
pub struct las_geokey {
    pub number: u64,
    pub location: u64,
    pub value: u64,
    pub length: u64,
}

// What a lookup by halving finds, and how many entries it read.
#[repr(C)]
#[derive(Clone, Copy, Debug, Default, PartialEq, Eq)]
pub struct las_geokey_read {
    pub number: u64,
    pub location: u64,
    pub value: u64,
    pub length: u64,
    pub reads: u64,
}

// The numbers of a record, and of the cursor after it.
// (No `From`: it takes several values.)
fn found_record(places: RecordPlaces, next: VlrCursor) -> las_record
    ensures { result ≡ found_record places next }
{
    las_record {
        number: 0,
        user_place: places.user_place as u64,
        user_length: places.user_length as u64,
        record_id: places.record_id,
        description_place: places.description_place as u64,
        description_length: places.description_length as u64,
        payload_place: places.payload_place as u64,
        payload_length: places.payload_length as u64,
        next_index: next.index as u64,
        next_position: next.position as u64,
    }
}

// The numbers of one step of the walk.
#[tactic(auto, unfolding(crate::specs::RecordAnswers::record_numbers, crate::specs::RecordAnswers::no_record))]
impl From<Result<(RecordPlaces, VlrCursor), Refusal>> for las_record {
    ghost from_gives = { λ answer numbers. numbers ≡ record_numbers (by_number (λ x. Record x.0 x.1) step.Refused answer) };

    fn from(answer: Result<(RecordPlaces, VlrCursor), Refusal>) -> las_record {
        match answer {
            Ok((places, next)) => found_record(places, next),
            Err(refusal) => las_record {
                number: refusal.number(),
                ..las_record::default()
            },
        }
    }
}

// (No `From`: it takes several values.)
fn geokey(number: u64, location: u64, value: u64, length: u64) -> las_geokey
    ensures { result ≡ record { number = number; location = location; value = value; length = length } }
{
    las_geokey {
        number,
        location,
        value,
        length,
    }
}

// The numbers of a lookup.
#[tactic(auto, unfolding(crate::specs::RecordAnswers::geokey_numbers))]
impl From<Result<KeyValue, Refusal>> for las_geokey {
    ghost from_gives = { λ found numbers. numbers ≡ geokey_numbers (by_number geokey_of key.Refused found) };

    fn from(found: Result<KeyValue, Refusal>) -> las_geokey {
        match found {
            Ok(KeyValue::Number(value)) => geokey(0, 0, value, 0),
            Ok(KeyValue::Double(bits)) => geokey(0, DOUBLES, bits, 0),
            Ok(KeyValue::Text(place, length)) => geokey(0, TEXTS, place as u64, length as u64),
            Err(refusal) => geokey(refusal.number(), 0, 0, 0),
        }
    }
}

// The numbers of a lookup by halving.
#[tactic(auto, unfolding(crate::specs::RecordAnswers::read_numbers))]
impl From<KeyRead> for las_geokey_read {
    ghost from_gives = { λ read numbers. numbers ≡ read_numbers (read_of read) };

    fn from(read: KeyRead) -> las_geokey_read {
        let numbers = las_geokey::from(read.found);
        las_geokey_read {
            number: numbers.number,
            location: numbers.location,
            value: numbers.value,
            length: numbers.length,
            reads: read.reads,
        }
    }
}
