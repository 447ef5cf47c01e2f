// Variable length records: the walk from one to the next.
ghost use Rattle.std.specs.Prelude.{◌≡◌, ◌+◌, ◌*◌, ◌<◌, ◌≤◌, ◌^◌, leb, drop};
ghost use Rattle.std.specs.Iterator.{YieldsFirstBy, at_most};
ghost use Rattle.lasfile.specs.FileChecks.{records_end};
ghost use Rattle.lasfile.specs.Records.{payload_length, size_of, placed, counted};

use crate::header;
use fields::slices;

// The bytes of a record's header, and the places of its fields behind the two reserved bytes.
pub const FRONT: usize = 54;

pub const USER_ID: usize = 2;

pub const RECORD_ID: usize = 18;

pub const PAYLOAD_LENGTH: usize = 20;

pub const DESCRIPTION: usize = 22;

// The payload length of the record at a place. Bytes past the end count as 0.
pub fn payload_length_at(file: &[u8], at: usize) -> usize
    ensures { (result ≡ payload_length 2 (drop at file.now)) × (result < 2 ^ 16) }
{
    if file.len() <= at {
        return 0;
    }
    fields::numbers::number_at(file, at + PAYLOAD_LENGTH, 2) as usize
}

// The size of the record at a place: its header and its payload.
pub fn size_at(file: &[u8], at: usize) -> usize
    ensures { (result ≡ size_of 2 (drop at file.now)) × (result < 2 ^ 17) }
{
    FRONT + payload_length_at(file, at)
}

// A record: its place in the file, the bytes from there on, of which a damaged file may have few or none, and where it
// ends, so that its length is read once.
#[derive(Clone, Copy, Debug, PartialEq, Eq)]
pub struct Vlr<'a> {
    pub place: usize,
    pub bytes: &'a [u8],
    pub end: usize,
    ghost ends: { end ≡ place + size_of 2 bytes.now },
}

// The counted records of a file that are left to walk, the first of them at a place and with the bytes from there on. A
// damaged file may count records that it does not have: each takes a step.
#[derive(Clone, Copy, Debug, PartialEq, Eq)]
pub struct Records<'a> {
    place: usize,
    rest: &'a [u8],
    left: usize,
    ghost in_range: { place + left * 2 ^ 17 < 2 ^ 50 },
}

#[tactic(auto, unfolding(crate::specs::Records::counted), using(crate::proofs::vlr::PlacedLaws::walks))]
impl<'a> Records<'a> {
    pub fn new(file: &'a [u8]) -> Records<'a>
        ensures { placed result.left result.place result.rest.now ≡ counted file.now }
    {
        let place = header::header_size(file);
        Records {
            place,
            rest: slices::part_at(file, place, file.len()),
            left: header::record_count(file),
        }
    }
}

#[tactic(auto, using(crate::proofs::vlr::PlacedLaws::walks))]
impl<'a> Iterator for Records<'a> {
    type Item = Vlr<'a>;

    ghost remaining = { λ r. at_most r.left };

    ghost next_gives = { YieldsFirstBy (λ v. (v.place, v.bytes.now)) (λ r. placed r.left r.place r.rest.now) };

    fn next(&mut self) -> Option<Vlr<'a>> {
        let Records { place, rest, left } = *self;
        if left == 0 {
            return None;
        }
        let size = size_at(rest, 0);
        let end = place + size;
        *self = Records {
            place: end,
            rest: slices::part_at(rest, size, rest.len()),
            left: left - 1,
        };
        Some(Vlr {
            place,
            bytes: rest,
            end,
        })
    }
}

// Whether the counted records of a file end by `end`. It stops at the first that does not, so that a damaged count
// costs no more steps than there are headers before `end`.
#[tactic(auto, using(crate::proofs::vlr::PlacedLaws::end_by))]
pub(crate) fn records_fit(file: &[u8], end: usize) -> bool
    ensures { result ≡ leb (records_end file.now) end }
{
    if end < header::header_size(file) {
        return false;
    }
    for vlr in Records::new(file) {
        if end < vlr.end {
            return false;
        }
    }
    true
}
