// GeoKey lookups by halving: the search calls itself on one half of the entries that are left.
ghost use Rattle.std.specs.Prelude.{◌≡◌, ◌+◌, ◌*◌, ◌≤◌, ◌<◌, ◌^◌, length};
ghost use Rattle.geokeys.specs.GeoKeys.{key_count, entries};
ghost use Rattle.geokeys.specs.Halving.{halve, key_read, lookup_by_halving};
ghost use Rattle.geokeys.specs.Values.{read_of};
ghost use Rattle.geokeys.specs.Places.{halved_in};

use crate::{ENTRY, KeyValue, at_entry, entries, find_directory, payload_at};
use fields::numbers::number_at;
use fields::refusal::Refusal;

// What a lookup found, or why it found nothing, and how many entries of the directory it read.
#[derive(Clone, Copy, Debug, PartialEq, Eq)]
pub struct KeyRead {
    pub found: Result<KeyValue, Refusal>,
    pub reads: u64,
}

// An entry, if one was found, and how many were read.
#[derive(Clone, Copy, Debug, PartialEq, Eq)]
struct Search<'a> {
    found: Option<&'a [u8; ENTRY]>,
    reads: u64,
}

// What a search found, with one entry read before it. No search reads as many as 32, so that the sum fits.
fn one_more(rest: Search<'_>) -> Search<'_>
    requires { rest.reads < 32 }
    ensures { result ≡ record { found = rest.entry.found; reads = rest.entry.reads + 1 } }
{
    Search {
        found: rest.found,
        reads: rest.reads + 1,
    }
}

// Searches entries for a key. At least half of them fall away with each call, so that it calls itself at most as often
// as their number has bits.
fn halve(entries: &[[u8; ENTRY]], key: u16) -> Search<'_>
    requires { length entries.now < 2 ^ 29 }
    ensures { halved_in result ≡ halve entries.now key }
{
    if entries.is_empty() {
        return Search {
            found: None,
            reads: 0,
        };
    }
    let half = entries.len() / 2;
    let middle = &entries[half];
    let read = number_at(middle, 0, 2);
    if read == key as u64 {
        return Search {
            found: Some(middle),
            reads: 1,
        };
    }
    if (key as u64) < read {
        return one_more(halve(&entries[..half], key));
    }
    one_more(halve(&entries[half + 1..], key))
}

// Numbers 42 to 46, or the value of a key in a directory, and the entries read for it.
fn in_directory(file: &[u8], directory: &[u8], key: u16) -> KeyRead
    requires { 8 + 8 * key_count directory.now ≤ length directory.now }
    ensures { read_of result ≡ key_read file.now (halve (entries directory.now) key) }
{
    let search = halve(entries(directory), key);
    KeyRead {
        found: at_entry(file, search.found),
        reads: search.reads,
    }
}

// The value of a key, by halving: it checks the file, then 40 to 46, and says how many entries it read.
pub fn find_by_halving(file: &[u8], key: u16) -> KeyRead
    ensures { (read_of result ≡ lookup_by_halving file.now key) × (result.reads ≤ 13) }
{
    match find_directory(file) {
        Ok(at) => in_directory(file, payload_at(file, at), key),
        Err(refusal) => KeyRead {
            found: Err(refusal),
            reads: 0,
        },
    }
}
