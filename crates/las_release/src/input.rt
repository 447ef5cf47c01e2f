// What the program reads: a file by name, as far as it takes to tell whether it is too long.
ghost use Rattle.std.specs.Prelude.{◌≡◌, ◌+◌, ◌≤◌, ◌<◌, length, take, drop, IfOk, IsErr, IsErrOf, IsOkAnd};
ghost use Rattle.fields.specs.declared.refusal.Refusal.TheVariants.{FileFailed, InputTooLong};
ghost use Rattle.std.specs.Io.KnownBytes.{Consumes, IsAtEnd};

use fields::refusal::Refusal;
use lasfile::inputs;
use std::fs::File;
use std::io;
use std::io::Read;
use std::rt::Files;

// One byte more than a file may have.
pub(crate) const ROOM: usize = 32769;

// One read, into buf from a place on.
fn read_at<R: Read>(reader: &mut R, buf: &mut [u8], at: usize) -> io::Result<usize>
    requires { at < length buf.old }
    ensures length { length buf.new ≡ length buf.old }
    ensures front { take at buf.new ≡ take at buf.old }
    ensures within { IfOk result (λ n. at + n ≤ length buf.new) }
    ensures bytes { IfOk result
        (λ n. Consumes (R.remaining reader.old) (R.remaining reader.new) (take n (drop at buf.new))) }
    ensures end { IfOk result (λ n. n ≡ 0 → IsAtEnd (R.remaining reader.new)) }
{
    reader.read(&mut buf[at..])
}

// Reads until the end or until buf is full, and answers how many bytes it read. A short read is not the end. (By hand:
// of bytes read before an error, the library's read_to_end says less. No range says how many turns there are.)
fn read_to_end<R: Read>(reader: &mut R, buf: &mut [u8]) -> io::Result<usize>
    ensures within { IfOk result (λ n. n ≤ length buf.new) }
    ensures bytes { IfOk result
        (λ n. Consumes (R.remaining reader.old) (R.remaining reader.new) (take n buf.new)) }
    ensures end { IfOk result (λ n. n < length buf.new → IsAtEnd (R.remaining reader.new)) }
{
    let mut done = 0;
    while done < buf.len() {
        let n = read_at(reader, buf, done)?;
        if n == 0 {
            return Ok(done);
        }
        done += n;
    }
    Ok(done)
}

// Opens a file by name, and reads it as read_to_end does.
fn read_file<R: Files>(rt: &R, path: &str, buf: &mut [u8; ROOM]) -> io::Result<usize>
    ensures { IfOk result (λ n. n ≤ length buf.new) }
{
    let mut file = File::open(rt, path)?;
    read_to_end(&mut file, buf)
}

// The bytes that were read; refused where the read failed (51), and where they are more than a file may have (50).
#[tactic(auto, unfolding(lasfile::specs::Inputs::input_checks, fields::specs::Checks::first_failing, fields::specs::Checks::fail_if, fields::specs::Checks::fails))]
fn accepted(read: io::Result<usize>, room: &[u8; ROOM]) -> Result<&[u8], Refusal>
    ensures failed { IsErr read → IsErrOf result FileFailed }
    ensures too_long { IfOk read (λ n. 32768 < n → IsErrOf result InputTooLong) }
    ensures bytes { IfOk read
        (λ n. n ≤ 32768 → IsOkAnd result (λ bytes. bytes.now ≡ take n room.now)) }
{
    let is_read = read.is_ok();
    let bytes = &room[..read.unwrap_or(0).min(ROOM)];
    inputs::input_verdict(is_read, bytes.len())?;
    Ok(bytes)
}

// Reads a file into the room, and answers its bytes.
pub(crate) fn read<'a, R: Files>(
    rt: &R,
    path: &str,
    room: &'a mut [u8; ROOM],
) -> Result<&'a [u8], Refusal> {
    let read = read_file(rt, path, room);
    accepted(read, room)
}
