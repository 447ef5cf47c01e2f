// Releases what sheet.bin keeps of in.las to out.las, in the folder where it runs, and prints one line: what was
// released, or the number of the refusal.
#![tactic(auto)]

mod input;
mod output;

ghost use Rattle.std.specs.Prelude.{Some, ◌++◌, codes, decimal};

use fields::refusal::Refusal;
use fields::slices;
use publicpart::{ReleaseError, Released};
use std::rt::Files;
use std::{fmt, io};

// The line for what was released: the length of out.las, its points and its records.
#[derive(Clone, Copy, Debug)]
struct Line(Released);

impl fmt::Display for Line {
    ghost output = { λ s. Some (codes "released " ++ (decimal s.0.length ++ (codes " points "
        ++ (decimal s.0.points ++ (codes " records " ++ decimal s.0.records))))) };

    fn fmt<W: fmt::Write>(&self, f: &mut fmt::Formatter<W>) -> fmt::Result {
        write!(
            f,
            "released {} points {} records {}",
            self.0.length, self.0.points, self.0.records
        )
    }
}

// Releases in.las under sheet.bin. The output is as long as a file may be, so that it is never too short.
fn release_folder<R: Files>(rt: &R) -> Result<Released, ReleaseError> {
    let mut file_room = [0u8; input::ROOM];
    let file = input::read(rt, "in.las", &mut file_room)?;
    let mut sheet_room = [0u8; input::ROOM];
    let sheet = input::read(rt, "sheet.bin", &mut sheet_room)?;
    let mut out = [0u8; 32768];
    let released = release::release(file, sheet, &mut out)?;
    match output::save(rt, slices::part_at(&out, 0, released.length)) {
        Ok(()) => Ok(released),
        Err(_) => Err(ReleaseError::from(Refusal::FileFailed)),
    }
}

// Prints the line by one call, so that it comes out whole.
fn main(rt: HostRuntime) -> io::Result<()> {
    match release_folder(&rt) {
        Ok(released) => println!(rt; "{}", Line(released)),
        Err(error) => println!(rt; "refused {}", error.number()),
    }
}
