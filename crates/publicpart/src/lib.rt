// The public part of a file, what a sheet leaves of it, the released file and the cutting list: the definitions stand
// in specs/. What is code here is what a release answers, and a line of a list.
#![tactic(auto)]

ghost use Rattle.std.specs.Prelude.{◌≡◌, Some};
ghost use Rattle.publicpart.specs.Answers.{error_number, error_words};
ghost use Rattle.publicpart.specs.declared.ReleaseError.TheVariants.{Refused};

use fields::refusal::Refusal;
use std::error::Error;
use std::fmt;

// What was released: the file's length in bytes, its points and its records.
#[derive(Clone, Copy, Debug, PartialEq, Eq)]
pub struct Released {
    pub length: usize,
    pub points: usize,
    pub records: usize,
}

// Why nothing was released.
#[derive(Clone, Copy, Debug, PartialEq, Eq)]
pub enum ReleaseError {
    // A check fails.
    Refused(Refusal),
    // The output is shorter than the released file, whose length this is.
    OutputTooShort(usize),
}

impl ReleaseError {
    // Its number in the tables of docs/SPECIFICATION.md.
    pub fn number(self) -> u64
        ensures { result ≡ error_number self }
    {
        match self {
            ReleaseError::Refused(refusal) => refusal.number(),
            ReleaseError::OutputTooShort(_) => Refusal::OutputTooShort.number(),
        }
    }
}

impl From<Refusal> for ReleaseError {
    ghost from_gives = { λ refusal error. error ≡ Refused refusal };

    fn from(why: Refusal) -> ReleaseError {
        ReleaseError::Refused(why)
    }
}

impl fmt::Display for ReleaseError {
    ghost output = { λ e. Some (error_words e) };

    fn fmt<W: fmt::Write>(&self, f: &mut fmt::Formatter<W>) -> fmt::Result {
        match *self {
            ReleaseError::Refused(refusal) => write!(f, "{refusal}"),
            ReleaseError::OutputTooShort(needed) => {
                write!(f, "{} of {needed} bytes", Refusal::OutputTooShort)
            }
        }
    }
}

impl Error for ReleaseError {}

// A line of a cutting list: the bytes of a file from a place on.
#[repr(C)]
#[derive(Clone, Copy, Debug, PartialEq, Eq)]
pub struct Span {
    pub place: u64,
    pub length: u64,
}
