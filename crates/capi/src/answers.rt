// Answers of the library as structs of numbers with C's layout: the refusal's number first, 0 where it is accepted. On
// a refusal the other numbers are 0, but for the length that an output would need.
ghost use Rattle.std.specs.Prelude.{◌≡◌};
ghost use Rattle.fields.specs.Checks.{number_of};
ghost use Rattle.fields.specs.Refusals.{verdict_of, by_number};
ghost use Rattle.sheet.specs.Keeping.{kept_by};
ghost use Rattle.sheet.specs.Keeping as kept;
ghost use Rattle.sheet.specs.Tests.{tested_by};
ghost use Rattle.sheet.specs.Tests as tested;
ghost use Rattle.publicpart.specs.Answers.{answer_of};
ghost use Rattle.publicpart.specs.Cutting as listed;
ghost use Rattle.editor.specs.Mend.{mended_of};
ghost use Rattle.capi.specs.Answers.{released_numbers, listed_numbers, kept_numbers, tested_numbers, mark_numbers, mended_numbers};

use fields::refusal::Refusal;
use publicpart::{ReleaseError, Released};
use sheet::lookup::Searched;

#[repr(C)]
#[derive(Clone, Copy, Debug, Default, PartialEq, Eq)]
pub struct las_released {
    pub number: u64,
    pub length: u64,
    pub points: u64,
    pub records: u64,
}

#[repr(C)]
#[derive(Clone, Copy, Debug, Default, PartialEq, Eq)]
pub struct las_listed {
    pub number: u64,
    pub lines: u64,
}

#[repr(C)]
#[derive(Clone, Copy, Debug, Default, PartialEq, Eq)]
pub struct las_kept {
    pub number: u64,
    pub kept: u64,
}

#[repr(C)]
#[derive(Clone, Copy, Debug, Default, PartialEq, Eq)]
pub struct las_class_line {
    pub number: u64,
    pub kept: u64,
    pub lines: u64,
}

#[repr(C)]
#[derive(Clone, Copy, Debug, Default, PartialEq, Eq)]
pub struct las_mended {
    pub number: u64,
    pub marks: [u64; 12],
}

// The number of a check.
// (No `From`: neither type is of this crate.)
#[tactic(auto, unfolding(fields::specs::Checks::number_of))]
pub(crate) fn number_of(checked: Result<(), Refusal>) -> u64
    ensures { result ≡ number_of (verdict_of checked) }
{
    match checked {
        Ok(()) => 0,
        Err(refusal) => refusal.number(),
    }
}

// The numbers of a release.
#[tactic(auto, unfolding(crate::specs::Answers::released_numbers))]
impl From<Result<Released, ReleaseError>> for las_released {
    ghost from_gives = { λ answer numbers. numbers ≡ released_numbers (answer_of answer) };

    fn from(answer: Result<Released, ReleaseError>) -> las_released {
        match answer {
            Ok(released) => las_released {
                number: 0,
                length: released.length as u64,
                points: released.points as u64,
                records: released.records as u64,
            },
            Err(ReleaseError::OutputTooShort(needed)) => las_released {
                number: Refusal::OutputTooShort.number(),
                length: needed as u64,
                ..las_released::default()
            },
            Err(ReleaseError::Refused(refusal)) => las_released {
                number: refusal.number(),
                ..las_released::default()
            },
        }
    }
}

// The numbers of a cutting list.
#[tactic(auto, unfolding(crate::specs::Answers::listed_numbers))]
impl From<Result<usize, Refusal>> for las_listed {
    ghost from_gives = { λ answer numbers. numbers ≡ listed_numbers (by_number listed.Lines listed.Refused answer) };

    fn from(answer: Result<usize, Refusal>) -> las_listed {
        match answer {
            Ok(lines) => las_listed {
                number: 0,
                lines: lines as u64,
            },
            Err(refusal) => las_listed {
                number: refusal.number(),
                lines: 0,
            },
        }
    }
}

// The numbers of what a sheet says of a class or a record.
#[tactic(auto, unfolding(crate::specs::Answers::kept_numbers))]
impl From<Result<bool, Refusal>> for las_kept {
    ghost from_gives = { λ answer numbers. numbers ≡ kept_numbers (by_number kept_by kept.Refused answer) };

    fn from(answer: Result<bool, Refusal>) -> las_kept {
        match answer {
            Ok(kept) => las_kept {
                number: 0,
                kept: u64::from(kept),
            },
            Err(refusal) => las_kept {
                number: refusal.number(),
                kept: 0,
            },
        }
    }
}

// The numbers of a class test.
#[tactic(auto, unfolding(crate::specs::Answers::tested_numbers))]
impl From<Result<Searched, Refusal>> for las_class_line {
    ghost from_gives = { λ answer numbers. numbers ≡ tested_numbers (by_number tested_by tested.Refused answer) };

    fn from(answer: Result<Searched, Refusal>) -> las_class_line {
        match answer {
            Ok(searched) => las_class_line {
                number: 0,
                kept: u64::from(searched.found),
                lines: u64::from(searched.lines),
            },
            Err(refusal) => las_class_line {
                number: refusal.number(),
                ..las_class_line::default()
            },
        }
    }
}

// A mark is 1 for yes.
// (No `From`: neither type is of this crate.)
fn mark_numbers(m: [bool; 12]) -> [u64; 12]
    ensures { result ≡ mark_numbers m }
{
    [
        m[0] as u64,
        m[1] as u64,
        m[2] as u64,
        m[3] as u64,
        m[4] as u64,
        m[5] as u64,
        m[6] as u64,
        m[7] as u64,
        m[8] as u64,
        m[9] as u64,
        m[10] as u64,
        m[11] as u64,
    ]
}

// The numbers of a mending.
#[tactic(auto, unfolding(crate::specs::Answers::mended_numbers, crate::specs::Answers::mark_numbers, fields::specs::Checks::number_of))]
impl From<Result<[bool; 12], Refusal>> for las_mended {
    ghost from_gives = { λ answer numbers. numbers ≡ mended_numbers (mended_of answer) };

    fn from(answer: Result<[bool; 12], Refusal>) -> las_mended {
        match answer {
            Ok(marks) => las_mended {
                number: 0,
                marks: mark_numbers(marks),
            },
            Err(why) => las_mended {
                number: why.number(),
                ..las_mended::default()
            },
        }
    }
}
