// What a program gives back for a file that it reads, before anything looks at the bytes.
ghost use Rattle.std.specs.Prelude.{◌≡◌};
ghost use Rattle.fields.specs.Checks.{first_failing};
ghost use Rattle.fields.specs.Refusals.{verdict_of};
ghost use Rattle.lasfile.specs.Inputs.{input_checks};

use fields::refusal::Refusal;

// A file that is read has at most so many bytes.
const MOST_BYTES: usize = 32768;

// 51 for a file that was not opened or read to its end, 50 for a longer one than a file may be. The program's buffer
// holds one byte more than that.
pub fn input_verdict(is_read: bool, length: usize) -> Result<(), Refusal>
    ensures { verdict_of result ≡ first_failing (input_checks is_read length) }
{
    if !is_read {
        return Err(Refusal::FileFailed);
    }
    if MOST_BYTES < length {
        return Err(Refusal::InputTooLong);
    }
    Ok(())
}
