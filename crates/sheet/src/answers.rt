// Checks a keep sheet, and says whether it keeps a class or a record, and how many lines were looked at for a class.
ghost use Rattle.std.specs.Prelude.{◌≡◌};
ghost use Rattle.fields.specs.Refusals.{by_number};
ghost use Rattle.sheet.specs.Keeping.{Refused, kept_by, class_kept, record_kept, class_test};
ghost use Rattle.sheet.specs.Tests.{tested_by};
ghost use Rattle.sheet.specs.Tests as tested;

use crate::lookup;
use fields::refusal::Refusal;

// Checks the sheet, and says whether a line holds a class and how many lines were looked at for it.
#[tactic(auto, unfolding(crate::specs::Keeping::tested_under, crate::specs::Keeping::keeps_class, crate::specs::Keeping::lines_for, crate::specs::Keeping::search_of))]
pub fn class_test(sheet: &[u8], class: u8) -> Result<lookup::Searched, Refusal>
    ensures { by_number tested_by tested.Refused result ≡ class_test sheet.now class }
{
    let searched = lookup::search_class(sheet, class);
    crate::check_sheet(sheet)?;
    Ok(searched)
}

// Checks the sheet, and says whether it keeps a class.
#[tactic(auto, unfolding(crate::specs::Keeping::kept_under))]
pub fn class_kept(sheet: &[u8], class: u8) -> Result<bool, Refusal>
    ensures { by_number kept_by Refused result ≡ class_kept sheet.now class }
{
    let kept = lookup::holds_class(sheet, class);
    crate::check_sheet(sheet)?;
    Ok(kept)
}

// Checks the sheet, and says whether it keeps a record.
#[tactic(auto, unfolding(crate::specs::Keeping::kept_under))]
pub fn record_kept(sheet: &[u8], user: &[u8], id: u16) -> Result<bool, Refusal>
    ensures { by_number kept_by Refused result ≡ record_kept sheet.now user.now id }
{
    let kept = lookup::holds_record(sheet, user, id);
    crate::check_sheet(sheet)?;
    Ok(kept)
}
