//! What becomes of a group once a block of it was taken.

ghost use Rattle.std.specs.Prelude.{◌≡◌, ◌≤◌, true, IfNone, IfOk, IfSome, None, OnOk};
ghost use Rattle.bank_kept.specs.Leaving.{HoldsNoMore};
ghost use Rattle.flash_bank.specs.Bank.{IsLent, geometry_of};
ghost use Rattle.flash_dev.specs.Moments.{LeavesOnly};
ghost use Rattle.flash_stage.specs.Keeping.{StagesNone};
ghost use Rattle.flash_stage.specs.Leaving.{SameBank};
ghost use Rattle.ssu_group.specs.Carried.{Fills, carried_image, missing_places, wrong_module};
ghost use Rattle.ssu_group.specs.Map.{missing_below};
ghost use Rattle.ssu_io.specs.Faults.{HasCause};
ghost use Rattle.ssu_loader.specs.Collecting.{HasFilled, HoldsFilling, IncludesFilled, Works};
ghost use Rattle.ssu_loader.specs.Decisions.{chosen_of};
ghost use Rattle.ssu_loader.specs.Leaving.{IfBadModule, UnlessInstalled};
ghost use Rattle.ssu_loader.specs.Settling.{Settles, SettlingLeaves};
ghost use Rattle.ssu_loader.specs.Staging.{StagingLeaves};
ghost use Rattle.ssu_loader.specs.Storing.{HasNoPrev};
ghost use Rattle.ssu_loader.specs.Verdicts.{IsOn};

use crate::wrong::first_wrong;
use flash_bank::{Bank, FlashFault};
use flash_dev::Flash;
use flash_stage::Stage;
use ssu_answer::{Chosen, Verdict};
use ssu_route::Choice;

/// Decides on the group of the choice once no place of it is missing: it is installed, or a module of it is wrong, and then the stage
/// forgets it.
pub(crate) fn settle<S: Stage, F: Flash>(
    stage: &mut S,
    bank: &mut Bank,
    flash: &mut F,
    choice: &Choice,
) -> Result<Option<Verdict>, FlashFault>
    requires works { Works S.Stage F.Flash choice.now.plan stage.old bank.old flash.old }
    // Some place is missing, and nothing was done.
    ensures missing { (fills : Fills) → IncludesFilled S.Stage choice.now.plan fills stage.old
        → IfOk result (λ answer. IfNone answer (1 ≤ missing_places choice.now.plan fills)) }
    ensures same { IfOk result (λ answer. IfNone answer ((stage.new ≡ stage.old) × (bank.new ≡ bank.old) × (flash.new ≡ flash.old))) }
    // The current record stays, unless the group was installed.
    ensures same_bank { UnlessInstalled result (SameBank bank.old bank.new) }
    // No place is missing.
    ensures group { IfOk result (λ answer. IfSome answer (IsOn choice.now)) }
    ensures whole { (fills : Fills) → HasFilled S.Stage choice.now.plan fills stage.old
        → IfOk result (λ answer. IfSome answer (λ verdict. missing_places choice.now.plan fills ≡ 0)) }
    ensures settled { F.tells → (fills : Fills) → HasFilled S.Stage choice.now.plan fills stage.old
        → HoldsFilling S.Stage choice.now.plan fills stage.old bank.old (F.contents flash.old)
        → IfOk result (λ answer. IfSome answer (Settles choice.now fills bank.old (F.contents flash.old) (F.contents flash.new))) }
    ensures held { F.tells → (fills : Fills) → HasFilled S.Stage choice.now.plan fills stage.old
        → HoldsFilling S.Stage choice.now.plan fills stage.old bank.old (F.contents flash.old)
        → SettlingLeaves choice.now fills bank.old (F.contents flash.old) (F.contents flash.new) }
    ensures left { F.tells → (fills : Fills) → HasFilled S.Stage choice.now.plan fills stage.old
        → HoldsFilling S.Stage choice.now.plan fills stage.old bank.old (F.contents flash.old)
        → LeavesOnly F.moment F.left_since flash.old flash.new (SettlingLeaves choice.now fills bank.old (F.contents flash.old)) }
    // Of a group of which a module is wrong nothing is staged any more, and nothing more is held than was.
    ensures forgotten { F.tells → S.KEEPS ≡ true
        → IfOk result (λ answer. IfBadModule answer (StagesNone (geometry_of bank.old) (F.contents flash.new))) }
    // And what boot took before the current image is gone, where the bank was begun for it.
    ensures no_prev { F.tells → S.IN_BANK ≡ true
        → IfOk result (λ answer. IfBadModule answer (HasNoPrev (geometry_of bank.old) (F.contents flash.new))) }
    ensures no_more { F.tells → HoldsNoMore (geometry_of bank.old) (F.contents flash.old) (F.contents flash.new) }
    ensures no_more_left { F.tells → LeavesOnly F.moment F.left_since flash.old flash.new
        (HoldsNoMore (geometry_of bank.old) (F.contents flash.old)) }
    ensures staging { F.tells → S.KEEPS ≡ true → (fills : Fills) → HasFilled S.Stage choice.now.plan fills stage.old
        → HoldsFilling S.Stage choice.now.plan fills stage.old bank.old (F.contents flash.old)
        → StagingLeaves 0 choice.now fills bank.old (F.contents flash.old) (F.contents flash.new) }
    ensures staging_left { F.tells → S.KEEPS ≡ true → (fills : Fills) → HasFilled S.Stage choice.now.plan fills stage.old
        → HoldsFilling S.Stage choice.now.plan fills stage.old bank.old (F.contents flash.old)
        → LeavesOnly F.moment F.left_since flash.old flash.new (StagingLeaves 0 choice.now fills bank.old (F.contents flash.old)) }
    ensures lent { OnOk result (IsLent F.tells F.contents F.block_count F.block_len bank.new flash.new) }
    ensures geometry { geometry_of bank.new ≡ geometry_of bank.old }
    ensures blocks { F.block_count flash.new ≡ F.block_count flash.old }
    ensures block_size { F.block_len flash.new ≡ F.block_len flash.old }
    ensures cause { HasCause (F.faults flash.old) (F.faults flash.new) result }
{
    if stage.missing() > 0 {
        return Ok(None);
    }
    match first_wrong(stage, bank, flash, &choice.plan)? {
        Some(wrong) => {
            stage.forget(bank, flash)?;
            Ok(Some(Verdict::BadModule(wrong.id, wrong.want, wrong.found)))
        }
        None => install(stage, bank, flash, choice),
    }
}

/// Installs the group, of which no place is missing.
fn install<S: Stage, F: Flash>(
    stage: &mut S,
    bank: &mut Bank,
    flash: &mut F,
    choice: &Choice,
) -> Result<Option<Verdict>, FlashFault>
    requires works { Works S.Stage F.Flash choice.now.plan stage.old bank.old flash.old }
    requires whole { missing_below (S.has stage.old) choice.now.plan.places ≡ 0 }
    ensures some { IfOk result (λ answer. IfNone answer ⊥) }
    ensures never { IfOk result (λ answer. IfBadModule answer ⊥) }
    ensures same_bank { UnlessInstalled result (SameBank bank.old bank.new) }
    ensures group { IfOk result (λ answer. IfSome answer (IsOn choice.now)) }
    ensures settled { F.tells → (fills : Fills) → HasFilled S.Stage choice.now.plan fills stage.old
        → HoldsFilling S.Stage choice.now.plan fills stage.old bank.old (F.contents flash.old)
        → wrong_module choice.now.plan.modules.items (carried_image choice.now.plan fills) ≡ None
        → IfOk result (λ answer. IfSome answer (Settles choice.now fills bank.old (F.contents flash.old) (F.contents flash.new))) }
    ensures held { F.tells → (fills : Fills) → HasFilled S.Stage choice.now.plan fills stage.old
        → HoldsFilling S.Stage choice.now.plan fills stage.old bank.old (F.contents flash.old)
        → wrong_module choice.now.plan.modules.items (carried_image choice.now.plan fills) ≡ None
        → SettlingLeaves choice.now fills bank.old (F.contents flash.old) (F.contents flash.new) }
    ensures left { F.tells → (fills : Fills) → HasFilled S.Stage choice.now.plan fills stage.old
        → HoldsFilling S.Stage choice.now.plan fills stage.old bank.old (F.contents flash.old)
        → wrong_module choice.now.plan.modules.items (carried_image choice.now.plan fills) ≡ None
        → LeavesOnly F.moment F.left_since flash.old flash.new (SettlingLeaves choice.now fills bank.old (F.contents flash.old)) }
    ensures no_more { F.tells → HoldsNoMore (geometry_of bank.old) (F.contents flash.old) (F.contents flash.new) }
    ensures no_more_left { F.tells → LeavesOnly F.moment F.left_since flash.old flash.new
        (HoldsNoMore (geometry_of bank.old) (F.contents flash.old)) }
    ensures staging { F.tells → S.KEEPS ≡ true → (fills : Fills) → HasFilled S.Stage choice.now.plan fills stage.old
        → HoldsFilling S.Stage choice.now.plan fills stage.old bank.old (F.contents flash.old)
        → wrong_module choice.now.plan.modules.items (carried_image choice.now.plan fills) ≡ None
        → StagingLeaves 0 choice.now fills bank.old (F.contents flash.old) (F.contents flash.new) }
    ensures staging_left { F.tells → S.KEEPS ≡ true → (fills : Fills) → HasFilled S.Stage choice.now.plan fills stage.old
        → HoldsFilling S.Stage choice.now.plan fills stage.old bank.old (F.contents flash.old)
        → wrong_module choice.now.plan.modules.items (carried_image choice.now.plan fills) ≡ None
        → LeavesOnly F.moment F.left_since flash.old flash.new (StagingLeaves 0 choice.now fills bank.old (F.contents flash.old)) }
    ensures lent { OnOk result (IsLent F.tells F.contents F.block_count F.block_len bank.new flash.new) }
    ensures geometry { geometry_of bank.new ≡ geometry_of bank.old }
    ensures blocks { F.block_count flash.new ≡ F.block_count flash.old }
    ensures block_size { F.block_len flash.new ≡ F.block_len flash.old }
    ensures cause { HasCause (F.faults flash.old) (F.faults flash.new) result }
{
    stage.finish(bank, flash, choice.software, choice.group)?;
    Ok(Some(Verdict::Installed(chosen(choice))))
}

/// The group of the choice.
pub(crate) fn chosen(choice: &Choice) -> Chosen
    ensures { result ≡ chosen_of choice.now }
{
    Chosen {
        group: choice.group,
        software: choice.software,
        bytes: choice.plan.total,
    }
}
