//! The first module that has not the CRC that it should have.

ghost use Rattle.std.specs.Prelude.{◌≡◌, ◌≢◌, Contains, None, Some, IfOk, IfSome, MatchOption, OnOk, true};
ghost use Rattle.std.specs.List.{find};
ghost use Rattle.ssu_group.specs.Carried.{Fills, IsWrong, carried_image, is_right, is_wrong};
ghost use Rattle.ssu_group.specs.Map.{missing_below};
ghost use Rattle.ssu_group.specs.declared.module_plan.ModulePlan.{ModulePlan};
ghost use Rattle.ssu_io.specs.Faults.{HasCause};
ghost use Rattle.ssu_loader.specs.Collecting.{HasFilled, HoldsFilling, Works};
ghost use Rattle.ssu_loader.specs.Settling.{Stays};
ghost use Rattle.ssu_loader.specs.Verdicts.{DiffersFrom};

use flash_bank::{Bank, FlashFault};
use flash_dev::Flash;
use flash_stage::Stage;
use ssu_group::{GroupPlan, ModulePlan, Wrong};

/// Whether the bytes of the module have another CRC than its descriptor gives, if it gives one.
fn wrong_of<S: Stage, F: Flash>(
    stage: &mut S,
    bank: &mut Bank,
    flash: &mut F,
    plan: &GroupPlan,
    part: &ModulePlan,
) -> Result<Option<Wrong>, FlashFault>
    requires works { Works S.Stage F.Flash plan.now stage.old bank.old flash.old }
    requires whole { missing_below (S.has stage.old) plan.now.places ≡ 0 }
    requires part { Contains plan.now.modules.items part.now }
    ensures works { OnOk result (Works S.Stage F.Flash plan.now stage.new bank.new flash.new) }
    ensures wrong { F.tells → (fills : Fills) → HasFilled S.Stage plan.now fills stage.old
        → HoldsFilling S.Stage plan.now fills stage.old bank.old (F.contents flash.old)
        → IfOk result (λ answer. MatchOption answer (is_right (carried_image plan.now fills) part.now ≡ true)
        (λ wrong. IsWrong (carried_image plan.now fills) part.now wrong)) }
    ensures differs { IfOk result (λ answer. IfSome answer (λ wrong. DiffersFrom plan.now wrong.id wrong.want wrong.found)) }
    ensures stays { Stays S.Stage F.Flash stage.old bank.old flash.old stage.new bank.new flash.new }
    ensures most { S.most stage.new ≡ S.most stage.old }
    ensures cause { HasCause (F.faults flash.old) (F.faults flash.new) result }
{
    let Some(want) = part.crc else {
        return Ok(None);
    };
    let found = stage.module_crc(bank, flash, part)?;
    Ok(wrong_if(part.id, want, found))
}

fn wrong_if(id: u16, want: u32, found: u32) -> Option<Wrong>
    ensures { MatchOption result (found ≡ want) (λ wrong. (wrong ≡ record { id = id; want = want; found = found }) × (found ≢ want)) }
{
    if found == want {
        return None;
    }
    Some(Wrong { id, want, found })
}

/// The first of the modules whose bytes have not the CRC that its descriptor gives.
pub(crate) fn first_wrong<S: Stage, F: Flash>(
    stage: &mut S,
    bank: &mut Bank,
    flash: &mut F,
    plan: &GroupPlan,
) -> Result<Option<Wrong>, FlashFault>
    requires works { Works S.Stage F.Flash plan.now stage.old bank.old flash.old }
    requires whole { missing_below (S.has stage.old) plan.now.places ≡ 0 }
    ensures works { OnOk result (Works S.Stage F.Flash plan.now stage.new bank.new flash.new) }
    ensures wrong { F.tells → (fills : Fills) → HasFilled S.Stage plan.now fills stage.old
        → HoldsFilling S.Stage plan.now fills stage.old bank.old (F.contents flash.old)
        → IfOk result (λ answer. MatchOption answer (find (is_wrong (carried_image plan.now fills)) plan.now.modules.items ≡ None)
        (λ wrong. (m : ModulePlan) × (find (is_wrong (carried_image plan.now fills)) plan.now.modules.items ≡ Some m)
        × IsWrong (carried_image plan.now fills) m wrong)) }
    ensures differs { IfOk result (λ answer. IfSome answer (λ wrong. DiffersFrom plan.now wrong.id wrong.want wrong.found)) }
    ensures stays { Stays S.Stage F.Flash stage.old bank.old flash.old stage.new bank.new flash.new }
    ensures most { S.most stage.new ≡ S.most stage.old }
    ensures cause { HasCause (F.faults flash.old) (F.faults flash.new) result }
{
    for part in plan.modules.as_slice() {
        match wrong_of(stage, bank, flash, plan, part)? {
            None => {}
            Some(wrong) => return Ok(Some(wrong)),
        }
    }
    Ok(None)
}
