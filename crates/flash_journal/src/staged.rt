//! Whether the flash has a group staged.

ghost use Rattle.std.specs.Prelude.{◌≡◌, ◌↔◌, ◌+◌, ◌<◌, ◌≤◌, ◌||◌, IfOk, IsTrue, OnErr, OnOk, Some, false, true, ℕ};
ghost use Rattle.bank_kept.specs.Bank.{area_of_bank};
ghost use Rattle.bank_kept.specs.Contents.{StagesGroup};
ghost use Rattle.dsmcc_msg.specs.Control.{DiiFields};
ghost use Rattle.flash_bank.specs.Bank.{IsLent, current_of, geometry_of, is_spent, len_of};
ghost use Rattle.flash_journal.specs.Looks.{Looks};
ghost use Rattle.flash_journal.specs.Planned.{SlotFits, SlotsFitPlan, lost_in_plan};
ghost use Rattle.flash_kept.specs.Slots.{free_slots};
ghost use Rattle.flash_layout.specs.Layout.{mark_count, slots_at};
ghost use Rattle.flash_stage.specs.Keeping.{IsPlanOfMessage};
ghost use Rattle.ssu_io.specs.Faults.{HasCause};

use crate::header::header_stands;
use crate::places::place_with;
use crate::reading::{is_marked, slot_of, slots_begin};
use crate::slot::{free_count, slot_range};
use crate::stored::lost_count;
use flash_bank::{Bank, FlashFault};
use flash_dev::Flash;
use ssu_group::GroupPlan;

/// Whether a slot is not valid, or is the first that is for a place of the plan which is not marked.
fn slot_fits<F: Flash>(
    bank: &mut Bank,
    flash: &mut F,
    plan: &GroupPlan,
    slots: u32,
    slot: u32,
) -> Result<bool, FlashFault>
    requires lent { IsLent F.tells F.contents F.block_count F.block_len bank.old flash.old }
    requires two { (current_of bank.old).layout ≡ 2 }
    requires few { plan.now.places ≤ mark_count (geometry_of bank.old) }
    requires slots { slots ≡ slots_at (geometry_of bank.old) }
    requires slot { slot < 16 }
    ensures lent { OnOk result (IsLent F.tells F.contents F.block_count F.block_len bank.new flash.new) }
    ensures found { F.tells → IfOk result (λ yes. IsTrue yes ↔ SlotFits (area_of_bank bank.old) plan.now (F.contents flash.old) slot) }
    ensures looks { Looks F.tells F.contents F.block_count F.block_len F.moment F.left_since flash.old bank.old flash.new bank.new }
    ensures spent { OnErr result (is_spent bank.new ≡ true) }
    ensures cause { HasCause (F.faults flash.old) (F.faults flash.new) result }
{
    let range = slot_range(bank, flash, slots, slot)?;
    let Some(range) = range else {
        return Ok(true);
    };
    let Some(place) = place_with(plan, range) else {
        return Ok(false);
    };
    let marked = is_marked(bank, flash, place.number)?;
    if marked {
        return Ok(false);
    }
    let first = slot_of(bank, flash, place)?;
    Ok(first == Some(slot))
}

/// Whether each valid slot is for one place of the plan, each for another one, and none of them is marked.
fn slots_fit<F: Flash>(
    bank: &mut Bank,
    flash: &mut F,
    plan: &GroupPlan,
    slots: u32,
) -> Result<bool, FlashFault>
    requires lent { IsLent F.tells F.contents F.block_count F.block_len bank.old flash.old }
    requires two { (current_of bank.old).layout ≡ 2 }
    requires few { plan.now.places ≤ mark_count (geometry_of bank.old) }
    requires slots { slots ≡ slots_at (geometry_of bank.old) }
    ensures lent { OnOk result (IsLent F.tells F.contents F.block_count F.block_len bank.new flash.new) }
    ensures found { F.tells → IfOk result (λ yes. IsTrue yes ↔ SlotsFitPlan (area_of_bank bank.old) plan.now (F.contents flash.old)) }
    ensures looks { Looks F.tells F.contents F.block_count F.block_len F.moment F.left_since flash.old bank.old flash.new bank.new }
    ensures spent { OnErr result (is_spent bank.new ≡ true) }
    ensures cause { HasCause (F.faults flash.old) (F.faults flash.new) result }
{
    let mut slot = 0u32;
    while slot < 16 {
        let fits = slot_fits(bank, flash, plan, slots, slot)?;
        if !fits {
            return Ok(false);
        }
        slot += 1;
    }
    Ok(true)
}

/// Whether the slots fit the plan, and the free ones are at least as many as the lost places.
fn is_in_order<F: Flash>(
    bank: &mut Bank,
    flash: &mut F,
    plan: &GroupPlan,
) -> Result<bool, FlashFault>
    requires lent { IsLent F.tells F.contents F.block_count F.block_len bank.old flash.old }
    requires two { (current_of bank.old).layout ≡ 2 }
    requires inside { plan.now.total ≤ len_of bank.old }
    requires few { plan.now.places ≤ mark_count (geometry_of bank.old) }
    ensures lent { OnOk result (IsLent F.tells F.contents F.block_count F.block_len bank.new flash.new) }
    ensures found { F.tells → IfOk result (λ yes. IsTrue yes ↔ (SlotsFitPlan (area_of_bank bank.old) plan.now (F.contents flash.old)
        × (lost_in_plan (area_of_bank bank.old) plan.now (F.contents flash.old) ≤ free_slots (area_of_bank bank.old) (F.contents flash.old)))) }
    ensures looks { Looks F.tells F.contents F.block_count F.block_len F.moment F.left_since flash.old bank.old flash.new bank.new }
    ensures spent { OnErr result (is_spent bank.new ≡ true) }
    ensures cause { HasCause (F.faults flash.old) (F.faults flash.new) result }
{
    let slots = slots_begin(flash);
    let fit = slots_fit(bank, flash, plan, slots)?;
    if !fit {
        return Ok(false);
    }
    let free = free_count(bank, flash, slots)?;
    let lost = lost_count(bank, flash, plan)?;
    Ok(lost <= free)
}

/// Whether the flash has the group of this message staged, which has a mark for each place. `FlashFault` comes only where the flash failed and
/// its count of faults rose; the bank is spent then.
pub(crate) fn is_staged<F: Flash>(
    bank: &mut Bank,
    flash: &mut F,
    message: &[u8],
    plan: &GroupPlan,
) -> Result<bool, FlashFault>
    requires lent { IsLent F.tells F.contents F.block_count F.block_len bank.old flash.old }
    requires two { (current_of bank.old).layout ≡ 2 }
    requires next_fits { (current_of bank.old).number < 4294967295 }
    requires of_message { IsPlanOfMessage (len_of bank.old) message.now plan.now }
    requires few { plan.now.places ≤ mark_count (geometry_of bank.old) }
    ensures lent { OnOk result (IsLent F.tells F.contents F.block_count F.block_len bank.new flash.new) }
    ensures found { F.tells → IfOk result (λ yes. IsTrue yes
        ↔ ((dii : DiiFields) × StagesGroup (geometry_of bank.old) (F.contents flash.old) message.now dii)) }
    ensures looks { Looks F.tells F.contents F.block_count F.block_len F.moment F.left_since flash.old bank.old flash.new bank.new }
    ensures spent { OnErr result (is_spent bank.new ≡ true) }
    ensures cause { HasCause (F.faults flash.old) (F.faults flash.new) result }
{
    let headed = header_stands(bank, flash, message)?;
    if !headed {
        return Ok(false);
    }
    is_in_order(bank, flash, plan)
}
