//! Which places of a group are stored in the flash, and which are lost.

ghost use Rattle.std.specs.Prelude.{◌≡◌, ◌+◌, ◌<◌, ◌≤◌, ◌||◌, IfOk, OnErr, OnOk, Some, false, true, ℕ};
ghost use Rattle.bank_kept.specs.Bank.{area_of_bank};
ghost use Rattle.flash_bank.specs.Bank.{IsLent, current_of, geometry_of, is_spent, len_of};
ghost use Rattle.flash_journal.specs.Looks.{Looks};
ghost use Rattle.flash_journal.specs.Planned.{lost_in_plan};
ghost use Rattle.flash_kept.specs.Lost.{is_lost};
ghost use Rattle.flash_kept.specs.Slots.{is_marked as is_marked_in, is_slotted};
ghost use Rattle.flash_layout.specs.Layout.{mark_count};
ghost use Rattle.ssu_group.specs.Map.{marked};
ghost use Rattle.ssu_group.specs.Place.{place_at};
ghost use Rattle.ssu_group.specs.declared.places.Place.{Place};
ghost use Rattle.ssu_io.specs.Faults.{HasCause};

use crate::places::nth_place;
use crate::reading::{is_marked, is_untouched, slot_of};
use flash_bank::{Bank, FlashFault};
use flash_dev::Flash;
use ssu_group::{BlockMap, GroupPlan, Place};

/// Whether a place is marked or slotted.
pub(crate) fn is_stored<F: Flash>(
    bank: &mut Bank,
    flash: &mut F,
    place: Place,
) -> Result<bool, FlashFault>
    requires lent { IsLent F.tells F.contents F.block_count F.block_len bank.old flash.old }
    requires two { (current_of bank.old).layout ≡ 2 }
    requires mark { place.number < mark_count (geometry_of bank.old) }
    ensures lent { OnOk result (IsLent F.tells F.contents F.block_count F.block_len bank.new flash.new) }
    ensures found { F.tells → IfOk result (λ yes. yes ≡ (is_marked_in (area_of_bank bank.old) (F.contents flash.old) place.number
        || is_slotted (area_of_bank bank.old) (F.contents flash.old) place)) }
    ensures looks { Looks F.tells F.contents F.block_count F.block_len F.moment F.left_since flash.old bank.old flash.new bank.new }
    ensures spent { OnErr result (is_spent bank.new ≡ true) }
    ensures cause { HasCause (F.faults flash.old) (F.faults flash.new) result }
{
    let marked = is_marked(bank, flash, place.number)?;
    if marked {
        return Ok(true);
    }
    let slot = slot_of(bank, flash, place)?;
    Ok(slot.is_some())
}

/// Whether a place is lost: it is neither marked nor slotted, and its range or its mark is not erased.
fn is_lost_place<F: Flash>(bank: &mut Bank, flash: &mut F, place: Place) -> Result<bool, FlashFault>
    requires lent { IsLent F.tells F.contents F.block_count F.block_len bank.old flash.old }
    requires two { (current_of bank.old).layout ≡ 2 }
    requires inside { place.at + place.len ≤ len_of bank.old }
    requires mark { place.number < mark_count (geometry_of bank.old) }
    ensures lent { OnOk result (IsLent F.tells F.contents F.block_count F.block_len bank.new flash.new) }
    ensures found { F.tells → IfOk result (λ yes. yes ≡ is_lost (area_of_bank bank.old) (F.contents flash.old) place.number (Some place)) }
    ensures looks { Looks F.tells F.contents F.block_count F.block_len F.moment F.left_since flash.old bank.old flash.new bank.new }
    ensures spent { OnErr result (is_spent bank.new ≡ true) }
    ensures cause { HasCause (F.faults flash.old) (F.faults flash.new) result }
{
    let stored = is_stored(bank, flash, place)?;
    if stored {
        return Ok(false);
    }
    let untouched = is_untouched(bank, flash, place)?;
    Ok(!untouched)
}

/// Whether the plan's place of that number is lost.
fn is_lost_at<F: Flash>(
    bank: &mut Bank,
    flash: &mut F,
    plan: &GroupPlan,
    number: u32,
) -> Result<bool, FlashFault>
    requires lent { IsLent F.tells F.contents F.block_count F.block_len bank.old flash.old }
    requires two { (current_of bank.old).layout ≡ 2 }
    requires inside { plan.now.total ≤ len_of bank.old }
    requires few { plan.now.places ≤ mark_count (geometry_of bank.old) }
    ensures lent { OnOk result (IsLent F.tells F.contents F.block_count F.block_len bank.new flash.new) }
    ensures found { F.tells → IfOk result (λ yes. yes ≡ is_lost (area_of_bank bank.old) (F.contents flash.old) number
        (place_at plan.now.block_size plan.now.modules.items number)) }
    ensures looks { Looks F.tells F.contents F.block_count F.block_len F.moment F.left_since flash.old bank.old flash.new bank.new }
    ensures spent { OnErr result (is_spent bank.new ≡ true) }
    ensures cause { HasCause (F.faults flash.old) (F.faults flash.new) result }
{
    match nth_place(plan, number) {
        Some(place) => is_lost_place(bank, flash, place),
        None => Ok(false),
    }
}

/// How many places of the plan are lost.
pub(crate) fn lost_count<F: Flash>(
    bank: &mut Bank,
    flash: &mut F,
    plan: &GroupPlan,
) -> Result<u32, FlashFault>
    requires lent { IsLent F.tells F.contents F.block_count F.block_len bank.old flash.old }
    requires two { (current_of bank.old).layout ≡ 2 }
    requires inside { plan.now.total ≤ len_of bank.old }
    requires few { plan.now.places ≤ mark_count (geometry_of bank.old) }
    ensures lent { OnOk result (IsLent F.tells F.contents F.block_count F.block_len bank.new flash.new) }
    ensures found { F.tells → IfOk result (λ count. count ≡ lost_in_plan (area_of_bank bank.old) plan.now (F.contents flash.old)) }
    ensures looks { Looks F.tells F.contents F.block_count F.block_len F.moment F.left_since flash.old bank.old flash.new bank.new }
    ensures spent { OnErr result (is_spent bank.new ≡ true) }
    ensures cause { HasCause (F.faults flash.old) (F.faults flash.new) result }
{
    let mut count = 0u32;
    let mut number = 0u32;
    while number < plan.places {
        let lost = is_lost_at(bank, flash, plan, number)?;
        if lost {
            count += 1;
        }
        number += 1;
    }
    Ok(count)
}

/// Whether the plan's place of that number is marked or slotted.
fn is_stored_at<F: Flash>(
    bank: &mut Bank,
    flash: &mut F,
    plan: &GroupPlan,
    number: u32,
) -> Result<bool, FlashFault>
    requires lent { IsLent F.tells F.contents F.block_count F.block_len bank.old flash.old }
    requires two { (current_of bank.old).layout ≡ 2 }
    requires few { plan.now.places ≤ mark_count (geometry_of bank.old) }
    ensures lent { OnOk result (IsLent F.tells F.contents F.block_count F.block_len bank.new flash.new) }
    ensures found { F.tells → IfOk result (λ yes. (p : Place) → place_at plan.now.block_size plan.now.modules.items number ≡ Some p
        → yes ≡ (is_marked_in (area_of_bank bank.old) (F.contents flash.old) number || is_slotted (area_of_bank bank.old) (F.contents flash.old) p)) }
    ensures looks { Looks F.tells F.contents F.block_count F.block_len F.moment F.left_since flash.old bank.old flash.new bank.new }
    ensures spent { OnErr result (is_spent bank.new ≡ true) }
    ensures cause { HasCause (F.faults flash.old) (F.faults flash.new) result }
{
    match nth_place(plan, number) {
        Some(place) => is_stored(bank, flash, place),
        None => Ok(false),
    }
}

/// Marks in a map, which has none yet, the places of the plan that are marked or slotted in the flash.
pub(crate) fn mark_stored<F: Flash>(
    bank: &mut Bank,
    flash: &mut F,
    plan: &GroupPlan,
    map: &mut BlockMap,
) -> Result<(), FlashFault>
    requires lent { IsLent F.tells F.contents F.block_count F.block_len bank.old flash.old }
    requires two { (current_of bank.old).layout ≡ 2 }
    requires few { plan.now.places ≤ mark_count (geometry_of bank.old) }
    requires places { map.old.places ≡ plan.now.places }
    requires none { (k : ℕ) → k < map.old.places → marked map.old k ≡ false }
    ensures lent { OnOk result (IsLent F.tells F.contents F.block_count F.block_len bank.new flash.new) }
    ensures most { map.new.most ≡ map.old.most }
    ensures places { map.new.places ≡ map.old.places }
    ensures marks { F.tells → OnOk result ((n : ℕ) (p : Place) → place_at plan.now.block_size plan.now.modules.items n ≡ Some p
        → marked map.new n ≡ (is_marked_in (area_of_bank bank.old) (F.contents flash.old) n
        || is_slotted (area_of_bank bank.old) (F.contents flash.old) p)) }
    ensures looks { Looks F.tells F.contents F.block_count F.block_len F.moment F.left_since flash.old bank.old flash.new bank.new }
    ensures spent { OnErr result (is_spent bank.new ≡ true) }
    ensures cause { HasCause (F.faults flash.old) (F.faults flash.new) result }
{
    let mut number = 0u32;
    while number < plan.places {
        let stored = is_stored_at(bank, flash, plan, number)?;
        if stored {
            map.mark(number);
        }
        number += 1;
    }
    Ok(())
}
