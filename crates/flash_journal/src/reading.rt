//! What the spare journal says of a place: whether it is marked, in which slot it is; and which slot is free.

ghost use Rattle.std.specs.Prelude.{◌≡◌, ◌↔◌, ◌+◌, ◌<◌, ◌≤◌, ◌||◌, IfOk, IfSome, IsTrue, OnErr, OnOk, Some, false, true, ℕ};
ghost use Rattle.bank_kept.specs.Bank.{area_of_bank};
ghost use Rattle.bank_kept.specs.Contents.{StagesGroup};
ghost use Rattle.dsmcc_msg.specs.Control.{DiiFields};
ghost use Rattle.flash_bank.specs.Bank.{IsLent, current_of, geometry_of, is_spent, len_of};
ghost use Rattle.flash_journal.specs.Looks.{Looks};
ghost use Rattle.flash_journal.specs.Reading.{is_range};
ghost use Rattle.flash_journal.specs.Texts.{keeps_places as keeps_places_in};
ghost use Rattle.flash_kept.specs.Counts.{find_below};
ghost use Rattle.flash_kept.specs.Lost.{is_untouched as is_untouched_in};
ghost use Rattle.flash_kept.specs.Slots.{is_free, is_slot_of, is_marked as is_marked_in, is_slotted};
ghost use Rattle.flash_layout.specs.Layout.{IsInLimits, blocks_of, mark_count, slots_at};
ghost use Rattle.flash_stage.specs.Keeping.{IsPlanOfMessage};
ghost use Rattle.ssu_group.specs.Map.{marked};
ghost use Rattle.ssu_group.specs.Place.{place_at};
ghost use Rattle.ssu_io.specs.Faults.{HasCause};

use crate::blank::is_blank;
use crate::side::{Side, read};
use crate::slot::{SlotRange, slot_range};
use flash_bank::{Bank, FlashFault};
use flash_dev::Flash;
use flash_layout::shape_of;
use ssu_group::{BlockMap, GroupPlan, Place};

/// Whether range and mark pair of a place are blank throughout: it was neither stored nor lost.
pub(crate) fn is_untouched<F: Flash>(
    bank: &mut Bank,
    flash: &mut F,
    place: Place,
) -> Result<bool, FlashFault>
    requires lent { IsLent F.tells F.contents F.block_count F.block_len bank.old flash.old }
    requires two { (current_of bank.old).layout ≡ 2 }
    requires inside { place.at + place.len ≤ len_of bank.old }
    requires mark { place.number < mark_count (geometry_of bank.old) }
    ensures lent { OnOk result (IsLent F.tells F.contents F.block_count F.block_len bank.new flash.new) }
    ensures found { F.tells → IfOk result (λ yes. yes ≡ is_untouched_in (area_of_bank bank.old) (F.contents flash.old) place.number place) }
    ensures looks { Looks F.tells F.contents F.block_count F.block_len F.moment F.left_since flash.old bank.old flash.new bank.new }
    ensures spent { OnErr result (is_spent bank.new ≡ true) }
    ensures cause { HasCause (F.faults flash.old) (F.faults flash.new) result }
{
    let blank = is_blank(bank, flash, Side::InBank, place.at, u32::from(place.len))?;
    if !blank {
        return Ok(false);
    }
    is_blank(bank, flash, Side::InJournal, 8448 + 2 * place.number, 2)
}

/// The first slot that is blank throughout, if there is one.
pub(crate) fn first_free<F: Flash>(
    bank: &mut Bank,
    flash: &mut F,
) -> Result<Option<u32>, FlashFault>
    requires lent { IsLent F.tells F.contents F.block_count F.block_len bank.old flash.old }
    requires two { (current_of bank.old).layout ≡ 2 }
    ensures lent { OnOk result (IsLent F.tells F.contents F.block_count F.block_len bank.new flash.new) }
    ensures found { F.tells → IfOk result (λ slot. slot ≡ find_below (is_free (area_of_bank bank.old) (F.contents flash.old)) 16) }
    ensures below { IfOk result (λ slot. IfSome slot (λ s. s < 16)) }
    ensures looks { Looks F.tells F.contents F.block_count F.block_len F.moment F.left_since flash.old bank.old flash.new bank.new }
    ensures spent { OnErr result (is_spent bank.new ≡ true) }
    ensures cause { HasCause (F.faults flash.old) (F.faults flash.new) result }
{
    let slots = slots_begin(flash);
    let mut slot = 0u32;
    while slot < 16 {
        let free = is_blank(bank, flash, Side::InJournal, slots + 4352 * slot, 4352)?;
        if free {
            return Ok(Some(slot));
        }
        slot += 1;
    }
    Ok(None)
}

/// Whether the mark pair of a place says that its range of the bank holds it.
pub(crate) fn is_marked<F: Flash>(
    bank: &mut Bank,
    flash: &mut F,
    number: u32,
) -> Result<bool, FlashFault>
    requires lent { IsLent F.tells F.contents F.block_count F.block_len bank.old flash.old }
    requires two { (current_of bank.old).layout ≡ 2 }
    requires mark { number < mark_count (geometry_of bank.old) }
    ensures lent { OnOk result (IsLent F.tells F.contents F.block_count F.block_len bank.new flash.new) }
    ensures found { F.tells → IfOk result (λ yes. yes ≡ is_marked_in (area_of_bank bank.old) (F.contents flash.old) number) }
    ensures looks { Looks F.tells F.contents F.block_count F.block_len F.moment F.left_since flash.old bank.old flash.new bank.new }
    ensures spent { OnErr result (is_spent bank.new ≡ true) }
    ensures cause { HasCause (F.faults flash.old) (F.faults flash.new) result }
{
    let mut pair = [0u8; 2];
    read(bank, flash, Side::InJournal, 8448 + 2 * number, &mut pair)?;
    Ok(pair[0] == 0 && pair[1] == 255)
}

/// The first valid slot with the range of a place, if there is one.
pub(crate) fn slot_of<F: Flash>(
    bank: &mut Bank,
    flash: &mut F,
    place: Place,
) -> Result<Option<u32>, FlashFault>
    requires lent { IsLent F.tells F.contents F.block_count F.block_len bank.old flash.old }
    requires two { (current_of bank.old).layout ≡ 2 }
    ensures lent { OnOk result (IsLent F.tells F.contents F.block_count F.block_len bank.new flash.new) }
    ensures found { F.tells → IfOk result (λ slot. slot ≡ find_below (is_slot_of (area_of_bank bank.old) (F.contents flash.old) place) 16) }
    ensures below { IfOk result (λ slot. IfSome slot (λ s. s < 16)) }
    ensures looks { Looks F.tells F.contents F.block_count F.block_len F.moment F.left_since flash.old bank.old flash.new bank.new }
    ensures spent { OnErr result (is_spent bank.new ≡ true) }
    ensures cause { HasCause (F.faults flash.old) (F.faults flash.new) result }
{
    let slots = slots_begin(flash);
    let mut slot = 0u32;
    while slot < 16 {
        let range = slot_range(bank, flash, slots, slot)?;
        if is_range_of(range, place) {
            return Ok(Some(slot));
        }
        slot += 1;
    }
    Ok(None)
}

/// Whether a group of so many places is kept in the flash.
pub(crate) fn keeps_places(bank: &Bank, places: u32) -> bool
    ensures { result ≡ keeps_places_in bank.now places }
{
    bank.current().layout == 2 && places <= bank.marks()
}

/// Whether the range of a slot is that of a place.
fn is_range_of(range: Option<SlotRange>, place: Place) -> bool
    ensures { result ≡ is_range range place }
{
    match range {
        Some(range) => range.at == place.at && range.len == u32::from(place.len),
        None => false,
    }
}

/// Where the slots of a journal begin.
pub(crate) fn slots_begin<F: Flash>(flash: &F) -> u32
    ensures { IsInLimits (blocks_of F.Flash flash.now) → result ≡ slots_at (blocks_of F.Flash flash.now) }
{
    match shape_of(flash) {
        Some(shape) => shape.slots_at(),
        None => 0,
    }
}
