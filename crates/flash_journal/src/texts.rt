//! The CRC of the places of a module, each where it stands.

ghost use Rattle.std.specs.Prelude.{◌≡◌, ◌+◌, ◌++◌, ◌≤◌, ◌<◌, ◌^◌, IfOk, IfSome, List, OnErr, OnOk, Some, true, ℕ};
ghost use Rattle.std.specs.Int.{div_ceil};
ghost use Rattle.bank_kept.specs.Bank.{area_of_bank};
ghost use Rattle.flash_bank.specs.Bank.{IsLent, current_of, geometry_of, is_spent, len_of};
ghost use Rattle.flash_journal.specs.Looks.{Looks};
ghost use Rattle.flash_journal.specs.Texts.{slot_text, text_of};
ghost use Rattle.flash_layout.specs.Layout.{mark_count};
ghost use Rattle.ssu_group.specs.Carried.{joined};
ghost use Rattle.ssu_group.specs.Place.{place_in};
ghost use Rattle.ssu_io.specs.Faults.{HasCause};
ghost use Rattle.ts_crc.specs.Crc.{crc_of};

use crate::read_back::push_range;
use crate::reading::{is_marked, slot_of, slots_begin};
use crate::side::Side;
use flash_bank::{Bank, FlashFault};
use flash_dev::Flash;
use ssu_group::{ModulePlan, Place};
use ts_crc::Register;

/// The slot in which a place stands, if it stands in one. One that is marked stands in the bank, and so does each of a group that is
/// not kept.
fn slot_with<F: Flash>(
    bank: &mut Bank,
    flash: &mut F,
    place: Place,
    keeps: bool,
) -> Result<Option<u32>, FlashFault>
    requires lent { IsLent F.tells F.contents F.block_count F.block_len bank.old flash.old }
    requires two { keeps ≡ true → (current_of bank.old).layout ≡ 2 }
    requires mark { keeps ≡ true → place.number < mark_count (geometry_of bank.old) }
    ensures lent { OnOk result (IsLent F.tells F.contents F.block_count F.block_len bank.new flash.new) }
    ensures text { F.tells → IfOk result (λ slot. slot_text (area_of_bank bank.old) (F.contents flash.old) place slot
        ≡ text_of keeps bank.old (F.contents flash.old) (Some place)) }
    ensures below { IfOk result (λ slot. IfSome slot (λ s. (keeps ≡ true) × (s < 16))) }
    ensures looks { Looks F.tells F.contents F.block_count F.block_len F.moment F.left_since flash.old bank.old flash.new bank.new }
    ensures spent { OnErr result (is_spent bank.new ≡ true) }
    ensures cause { HasCause (F.faults flash.old) (F.faults flash.new) result }
{
    if !keeps {
        return Ok(None);
    }
    let marked = is_marked(bank, flash, place.number)?;
    if marked {
        return Ok(None);
    }
    slot_of(bank, flash, place)
}

/// Goes on with the bytes of a place.
fn push_place<F: Flash>(
    bank: &mut Bank,
    flash: &mut F,
    place: Place,
    keeps: bool,
    register: &mut Register,
) -> Result<(), FlashFault>
    requires lent { IsLent F.tells F.contents F.block_count F.block_len bank.old flash.old }
    requires two { keeps ≡ true → (current_of bank.old).layout ≡ 2 }
    requires mark { keeps ≡ true → place.number < mark_count (geometry_of bank.old) }
    requires inside { place.at + place.len ≤ len_of bank.old }
    requires few { place.len ≤ 4066 }
    ensures lent { OnOk result (IsLent F.tells F.contents F.block_count F.block_len bank.new flash.new) }
    ensures join { F.tells → OnOk result ((before : List ℕ) → register.old ≡ crc_of before
        → register.new ≡ crc_of (before ++ text_of keeps bank.old (F.contents flash.old) (Some place))) }
    ensures looks { Looks F.tells F.contents F.block_count F.block_len F.moment F.left_since flash.old bank.old flash.new bank.new }
    ensures spent { OnErr result (is_spent bank.new ≡ true) }
    ensures cause { HasCause (F.faults flash.old) (F.faults flash.new) result }
{
    match slot_with(bank, flash, place, keeps)? {
        None => push_range(
            bank,
            flash,
            Side::InBank,
            place.at,
            u32::from(place.len),
            register,
        ),
        Some(slot) => {
            let begin = slots_begin(flash) + 4352 * slot + 256;
            push_range(
                bank,
                flash,
                Side::InJournal,
                begin,
                u32::from(place.len),
                register,
            )
        }
    }
}

/// Goes on with the bytes of the places of a module.
pub(crate) fn push_module<F: Flash>(
    bank: &mut Bank,
    flash: &mut F,
    block_size: u16,
    module: &ModulePlan,
    keeps: bool,
    register: &mut Register,
) -> Result<(), FlashFault>
    requires lent { IsLent F.tells F.contents F.block_count F.block_len bank.old flash.old }
    requires two { keeps ≡ true → (current_of bank.old).layout ≡ 2 }
    requires marks { keeps ≡ true → «module».now.first + «module».now.blocks ≤ mark_count (geometry_of bank.old) }
    requires inside { «module».now.at + «module».now.size ≤ len_of bank.old }
    requires least { 1 ≤ block_size }
    requires most { block_size ≤ 4066 }
    requires blocks { «module».now.blocks ≡ div_ceil «module».now.size block_size }
    requires numbers { «module».now.first + «module».now.blocks < 2 ^ 32 }
    requires bytes { «module».now.at + «module».now.size < 2 ^ 32 }
    ensures lent { OnOk result (IsLent F.tells F.contents F.block_count F.block_len bank.new flash.new) }
    ensures join { F.tells → OnOk result ((before : List ℕ) → register.old ≡ crc_of before
        → register.new ≡ crc_of (before
        ++ joined (λ k. text_of keeps bank.old (F.contents flash.old) (Some (place_in block_size «module».now k))) «module».now.blocks)) }
    ensures looks { Looks F.tells F.contents F.block_count F.block_len F.moment F.left_since flash.old bank.old flash.new bank.new }
    ensures spent { OnErr result (is_spent bank.new ≡ true) }
    ensures cause { HasCause (F.faults flash.old) (F.faults flash.new) result }
{
    let mut block = 0u32;
    let mut done = 0u32;
    while block < module.blocks {
        let len = (module.size - done).min(u32::from(block_size));
        let place = Place {
            number: module.first + block,
            at: module.at + done,
            len: len as u16,
        };
        push_place(bank, flash, place, keeps, register)?;
        done += len;
        block += 1;
    }
    Ok(())
}
