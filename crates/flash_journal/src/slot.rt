//! The slots of the spare journal.

ghost use Rattle.std.specs.Prelude.{◌≡◌, ◌↔◌, ◌+◌, ◌*◌, ◌^◌, ◌<◌, ◌≤◌, IfOk, IfSome, IsSome, IsTrue, OnErr, OnOk, length, true};
ghost use Rattle.bank_kept.specs.Bank.{area_of_bank};
ghost use Rattle.flash_bank.specs.Bank.{IsLent, current_of, geometry_of, is_spent, len_of};
ghost use Rattle.flash_bank.specs.Laid.{IsSlotHead};
ghost use Rattle.flash_journal.specs.Looks.{Looks};
ghost use Rattle.flash_kept.specs.Slots.{free_slots, is_valid_slot, slot_in};
ghost use Rattle.flash_layout.specs.Layout.{slots_at};
ghost use Rattle.flash_layout.specs.Slots.{slot_at, slot_len};
ghost use Rattle.ssu_io.specs.Faults.{HasCause};

use crate::blank::is_blank;
use crate::side::{Side, read};
use flash_bank::{Bank, FlashFault};
use flash_dev::Flash;
use flash_layout::{are_whole, half, word};

/// The range of the bank that a slot is for.
#[derive(Clone, Copy, Debug, PartialEq, Eq)]
pub(crate) struct SlotRange {
    pub(crate) at: u32,
    pub(crate) len: u32,
}

/// The range that the head of a slot says, where the slot is valid for a bank of `len` bytes.
fn range_of(head: &[u8], len: u32) -> Option<SlotRange>
    requires { length head.now ≡ 16 }
    ensures valid { IsSome result ↔ IsSlotHead len head.now }
    ensures value { IfSome result (λ range. (range.at ≡ slot_at head.now) × (range.len ≡ slot_len head.now)) }
{
    let range = SlotRange {
        at: word(head, 2),
        len: u32::from(half(head, 6)),
    };
    if is_valid(head, range, len) {
        Some(range)
    } else {
        None
    }
}

/// Whether the head of a slot, which says this range, is whole, with the magic, and the range has 1 to 4,066 bytes inside a bank of `len`.
fn is_valid(head: &[u8], range: SlotRange, len: u32) -> bool
    requires head { length head.now ≡ 16 }
    requires at { range.at ≡ slot_at head.now }
    requires len { range.len ≡ slot_len head.now }
    ensures { IsTrue result ↔ IsSlotHead len head.now }
{
    are_whole(head, 8)
        && half(head, 0) == 0x5350
        && 1 <= range.len
        && range.len <= 4066
        && u64::from(range.at) + u64::from(range.len) <= u64::from(len)
}

/// The range that a slot is for, one of 16, where the slot is valid; `slots` is where they begin.
pub(crate) fn slot_range<F: Flash>(
    bank: &mut Bank,
    flash: &mut F,
    slots: u32,
    slot: u32,
) -> Result<Option<SlotRange>, FlashFault>
    requires lent { IsLent F.tells F.contents F.block_count F.block_len bank.old flash.old }
    requires two { (current_of bank.old).layout ≡ 2 }
    requires slots { slots ≡ slots_at (geometry_of bank.old) }
    requires slot { slot < 16 }
    ensures lent { OnOk result (IsLent F.tells F.contents F.block_count F.block_len bank.new flash.new) }
    ensures valid { F.tells → IfOk result (λ range. IsSome range ↔ (is_valid_slot (area_of_bank bank.old) (F.contents flash.old) slot ≡ true)) }
    ensures value { F.tells → IfOk result (λ range. IfSome range (λ r.
        (r.at ≡ slot_at (slot_in (area_of_bank bank.old) (F.contents flash.old) slot))
        × (r.len ≡ slot_len (slot_in (area_of_bank bank.old) (F.contents flash.old) slot)))) }
    ensures looks { Looks F.tells F.contents F.block_count F.block_len F.moment F.left_since flash.old bank.old flash.new bank.new }
    ensures spent { OnErr result (is_spent bank.new ≡ true) }
    ensures cause { HasCause (F.faults flash.old) (F.faults flash.new) result }
{
    let mut head = [0u8; 16];
    read(bank, flash, Side::InJournal, slots + 4352 * slot, &mut head)?;
    Ok(range_of(&head, bank.bank_len()))
}

/// How many slots of the spare journal are free: all their bytes are erased. `slots` is where they begin.
pub(crate) fn free_count<F: Flash>(
    bank: &mut Bank,
    flash: &mut F,
    slots: u32,
) -> Result<u32, FlashFault>
    requires lent { IsLent F.tells F.contents F.block_count F.block_len bank.old flash.old }
    requires two { (current_of bank.old).layout ≡ 2 }
    requires slots { slots ≡ slots_at (geometry_of bank.old) }
    ensures lent { OnOk result (IsLent F.tells F.contents F.block_count F.block_len bank.new flash.new) }
    ensures found { F.tells → IfOk result (λ count. count ≡ free_slots (area_of_bank bank.old) (F.contents flash.old)) }
    ensures looks { Looks F.tells F.contents F.block_count F.block_len F.moment F.left_since flash.old bank.old flash.new bank.new }
    ensures spent { OnErr result (is_spent bank.new ≡ true) }
    ensures cause { HasCause (F.faults flash.old) (F.faults flash.new) result }
{
    let mut count = 0u32;
    let mut slot = 0u32;
    while slot < 16 {
        let free = is_blank(bank, flash, Side::InJournal, slots + 4352 * slot, 4352)?;
        if free {
            count += 1;
        }
        slot += 1;
    }
    Ok(count)
}
