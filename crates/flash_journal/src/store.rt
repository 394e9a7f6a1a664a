//! A place of a group that is kept goes into the bank, or where that is not blank any more into a slot.

ghost use Rattle.std.specs.Prelude.{◌≡◌, ◌+◌, ◌<◌, ◌≤◌, List, OnErr, OnOk, length, true, ℕ};
ghost use Rattle.bank_kept.specs.Bank.{area_of_bank};
ghost use Rattle.dsmcc_msg.specs.Control.{DiiFields};
ghost use Rattle.flash_bank.specs.Bank.{IsLent, current_of, geometry_of, is_begun, is_spent, len_of};
ghost use Rattle.flash_dev.specs.Moments.{LeavesOnly};
ghost use Rattle.flash_journal.specs.Storing.{IsOfferedUnderSome, LeavesStored};
ghost use Rattle.flash_kept.specs.Lost.{is_untouched};
ghost use Rattle.flash_kept.specs.Offering.{IsOffered, Offers};
ghost use Rattle.flash_layout.specs.Layout.{mark_count};
ghost use Rattle.flash_stage.specs.Leaving.{SameBank};
ghost use Rattle.ssu_io.specs.Faults.{HasCause};

use crate::reading::{first_free, is_untouched};
use flash_bank::{Bank, FlashFault};
use flash_dev::Flash;
use ssu_group::Place;

/// Fills the range of a place, and then marks it: a mark stands only over bytes that stand.
fn fill_and_mark<F: Flash>(
    bank: &mut Bank,
    flash: &mut F,
    place: Place,
    bytes: &[u8],
) -> Result<(), FlashFault>
    requires lent { IsLent F.tells F.contents F.block_count F.block_len bank.old flash.old }
    requires two { (current_of bank.old).layout ≡ 2 }
    requires begun { is_begun bank.old ≡ true }
    requires inside { place.at + place.len ≤ len_of bank.old }
    requires mark { place.number < mark_count (geometry_of bank.old) }
    requires length { length bytes.now ≡ place.len }
    requires blank { F.tells → is_untouched (area_of_bank bank.old) (F.contents flash.old) place.number place ≡ true }
    requires offered { F.tells → IsOfferedUnderSome (area_of_bank bank.old) place bytes.now (F.contents flash.old) }
    ensures lent { OnOk result (IsLent F.tells F.contents F.block_count F.block_len bank.new flash.new) }
    ensures stored { F.tells → OnOk result ((dii : DiiFields) (message : List ℕ)
        → IsOffered (area_of_bank bank.old) dii message place bytes.now (F.contents flash.old)
        → Offers (area_of_bank bank.old) dii message place.number bytes.now (F.contents flash.old) (F.contents flash.new)) }
    ensures held { F.tells → (dii : DiiFields) (message : List ℕ)
        → IsOffered (area_of_bank bank.old) dii message place bytes.now (F.contents flash.old)
        → LeavesStored (geometry_of bank.old) (area_of_bank bank.old) dii message place.number bytes.now (F.contents flash.old) (F.contents flash.new) }
    ensures left { F.tells → (dii : DiiFields) (message : List ℕ)
        → IsOffered (area_of_bank bank.old) dii message place bytes.now (F.contents flash.old)
        → LeavesOnly F.moment F.left_since flash.old flash.new
        (LeavesStored (geometry_of bank.old) (area_of_bank bank.old) dii message place.number bytes.now (F.contents flash.old)) }
    ensures begun { OnOk result (is_begun bank.new ≡ true) }
    ensures spent { OnErr result (is_spent bank.new ≡ true) }
    ensures same_bank { SameBank bank.old bank.new }
    ensures blocks { F.block_count flash.new ≡ F.block_count flash.old }
    ensures block_size { F.block_len flash.new ≡ F.block_len flash.old }
    ensures cause { HasCause (F.faults flash.old) (F.faults flash.new) result }
{
    bank.fill(flash, place.at, bytes)?;
    bank.mark(flash, place.number)
}

/// Stores a place that is not staged. One whose range and mark pair are blank is filled and then marked; a lost one, in whose range
/// or pair a call was cut off, goes to the first slot that is free. Where a flash tells what it holds each lost place finds one; over
/// another the place is filled as if it were blank.
pub(crate) fn store<F: Flash>(
    bank: &mut Bank,
    flash: &mut F,
    place: Place,
    bytes: &[u8],
) -> Result<(), FlashFault>
    requires lent { IsLent F.tells F.contents F.block_count F.block_len bank.old flash.old }
    requires two { (current_of bank.old).layout ≡ 2 }
    requires begun { is_begun bank.old ≡ true }
    requires inside { place.at + place.len ≤ len_of bank.old }
    requires some { 1 ≤ place.len }
    requires few { place.len ≤ 4066 }
    requires mark { place.number < mark_count (geometry_of bank.old) }
    requires length { length bytes.now ≡ place.len }
    requires offered { F.tells → IsOfferedUnderSome (area_of_bank bank.old) place bytes.now (F.contents flash.old) }
    ensures lent { OnOk result (IsLent F.tells F.contents F.block_count F.block_len bank.new flash.new) }
    ensures stored { F.tells → OnOk result ((dii : DiiFields) (message : List ℕ)
        → IsOffered (area_of_bank bank.old) dii message place bytes.now (F.contents flash.old)
        → Offers (area_of_bank bank.old) dii message place.number bytes.now (F.contents flash.old) (F.contents flash.new)) }
    ensures held { F.tells → (dii : DiiFields) (message : List ℕ)
        → IsOffered (area_of_bank bank.old) dii message place bytes.now (F.contents flash.old)
        → LeavesStored (geometry_of bank.old) (area_of_bank bank.old) dii message place.number bytes.now (F.contents flash.old) (F.contents flash.new) }
    ensures left { F.tells → (dii : DiiFields) (message : List ℕ)
        → IsOffered (area_of_bank bank.old) dii message place bytes.now (F.contents flash.old)
        → LeavesOnly F.moment F.left_since flash.old flash.new
        (LeavesStored (geometry_of bank.old) (area_of_bank bank.old) dii message place.number bytes.now (F.contents flash.old)) }
    ensures begun { OnOk result (is_begun bank.new ≡ true) }
    ensures spent { OnErr result (is_spent bank.new ≡ true) }
    ensures same_bank { SameBank bank.old bank.new }
    ensures blocks { F.block_count flash.new ≡ F.block_count flash.old }
    ensures block_size { F.block_len flash.new ≡ F.block_len flash.old }
    ensures cause { HasCause (F.faults flash.old) (F.faults flash.new) result }
{
    let untouched = is_untouched(bank, flash, place)?;
    if untouched {
        return fill_and_mark(bank, flash, place, bytes);
    }
    match first_free(bank, flash)? {
        Some(slot) => bank.spare(flash, slot, place.at, bytes),
        None => fill_and_mark(bank, flash, place, bytes),
    }
}
