//! An image that is whole goes into the spare bank, and its record behind it.

ghost use Rattle.std.specs.Prelude.{◌≡◌, ◌-◌, ◌<◌, ◌≤◌, OnErr, OnOk, false, length, true};
ghost use Rattle.bank_kept.specs.Leaving.{HoldsNoMore};
ghost use Rattle.flash_dev.specs.Moments.{LeavesOnly};
ghost use Rattle.flash_bank.specs.Bank.{IsLent, block_of, current_of, geometry_of, is_begun, is_spent, len_of};
ghost use Rattle.flash_bank.specs.Leaving.{Installs};
ghost use Rattle.flash_bank.specs.Record.{next_record};
ghost use Rattle.flash_stage.specs.Leaving.{FinishLeaves, SameBank};
ghost use Rattle.ssu_io.specs.Faults.{HasCause};

use flash_bank::{Bank, FlashFault};
use flash_dev::Flash;
use ssu_compat::SwId;

/// Erases the spare record block and the spare area, fills the bank from its front and commits the record.
pub(crate) fn install<F: Flash>(
    bank: &mut Bank,
    flash: &mut F,
    image: &[u8],
    software: SwId,
    group: u32,
) -> Result<(), FlashFault>
    requires lent { IsLent F.tells F.contents F.block_count F.block_len bank.old flash.old }
    requires inside { length image.now ≤ len_of bank.old }
    requires next_fits { (current_of bank.old).number < 4294967295 }
    ensures lent { OnOk result (IsLent F.tells F.contents F.block_count F.block_len bank.new flash.new) }
    ensures current { OnOk result (current_of bank.new ≡ next_record (current_of bank.old) (length image.now) software group) }
    ensures block { OnOk result (block_of bank.new ≡ 1 - block_of bank.old) }
    ensures done { F.tells → OnOk result (Installs (geometry_of bank.old) (next_record (current_of bank.old) (length image.now) software group)
        image.now (F.contents flash.old) (F.contents flash.new)) }
    ensures held { F.tells → FinishLeaves (geometry_of bank.old) (next_record (current_of bank.old) (length image.now) software group)
        image.now (F.contents flash.old) (F.contents flash.new) }
    ensures left { F.tells → LeavesOnly F.moment F.left_since flash.old flash.new
        (FinishLeaves (geometry_of bank.old) (next_record (current_of bank.old) (length image.now) software group) image.now (F.contents flash.old)) }
    ensures no_more { F.tells → HoldsNoMore (geometry_of bank.old) (F.contents flash.old) (F.contents flash.new) }
    ensures no_more_left { F.tells → LeavesOnly F.moment F.left_since flash.old flash.new
        (HoldsNoMore (geometry_of bank.old) (F.contents flash.old)) }
    ensures begun { OnOk result (is_begun bank.new ≡ false) }
    ensures spent { OnErr result (is_spent bank.new ≡ true) }
    ensures same_bank { OnErr result (SameBank bank.old bank.new) }
    ensures geometry { geometry_of bank.new ≡ geometry_of bank.old }
    ensures len { len_of bank.new ≡ len_of bank.old }
    ensures blocks { F.block_count flash.new ≡ F.block_count flash.old }
    ensures block_size { F.block_len flash.new ≡ F.block_len flash.old }
    ensures cause { HasCause (F.faults flash.old) (F.faults flash.new) result }
{
    bank.begin(flash)?;
    bank.fill(flash, 0, image)?;
    bank.commit(flash, image.len() as u32, software, group)
}
