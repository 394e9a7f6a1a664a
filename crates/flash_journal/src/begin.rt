//! The beginning of a group that was not staged.

ghost use Rattle.std.specs.Prelude.{◌≡◌, ◌<◌, ◌≤◌, OnErr, OnOk, length, true};
ghost use Rattle.flash_bank.specs.Bank.{IsLent, current_of, geometry_of, is_begun, is_spent};
ghost use Rattle.flash_dev.specs.Moments.{LeavesOnly};
ghost use Rattle.flash_journal.specs.Beginning.{LeavesCleared, SpellsKept, StagesNew};
ghost use Rattle.flash_stage.specs.Leaving.{SameBank};
ghost use Rattle.ssu_io.specs.Faults.{HasCause};

use flash_bank::{Bank, FlashFault};
use flash_dev::Flash;

/// Erases the spare record block and the spare area, and writes the header of the journal over the message of a group that is kept
/// from then on.
pub(crate) fn begin_kept<F: Flash>(
    bank: &mut Bank,
    flash: &mut F,
    message: &[u8],
) -> Result<(), FlashFault>
    requires lent { IsLent F.tells F.contents F.block_count F.block_len bank.old flash.old }
    requires two { (current_of bank.old).layout ≡ 2 }
    requires next_fits { (current_of bank.old).number < 4294967295 }
    requires spells { SpellsKept bank.old message.now }
    ensures lent { OnOk result (IsLent F.tells F.contents F.block_count F.block_len bank.new flash.new) }
    ensures staged { F.tells → OnOk result (StagesNew (geometry_of bank.old) message.now (F.contents flash.new)) }
    ensures held { F.tells → LeavesCleared (geometry_of bank.old) (F.contents flash.old) (F.contents flash.new) }
    ensures left { F.tells → LeavesOnly F.moment F.left_since flash.old flash.new
        (LeavesCleared (geometry_of bank.old) (F.contents flash.old)) }
    ensures begun { OnOk result (is_begun bank.new ≡ true) }
    ensures spent { OnErr result (is_spent bank.new ≡ true) }
    ensures same_bank { SameBank bank.old bank.new }
    ensures blocks { F.block_count flash.new ≡ F.block_count flash.old }
    ensures block_size { F.block_len flash.new ≡ F.block_len flash.old }
    ensures cause { HasCause (F.faults flash.old) (F.faults flash.new) result }
{
    bank.begin(flash)?;
    bank.head(flash, message)
}
