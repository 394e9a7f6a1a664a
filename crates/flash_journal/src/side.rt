//! The two parts of the spare area of a bank of layout 2.

ghost use Rattle.std.specs.Prelude.{◌≡◌, ◌+◌, ◌≤◌, OnErr, OnOk, length, true};
ghost use Rattle.flash_bank.specs.Bank.{IsLent, current_of, is_spent};
ghost use Rattle.flash_dev.specs.Changes.{Holds};
ghost use Rattle.flash_journal.specs.Looks.{Looks};
ghost use Rattle.flash_journal.specs.Side.{side_len, side_place};
ghost use Rattle.flash_journal.specs.declared.side.Side.TheVariants.{InJournal};
ghost use Rattle.ssu_io.specs.Faults.{HasCause};

use flash_bank::{Bank, FlashFault};
use flash_dev::Flash;

/// The bank, or the journal behind it.
#[derive(Clone, Copy, Debug, PartialEq, Eq)]
pub(crate) enum Side {
    InBank,
    InJournal,
}

/// Reads bytes of a part from byte `at` of it on.
pub(crate) fn read<F: Flash>(
    bank: &mut Bank,
    flash: &mut F,
    side: Side,
    at: u32,
    buf: &mut [u8],
) -> Result<(), FlashFault>
    requires lent { IsLent F.tells F.contents F.block_count F.block_len bank.old flash.old }
    requires two { side ≡ InJournal → (current_of bank.old).layout ≡ 2 }
    requires inside { at + length buf.old ≤ side_len side bank.old }
    ensures lent { OnOk result (IsLent F.tells F.contents F.block_count F.block_len bank.new flash.new) }
    ensures bytes { F.tells → OnOk result (Holds (F.contents flash.old) (side_place side bank.old + at) buf.new) }
    ensures looks { Looks F.tells F.contents F.block_count F.block_len F.moment F.left_since flash.old bank.old flash.new bank.new }
    ensures spent { OnErr result (is_spent bank.new ≡ true) }
    ensures cause { HasCause (F.faults flash.old) (F.faults flash.new) result }
{
    match side {
        Side::InBank => bank.peek(flash, at, buf),
        Side::InJournal => bank.glance(flash, at, buf),
    }
}
