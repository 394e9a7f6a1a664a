//! The blocks of a group that was chosen.

ghost use Rattle.std.specs.Prelude.{◌≡◌, true, OnOk};
ghost use Rattle.std.specs.Option.{option_map};
ghost use Rattle.bank_kept.specs.Leaving.{KeepsStaged};
ghost use Rattle.dsmcc_msg.specs.Block.{ddb};
ghost use Rattle.dsmcc_msg.specs.View.{ddb_view};
ghost use Rattle.flash_bank.specs.Bank.{geometry_of};
ghost use Rattle.flash_bank.specs.Leaving.{KeepsBoot};
ghost use Rattle.section_form.specs.Section.{IsRight};
ghost use Rattle.ssu_group.specs.Carried.{Fills, with_section};
ghost use Rattle.flash_dev.specs.Moments.{LeavesOnly};
ghost use Rattle.flash_stage.specs.Leaving.{SameBank};
ghost use Rattle.ssu_io.specs.Faults.{HasCause};
ghost use Rattle.ssu_loader.specs.Collecting.{HasFilled, HoldsFilling, IncludesFilled, Works};
ghost use Rattle.ssu_loader.specs.Staging.{HoldsWithSection};

use dsmcc_msg::Ddb;
use flash_bank::{Bank, FlashFault};
use flash_dev::Flash;
use flash_stage::Stage;
use ssu_group::GroupPlan;

/// The DDB that the section is.
fn ddb_of(section: &[u8]) -> Option<Ddb<'_>>
    requires right { IsRight section.now }
    ensures { option_map ddb_view result ≡ ddb.of section.now }
{
    Ddb::read_right(section)
}

/// Takes the block that the section is, where it fills a place of the plan.
pub(crate) fn take_block<S: Stage, F: Flash>(
    stage: &mut S,
    bank: &mut Bank,
    flash: &mut F,
    plan: &GroupPlan,
    section: &[u8],
) -> Result<(), FlashFault>
    requires right { IsRight section.now }
    requires works { Works S.Stage F.Flash plan.now stage.old bank.old flash.old }
    ensures works { OnOk result (Works S.Stage F.Flash plan.now stage.new bank.new flash.new) }
    ensures filled { OnOk result ((fills : Fills) → HasFilled S.Stage plan.now fills stage.old
        → HasFilled S.Stage plan.now (with_section plan.now section.now fills) stage.new) }
    ensures bytes { F.tells → OnOk result ((fills : Fills) → HasFilled S.Stage plan.now fills stage.old
        → HoldsFilling S.Stage plan.now fills stage.old bank.old (F.contents flash.old)
        → HoldsFilling S.Stage plan.now (with_section plan.now section.now fills) stage.new bank.new (F.contents flash.new)) }
    ensures includes { OnOk result ((fills : Fills) → IncludesFilled S.Stage plan.now fills stage.old
        → IncludesFilled S.Stage plan.now (with_section plan.now section.now fills) stage.new) }
    ensures message { S.message_of stage.new ≡ S.message_of stage.old }
    ensures held { F.tells → KeepsBoot (geometry_of bank.old) (F.contents flash.old) (F.contents flash.new) }
    ensures left { F.tells → LeavesOnly F.moment F.left_since flash.old flash.new
        (KeepsBoot (geometry_of bank.old) (F.contents flash.old)) }
    // Nothing more is held than was, but this block; and what was staged is.
    ensures one_more { F.tells → HoldsWithSection S.KEEPS (geometry_of bank.old) (S.message_of stage.old) plan.now section.now
        (F.contents flash.old) (F.contents flash.new) }
    ensures one_more_left { F.tells → LeavesOnly F.moment F.left_since flash.old flash.new
        (HoldsWithSection S.KEEPS (geometry_of bank.old) (S.message_of stage.old) plan.now section.now (F.contents flash.old)) }
    ensures staged { F.tells → S.KEEPS ≡ true → OnOk result (KeepsStaged (geometry_of bank.old) 0 0 (F.contents flash.old) (F.contents flash.new)) }
    ensures staged_held { F.tells → S.KEEPS ≡ true → KeepsStaged (geometry_of bank.old) 1 1 (F.contents flash.old) (F.contents flash.new) }
    ensures staged_left { F.tells → S.KEEPS ≡ true → LeavesOnly F.moment F.left_since flash.old flash.new
        (KeepsStaged (geometry_of bank.old) 1 1 (F.contents flash.old)) }
    ensures same_bank { SameBank bank.old bank.new }
    ensures most { S.most stage.new ≡ S.most stage.old }
    ensures blocks { F.block_count flash.new ≡ F.block_count flash.old }
    ensures block_size { F.block_len flash.new ≡ F.block_len flash.old }
    ensures cause { HasCause (F.faults flash.old) (F.faults flash.new) result }
{
    let Some(ddb) = ddb_of(section) else {
        return Ok(());
    };
    let Some(place) = plan.place(&ddb) else {
        return Ok(());
    };
    stage.offer(bank, flash, place, ddb.bytes)
}
