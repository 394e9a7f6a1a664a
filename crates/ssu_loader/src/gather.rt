//! The stage of a group: how it begins, and what a section does to it.

ghost use Rattle.std.specs.Prelude.{◌≡◌, ◌<◌, ◌≤◌, true, IfNone, IfOk, IfSome, OnOk};
ghost use Rattle.bank_kept.specs.Leaving.{HoldsNoMore, KeepsStaged};
ghost use Rattle.section_form.specs.Section.{IsRight};
ghost use Rattle.flash_dev.specs.Moments.{LeavesOnly};
ghost use Rattle.flash_bank.specs.Bank.{IsLent, current_of, geometry_of, len_of};
ghost use Rattle.flash_bank.specs.Leaving.{KeepsBoot};
ghost use Rattle.flash_stage.specs.Keeping.{HasWholeMargin, IsPlanOfMessage, StagesNone};
ghost use Rattle.flash_stage.specs.Leaving.{SameBank};
ghost use Rattle.ssu_group.specs.Carried.{Fills, missing_places, with_section};
ghost use Rattle.ssu_io.specs.Faults.{HasCause};
ghost use Rattle.ssu_loader.specs.Collecting.{HasFilled, HoldsFilling, IncludesFilled, Works};
ghost use Rattle.ssu_loader.specs.Leaving.{IfBadModule, UnlessInstalled};
ghost use Rattle.ssu_loader.specs.Settling.{Settles, SettlingLeaves};
ghost use Rattle.ssu_loader.specs.Staging.{HoldsWithSection, IsStagedGroup, StagingLeaves};
ghost use Rattle.ssu_loader.specs.Storing.{HasNoPrev};
ghost use Rattle.ssu_loader.specs.Starting.{KeepsAtStart, KnowsKept};
ghost use Rattle.ssu_loader.specs.Verdicts.{IsOn};

use crate::blocks::take_block;
use crate::settle::settle;
use flash_bank::{Bank, FlashFault};
use flash_dev::Flash;
use flash_stage::Stage;
use ssu_answer::Verdict;
use ssu_route::Choice;

/// Begins the group of the choice, and decides on it where the stage kept all places of it.
pub(crate) fn start<S: Stage, F: Flash>(
    stage: &mut S,
    bank: &mut Bank,
    flash: &mut F,
    choice: &Choice,
) -> Result<Option<Verdict>, FlashFault>
    requires lent { IsLent F.tells F.contents F.block_count F.block_len bank.old flash.old }
    requires made_for { S.most stage.old ≡ len_of bank.old }
    requires of_message { IsPlanOfMessage (len_of bank.old) choice.now.message.items choice.now.plan }
    requires inside { choice.now.plan.total ≤ len_of bank.old }
    requires next_fits { (current_of bank.old).number < 4294967295 }
    ensures works { IfOk result (λ answer. IfNone answer (Works S.Stage F.Flash choice.now.plan stage.new bank.new flash.new)) }
    ensures message { S.KEEPS ≡ true → IfOk result (λ answer. IfNone answer (S.message_of stage.new ≡ choice.now.message.items)) }
    ensures filled { (fills : Fills) → KnowsKept S.Stage F.Flash
        → KeepsAtStart S.Stage F.Flash choice.now.message.items choice.now.plan fills bank.old flash.old
        → IfOk result (λ answer. IfNone answer (HasFilled S.Stage choice.now.plan fills stage.new × (1 ≤ missing_places choice.now.plan fills))) }
    ensures group { IfOk result (λ answer. IfSome answer (IsOn choice.now)) }
    ensures whole { (fills : Fills) → KnowsKept S.Stage F.Flash
        → KeepsAtStart S.Stage F.Flash choice.now.message.items choice.now.plan fills bank.old flash.old
        → IfOk result (λ answer. IfSome answer (λ verdict. missing_places choice.now.plan fills ≡ 0)) }
    ensures bytes { F.tells → (fills : Fills) → KeepsAtStart S.Stage F.Flash choice.now.message.items choice.now.plan fills bank.old flash.old
        → IfOk result (λ answer. IfNone answer (HoldsFilling S.Stage choice.now.plan fills stage.new bank.new (F.contents flash.new))) }
    ensures kept { F.tells → IfOk result (λ answer. IfNone answer (KeepsBoot (geometry_of bank.old) (F.contents flash.old) (F.contents flash.new))) }
    ensures settled { F.tells → (fills : Fills) → KeepsAtStart S.Stage F.Flash choice.now.message.items choice.now.plan fills bank.old flash.old
        → IfOk result (λ answer. IfSome answer (Settles choice.now fills bank.old (F.contents flash.old) (F.contents flash.new))) }
    ensures held { F.tells → (fills : Fills) → KeepsAtStart S.Stage F.Flash choice.now.message.items choice.now.plan fills bank.old flash.old
        → SettlingLeaves choice.now fills bank.old (F.contents flash.old) (F.contents flash.new) }
    ensures left { F.tells → (fills : Fills) → KeepsAtStart S.Stage F.Flash choice.now.message.items choice.now.plan fills bank.old flash.old
        → LeavesOnly F.moment F.left_since flash.old flash.new (SettlingLeaves choice.now fills bank.old (F.contents flash.old)) }
    // Of a group of which a module is wrong nothing is staged any more.
    ensures forgotten { F.tells → S.KEEPS ≡ true
        → IfOk result (λ answer. IfBadModule answer (StagesNone (geometry_of bank.old) (F.contents flash.new))) }
    // And what boot took before the current image is gone, where the bank was begun for it.
    ensures no_prev { F.tells → S.IN_BANK ≡ true
        → IfOk result (λ answer. IfBadModule answer (HasNoPrev (geometry_of bank.old) (F.contents flash.new))) }
    // Nothing more is held than was. Where this message was staged all of that is, whenever the power goes; else the journal is as new.
    ensures no_more { F.tells → HoldsNoMore (geometry_of bank.old) (F.contents flash.old) (F.contents flash.new) }
    ensures no_more_left { F.tells → LeavesOnly F.moment F.left_since flash.old flash.new
        (HoldsNoMore (geometry_of bank.old) (F.contents flash.old)) }
    ensures resumed { F.tells → S.KEEPS ≡ true → IsStagedGroup (geometry_of bank.old) (F.contents flash.old) choice.now.message.items
        → IfOk result (λ answer. IfNone answer (KeepsStaged (geometry_of bank.old) 0 0 (F.contents flash.old) (F.contents flash.new))) }
    ensures staging { F.tells → S.KEEPS ≡ true → IsStagedGroup (geometry_of bank.old) (F.contents flash.old) choice.now.message.items
        → (fills : Fills) → KeepsAtStart S.Stage F.Flash choice.now.message.items choice.now.plan fills bank.old flash.old
        → StagingLeaves 0 choice.now fills bank.old (F.contents flash.old) (F.contents flash.new) }
    ensures staging_left { F.tells → S.KEEPS ≡ true → IsStagedGroup (geometry_of bank.old) (F.contents flash.old) choice.now.message.items
        → (fills : Fills) → KeepsAtStart S.Stage F.Flash choice.now.message.items choice.now.plan fills bank.old flash.old
        → LeavesOnly F.moment F.left_since flash.old flash.new (StagingLeaves 0 choice.now fills bank.old (F.contents flash.old)) }
    ensures fresh { F.tells → S.KEEPS ≡ true → (IsStagedGroup (geometry_of bank.old) (F.contents flash.old) choice.now.message.items → ⊥)
        → IfOk result (λ answer. IfNone answer (HasWholeMargin (geometry_of bank.old) (F.contents flash.new))) }
    ensures same_bank { UnlessInstalled result (SameBank bank.old bank.new) }
    ensures most { IfOk result (λ answer. IfNone answer (S.most stage.new ≡ S.most stage.old)) }
    ensures lent { OnOk result (IsLent F.tells F.contents F.block_count F.block_len bank.new flash.new) }
    ensures geometry { geometry_of bank.new ≡ geometry_of bank.old }
    ensures blocks { F.block_count flash.new ≡ F.block_count flash.old }
    ensures block_size { F.block_len flash.new ≡ F.block_len flash.old }
    ensures cause { HasCause (F.faults flash.old) (F.faults flash.new) result }
{
    stage.start(bank, flash, choice.message.as_slice(), &choice.plan)?;
    settle(stage, bank, flash, choice)
}

/// Takes the block that the section is, and decides on the group once no place of it is missing.
pub(crate) fn gather<S: Stage, F: Flash>(
    stage: &mut S,
    bank: &mut Bank,
    flash: &mut F,
    choice: &Choice,
    section: &[u8],
) -> Result<Option<Verdict>, FlashFault>
    requires right { IsRight section.now }
    requires works { Works S.Stage F.Flash choice.now.plan stage.old bank.old flash.old }
    ensures works { IfOk result (λ answer. IfNone answer (Works S.Stage F.Flash choice.now.plan stage.new bank.new flash.new)) }
    ensures message { IfOk result (λ answer. IfNone answer (S.message_of stage.new ≡ S.message_of stage.old)) }
    ensures filled { (fills : Fills) → HasFilled S.Stage choice.now.plan fills stage.old
        → IfOk result (λ answer. IfNone answer (HasFilled S.Stage choice.now.plan (with_section choice.now.plan section.now fills) stage.new
        × (1 ≤ missing_places choice.now.plan (with_section choice.now.plan section.now fills)))) }
    ensures includes { (fills : Fills) → IncludesFilled S.Stage choice.now.plan fills stage.old
        → IfOk result (λ answer. IfNone answer (IncludesFilled S.Stage choice.now.plan (with_section choice.now.plan section.now fills) stage.new
        × (1 ≤ missing_places choice.now.plan (with_section choice.now.plan section.now fills)))) }
    ensures group { IfOk result (λ answer. IfSome answer (IsOn choice.now)) }
    ensures whole { (fills : Fills) → HasFilled S.Stage choice.now.plan fills stage.old
        → IfOk result (λ answer. IfSome answer (λ verdict. missing_places choice.now.plan (with_section choice.now.plan section.now fills) ≡ 0)) }
    ensures bytes { F.tells → (fills : Fills) → HasFilled S.Stage choice.now.plan fills stage.old
        → HoldsFilling S.Stage choice.now.plan fills stage.old bank.old (F.contents flash.old)
        → IfOk result (λ answer. IfNone answer (HoldsFilling S.Stage choice.now.plan (with_section choice.now.plan section.now fills)
        stage.new bank.new (F.contents flash.new))) }
    ensures kept { F.tells → IfOk result (λ answer. IfNone answer (KeepsBoot (geometry_of bank.old) (F.contents flash.old) (F.contents flash.new))) }
    ensures settled { F.tells → (fills : Fills) → HasFilled S.Stage choice.now.plan fills stage.old
        → HoldsFilling S.Stage choice.now.plan fills stage.old bank.old (F.contents flash.old)
        → IfOk result (λ answer. IfSome answer (Settles choice.now (with_section choice.now.plan section.now fills) bank.old
        (F.contents flash.old) (F.contents flash.new))) }
    ensures held { F.tells → (fills : Fills) → HasFilled S.Stage choice.now.plan fills stage.old
        → HoldsFilling S.Stage choice.now.plan fills stage.old bank.old (F.contents flash.old)
        → SettlingLeaves choice.now (with_section choice.now.plan section.now fills) bank.old (F.contents flash.old)
        (F.contents flash.new) }
    ensures left { F.tells → (fills : Fills) → HasFilled S.Stage choice.now.plan fills stage.old
        → HoldsFilling S.Stage choice.now.plan fills stage.old bank.old (F.contents flash.old)
        → LeavesOnly F.moment F.left_since flash.old flash.new
        (SettlingLeaves choice.now (with_section choice.now.plan section.now fills) bank.old (F.contents flash.old)) }
    // Of a group of which a module is wrong nothing is staged any more.
    ensures forgotten { F.tells → S.KEEPS ≡ true
        → IfOk result (λ answer. IfBadModule answer (StagesNone (geometry_of bank.old) (F.contents flash.new))) }
    // And what boot took before the current image is gone, where the bank was begun for it.
    ensures no_prev { F.tells → S.IN_BANK ≡ true
        → IfOk result (λ answer. IfBadModule answer (HasNoPrev (geometry_of bank.old) (F.contents flash.new))) }
    // Nothing more is held than was, but this block. What was staged is, and where the power goes the margin falls by one at most.
    ensures one_more { F.tells → HoldsWithSection S.KEEPS (geometry_of bank.old) (S.message_of stage.old) choice.now.plan section.now
        (F.contents flash.old) (F.contents flash.new) }
    ensures one_more_left { F.tells → LeavesOnly F.moment F.left_since flash.old flash.new
        (HoldsWithSection S.KEEPS (geometry_of bank.old) (S.message_of stage.old) choice.now.plan section.now (F.contents flash.old)) }
    ensures staged { F.tells → S.KEEPS ≡ true
        → IfOk result (λ answer. IfNone answer (KeepsStaged (geometry_of bank.old) 0 0 (F.contents flash.old) (F.contents flash.new))) }
    ensures staging { F.tells → S.KEEPS ≡ true → (fills : Fills) → HasFilled S.Stage choice.now.plan fills stage.old
        → HoldsFilling S.Stage choice.now.plan fills stage.old bank.old (F.contents flash.old)
        → StagingLeaves 1 choice.now (with_section choice.now.plan section.now fills) bank.old (F.contents flash.old) (F.contents flash.new) }
    ensures staging_left { F.tells → S.KEEPS ≡ true → (fills : Fills) → HasFilled S.Stage choice.now.plan fills stage.old
        → HoldsFilling S.Stage choice.now.plan fills stage.old bank.old (F.contents flash.old)
        → LeavesOnly F.moment F.left_since flash.old flash.new
        (StagingLeaves 1 choice.now (with_section choice.now.plan section.now fills) bank.old (F.contents flash.old)) }
    ensures same_bank { UnlessInstalled result (SameBank bank.old bank.new) }
    ensures most { IfOk result (λ answer. IfNone answer (S.most stage.new ≡ S.most stage.old)) }
    ensures lent { OnOk result (IsLent F.tells F.contents F.block_count F.block_len bank.new flash.new) }
    ensures geometry { geometry_of bank.new ≡ geometry_of bank.old }
    ensures blocks { F.block_count flash.new ≡ F.block_count flash.old }
    ensures block_size { F.block_len flash.new ≡ F.block_len flash.old }
    ensures cause { HasCause (F.faults flash.old) (F.faults flash.new) result }
{
    take_block(stage, bank, flash, &choice.plan, section)?;
    settle(stage, bank, flash, choice)
}
