//! A stage as the loader sees it.

ghost use Rattle.std.specs.Prelude.{◌≡◌, ◌↔◌, ◌≢◌, ◌+◌, ◌-◌, ◌<◌, ◌≤◌, Bool, Contains, IfOk, List, OnErr, OnOk, Some, true, false, length, ℕ};
ghost use Rattle.flash_dev.specs.Changes.{Changes, IsErased};
ghost use Rattle.flash_dev.specs.Moments.{LeavesOnly};
ghost use Rattle.bank_kept.specs.Leaving.{HoldsNoMore, KeepsStaged};
ghost use Rattle.flash_bank.specs.Bank.{Fits, IsLent, block_of, current_of, geometry_of, is_begun, is_spent, len_of, spare_bank, spare_journal};
ghost use Rattle.flash_bank.specs.Journal.{LeavesForgotten};
ghost use Rattle.flash_bank.specs.Leaving.{Installs, KeepsBoot};
ghost use Rattle.flash_layout.specs.Pairs.{part};
ghost use Rattle.flash_bank.specs.Record.{next_record};
ghost use Rattle.flash_bank.specs.Runs.{OnlyReads};
ghost use Rattle.flash_bank.specs.declared.bank.Bank.{Bank};
ghost use Rattle.bank_kept.specs.Contents.{StagesGroup, StagesPlace};
ghost use Rattle.dsmcc_msg.specs.Control.{DiiFields};
ghost use Rattle.flash_stage.specs.Keeping.{HasWholeMargin, HoldsOffered, IsKeptIn, IsPlanOfMessage, IsStagedIn};
ghost use Rattle.flash_stage.specs.Keeping.{KeepsStagedUnlessInstalled, StagesJust, StagesNone};
ghost use Rattle.flash_stage.specs.Leaving.{FinishLeaves, SameBank};
ghost use Rattle.flash_stage.specs.Outline.{IsPlaceOf, Outline, group_text, module_text, outline_of, place_of};
ghost use Rattle.ssu_group.specs.Map.{missing_below};
ghost use Rattle.ssu_group.specs.declared.places.Place.{Place};
ghost use Rattle.ssu_io.specs.Faults.{HasCause};
ghost use Rattle.ts_crc.specs.Crc.{crc_of};

use flash_bank::{Bank, FlashFault};
use flash_dev::Flash;
use ssu_compat::SwId;
use ssu_group::{GroupPlan, ModulePlan, Place};
use ssu_io::NoMemory;
use std::alloc::Global;

/// Where the places of a group are staged until the group is whole, and how it is installed then. Up to `finish` boot
/// takes what it took, whenever the power goes; from then on that, or the whole new image.
///
/// Where nothing of it is staged in the bank (`IN_BANK` is false), flash and bank are as they were up to `finish`.
/// Only `make` takes memory. A bank that is lent to a call was not spent, and after a fault of the flash it is.
pub trait Stage: Sized + Drop {
    /// The length in bytes of the bank that it was made for.
    ghost most: { Self → ℕ };

    /// The plan of the group that it began.
    ghost plan_of: { Self → Outline };

    /// Whether the place of that number is staged.
    ghost has: { Self → ℕ → Bool };

    /// The message of the DII of the group that it began, where it keeps its places.
    ghost message_of: { Self → List ℕ };

    /// The bytes that stand for a place, in the stage or in what the flash holds.
    ghost bytes_at: { Self → Bank → List ℕ → ℕ → List ℕ };

    /// It began a group with this bank, which it has not finished.
    ghost ready: { Self → Bank → Type 0 };

    /// What the flash holds is as the stage left it.
    ghost agrees: { Self → Bank → List ℕ → Type 0 };

    /// Whether what is staged stands in the spare bank, but for a group that is kept, of which some may stand in slots of the journal.
    ghost IN_BANK: { Bool };

    /// Whether what is staged stands in the spare bank, but for a group that is kept, of which some may stand in slots of the journal.
    const IN_BANK: bool;

    /// Whether it keeps the places that the flash has staged of a group that is begun again.
    ghost KEEPS: { Bool };

    /// Whether it keeps the places that the flash has staged of a group that is begun again.
    const KEEPS: bool;

    /// A stage for this bank. All its memory is taken here. `NoMemory` is the one refusal.
    fn make(alloc: Global, bank: &Bank) -> Result<Self, NoMemory>
        ensures most { IfOk result (λ stage. most stage ≡ len_of bank.now) };

    /// Begins the group of this plan, which is that of the message of a DII and has at most the bytes of a bank. Where
    /// `KEEPS` is true it has the places that the flash had staged of this message, and no other; else it has none.
    /// `FlashFault` comes only where the flash failed and its count of faults rose; the bank is spent then.
    fn start<F: Flash>(
        &mut self,
        bank: &mut Bank,
        flash: &mut F,
        message: &[u8],
        plan: &GroupPlan,
    ) -> Result<(), FlashFault>
        requires lent { IsLent F.tells F.contents F.block_count F.block_len bank.old flash.old }
        requires made_for { most self.old ≡ len_of bank.old }
        requires of_message { IsPlanOfMessage (len_of bank.old) message.now plan.now }
        requires inside { plan.now.total ≤ len_of bank.old }
        requires next_fits { (current_of bank.old).number < 4294967295 }
        ensures lent { OnOk result (IsLent F.tells F.contents F.block_count F.block_len bank.new flash.new) }
        ensures ready { OnOk result (ready self.new bank.new) }
        ensures agrees { F.tells → OnOk result (agrees self.new bank.new (F.contents flash.new)) }
        ensures plan { OnOk result (plan_of self.new ≡ outline_of plan.now) }
        ensures message { KEEPS ≡ true → OnOk result (message_of self.new ≡ message.now) }
        ensures empty { KEEPS ≡ false → OnOk result ((number : ℕ) → number < plan.now.places → has self.new number ≡ false) }
        // So it is of a group that is not kept, also where the flash tells nothing.
        ensures empty_else { KEEPS ≡ true → (IsKeptIn bank.old plan.now.places → ⊥)
            → OnOk result ((number : ℕ) → number < plan.now.places → has self.new number ≡ false) }
        ensures kept { F.tells → KEEPS ≡ true → OnOk result ((number : ℕ) → number < plan.now.places
            → (has self.new number ≡ true) ↔ IsStagedIn (geometry_of bank.old) (F.contents flash.old) message.now number) }
        ensures kept_bytes { F.tells → KEEPS ≡ true → OnOk result ((number : ℕ) (bytes : List ℕ)
            → StagesPlace (geometry_of bank.old) (F.contents flash.old) message.now number bytes
            → bytes_at self.new bank.new (F.contents flash.new) number ≡ bytes) }
        ensures held { F.tells → KeepsBoot (geometry_of bank.old) (F.contents flash.old) (F.contents flash.new) }
        ensures left { F.tells → LeavesOnly F.moment F.left_since flash.old flash.new
            (KeepsBoot (geometry_of bank.old) (F.contents flash.old)) }
        // Nothing more is held of any group than was.
        ensures no_more { F.tells → HoldsNoMore (geometry_of bank.old) (F.contents flash.old) (F.contents flash.new) }
        ensures no_more_left { F.tells → LeavesOnly F.moment F.left_since flash.old flash.new
            (HoldsNoMore (geometry_of bank.old) (F.contents flash.old)) }
        // Where this message was staged all of that is, whenever the power goes; else the journal is as new.
        ensures resumed { F.tells → KEEPS ≡ true → (dii : DiiFields) → StagesGroup (geometry_of bank.old) (F.contents flash.old) message.now dii
            → KeepsStaged (geometry_of bank.old) 0 0 (F.contents flash.old) (F.contents flash.new) }
        ensures resumed_left { F.tells → KEEPS ≡ true → (dii : DiiFields) → StagesGroup (geometry_of bank.old) (F.contents flash.old) message.now dii
            → LeavesOnly F.moment F.left_since flash.old flash.new (KeepsStaged (geometry_of bank.old) 0 0 (F.contents flash.old)) }
        ensures fresh { F.tells → KEEPS ≡ true
            → ((dii : DiiFields) → StagesGroup (geometry_of bank.old) (F.contents flash.old) message.now dii → ⊥)
            → OnOk result (HasWholeMargin (geometry_of bank.old) (F.contents flash.new)) }
        ensures alone { IN_BANK ≡ false → flash.new ≡ flash.old }
        ensures bank_alone { IN_BANK ≡ false → bank.new ≡ bank.old }
        ensures begun { OnOk result (is_begun bank.old ≡ true → is_begun bank.new ≡ true) }
        ensures spent { OnErr result (is_spent bank.new ≡ true) }
        ensures same_bank { SameBank bank.old bank.new }
        ensures most { most self.new ≡ most self.old }
        ensures blocks { F.block_count flash.new ≡ F.block_count flash.old }
        ensures block_size { F.block_len flash.new ≡ F.block_len flash.old }
        ensures cause { HasCause (F.faults flash.old) (F.faults flash.new) result };

    /// Stages the bytes of a place, as many as the place has. One that is staged already keeps its first bytes.
    /// `FlashFault` comes only where the flash failed and its count of faults rose; the bank is spent then.
    fn offer<F: Flash>(
        &mut self,
        bank: &mut Bank,
        flash: &mut F,
        place: Place,
        bytes: &[u8],
    ) -> Result<(), FlashFault>
        requires lent { IsLent F.tells F.contents F.block_count F.block_len bank.old flash.old }
        requires ready { ready self.old bank.old }
        requires agrees { F.tells → agrees self.old bank.old (F.contents flash.old) }
        requires place { IsPlaceOf (plan_of self.old) place }
        requires length { length bytes.now ≡ place.len }
        ensures lent { OnOk result (IsLent F.tells F.contents F.block_count F.block_len bank.new flash.new) }
        ensures ready { OnOk result (ready self.new bank.new) }
        ensures agrees { F.tells → OnOk result (agrees self.new bank.new (F.contents flash.new)) }
        ensures plan { plan_of self.new ≡ plan_of self.old }
        ensures message { message_of self.new ≡ message_of self.old }
        ensures added { OnOk result (has self.new place.number ≡ true) }
        ensures others { OnOk result ((number : ℕ) → number ≢ place.number → has self.new number ≡ has self.old number) }
        ensures new_bytes { F.tells → has self.old place.number ≡ false
            → OnOk result (bytes_at self.new bank.new (F.contents flash.new) place.number ≡ bytes.now) }
        ensures old_bytes { F.tells → OnOk result ((number : ℕ) → has self.old number ≡ true
            → bytes_at self.new bank.new (F.contents flash.new) number ≡ bytes_at self.old bank.old (F.contents flash.old) number) }
        ensures held { F.tells → KeepsBoot (geometry_of bank.old) (F.contents flash.old) (F.contents flash.new) }
        ensures left { F.tells → LeavesOnly F.moment F.left_since flash.old flash.new
            (KeepsBoot (geometry_of bank.old) (F.contents flash.old)) }
        // Nothing more is held of any group than was, but this place.
        ensures one_more { F.tells → HoldsOffered KEEPS (geometry_of bank.old) (message_of self.old) place.number bytes.now
            (F.contents flash.old) (F.contents flash.new) }
        ensures one_more_left { F.tells → LeavesOnly F.moment F.left_since flash.old flash.new
            (HoldsOffered KEEPS (geometry_of bank.old) (message_of self.old) place.number bytes.now (F.contents flash.old)) }
        // At Ok all that was staged is, and the margin has not fallen. Where the power goes it falls by one at most, and if it was at least
        // 1, all that was staged is.
        ensures staged { F.tells → KEEPS ≡ true → OnOk result (KeepsStaged (geometry_of bank.old) 0 0 (F.contents flash.old) (F.contents flash.new)) }
        ensures staged_held { F.tells → KEEPS ≡ true → KeepsStaged (geometry_of bank.old) 1 1 (F.contents flash.old) (F.contents flash.new) }
        ensures staged_left { F.tells → KEEPS ≡ true → LeavesOnly F.moment F.left_since flash.old flash.new
            (KeepsStaged (geometry_of bank.old) 1 1 (F.contents flash.old)) }
        ensures alone { IN_BANK ≡ false → flash.new ≡ flash.old }
        ensures bank_alone { IN_BANK ≡ false → bank.new ≡ bank.old }
        ensures begun { OnOk result (is_begun bank.old ≡ true → is_begun bank.new ≡ true) }
        ensures spent { OnErr result (is_spent bank.new ≡ true) }
        ensures same_bank { SameBank bank.old bank.new }
        ensures most { most self.new ≡ most self.old }
        ensures blocks { F.block_count flash.new ≡ F.block_count flash.old }
        ensures block_size { F.block_len flash.new ≡ F.block_len flash.old }
        ensures cause { HasCause (F.faults flash.old) (F.faults flash.new) result };

    /// How many places are not staged.
    fn missing(&self) -> u32
        ensures { result ≡ missing_below (has self.now) (plan_of self.now).places };

    /// The CRC of the bytes of a module, all of whose places are staged. It changes nothing of what is staged.
    /// `FlashFault` comes only where the flash failed and its count of faults rose; the bank is spent then.
    fn module_crc<F: Flash>(
        &mut self,
        bank: &mut Bank,
        flash: &mut F,
        module: &ModulePlan,
    ) -> Result<u32, FlashFault>
        requires lent { IsLent F.tells F.contents F.block_count F.block_len bank.old flash.old }
        requires ready { ready self.old bank.old }
        requires agrees { F.tells → agrees self.old bank.old (F.contents flash.old) }
        requires module { Contains (plan_of self.old).modules «module».now }
        requires whole { (k : ℕ) → k < «module».now.blocks → has self.old («module».now.first + k) ≡ true }
        ensures lent { OnOk result (IsLent F.tells F.contents F.block_count F.block_len bank.new flash.new) }
        ensures ready { OnOk result (ready self.new bank.new) }
        ensures agrees { F.tells → OnOk result (agrees self.new bank.new (F.contents flash.new)) }
        ensures plan { plan_of self.new ≡ plan_of self.old }
        ensures message { message_of self.new ≡ message_of self.old }
        ensures crc { F.tells → IfOk result (λ crc. crc
            ≡ crc_of (module_text (bytes_at self.old bank.old (F.contents flash.old)) «module».now)) }
        ensures same { (number : ℕ) → has self.new number ≡ has self.old number }
        ensures same_bytes { F.tells → (number : ℕ)
            → bytes_at self.new bank.new (F.contents flash.new) number ≡ bytes_at self.old bank.old (F.contents flash.old) number }
        ensures reads { OnlyReads F.tells F.contents F.block_count F.block_len F.moment F.left_since flash.old flash.new }
        ensures alone { IN_BANK ≡ false → flash.new ≡ flash.old }
        ensures bank_alone { IN_BANK ≡ false → bank.new ≡ bank.old }
        ensures begun { is_begun bank.new ≡ is_begun bank.old }
        ensures spent { OnErr result (is_spent bank.new ≡ true) }
        ensures same_bank { SameBank bank.old bank.new }
        ensures most { most self.new ≡ most self.old }
        ensures cause { HasCause (F.faults flash.old) (F.faults flash.new) result };

    /// Installs the group, of which no place is missing: the places, joined, become the image of the next record.
    /// `FlashFault` comes only where the flash failed and its count of faults rose: boot takes what it took, or the
    /// whole new image, and the bank is spent.
    fn finish<F: Flash>(
        &mut self,
        bank: &mut Bank,
        flash: &mut F,
        software: SwId,
        group: u32,
    ) -> Result<(), FlashFault>
        requires lent { IsLent F.tells F.contents F.block_count F.block_len bank.old flash.old }
        requires ready { ready self.old bank.old }
        requires agrees { F.tells → agrees self.old bank.old (F.contents flash.old) }
        requires whole { missing_below (has self.old) (plan_of self.old).places ≡ 0 }
        requires next_fits { (current_of bank.old).number < 4294967295 }
        ensures lent { OnOk result (IsLent F.tells F.contents F.block_count F.block_len bank.new flash.new) }
        ensures current { OnOk result (current_of bank.new ≡ next_record (current_of bank.old) (plan_of self.old).total software group) }
        ensures block { OnOk result (block_of bank.new ≡ 1 - block_of bank.old) }
        ensures done { F.tells → OnOk result (Installs (geometry_of bank.old) (next_record (current_of bank.old) (plan_of self.old).total software group)
            (group_text (bytes_at self.old bank.old (F.contents flash.old)) (plan_of self.old))
            (F.contents flash.old) (F.contents flash.new)) }
        ensures held { F.tells → FinishLeaves (geometry_of bank.old) (next_record (current_of bank.old) (plan_of self.old).total software group)
            (group_text (bytes_at self.old bank.old (F.contents flash.old)) (plan_of self.old))
            (F.contents flash.old) (F.contents flash.new) }
        ensures left { F.tells → LeavesOnly F.moment F.left_since flash.old flash.new
            (FinishLeaves (geometry_of bank.old) (next_record (current_of bank.old) (plan_of self.old).total software group)
            (group_text (bytes_at self.old bank.old (F.contents flash.old)) (plan_of self.old))
            (F.contents flash.old)) }
        ensures no_more { F.tells → HoldsNoMore (geometry_of bank.old) (F.contents flash.old) (F.contents flash.new) }
        ensures no_more_left { F.tells → LeavesOnly F.moment F.left_since flash.old flash.new
            (HoldsNoMore (geometry_of bank.old) (F.contents flash.old)) }
        ensures staged_held { F.tells → KEEPS ≡ true
            → KeepsStagedUnlessInstalled (geometry_of bank.old) (F.contents flash.old) (F.contents flash.new) }
        ensures staged_left { F.tells → KEEPS ≡ true → LeavesOnly F.moment F.left_since flash.old flash.new
            (KeepsStagedUnlessInstalled (geometry_of bank.old) (F.contents flash.old)) }
        ensures begun { OnOk result (is_begun bank.new ≡ false) }
        ensures spent { OnErr result (is_spent bank.new ≡ true) }
        ensures same_bank { OnErr result (SameBank bank.old bank.new) }
        ensures geometry { geometry_of bank.new ≡ geometry_of bank.old }
        ensures len { len_of bank.new ≡ len_of bank.old }
        ensures most { most self.new ≡ most self.old }
        ensures blocks { F.block_count flash.new ≡ F.block_count flash.old }
        ensures block_size { F.block_len flash.new ≡ F.block_len flash.old }
        ensures cause { HasCause (F.faults flash.old) (F.faults flash.new) result };

    /// Lets go of the group, if it began one: no place of it is staged. A stage that keeps its places erases the first block of the spare
    /// journal in layout 2, so that the flash has nothing staged, and the bank is not begun then; no other call of the flash is made.
    /// `FlashFault` comes only where the flash failed and its count of faults rose; the bank is spent then.
    fn forget<F: Flash>(&mut self, bank: &mut Bank, flash: &mut F) -> Result<(), FlashFault>
        requires lent { IsLent F.tells F.contents F.block_count F.block_len bank.old flash.old }
        ensures lent { OnOk result (IsLent F.tells F.contents F.block_count F.block_len bank.new flash.new) }
        ensures plan { plan_of self.new ≡ plan_of self.old }
        ensures empty { OnOk result ((number : ℕ) → number < (plan_of self.old).places → has self.new number ≡ false) }
        ensures none { F.tells → KEEPS ≡ true → OnOk result (StagesNone (geometry_of bank.old) (F.contents flash.new)) }
        ensures forgot { F.tells → KEEPS ≡ true → (current_of bank.old).layout ≡ 2 → OnOk result (Changes (spare_journal bank.old)
            (geometry_of bank.old).block_len IsErased (F.contents flash.old) (F.contents flash.new)) }
        ensures forgot_held { F.tells → KEEPS ≡ true → (current_of bank.old).layout ≡ 2
            → LeavesForgotten bank.old (F.contents flash.old) (F.contents flash.new) }
        ensures forgot_left { F.tells → KEEPS ≡ true → (current_of bank.old).layout ≡ 2
            → LeavesOnly F.moment F.left_since flash.old flash.new (LeavesForgotten bank.old (F.contents flash.old)) }
        ensures not_begun { KEEPS ≡ true → (current_of bank.old).layout ≡ 2 → OnOk result (is_begun bank.new ≡ false) }
        ensures held { F.tells → KeepsBoot (geometry_of bank.old) (F.contents flash.old) (F.contents flash.new) }
        ensures left { F.tells → LeavesOnly F.moment F.left_since flash.old flash.new
            (KeepsBoot (geometry_of bank.old) (F.contents flash.old)) }
        ensures no_more { F.tells → HoldsNoMore (geometry_of bank.old) (F.contents flash.old) (F.contents flash.new) }
        ensures no_more_left { F.tells → LeavesOnly F.moment F.left_since flash.old flash.new
            (HoldsNoMore (geometry_of bank.old) (F.contents flash.old)) }
        ensures alone { KEEPS ≡ false → flash.new ≡ flash.old }
        ensures bank_alone { KEEPS ≡ false → bank.new ≡ bank.old }
        ensures alone_one { (current_of bank.old).layout ≡ 1 → flash.new ≡ flash.old }
        ensures bank_alone_one { (current_of bank.old).layout ≡ 1 → bank.new ≡ bank.old }
        ensures spent { OnErr result (is_spent bank.new ≡ true) }
        ensures same_bank { SameBank bank.old bank.new }
        ensures most { most self.new ≡ most self.old }
        ensures blocks { F.block_count flash.new ≡ F.block_count flash.old }
        ensures block_size { F.block_len flash.new ≡ F.block_len flash.old }
        ensures cause { HasCause (F.faults flash.old) (F.faults flash.new) result };

    /// In the bank each place stands in its own range, but for a group that is kept, of which some may stand in slots of the journal.
    ghost in_bank: { IN_BANK ≡ true → (stage : Self) (bank : Bank) (held : List ℕ) (number : ℕ) (p : Place)
        → (KEEPS ≡ true → IsKeptIn bank (plan_of stage).places → ⊥) → place_of (plan_of stage) number ≡ Some p
        → bytes_at stage bank held number ≡ part held (spare_bank bank + p.at) p.len };

    /// And the bank was begun for the group, so that what boot took before the current image is there no longer.
    ghost in_bank_begun: { IN_BANK ≡ true → (stage : Self) (bank : Bank) → ready stage bank → is_begun bank ≡ true };

    /// Where it keeps its places, the flash has staged just what it has, from `start` on and up to `finish` or `forget`. In layout 1, and for
    /// a group of more places than there are marks, the flash has nothing staged.
    ghost keeps: { KEEPS ≡ true → (stage : Self) (bank : Bank) (held : List ℕ) → ready stage bank → agrees stage bank held → Fits bank held
        → IsKeptIn bank (plan_of stage).places
        → StagesJust (geometry_of bank) held (message_of stage) (plan_of stage).places (has stage) (bytes_at stage bank held) };

    ghost keeps_none: { KEEPS ≡ true → (stage : Self) (bank : Bank) (held : List ℕ) → ready stage bank → agrees stage bank held → Fits bank held
        → (IsKeptIn bank (plan_of stage).places → ⊥) → StagesNone (geometry_of bank) held };
}
