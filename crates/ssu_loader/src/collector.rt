//! The group that the box wants, section by section, up to a decision.

ghost use Rattle.std.specs.Prelude.{◌≡◌, ◌∷◌, List, IfNone, IfOk, IsFalse, IsTrue, Ok, OnOk, Some, ◌≢◌, true};
ghost use Rattle.flash_bank.specs.Bank.{IsLent, geometry_of};
ghost use Rattle.section_form.specs.Section.{IsRight};
ghost use Rattle.flash_dev.specs.Moments.{LeavesOnly};
ghost use Rattle.flash_stage.specs.Keeping.{StagesNone};
ghost use Rattle.flash_stage.specs.Leaving.{SameBank};
ghost use Rattle.ssu_io.specs.Faults.{HasCause};
ghost use Rattle.ts_section.specs.Events.{Heard};
ghost use Rattle.route_tables.specs.Next.{heard_on};
ghost use Rattle.route_tables.specs.Values.{Receiver};
ghost use Rattle.ssu_route.specs.declared.change.Change.TheVariants as change;
ghost use Rattle.ssu_route.specs.Route.{Stands};
ghost use Rattle.ssu_loader.specs.Lasting.{KeepsMargin, Lasts};
ghost use Rattle.ssu_loader.specs.Leaving.{GoesOn, IfBadModule, SectionsLeave, UnlessInstalled};
ghost use Rattle.ssu_loader.specs.Life.{HoldsHeard};
ghost use Rattle.ssu_loader.specs.Starting.{KnowsKept};
ghost use Rattle.ssu_loader.specs.Storing.{HasNoPrev};
ghost use Rattle.ssu_route.specs.Windows.{beginnings, is_one_too_many};
ghost use Rattle.ssu_answer.specs.declared.verdict.Verdict.TheVariants as verdict;
ghost use Rattle.ssu_loader.specs.Verdicts.{IsPartialVerdict, IsSeen, IsVerdict};

use crate::gather::{gather, start};
use crate::settle::chosen;
use flash_bank::{Bank, FlashFault};
use flash_dev::Flash;
use flash_stage::Stage;
use ssu_answer::Verdict;
use ssu_route::{Change, HeapRoute};
use ts_packet::Pid;

/// The most choices of one replay.
const MAX_CHOICES: u32 = 16;

/// Follows the way to an update and collects the group that is chosen. It keeps no section.
#[derive(Drop)]
pub(crate) struct Collector<S> {
    pub(crate) bank: Bank,
    pub(crate) stage: S,
    pub(crate) route: HeapRoute,
    /// How many choices began.
    pub(crate) choices: u32,
}

impl<S: Stage> Collector<S> {
    ghost use Rattle.ssu_loader.specs.Collecting.{Collects, IsAhead, IsUsable, IsUsableAt, Knows, KnowsHeard};

    /// Hears the next section, on this PID. It is right. It answers a verdict where one is reached.
    pub(crate) fn hear<F: Flash>(
        &mut self,
        flash: &mut F,
        pid: Pid,
        section: &[u8],
    ) -> Result<Option<Verdict>, FlashFault>
        requires right { IsRight section.now }
        requires usable { IsUsable S.Stage F.Flash self.old flash.old }
        ensures collects { (me : Receiver) (heard : List Heard) → Collects S.Stage F.Flash me heard self.old flash.old
            → IfOk result (λ answer. IfNone answer (Collects S.Stage F.Flash me (heard_on pid section.now ∷ heard) self.new flash.new)) }
        ensures seen { (me : Receiver) (heard : List Heard) → Collects S.Stage F.Flash me heard self.old flash.old
            → IfOk result (IsSeen (KnowsKept S.Stage F.Flash) me (heard_on pid section.now ∷ heard)) }
        ensures goes_on { F.tells → (me : Receiver) (heard : List Heard) → Collects S.Stage F.Flash me heard self.old flash.old
            → IfOk result (GoesOn me (heard_on pid section.now ∷ heard) self.old.bank (F.contents flash.old) (F.contents flash.new)) }
        ensures held { F.tells → (me : Receiver) (heard : List Heard) → Collects S.Stage F.Flash me heard self.old flash.old
            → SectionsLeave me (heard_on pid section.now ∷ heard) self.old.bank (F.contents flash.old) (F.contents flash.new) }
        ensures left { F.tells → (me : Receiver) (heard : List Heard) → Collects S.Stage F.Flash me heard self.old flash.old
            → LeavesOnly F.moment F.left_since flash.old flash.new
            (SectionsLeave me (heard_on pid section.now ∷ heard) self.old.bank (F.contents flash.old)) }
        // At a choice too many, and before any choice began, the flash is not called.
        ensures too_many { (me : Receiver) (heard : List Heard) → Collects S.Stage F.Flash me heard self.old flash.old
            → IsTrue (is_one_too_many me (heard_on pid section.now ∷ heard))
            → (result ≡ Ok (Some verdict.Unsettled)) × (flash.new ≡ flash.old) }
        ensures untouched { (me : Receiver) (heard : List Heard) → Collects S.Stage F.Flash me heard self.old flash.old
            → beginnings me (heard_on pid section.now ∷ heard) ≡ 0 → flash.new ≡ flash.old }
        // Of places it holds no more than it held, but those that were heard.
        ensures holds { F.tells → (me : Receiver) (heard : List Heard) → Collects S.Stage F.Flash me heard self.old flash.old
            → HoldsHeard (geometry_of self.old.bank) me (heard_on pid section.now ∷ heard) (F.contents flash.old) (F.contents flash.new) }
        ensures holds_left { F.tells → (me : Receiver) (heard : List Heard) → Collects S.Stage F.Flash me heard self.old flash.old
            → LeavesOnly F.moment F.left_since flash.old flash.new
            (HoldsHeard (geometry_of self.old.bank) me (heard_on pid section.now ∷ heard) (F.contents flash.old)) }
        // What a stage that keeps its places had staged stays staged, up to the end that `Lasts` names. At Ok the margin has not fallen, and where the
        // power goes it falls by one at most.
        ensures lasts { S.KEEPS ≡ true → F.tells → (me : Receiver) (heard : List Heard) → Collects S.Stage F.Flash me heard self.old flash.old
            → IfOk result (λ answer. Lasts 0 (geometry_of self.old.bank) me (heard_on pid section.now ∷ heard) heard
            (F.contents flash.old) (F.contents flash.new)) }
        ensures lasts_held { S.KEEPS ≡ true → F.tells → (me : Receiver) (heard : List Heard) → Collects S.Stage F.Flash me heard self.old flash.old
            → Lasts 1 (geometry_of self.old.bank) me (heard_on pid section.now ∷ heard) heard (F.contents flash.old) (F.contents flash.new) }
        ensures lasts_left { S.KEEPS ≡ true → F.tells → (me : Receiver) (heard : List Heard) → Collects S.Stage F.Flash me heard self.old flash.old
            → LeavesOnly F.moment F.left_since flash.old flash.new
            (Lasts 1 (geometry_of self.old.bank) me (heard_on pid section.now ∷ heard) heard (F.contents flash.old)) }
        // At Ok without a verdict the group that is staged was staged before, all of it stays, and the margin has not fallen; or it is whole.
        ensures margin { S.KEEPS ≡ true → F.tells → (me : Receiver) (heard : List Heard) → Collects S.Stage F.Flash me heard self.old flash.old
            → IfOk result (λ answer. IfNone answer (KeepsMargin (geometry_of self.old.bank) (F.contents flash.old) (F.contents flash.new))) }
        // Where a module is wrong a choice had begun, and nothing of the group stays staged.
        ensures no_prev { S.IN_BANK ≡ true → F.tells → IfOk result (λ answer. IfBadModule answer
            (HasNoPrev (geometry_of self.old.bank) (F.contents flash.new))) }
        ensures forgotten { S.KEEPS ≡ true → F.tells → IfOk result (λ answer. IfBadModule answer
            (StagesNone (geometry_of self.old.bank) (F.contents flash.new))) }
        ensures same_bank { UnlessInstalled result (SameBank self.old.bank self.new.bank) }
        ensures lent { OnOk result (IsLent F.tells F.contents F.block_count F.block_len self.new.bank flash.new) }
        ensures geometry { geometry_of self.new.bank ≡ geometry_of self.old.bank }
        ensures blocks { F.block_count flash.new ≡ F.block_count flash.old }
        ensures block_size { F.block_len flash.new ≡ F.block_len flash.old }
        ensures cause { HasCause (F.faults flash.old) (F.faults flash.new) result }
    {
        let running = self.bank.current().software;
        match self.route.hear(pid, section, running) {
            Change::Lost => Ok(None),
            Change::Chosen => self.begin(flash),
            Change::Same => self.take(flash, pid, section),
        }
    }

    /// What comes of the sections if no more come.
    pub(crate) fn end(&self) -> Verdict
        ensures verdict { (me : Receiver) (heard : List Heard) → Stands me heard self.now.route → KnowsHeard S.Stage me heard self.now
            → Knows S.Stage me heard self.now → IsVerdict me heard result }
        ensures partial { (me : Receiver) (heard : List Heard) → Stands me heard self.now.route → KnowsHeard S.Stage me heard self.now
            → IsPartialVerdict me heard result }
    {
        match self.route.choice() {
            None => Verdict::Nothing(self.route.missing()),
            Some(choice) => Verdict::Incomplete(chosen(choice), self.stage.missing()),
        }
    }

    /// A choice begins, unless sixteen did. Then no call of the flash is made.
    fn begin<F: Flash>(&mut self, flash: &mut F) -> Result<Option<Verdict>, FlashFault>
        requires usable { IsUsableAt S.Stage F.Flash change.Chosen self.old flash.old }
        ensures collects { (me : Receiver) (item : Heard) (heard : List Heard) → IsAhead S.Stage F.Flash me item heard change.Chosen self.old flash.old
            → IfOk result (λ answer. IfNone answer (Collects S.Stage F.Flash me (item ∷ heard) self.new flash.new)) }
        ensures seen { (me : Receiver) (item : Heard) (heard : List Heard) → IsAhead S.Stage F.Flash me item heard change.Chosen self.old flash.old
            → IfOk result (IsSeen (KnowsKept S.Stage F.Flash) me (item ∷ heard)) }
        ensures goes_on { F.tells → (me : Receiver) (item : Heard) (heard : List Heard) → IsAhead S.Stage F.Flash me item heard change.Chosen self.old flash.old
            → IfOk result (GoesOn me (item ∷ heard) self.old.bank (F.contents flash.old) (F.contents flash.new)) }
        ensures held { F.tells → (me : Receiver) (item : Heard) (heard : List Heard) → IsAhead S.Stage F.Flash me item heard change.Chosen self.old flash.old
            → SectionsLeave me (item ∷ heard) self.old.bank (F.contents flash.old) (F.contents flash.new) }
        ensures left { F.tells → (me : Receiver) (item : Heard) (heard : List Heard) → IsAhead S.Stage F.Flash me item heard change.Chosen self.old flash.old
            → LeavesOnly F.moment F.left_since flash.old flash.new (SectionsLeave me (item ∷ heard) self.old.bank (F.contents flash.old)) }
        // Of places it holds no more than it held, but those that were heard.
        ensures holds { F.tells → (me : Receiver) (item : Heard) (heard : List Heard)
            → IsAhead S.Stage F.Flash me item heard change.Chosen self.old flash.old
            → HoldsHeard (geometry_of self.old.bank) me (item ∷ heard) (F.contents flash.old) (F.contents flash.new) }
        ensures holds_left { F.tells → (me : Receiver) (item : Heard) (heard : List Heard)
            → IsAhead S.Stage F.Flash me item heard change.Chosen self.old flash.old
            → LeavesOnly F.moment F.left_since flash.old flash.new
            (HoldsHeard (geometry_of self.old.bank) me (item ∷ heard) (F.contents flash.old)) }
        // What a stage that keeps its places had staged stays staged, up to the end that `Lasts` names. At Ok the margin has not fallen, and where the
        // power goes it falls by one at most.
        ensures lasts { S.KEEPS ≡ true → F.tells → (me : Receiver) (item : Heard) (heard : List Heard)
            → IsAhead S.Stage F.Flash me item heard change.Chosen self.old flash.old
            → IfOk result (λ answer. Lasts 0 (geometry_of self.old.bank) me (item ∷ heard) heard (F.contents flash.old) (F.contents flash.new)) }
        ensures lasts_held { S.KEEPS ≡ true → F.tells → (me : Receiver) (item : Heard) (heard : List Heard)
            → IsAhead S.Stage F.Flash me item heard change.Chosen self.old flash.old
            → Lasts 1 (geometry_of self.old.bank) me (item ∷ heard) heard (F.contents flash.old) (F.contents flash.new) }
        ensures lasts_left { S.KEEPS ≡ true → F.tells → (me : Receiver) (item : Heard) (heard : List Heard)
            → IsAhead S.Stage F.Flash me item heard change.Chosen self.old flash.old
            → LeavesOnly F.moment F.left_since flash.old flash.new
            (Lasts 1 (geometry_of self.old.bank) me (item ∷ heard) heard (F.contents flash.old)) }
        // At Ok without a verdict the group that is staged was staged before, all of it stays, and the margin has not fallen; or it is whole.
        ensures margin { S.KEEPS ≡ true → F.tells → (me : Receiver) (item : Heard) (heard : List Heard)
            → IsAhead S.Stage F.Flash me item heard change.Chosen self.old flash.old
            → IfOk result (λ answer. IfNone answer (KeepsMargin (geometry_of self.old.bank) (F.contents flash.old) (F.contents flash.new))) }
        // Where a module is wrong a choice had begun, and nothing of the group stays staged.
        ensures no_prev { S.IN_BANK ≡ true → F.tells → IfOk result (λ answer. IfBadModule answer
            (HasNoPrev (geometry_of self.old.bank) (F.contents flash.new))) }
        ensures forgotten { S.KEEPS ≡ true → F.tells → IfOk result (λ answer. IfBadModule answer
            (StagesNone (geometry_of self.old.bank) (F.contents flash.new))) }
        ensures same_bank { UnlessInstalled result (SameBank self.old.bank self.new.bank) }
        ensures too_many { (me : Receiver) (item : Heard) (heard : List Heard) → IsAhead S.Stage F.Flash me item heard change.Chosen self.old flash.old
            → IsTrue (is_one_too_many me (item ∷ heard)) → (result ≡ Ok (Some verdict.Unsettled)) × (flash.new ≡ flash.old) }
        ensures lent { OnOk result (IsLent F.tells F.contents F.block_count F.block_len self.new.bank flash.new) }
        ensures geometry { geometry_of self.new.bank ≡ geometry_of self.old.bank }
        ensures blocks { F.block_count flash.new ≡ F.block_count flash.old }
        ensures block_size { F.block_len flash.new ≡ F.block_len flash.old }
        ensures cause { HasCause (F.faults flash.old) (F.faults flash.new) result }
    {
        if self.choices == MAX_CHOICES {
            return Ok(Some(Verdict::Unsettled));
        }
        self.choices += 1;
        match self.route.choice() {
            None => Ok(None),
            Some(choice) => start(&mut self.stage, &mut self.bank, flash, choice),
        }
    }

    /// Takes the section where it is a block of the choice, and decides on the group once it is whole.
    fn take<F: Flash>(
        &mut self,
        flash: &mut F,
        pid: Pid,
        section: &[u8],
    ) -> Result<Option<Verdict>, FlashFault>
        requires right { IsRight section.now }
        requires usable { IsUsableAt S.Stage F.Flash change.Same self.old flash.old }
        ensures collects { (me : Receiver) (heard : List Heard)
            → IsAhead S.Stage F.Flash me (heard_on pid section.now) heard change.Same self.old flash.old
            → IfOk result (λ answer. IfNone answer (Collects S.Stage F.Flash me (heard_on pid section.now ∷ heard) self.new flash.new)) }
        ensures seen { (me : Receiver) (heard : List Heard)
            → IsAhead S.Stage F.Flash me (heard_on pid section.now) heard change.Same self.old flash.old
            → IfOk result (IsSeen (KnowsKept S.Stage F.Flash) me (heard_on pid section.now ∷ heard)) }
        ensures goes_on { F.tells → (me : Receiver) (heard : List Heard)
            → IsAhead S.Stage F.Flash me (heard_on pid section.now) heard change.Same self.old flash.old
            → IfOk result (GoesOn me (heard_on pid section.now ∷ heard) self.old.bank (F.contents flash.old) (F.contents flash.new)) }
        ensures held { F.tells → (me : Receiver) (heard : List Heard)
            → IsAhead S.Stage F.Flash me (heard_on pid section.now) heard change.Same self.old flash.old
            → SectionsLeave me (heard_on pid section.now ∷ heard) self.old.bank (F.contents flash.old) (F.contents flash.new) }
        ensures left { F.tells → (me : Receiver) (heard : List Heard)
            → IsAhead S.Stage F.Flash me (heard_on pid section.now) heard change.Same self.old flash.old
            → LeavesOnly F.moment F.left_since flash.old flash.new
            (SectionsLeave me (heard_on pid section.now ∷ heard) self.old.bank (F.contents flash.old)) }
        ensures untouched { (me : Receiver) (heard : List Heard)
            → IsAhead S.Stage F.Flash me (heard_on pid section.now) heard change.Same self.old flash.old
            → beginnings me (heard_on pid section.now ∷ heard) ≡ 0 → flash.new ≡ flash.old }
        // Of places it holds no more than it held, but those that were heard.
        ensures holds { F.tells → (me : Receiver) (heard : List Heard)
            → IsAhead S.Stage F.Flash me (heard_on pid section.now) heard change.Same self.old flash.old
            → HoldsHeard (geometry_of self.old.bank) me (heard_on pid section.now ∷ heard) (F.contents flash.old) (F.contents flash.new) }
        ensures holds_left { F.tells → (me : Receiver) (heard : List Heard)
            → IsAhead S.Stage F.Flash me (heard_on pid section.now) heard change.Same self.old flash.old
            → LeavesOnly F.moment F.left_since flash.old flash.new
            (HoldsHeard (geometry_of self.old.bank) me (heard_on pid section.now ∷ heard) (F.contents flash.old)) }
        // What a stage that keeps its places had staged stays staged, up to the end that `Lasts` names. At Ok the margin has not fallen, and where the
        // power goes it falls by one at most.
        ensures lasts { S.KEEPS ≡ true → F.tells → (me : Receiver) (heard : List Heard)
            → IsAhead S.Stage F.Flash me (heard_on pid section.now) heard change.Same self.old flash.old
            → IfOk result (λ answer. Lasts 0 (geometry_of self.old.bank) me (heard_on pid section.now ∷ heard) heard
            (F.contents flash.old) (F.contents flash.new)) }
        ensures lasts_held { S.KEEPS ≡ true → F.tells → (me : Receiver) (heard : List Heard)
            → IsAhead S.Stage F.Flash me (heard_on pid section.now) heard change.Same self.old flash.old
            → Lasts 1 (geometry_of self.old.bank) me (heard_on pid section.now ∷ heard) heard (F.contents flash.old) (F.contents flash.new) }
        ensures lasts_left { S.KEEPS ≡ true → F.tells → (me : Receiver) (heard : List Heard)
            → IsAhead S.Stage F.Flash me (heard_on pid section.now) heard change.Same self.old flash.old
            → LeavesOnly F.moment F.left_since flash.old flash.new
            (Lasts 1 (geometry_of self.old.bank) me (heard_on pid section.now ∷ heard) heard (F.contents flash.old)) }
        // At Ok without a verdict the group that is staged was staged before, all of it stays, and the margin has not fallen; or it is whole.
        ensures margin { S.KEEPS ≡ true → F.tells → (me : Receiver) (heard : List Heard)
            → IsAhead S.Stage F.Flash me (heard_on pid section.now) heard change.Same self.old flash.old
            → IfOk result (λ answer. IfNone answer (KeepsMargin (geometry_of self.old.bank) (F.contents flash.old) (F.contents flash.new))) }
        // Where a module is wrong a choice had begun, and nothing of the group stays staged.
        ensures no_prev { S.IN_BANK ≡ true → F.tells → IfOk result (λ answer. IfBadModule answer
            (HasNoPrev (geometry_of self.old.bank) (F.contents flash.new))) }
        ensures forgotten { S.KEEPS ≡ true → F.tells → IfOk result (λ answer. IfBadModule answer
            (StagesNone (geometry_of self.old.bank) (F.contents flash.new))) }
        ensures same_bank { UnlessInstalled result (SameBank self.old.bank self.new.bank) }
        ensures lent { OnOk result (IsLent F.tells F.contents F.block_count F.block_len self.new.bank flash.new) }
        ensures geometry { geometry_of self.new.bank ≡ geometry_of self.old.bank }
        ensures blocks { F.block_count flash.new ≡ F.block_count flash.old }
        ensures block_size { F.block_len flash.new ≡ F.block_len flash.old }
        ensures cause { HasCause (F.faults flash.old) (F.faults flash.new) result }
    {
        match self.route.choice() {
            None => Ok(None),
            Some(choice) => {
                if is_on(self.route.carousel(), pid) {
                    gather(&mut self.stage, &mut self.bank, flash, choice, section)
                } else {
                    Ok(None)
                }
            }
        }
    }
}

/// Is this the PID of the carousel?
fn is_on(carousel: Option<Pid>, pid: Pid) -> bool
    ensures yes { IsTrue result → carousel ≡ Some pid }
    ensures no { IsFalse result → carousel ≢ Some pid }
{
    match carousel {
        None => false,
        Some(own) => own.get() == pid.get(),
    }
}
