//! The sections of one packet.

ghost use Rattle.std.specs.Prelude.{◌≡◌, List, IfNone, IfOk, OnOk, true};
ghost use Rattle.flash_bank.specs.Bank.{IsLent, geometry_of};
ghost use Rattle.flash_dev.specs.Moments.{LeavesOnly};
ghost use Rattle.flash_stage.specs.Keeping.{StagesNone};
ghost use Rattle.flash_stage.specs.Leaving.{SameBank};
ghost use Rattle.ssu_io.specs.Faults.{HasCause};
ghost use Rattle.ts_section.specs.Events.{Heard};
ghost use Rattle.route_tables.specs.Values.{Receiver};
ghost use Rattle.ssu_route.specs.Queries.{after_all};
ghost use Rattle.ssu_loader.specs.Collecting.{BeginsTooMany, Collects, IsUsable, StopsBefore};
ghost use Rattle.ssu_route.specs.Windows.{beginnings};
ghost use Rattle.ssu_loader.specs.Lasting.{KeepsMargin, Lasts};
ghost use Rattle.ssu_loader.specs.Leaving.{GoesOn, IfBadModule, IfUnsettled, SectionsLeave, UnlessInstalled};
ghost use Rattle.ssu_loader.specs.Life.{HoldsHeard};
ghost use Rattle.ssu_loader.specs.Starting.{KnowsKept};
ghost use Rattle.ssu_loader.specs.Storing.{HasNoPrev};
ghost use Rattle.ssu_loader.specs.Verdicts.{IsSeen};

use crate::collector::Collector;
use flash_bank::FlashFault;
use flash_dev::Flash;
use flash_stage::Stage;
use ssu_answer::Verdict;
use ts_packet::Pid;
use ts_section::SectionOut;

/// Hears the sections in their order, on this PID, up to a verdict.
pub(crate) fn hear_each<S: Stage, F: Flash>(
    collector: &mut Collector<S>,
    flash: &mut F,
    pid: Pid,
    each: &SectionOut,
) -> Result<Option<Verdict>, FlashFault>
    requires usable { IsUsable S.Stage F.Flash collector.old flash.old }
    ensures collects { (me : Receiver) (heard : List Heard) → Collects S.Stage F.Flash me heard collector.old flash.old
        → IfOk result (λ answer. IfNone answer (Collects S.Stage F.Flash me (after_all pid each.now heard) collector.new flash.new)) }
    ensures seen { (me : Receiver) (heard : List Heard) → Collects S.Stage F.Flash me heard collector.old flash.old
        → IfOk result (IsSeen (KnowsKept S.Stage F.Flash) me (after_all pid each.now heard)) }
    ensures goes_on { F.tells → (me : Receiver) (heard : List Heard) → Collects S.Stage F.Flash me heard collector.old flash.old
        → IfOk result (GoesOn me (after_all pid each.now heard) collector.old.bank (F.contents flash.old) (F.contents flash.new)) }
    ensures held { F.tells → (me : Receiver) (heard : List Heard) → Collects S.Stage F.Flash me heard collector.old flash.old
        → SectionsLeave me (after_all pid each.now heard) collector.old.bank (F.contents flash.old) (F.contents flash.new) }
    ensures left { F.tells → (me : Receiver) (heard : List Heard) → Collects S.Stage F.Flash me heard collector.old flash.old
        → LeavesOnly F.moment F.left_since flash.old flash.new
        (SectionsLeave me (after_all pid each.now heard) collector.old.bank (F.contents flash.old)) }
    ensures untouched { (me : Receiver) (heard : List Heard) → Collects S.Stage F.Flash me heard collector.old flash.old
        → beginnings me (after_all pid each.now heard) ≡ 0 → flash.new ≡ flash.old }
    // Where the first of them would begin a choice too many, the flash is not called.
    ensures alone { (me : Receiver) (heard : List Heard) → Collects S.Stage F.Flash me heard collector.old flash.old
        → BeginsTooMany me pid each.now heard → flash.new ≡ flash.old }
    ensures too_many { (me : Receiver) (heard : List Heard) → Collects S.Stage F.Flash me heard collector.old flash.old
        → IfOk result (λ answer. IfUnsettled answer (StopsBefore S.Stage F.Flash me (after_all pid each.now heard) flash.new)) }
    // Of places it holds no more than it held, but those that were heard.
    ensures holds { F.tells → (me : Receiver) (heard : List Heard) → Collects S.Stage F.Flash me heard collector.old flash.old
        → HoldsHeard (geometry_of collector.old.bank) me (after_all pid each.now heard) (F.contents flash.old) (F.contents flash.new) }
    ensures holds_left { F.tells → (me : Receiver) (heard : List Heard) → Collects S.Stage F.Flash me heard collector.old flash.old
        → LeavesOnly F.moment F.left_since flash.old flash.new
        (HoldsHeard (geometry_of collector.old.bank) me (after_all pid each.now heard) (F.contents flash.old)) }
    // What a stage that keeps its places had staged stays staged, up to the end that `Lasts` names. At Ok the margin has not fallen, and where the
    // power goes it falls by one at most.
    ensures lasts { S.KEEPS ≡ true → F.tells → (me : Receiver) (heard : List Heard) → Collects S.Stage F.Flash me heard collector.old flash.old
        → IfOk result (λ answer. Lasts 0 (geometry_of collector.old.bank) me (after_all pid each.now heard) heard
        (F.contents flash.old) (F.contents flash.new)) }
    ensures lasts_held { S.KEEPS ≡ true → F.tells → (me : Receiver) (heard : List Heard) → Collects S.Stage F.Flash me heard collector.old flash.old
        → Lasts 1 (geometry_of collector.old.bank) me (after_all pid each.now heard) heard (F.contents flash.old) (F.contents flash.new) }
    ensures lasts_left { S.KEEPS ≡ true → F.tells → (me : Receiver) (heard : List Heard) → Collects S.Stage F.Flash me heard collector.old flash.old
        → LeavesOnly F.moment F.left_since flash.old flash.new
        (Lasts 1 (geometry_of collector.old.bank) me (after_all pid each.now heard) heard (F.contents flash.old)) }
    // At Ok without a verdict the group that is staged was staged before, all of it stays, and the margin has not fallen; or it is whole.
    ensures margin { S.KEEPS ≡ true → F.tells → (me : Receiver) (heard : List Heard) → Collects S.Stage F.Flash me heard collector.old flash.old
        → IfOk result (λ answer. IfNone answer (KeepsMargin (geometry_of collector.old.bank) (F.contents flash.old) (F.contents flash.new))) }
    // Where a module is wrong a choice had begun, and nothing of the group stays staged.
    ensures no_prev { S.IN_BANK ≡ true → F.tells → IfOk result (λ answer. IfBadModule answer
        (HasNoPrev (geometry_of collector.old.bank) (F.contents flash.new))) }
    ensures forgotten { S.KEEPS ≡ true → F.tells → IfOk result (λ answer. IfBadModule answer
        (StagesNone (geometry_of collector.old.bank) (F.contents flash.new))) }
    ensures same_bank { UnlessInstalled result (SameBank collector.old.bank collector.new.bank) }
    ensures lent { OnOk result (IsLent F.tells F.contents F.block_count F.block_len collector.new.bank flash.new) }
    ensures geometry { geometry_of collector.new.bank ≡ geometry_of collector.old.bank }
    ensures blocks { F.block_count flash.new ≡ F.block_count flash.old }
    ensures block_size { F.block_len flash.new ≡ F.block_len flash.old }
    ensures cause { HasCause (F.faults flash.old) (F.faults flash.new) result }
{
    for k in 0..each.len() {
        match collector.hear(flash, pid, each.get(k))? {
            None => {}
            Some(verdict) => return Ok(Some(verdict)),
        }
    }
    Ok(None)
}
