//! The loader, packet by packet.

ghost use Rattle.std.specs.Prelude.{◌≡◌, ◌↔◌, ◌≤◌, ◌∷◌, [], ℕ, List, IfErr, IfNone, IfOk, IsErrOf, Ok, OnOk, Some, true};
ghost use Rattle.flash_dev.specs.Moments.{LeavesOnly};
ghost use Rattle.flash_bank.specs.Bank.{IsLent, geometry_of};
ghost use Rattle.flash_layout.specs.Layout.{IsInLimits, blocks_of};
ghost use Rattle.flash_bank.specs.Runs.{OnlyReads};
ghost use Rattle.flash_bank.specs.Sound.{IsSound, IsWorn};
ghost use Rattle.flash_stage.specs.Keeping.{StagesNone};
ghost use Rattle.flash_stage.specs.Leaving.{SameBank};
ghost use Rattle.ssu_io.specs.Faults.{HasCause, Rose};
ghost use Rattle.route_tables.specs.Values.{Receiver};
ghost use Rattle.ts_packet.specs.Packet.{pid_of as pid_in};
ghost use Rattle.ts_section.specs.Events.{Feed, heard as brought};
ghost use Rattle.ssu_route.specs.Queries.{followed, heard_by};
ghost use Rattle.ssu_answer.specs.declared.chosen.Chosen.{Chosen};
ghost use Rattle.ssu_loader.specs.Collecting.{BeginsTooMany, StopsBefore};
ghost use Rattle.ssu_loader.specs.Decisions.{Reaches, Whole};
ghost use Rattle.ssu_loader.specs.declared.fault.LoadFault.TheVariants as load_fault;
ghost use Rattle.ssu_answer.specs.declared.verdict.Verdict.TheVariants as verdict;
ghost use Rattle.ssu_loader.specs.Faults.{IsOfOpening, WhereInLimits, WhereNotWorn, WhereSound};
ghost use Rattle.ssu_loader.specs.Lasting.{KeepsMargin, Lasts};
ghost use Rattle.ssu_loader.specs.Leaving.{GoesOn, IfBadModule, IfUnsettled, SectionsLeave, UnlessInstalled};
ghost use Rattle.ssu_loader.specs.Remaining.{StagesStanding};
ghost use Rattle.ssu_loader.specs.Life.{HoldsHeard};
ghost use Rattle.ssu_loader.specs.Starting.{KnowsKept};
ghost use Rattle.ssu_loader.specs.Storing.{HasNoPrev, Stores};
ghost use Rattle.ssu_route.specs.Windows.{beginnings};
ghost use Rattle.ssu_loader.specs.Verdicts.{IsPartialVerdict, IsSeen, IsVerdict};

use crate::collector::Collector;
use crate::fault::LoadFault;
use crate::hearing::hear_each;
use box_file::BoxFile;
use flash_bank::{Bank, FlashFault};
use flash_dev::Flash;
use flash_stage::Stage;
use ssu_answer::Verdict;
use ssu_route::HeapRoute;
use std::alloc::Global;
use ts_packet::{Packet, pid_of};
use ts_section::{Hearer, SectionOut};

/// A set-top box that waits for an update. It keeps no packet and no section.
#[derive(Drop)]
pub struct Loader<S> {
    collector: Collector<S>,
    hearer: Hearer,
    each: SectionOut,
}

impl<S: Stage> Loader<S> {
    ghost use Rattle.ssu_loader.specs.Loading.{Follows, IsFresh, IsUsable, KnowsPackets, KnowsPacketsHeard, bank_of, receiver_in};

    /// The box of this file, before the first packet. All memory of a replay is taken here, and the flash is not changed.
    #[inline(never)]
    pub fn open<F: Flash>(
        alloc: Global,
        me: &BoxFile,
        flash: &mut F,
    ) -> Result<Loader<S>, LoadFault>
        ensures follows { IfOk result (λ loader. Follows S.Stage F.Flash (receiver_in S.KEEPS me.now loader (F.contents flash.old)) [] loader flash.new) }
        ensures geometry_is { IfOk result (λ loader. geometry_of (bank_of loader) ≡ blocks_of F.Flash flash.old) }

        // The number or the length of the blocks is out of the limits.
        ensures geometry { IsErrOf result LoadFault.Geometry ↔ (IsInLimits (blocks_of F.Flash flash.old) → ⊥) }
        ensures in_limits { WhereInLimits result (IsInLimits (blocks_of F.Flash flash.old)) }

        // The contents are not sound.
        ensures foreign { F.tells → IsErrOf result LoadFault.Foreign
            → IsSound (blocks_of F.Flash flash.old) (F.contents flash.old) → ⊥ }
        ensures sound { F.tells → WhereSound result (IsSound (blocks_of F.Flash flash.old) (F.contents flash.old)) }

        // The current record has the greatest number.
        ensures worn { F.tells → IsErrOf result LoadFault.Worn → IsWorn (blocks_of F.Flash flash.old) (F.contents flash.old) }
        ensures next_fits { F.tells → WhereNotWorn result (IsWorn (blocks_of F.Flash flash.old) (F.contents flash.old) → ⊥) }

        ensures fault { IsErrOf result LoadFault.FlashFault → Rose (F.faults flash.old) (F.faults flash.new) }
        ensures answer { IsOfOpening result }
        ensures reads { OnlyReads F.tells F.contents F.block_count F.block_len F.moment F.left_since flash.old flash.new }
        ensures faults { F.faults flash.old ≤ F.faults flash.new }
    {
        let bank = Bank::open(flash)?;
        Loader::with_bank(alloc, me, bank)
    }

    /// Takes the next packet. It answers a verdict where one is reached. After a verdict or a fault no call is allowed.
    pub fn packet<F: Flash>(
        &mut self,
        flash: &mut F,
        packet: &Packet,
    ) -> Result<Option<Verdict>, FlashFault>
        requires usable { IsUsable S.Stage F.Flash self.old flash.old }
        // No verdict is reached in the packets so far.
        ensures follows { (me : Receiver) (ps : List (List ℕ)) → Follows S.Stage F.Flash me ps self.old flash.old
            → IfOk result (λ answer. IfNone answer (Follows S.Stage F.Flash me (packet.now ∷ ps) self.new flash.new)) }
        // Or one is reached. Where it is known what the flash kept, it is known which places were kept or filled, whether or not the flash tells
        // its contents.
        ensures seen { (me : Receiver) (ps : List (List ℕ)) → Follows S.Stage F.Flash me ps self.old flash.old
            → IfOk result (IsSeen (KnowsKept S.Stage F.Flash) me (heard_by me (packet.now ∷ ps))) }
        // The verdict that is reached in them, and what the flash holds then.
        ensures goes_on { F.tells → (me : Receiver) (ps : List (List ℕ)) → Follows S.Stage F.Flash me ps self.old flash.old
            → IfOk result (GoesOn me (heard_by me (packet.now ∷ ps)) (bank_of self.old) (F.contents flash.old) (F.contents flash.new)) }
        // If the packets carry a group whole, and that is what is decided first, it is installed, unless a call fails.
        ensures carried { F.tells → (me : Receiver) (ps : List (List ℕ)) (chosen : Chosen) (image : List ℕ)
            → Follows S.Stage F.Flash me ps self.old flash.old → Reaches me (heard_by me (packet.now ∷ ps)) (Whole chosen image)
            → (Rose (F.faults flash.old) (F.faults flash.new) → ⊥) → result ≡ Ok (Some (verdict.Installed chosen)) }
        // What it may hold at any moment, also after a fault.
        ensures held { F.tells → (me : Receiver) (ps : List (List ℕ)) → Follows S.Stage F.Flash me ps self.old flash.old
            → SectionsLeave me (heard_by me (packet.now ∷ ps)) (bank_of self.old) (F.contents flash.old) (F.contents flash.new) }
        ensures left { F.tells → (me : Receiver) (ps : List (List ℕ)) → Follows S.Stage F.Flash me ps self.old flash.old
            → LeavesOnly F.moment F.left_since flash.old flash.new
            (SectionsLeave me (heard_by me (packet.now ∷ ps)) (bank_of self.old) (F.contents flash.old)) }
        // Before any choice began, the flash is not called.
        ensures untouched { (me : Receiver) (ps : List (List ℕ)) → Follows S.Stage F.Flash me ps self.old flash.old
            → beginnings me (heard_by me (packet.now ∷ ps)) ≡ 0 → flash.new ≡ flash.old }
        // At a section that would begin a choice too many it is not called. Where that is the first that the packet brings, it is as
        // before; else it is as it was when the section before was heard.
        ensures alone { (me : Receiver) (ps : List (List ℕ)) → Follows S.Stage F.Flash me ps self.old flash.old
            → BeginsTooMany me (pid_in packet.now) (brought (Feed packet.now ∷ followed me ps)) (heard_by me ps) → flash.new ≡ flash.old }
        ensures too_many { (me : Receiver) (ps : List (List ℕ)) → Follows S.Stage F.Flash me ps self.old flash.old
            → IfOk result (λ answer. IfUnsettled answer (StopsBefore S.Stage F.Flash me (heard_by me (packet.now ∷ ps)) flash.new)) }
        // While no verdict is reached, a stage in the bank has the places of the choice that stands there, if its group is not one that is kept,
        // and once a choice began, what boot took before the current image is gone.
        ensures stored { S.IN_BANK ≡ true → F.tells → (me : Receiver) (ps : List (List ℕ)) → Follows S.Stage F.Flash me ps self.old flash.old
            → IfOk result (λ answer. IfNone answer (Stores (blocks_of F.Flash flash.new) (F.contents flash.new) me (heard_by me (packet.now ∷ ps)))) }
        // And of a stage that keeps its places, those of the choice that stands are staged, and no other.
        ensures staged { S.KEEPS ≡ true → F.tells → (me : Receiver) (ps : List (List ℕ)) → Follows S.Stage F.Flash me ps self.old flash.old
            → IfOk result (λ answer. IfNone answer
            (StagesStanding (blocks_of F.Flash flash.new) (F.contents flash.new) me (heard_by me (packet.now ∷ ps)))) }
        // Of places it holds no more than it held, but those that were heard, at any moment and also after a fault.
        ensures holds { F.tells → (me : Receiver) (ps : List (List ℕ)) → Follows S.Stage F.Flash me ps self.old flash.old
            → HoldsHeard (geometry_of (bank_of self.old)) me (heard_by me (packet.now ∷ ps)) (F.contents flash.old) (F.contents flash.new) }
        ensures holds_left { F.tells → (me : Receiver) (ps : List (List ℕ)) → Follows S.Stage F.Flash me ps self.old flash.old
            → LeavesOnly F.moment F.left_since flash.old flash.new
            (HoldsHeard (geometry_of (bank_of self.old)) me (heard_by me (packet.now ∷ ps)) (F.contents flash.old)) }
        // What a stage that keeps its places had staged stays staged, up to the end that `Lasts` names. At Ok the margin has not fallen, and where the
        // power goes it falls by one at most.
        ensures lasts { S.KEEPS ≡ true → F.tells → (me : Receiver) (ps : List (List ℕ)) → Follows S.Stage F.Flash me ps self.old flash.old
            → IfOk result (λ answer. Lasts 0 (geometry_of (bank_of self.old)) me (heard_by me (packet.now ∷ ps)) (heard_by me ps)
            (F.contents flash.old) (F.contents flash.new)) }
        ensures lasts_held { S.KEEPS ≡ true → F.tells → (me : Receiver) (ps : List (List ℕ)) → Follows S.Stage F.Flash me ps self.old flash.old
            → Lasts 1 (geometry_of (bank_of self.old)) me (heard_by me (packet.now ∷ ps)) (heard_by me ps) (F.contents flash.old) (F.contents flash.new) }
        ensures lasts_left { S.KEEPS ≡ true → F.tells → (me : Receiver) (ps : List (List ℕ)) → Follows S.Stage F.Flash me ps self.old flash.old
            → LeavesOnly F.moment F.left_since flash.old flash.new
            (Lasts 1 (geometry_of (bank_of self.old)) me (heard_by me (packet.now ∷ ps)) (heard_by me ps) (F.contents flash.old)) }
        // At Ok without a verdict the group that is staged was staged before, all of it stays, and the margin has not fallen; or it is whole.
        ensures margin { S.KEEPS ≡ true → F.tells → (me : Receiver) (ps : List (List ℕ)) → Follows S.Stage F.Flash me ps self.old flash.old
            → IfOk result (λ answer. IfNone answer (KeepsMargin (geometry_of (bank_of self.old)) (F.contents flash.old) (F.contents flash.new))) }
        // Where a module is wrong a choice had begun, and nothing of the group stays staged.
        ensures no_prev { S.IN_BANK ≡ true → F.tells → IfOk result (λ answer. IfBadModule answer
            (HasNoPrev (geometry_of (bank_of self.old)) (F.contents flash.new))) }
        ensures forgotten { S.KEEPS ≡ true → F.tells → IfOk result (λ answer. IfBadModule answer
            (StagesNone (geometry_of (bank_of self.old)) (F.contents flash.new))) }
        // The current record stays, unless a group was installed.
        ensures same_bank { UnlessInstalled result (SameBank (bank_of self.old) (bank_of self.new)) }
        ensures lent { OnOk result (IsLent F.tells F.contents F.block_count F.block_len (bank_of self.new) flash.new) }
        ensures geometry { geometry_of (bank_of self.new) ≡ geometry_of (bank_of self.old) }
        ensures blocks { F.block_count flash.new ≡ F.block_count flash.old }
        ensures block_size { F.block_len flash.new ≡ F.block_len flash.old }
        ensures cause { HasCause (F.faults flash.old) (F.faults flash.new) result }
    {
        self.hearer.feed(packet, &mut self.each);
        let answer = hear_each(&mut self.collector, flash, pid_of(packet), &self.each)?;
        let pids = self.collector.route.listens();
        self.hearer.listen(&pids);
        Ok(answer)
    }

    /// What comes of the packets if no more come.
    pub fn end(&self) -> Verdict
        ensures verdict { (me : Receiver) (ps : List (List ℕ)) → KnowsPackets S.Stage me ps self.now
            → IsVerdict me (heard_by me ps) result }
        // Whatever was kept, so much comes of what was heard.
        ensures partial { (me : Receiver) (ps : List (List ℕ)) → KnowsPacketsHeard S.Stage me ps self.now
            → IsPartialVerdict me (heard_by me ps) result }
    {
        self.collector.end()
    }

    /// The loader over an open bank, before the first packet.
    fn with_bank(alloc: Global, me: &BoxFile, bank: Bank) -> Result<Loader<S>, LoadFault>
        ensures bank { IfOk result (λ loader. bank_of loader ≡ bank) }
        ensures fresh { (contents : List ℕ) → IfOk result (λ loader. IsFresh S.Stage (receiver_in S.KEEPS me.now loader contents) loader) }
        ensures memory { IfErr result (λ fault. fault ≡ load_fault.Memory) }
    {
        let stage = S::make(alloc, &bank)?;
        let mut hearer = Hearer::new(alloc)?;
        let each = SectionOut::new(alloc)?;
        let route = HeapRoute::new(alloc, me, bank.bank_len())?;
        let pids = route.listens();
        hearer.listen(&pids);
        Ok(Loader {
            collector: Collector {
                bank,
                stage,
                route,
                choices: 0,
            },
            hearer,
            each,
        })
    }
}
