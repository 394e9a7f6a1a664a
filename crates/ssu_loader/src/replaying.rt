//! A whole replay.

ghost use Rattle.std.specs.Prelude.{◌≡◌, ◌⊎◌, ◌≤◌, ◌++◌, [], ℕ, List, Some, IfErr, IfOk, IsErrOf, true};
ghost use Rattle.flash_dev.specs.Moments.{LeavesOnly};
ghost use Rattle.flash_bank.specs.Bank.{geometry_of};
ghost use Rattle.flash_bank.specs.Leaving.{KeepsBoot};
ghost use Rattle.flash_bank.specs.Seen.{flash_seen};
ghost use Rattle.ssu_io.specs.Faults.{Rose};
ghost use Rattle.ssu_io.specs.Seen.{source_seen};
ghost use Rattle.route_tables.specs.Values.{Receiver};
ghost use Rattle.ts_input.specs.Packets.{IsOneMore, IsWithin};
ghost use Rattle.ssu_loader.specs.Faults.{IsOfTaking};
ghost use Rattle.ssu_loader.specs.Lasting.{BreaksLasting, IsNoDecision, KeepsMargin, TakesLasting};
ghost use Rattle.ssu_loader.specs.Loading.{Follows, IsUsable, bank_of};
ghost use Rattle.ssu_loader.specs.Remaining.{StagesLast};
ghost use Rattle.ssu_loader.specs.Replaying.{ReplaysBox};
ghost use Rattle.flash_bank.specs.Sound.{Boot, BootOf, IsSound};
ghost use Rattle.flash_layout.specs.Layout.{blocks_of};
ghost use Rattle.ssu_loader.specs.Life.{LeavesStep};
ghost use Rattle.ssu_loader.specs.Starting.{KnowsKept};
ghost use Rattle.ssu_loader.specs.Stepping.{TakesStep};
ghost use Rattle.ssu_loader.specs.Replays.{BeginsNone, BreaksAtPacket, ComesSeen, EndsWith, HearsIn, ReachesNone, ReplayLeaves};

use crate::fault::LoadFault;
use crate::loader::Loader;
use box_file::BoxFile;
use flash_dev::Flash;
use flash_stage::Stage;
use ssu_answer::Verdict;
use ssu_io::Source;
use std::alloc::Global;
use ts_input::{Ended, PacketInput};

/// Replays the packets of the source to a box, up to a verdict or to the end. A rest of fewer than 188 bytes is no packet.
///
/// Whenever the power goes, boot takes what it took before or, as a whole, a group that the packets carry whole, and that
/// alone once the answer is `Installed`. No memory is taken after the first packet.
pub fn replay<A: Source, F: Flash, S: Stage>(
    alloc: Global,
    me: &BoxFile,
    air: &mut A,
    flash: &mut F,
) -> Result<Verdict, LoadFault>
    ensures replays { ReplaysBox S.IN_BANK S.KEEPS me.now result (source_seen A.Source air.old air.new) (flash_seen F.Flash flash.old flash.new) }
    // Of sound contents each that is left, at any moment, is a step of a life.
    ensures steps { F.tells → IsSound (blocks_of F.Flash flash.old) (F.contents flash.old) → (former : Boot)
        → BootOf (blocks_of F.Flash flash.old) (F.contents flash.old) former
        → LeavesStep me.now S.KEEPS (A.left air.old) (A.left air.new) (blocks_of F.Flash flash.old) former (F.contents flash.old) (F.contents flash.new) }
    ensures steps_left { F.tells → IsSound (blocks_of F.Flash flash.old) (F.contents flash.old) → (former : Boot)
        → BootOf (blocks_of F.Flash flash.old) (F.contents flash.old) former
        → LeavesOnly F.moment F.left_since flash.old flash.new
        (LeavesStep me.now S.KEEPS (A.left air.old) (A.left air.new) (blocks_of F.Flash flash.old) former (F.contents flash.old)) }
{
    let mut loader = Loader::<S>::open(alloc, me, flash)?;
    take_packets(&mut loader, air, flash)
}

/// Takes the packets of the source, up to a verdict or to the end.
#[inline(never)]
fn take_packets<A: Source, F: Flash, S: Stage>(
    loader: &mut Loader<S>,
    air: &mut A,
    flash: &mut F,
) -> Result<Verdict, LoadFault>
    requires usable { IsUsable S.Stage F.Flash loader.old flash.old }
    ensures ends { F.tells → (me : Receiver) → Follows S.Stage F.Flash me [] loader.old flash.old
        → IfOk result (EndsWith S.IN_BANK S.KEEPS me (A.left air.old) (A.left air.new) (geometry_of (bank_of loader.old))
        (F.contents flash.old) (F.contents flash.new)) }
    ensures held { F.tells → (me : Receiver) → Follows S.Stage F.Flash me [] loader.old flash.old
        → ReplayLeaves me (A.left air.old) (A.left air.new) (geometry_of (bank_of loader.old)) (F.contents flash.old) (F.contents flash.new) }
    ensures left { F.tells → (me : Receiver) → Follows S.Stage F.Flash me [] loader.old flash.old
        → LeavesOnly F.moment F.left_since flash.old flash.new
        (ReplayLeaves me (A.left air.old) (A.left air.new) (geometry_of (bank_of loader.old)) (F.contents flash.old)) }
    ensures steps { F.tells → (me : Receiver) → Follows S.Stage F.Flash me [] loader.old flash.old
        → TakesStep me (A.left air.old) (A.left air.new) (geometry_of (bank_of loader.old)) (F.contents flash.old) (F.contents flash.new) }
    ensures steps_left { F.tells → (me : Receiver) → Follows S.Stage F.Flash me [] loader.old flash.old
        → LeavesOnly F.moment F.left_since flash.old flash.new
        (TakesStep me (A.left air.old) (A.left air.new) (geometry_of (bank_of loader.old)) (F.contents flash.old)) }
    ensures lasts { S.KEEPS ≡ true → F.tells → (me : Receiver) → Follows S.Stage F.Flash me [] loader.old flash.old
        → TakesLasting 1 me (A.left air.old) (A.left air.new) (geometry_of (bank_of loader.old)) (F.contents flash.old) (F.contents flash.new) }
    ensures lasts_left { S.KEEPS ≡ true → F.tells → (me : Receiver) → Follows S.Stage F.Flash me [] loader.old flash.old
        → LeavesOnly F.moment F.left_since flash.old flash.new
        (TakesLasting 1 me (A.left air.old) (A.left air.new) (geometry_of (bank_of loader.old)) (F.contents flash.old)) }
    ensures lasts_unfailed { S.KEEPS ≡ true → F.tells → (me : Receiver) → Follows S.Stage F.Flash me [] loader.old flash.old
        → (IsErrOf result LoadFault.FlashFault → ⊥)
        → TakesLasting 0 me (A.left air.old) (A.left air.new) (geometry_of (bank_of loader.old)) (F.contents flash.old) (F.contents flash.new) }
    ensures margin { S.KEEPS ≡ true → F.tells → (me : Receiver) → Follows S.Stage F.Flash me [] loader.old flash.old → IsNoDecision result
        → KeepsMargin (geometry_of (bank_of loader.old)) (F.contents flash.old) (F.contents flash.new) }
    ensures fault_lasts { S.KEEPS ≡ true → F.tells → (me : Receiver) → Follows S.Stage F.Flash me [] loader.old flash.old
        → IsErrOf result LoadFault.FlashFault
        → BreaksLasting me (A.left air.old) (A.left air.new) (geometry_of (bank_of loader.old)) (F.contents flash.old) (F.contents flash.new) }
    ensures read_fault { (me : Receiver) → Follows S.Stage F.Flash me [] loader.old flash.old
        → IsErrOf result LoadFault.ReadFault → ReachesNone (KnowsKept S.Stage F.Flash) me (A.left air.old) (A.left air.new) IsWithin }
    ensures too_long { (me : Receiver) → Follows S.Stage F.Flash me [] loader.old flash.old
        → IsErrOf result LoadFault.TooLong → ReachesNone (KnowsKept S.Stage F.Flash) me (A.left air.old) (A.left air.new) IsOneMore }
    ensures read_staged { S.KEEPS ≡ true → F.tells → (me : Receiver) → Follows S.Stage F.Flash me [] loader.old flash.old
        → IsErrOf result LoadFault.ReadFault → HearsIn me (A.left air.old) (A.left air.new) IsWithin
        (λ heard. StagesLast me heard (geometry_of (bank_of loader.old)) (F.contents flash.new)) }
    ensures long_staged { S.KEEPS ≡ true → F.tells → (me : Receiver) → Follows S.Stage F.Flash me [] loader.old flash.old
        → IsErrOf result LoadFault.TooLong → HearsIn me (A.left air.old) (A.left air.new) IsOneMore
        (λ heard. StagesLast me heard (geometry_of (bank_of loader.old)) (F.contents flash.new)) }
    ensures kept { F.tells → IsErrOf result LoadFault.ReadFault ⊎ IsErrOf result LoadFault.TooLong
        → KeepsBoot (geometry_of (bank_of loader.old)) (F.contents flash.old) (F.contents flash.new) }
    ensures flash_fault { (me : Receiver) → Follows S.Stage F.Flash me [] loader.old flash.old
        → IsErrOf result LoadFault.FlashFault → BreaksAtPacket (KnowsKept S.Stage F.Flash) me (A.left air.old) (A.left air.new) }
    ensures seen { (me : Receiver) → Follows S.Stage F.Flash me [] loader.old flash.old
        → IfOk result (ComesSeen (KnowsKept S.Stage F.Flash) me (A.left air.old) (A.left air.new)) }
    ensures untouched { (me : Receiver) → Follows S.Stage F.Flash me [] loader.old flash.old
        → (taken rest : List ℕ) → (A.left air.old ≡ Some (taken ++ rest)) → (A.left air.new ≡ Some rest)
        → BeginsNone me taken → flash.new ≡ flash.old }
    ensures answer { IfErr result IsOfTaking }
    ensures read_cause { IsErrOf result LoadFault.ReadFault → Rose (A.faults air.old) (A.faults air.new) }
    ensures flash_cause { IsErrOf result LoadFault.FlashFault → Rose (F.faults flash.old) (F.faults flash.new) }
    ensures air_later { A.faults air.old ≤ A.faults air.new }
    ensures flash_later { F.faults flash.old ≤ F.faults flash.new }
    ensures blocks { F.block_count flash.new ≡ F.block_count flash.old }
    ensures block_size { F.block_len flash.new ≡ F.block_len flash.old }
{
    let mut input = PacketInput::new();
    while input.next(air) {
        match loader.packet(flash, input.packet()) {
            Ok(None) => {}
            Ok(Some(verdict)) => return Ok(verdict),
            Err(_) => return Err(LoadFault::FlashFault),
        }
    }
    match input.ended(air) {
        Ended::End => Ok(loader.end()),
        Ended::Failed => Err(LoadFault::ReadFault),
        Ended::TooLong => Err(LoadFault::TooLong),
    }
}
