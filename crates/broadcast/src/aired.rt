//! The packets that a box is given.
ghost use Rattle.std.specs.Prelude.{◌≡◌, ◌≤◌, IfErr, IfOk, OnOk, length, map};
ghost use Rattle.std.specs.List.{All, concat};
ghost use Rattle.broadcast.specs.Broadcasts.{AreFewSent};
ghost use Rattle.broadcast.specs.Making.{IsListingFault, IsMakingFault};
ghost use Rattle.broadcast.specs.Packets.{aired_packets};
ghost use Rattle.broadcast.specs.declared.fault.ChainFault.TheVariants.{Memory};
ghost use Rattle.head_carousel.specs.Refusal.{IsBuildable};
ghost use Rattle.head_carousel.specs.Sections.{sections_of};
ghost use Rattle.head_mux.specs.Sent.{IsSendable, sent};
ghost use Rattle.head_plan.specs.Plans.{mentions};

use crate::fault::ChainFault;
use crate::held::Held;
use air_channel::{AirFault, Script, air};
use head_carousel::sections;
use head_mux::mux;
use head_plan::Plan;
use ssu_answer::BuildFault;
use ssu_io::MemSink;
use ssu_loader::LoadFault;
use std::alloc::Global;
use ts_section::Timed;

/// The bytes of the packets of a plan, as a script changes them. A piece that memory has no room for is want of memory.
// The packets that wait for the sink lie on the stack, 64 KiB: in a frame of its own, which is gone before the box takes them.
#[inline(never)]
pub(crate) fn aired_bytes(
    alloc: Global,
    plan: &Plan,
    images: &[Vec<u8>],
    script: &Script,
) -> Result<Vec<u8>, ChainFault>
    requires images { length images.now ≡ length (mentions plan.now.group) }
    ensures ok { IfOk result (λ v. v.items
        ≡ concat (aired_packets (record { plan = plan.now; images = map (λ i. i.items) images.now; script = script.now }))) }
    ensures few { OnOk result (AreFewSent (record { plan = plan.now; images = map (λ i. i.items) images.now; script = script.now })) }
    ensures buildable { OnOk result (IsBuildable plan.now (map (λ i. i.items) images.now)) }
    ensures long { OnOk result (All (λ packet. length packet ≡ 188) (sent (sections_of plan.now (map (λ i. i.items) images.now)) plan.now.turns)) }
    ensures err { IfErr result (IsMakingFault (record { plan = plan.now; images = map (λ i. i.items) images.now; script = script.now })) }
{
    let list = listed(alloc, plan, images)?;
    let sent = sent_bytes(alloc, &list, plan.turns)?;
    let mut source = Held::new(alloc, sent);
    let mut sink = MemSink::new(alloc, Vec::new(alloc));
    match air(script, &mut source, &mut sink) {
        Ok(_) => Ok(sink.into_bytes()),
        Err(AirFault::TooLong) => Err(ChainFault::Load(LoadFault::TooLong)),
        Err(AirFault::ReadFault | AirFault::WriteFault) => Err(ChainFault::Memory),
    }
}

/// The sections of a plan.
fn listed(alloc: Global, plan: &Plan, images: &[Vec<u8>]) -> Result<Vec<Timed>, ChainFault>
    requires images { length images.now ≡ length (mentions plan.now.group) }
    ensures list { IfOk result (λ list. list.items ≡ sections_of plan.now (map (λ i. i.items) images.now)) }
    ensures buildable { OnOk result (IsBuildable plan.now (map (λ i. i.items) images.now)) }
    ensures some { IfOk result (λ list. 1 ≤ length list.items) }
    ensures few { IfOk result (λ list. length list.items ≤ 65536) }
    ensures sendable { IfOk result (λ list. All IsSendable list.items) }
    ensures err { IfErr result (IsListingFault plan.now (map (λ i. i.items) images.now)) }
{
    match sections(alloc, plan, images) {
        Ok(list) => Ok(list),
        Err(BuildFault::Memory) => Err(ChainFault::Memory),
        Err(fault) => Err(ChainFault::Build(fault)),
    }
}

/// The bytes of the packets of so many turns.
fn sent_bytes(alloc: Global, list: &[Timed], turns: u32) -> Result<Vec<u8>, ChainFault>
    requires some { 1 ≤ length list.now }
    requires few { length list.now ≤ 65536 }
    requires sendable { All IsSendable list.now }
    ensures bytes { IfOk result (λ v. v.items ≡ concat (sent list.now turns)) }
    ensures long { OnOk result (All (λ packet. length packet ≡ 188) (sent list.now turns)) }
    ensures memory { IfErr result (λ fault. fault ≡ Memory) }
{
    let mut sink = MemSink::new(alloc, Vec::new(alloc));
    match mux(alloc, list, turns, &mut sink) {
        Ok(_) => Ok(sink.into_bytes()),
        Err(_) => Err(ChainFault::Memory),
    }
}
