//! The command: from `plan.toml` and its files to packets.
ghost use Rattle.std.specs.Prelude.{◌≡◌, ◌≤◌, ◌⊎◌, ℕ, List, Option, IfErr, IfOk, IsSome, OnOk, length, map};
ghost use Rattle.std.specs.List.{All, concat};
ghost use Rattle.head_carousel.specs.Refusal.{IsBuildable, IsCause};
ghost use Rattle.head_carousel.specs.Sections.{sections_of};
ghost use Rattle.head_mux.specs.Sent.{IsSendable, sent};
ghost use Rattle.head_plan.specs.Plans.{mentions};
ghost use Rattle.ssu_answer.specs.declared.build_fault.BuildFault.{BuildFault};
ghost use Rattle.ssu_io.specs.Bytes.{Gains};
ghost use Rattle.ssu_io.specs.Faults.{Rose};
ghost use Rattle.ssu_io.specs.Files.{File};
ghost use Rattle.ssu_io.specs.Seen.{StopsWriting, shelf_seen, sink_seen};
ghost use Rattle.ssu_line.specs.Lines.{built_line};
ghost use Rattle.ssu_status.specs.Status.{OnAbsent, OnBuildRefused, OnDone, OnNoMemory, OnPlanRefused, OnShelfFault};
ghost use Rattle.ssu_status.specs.Status.{OnWriteFault};
ghost use Rattle.tool_box.specs.Fetching.{HasNone, IsErrWith, Lacks, SaysAbsent, SaysAbsentOrFails};
ghost use Rattle.tool_build.specs.Building.{ForBroadcast, IsEarly, IsPutAnswer, IsUnrefused, PutsAll, PutsPart};
ghost use Rattle.tool_build.specs.Building.{IsMakingRefusal, IsPlanRefusal, IsSendingRefusal, making_refusal};
ghost use Rattle.tool_build.specs.Does.{BuildDoes};
ghost use Rattle.tool_build.specs.Held.{IsLimit, LacksMention, RefusesBuild, RefusesPlan, TellsBroadcast, plan_name};

use crate::images::read_images;
use crate::plan_text::read_plan;
use head_carousel::sections;
use head_mux::{MuxFault, mux};
use head_plan::Plan;
use ssu_answer::BuildFault;
use ssu_io::{Failed, Shelf, Sink};
use ssu_line::built;
use ssu_status::Status;
use std::alloc::Global;
use ts_section::Timed;

/// Reads `plan.toml` and the files that it mentions, puts the packets of the plan's turns into `made`, and prints
/// `sections N packets P` into `out`.
///
/// `Done`; in this order `Absent`, `ShelfFault` and `PlanRefused` with the first bad field for `plan.toml`, `Absent` and
/// `ShelfFault` file by file, and `BuildRefused` where a file needs more than 65,536 blocks or the sections are more than
/// 65,536, with `NoMemory` among them, all before the first packet; `WriteFault` where `made` or `out` failed.
pub fn build<H: Shelf, W: Sink, T: Sink>(
    alloc: Global,
    shelf: &mut H,
    made: &mut W,
    out: &mut T,
) -> Status
    ensures does { BuildDoes result (shelf_seen H.Shelf shelf.old shelf.new) (sink_seen W.Sink made.old made.new)
        (sink_seen T.Sink out.old out.new) }
{
    match read_broadcast(alloc, shelf) {
        Ok(broadcast) => put_broadcast(alloc, &broadcast, made, out),
        Err(status) => status,
    }
}

/// A plan, and the files that it mentions.
#[derive(Drop)]
struct Broadcast {
    plan: Plan,
    images: Vec<Vec<u8>>,
}

/// Reads `plan.toml`, and then the files that it mentions, in order.
fn read_broadcast<H: Shelf>(alloc: Global, shelf: &mut H) -> Result<Broadcast, Status>
    ensures found { IfOk result (λ b. TellsBroadcast (H.held shelf.old) b.plan (map (λ i. i.items) b.images.items)) }
    ensures count { IfOk result (λ b. length b.images.items ≡ length (mentions b.plan.group)) }
    ensures absent { IfErr result (λ status. OnAbsent status (λ name. ((name ≡ plan_name) × Lacks (H.held shelf.old) name)
        ⊎ LacksMention (H.held shelf.old) name)) }
    ensures no_plan { HasNone (H.held shelf.old) plan_name → IsErrWith (SaysAbsent plan_name) result }
    ensures no_file { (name : List ℕ) → IsSome (H.held shelf.old) → LacksMention (H.held shelf.old) name
        → IsErrWith (SaysAbsentOrFails name) result }
    ensures plan_refused { IfErr result (λ status. OnPlanRefused status (λ field. RefusesPlan (H.held shelf.old) field)) }
    ensures absent_cause { IfErr result (λ status. OnAbsent status (λ _. Rose (H.absences shelf.old) (H.absences shelf.new))) }
    ensures fault_cause { IfErr result (λ status. OnShelfFault status (Rose (H.faults shelf.old) (H.faults shelf.new))) }
    ensures refusals { IfErr result IsPlanRefusal }
    ensures unchanged { H.held shelf.new ≡ H.held shelf.old }
    ensures faults { H.faults shelf.old ≤ H.faults shelf.new }
    ensures absences { H.absences shelf.old ≤ H.absences shelf.new }
{
    let plan = read_plan(alloc, shelf)?;
    let images = read_images(alloc, shelf, &plan)?;
    Ok(Broadcast { plan, images })
}

/// Puts the packets of the plan's turns, and the line that counts them.
fn put_broadcast<W: Sink, T: Sink>(
    alloc: Global,
    broadcast: &Broadcast,
    made: &mut W,
    out: &mut T,
) -> Status
    requires images { length broadcast.now.images.items ≡ length (mentions broadcast.now.plan.group) }
    ensures done { (held : Option (List File))
        → TellsBroadcast held broadcast.now.plan (map (λ i. i.items) broadcast.now.images.items)
        → OnDone result (ForBroadcast held (PutsAll (sink_seen W.Sink made.old made.new) (sink_seen T.Sink out.old out.new))) }
    ensures write_fault { (held : Option (List File))
        → TellsBroadcast held broadcast.now.plan (map (λ i. i.items) broadcast.now.images.items)
        → OnWriteFault result
        (ForBroadcast held (PutsPart (sink_seen W.Sink made.old made.new) (sink_seen T.Sink out.old out.new))) }
    ensures build_refused { (held : Option (List File))
        → TellsBroadcast held broadcast.now.plan (map (λ i. i.items) broadcast.now.images.items)
        → OnBuildRefused result (λ fault. RefusesBuild held fault) }
    ensures complete { (held : Option (List File))
        → TellsBroadcast held broadcast.now.plan (map (λ i. i.items) broadcast.now.images.items)
        → ¬ Rose (W.faults made.old) (W.faults made.new) → ¬ Rose (T.faults out.old) (T.faults out.new)
        → ((fault : BuildFault) → ¬ RefusesBuild held fault) → IsUnrefused result }
    ensures early { IsEarly result → made.new ≡ made.old × (out.new ≡ out.old) }
    ensures answers { IsPutAnswer result }
    ensures made_later { W.faults made.old ≤ W.faults made.new }
    ensures out_later { T.faults out.old ≤ T.faults out.new }
{
    let list = match make(alloc, &broadcast.plan, &broadcast.images) {
        Ok(list) => list,
        Err(status) => return status,
    };
    match send(alloc, &list, broadcast.plan.turns, made, out) {
        Ok(()) => Status::Done,
        Err(status) => status,
    }
}

/// The sections of the plan.
fn make(alloc: Global, plan: &Plan, images: &[Vec<u8>]) -> Result<Vec<Timed>, Status>
    requires images { length images.now ≡ length (mentions plan.now.group) }
    ensures made { IfOk result (λ list. list.items ≡ sections_of plan.now (map (λ i. i.items) images.now)) }
    ensures buildable { OnOk result (IsBuildable plan.now (map (λ i. i.items) images.now)) }
    ensures some { IfOk result (λ list. 1 ≤ length list.items) }
    ensures few { IfOk result (λ list. length list.items ≤ 65536) }
    ensures sendable { IfOk result (λ list. All IsSendable list.items) }
    ensures cause { IfErr result (λ status. OnBuildRefused status
        (λ fault. IsCause plan.now (map (λ i. i.items) images.now) fault × IsLimit fault)) }
    ensures refusals { IfErr result IsMakingRefusal }
{
    match sections(alloc, plan, images) {
        Ok(list) => Ok(list),
        Err(fault) => Err(refusal(fault)),
    }
}

/// The status for why the sections are not made.
fn refusal(fault: BuildFault) -> Status
    ensures { result ≡ making_refusal fault }
{
    match fault {
        BuildFault::Memory => Status::NoMemory,
        BuildFault::ImageTooLong(_) | BuildFault::TooManySections(_) => Status::BuildRefused(fault),
    }
}

/// Puts the packets of so many turns, and the line that counts them.
fn send<W: Sink, T: Sink>(
    alloc: Global,
    list: &[Timed],
    turns: u32,
    made: &mut W,
    out: &mut T,
) -> Result<(), Status>
    requires some { 1 ≤ length list.now }
    requires few { length list.now ≤ 65536 }
    requires sendable { All IsSendable list.now }
    ensures made { OnOk result (Gains (W.contents made.old) (W.contents made.new) (concat (sent list.now turns))) }
    ensures line { OnOk result (Gains (T.contents out.old) (T.contents out.new) (built_line (length list.now) (length (sent list.now turns)))) }
    ensures part { IfErr result (λ status. OnWriteFault status
        (StopsWriting (sink_seen W.Sink made.old made.new) (sink_seen T.Sink out.old out.new) (concat (sent list.now turns))
        (built_line (length list.now) (length (sent list.now turns))))) }
    ensures memory_made { IfErr result (λ status. OnNoMemory status (made.new ≡ made.old)) }
    ensures memory_out { IfErr result (λ status. OnNoMemory status (out.new ≡ out.old)) }
    ensures refusals { IfErr result IsSendingRefusal }
    ensures made_later { W.faults made.old ≤ W.faults made.new }
    ensures out_later { T.faults out.old ≤ T.faults out.new }
{
    let packets = match mux(alloc, list, turns, made) {
        Ok(packets) => packets,
        Err(MuxFault::WriteFault) => return Err(Status::WriteFault),
        Err(MuxFault::Memory) => return Err(Status::NoMemory),
    };
    match out.put(built(list.len() as u64, packets).as_bytes()) {
        Ok(()) => Ok(()),
        Err(Failed) => Err(Status::WriteFault),
    }
}
