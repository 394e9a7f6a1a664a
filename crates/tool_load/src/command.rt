//! `load PID`: the first group of the carousel on a PID.

ghost use Rattle.std.specs.Prelude.{◌≡◌, ◌≤◌, ◌⊎◌, ℕ, List, [], IfOk};
ghost use Rattle.ssu_answer.specs.declared.verdict.Verdict.{Verdict};
ghost use Rattle.ssu_io.specs.Faults.{Rose};
ghost use Rattle.ssu_io.specs.Seen.{sink_seen, source_seen};
ghost use Rattle.ssu_status.specs.Status.{OnWriteFault};
ghost use Rattle.ts_section.specs.Hearing.{Hears};
ghost use Rattle.tool_load.specs.Does.{LoadDoes};
ghost use Rattle.tool_load.specs.Printed.{PutsAll, PutsPart};
ghost use Rattle.tool_load.specs.Progress.{StandsFor};
ghost use Rattle.tool_load.specs.Told.{IsConclusion, OnNoImage, OnTold, status_of as status_of_verdict};

use crate::collect::{Ended, collect};
use crate::deciding::{bytes_of, verdict_of};
use crate::progress::Progress;
use crate::put::put_verdict;
use ssu_answer::Verdict;
use ssu_io::{NoMemory, Sink, Source};
use ssu_status::Status;
use std::alloc::Global;
use ts_packet::Pid;
use ts_section::{Hearer, SectionOut};

/// Takes the first group of the first DSI on the PID that has a group, then its first DII that can be used for 134,217,728
/// bytes, then its blocks. Puts its image into `made` once it is whole and each module has the CRC of its descriptor, and
/// prints what came of it into `out`. Packets are taken up to a verdict or to the end of the input.
///
/// `Done` where the group was carried whole, else `Nothing` (level 6 or 7), `Incomplete` or `BadModule`. `NoMemory` before
/// the first packet, or at the packet at which the group is chosen; `ReadFault` where `air` failed, and `TooLong` at one
/// byte behind 16,777,216 packets, both before a verdict; `WriteFault` where `made` or `out` failed.
#[inline(never)]
pub fn load<A: Source, W: Sink, T: Sink>(
    alloc: Global,
    pid: Pid,
    air: &mut A,
    made: &mut W,
    out: &mut T,
) -> Status
    ensures does { LoadDoes pid result (source_seen A.Source air.old air.new) (sink_seen W.Sink made.old made.new)
        (sink_seen T.Sink out.old out.new) }
{
    let Ok(mut parts) = Parts::new(alloc) else {
        return Status::NoMemory;
    };
    let mut progress = Progress::NoGroup;
    match collect(
        &mut parts.hearer,
        &mut parts.each,
        &mut progress,
        alloc,
        pid,
        air,
    ) {
        Ended::Verdict => conclude(&progress, made, out),
        Ended::Input => conclude(&progress, made, out),
        Ended::Fault => Status::ReadFault,
        Ended::TooLong => Status::TooLong,
        Ended::Memory => Status::NoMemory,
    }
}

/// What hearing needs memory for.
#[derive(Drop)]
struct Parts {
    hearer: Hearer,
    each: SectionOut,
}

impl Parts {
    fn new(alloc: Global) -> Result<Parts, NoMemory>
        ensures { IfOk result (λ parts. Hears parts.hearer []) }
    {
        let hearer = Hearer::new(alloc)?;
        let each = SectionOut::new(alloc)?;
        Ok(Parts { hearer, each })
    }
}

/// Puts out what comes of the sections so far.
fn conclude<W: Sink, T: Sink>(progress: &Progress, made: &mut W, out: &mut T) -> Status
    ensures told { OnTold result (λ v. (sections : List (List ℕ)) → StandsFor progress.now sections
        → PutsAll sections v (sink_seen W.Sink made.old made.new) (sink_seen T.Sink out.old out.new)) }
    ensures write_fault { OnWriteFault result ((v : Verdict) × ((sections : List (List ℕ)) → StandsFor progress.now sections
        → PutsPart sections v (sink_seen W.Sink made.old made.new) (sink_seen T.Sink out.old out.new))) }
    ensures write_cause { OnWriteFault result
        (Rose (W.faults made.old) (W.faults made.new) ⊎ Rose (T.faults out.old) (T.faults out.new)) }
    ensures kept { OnNoImage result (made.new ≡ made.old) }
    ensures answers { IsConclusion result }
    ensures made_later { W.faults made.old ≤ W.faults made.new }
    ensures out_later { T.faults out.old ≤ T.faults out.new }
{
    let verdict = verdict_of(progress);
    match put_verdict(&verdict, bytes_of(progress), made, out) {
        Ok(()) => status_of(verdict),
        Err(_) => Status::WriteFault,
    }
}

fn status_of(verdict: Verdict) -> Status
    ensures { result ≡ status_of_verdict verdict }
{
    match verdict {
        Verdict::Installed(_) => Status::Done,
        other => Status::of(other),
    }
}
