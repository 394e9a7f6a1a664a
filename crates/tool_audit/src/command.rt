//! `audit PID` and `audit PID NOTICE`: the carousel on a PID, before it goes on air.

ghost use Rattle.std.specs.Prelude.{[], IfOk};
ghost use Rattle.ssu_audit.specs.Standing.{Stands};
ghost use Rattle.ssu_io.specs.Seen.{sink_seen, source_seen};
ghost use Rattle.tool_audit.specs.Does.{AuditDoes};
ghost use Rattle.ts_section.specs.Hearing.{Hears};

use crate::hearing::{Ended, hear_all};
use crate::telling::tell;
use ssu_audit::Audit;
use ssu_io::{NoMemory, Sink, Source};
use ssu_status::Status;
use std::alloc::Global;
use ts_packet::Pid;
use ts_section::{Hearer, SectionOut};

/// Hears the carousel on a PID, and its notice on another, and prints one line into `out`: `audit ok groups G blocks B` where
/// all receivers of some of what was heard that have a group of the DSI whole have one image of it, or the first fact for which
/// that is refused.
///
/// `Done`, or `AuditRefused` with the fact: at the packet at which a section is the first that a fact stands against, behind
/// which nothing is taken, else at the end of the input. `NoMemory` before the first packet, or at a packet that has
/// something new to keep; `ReadFault` where `air` failed, and `TooLong` at one byte behind 16,777,216 packets, both before a
/// fact; `WriteFault` where `out` failed.
#[inline(never)]
pub fn audit<A: Source, T: Sink>(
    alloc: Global,
    pid: Pid,
    notice: Option<Pid>,
    air: &mut A,
    out: &mut T,
) -> Status
    ensures does { AuditDoes pid notice result (source_seen A.Source air.old air.new) (sink_seen T.Sink out.old out.new) }
{
    let Ok(mut parts) = Parts::new(alloc) else {
        return Status::NoMemory;
    };
    match hear_all(
        &mut parts.hearer,
        &mut parts.each,
        &mut parts.audit,
        pid,
        notice,
        air,
    ) {
        Ended::Fact(no) => tell(Err(no), out),
        Ended::Input => tell(parts.audit.end(), out),
        Ended::Fault => Status::ReadFault,
        Ended::TooLong => Status::TooLong,
        Ended::Memory => Status::NoMemory,
    }
}

/// What an audit needs memory for before the first packet.
#[derive(Drop)]
struct Parts {
    hearer: Hearer,
    each: SectionOut,
    audit: Audit,
}

impl Parts {
    fn new(alloc: Global) -> Result<Parts, NoMemory>
        ensures hears { IfOk result (λ parts. Hears parts.hearer []) }
        ensures none { IfOk result (λ parts. Stands [] parts.audit) }
    {
        let hearer = Hearer::new(alloc)?;
        let each = SectionOut::new(alloc)?;
        let audit = Audit::new(alloc)?;
        Ok(Parts {
            hearer,
            each,
            audit,
        })
    }
}
