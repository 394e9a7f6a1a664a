//! `hear PID`: the right whole sections of one PID, joined.
ghost use Rattle.std.specs.Prelude.{◌≡◌, ◌≤◌, ◌++◌, [], IfOk, OnOk, OnErr};
ghost use Rattle.std.specs.List.{concat};
ghost use Rattle.ts_input.specs.Puts.{Puts, PutsOfMost, PutsPrefix};
ghost use Rattle.ssu_io.specs.Bytes.{GainsPrefix};
ghost use Rattle.ssu_io.specs.Faults.{HasCause, Rose};
ghost use Rattle.ssu_io.specs.SinkBuffer.{MovesOn};
ghost use Rattle.ssu_status.specs.Answers.{IsEndOfInput};
ghost use Rattle.ssu_status.specs.Status.{OnDone, OnReadFault, OnTooLong};
ghost use Rattle.ssu_io.specs.Seen.{sink_seen, source_seen};
ghost use Rattle.tool_hear.specs.Does.{HearDoes};
ghost use Rattle.ts_input.specs.Packets.{IsAtEnd};
ghost use Rattle.ts_section.specs.Events.{hear as hear_text};
ghost use Rattle.ts_section.specs.Hearing.{Hears};

use ssu_io::{Failed, NoMemory, Sink, SinkBuffer, Source};
use ssu_status::Status;
use std::alloc::Global;
use ts_input::{Ended, PacketInput};
use ts_packet::Pid;
use ts_section::{Hearer, SectionOut, only};

/// Puts the right whole sections of the PID into `out`, joined, to the end of the input. A fault of `air` or `out` ends it, and
/// so does a byte behind 16,777,216 packets.
pub fn hear<A: Source, T: Sink>(alloc: Global, pid: Pid, air: &mut A, out: &mut T) -> Status
    ensures does { HearDoes pid result (source_seen A.Source air.old air.new) (sink_seen T.Sink out.old out.new) }
{
    let Ok(mut parts) = Parts::new(alloc) else {
        return Status::NoMemory;
    };
    match hear_all(
        &mut parts.hearer,
        &mut parts.each,
        &mut parts.waiting,
        pid,
        air,
        out,
    ) {
        Ok(status) => status,
        Err(_) => Status::WriteFault,
    }
}

/// What hearing needs memory for.
#[derive(Drop)]
struct Parts {
    hearer: Hearer,
    each: SectionOut,
    waiting: SinkBuffer,
}

impl Parts {
    fn new(alloc: Global) -> Result<Parts, NoMemory>
        ensures hearer { IfOk result (λ parts. Hears parts.hearer []) }
        ensures waiting { IfOk result (λ parts. parts.waiting ≡ []) }
    {
        let hearer = Hearer::new(alloc)?;
        let each = SectionOut::new(alloc)?;
        let waiting = SinkBuffer::new(alloc)?;
        Ok(Parts {
            hearer,
            each,
            waiting,
        })
    }
}

/// Hears the PID in all packets of the input. An error is one of `out`.
fn hear_all<A: Source, T: Sink>(
    hearer: &mut Hearer,
    each: &mut SectionOut,
    waiting: &mut SinkBuffer,
    pid: Pid,
    air: &mut A,
    out: &mut T,
) -> Result<Status, Failed>
    requires fresh { Hears hearer.old [] }
    requires none_waits { waiting.old ≡ [] }
    ensures done { IfOk result (λ status. OnDone status (Puts (hear_text pid)
        (A.left air.old) (A.left air.new) (T.contents out.old) (T.contents out.new))) }
    ensures end { IfOk result (λ status. OnDone status (IsAtEnd (A.left air.new))) }
    ensures read_fault { IfOk result (λ status. OnReadFault status (Puts (hear_text pid)
        (A.left air.old) (A.left air.new) (T.contents out.old) (T.contents out.new))) }
    ensures read_cause { IfOk result (λ status. OnReadFault status (Rose (A.faults air.old) (A.faults air.new))) }
    ensures too_long { IfOk result (λ status. OnTooLong status (PutsOfMost (hear_text pid)
        (A.left air.old) (A.left air.new) (T.contents out.old) (T.contents out.new))) }
    ensures status { IfOk result IsEndOfInput }
    ensures write_fault { OnErr result (PutsPrefix (hear_text pid)
        (A.left air.old) (A.left air.new) (T.contents out.old) (T.contents out.new)) }
    ensures write_cause { HasCause (T.faults out.old) (T.faults out.new) result }
    ensures air_later { A.faults air.old ≤ A.faults air.new }
{
    hearer.listen(&only(pid));
    let mut input = PacketInput::new();
    while input.next(air) {
        hearer.feed(input.packet(), each);
        put_sections(each, waiting, out)?;
    }
    waiting.flush(out)?;
    match input.ended(air) {
        Ended::End => Ok(Status::Done),
        Ended::Failed => Ok(Status::ReadFault),
        Ended::TooLong => Ok(Status::TooLong),
    }
}

/// Puts the sections behind what waits for `out`.
fn put_sections<T: Sink>(
    each: &SectionOut,
    waiting: &mut SinkBuffer,
    out: &mut T,
) -> Result<(), Failed>
    ensures ok { OnOk result (MovesOn (T.contents out.old) (T.contents out.new) waiting.old (concat each.now) waiting.new) }
    ensures failed { OnErr result (GainsPrefix (T.contents out.old) (T.contents out.new) (waiting.old ++ concat each.now)) }
    ensures cause { HasCause (T.faults out.old) (T.faults out.new) result }
{
    for k in 0..each.len() {
        waiting.put(out, each.get(k))?;
    }
    Ok(())
}
