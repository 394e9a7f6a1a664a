//! `air`: the packets of a stream, as a script changes them.
ghost use Rattle.std.specs.Prelude.{◌≡◌, ◌≤◌, List, Option};
ghost use Rattle.ssu_io.specs.Bytes.{Gains, GainsPrefix};
ghost use Rattle.ssu_io.specs.Faults.{Rose};
ghost use Rattle.ssu_io.specs.Files.{File};
ghost use Rattle.ssu_io.specs.Seen.{shelf_seen, sink_seen, source_seen};
ghost use Rattle.ssu_line.specs.Lines.{aired_line};
ghost use Rattle.ssu_status.specs.Answers.{IsPrinted};
ghost use Rattle.ssu_status.specs.Status.{OnDone, OnReadFault, OnTooLong, OnWriteFault};
ghost use Rattle.tool_air.specs.Airing.{ForScript, IsPutAnswer, IsUnrefused, PutsAll, PutsMost, PutsPart, PutsTaken};
ghost use Rattle.tool_air.specs.Does.{AirDoes};
ghost use Rattle.tool_air.specs.Held.{TellsScript};
ghost use Rattle.ts_input.specs.Packets.{IsAtEnd};

use crate::script_text::read_script;
use air_channel::{AirFault, Script};
use ssu_io::{Failed, Shelf, Sink, Source};
use ssu_line::aired;
use ssu_status::Status;
use std::alloc::Global;

/// Puts the packets of `air`, as the script of `script.toml` changes them, into `made`, and prints `packets P` into `out`. A
/// rest of fewer than 188 bytes is no packet. Once the script is read it takes no memory.
///
/// `Done`; in this order `Absent`, `ShelfFault` and `PlanRefused` with the first bad field of `script.toml`, and `NoMemory`,
/// before the first packet; `ReadFault` where `air` failed and `TooLong` at one byte behind 16,777,216 packets: `made` got
/// what the script makes of the packets taken, and no line is printed; `WriteFault` where `made` or `out` failed.
// The packets that wait for the sink lie on the stack, 64 KiB: in a frame of its own, so that no other command has them.
#[inline(never)]
pub fn air<H: Shelf, A: Source, W: Sink, T: Sink>(
    alloc: Global,
    shelf: &mut H,
    air: &mut A,
    made: &mut W,
    out: &mut T,
) -> Status
    ensures does { AirDoes result (shelf_seen H.Shelf shelf.old shelf.new) (source_seen A.Source air.old air.new)
        (sink_seen W.Sink made.old made.new) (sink_seen T.Sink out.old out.new) }
{
    match read_script(alloc, shelf) {
        Ok(script) => put_aired(&script, air, made, out),
        Err(status) => status,
    }
}

/// Puts what the script makes of the packets, and the line that counts them.
fn put_aired<A: Source, W: Sink, T: Sink>(
    script: &Script,
    air: &mut A,
    made: &mut W,
    out: &mut T,
) -> Status
    ensures done { (held : Option (List File)) → TellsScript held script.now → OnDone result (ForScript held
        (PutsAll (source_seen A.Source air.old air.new) (sink_seen W.Sink made.old made.new) (sink_seen T.Sink out.old out.new))) }
    ensures end { OnDone result (IsAtEnd (A.left air.new)) }
    ensures read_fault { (held : Option (List File)) → TellsScript held script.now → OnReadFault result (ForScript held
        (PutsTaken (source_seen A.Source air.old air.new) (sink_seen W.Sink made.old made.new) (sink_seen T.Sink out.old out.new))) }
    ensures read_cause { OnReadFault result (Rose (A.faults air.old) (A.faults air.new)) }
    ensures too_long { (held : Option (List File)) → TellsScript held script.now → OnTooLong result (ForScript held
        (PutsMost (source_seen A.Source air.old air.new) (sink_seen W.Sink made.old made.new) (sink_seen T.Sink out.old out.new))) }
    ensures write_fault { (held : Option (List File)) → TellsScript held script.now → OnWriteFault result (ForScript held
        (PutsPart (source_seen A.Source air.old air.new) (sink_seen W.Sink made.old made.new) (sink_seen T.Sink out.old out.new))) }
    ensures answers { IsPutAnswer result }
    ensures complete { ¬ Rose (A.faults air.old) (A.faults air.new) → ¬ Rose (W.faults made.old) (W.faults made.new)
        → ¬ Rose (T.faults out.old) (T.faults out.new) → IsUnrefused result }
    ensures air_later { A.faults air.old ≤ A.faults air.new }
    ensures made_later { W.faults made.old ≤ W.faults made.new }
    ensures out_later { T.faults out.old ≤ T.faults out.new }
{
    match air_channel::air(script, air, made) {
        Ok(packets) => print(packets, out),
        Err(AirFault::ReadFault) => Status::ReadFault,
        Err(AirFault::WriteFault) => Status::WriteFault,
        Err(AirFault::TooLong) => Status::TooLong,
    }
}

/// Prints how many packets were put.
fn print<T: Sink>(packets: u64, out: &mut T) -> Status
    ensures done { OnDone result (Gains (T.contents out.old) (T.contents out.new) (aired_line packets)) }
    ensures write_fault { OnWriteFault result (GainsPrefix (T.contents out.old) (T.contents out.new) (aired_line packets)) }
    ensures write_cause { OnWriteFault result (Rose (T.faults out.old) (T.faults out.new)) }
    ensures answers { IsPrinted result }
    ensures out_later { T.faults out.old ≤ T.faults out.new }
{
    match out.put(aired(packets).as_bytes()) {
        Ok(()) => Status::Done,
        Err(Failed) => Status::WriteFault,
    }
}
