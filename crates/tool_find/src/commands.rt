//! `find` and `show`: the way to an update for the box of `box.toml`.
ghost use Rattle.std.specs.Prelude.{◌≡◌, [], false, true, IfOk};
ghost use Rattle.ssu_io.specs.Seen.{shelf_seen, sink_seen, source_seen};
ghost use Rattle.tool_find.specs.Does.{FindDoes};
ghost use Rattle.tool_find.specs.Lines.{receiver_of, Walks};

use crate::walk::Walk;
use crate::walking::walk_all;
use box_file::BoxFile;
use ssu_io::{NoMemory, Shelf, Sink, SinkBuffer, Source};
use ssu_status::Status;
use std::alloc::Global;
use tool_box::read_box;

/// Prints a line for each of the seven levels of the way to an update that the packets of `air` lead the box of `box.toml`.
///
/// `Done` at the end of the input. `Absent`, `ShelfFault` and `BoxRefused` with the first bad field where there is no box,
/// and `NoMemory`, before the first packet; `ReadFault` where `air` failed, `TooLong` at one byte behind 16,777,216
/// packets, and `WriteFault` where `out` failed.
pub fn find<H: Shelf, A: Source, T: Sink>(
    alloc: Global,
    shelf: &mut H,
    air: &mut A,
    out: &mut T,
) -> Status
    ensures does { FindDoes false result (shelf_seen H.Shelf shelf.old shelf.new) (source_seen A.Source air.old air.new)
        (sink_seen T.Sink out.old out.new) }
{
    walk_for(alloc, false, shelf, air, out)
}

/// Prints a line for each section that the box of `box.toml` hears in the packets of `air`, and then what `find` prints. It
/// answers as `find` does, and `WriteFault` also packet by packet.
pub fn show<H: Shelf, A: Source, T: Sink>(
    alloc: Global,
    shelf: &mut H,
    air: &mut A,
    out: &mut T,
) -> Status
    ensures does { FindDoes true result (shelf_seen H.Shelf shelf.old shelf.new) (source_seen A.Source air.old air.new)
        (sink_seen T.Sink out.old out.new) }
{
    walk_for(alloc, true, shelf, air, out)
}

/// Both commands, by whether the sections are shown.
#[inline(never)]
fn walk_for<H: Shelf, A: Source, T: Sink>(
    alloc: Global,
    shows: bool,
    shelf: &mut H,
    air: &mut A,
    out: &mut T,
) -> Status
    ensures does { FindDoes shows result (shelf_seen H.Shelf shelf.old shelf.new) (source_seen A.Source air.old air.new)
        (sink_seen T.Sink out.old out.new) }
{
    let file = match read_box(alloc, shelf) {
        Ok(file) => file,
        Err(status) => return status,
    };
    let Ok(mut parts) = Parts::new(alloc, &file) else {
        return Status::NoMemory;
    };
    match walk_all(&mut parts.walk, shows, &mut parts.waiting, air, out) {
        Ok(status) => status,
        Err(_) => Status::WriteFault,
    }
}

/// What a walk needs memory for.
#[derive(Drop)]
struct Parts {
    walk: Walk,
    waiting: SinkBuffer,
}

impl Parts {
    fn new(alloc: Global, file: &BoxFile) -> Result<Parts, NoMemory>
        ensures walks { IfOk result (λ parts. Walks (receiver_of file.now) parts.walk []) }
        ensures none_waits { IfOk result (λ parts. parts.waiting ≡ []) }
    {
        let walk = Walk::new(alloc, file)?;
        let waiting = SinkBuffer::new(alloc)?;
        Ok(Parts { walk, waiting })
    }
}
