//! `replay`: the packets of the source to the loader of the box.

ghost use Rattle.std.specs.Prelude.{◌≡◌, OnErr, OnOk};
ghost use Rattle.flash_bank.specs.Seen.{flash_seen};
ghost use Rattle.ssu_io.specs.Bytes.{Gains, GainsPrefix};
ghost use Rattle.ssu_io.specs.Faults.{HasCause};
ghost use Rattle.ssu_io.specs.Seen.{shelf_seen, sink_seen, source_seen};
ghost use Rattle.ssu_line.specs.Lines.{verdict_line};
ghost use Rattle.tool_replay.specs.Answers.{status_of_fault as status_of_load_fault};
ghost use Rattle.tool_replay.specs.Replay.{Replays};

use flash_dev::Flash;
use flash_stage::Stage;
use ssu_answer::Verdict;
use ssu_io::{Failed, Shelf, Sink, Source};
use ssu_loader::LoadFault;
use ssu_status::Status;
use std::alloc::Global;
use tool_box::read_box;

/// Replays the packets of `air` to the box of `box.toml`, up to a verdict or to the end, and puts the line of the verdict into
/// `out`. A group that is chosen is staged by `S` until it is whole, and then installed in the flash.
///
/// Whenever the power goes, boot takes what it took before or, as a whole, a group that the packets carry whole for the box, and
/// that alone once the answer is `Installed`. No memory is taken after the first packet.
#[inline(never)]
pub fn replay<H: Shelf, A: Source, F: Flash, T: Sink, S: Stage>(
    alloc: Global,
    shelf: &mut H,
    air: &mut A,
    flash: &mut F,
    out: &mut T,
) -> Status
    ensures replays { Replays S.IN_BANK S.KEEPS result (shelf_seen H.Shelf shelf.old shelf.new) (source_seen A.Source air.old air.new)
        (flash_seen F.Flash flash.old flash.new) (sink_seen T.Sink out.old out.new) }
{
    let file = match read_box(alloc, shelf) {
        Ok(file) => file,
        Err(status) => return status,
    };
    let verdict = match ssu_loader::replay::<A, F, S>(alloc, &file, air, flash) {
        Ok(verdict) => verdict,
        Err(fault) => return status_of_fault(fault),
    };
    match put_line(verdict, out) {
        Ok(()) => Status::of(verdict),
        Err(_) => Status::WriteFault,
    }
}

fn status_of_fault(fault: LoadFault) -> Status
    ensures { result ≡ status_of_load_fault fault }
{
    match fault {
        LoadFault::Geometry => Status::Geometry,
        LoadFault::FlashFault => Status::FlashFault,
        LoadFault::Foreign => Status::Foreign,
        LoadFault::Worn => Status::Worn,
        LoadFault::Memory => Status::NoMemory,
        LoadFault::ReadFault => Status::ReadFault,
        LoadFault::TooLong => Status::TooLong,
    }
}

/// Puts the line of the verdict.
fn put_line<T: Sink>(verdict: Verdict, out: &mut T) -> Result<(), Failed>
    ensures whole { OnOk result (Gains (T.contents out.old) (T.contents out.new) (verdict_line verdict)) }
    ensures prefix { OnErr result (GainsPrefix (T.contents out.old) (T.contents out.new) (verdict_line verdict)) }
    ensures cause { HasCause (T.faults out.old) (T.faults out.new) result }
{
    out.put(ssu_line::verdict(verdict).as_str().as_bytes())
}
