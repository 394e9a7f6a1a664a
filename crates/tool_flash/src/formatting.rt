//! `format FILE`: a flash with the image in a file.
ghost use Rattle.std.specs.Prelude.{◌≡◌, ◌≤◌, IfOk, IfErr};
ghost use Rattle.box_file.specs.declared.file.BoxFile.{BoxFile};
ghost use Rattle.flash_bank.specs.Format.{SameOutsideFirst, layout_for};
ghost use Rattle.flash_layout.specs.Layout.{blocks_of};
ghost use Rattle.flash_bank.specs.Runs.{OnlyReads};
ghost use Rattle.flash_bank.specs.Seen.{flash_seen};
ghost use Rattle.ssu_io.specs.Bytes.{Gains, GainsPrefix};
ghost use Rattle.ssu_io.specs.Faults.{Rose};
ghost use Rattle.ssu_io.specs.Seen.{shelf_seen, sink_seen};
ghost use Rattle.ssu_status.specs.Status.{OnAbsent, OnBoxRefused, OnDone, OnShelfFault, OnWriteFault};
ghost use Rattle.tool_box.specs.Boxes.{RefusesBox, TellsBox, box_name};
ghost use Rattle.tool_box.specs.Fetching.{HasNone, IsErrWith, SaysAbsent, SaysAbsentOrFails};
ghost use Rattle.tool_flash.specs.Answers.{OnFlashFault, OnUnprinted, OnUntouched};
ghost use Rattle.tool_flash.specs.Does.{FormatDoes};
ghost use Rattle.tool_flash.specs.Formatting.{IsFirstAbsent, IsFilesRefusal, IsPutAnswer, Judged, Puts, TellsFiles};

use crate::printing::print;
use flash_bank::FormatFault;
use flash_dev::Flash;
use ssu_answer::FileName;
use ssu_compat::SwId;
use ssu_io::{Shelf, Sink};
use ssu_status::Status;
use std::alloc::Global;
use tool_box::{fetch, read_box};

/// Formats the flash with the bytes of the file as image and the software of `box.toml`, and puts the line
/// `formatted bytes L` into `out`. Of a power loss within it nothing is promised.
///
/// `Done`; in this order `Absent`, `ShelfFault` and `BoxRefused` with the first bad field for `box.toml`, `Absent` and
/// `ShelfFault` for the file, each of them before the flash is touched, and `NoMemory` with them; `Geometry` where the number
/// or the length of the blocks is out of the limits, `NoFit` where the file is longer than a bank, `FlashFault` where the
/// flash failed, and `WriteFault` where `out` failed.
pub fn format<H: Shelf, F: Flash, T: Sink>(
    alloc: Global,
    name: &FileName,
    shelf: &mut H,
    flash: &mut F,
    out: &mut T,
) -> Status
    ensures does { FormatDoes name.now.bytes result (shelf_seen H.Shelf shelf.old shelf.new)
        (flash_seen F.Flash flash.old flash.new) (sink_seen T.Sink out.old out.new) }
{
    match read_files(alloc, name, shelf) {
        Ok(files) => put_first(&files, flash, out),
        Err(status) => status,
    }
}

/// What a flash is formatted with.
#[derive(Drop)]
struct Files {
    software: SwId,
    image: Vec<u8>,
}

/// Reads `box.toml`, and then the file.
fn read_files<H: Shelf>(alloc: Global, name: &FileName, shelf: &mut H) -> Result<Files, Status>
    ensures found { IfOk result (λ files. TellsFiles (H.held shelf.old) name.now.bytes files.software files.image.items) }
    ensures absent { IfErr result (λ status. OnAbsent status (λ told. IsFirstAbsent (H.held shelf.old) name.now.bytes told)) }
    ensures no_box { HasNone (H.held shelf.old) box_name → IsErrWith (SaysAbsent box_name) result }
    ensures no_file { (box_file : BoxFile) → TellsBox (H.held shelf.old) box_file → HasNone (H.held shelf.old) name.now.bytes
        → IsErrWith (SaysAbsentOrFails name.now.bytes) result }
    ensures absent_cause { IfErr result (λ status. OnAbsent status (λ _. Rose (H.absences shelf.old) (H.absences shelf.new))) }
    ensures box_refused { IfErr result (λ status. OnBoxRefused status (λ field. RefusesBox (H.held shelf.old) field)) }
    ensures shelf_cause { IfErr result (λ status. OnShelfFault status (Rose (H.faults shelf.old) (H.faults shelf.new))) }
    ensures refusals { IfErr result IsFilesRefusal }
    ensures shelf_same { H.held shelf.new ≡ H.held shelf.old }
    ensures shelf_later { H.faults shelf.old ≤ H.faults shelf.new }
    ensures absences_later { H.absences shelf.old ≤ H.absences shelf.new }
{
    let file = read_box(alloc, shelf)?;
    let image = fetch(alloc, shelf, name)?;
    Ok(Files {
        software: file.software,
        image,
    })
}

/// Formats the flash, and puts the line.
fn put_first<F: Flash, T: Sink>(files: &Files, flash: &mut F, out: &mut T) -> Status
    ensures done { OnDone result (Puts Gains files.now.software files.now.image.items
        (flash_seen F.Flash flash.old flash.new) (sink_seen T.Sink out.old out.new)) }
    ensures write_fault { OnWriteFault result (Puts GainsPrefix files.now.software files.now.image.items
        (flash_seen F.Flash flash.old flash.new) (sink_seen T.Sink out.old out.new)) }
    ensures judged { Judged (blocks_of F.Flash flash.old) files.now.image.items result }
    ensures flash_cause { OnFlashFault result (Rose (F.faults flash.old) (F.faults flash.new)) }
    ensures write_cause { OnWriteFault result (Rose (T.faults out.old) (T.faults out.new)) }
    ensures answers { IsPutAnswer result }
    ensures flash_fault { OnFlashFault result (F.tells
        → SameOutsideFirst (blocks_of F.Flash flash.old) (layout_for (blocks_of F.Flash flash.old)) (F.contents flash.old) (F.contents flash.new)) }
    ensures untouched { OnUntouched result
        (OnlyReads F.tells F.contents F.block_count F.block_len F.moment F.left_since flash.old flash.new) }
    ensures unprinted { OnUnprinted result (out.new ≡ out.old) }
    ensures blocks { blocks_of F.Flash flash.new ≡ blocks_of F.Flash flash.old }
    ensures flash_later { F.faults flash.old ≤ F.faults flash.new }
    ensures out_later { T.faults out.old ≤ T.faults out.new }
{
    match flash_bank::format(flash, &files.image, files.software) {
        Ok(head) => print(&ssu_line::formatted(head.length), out),
        Err(FormatFault::Geometry) => Status::Geometry,
        Err(FormatFault::NoFit) => Status::NoFit,
        Err(FormatFault::Flash) => Status::FlashFault,
    }
}
