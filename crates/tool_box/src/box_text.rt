//! The box of `box.toml`.
ghost use Rattle.std.specs.Prelude.{◌≡◌, ◌≤◌, Ok, Err, IfOk, IfErr, IsSome};
ghost use Rattle.box_file.specs.BoxText.{box_of};
ghost use Rattle.box_file.specs.declared.file.BoxFile.{BoxFile};
ghost use Rattle.ssu_io.specs.Faults.{Rose};
ghost use Rattle.ssu_status.specs.Status.{OnAbsent, OnBoxRefused, OnShelfFault};
ghost use Rattle.tool_box.specs.Boxes.{IsBoxRefusal, IsTextRefusal, RefusesBox, TellsBox, box_name as name_of_box};
ghost use Rattle.tool_box.specs.Boxes.{text_refusal};
ghost use Rattle.tool_box.specs.Fetching.{IsValueOrFails, TellsAbsence};

use crate::fetching::fetch;
use box_file::{BoxFault, BoxFile};
use ssu_answer::FileName;
use ssu_io::Shelf;
use ssu_status::Status;
use std::alloc::Global;

/// The box that `box.toml` tells of.
///
/// # Errors
///
/// `Absent(box.toml)` where the shelf has no such file, `ShelfFault` where the shelf failed, `BoxRefused` with the first bad
/// field of the file, and `NoMemory`.
pub fn read_box<H: Shelf>(alloc: Global, shelf: &mut H) -> Result<BoxFile, Status>
    ensures found { IfOk result (λ b. TellsBox (H.held shelf.old) b) }
    // Where the shelf tells its files and has a box, that box is found but for a fault of the shelf or want of memory.
    ensures told { (b : BoxFile) → IsSome (H.held shelf.old) → TellsBox (H.held shelf.old) b → IsValueOrFails b result }
    // `Absent` comes exactly where the shelf has no box.toml, where it tells its files, and with that name.
    ensures absent { TellsAbsence (H.held shelf.old) name_of_box result }
    ensures absent_name { IfErr result (λ status. OnAbsent status (λ told. told ≡ name_of_box)) }
    ensures absent_cause { IfErr result (λ status. OnAbsent status (λ _. Rose (H.absences shelf.old) (H.absences shelf.new))) }
    // The field is the first bad one.
    ensures refused { IfErr result (λ status. OnBoxRefused status (λ field. RefusesBox (H.held shelf.old) field)) }
    ensures fault_cause { IfErr result (λ status. OnShelfFault status (Rose (H.faults shelf.old) (H.faults shelf.new))) }
    // There is no other refusal.
    ensures refusals { IfErr result IsBoxRefusal }
    ensures unchanged { H.held shelf.new ≡ H.held shelf.old }
    ensures faults { H.faults shelf.old ≤ H.faults shelf.new }
    ensures absences { H.absences shelf.old ≤ H.absences shelf.new }
{
    let text = fetch(alloc, shelf, &box_name())?;
    box_in(alloc, &text)
}

/// The box that the text tells of.
fn box_in(alloc: Global, text: &[u8]) -> Result<BoxFile, Status>
    ensures found { IfOk result (λ b. box_of text.now ≡ Ok b) }
    ensures refused { IfErr result (λ status. OnBoxRefused status (λ field. box_of text.now ≡ Err field)) }
    ensures refusals { IfErr result IsTextRefusal }
{
    match BoxFile::read(alloc, text) {
        Ok(file) => Ok(file),
        Err(fault) => Err(refusal(&fault)),
    }
}

/// The status for what is wrong with the text.
fn refusal(fault: &BoxFault) -> Status
    ensures { result ≡ text_refusal fault.now }
{
    match fault {
        BoxFault::Field(field) => Status::BoxRefused(*field),
        BoxFault::Memory => Status::NoMemory,
    }
}

fn box_name() -> FileName
    ensures { result.bytes ≡ name_of_box }
{
    let mut name = FileName::new();
    name.push_str("box.toml");
    name
}
