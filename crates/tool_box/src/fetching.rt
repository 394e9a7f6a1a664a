//! A file by its name.
ghost use Rattle.std.specs.Prelude.{◌≡◌, ◌≤◌, IfOk, IfErr};
ghost use Rattle.ssu_io.specs.Faults.{Rose};
ghost use Rattle.ssu_io.specs.Files.{Has};
ghost use Rattle.ssu_status.specs.Status.{OnAbsent, OnShelfFault};
ghost use Rattle.tool_box.specs.Fetching.{IsFetchRefusal, TellsAbsence, refusal_of};

use ssu_answer::FileName;
use ssu_io::{Shelf, ShelfError};
use ssu_status::Status;
use std::alloc::Global;

/// The bytes of the file of this name.
///
/// # Errors
///
/// `Absent` with the name where the shelf has no such file, `ShelfFault` where the shelf failed, and `NoMemory`.
pub fn fetch<H: Shelf>(alloc: Global, shelf: &mut H, name: &FileName) -> Result<Vec<u8>, Status>
    ensures found { IfOk result (λ bytes. Has (H.held shelf.old) name.now.bytes bytes.items) }
    // `Absent` comes exactly where the shelf has no file of the name, where it tells its files, and with that name.
    ensures absent { TellsAbsence (H.held shelf.old) name.now.bytes result }
    ensures absent_name { IfErr result (λ status. OnAbsent status (λ told. told ≡ name.now.bytes)) }
    ensures absent_cause { IfErr result (λ status. OnAbsent status (λ _. Rose (H.absences shelf.old) (H.absences shelf.new))) }
    ensures fault_cause { IfErr result (λ status. OnShelfFault status (Rose (H.faults shelf.old) (H.faults shelf.new))) }
    // There is no other refusal.
    ensures refusals { IfErr result IsFetchRefusal }
    ensures unchanged { H.held shelf.new ≡ H.held shelf.old }
    ensures faults { H.faults shelf.old ≤ H.faults shelf.new }
    ensures absences { H.absences shelf.old ≤ H.absences shelf.new }
{
    match shelf.fetch(alloc, name.as_str()) {
        Ok(bytes) => Ok(bytes),
        Err(error) => Err(refusal(error, name)),
    }
}

/// The status for what a shelf answered.
fn refusal(error: ShelfError, name: &FileName) -> Status
    ensures { result ≡ refusal_of error name.now }
{
    match error {
        ShelfError::Absent => Status::Absent(*name),
        ShelfError::Failed => Status::ShelfFault,
        ShelfError::Memory => Status::NoMemory,
    }
}
