//! The script of `script.toml`.
ghost use Rattle.std.specs.Prelude.{◌≡◌, ◌≤◌, Ok, Err, IfOk, IfErr};
ghost use Rattle.air_channel.specs.ScriptText.{script_of};
ghost use Rattle.ssu_io.specs.Faults.{Rose};
ghost use Rattle.ssu_status.specs.Status.{OnAbsent, OnPlanRefused, OnShelfFault};
ghost use Rattle.tool_air.specs.Held.{RefusesScript, TellsScript, script_name as name_of_script};
ghost use Rattle.tool_air.specs.Refusals.{IsScriptRefusal, IsTextRefusal, text_refusal};
ghost use Rattle.tool_box.specs.Fetching.{HasNone, IsErrWith, SaysAbsent, TellsAbsence};

use air_channel::{Script, ScriptFault};
use ssu_answer::FileName;
use ssu_io::Shelf;
use ssu_status::Status;
use std::alloc::Global;
use tool_box::fetch;

/// The script that `script.toml` tells of.
///
/// # Errors
///
/// `Absent(script.toml)` where the shelf has no such file, `ShelfFault` where the shelf failed, `PlanRefused` with the first
/// bad field of the file, behind `script.`, and `NoMemory`.
pub(crate) fn read_script<H: Shelf>(alloc: Global, shelf: &mut H) -> Result<Script, Status>
    ensures found { IfOk result (λ s. TellsScript (H.held shelf.old) s) }
    ensures absent { TellsAbsence (H.held shelf.old) name_of_script result }
    ensures no_script { HasNone (H.held shelf.old) name_of_script → IsErrWith (SaysAbsent name_of_script) result }
    ensures absent_name { IfErr result (λ status. OnAbsent status (λ told. told ≡ name_of_script)) }
    ensures absent_cause { IfErr result (λ status. OnAbsent status (λ _. Rose (H.absences shelf.old) (H.absences shelf.new))) }
    ensures refused { IfErr result (λ status. OnPlanRefused status (λ field. RefusesScript (H.held shelf.old) field)) }
    ensures fault_cause { IfErr result (λ status. OnShelfFault status (Rose (H.faults shelf.old) (H.faults shelf.new))) }
    ensures refusals { IfErr result IsScriptRefusal }
    ensures unchanged { H.held shelf.new ≡ H.held shelf.old }
    ensures faults { H.faults shelf.old ≤ H.faults shelf.new }
    ensures absences { H.absences shelf.old ≤ H.absences shelf.new }
{
    let text = fetch(alloc, shelf, &script_name())?;
    script_in(alloc, &text)
}

/// The script that the text tells of.
fn script_in(alloc: Global, text: &[u8]) -> Result<Script, Status>
    ensures found { IfOk result (λ s. script_of text.now ≡ Ok s) }
    ensures refused { IfErr result (λ status. OnPlanRefused status (λ field. script_of text.now ≡ Err field)) }
    ensures refusals { IfErr result IsTextRefusal }
{
    match Script::read(alloc, text) {
        Ok(script) => Ok(script),
        Err(fault) => Err(refusal(&fault)),
    }
}

/// The status for what is wrong with the text.
fn refusal(fault: &ScriptFault) -> Status
    ensures { result ≡ text_refusal fault.now }
{
    match fault {
        ScriptFault::Field(field) => Status::PlanRefused(*field),
        ScriptFault::Memory => Status::NoMemory,
    }
}

fn script_name() -> FileName
    ensures { result.bytes ≡ name_of_script }
{
    let mut name = FileName::new();
    name.push_str("script.toml");
    name
}
