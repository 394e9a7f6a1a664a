//! The plan of `plan.toml`.
ghost use Rattle.std.specs.Prelude.{◌≡◌, ◌≤◌, Ok, Err, IfOk, IfErr, IsSome};
ghost use Rattle.head_plan.specs.PlanText.{plan_of};
ghost use Rattle.head_plan.specs.Plans.{PlanData};
ghost use Rattle.ssu_io.specs.Faults.{Rose};
ghost use Rattle.ssu_status.specs.Status.{OnAbsent, OnPlanRefused, OnShelfFault};
ghost use Rattle.tool_box.specs.Fetching.{IsValueOrFails, TellsAbsence};
ghost use Rattle.tool_build.specs.Held.{RefusesPlan, TellsPlan, plan_name as name_of_plan};
ghost use Rattle.tool_build.specs.Building.{IsPlanRefusal, IsTextRefusal, text_refusal};

use head_plan::{Plan, PlanFault};
use ssu_answer::FileName;
use ssu_io::Shelf;
use ssu_status::Status;
use std::alloc::Global;
use tool_box::fetch;

/// The plan that `plan.toml` tells of.
///
/// # Errors
///
/// `Absent(plan.toml)` where the shelf has no such file, `ShelfFault` where the shelf failed, `PlanRefused` with the first
/// bad field of the file, and `NoMemory`.
pub(crate) fn read_plan<H: Shelf>(alloc: Global, shelf: &mut H) -> Result<Plan, Status>
    ensures found { IfOk result (λ p. TellsPlan (H.held shelf.old) p) }
    // Where the shelf tells its files and has a plan, that plan is found but for a fault of the shelf or want of memory.
    ensures told { (p : PlanData) → IsSome (H.held shelf.old) → TellsPlan (H.held shelf.old) p → IsValueOrFails p result }
    ensures absent { TellsAbsence (H.held shelf.old) name_of_plan result }
    ensures absent_name { IfErr result (λ status. OnAbsent status (λ told. told ≡ name_of_plan)) }
    ensures absent_cause { IfErr result (λ status. OnAbsent status (λ _. Rose (H.absences shelf.old) (H.absences shelf.new))) }
    ensures refused { IfErr result (λ status. OnPlanRefused status (λ field. RefusesPlan (H.held shelf.old) field)) }
    ensures fault_cause { IfErr result (λ status. OnShelfFault status (Rose (H.faults shelf.old) (H.faults shelf.new))) }
    ensures refusals { IfErr result IsPlanRefusal }
    ensures unchanged { H.held shelf.new ≡ H.held shelf.old }
    ensures faults { H.faults shelf.old ≤ H.faults shelf.new }
    ensures absences { H.absences shelf.old ≤ H.absences shelf.new }
{
    let text = fetch(alloc, shelf, &plan_name())?;
    plan_in(alloc, &text)
}

/// The plan that the text tells of.
fn plan_in(alloc: Global, text: &[u8]) -> Result<Plan, Status>
    ensures found { IfOk result (λ p. plan_of text.now ≡ Ok p) }
    ensures refused { IfErr result (λ status. OnPlanRefused status (λ field. plan_of text.now ≡ Err field)) }
    ensures refusals { IfErr result IsTextRefusal }
{
    match Plan::read(alloc, text) {
        Ok(plan) => Ok(plan),
        Err(fault) => Err(refusal(&fault)),
    }
}

/// The status for what is wrong with the text.
fn refusal(fault: &PlanFault) -> Status
    ensures { result ≡ text_refusal fault.now }
{
    match fault {
        PlanFault::Field(field) => Status::PlanRefused(*field),
        PlanFault::Memory => Status::NoMemory,
    }
}

fn plan_name() -> FileName
    ensures { result.bytes ≡ name_of_plan }
{
    let mut name = FileName::new();
    name.push_str("plan.toml");
    name
}
