//! Reading `plan.toml`: the first bad field is named, in the order of the fields.
ghost use Rattle.std.specs.Prelude.{◌≡◌, Ok, IfOk, IfErr, [], is_some};
ghost use Rattle.toml_fields.specs.Place.{place};
ghost use Rattle.head_plan.specs.PlanText.{plan_in, plan_of, IsFaultOf};

mod fields;
mod groups;

use crate::fault::PlanFault;
use crate::plan::Plan;
use fields::{read_manual, read_origin, read_pace, read_pids, read_schedule, read_service};
use groups::read_groups;
use std::alloc::Global;
use toml_fields::{DocumentFault, Fields, field_name, read_document};

impl Plan {
    /// The plan that the text of a `plan.toml` tells of. Keys that are not listed in it are passed over.
    ///
    /// Answers `Field` with the name of the first bad field: one that is missing though not optional, or out of its
    /// range; and `Memory` where memory ran out. The order is `text` (no TOML or no UTF-8), `ts`, `network`,
    /// `bouquet`, `service`, `oui`, `time`, `pmt_pid`, `data_pid`, `notice_pid`, `signal_period`, `turns`, `manual`,
    /// `schedule`, `group`, and then the fields of each group, as `group.0.model`.
    #[tactic(auto, unfolding(crate::specs::PlanText::plan_of))]
    pub fn read(alloc: Global, text: &[u8]) -> Result<Plan, PlanFault>
        ensures plan { IfOk result (λ p. plan_of text.now ≡ Ok p) }
        ensures fault { IfErr result (IsFaultOf (plan_of text.now)) }
    {
        let table = match read_document(alloc, text) {
            Ok(table) => table,
            Err(DocumentFault::Text) => return Err(PlanFault::Field(field_name("text", ""))),
            Err(DocumentFault::Memory) => return Err(PlanFault::Memory),
        };
        let fields = Fields {
            table: &table,
            prefix: "",
        };
        read_plan(alloc, &fields)
    }
}

#[tactic(auto, unfolding(crate::specs::PlanText::plan_in))]
fn read_plan(alloc: Global, fields: &Fields) -> Result<Plan, PlanFault>
    requires { fields.now.prefix.now ≡ [] }
    ensures plan { IfOk result (λ p. plan_in (place fields.now) ≡ Ok p) }
    ensures fault { IfErr result (IsFaultOf (plan_in (place fields.now))) }
{
    let (ts, network, bouquet, service) = read_service(fields)?;
    let (oui, time) = read_origin(fields)?;
    let (pmt_pid, data_pid, notice_pid) = read_pids(fields)?;
    let (signal_period, turns) = read_pace(fields)?;
    let manual = read_manual(fields, notice_pid.is_some())?;
    let schedule = read_schedule(fields, notice_pid.is_some())?;
    let group = read_groups(alloc, fields)?;
    Ok(Plan {
        ts,
        network,
        bouquet,
        service,
        oui,
        time,
        pmt_pid,
        data_pid,
        notice_pid,
        signal_period,
        turns,
        manual,
        schedule,
        group,
    })
}
