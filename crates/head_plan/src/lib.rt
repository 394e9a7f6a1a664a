//! The plan of a broadcast, `plan.toml`: the service, its PIDs, and the groups that are sent.
#![tactic(auto)]

mod fault;
mod files;
mod groups;
mod mentions;
mod plan;
mod read;
mod schedule;

pub use fault::PlanFault;
pub use files::Files;
pub use groups::{Groups, PlanGroup};
pub use plan::Plan;
pub use schedule::Schedule;
pub use ssu_io::FileName;
pub use toml_fields::FieldName;
