//! What the program is told, and what it answers: the words of the command line and the status.
#![tactic(auto)]

mod command;
mod number;
mod status;

pub use audit_answer::{AuditNo, AuditYes};
pub use command::{Command, made_file};
pub use ssu_answer::{BuildFault, Chosen, FileName, Level};
pub use status::{Status, Text};
pub use toml_fields::FieldName;
