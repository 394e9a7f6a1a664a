//! The file of a set-top box, `box.toml`: what it is, what software it runs, and what it accepts.
#![tactic(auto)]

mod file;
mod read;
mod values;

pub use file::{BoxFault, BoxFile};
pub use toml_fields::FieldName;
