//! Damage to a stream by a script: bytes are changed, packets change places, are left out, and are sent twice.
#![tactic(auto)]

mod change;
mod channel;
mod fault;
mod gathered;
mod loss;
mod numbers;
mod read;
mod script;

pub use channel::{AirFault, air};
pub use fault::ScriptFault;
pub use loss::RegularLoss;
pub use script::Script;
pub use toml_fields::FieldName;
