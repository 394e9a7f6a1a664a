//! The top call of the program, over any shelf, source, flash and sinks.
#![tactic(auto)]

mod opened;
mod spared;
mod spares;
mod top;

pub use broadcast::{ChainFault, Outcome, broadcast_then_boot};
pub use spared::run_spared;
pub use spares::{command_of, made_file};
pub use ssu_status::Status;
pub use top::run;
