//! The packets of a carousel's sections, turn by turn: each section comes again after its period.
#![tactic(auto)]

mod fault;
mod packing;
mod sending;
mod turn;

pub use fault::MuxFault;
pub use sending::mux;
