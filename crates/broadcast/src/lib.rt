//! A whole broadcast in memory: the packets of a plan go through a script to a box, which then boots.
#![tactic(auto)]

mod aired;
mod booting;
mod chain;
mod fault;
mod held;
mod outcome;
mod ranges;

pub use chain::broadcast_then_boot;
pub use fault::ChainFault;
pub use outcome::Outcome;
