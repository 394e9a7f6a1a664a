//! The packets of a source, one by one, up to the greatest number that a run takes.
#![tactic(auto)]

mod fill;
mod input;

pub use input::{Ended, MAX_PACKETS, PacketInput};
