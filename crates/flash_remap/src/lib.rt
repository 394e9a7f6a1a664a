//! A flash over a flash that replaces failing blocks by spares.
#![tactic(auto)]

mod block_change;
mod change;
mod copy;
mod entry;
mod fault;
mod layout;
mod map;
mod preparing;
mod read;
mod remap;
mod replace;

pub use fault::RemapFault;
pub use preparing::prepare;
pub use remap::Remap;
