//! The command `replay`: the packets of a transport stream to the loader of the box in `box.toml`.
#![tactic(auto)]

mod command;

pub use command::replay;
