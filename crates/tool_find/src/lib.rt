//! The commands `find` and `show`: the way to an update for a box, and each section that is heard on it.
#![tactic(auto)]

mod commands;
mod lines;
mod walk;
mod walking;

pub use commands::{find, show};
