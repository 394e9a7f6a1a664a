//! The command `sample`: a broadcast that is made of a number, replayed to a flash in memory.
#![tactic(auto)]

mod flash;
mod modules;
mod plan;
mod sampling;

pub use sampling::sample;
