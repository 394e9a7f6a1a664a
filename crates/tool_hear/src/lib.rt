//! The command `hear`: the sections of one PID.
#![tactic(auto)]

mod hearing;

pub use hearing::hear;
