//! The command `audit`: whether all receivers of a stream that have a group of its carousel whole have one image of it.
#![tactic(auto)]

mod command;
mod hearing;
mod telling;

pub use command::audit;
