//! The command `air`: the packets of a stream through the script of `script.toml`.
#![tactic(auto)]

mod airing;
mod script_text;

pub use airing::air;
