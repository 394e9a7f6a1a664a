//! Tests of `replay`, of the top call, and of the names that callers use.
#![tactic(auto)]

#[cfg(test)]
mod broadcast_tests;
#[cfg(test)]
mod check;
#[cfg(test)]
mod commands;
#[cfg(test)]
mod night_tests;
#[cfg(test)]
pub mod public_names;
#[cfg(test)]
mod resume_tests;
#[cfg(test)]
mod run_spared_tests;
#[cfg(test)]
mod ssu_tool_tests;
#[cfg(test)]
mod stored_blocks_tests;
#[cfg(test)]
mod sweep_tests;
#[cfg(test)]
mod tool_replay_tests;
