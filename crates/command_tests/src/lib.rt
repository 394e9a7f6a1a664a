//! Tests of the commands but `replay`, and of the audit behind one of them.
#![tactic(auto)]

#[cfg(test)]
mod check;
#[cfg(test)]
mod messages;
#[cfg(test)]
mod tool_air_tests;
#[cfg(test)]
mod tool_audit_tests;
#[cfg(test)]
mod tool_build_tests;
#[cfg(test)]
mod tool_find_tests;
#[cfg(test)]
mod tool_flash_tests;
#[cfg(test)]
mod tool_hear_tests;
#[cfg(test)]
mod tool_load_tests;
#[cfg(test)]
mod tool_migrate_tests;
