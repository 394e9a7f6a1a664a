//! The lines that the commands print, as functions of what they tell.
#![tactic(auto)]

mod audit_lines;
mod level_lines;
mod result_lines;
mod section_line;
mod time_text;
mod writing;

pub use audit_lines::{audit_ok, audit_refused};
pub use level_lines::{carousel, component, groups, modules, notices, program, services};
pub use result_lines::{
    aired, already, bad_module, blank, booted, built, formatted, incomplete, installed, loaded,
    migrated, nothing, sampled, unsettled, verdict,
};
pub use section_line::shown;
pub use writing::Line;
