//! What a section is: the table or the message whose reader accepts it.
#![tactic(auto)]

mod by_table;
mod readers;
mod section_kinds;

pub use by_table::kind;
pub use section_kinds::SectionKind;
