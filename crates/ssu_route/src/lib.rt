//! The way to an update in a transport stream: from the sections heard to the one group that a set-top box wants now.
//! ETSI TS 102 006; ETSI EN 300 468; ETSI EN 301 192, 8.1.
#![tactic(auto)]

mod accept;
mod change;
mod choice;
mod found;
mod heap;
mod kept;
mod laws;
mod report;
mod route;

pub use box_file::{BoxFault, BoxFile, FieldName};
pub use change::Change;
pub use choice::Choice;
pub use heap::HeapRoute;
pub use laws::{changes_tell, choices_count, choices_have_messages, choices_stay, windows_grow};
pub use report::Report;
pub use route::Route;
pub use ssu_answer::Level;
