//! What a section is, beside what a transport stream makes of it.
//!
//! ISO/IEC 13818-1, 2.4.4.10 and 2.4.4.11; ETSI EN 300 468, 5.2.5 and 5.2.6.
#![tactic(auto)]

mod fault;
mod reading;
mod right;
mod writing;

pub use fault::MakeFault;
pub use reading::{LongForm, long, long_of_right};
pub use right::{is_right, section_ends};
pub use writing::{long_section, table_section};
