//! Whom a software update is for: the compatibility descriptor (ISO/IEC 13818-6, 6.1; ETSI TS 102
//! 006, 9.5.2), a box against it, and the rules by which a box takes what is offered.
#![tactic(auto)]

mod compat;
mod ends;
mod entry;
mod me;
mod oui;
mod plain;
mod rule;

pub use compat::{Compat, compat_at};
pub use ends::compat_ends;
pub use entry::{CompatEntries, Entry};
pub use me::BoxId;
pub use oui::Oui;
pub use plain::{Plain, write};
pub use rule::{Rule, SwId, admits};
