//! The messages of a two-layer data carousel: ISO/IEC 13818-6, ETSI EN 301 192, 8.1.
#![tactic(auto)]

mod ddb;
mod dii;
mod dii_writer;
mod dsi;
mod dsi_writer;
mod fields;
mod group;
mod message;
mod writing;

pub use ddb::{Ddb, write_ddb};
pub use dii::{Dii, Module, Modules};
pub use dii_writer::DiiWriter;
pub use dsi::Dsi;
pub use dsi_writer::DsiWriter;
pub use group::{Group, Groups};
pub use message::message_ends;
