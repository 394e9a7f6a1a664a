//! Update Notification Table: ETSI TS 102 006, 9.4. Which updates are announced for a box, and when.
#![tactic(auto)]

mod announcing;
mod descriptors;
mod entry;
mod rows;
mod table;
mod targeting;
mod writing;

pub use announcing::{put_scheduling, put_ssu_location, put_ssu_subgroup, put_update};
pub use entry::UntEntry;
pub use rows::{Pair, Pairs, Platform, Platforms};
pub use table::Unt;
pub use writing::UntWriter;
