//! Where records, banks and journals stand in a flash, and what stands there in pairs of bytes.
#![tactic(auto)]

mod journal;
mod layout;
mod pairs;

pub use journal::{header_bytes, mark_bytes, slot_bytes};
pub use layout::{Shape, shape_of};
pub use pairs::{are_whole, are_zero, half, none_below, put_pairs, word};
