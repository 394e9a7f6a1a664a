//! Broadcast time: days and seconds in UTC, their five bytes and their text, and windows of time.
#![tactic(auto)]

mod civil_time;
mod utc_field;
mod utc_time;
mod windows;

pub use civil_time::civil;
pub use utc_field::utc_at;
pub use utc_time::{Utc, read_utc, write_utc};
pub use windows::Window;
