//! Formats as values, with the readers and writers of their fields.
//!
//! A table is written down once, in specs/, as a value made of combinators in the order of the wire
//! (specs/Format.antt). Its reader and its writer are proved against that value.
#![tactic(auto)]

mod fields;
mod items;
mod puts;

pub use fields::{length_at, raw_at, u8_at, u16_at, u24_at, u32_at, u40_at, u48_at};
pub use items::{Item, Items};
pub use puts::{put_length, put_u8, put_u16, put_u24, put_u32, put_u40, put_u48};
