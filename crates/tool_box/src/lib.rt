//! The files of a command: a file of the folder by its name, and the box of `box.toml`, with the status of a command
//! where it is not had.
#![tactic(auto)]

mod box_text;
mod fetching;

pub use box_text::read_box;
pub use fetching::fetch;
