//! The sections of a plan: the tables that lead to its carousel, and the carousel.
#![tactic(auto)]

mod blocks;
mod carousel;
mod control;
mod counting;
mod group_files;
mod listing;
mod networks;
mod notices;
mod programs;

pub use carousel::sections;
pub use ssu_answer::BuildFault;
pub use ts_section::Timed;
