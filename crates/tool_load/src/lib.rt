//! The command `load`: one group out of a carousel, without a flash.
#![tactic(auto)]

mod blocks;
mod collect;
mod command;
mod deciding;
mod image;
mod laws;
mod progress;
mod put;
mod reading;
mod sums;
mod wrong;

pub use command::load;
pub use laws::{first_with_later_steps, verdict_stays};
