//! The commands of a flash: a blank one, a formatted one, the image that boot takes, and the change of its layout.
#![tactic(auto)]

mod blanking;
mod booting;
mod formatting;
mod migrating;
mod printing;

pub use blanking::blank;
pub use booting::boot;
pub use formatting::format;
pub use migrating::migrate;
