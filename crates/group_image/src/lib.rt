//! The image of a group of a software update while it is collected in memory.
#![tactic(auto)]

mod image;
mod laws;

pub use image::GroupImage;
pub use laws::{places_join_to_image, whole_image_has_all_bytes};
