//! The group that was chosen.

use ssu_compat::SwId;

/// A group of a carousel, the software that it offers, and how many bytes its image has.
#[derive(Clone, Copy, Debug, PartialEq, Eq)]
pub struct Chosen {
    /// The id of the group.
    pub group: u32,
    /// The software that it offers; model 0 and version 0 where it names none.
    pub software: SwId,
    /// The length of the image.
    pub bytes: u32,
}
