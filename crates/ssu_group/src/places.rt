//! The place of a block.

/// A place of the image: its number, counted over all modules, the byte at which it begins, and its bytes.
#[derive(Clone, Copy, Debug, PartialEq, Eq)]
pub struct Place {
    pub number: u32,
    pub at: u32,
    pub len: u16,
}
