//! Where a module stands.

/// A module of a group: its id, version and size, the byte of the image at which it begins, the number of blocks before
/// it, its own blocks, and the CRC of its bytes, if a descriptor gives it.
#[derive(Clone, Copy, Debug, PartialEq, Eq, Default)]
pub struct ModulePlan {
    pub id: u16,
    pub version: u8,
    pub size: u32,
    pub at: u32,
    pub first: u32,
    pub blocks: u32,
    pub crc: Option<u32>,
}
