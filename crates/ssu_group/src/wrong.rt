//! A module that has not the CRC that it should have.

/// A module with the CRC of its descriptor and the CRC of its bytes, which differ.
#[derive(Clone, Copy, Debug, PartialEq, Eq)]
pub struct Wrong {
    /// moduleId
    pub id: u16,
    /// The CRC that its descriptor gives.
    pub want: u32,
    /// The CRC of its bytes.
    pub found: u32,
}
