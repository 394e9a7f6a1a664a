//! Why a group cannot be used.

/// Why a DII cannot be used, in the order in which it is looked at. An id is that of the first such module.
#[derive(Clone, Copy, Debug, PartialEq, Eq)]
pub enum Unusable {
    /// A module has a compressed_module descriptor.
    Compressed(u16),
    /// The block size is 0 or above 4,066 bytes.
    NoBlockSize,
    /// A module has more than 65,536 blocks.
    TooManyBlocks(u16),
    /// A module's id stood earlier.
    TwiceModule(u16),
    /// The modules have so many bytes together, more than the bank.
    TooLong(u64),
    /// The modules have no byte.
    Empty,
}
