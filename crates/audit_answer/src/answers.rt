//! The answers of an audit. ETSI EN 301 192, 8.1; ISO/IEC 13818-6, 7.3.

/// All receivers of some of the sections that have a group whole have one image of it.
#[derive(Clone, Copy, Debug, PartialEq, Eq)]
pub struct AuditYes {
    /// The number of groups of the DSI.
    pub groups: u16,
    /// The number of different keys of blocks that were heard, at most 65,536.
    pub blocks: u32,
}

/// Why it is refused that all receivers that have a group whole have one image of it. `SizeDiffers`, `TooManyBlocks` and
/// `NoticeApart` do not say that two of them have different images.
///
/// Sections are named by their numbers: they are counted from 0 in the order in which they are heard.
#[derive(Clone, Copy, Debug, PartialEq, Eq)]
pub enum AuditNo {
    /// Two DDBs have the same downloadId, moduleId, moduleVersion and blockNumber, and other bytes: the first that has
    /// other bytes, and the one that is heard.
    BlockDiffers(u64, u64),
    /// The message of a DSI is not that of the first DSI: the first, and the one that is heard.
    DsiDiffers(u64, u64),
    /// The message of a DII is not that of the first DII with its transactionId: the first, and the one that is heard.
    DiiDiffers(u64, u64),
    /// So many blocks with different keys were heard.
    TooManyBlocks(u32),
    /// No DSI was heard.
    NoDsi,
    /// No DII of this group was heard.
    NoDii(u32),
    /// The DII of this group cannot be used for a bank of 128 MiB.
    Unusable(u32),
    /// The DSI lists for this group a size, in bytes, that is not the total of its modules: the group, both numbers.
    SizeDiffers(u32, u32, u64),
    /// No block fills this place of this group, the first such place.
    PlaceMissing(u32, u32),
    /// In this group the module with this id, the first such, has not the CRC of its descriptor.
    BadModule(u32, u16),
    /// This section of an Update Notification Table has a platform for hardware that no group of the DSI is for.
    NoticeApart(u64),
}
