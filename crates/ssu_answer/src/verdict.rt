//! What comes of the packets of a carousel.

use crate::{Chosen, Level};

/// What comes of the packets that were taken.
#[derive(Clone, Copy, Debug, PartialEq, Eq)]
pub enum Verdict {
    /// The group was carried whole. Of a replay: and boot takes its image from now on.
    Installed(Chosen),
    /// No group was chosen at the end: the first level that has no value.
    Nothing(Level),
    /// So many places of the group that stood at the end were not filled.
    Incomplete(Chosen, u32),
    /// All places were filled, and this module has not the CRC that it should have: its id, the CRC of its descriptor and
    /// the CRC of its bytes.
    BadModule(u16, u32, u32),
    /// More than sixteen choices began.
    Unsettled,
}
