//! What comes of a broadcast.

use flash_bank::Record;
use ssu_loader::Verdict;

/// What came of a broadcast to a box.
#[derive(Debug, Drop)]
pub struct Outcome {
    /// The verdict of the loader on the packets.
    pub verdict: Verdict,
    /// The record that boot takes then.
    pub booted: Record,
    /// The image that boot takes then.
    pub image: Vec<u8>,
}
