//! What was found at each level.

use ts_packet::Pid;

/// What is known at each level.
#[derive(Clone, Copy, Debug, PartialEq, Eq)]
pub struct Report {
    /// The number of services, at most 16.
    pub services: u8,
    /// The number of the service that was found, and the PID of its PMT.
    pub program: Option<(u16, Pid)>,
    /// The PID of the stream that tells of the update, and its update type.
    pub component: Option<(Pid, u8)>,
    /// The number of entries for the box, at most 32.
    pub notices: u8,
    /// The PID of the carousel.
    pub carousel: Option<Pid>,
    /// The number of groups that the box accepts, at most 32.
    pub groups: u8,
    /// The number of modules of the wanted group, and the bytes that they have together.
    pub modules: Option<(u16, u32)>,
}
