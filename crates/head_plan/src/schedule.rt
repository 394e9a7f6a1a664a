//! When an update may be taken.
use ssu_time::Utc;

/// When the boxes may take the update.
#[derive(Clone, Copy, Debug, PartialEq, Eq)]
pub struct Schedule {
    pub start: Utc,
    pub end: Utc,
    /// The hours from one window to the next; 0 for a single window from `start` to `end`.
    pub period_hours: u8,
    /// The hours of each window.
    pub duration_hours: u8,
}
