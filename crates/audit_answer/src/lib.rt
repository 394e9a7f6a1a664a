//! What comes of the audit of a carousel: how much it has, or the first fact that stands against it.
#![tactic(auto)]

mod answers;

pub use answers::{AuditNo, AuditYes};
