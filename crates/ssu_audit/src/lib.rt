//! A check of the sections of one carousel: whether all receivers that hear some of them, in whatever order, and have a group
//! whole by those, have the same image of it. ETSI TS 102 006; ETSI EN 301 192, 8.1; ISO/IEC 13818-6, 7.3.
#![tactic(auto)]

mod against;
mod audit;
mod blocks;
mod control;
mod ending;
mod filled;
mod hardware;
mod kept;
mod key;
mod laws;
mod notices;
mod reading;

pub use audit::Audit;
pub use audit_answer::{AuditNo, AuditYes};
pub use laws::{answers_are_one, yes_means_one_image};
