//! A section of a carousel with its PID and the period in which it is sent again.
use std::marker::Model;
use ts_packet::Pid;

/// A section to be sent on its PID once in `period` turns. A contract sees it as its PID, its period and its list of
/// bytes.
#[derive(Drop)]
pub struct Timed {
    /// Where it is sent.
    pub pid: Pid,
    /// After how many turns it is due again.
    pub period: u32,
    /// The whole section.
    pub bytes: Vec<u8>,
}

impl Model for Timed {
    ghost use Rattle.ts_section.specs.TimedSection.{TimedSection};

    ghost Value = { TimedSection };

    ghost view = { λ t. record { pid = t.pid; period = t.period; bytes = t.bytes.items } };
}
