//! MPEG-2 transport packets: what a usable packet carries, and the packet that carries a payload.
//!
//! ISO/IEC 13818-1, 2.4.3.2 and 2.4.3.3.
#![tactic(auto)]

mod packet;
mod pid;
mod writing;

pub use packet::{PACKET_LEN, Packet, View, pid_of, read};
pub use pid::Pid;
pub use writing::write;
