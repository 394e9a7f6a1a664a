//! Sections out of transport packets and back: ISO/IEC 13818-1, 2.4.3 and 2.4.4.
#![tactic(auto)]

mod cutting;
mod hearer;
mod kept;
mod section_out;
mod section_packets;
mod starts;
mod step;
mod stream;
mod timed;

pub use cutting::cut;
pub use hearer::{Hearer, PidSet, only};
pub use section_form::{LongForm, MakeFault, long, long_of_right, long_section, section_ends};
pub use section_out::SectionOut;
pub use section_packets::{SectionPackets, packet_count, packets_of};
pub use timed::Timed;
