//! The tables that lead to a software update: PAT and PMT (ISO/IEC 13818-1, 2.4.4), NIT, BAT, TDT and TOT (ETSI EN 300
//! 468, 5.2), read and written.
#![tactic(auto)]

mod fields;
mod net;
mod pat;
mod pmt;
mod pmt_writer;
mod times;
mod writing;

pub use net::{Entries, Net, NetEntry};
pub use pat::{Pat, Program, Programs};
pub use pmt::{Pmt, Stream, Streams};
pub use pmt_writer::PmtWriter;
pub use times::{Tdt, Tot};
pub use writing::{write_net, write_pat, write_tdt, write_tot};
