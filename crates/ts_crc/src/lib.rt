//! CRC_32 of MPEG-2 sections: ISO/IEC 13818-1, annex A.
//!
//! Polynomial 0x04C11DB7, start value 0xFFFFFFFF, highest bit first, no reflection and no exclusive or at the end.
#![tactic(auto)]

mod later_tables;
mod register;
mod steps;
mod tables;

pub use register::{Register, crc};
