//! The tables on the way to an update in a transport stream: from the sections heard to the carousel of an update that a
//! set-top box may take now. ISO/IEC 13818-1; ETSI EN 300 468; ETSI TS 102 006.
#![tactic(auto)]

mod carousel;
mod clock;
mod component;
mod laws;
mod linkage;
mod notice;
mod program;
mod tables;

pub use carousel::Carousel;
pub use laws::levels_stay;
pub use tables::Tables;
