//! Why the sending stopped.

ghost use Rattle.std.specs.Prelude.{◌≡◌};

use ssu_io::{Failed, NoMemory};
use std::error::Error;
use std::fmt;

/// Why not all packets of the turns were sent.
#[derive(Clone, Copy, Debug, PartialEq, Eq)]
pub enum MuxFault {
    /// The sink failed, and its count of faults rose. It got a prefix of the packets.
    WriteFault,
    /// Memory ran out before the first packet. The sink is unchanged.
    Memory,
}

impl fmt::Display for MuxFault {
    fn fmt<W: fmt::Write>(&self, f: &mut fmt::Formatter<W>) -> fmt::Result {
        match self {
            MuxFault::WriteFault => write!(f, "the packets could not be written"),
            MuxFault::Memory => write!(f, "out of memory"),
        }
    }
}

impl Error for MuxFault {}

impl From<NoMemory> for MuxFault {
    ghost use Rattle.head_mux.specs.declared.fault.MuxFault.TheVariants.{Memory};

    ghost from_gives = { λ _ e. e ≡ Memory };

    fn from(_: NoMemory) -> MuxFault {
        MuxFault::Memory
    }
}

impl From<Failed> for MuxFault {
    ghost use Rattle.head_mux.specs.declared.fault.MuxFault.TheVariants.{WriteFault};

    ghost from_gives = { λ _ e. e ≡ WriteFault };

    fn from(_: Failed) -> MuxFault {
        MuxFault::WriteFault
    }
}
