//! Why a section could not be made.

ghost use Rattle.std.specs.Prelude.{◌≡◌};
ghost use Rattle.section_form.specs.declared.fault.MakeFault.TheVariants.{Memory};

use ssu_io::NoMemory;
use std::alloc::{AllocError, AllocFailed};
use thiserror::Error;

/// Why a writer of a section refused. The writer is then unchanged.
#[derive(Clone, Copy, Debug, PartialEq, Eq, Error)]
pub enum MakeFault {
    /// section_length would pass its greatest value.
    #[error("the section would be too long")]
    TooLong,
    /// Memory ran out.
    #[error("out of memory")]
    Memory,
}

impl From<NoMemory> for MakeFault {
    ghost from_gives = { λ _ e. e ≡ Memory };

    fn from(_: NoMemory) -> MakeFault {
        MakeFault::Memory
    }
}

impl From<AllocError> for MakeFault {
    ghost from_gives = { λ _ e. e ≡ Memory };

    fn from(_: AllocError) -> MakeFault {
        MakeFault::Memory
    }
}

impl<T: Drop> From<AllocFailed<T>> for MakeFault {
    ghost from_gives = { λ _ e. e ≡ Memory };

    fn from(_: AllocFailed<T>) -> MakeFault {
        MakeFault::Memory
    }
}
