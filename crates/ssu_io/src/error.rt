//! The errors of the outside and of memory.
ghost use Rattle.std.specs.Prelude.{◌≡◌};
ghost use Rattle.ssu_io.specs.Errors.{no_memory};

use std::alloc::{AllocError, AllocFailed};
use thiserror::Error;

/// An object of the outside failed. It counts its faults, and the count rose.
#[derive(Clone, Copy, Debug, PartialEq, Eq, Error)]
#[error("the call failed")]
pub struct Failed;

/// Memory ran out.
#[derive(Clone, Copy, Debug, PartialEq, Eq, Error)]
#[error("out of memory")]
pub struct NoMemory;

impl From<AllocError> for NoMemory {
    ghost from_gives = { λ _ e. e ≡ no_memory };

    fn from(_: AllocError) -> NoMemory {
        NoMemory
    }
}

impl<T: Drop> From<AllocFailed<T>> for NoMemory {
    ghost from_gives = { λ _ e. e ≡ no_memory };

    fn from(_: AllocFailed<T>) -> NoMemory {
        NoMemory
    }
}
