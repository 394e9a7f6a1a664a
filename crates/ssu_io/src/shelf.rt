//! Where files come from.
ghost use Rattle.std.specs.Prelude.{◌≡◌, ℕ, List, Option, IfOk};
ghost use Rattle.ssu_io.specs.Causes.{HasAbsence, HasFault};
ghost use Rattle.ssu_io.specs.Files.{File, Has, IsAbsentExactly};
ghost use Rattle.ssu_io.specs.declared.shelf.ShelfError.TheVariants.{Memory};

use std::alloc::{AllocError, Global};
use thiserror::Error;

/// Why a shelf gives no bytes.
#[derive(Clone, Copy, Debug, PartialEq, Eq, Error)]
pub enum ShelfError {
    /// The shelf has no file of the name.
    #[error("there is no such file")]
    Absent,
    /// The shelf failed. It counts its faults, and the count rose.
    #[error("the call failed")]
    Failed,
    /// Memory ran out.
    #[error("out of memory")]
    Memory,
}

impl From<AllocError> for ShelfError {
    ghost from_gives = { λ _ e. e ≡ Memory };

    fn from(_: AllocError) -> ShelfError {
        ShelfError::Memory
    }
}

/// Files, each with a name and bytes.
pub trait Shelf {
    /// The files that the shelf holds, or `None` where it does not tell them.
    ghost held: { Self → Option (List File) };

    /// How often a call failed: a u64 that never falls and stands still at its greatest value.
    ghost faults: { Self → ℕ };

    /// How often a call found no file of its name: a u64 of the same kind.
    ghost absences: { Self → ℕ };

    /// The bytes of the file of this name. Answers `Absent` only where the count of absences rose and, where the
    /// shelf tells its files, exactly where it has none of the name; `Failed` only where the count of faults rose;
    /// `Memory` where memory ran out.
    fn fetch(&mut self, alloc: Global, name: &str) -> Result<Vec<u8>, ShelfError>
        ensures found { IfOk result (λ bytes. Has (held self.old) name.now bytes.items) }
        ensures absent { IsAbsentExactly (held self.old) name.now result }
        // Whatever it answers, the shelf holds what it held.
        ensures unchanged { held self.new ≡ held self.old }
        ensures fault { HasFault (faults self.old) (faults self.new) result }
        ensures absence { HasAbsence (absences self.old) (absences self.new) result };
}
