//! Why a broadcast is not built.

use ssu_io::FileName;

/// Why the sections of a plan are not made.
#[derive(Clone, Copy, Debug, PartialEq, Eq)]
pub enum BuildFault {
    /// The file needs more than 65,536 blocks, the first such file of the plan.
    ImageTooLong(FileName),
    /// All sections are so many, which is more than 65,536.
    TooManySections(u64),
    /// Memory ran out.
    Memory,
}
