//! Why nothing comes of a broadcast.

use flash_bank::BootFault;
use ssu_answer::BuildFault;
use ssu_loader::LoadFault;
use thiserror::Error;

/// Why nothing came of a broadcast.
#[derive(Clone, Copy, Debug, PartialEq, Eq, Error)]
pub enum ChainFault {
    /// The sections of the plan were not built.
    #[error("the plan was not built")]
    Build(BuildFault),
    /// The packets came to no verdict, or were too many.
    #[error("the packets were not replayed")]
    Load(LoadFault),
    /// Boot took nothing.
    #[error("nothing was booted")]
    Boot(BootFault),
    /// Memory ran out, wherever that was.
    #[error("out of memory")]
    Memory,
}
