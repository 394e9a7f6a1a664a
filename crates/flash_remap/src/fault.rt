//! Why a flash is not prepared, or not opened.

use thiserror::Error;

/// Why a flash is not prepared, or not opened.
#[derive(Clone, Copy, Debug, PartialEq, Eq, Error)]
pub enum RemapFault {
    /// The number of blocks or of spares is out of the limits.
    #[error("the flash has a wrong geometry")]
    Geometry,

    /// The flash failed.
    #[error("the flash failed")]
    Flash,
}
