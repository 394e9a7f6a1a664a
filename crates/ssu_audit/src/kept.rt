//! What is kept of a section.

ghost use Rattle.std.specs.Prelude.{◌≡◌, IfOk};
ghost use Rattle.ssu_audit.specs.Kept.{kept_of};

use ssu_io::NoMemory;
use std::alloc::Global;

/// Bytes of the first section that says something, and its number.
#[derive(Drop)]
pub struct Kept {
    pub number: u64,
    pub bytes: Vec<u8>,
}

impl Kept {
    /// Keeps a copy of the bytes.
    pub(crate) fn new(alloc: Global, number: u64, bytes: &[u8]) -> Result<Kept, NoMemory>
        ensures { IfOk result (λ kept. kept_of kept ≡ (number, bytes.now)) }
    {
        let mut copy = Vec::new(alloc);
        copy.extend_from_slice(bytes)?;
        Ok(Kept {
            number,
            bytes: copy,
        })
    }
}
