//! What boot takes of a flash, in memory.
ghost use Rattle.std.specs.Prelude.{◌↔◌, ◌≤◌, IfOk, IsErrOf};
ghost use Rattle.flash_layout.specs.Layout.{IsInLimits, blocks_of};
ghost use Rattle.flash_bank.specs.Runs.{OnlyReads};
ghost use Rattle.flash_bank.specs.Sound.{BootOf, IsSound};
ghost use Rattle.ssu_io.specs.Faults.{Rose};

use flash_bank::{BootFault, Record, boot};
use flash_dev::Flash;
use ssu_io::MemSink;
use std::alloc::Global;

/// The record and the image that boot takes. `Write` is want of memory.
pub(crate) fn booted<F: Flash>(alloc: Global, flash: &mut F) -> Result<(Record, Vec<u8>), BootFault>
    ensures whole { F.tells → IfOk result (λ taken. BootOf (blocks_of F.Flash flash.old) (F.contents flash.old)
        (record { head = taken.0; image = taken.1.items })) }
    ensures geometry { IsErrOf result BootFault.Geometry ↔ (IsInLimits (blocks_of F.Flash flash.old) → ⊥) }
    ensures foreign { F.tells → IsErrOf result BootFault.Foreign → IsSound (blocks_of F.Flash flash.old) (F.contents flash.old) → ⊥ }
    ensures fault { IsErrOf result BootFault.Flash → Rose (F.faults flash.old) (F.faults flash.new) }
    ensures reads { OnlyReads F.tells F.contents F.block_count F.block_len F.moment F.left_since flash.old flash.new }
    ensures faults { F.faults flash.old ≤ F.faults flash.new }
{
    let mut sink = MemSink::new(alloc, Vec::new(alloc));
    match boot(flash, &mut sink) {
        Ok(record) => Ok((record, sink.into_bytes())),
        Err(fault) => Err(fault),
    }
}
