//! A flash is prepared once, before its first opening.
ghost use Rattle.std.specs.Prelude.{◌≡◌, ◌↔◌, ◌-◌, ◌*◌, ◌<◌, ◌≤◌, IsErrOf, OnOk};
ghost use Rattle.flash_dev.specs.Changes.{Changes, IsErased, IsTornErase};
ghost use Rattle.flash_dev.specs.Moments.{LeavesOnly};
ghost use Rattle.ssu_io.specs.Faults.{Rose};

use crate::fault::RemapFault;
use flash_dev::Flash;

/// Erases the last block, which is the map: no spare stands for any block any more, and what spares held is lost.
/// It takes no memory.
///
/// Answers `Geometry` exactly where the flash has fewer than 6 blocks, and then changes nothing; `Flash` only where the
/// flash failed and its count of faults rose: the last block may be torn then.
pub fn prepare<F: Flash>(inner: &mut F) -> Result<(), RemapFault>
    ensures geometry { IsErrOf result RemapFault.Geometry ↔ (F.block_count inner.old < 6) }
    ensures unchanged { IsErrOf result RemapFault.Geometry → inner.new ≡ inner.old }
    ensures fault { IsErrOf result RemapFault.Flash → Rose (F.faults inner.old) (F.faults inner.new) }
    ensures faults { F.faults inner.old ≤ F.faults inner.new }
    ensures done { F.tells → OnOk result (Changes ((F.block_count inner.old - 1) * F.block_len inner.old)
        (F.block_len inner.old) IsErased (F.contents inner.old) (F.contents inner.new)) }
    ensures held { F.tells → Changes ((F.block_count inner.old - 1) * F.block_len inner.old)
        (F.block_len inner.old) IsTornErase (F.contents inner.old) (F.contents inner.new) }
    ensures left { LeavesOnly F.moment F.left_since inner.old inner.new (λ y. F.tells
        → Changes ((F.block_count inner.old - 1) * F.block_len inner.old) (F.block_len inner.old) IsTornErase (F.contents inner.old) y) }
    ensures blocks { F.block_count inner.new ≡ F.block_count inner.old }
    ensures block_size { F.block_len inner.new ≡ F.block_len inner.old }
    ensures halt { F.halted inner.old → F.halted inner.new }
{
    let blocks = inner.blocks();
    if blocks < 6 {
        return Err(RemapFault::Geometry);
    }
    match inner.erase(blocks - 1) {
        Ok(()) => Ok(()),
        Err(_) => Err(RemapFault::Flash),
    }
}
