//! A copy of bytes from one place of a flash to another.
ghost use Rattle.std.specs.Prelude.{◌≡◌, ◌⊎◌, ◌+◌, ◌*◌, ◌^◌, ◌<◌, ◌≤◌, length, slice_index, OnOk};
ghost use Rattle.flash_dev.specs.Changes.{Changes, IsBlank, LiesInOneBlock};
ghost use Rattle.flash_dev.specs.Moments.{LeavesOnly};
ghost use Rattle.flash_remap.specs.Replaced.{Anything};
ghost use Rattle.ssu_io.specs.Faults.{HasCause};

use flash_dev::Flash;
use ssu_io::Failed;

/// The most bytes that are copied at once.
const PIECE: usize = 256;

/// Copies bytes from one place to another, piece by piece. Both lie apart, and where they go all is erased.
pub(crate) fn copy<F: Flash>(inner: &mut F, from: u32, to: u32, len: u32) -> Result<(), Failed>
    requires addressable { F.block_count inner.old * F.block_len inner.old < 2 ^ 32 }
    requires from { from + len ≤ F.block_count inner.old * F.block_len inner.old }
    requires to { to + len ≤ F.block_count inner.old * F.block_len inner.old }
    requires apart { (from + len ≤ to) ⊎ (to + len ≤ from) }
    requires one_block { LiesInOneBlock (F.block_len inner.old) to len }
    requires blank { F.tells → IsBlank (F.contents inner.old) to len }
    ensures done { F.tells → OnOk result (Changes to len
        (λ k before after. after ≡ slice_index (F.contents inner.old) (from + k)) (F.contents inner.old) (F.contents inner.new)) }
    ensures held { F.tells → Changes to len Anything (F.contents inner.old) (F.contents inner.new) }
    ensures left { LeavesOnly F.moment F.left_since inner.old inner.new
        (λ y. F.tells → Changes to len Anything (F.contents inner.old) y) }
    ensures blocks { F.block_count inner.new ≡ F.block_count inner.old }
    ensures block_size { F.block_len inner.new ≡ F.block_len inner.old }
    ensures halt { F.halted inner.old → F.halted inner.new }
    ensures cause { HasCause (F.faults inner.old) (F.faults inner.new) result }
{
    let mut done = 0u32;
    while done < len {
        let n = (len - done).min(PIECE as u32);
        copy_some(inner, from + done, to + done, n)?;
        done += n;
    }
    Ok(())
}

/// Copies 1 to 256 bytes.
fn copy_some<F: Flash>(inner: &mut F, from: u32, to: u32, len: u32) -> Result<(), Failed>
    requires some { 1 ≤ len }
    requires few { len ≤ 256 }
    requires from { from + len ≤ F.block_count inner.old * F.block_len inner.old }
    requires to { to + len ≤ F.block_count inner.old * F.block_len inner.old }
    requires one_block { LiesInOneBlock (F.block_len inner.old) to len }
    requires blank { F.tells → IsBlank (F.contents inner.old) to len }
    ensures done { F.tells → OnOk result (Changes to len
        (λ k before after. after ≡ slice_index (F.contents inner.old) (from + k)) (F.contents inner.old) (F.contents inner.new)) }
    ensures held { F.tells → Changes to len Anything (F.contents inner.old) (F.contents inner.new) }
    ensures left { LeavesOnly F.moment F.left_since inner.old inner.new
        (λ y. F.tells → Changes to len Anything (F.contents inner.old) y) }
    ensures blocks { F.block_count inner.new ≡ F.block_count inner.old }
    ensures block_size { F.block_len inner.new ≡ F.block_len inner.old }
    ensures halt { F.halted inner.old → F.halted inner.new }
    ensures cause { HasCause (F.faults inner.old) (F.faults inner.new) result }
{
    let mut buf = [0u8; PIECE];
    copy_piece(inner, from, to, len, &mut buf[..len as usize])
}

/// Copies as many bytes as there is room for.
fn copy_piece<F: Flash>(
    inner: &mut F,
    from: u32,
    to: u32,
    len: u32,
    piece: &mut [u8],
) -> Result<(), Failed>
    requires room { length piece.old ≡ len }
    requires some { 1 ≤ len }
    requires few { len ≤ 256 }
    requires from { from + len ≤ F.block_count inner.old * F.block_len inner.old }
    requires to { to + len ≤ F.block_count inner.old * F.block_len inner.old }
    requires one_block { LiesInOneBlock (F.block_len inner.old) to len }
    requires blank { F.tells → IsBlank (F.contents inner.old) to len }
    ensures done { F.tells → OnOk result (Changes to len
        (λ k before after. after ≡ slice_index (F.contents inner.old) (from + k)) (F.contents inner.old) (F.contents inner.new)) }
    ensures held { F.tells → Changes to len Anything (F.contents inner.old) (F.contents inner.new) }
    ensures left { LeavesOnly F.moment F.left_since inner.old inner.new
        (λ y. F.tells → Changes to len Anything (F.contents inner.old) y) }
    ensures blocks { F.block_count inner.new ≡ F.block_count inner.old }
    ensures block_size { F.block_len inner.new ≡ F.block_len inner.old }
    ensures halt { F.halted inner.old → F.halted inner.new }
    ensures cause { HasCause (F.faults inner.old) (F.faults inner.new) result }
{
    inner.read(from, piece)?;
    inner.program(to, piece)
}
