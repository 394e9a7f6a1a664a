//! Reads of the logical contents.
ghost use Rattle.std.specs.Prelude.{◌≡◌, ◌+◌, ◌*◌, ◌<◌, ◌≤◌, IfOk, OnOk, true, length, take, ℕ};
ghost use Rattle.flash_dev.specs.Changes.{Holds};
ghost use Rattle.flash_remap.specs.Layout.{IsLaidOut, blocks_in};
ghost use Rattle.flash_remap.specs.Logical.{logical};
ghost use Rattle.flash_remap.specs.Map.{are_below, place_among, place_of};
ghost use Rattle.flash_remap.specs.Reads.{ChangesNothing};
ghost use Rattle.flash_remap.specs.Shape.{geometry};
ghost use Rattle.ssu_io.specs.Faults.{HasCause};

use crate::entry::Entry;
use crate::layout::Layout;
use crate::map::place_among;
use flash_dev::Flash;
use ssu_io::Failed;

/// Reads bytes of the logical contents, block by block from the blocks that stand for them.
pub(crate) fn read_logical<F: Flash>(
    inner: &mut F,
    layout: Layout,
    entries: &[Entry],
    at: u32,
    buf: &mut [u8],
) -> Result<(), Failed>
    requires laid_out { IsLaidOut (geometry layout) }
    requires blocks { F.block_count inner.old ≡ blocks_in (geometry layout) }
    requires block_size { F.block_len inner.old ≡ layout.block_size }
    requires below { are_below entries.now layout.spares ≡ true }
    requires inside { at + length buf.old ≤ layout.logical * layout.block_size }
    requires stands { F.tells → (block : ℕ) → block < layout.logical
        → place_among (geometry layout) entries.now block ≡ place_of (geometry layout) (F.contents inner.old) block }
    ensures bytes { F.tells → OnOk result (Holds (logical (geometry layout) (F.contents inner.old)) at buf.new) }
    ensures reads { ChangesNothing F.Flash inner.old inner.new }
    ensures cause { HasCause (F.faults inner.old) (F.faults inner.new) result }
{
    let mut done = 0;
    while done < buf.len() {
        let n = read_piece(inner, layout, entries, at + done as u32, &mut buf[done..])?;
        done += n;
    }
    Ok(())
}

/// Reads bytes up to the end of a logical block at most, and answers how many.
fn read_piece<F: Flash>(
    inner: &mut F,
    layout: Layout,
    entries: &[Entry],
    at: u32,
    buf: &mut [u8],
) -> Result<usize, Failed>
    requires laid_out { IsLaidOut (geometry layout) }
    requires blocks { F.block_count inner.old ≡ blocks_in (geometry layout) }
    requires block_size { F.block_len inner.old ≡ layout.block_size }
    requires below { are_below entries.now layout.spares ≡ true }
    requires some { 1 ≤ length buf.old }
    requires inside { at + length buf.old ≤ layout.logical * layout.block_size }
    requires stands { F.tells → (block : ℕ) → block < layout.logical
        → place_among (geometry layout) entries.now block ≡ place_of (geometry layout) (F.contents inner.old) block }
    ensures more { IfOk result (λ n. 1 ≤ n) }
    ensures fits { IfOk result (λ n. n ≤ length buf.new) }
    ensures bytes { F.tells → IfOk result (λ n. Holds (logical (geometry layout) (F.contents inner.old)) at (take n buf.new)) }
    ensures reads { ChangesNothing F.Flash inner.old inner.new }
    ensures cause { HasCause (F.faults inner.old) (F.faults inner.new) result }
{
    let (block, within) = layout.parts(at);
    let n = buf.len().min((layout.block_size - within) as usize);
    let place = layout.place(place_among(layout, entries, block), within);
    inner.read(place, &mut buf[..n])?;
    Ok(n)
}
