//! An erase or a program of one block.
ghost use Rattle.std.specs.Prelude.{◌≡◌, ◌⊎◌, ◌+◌, ◌*◌, ◌<◌, ◌≤◌, IsErr, List, ℕ, OnErr, OnOk};
ghost use Rattle.flash_dev.specs.Changes.{Changes};
ghost use Rattle.flash_dev.specs.Moments.{Elapses};
ghost use Rattle.flash_remap.specs.Change.{FindsBlank, IsDoneBy, IsTornBy, LiesInBlock, begins_at, changed_len};
ghost use Rattle.flash_remap.specs.Layout.{IsLaidOut, blocks_in};
ghost use Rattle.flash_remap.specs.Shape.{geometry};
ghost use Rattle.ssu_io.specs.Faults.{HasCause};

use crate::layout::Layout;
use flash_dev::Flash;
use ssu_io::Failed;

/// What is to be done to a block.
#[derive(Clone, Copy)]
pub(crate) enum Change<'a> {
    /// All its bytes become 255.
    Erase,
    /// 1 to 256 bytes are written from a place in the block on, over erased ones.
    Program(u32, &'a [u8]),
}

/// Does it to a block of the inner flash.
pub(crate) fn apply<F: Flash>(
    inner: &mut F,
    layout: Layout,
    block: u32,
    change: Change<'_>,
) -> Result<(), Failed>
    requires laid_out { IsLaidOut (geometry layout) }
    requires blocks { F.block_count inner.old ≡ blocks_in (geometry layout) }
    requires block_size { F.block_len inner.old ≡ layout.block_size }
    requires block { block < blocks_in (geometry layout) }
    requires inside { LiesInBlock layout.block_size change }
    requires blank { F.tells → FindsBlank layout.block_size change (F.contents inner.old) block }
    ensures done { F.tells → OnOk result (Changes (block * layout.block_size + begins_at change.entry)
        (changed_len layout.block_size change.entry) (IsDoneBy change.entry) (F.contents inner.old) (F.contents inner.new)) }
    ensures torn { F.tells → OnErr result (Changes (block * layout.block_size + begins_at change.entry)
        (changed_len layout.block_size change.entry) (IsTornBy change.entry) (F.contents inner.old) (F.contents inner.new)) }
    ensures blocks { F.block_count inner.new ≡ F.block_count inner.old }
    ensures block_size { F.block_len inner.new ≡ F.block_len inner.old }
    ensures time { Elapses (F.moment inner.old) (F.moment inner.new) (F.left_since inner.old) (F.left_since inner.new)
        (λ c. Changes (block * layout.block_size + begins_at change.entry) (changed_len layout.block_size change.entry)
        (IsTornBy change.entry) (F.contents inner.old) c ⊎ (c ≡ F.contents inner.new)) }
    ensures counts { F.tells_moments → (F.halted inner.old → ⊥) → (t : ℕ) (c : List ℕ) → t ≤ F.moment inner.old
        → Changes (block * layout.block_size + begins_at change.entry) (changed_len layout.block_size change.entry)
        (IsTornBy change.entry) (F.contents inner.old) c
        → F.left_since inner.new t c }
    ensures halt { F.halted inner.old → IsErr result × F.halted inner.new }
    ensures cause { HasCause (F.faults inner.old) (F.faults inner.new) result }
{
    match change {
        Change::Erase => inner.erase(block),
        Change::Program(at, bytes) => inner.program(layout.place(block, at), bytes),
    }
}
