//! A change of one logical block: it goes to the block that stands for it, and where that fails to a spare.
ghost use Rattle.std.specs.Prelude.{◌≡◌, ◌≢◌, ◌⊎◌, ◌+◌, ◌-◌, ◌*◌, ◌^◌, ◌<◌, ◌≤◌, IfOk, IfSome, IsErr, List};
ghost use Rattle.std.specs.Prelude.{MatchOption, OnErr, OnOk, length, ℕ};
ghost use Rattle.flash_dev.specs.Changes.{Changes};
ghost use Rattle.flash_dev.specs.Moments.{Elapses, LeavesOnly};
ghost use Rattle.flash_remap.specs.Added.{AddsFor};
ghost use Rattle.flash_remap.specs.Change.{AreBytes, FindsBlank, IsDoneBy, IsTornBy, LiesInBlock, begins_at, changed_len};
ghost use Rattle.flash_remap.specs.Layout.{IsLaidOut, blocks_in, left_from, slots_in, spare_block};
ghost use Rattle.flash_remap.specs.Logical.{IsLeft, logical};
ghost use Rattle.flash_remap.specs.Map.{AreNext, next_spare, place_of};
ghost use Rattle.flash_remap.specs.Replaced.{IsBlankFrom};
ghost use Rattle.flash_remap.specs.Shape.{geometry};
ghost use Rattle.ssu_io.specs.Faults.{Rose};

use crate::change::{Change, apply};
use crate::entry::Entry;
use crate::layout::{Layout, Next};
use crate::replace::replace;
use flash_dev::Flash;
use ssu_io::Failed;

/// Changes a logical block that stands at the block `from`. Where that fails, spares are tried; the answer is the entry of the one
/// that stands for it then. `Failed` comes where none was left.
pub(crate) fn change_block<F: Flash>(
    inner: &mut F,
    layout: Layout,
    next: &mut Next,
    block: u16,
    from: u32,
    change: Change<'_>,
) -> Result<Option<Entry>, Failed>
    requires laid_out { IsLaidOut (geometry layout) }
    requires blocks { F.block_count inner.old ≡ blocks_in (geometry layout) }
    requires block_size { F.block_len inner.old ≡ layout.block_size }
    requires whole { F.tells → length (F.contents inner.old) ≡ F.block_count inner.old * F.block_len inner.old }
    requires spare { next.old.spare ≤ layout.spares }
    requires slot { next.old.slot ≤ slots_in (geometry layout) }
    requires block { block < layout.logical }
    requires from { from < spare_block (geometry layout) next.old.spare }
    requires inside { LiesInBlock layout.block_size change }
    requires bytes { AreBytes change }
    requires stands { F.tells → place_of (geometry layout) (F.contents inner.old) block ≡ from }
    requires finds { F.tells → FindsBlank layout.block_size change (F.contents inner.old) from }
    requires next { F.tells → AreNext (geometry layout) (F.contents inner.old) next.old.spare next.old.slot }
    requires blank { F.tells → IsBlankFrom (geometry layout) (F.contents inner.old) next.old.slot }
    requires below { F.tells → next_spare (geometry layout) (F.contents inner.old) ≤ next.old.spare }

    // The logical contents.
    ensures done { F.tells → OnOk result (Changes (block * layout.block_size + begins_at change.entry)
        (changed_len layout.block_size change.entry) (IsDoneBy change.entry)
        (logical (geometry layout) (F.contents inner.old)) (logical (geometry layout) (F.contents inner.new))) }
    ensures torn { F.tells → Changes (block * layout.block_size + begins_at change.entry)
        (changed_len layout.block_size change.entry) (IsTornBy change.entry)
        (logical (geometry layout) (F.contents inner.old)) (logical (geometry layout) (F.contents inner.new)) }
    ensures time { Elapses (F.moment inner.old) (F.moment inner.new) (IsLeft F.Flash (geometry layout) inner.old)
        (IsLeft F.Flash (geometry layout) inner.new) (Changes (block * layout.block_size + begins_at change.entry)
        (changed_len layout.block_size change.entry) (IsTornBy change.entry) (logical (geometry layout) (F.contents inner.old))) }
    ensures counts { F.tells → F.tells_moments → (F.halted inner.old → ⊥) → (t : ℕ) (c : List ℕ) → t ≤ F.moment inner.old
        → Changes (block * layout.block_size + begins_at change.entry) (changed_len layout.block_size change.entry)
        (IsTornBy change.entry) (logical (geometry layout) (F.contents inner.old)) c
        → IsLeft F.Flash (geometry layout) inner.new t c }

    // The map, and what is next.
    ensures others { F.tells → (other : ℕ) → other ≢ block
        → place_of (geometry layout) (F.contents inner.new) other ≡ place_of (geometry layout) (F.contents inner.old) other }
    ensures stands { F.tells → IfOk result (λ moved. MatchOption moved
        (place_of (geometry layout) (F.contents inner.new) block ≡ from)
        (λ entry. place_of (geometry layout) (F.contents inner.new) block ≡ spare_block (geometry layout) entry.spare)) }
    ensures entry { IfOk result (λ moved. IfSome moved (λ entry. (entry.block ≡ block)
        × ((entry.spare + 1 ≡ next.new.spare) × (next.old.spare ≤ entry.spare)))) }
    ensures next { F.tells → OnOk result (AreNext (geometry layout) (F.contents inner.new) next.new.spare next.new.slot) }
    ensures whole { F.tells → length (F.contents inner.new) ≡ F.block_count inner.new * F.block_len inner.new }
    ensures spare { next.old.spare ≤ next.new.spare }
    ensures most_spare { next.new.spare ≤ layout.spares }
    ensures slot { next.old.slot ≤ next.new.slot }
    ensures most_slot { next.new.slot ≤ slots_in (geometry layout) }
    ensures used { IfOk result (λ moved. MatchOption moved (next.new ≡ next.old) (λ entry. next.old.slot + 1 ≤ next.new.slot)) }
    ensures adds { F.tells → AddsFor (geometry layout) block (F.contents inner.old) (F.contents inner.new) }
    ensures adds_left { LeavesOnly F.moment F.left_since inner.old inner.new
        (λ y. F.tells → AddsFor (geometry layout) block (F.contents inner.old) y) }

    // Its causes.
    ensures none_left { OnErr result (left_from (geometry layout) next.new.spare next.new.slot ≡ 0) }
    ensures rose { OnErr result (Rose (F.faults inner.old) (F.faults inner.new)) }
    ensures uses { (2 ^ 64 ≤ F.faults inner.new + 1)
        ⊎ (left_from (geometry layout) next.old.spare next.old.slot + F.faults inner.old
        ≤ left_from (geometry layout) next.new.spare next.new.slot + F.faults inner.new) }
    ensures counted { (2 ^ 64 ≤ F.faults inner.new + 1)
        ⊎ (F.faults inner.old + next.new.spare ≤ F.faults inner.new + next.old.spare) }
    ensures tried { OnErr result ((2 ^ 64 ≤ F.faults inner.new + 1)
        ⊎ (left_from (geometry layout) next.old.spare next.old.slot + 1 + F.faults inner.old ≤ F.faults inner.new)) }
    ensures rose_moved { IfOk result (λ moved. IfSome moved (λ entry. Rose (F.faults inner.old) (F.faults inner.new))) }
    ensures later { F.faults inner.old ≤ F.faults inner.new }
    ensures blocks { F.block_count inner.new ≡ F.block_count inner.old }
    ensures block_size { F.block_len inner.new ≡ F.block_len inner.old }
    ensures halt { F.halted inner.old → IsErr result × F.halted inner.new }
{
    if apply(inner, layout, from, change).is_ok() {
        return Ok(None);
    }
    match replace(inner, layout, next, block, from, change) {
        Ok(entry) => Ok(Some(entry)),
        Err(_) => Err(Failed),
    }
}
