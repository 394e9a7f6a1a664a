//! One block after another of the spares is tried for a block that fails.
//!
//! An attempt erases the spare, fills it where a program asks for it, and writes the entry last. Until the entry is whole
//! nothing of this shows in the logical contents; once it is, the spare holds what the block was to hold.
ghost use Rattle.std.specs.Prelude.{◌≡◌, ◌≢◌, ◌⊎◌, ◌+◌, ◌-◌, ◌*◌, ◌^◌, ◌<◌, ◌≤◌, IfOk, IsErr, OnErr, OnOk, length};
ghost use Rattle.flash_dev.specs.Changes.{Changes};
ghost use Rattle.flash_dev.specs.Moments.{LeavesOnly};
ghost use Rattle.flash_remap.specs.Change.{LiesInBlock};
ghost use Rattle.flash_remap.specs.Layout.{IsLaidOut, blocks_in, left_from, slots_in, spare_block};
ghost use Rattle.flash_remap.specs.Map.{AreNext, next_spare, place_of};
ghost use Rattle.flash_remap.specs.Replaced.{Anything, IsBlankFrom, IsFilled, IsReplaced, Replaces};
ghost use Rattle.flash_remap.specs.Shape.{geometry};
ghost use Rattle.ssu_io.specs.Faults.{HasCause};

use crate::change::Change;
use crate::copy::copy;
use crate::entry::{Entry, written};
use crate::layout::{Layout, Next};
use flash_dev::Flash;
use ssu_io::Failed;

/// Tries spares for a logical block that stands at the block `from`, up to the first whose attempt does not fail: the answer is its
/// entry. `Failed` comes once none is left.
pub(crate) fn replace<F: Flash>(
    inner: &mut F,
    layout: Layout,
    next: &mut Next,
    block: u16,
    from: u32,
    change: Change<'_>,
) -> Result<Entry, Failed>
    requires laid_out { IsLaidOut (geometry layout) }
    requires blocks { F.block_count inner.old ≡ blocks_in (geometry layout) }
    requires block_size { F.block_len inner.old ≡ layout.block_size }
    requires whole { F.tells → length (F.contents inner.old) ≡ F.block_count inner.old * F.block_len inner.old }
    requires spare { next.old.spare ≤ layout.spares }
    requires slot { next.old.slot ≤ slots_in (geometry layout) }
    requires block { block < layout.logical }
    requires from { from < spare_block (geometry layout) next.old.spare }
    requires inside { LiesInBlock layout.block_size change }
    requires blank { F.tells → IsBlankFrom (geometry layout) (F.contents inner.old) next.old.slot }
    requires below { F.tells → next_spare (geometry layout) (F.contents inner.old) ≤ next.old.spare }
    ensures entry { IfOk result (λ entry. (entry.block ≡ block)
        × ((entry.spare + 1 ≡ next.new.spare) × (next.old.spare ≤ entry.spare))) }
    ensures replaced { F.tells → OnOk result (IsReplaced (geometry layout) block from change.entry next.old.spare next.new.spare
        (F.contents inner.old) (F.contents inner.new)) }
    ensures stands { F.tells → IfOk result (λ entry. place_of (geometry layout) (F.contents inner.new) block
        ≡ spare_block (geometry layout) entry.spare) }
    ensures held { F.tells → Replaces (geometry layout) block from change.entry next.old.spare next.new.spare
        (F.contents inner.old) (F.contents inner.new) }
    ensures left { LeavesOnly F.moment F.left_since inner.old inner.new
        (λ y. F.tells → Replaces (geometry layout) block from change.entry next.old.spare layout.spares (F.contents inner.old) y) }
    ensures blank { F.tells → IsBlankFrom (geometry layout) (F.contents inner.new) next.new.slot }
    ensures next { F.tells → OnOk result (AreNext (geometry layout) (F.contents inner.new) next.new.spare next.new.slot) }
    ensures none_left { OnErr result (left_from (geometry layout) next.new.spare next.new.slot ≡ 0) }
    ensures spare { next.old.spare ≤ next.new.spare }
    ensures most_spare { next.new.spare ≤ layout.spares }
    ensures slot { next.old.slot ≤ next.new.slot }
    ensures most_slot { next.new.slot ≤ slots_in (geometry layout) }
    ensures slots { next.new.slot + next.old.spare ≤ next.new.spare + next.old.slot }
    ensures used { OnOk result (next.old.slot + 1 ≤ next.new.slot) }

    // Each attempt but the one that does not fail has raised the count.
    ensures counted { (2 ^ 64 ≤ F.faults inner.new + 1)
        ⊎ (F.faults inner.old + next.new.spare ≤ F.faults inner.new + next.old.spare + 1) }
    ensures counted_err { OnErr result ((2 ^ 64 ≤ F.faults inner.new + 1)
        ⊎ (F.faults inner.old + next.new.spare ≤ F.faults inner.new + next.old.spare)) }
    ensures later { F.faults inner.old ≤ F.faults inner.new }
    ensures blocks { F.block_count inner.new ≡ F.block_count inner.old }
    ensures block_size { F.block_len inner.new ≡ F.block_len inner.old }
    ensures halt { F.halted inner.old → IsErr result × F.halted inner.new }
{
    while layout.left_from(*next) > 0 {
        if let Ok(entry) = attempt(inner, layout, next, block, from, change) {
            return Ok(entry);
        }
    }
    Err(Failed)
}

/// Tries the next spare: erases it, fills it where the change is a program, and writes its entry to the next slot. The next
/// spare and, once the entry was tried, the next slot are the ones behind.
fn attempt<F: Flash>(
    inner: &mut F,
    layout: Layout,
    next: &mut Next,
    block: u16,
    from: u32,
    change: Change<'_>,
) -> Result<Entry, Failed>
    requires laid_out { IsLaidOut (geometry layout) }
    requires blocks { F.block_count inner.old ≡ blocks_in (geometry layout) }
    requires block_size { F.block_len inner.old ≡ layout.block_size }
    requires whole { F.tells → length (F.contents inner.old) ≡ F.block_count inner.old * F.block_len inner.old }
    requires spare { next.old.spare < layout.spares }
    requires slot { next.old.slot < slots_in (geometry layout) }
    requires block { block < layout.logical }
    requires from { from < spare_block (geometry layout) next.old.spare }
    requires inside { LiesInBlock layout.block_size change }
    requires blank { F.tells → IsBlankFrom (geometry layout) (F.contents inner.old) next.old.slot }
    requires below { F.tells → next_spare (geometry layout) (F.contents inner.old) ≤ next.old.spare }
    ensures entry { IfOk result (λ entry. (entry.block ≡ block) × (entry.spare ≡ next.old.spare)) }
    ensures replaced { F.tells → OnOk result (IsReplaced (geometry layout) block from change.entry next.old.spare next.new.spare
        (F.contents inner.old) (F.contents inner.new)) }
    ensures held { F.tells → Replaces (geometry layout) block from change.entry next.old.spare next.new.spare
        (F.contents inner.old) (F.contents inner.new) }
    ensures left { LeavesOnly F.moment F.left_since inner.old inner.new
        (λ y. F.tells → Replaces (geometry layout) block from change.entry next.old.spare (next.old.spare + 1) (F.contents inner.old) y) }
    ensures blank { F.tells → IsBlankFrom (geometry layout) (F.contents inner.new) next.new.slot }
    ensures next { F.tells → OnOk result (AreNext (geometry layout) (F.contents inner.new) next.new.spare next.new.slot) }
    ensures spare { next.new.spare ≡ next.old.spare + 1 }
    ensures slot { next.old.slot ≤ next.new.slot }
    ensures slots { next.new.slot ≤ next.old.slot + 1 }
    ensures used { OnOk result (next.new.slot ≡ next.old.slot + 1) }
    ensures blocks { F.block_count inner.new ≡ F.block_count inner.old }
    ensures block_size { F.block_len inner.new ≡ F.block_len inner.old }
    ensures halt { F.halted inner.old → IsErr result × F.halted inner.new }
    ensures cause { HasCause (F.faults inner.old) (F.faults inner.new) result }
{
    let entry = Entry {
        block,
        spare: next.spare as u16,
    };
    let slot = next.slot;
    let to = layout.spare_block(next.spare);
    next.spare += 1;
    fill(inner, layout, from, to, change)?;
    next.slot += 1;
    inner.program(layout.slot_place(slot), &written(entry))?;
    Ok(entry)
}

/// Erases a block and fills it: a program's bytes, and the other bytes of the block that it was for, are written there.
fn fill<F: Flash>(
    inner: &mut F,
    layout: Layout,
    from: u32,
    to: u32,
    change: Change<'_>,
) -> Result<(), Failed>
    requires laid_out { IsLaidOut (geometry layout) }
    requires blocks { F.block_count inner.old ≡ blocks_in (geometry layout) }
    requires block_size { F.block_len inner.old ≡ layout.block_size }
    requires from { from < blocks_in (geometry layout) }
    requires to { to < blocks_in (geometry layout) }
    requires apart { from ≢ to }
    requires inside { LiesInBlock layout.block_size change }
    ensures done { F.tells → OnOk result (IsFilled (geometry layout) change.entry from (F.contents inner.old) to (F.contents inner.new)) }
    ensures held { F.tells → Changes (to * layout.block_size) layout.block_size Anything (F.contents inner.old) (F.contents inner.new) }
    ensures left { LeavesOnly F.moment F.left_since inner.old inner.new
        (λ y. F.tells → Changes (to * layout.block_size) layout.block_size Anything (F.contents inner.old) y) }
    ensures blocks { F.block_count inner.new ≡ F.block_count inner.old }
    ensures block_size { F.block_len inner.new ≡ F.block_len inner.old }
    ensures halt { F.halted inner.old → IsErr result × F.halted inner.new }
    ensures cause { HasCause (F.faults inner.old) (F.faults inner.new) result }
{
    inner.erase(to)?;
    match change {
        Change::Erase => Ok(()),
        Change::Program(at, bytes) => {
            let end = at + bytes.len() as u32;
            copy(inner, layout.place(from, 0), layout.place(to, 0), at)?;
            inner.program(layout.place(to, at), bytes)?;
            copy(
                inner,
                layout.place(from, end),
                layout.place(to, end),
                layout.block_size - end,
            )
        }
    }
}
