//! The map as it is read: the entries that count, and the spare and the slot that are next.
ghost use Rattle.std.specs.Prelude.{◌≡◌, ◌+◌, ◌*◌, ◌<◌, ◌≤◌, IfOk, Some, length, if◌then◌else◌};
ghost use Rattle.flash_remap.specs.Entry.{entry_in};
ghost use Rattle.flash_remap.specs.Layout.{IsLaidOut, blocks_in, slots_in};
ghost use Rattle.flash_remap.specs.Map.{AreNext, IsNextOf, counting, is_blank, place_among, with_next};
ghost use Rattle.flash_remap.specs.Reads.{ChangesNothing};
ghost use Rattle.flash_remap.specs.Shape.{geometry};
ghost use Rattle.ssu_io.specs.Faults.{HasCause};

use crate::entry::{Entry, SLOT_LEN, entry_in, is_blank};
use crate::layout::{Layout, Next};
use arrayvec::ArrayVec;
use flash_dev::Flash;
use ssu_io::Failed;

/// The most entries that count: each has a spare above those before it.
pub(crate) const MOST_ENTRIES: usize = 255;

/// What the map says.
#[derive(Drop)]
pub(crate) struct Found {
    pub(crate) entries: ArrayVec<Entry, MOST_ENTRIES>,
    pub(crate) next: Next,
}

/// Reads the map.
pub(crate) fn read_map<F: Flash>(inner: &mut F, layout: Layout) -> Result<Found, Failed>
    requires laid_out { IsLaidOut (geometry layout) }
    requires blocks { F.block_count inner.old ≡ blocks_in (geometry layout) }
    requires block_size { F.block_len inner.old ≡ layout.block_size }
    requires whole { F.tells → length (F.contents inner.old) ≡ F.block_count inner.old * F.block_len inner.old }
    ensures entries { F.tells → IfOk result (λ found. found.entries.items ≡ counting (geometry layout) (F.contents inner.old)) }
    ensures next { F.tells → IfOk result (λ found. AreNext (geometry layout) (F.contents inner.old) found.next.spare found.next.slot) }
    ensures next_is { IfOk result (λ found. IsNextOf found.entries.items found.next.spare) }
    ensures few { IfOk result (λ found. length found.entries.items ≤ found.next.spare) }
    ensures most_spare { IfOk result (λ found. found.next.spare ≤ layout.spares) }
    ensures most_slot { IfOk result (λ found. found.next.slot ≤ slots_in (geometry layout)) }
    ensures reads { ChangesNothing F.Flash inner.old inner.new }
    ensures cause { HasCause (F.faults inner.old) (F.faults inner.new) result }
{
    let mut found = Found {
        entries: ArrayVec::new(),
        next: Next { spare: 0, slot: 0 },
    };
    for slot in 0..layout.slots() {
        let mut bytes = [0; SLOT_LEN];
        inner.read(layout.slot_place(slot), &mut bytes)?;
        found.take(layout, slot, &bytes);
    }
    Ok(found)
}

impl Found {
    /// Goes on with the bytes of the next slot.
    fn take(&mut self, layout: Layout, slot: u32, bytes: &[u8])
        requires spares { layout.spares ≤ 255 }
        requires len { length bytes.now ≡ 16 }
        requires slot { slot < slots_in (geometry layout) }
        requires next_is { IsNextOf self.old.entries.items self.old.next.spare }
        requires few { length self.old.entries.items ≤ self.old.next.spare }
        requires most { self.old.next.spare ≤ layout.spares }
        ensures entries { self.new.entries.items ≡ with_next (geometry layout) self.old.entries.items (entry_in bytes.now) }
        ensures slot { self.new.next.slot ≡ (if is_blank bytes.now then self.old.next.slot else slot + 1) }
        ensures next_is { IsNextOf self.new.entries.items self.new.next.spare }
        ensures few { length self.new.entries.items ≤ self.new.next.spare }
        ensures most { self.new.next.spare ≤ layout.spares }
    {
        if !is_blank(bytes) {
            self.next.slot = slot + 1;
        }
        if let Some(entry) = entry_in(bytes) {
            self.take_entry(layout, entry);
        }
    }

    /// Takes an entry, if it counts behind those before it.
    fn take_entry(&mut self, layout: Layout, entry: Entry)
        requires spares { layout.spares ≤ 255 }
        requires next_is { IsNextOf self.old.entries.items self.old.next.spare }
        requires few { length self.old.entries.items ≤ self.old.next.spare }
        requires most { self.old.next.spare ≤ layout.spares }
        ensures entries { self.new.entries.items ≡ with_next (geometry layout) self.old.entries.items (Some entry) }
        ensures slot { self.new.next.slot ≡ self.old.next.slot }
        ensures next_is { IsNextOf self.new.entries.items self.new.next.spare }
        ensures few { length self.new.entries.items ≤ self.new.next.spare }
        ensures most { self.new.next.spare ≤ layout.spares }
    {
        let spare = u32::from(entry.spare);
        if u32::from(entry.block) < layout.logical
            && spare < layout.spares
            && self.next.spare <= spare
        {
            self.entries.push(entry);
            self.next.spare = spare + 1;
        }
    }
}

/// The block that stands for a logical block.
pub(crate) fn place_among(layout: Layout, entries: &[Entry], block: u32) -> u32
    requires { IsLaidOut (geometry layout) }
    ensures { result ≡ place_among (geometry layout) entries.now block }
{
    let mut place = block;
    for entry in entries {
        if u32::from(entry.block) == block {
            place = layout.logical + u32::from(entry.spare);
        }
    }
    place
}
