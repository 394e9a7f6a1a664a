//! The sections that one packet completes.

ghost use Rattle.std.specs.Prelude.{◌≡◌, ◌==◌, ◌+◌, ◌*◌, ◌<◌, ◌≤◌, true, [], ◌∷◌, ◌++◌, length, vec_len, IfOk, slice_get, Some};
ghost use Rattle.section_form.specs.Section.{section_end, IsRightSection};
ghost use Rattle.ts_section.specs.Sections.{has_section};
ghost use Rattle.ts_section.specs.Steps.{right_of};

use arrayvec::ArrayVec;
use section_form::is_right;
use ssu_io::NoMemory;
use std::alloc::Global;
use std::marker::Model;

/// The greatest right section, in bytes.
const SECTION_MAX: usize = 4096;

/// The greatest number of right sections that one packet completes: one that began earlier, and those of seven bytes
/// or more behind the pointer_field.
pub(crate) const ROOM: usize = 28;

/// The right whole sections that become complete in one packet, in the order of their starts. A contract sees them as
/// a list of lists of bytes.
#[derive(Drop)]
pub struct SectionOut {
    slots: Vec<ArrayVec<u8, 4096>>,
    used: usize,
}

impl Model for SectionOut {
    ghost use Rattle.std.specs.Prelude.{◌≡◌, ◌≤◌, ℕ, List, map, take, vec_len};
    ghost use Rattle.std.specs.List.{All};
    ghost use Rattle.section_form.specs.Section.{IsRightSection};

    ghost Value = { List (List ℕ) };

    ghost view = { λ s. map (λ v. v.items) (take s.used s.slots.items) };

    ghost invariant = { λ s. (s.used ≤ 28) × (vec_len s.slots ≡ 28)
        × All IsRightSection (map (λ v. v.items) (take s.used s.slots.items)) };
}

impl SectionOut {
    /// Takes all the memory that any packet's sections need. There is no section yet. `NoMemory` is the one refusal.
    pub fn new(alloc: Global) -> Result<SectionOut, NoMemory>
        ensures { IfOk result (λ out. out ≡ []) }
    {
        Ok(SectionOut {
            slots: slots(alloc)?,
            used: 0,
        })
    }

    /// How many sections there are.
    pub fn len(&self) -> usize
        ensures { result ≡ length self.now }
    {
        self.used
    }

    /// Whether there is none.
    pub fn is_empty(&self) -> bool
        ensures { result ≡ (length self.now == 0) }
    {
        self.used == 0
    }

    /// The bytes of section `k`, 4,096 at most. It is whole and right, so no reader has to compute its CRC again.
    pub fn get(&self, k: usize) -> &[u8]
        requires { k < length self.now }
        ensures bytes { slice_get self.now k ≡ Some result.now }
        ensures most { length result.now ≤ 4096 }
        ensures right { IsRightSection result.now }
    {
        self.slots[k].as_slice()
    }

    pub(crate) fn clear(&mut self)
        ensures { self.new ≡ [] }
    {
        self.used = 0;
    }

    /// Adds the whole section at the front of the text, of `len` bytes, if it is right.
    pub(crate) fn put_front(&mut self, text: &[u8], len: usize)
        requires room { length self.old < 28 }
        requires whole { has_section text.now ≡ true }
        requires end { len ≡ section_end text.now }
        ensures heard { self.new ≡ self.old ++ right_of (text.now ∷ []) }
        ensures grows { 7 * length self.new ≤ 7 * length self.old + len }
    {
        let section = &text[..len];
        if is_right(section) {
            self.put(section);
        }
    }

    fn put(&mut self, section: &[u8])
        requires room { length self.old < 28 }
        requires fits { length section.now ≤ 4096 }
        requires right { IsRightSection section.now }
        ensures { self.new ≡ self.old ++ section.now ∷ [] }
    {
        let slot = &mut self.slots[self.used];
        fill(slot, section);
        self.used += 1;
    }
}

/// Makes the slot hold these bytes.
fn fill(slot: &mut ArrayVec<u8, 4096>, bytes: &[u8])
    requires { length bytes.now ≤ 4096 }
    ensures { slot.new.items ≡ bytes.now }
{
    slot.clear();
    let _ = slot.try_extend_from_slice(bytes);
}

fn slots(alloc: Global) -> Result<Vec<ArrayVec<u8, 4096>>, NoMemory>
    ensures { IfOk result (λ v. vec_len v ≡ 28) }
{
    let mut slots = Vec::with_capacity(alloc, ROOM)?;
    for _ in 0..ROOM {
        slots.push(ArrayVec::new())?;
    }
    Ok(slots)
}
