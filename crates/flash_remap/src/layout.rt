//! Where logical blocks, spares and the map stand in the inner flash.
ghost use Rattle.std.specs.Prelude.{◌≡◌, ◌↔◌, ◌+◌, ◌*◌, ◌/◌, ◌<◌, ◌≤◌, IfSome, IsSome, length};
ghost use Rattle.flash_remap.specs.Layout.{IsInLimits, IsLaidOut, blocks_in, left_from, slot_place, slots_in, spare_block};
ghost use Rattle.flash_remap.specs.Shape.{geometry};

use flash_dev::Flash;

/// The number of logical blocks and of spares, and the length of a block in bytes. The logical blocks come first, then
/// the spares, and the last block is the map.
#[derive(Clone, Copy, Debug, PartialEq, Eq)]
pub(crate) struct Layout {
    pub(crate) logical: u32,
    pub(crate) spares: u32,
    pub(crate) block_size: u32,
}

/// How a flash is parted that has so many spares, where it is in the limits.
pub(crate) fn layout_of<F: Flash>(inner: &F, spares: u32) -> Option<Layout>
    ensures laid_out { IfSome result (λ layout. IsLaidOut (geometry layout)) }
    ensures blocks { IfSome result (λ layout. blocks_in (geometry layout) ≡ F.block_count inner.now) }
    ensures block_size { IfSome result (λ layout. layout.block_size ≡ F.block_len inner.now) }
    ensures spares { IfSome result (λ layout. layout.spares ≡ spares) }
    ensures limits { IsSome result ↔ IsInLimits (F.block_count inner.now) spares }
    ensures whole { F.tells → length (F.contents inner.now) ≡ F.block_count inner.now * F.block_len inner.now }
{
    let blocks = inner.blocks();
    let block_size = inner.block_size();
    if spares == 0 || spares > 255 || blocks < spares + 5 || blocks > spares + 65_537 {
        return None;
    }
    Some(Layout {
        logical: blocks - 1 - spares,
        spares,
        block_size,
    })
}

impl Layout {
    /// The number of slots of the map.
    pub(crate) fn slots(self) -> u32
        ensures { result ≡ slots_in (geometry self) }
    {
        self.block_size / 16
    }

    /// The address of a slot of the map.
    pub(crate) fn slot_place(self, slot: u32) -> u32
        requires laid_out { IsLaidOut (geometry self) }
        requires inside { slot < slots_in (geometry self) }
        ensures value { result ≡ slot_place (geometry self) slot }
        ensures inside { result + 16 ≤ blocks_in (geometry self) * self.block_size }
    {
        (self.logical + self.spares) * self.block_size + 16 * slot
    }

    /// The logical block of an address, and the place in it.
    pub(crate) fn parts(self, at: u32) -> (u32, u32)
        requires inside { at < self.logical * self.block_size }
        ensures block { result.0 < self.logical }
        ensures block_is { result.0 ≡ at / self.block_size }
        ensures within { result.1 < self.block_size }
        ensures is { at ≡ result.0 * self.block_size + result.1 }
    {
        (at / self.block_size, at % self.block_size)
    }

    /// The address of a place in a block.
    pub(crate) fn place(self, block: u32, at: u32) -> u32
        requires laid_out { IsLaidOut (geometry self) }
        requires block { block < blocks_in (geometry self) }
        requires inside { at ≤ self.block_size }
        ensures value { result ≡ block * self.block_size + at }
        ensures inside { block * self.block_size + self.block_size ≤ blocks_in (geometry self) * self.block_size }
    {
        block * self.block_size + at
    }

    /// The block that is a spare.
    pub(crate) fn spare_block(self, spare: u32) -> u32
        requires laid_out { IsLaidOut (geometry self) }
        requires spare { spare < self.spares }
        ensures { result ≡ spare_block (geometry self) spare }
    {
        self.logical + spare
    }

    /// How many replacements are left, where these are the next spare and the next slot.
    pub(crate) fn left_from(self, next: Next) -> u32
        requires spare { next.spare ≤ self.spares }
        requires slot { next.slot ≤ slots_in (geometry self) }
        ensures { result ≡ left_from (geometry self) next.spare next.slot }
    {
        (self.spares - next.spare).min(self.slots() - next.slot)
    }
}

/// The spare and the slot that are tried next.
#[derive(Clone, Copy, Debug, PartialEq, Eq)]
pub(crate) struct Next {
    pub(crate) spare: u32,
    pub(crate) slot: u32,
}
