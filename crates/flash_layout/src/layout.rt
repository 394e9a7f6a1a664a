//! Where records, areas, banks and journals stand in a flash of a given shape.
ghost use Rattle.std.specs.Prelude.{◌≡◌, ◌↔◌, ◌+◌, ◌*◌, ◌^◌, ◌<◌, ◌≤◌, IfNone, IfSome, IsTrue, length};
ghost use Rattle.flash_layout.specs.Shape.{geometry};
ghost use Rattle.flash_layout.specs.Layout.{HasJournals, IsInLimits, area_blocks, area_len, area_place, bank_len, blocks_of, record_place};
ghost use Rattle.flash_layout.specs.Layout.{journal_blocks, journal_len, journal_place, mark_count, rounded_up, short_len, slots_at};

use flash_dev::Flash;

/// The number and the length of the blocks of a flash. The calls on it are for 4 to 65,536 blocks of 256 to 65,536 bytes, a multiple
/// of 256, and 268,435,456 bytes at most: what `shape_of` gives.
#[derive(Clone, Copy, Debug, PartialEq, Eq)]
pub struct Shape {
    /// The number of blocks.
    pub blocks: u32,
    /// The length of a block in bytes.
    pub block_size: u32,
}

/// The shape of a flash, or `None` exactly where its number of blocks or their length is out of the limits.
pub fn shape_of<F: Flash>(flash: &F) -> Option<Shape>
    ensures limits { IfSome result (λ shape. IsInLimits (geometry shape)) }
    ensures blocks { IfSome result (λ shape. shape.blocks ≡ F.block_count flash.now) }
    ensures block_size { IfSome result (λ shape. shape.block_size ≡ F.block_len flash.now) }
    ensures none { IfNone result (IsInLimits (blocks_of F.Flash flash.now) → ⊥) }
    ensures whole { F.tells → length (F.contents flash.now) ≡ F.block_count flash.now * F.block_len flash.now }
{
    let blocks = flash.blocks();
    let block_size = flash.block_size();
    let shape = Shape { blocks, block_size };
    if is_in_limits(shape) {
        Some(shape)
    } else {
        None
    }
}

fn is_in_limits(shape: Shape) -> bool
    ensures { IsTrue result ↔ IsInLimits (geometry shape) }
{
    shape.block_size % 256 == 0
        && 256 <= shape.block_size
        && shape.block_size <= 65536
        && 4 <= shape.blocks
        && shape.blocks <= 65536
        && u64::from(shape.blocks) * u64::from(shape.block_size) <= 268_435_456
}

impl Shape {
    /// The number of blocks of an area: half of those behind the two record blocks, rounded down.
    pub fn area_blocks(self) -> u32
        requires { IsInLimits (geometry self) }
        ensures value { result ≡ area_blocks (geometry self) }
        ensures most { 2 + 2 * result ≤ self.blocks }
    {
        (self.blocks - 2) / 2
    }

    /// The length of an area in bytes.
    pub fn area_len(self) -> u32
        requires { IsInLimits (geometry self) }
        ensures { result ≡ area_len (geometry self) }
    {
        self.area_blocks() * self.block_size
    }

    /// The address of a record block, 0 or 1.
    pub fn record_place(self, block: u32) -> u32
        requires limits { IsInLimits (geometry self) }
        requires block { block < 2 }
        ensures { result ≡ record_place (geometry self) block }
    {
        block * self.block_size
    }

    /// The first block of an area, 0 or 1.
    pub fn area_block(self, area: u8) -> u32
        requires limits { IsInLimits (geometry self) }
        requires area { area < 2 }
        ensures value { result ≡ 2 + area * area_blocks (geometry self) }
        ensures inside { result + area_blocks (geometry self) ≤ self.blocks }
    {
        2 + u32::from(area) * self.area_blocks()
    }

    /// The address of an area, 0 or 1.
    pub fn area_place(self, area: u8) -> u32
        requires limits { IsInLimits (geometry self) }
        requires area { area < 2 }
        ensures value { result ≡ area_place (geometry self) area }
        ensures inside { result + area_len (geometry self) ≤ self.blocks * self.block_size }
    {
        self.area_block(area) * self.block_size
    }

    /// There is room for journals: an area has at least 1,048,576 bytes.
    pub fn has_journals(self) -> bool
        requires { IsInLimits (geometry self) }
        ensures { IsTrue result ↔ HasJournals (geometry self) }
    {
        self.area_len() >= 1_048_576
    }

    /// The number of marks of a journal.
    pub fn mark_count(self) -> u32
        requires limits { IsInLimits (geometry self) }
        ensures value { result ≡ mark_count (geometry self) }
        ensures most { result ≤ 524800 }
    {
        self.area_len() / 512 + 512
    }

    /// Where the slots begin, in bytes from the front of a journal.
    pub fn slots_at(self) -> u32
        requires limits { IsInLimits (geometry self) }
        ensures value { result ≡ slots_at (geometry self) }
        ensures most { result ≤ 1200000 }
    {
        let marks = rounded_up(2 * self.mark_count(), 256) * 256;
        rounded_up(8448 + marks, self.block_size) * self.block_size
    }

    /// The number of blocks of a journal.
    pub fn journal_blocks(self) -> u32
        requires limits { IsInLimits (geometry self) }
        ensures value { result ≡ journal_blocks (geometry self) }
        ensures fits { HasJournals (geometry self) → result ≤ area_blocks (geometry self) }
    {
        rounded_up(self.slots_at() + 69632, self.block_size)
    }

    /// The length of a journal in bytes, all its blocks. The area has at least 1,048,576 bytes.
    pub fn journal_len(self) -> u32
        requires limits { IsInLimits (geometry self) }
        requires room { HasJournals (geometry self) }
        ensures value { result ≡ journal_len (geometry self) }
        ensures less { result ≤ area_len (geometry self) }
    {
        self.journal_blocks() * self.block_size
    }

    /// The length of a bank of layout 2 in bytes: the area before its journal. The area has at least 1,048,576 bytes.
    pub fn short_len(self) -> u32
        requires limits { IsInLimits (geometry self) }
        requires room { HasJournals (geometry self) }
        ensures value { result ≡ short_len (geometry self) }
        ensures less { result ≤ area_len (geometry self) }
    {
        (self.area_blocks() - self.journal_blocks()) * self.block_size
    }

    /// The length of a bank of layout 1 or 2 in bytes; layout 2 is for areas of at least 1,048,576 bytes.
    pub fn bank_len(self, layout: u8) -> u32
        requires limits { IsInLimits (geometry self) }
        requires room { layout ≡ 2 → HasJournals (geometry self) }
        ensures { result ≡ bank_len (geometry self) layout }
    {
        if layout == 2 {
            self.short_len()
        } else {
            self.area_len()
        }
    }

    /// The first block of the journal of an area, 0 or 1, of at least 1,048,576 bytes.
    pub fn journal_block(self, area: u8) -> u32
        requires limits { IsInLimits (geometry self) }
        requires room { HasJournals (geometry self) }
        requires area { area < 2 }
        ensures value { result * self.block_size ≡ journal_place (geometry self) area }
        ensures inside { result + journal_blocks (geometry self) ≤ self.blocks }
    {
        self.area_block(area) + (self.area_blocks() - self.journal_blocks())
    }

    /// The address of the journal of an area, 0 or 1, of at least 1,048,576 bytes.
    pub fn journal_place(self, area: u8) -> u32
        requires limits { IsInLimits (geometry self) }
        requires room { HasJournals (geometry self) }
        requires area { area < 2 }
        ensures value { result ≡ journal_place (geometry self) area }
        ensures inside { result + journal_len (geometry self) ≤ self.blocks * self.block_size }
    {
        self.journal_block(area) * self.block_size
    }
}

/// So many pieces of this length hold the bytes.
#[tactic(auto, unfolding(crate::specs::Layout::rounded_up))]
fn rounded_up(n: u32, len: u32) -> u32
    requires some { 0 < len }
    requires few { n + len < 2 ^ 32 }
    ensures value { result ≡ rounded_up n len }
    ensures most { result * len ≤ n + len }
    ensures least { n ≤ result * len }
{
    (n + (len - 1)) / len
}
