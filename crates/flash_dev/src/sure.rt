//! A flash in memory that never fails.
ghost use Rattle.std.specs.Prelude.{◌≡◌, ◌+◌, ◌*◌, ◌^◌, ◌<◌, ◌≤◌, List, ℕ, length, replicate, slice_index, IfOk, IsOk};
ghost use Rattle.flash_dev.specs.Changes.{Changes, Holds, IsErased, IsProgrammed};

use crate::Flash;
use ssu_io::{Failed, NoMemory};
use std::alloc::Global;

/// A flash in memory of which no call fails. It tells what it holds, and no moments.
#[derive(Drop)]
pub struct SureFlash {
    blocks: u32,
    block_size: u32,
    held: Vec<u8>,
    ghost whole: { length held.items ≡ blocks * block_size },
    ghost addressable: { blocks * block_size < 2 ^ 32 },
    ghost bytes: { (k : ℕ) → slice_index held.items k ≤ 255 },
}

impl SureFlash {
    ghost use Rattle.flash_dev.specs.Sure.{sure_block_count, sure_block_len, sure_contents};

    /// A flash of `blocks` blocks of `block_size` bytes that is all 255. It has at most 4,294,967,295 bytes.
    /// `NoMemory` is the one refusal.
    pub fn blank(alloc: Global, blocks: u32, block_size: u32) -> Result<SureFlash, NoMemory>
        requires { blocks * block_size < 2 ^ 32 }
        ensures contents { IfOk result (λ flash. sure_contents flash ≡ replicate (blocks * block_size) 255) }
        ensures blocks { IfOk result (λ flash. sure_block_count flash ≡ blocks) }
        ensures block_size { IfOk result (λ flash. sure_block_len flash ≡ block_size) }
    {
        let len = blocks as usize * block_size as usize;
        Ok(SureFlash {
            blocks,
            block_size,
            held: vec![in alloc; 255u8; len]?,
        })
    }

    /// What the flash holds.
    pub fn contents(&self) -> &[u8]
        ensures { result.now ≡ sure_contents self.now }
    {
        &self.held
    }
}

impl Flash for SureFlash {
    ghost use Rattle.flash_dev.specs.Sure.{sure_block_count, sure_block_len, sure_contents};

    ghost tells = { Unit {0} };

    ghost tells_moments = { ⊥ };

    ghost contents = { sure_contents };

    ghost block_count = { sure_block_count };

    ghost block_len = { sure_block_len };

    ghost moment = { λ _. 0 };

    ghost left_since = { λ _ _ _. ⊥ };

    ghost halted = { λ _. ⊥ };

    ghost faults = { λ _. 0 };

    ghost are_bytes = { λ _ m k. m.bytes k };

    ghost counts_now = { λ none _ _ _. absurd none };

    ghost only_now = { λ _ _ none. absurd none };

    fn blocks(&self) -> u32 {
        self.blocks
    }

    fn block_size(&self) -> u32 {
        self.block_size
    }

    /// Never answers `Failed`.
    fn read(&mut self, at: u32, buf: &mut [u8]) -> Result<(), Failed>
        requires { at + length buf.old ≤ sure_block_count self.old * sure_block_len self.old }
        ensures sure { IsOk result }
        ensures bytes { Holds (sure_contents self.old) at buf.new }
        ensures same { self.new ≡ self.old }
    {
        let start = at as usize;
        buf.copy_from_slice(&self.held[start..start + buf.len()]);
        Ok(())
    }

    /// Never answers `Failed`.
    fn erase(&mut self, block: u32) -> Result<(), Failed>
        requires { block < sure_block_count self.old }
        ensures sure { IsOk result }
        ensures done { Changes (block * sure_block_len self.old) (sure_block_len self.old)
            IsErased (sure_contents self.old) (sure_contents self.new) }
        ensures blocks { sure_block_count self.new ≡ sure_block_count self.old }
        ensures block_size { sure_block_len self.new ≡ sure_block_len self.old }
    {
        let start = block as usize * self.block_size as usize;
        fill_blank(&mut self.held, start, self.block_size as usize);
        Ok(())
    }

    /// Never answers `Failed`.
    fn program(&mut self, at: u32, bytes: &[u8]) -> Result<(), Failed>
        requires { at + length bytes.now ≤ sure_block_count self.old * sure_block_len self.old }
        ensures sure { IsOk result }
        ensures done { Changes at (length bytes.now)
            (IsProgrammed bytes.now) (sure_contents self.old) (sure_contents self.new) }
        ensures blocks { sure_block_count self.new ≡ sure_block_count self.old }
        ensures block_size { sure_block_len self.new ≡ sure_block_len self.old }
    {
        put(&mut self.held, at as usize, bytes);
        Ok(())
    }
}

/// Sets bytes to 255.
fn fill_blank(held: &mut Vec<u8>, at: usize, len: usize)
    requires { at + len ≤ length held.old.items }
    ensures changes { Changes at len IsErased held.old.items held.new.items }
    ensures bytes { (k : ℕ) → slice_index held.new.items k ≤ 255 }
{
    for i in 0..len {
        held[at + i] = 255;
    }
}

/// Writes bytes over others.
fn put(held: &mut Vec<u8>, at: usize, bytes: &[u8])
    requires { at + length bytes.now ≤ length held.old.items }
    ensures changes { Changes at (length bytes.now) (IsProgrammed bytes.now) held.old.items held.new.items }
    ensures bytes { (k : ℕ) → slice_index held.new.items k ≤ 255 }
{
    for (i, byte) in bytes.iter().enumerate() {
        held[at + i] = *byte;
    }
}
