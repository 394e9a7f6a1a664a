//! Which places are filled.

ghost use Rattle.std.specs.Prelude.{◌≡◌, ℕ, ◌<◌, ◌≤◌, ◌*◌, ◌/◌, ◌||◌, ◌==◌, false, length, slice_index, IfOk, vec_len};
ghost use Rattle.ssu_group.specs.Map.{is_set, marked, missing_below};

use ssu_io::NoMemory;
use std::alloc::Global;
use std::marker::Model;

/// A set of the numbers of places, which counts those that are missing. It has a bit for each place.
///
/// A contract sees the most places there is room for, how many places there are, and the bits of which `marked` reads
/// whether a place is marked.
#[derive(Drop)]
pub struct BlockMap {
    bits: Vec<u8>,
    most: u32,
    places: u32,
    missing: u32,
}

impl Model for BlockMap {
    ghost use Rattle.ssu_group.specs.Map.{Marks, IsMap};

    ghost Value = { Marks };

    ghost view = { λ m. record { most = m.most; places = m.places; bits = m.bits.items } };

    ghost invariant = { λ m. IsMap m.bits.items m.most m.places m.missing };
}

/// Sets all bytes to 0.
fn clear_bytes(bytes: &mut Vec<u8>)
    ensures len { length bytes.new.items ≡ length bytes.old.items }
    ensures zero { (k : ℕ) → k < length bytes.new.items → slice_index bytes.new.items k ≡ 0 }
{
    for i in 0..bytes.len() {
        bytes[i] = 0;
    }
}

fn byte_at(bits: &[u8], place: usize) -> u8
    requires { place < length bits.now }
    ensures { result ≡ slice_index bits.now place }
{
    bits[place]
}

/// Sets the bit of a number.
fn set_bit(bits: &mut Vec<u8>, number: u32)
    requires { number / 8 < length bits.old.items }
    ensures len { length bits.new.items ≡ length bits.old.items }
    ensures set { (k : ℕ) → is_set bits.new.items k ≡ (k == number || is_set bits.old.items k) }
{
    let place = (number / 8) as usize;
    let byte = byte_at(bits, place);
    bits[place] = byte | (1u8 << (number % 8));
}

/// Whether the bit of a number is set.
fn is_bit_set(bits: &[u8], number: u32) -> bool
    requires { number / 8 < length bits.now }
    ensures { result ≡ is_set bits.now number }
{
    (bits[(number / 8) as usize] >> (number % 8)) & 1 == 1
}

impl BlockMap {
    /// A map with room for `most` places, and with none. `NoMemory` is the one refusal.
    #[tactic(auto, using(crate::proofs::MapLaws::missing_none))]
    pub fn new(alloc: Global, most: u32) -> Result<BlockMap, NoMemory>
        ensures room { IfOk result (λ m. m.most ≡ most) }
        ensures none { IfOk result (λ m. m.places ≡ 0) }
    {
        let bits = Vec::from_elem(alloc, 0u8, most.div_ceil(8) as usize)?;
        Ok(BlockMap {
            bits,
            most,
            places: 0,
            missing: 0,
        })
    }

    /// So many places from now on, none of them marked.
    pub fn clear(&mut self, places: u32)
        requires { places ≤ self.old.most }
        ensures most { self.new.most ≡ self.old.most }
        ensures places { self.new.places ≡ places }
        ensures none { (k : ℕ) → k < places → marked self.new k ≡ false }
    {
        clear_bytes(&mut self.bits);
        self.places = places;
        self.missing = places;
    }

    /// As many places as before, none of them marked.
    pub fn unmark_all(&mut self)
        ensures most { self.new.most ≡ self.old.most }
        ensures places { self.new.places ≡ self.old.places }
        ensures none { (k : ℕ) → k < self.old.places → marked self.new k ≡ false }
    {
        let places = self.places;
        self.clear(places);
    }

    /// Whether a place is marked.
    pub fn has(&self, number: u32) -> bool
        requires { number < self.now.places }
        ensures { result ≡ marked self.now number }
    {
        is_bit_set(&self.bits, number)
    }

    /// Marks a place.
    pub fn mark(&mut self, number: u32)
        requires { number < self.old.places }
        ensures most { self.new.most ≡ self.old.most }
        ensures places { self.new.places ≡ self.old.places }
        ensures marked { (k : ℕ) → marked self.new k ≡ (k == number || marked self.old k) }
    {
        if is_bit_set(&self.bits, number) {
            return;
        }
        set_bit(&mut self.bits, number);
        self.missing -= 1;
    }

    /// How many places are not marked.
    pub fn missing(&self) -> u32
        ensures { result ≡ missing_below (marked self.now) self.now.places }
    {
        self.missing
    }
}
