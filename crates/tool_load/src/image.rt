//! The image of the group, which grows as its blocks come.

ghost use Rattle.std.specs.Prelude.{◌≡◌, ◌<◌, ◌≤◌, ◌+◌, ◌-◌, ◌||◌, ◌==◌, ℕ, length, take, drop, replicate, ◌++◌};
ghost use Rattle.std.specs.Prelude.{vec_len, vec_capacity, IfOk};
ghost use Rattle.ts_crc.specs.Crc.{crc_of};
ghost use Rattle.ssu_group.specs.Carried.{module_bytes};
ghost use Rattle.ssu_group.specs.declared.group_plan.GroupPlan.{GroupPlan};
ghost use Rattle.group_image.specs.Image.{is_there, missing_in, image_of, IsFor, IsEmpty, TakesPlace};
ghost use Rattle.tool_load.specs.Growing.{laid};

use ssu_group::{BlockMap, GroupPlan, ModulePlan, Place};
use ssu_io::NoMemory;
use std::alloc::Global;
use std::marker::Model;
use ts_crc::crc;

/// The image of a group while it is collected: which places are there, and the bytes from 0 to the end of the last place that
/// came. All memory is taken when it is made, and filled when a block comes: in their order they are appended.
#[derive(Drop)]
pub(crate) struct Image {
    map: BlockMap,
    total: u32,
    buffer: Vec<u8>,
}

impl Model for Image {
    ghost use Rattle.std.specs.Prelude.{◌≤◌, vec_len, vec_capacity};
    ghost use Rattle.group_image.specs.Image.{Collected};

    ghost Value = { Collected };

    ghost view = { λ i. record { map = i.map; total = i.total; buffer = i.buffer.items } };

    ghost invariant = { λ i. (vec_len i.buffer ≤ i.total) × (i.total ≤ vec_capacity i.buffer) };
}

/// Appends the bytes, for which there is room.
fn append(buffer: &mut Vec<u8>, bytes: &[u8])
    requires { vec_len buffer.old + length bytes.now ≤ vec_capacity buffer.old }
    ensures bytes { buffer.new.items ≡ buffer.old.items ++ bytes.now }
    ensures room { vec_capacity buffer.old ≤ vec_capacity buffer.new }
{
    let _ = buffer.extend_from_slice(bytes);
}

/// Fills up with 0 to so many bytes, for which there is room, where there are fewer.
fn fill_up(buffer: &mut Vec<u8>, len: usize)
    requires { len ≤ vec_capacity buffer.old }
    ensures bytes { buffer.new.items ≡ buffer.old.items ++ replicate (len - length buffer.old.items) 0 }
    ensures room { vec_capacity buffer.old ≤ vec_capacity buffer.new }
{
    if buffer.len() < len {
        let _ = buffer.resize(len, 0);
    }
}

/// Writes the bytes from place `at` on.
fn write_at(buffer: &mut Vec<u8>, at: usize, bytes: &[u8])
    requires { at + length bytes.now ≤ length buffer.old.items }
    ensures bytes { buffer.new.items ≡ take at buffer.old.items ++ bytes.now ++ drop (at + length bytes.now) buffer.old.items }
    ensures room { vec_capacity buffer.old ≤ vec_capacity buffer.new }
{
    buffer[at..at + bytes.len()].copy_from_slice(bytes);
}

/// Writes the bytes from place `at` on. There is room for them; where they leave a gap it is filled with 0.
fn write_padded(buffer: &mut Vec<u8>, at: usize, bytes: &[u8])
    requires { at + length bytes.now ≤ vec_capacity buffer.old }
    ensures bytes { buffer.new.items ≡ laid buffer.old.items at bytes.now }
    ensures room { vec_capacity buffer.old ≤ vec_capacity buffer.new }
{
    if at == buffer.len() {
        append(buffer, bytes);
    } else {
        fill_up(buffer, at + bytes.len());
        write_at(buffer, at, bytes);
    }
}

/// The CRC of so many bytes from place `at` on.
fn crc_of_part(bytes: &[u8], at: usize, len: usize) -> u32
    requires { at + len ≤ length bytes.now }
    ensures { result ≡ crc_of (take len (drop at bytes.now)) }
{
    crc(&bytes[at..at + len])
}

impl Image {
    /// An image for the group of this plan, with none of its places.
    pub(crate) fn new(alloc: Global, plan: &GroupPlan) -> Result<Image, NoMemory>
        ensures plan { IfOk result (λ image. IsFor plan.now image) }
        ensures none { IfOk result IsEmpty }
    {
        let mut map = BlockMap::new(alloc, plan.places)?;
        let buffer = Vec::with_capacity(alloc, plan.total as usize)?;
        map.clear(plan.places);
        Ok(Image {
            map,
            total: plan.total,
            buffer,
        })
    }

    /// Whether the place is there.
    pub(crate) fn has(&self, place: Place) -> bool
        requires { TakesPlace self.now place }
        ensures { result ≡ is_there self.now place.number }
    {
        self.map.has(place.number)
    }

    /// Takes the bytes of a place.
    pub(crate) fn put(&mut self, place: Place, bytes: &[u8])
        requires place { TakesPlace self.old place }
        requires length { length bytes.now ≡ place.len }
        ensures plan { (plan : GroupPlan) → IsFor plan self.old → IsFor plan self.new }
        ensures there { (number : ℕ) → is_there self.new number ≡ (number == place.number || is_there self.old number) }
        ensures bytes { self.new.buffer ≡ laid self.old.buffer place.at bytes.now }
    {
        write_padded(&mut self.buffer, place.at as usize, bytes);
        self.map.mark(place.number);
    }

    /// How many places are not there.
    pub(crate) fn missing(&self) -> u32
        ensures { result ≡ missing_in self.now }
    {
        self.map.missing()
    }

    /// The bytes of the image, up to the end of the last place that came.
    pub(crate) fn bytes(&self) -> &[u8]
        ensures image { result.now ≡ image_of self.now }
        ensures reach { length result.now ≡ length self.now.buffer }
    {
        self.buffer.as_slice()
    }

    /// The CRC of the bytes of a module that was reached.
    pub(crate) fn module_crc(&self, part: &ModulePlan) -> u32
        requires { part.now.at + part.now.size ≤ length self.now.buffer }
        ensures { result ≡ crc_of (module_bytes (image_of self.now) part.now) }
    {
        crc_of_part(self.bytes(), part.at as usize, part.size as usize)
    }
}
