//! The image of a group, block by block.

ghost use Rattle.std.specs.Prelude.{◌≡◌, ◌<◌, ◌≤◌, ◌+◌, ◌||◌, ◌&&◌, ◌==◌, not, ℕ, length, take, drop, ◌++◌, vec_len, IfOk, if◌then◌else◌};
ghost use Rattle.ts_crc.specs.Crc.{crc_of};
ghost use Rattle.ssu_group.specs.Place.{IsPlace};
ghost use Rattle.ssu_group.specs.Carried.{module_bytes};
ghost use Rattle.ssu_group.specs.declared.group_plan.GroupPlan.{GroupPlan};
ghost use Rattle.group_image.specs.Image.{is_there, missing_in, image_of, bytes_at, IsFor, IsEmpty, HasRoom, TakesPlace};

use ssu_group::{BlockMap, GroupPlan, ModulePlan, Place};
use ssu_io::NoMemory;
use std::alloc::Global;
use std::marker::Model;
use ts_crc::crc;

/// The most places that a plan has: 506 modules of 65,536 blocks.
const MOST_PLACES: u32 = 33_161_216;

/// The image of a group while it is collected: which places are there, and their bytes. All memory is taken when it is
/// made.
///
/// A contract sees which places are there, the bytes in the image, and the bytes that stand at each place.
#[derive(Drop)]
pub struct GroupImage {
    map: BlockMap,
    total: u32,
    buffer: Vec<u8>,
}

impl Model for GroupImage {
    ghost use Rattle.std.specs.Prelude.{◌≤◌, vec_len};
    ghost use Rattle.group_image.specs.Image.{Collected};

    ghost Value = { Collected };

    ghost view = { λ i. record { map = i.map; total = i.total; buffer = i.buffer.items } };

    ghost invariant = { λ i. i.total ≤ vec_len i.buffer };
}

/// Writes the bytes from place `at` on.
fn write_at(buffer: &mut Vec<u8>, at: usize, bytes: &[u8])
    requires { at + length bytes.now ≤ length buffer.old.items }
    ensures { buffer.new.items ≡ take at buffer.old.items ++ bytes.now ++ drop (at + length bytes.now) buffer.old.items }
{
    buffer[at..at + bytes.len()].copy_from_slice(bytes);
}

/// The CRC of so many bytes from place `at` on.
fn crc_of_part(bytes: &[u8], at: usize, len: usize) -> u32
    requires { at + len ≤ length bytes.now }
    ensures { result ≡ crc_of (take len (drop at bytes.now)) }
{
    crc(&bytes[at..at + len])
}

impl GroupImage {
    /// An image for every group of so many bytes at most, with no group yet.
    pub fn with_room(alloc: Global, most: u32) -> Result<GroupImage, NoMemory>
        ensures room { IfOk result (λ image. (plan : GroupPlan) → plan.total ≤ most → HasRoom plan image) }
        ensures none { IfOk result IsEmpty }
    {
        let map = BlockMap::new(alloc, most.min(MOST_PLACES))?;
        let buffer = Vec::from_elem(alloc, 0u8, most as usize)?;
        Ok(GroupImage {
            map,
            total: 0,
            buffer,
        })
    }

    /// An image for the group of this plan, with none of its places.
    pub fn new(alloc: Global, plan: &GroupPlan) -> Result<GroupImage, NoMemory>
        ensures plan { IfOk result (λ image. IsFor plan.now image) }
        ensures none { IfOk result IsEmpty }
        ensures room { IfOk result (λ image. HasRoom plan.now image) }
    {
        let mut map = BlockMap::new(alloc, plan.places)?;
        let buffer = Vec::from_elem(alloc, 0u8, plan.total as usize)?;
        map.clear(plan.places);
        Ok(GroupImage {
            map,
            total: plan.total,
            buffer,
        })
    }

    /// Begins the group of this plan, with none of its places.
    pub fn start(&mut self, plan: &GroupPlan)
        requires { HasRoom plan.now self.old }
        ensures plan { IsFor plan.now self.new }
        ensures none { IsEmpty self.new }
        ensures room { (other : GroupPlan) → HasRoom other self.old → HasRoom other self.new }
    {
        self.map.clear(plan.places);
        self.total = plan.total;
    }

    /// Takes all places out. The plan stays.
    pub fn forget(&mut self)
        ensures places { self.new.map.places ≡ self.old.map.places }
        ensures total { self.new.total ≡ self.old.total }
        ensures plan { (plan : GroupPlan) → IsFor plan self.old → IsFor plan self.new }
        ensures none { IsEmpty self.new }
        ensures room { (other : GroupPlan) → HasRoom other self.old → HasRoom other self.new }
    {
        self.map.unmark_all();
    }

    /// Takes the bytes of a place. One that is there already keeps its first bytes.
    pub fn offer(&mut self, place: Place, bytes: &[u8])
        requires place { TakesPlace self.old place }
        requires length { length bytes.now ≡ place.len }
        ensures plan { (plan : GroupPlan) → IsFor plan self.old → IsFor plan self.new }
        ensures room { (plan : GroupPlan) → HasRoom plan self.old → HasRoom plan self.new }
        ensures there { (number : ℕ) → is_there self.new number ≡ (number == place.number || is_there self.old number) }
        ensures bytes { (plan : GroupPlan) → IsPlace plan place → (number : ℕ)
            → bytes_at plan self.new number
            ≡ (if number == place.number && not (is_there self.old number) then bytes.now else bytes_at plan self.old number) }
    {
        if self.map.has(place.number) {
            return;
        }
        write_at(&mut self.buffer, place.at as usize, bytes);
        self.map.mark(place.number);
    }

    /// Whether the place is there.
    pub fn has(&self, number: u32) -> bool
        requires { number < self.now.map.places }
        ensures { result ≡ is_there self.now number }
    {
        self.map.has(number)
    }

    /// How many places are not there.
    pub fn missing(&self) -> u32
        ensures { result ≡ missing_in self.now }
    {
        self.map.missing()
    }

    /// The bytes of the image. Those of a place that is missing say nothing.
    pub fn bytes(&self) -> &[u8]
        ensures image { result.now ≡ image_of self.now }
        ensures len { length result.now ≡ self.now.total }
    {
        &self.buffer[..self.total as usize]
    }

    /// The bytes of the image.
    pub fn into_bytes(self) -> Vec<u8>
        ensures image { result.items ≡ image_of self }
        ensures len { length result.items ≡ self.total }
    {
        let GroupImage {
            map: _,
            total,
            mut buffer,
        } = self;
        buffer.truncate(total as usize);
        buffer
    }

    /// The CRC of the bytes of a module.
    pub fn module_crc(&self, plan: &ModulePlan) -> u32
        requires { plan.now.at + plan.now.size ≤ self.now.total }
        ensures { result ≡ crc_of (module_bytes (image_of self.now) plan.now) }
    {
        crc_of_part(self.bytes(), plan.at as usize, plan.size as usize)
    }
}
