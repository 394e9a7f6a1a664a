//! The CRCs of parts of the image, made as the blocks come.

ghost use Rattle.std.specs.Prelude.{◌≡◌, ◌<◌, ◌+◌, ◌^◌, ◌⊎◌, ◌++◌, ◌∷◌, [], ℕ, List, All, IfOk, IfSome, IsTrue, drop, take};
ghost use Rattle.ts_crc.specs.Crc.{start, after_bytes, crc_of};
ghost use Rattle.ssu_group.specs.declared.group_plan.GroupPlan.{GroupPlan};
ghost use Rattle.group_image.specs.Image.{Collected};
ghost use Rattle.tool_load.specs.Growing.{Carries, Fills, IsSum, IsCrcIn, IsLonger};

use crc_join::{BlockJoin, resumed};
use ssu_group::{GroupPlan, ModulePlan, Place};
use ssu_io::NoMemory;
use std::alloc::Global;
use std::marker::Model;

/// The CRC of no bytes.
const START: u32 = 0xFFFF_FFFF;

/// The least block whose CRC is joined: the bytes of a shorter one take less time.
const MIN_JOINED: u16 = 256;

/// The CRC of the bytes of the image from one place to another.
#[derive(Clone, Copy, Debug, PartialEq, Eq)]
pub(crate) struct Sum {
    pub(crate) at: u32,
    pub(crate) end: u32,
    pub(crate) register: u32,
}

/// The CRCs of the modules whose blocks come in their order, so that the bytes of these need not be read again.
///
/// A contract sees a list of sums, of which each is the CRC of a part of the image.
#[derive(Drop)]
pub(crate) struct Sums {
    join: BlockJoin,
    // the part that the next block may go on with
    last: Sum,
    done: Vec<Sum>,
}

impl Model for Sums {
    ghost use Rattle.std.specs.Prelude.{List, ◌∷◌};
    ghost use Rattle.tool_load.specs.declared.sums.Sum.{Sum};

    ghost Value = { List Sum };

    ghost view = { λ s. s.last ∷ s.done.items };
}

/// The register after the bytes that the section carries. The CRC of the section tells it, where they are as many as most
/// blocks have.
fn after(join: &BlockJoin, register: u32, section: &[u8], bytes: &[u8]) -> Option<u32>
    requires { Carries section.now bytes.now }
    ensures { IfSome result (λ after. after ≡ after_bytes register bytes.now) }
{
    if bytes.len() == join.len() as usize {
        Some(join.joined(register, section))
    } else {
        resumed(register, bytes)
    }
}

/// The part with the bytes of the place, if that begins where the part ends.
fn with_place(
    join: &BlockJoin,
    part: Sum,
    place: Place,
    section: &[u8],
    bytes: &[u8],
) -> Option<Sum>
    requires carries { Carries section.now bytes.now }
    requires small { place.at + place.len < 2 ^ 32 }
    ensures { IfSome result (λ sum. IsLonger part place bytes.now sum) }
{
    if part.end != place.at {
        return None;
    }
    let register = after(join, part.register, section, bytes)?;
    Some(Sum {
        at: part.at,
        end: place.at + u32::from(place.len),
        register,
    })
}

impl Sums {
    /// For the image of this plan, with no block yet. All memory is taken here.
    pub(crate) fn new(alloc: Global, plan: &GroupPlan) -> Result<Sums, NoMemory>
        ensures { IfOk result (λ sums. (image : Collected) → All (IsSum plan.now image) sums) }
    {
        let done = Vec::with_capacity(alloc, plan.modules.len())?;
        Ok(Sums {
            join: BlockJoin::new(plan.block_size),
            last: empty_at(0),
            done,
        })
    }

    /// Takes the block of a place that was missing. A part begins at the first block of a module.
    pub(crate) fn take(&mut self, place: Place, is_first: bool, section: &[u8], bytes: &[u8])
        requires carries { Carries section.now bytes.now }
        requires small { place.at + place.len < 2 ^ 32 }
        ensures { (plan : GroupPlan) (old new : Collected) → Fills plan old place bytes.now new
            → All (IsSum plan old) self.old → All (IsSum plan new) self.new }
    {
        if self.join.len() < MIN_JOINED {
            return;
        }
        if is_first {
            if let Some(sum) = with_place(&self.join, empty_at(place.at), place, section, bytes) {
                keep(&mut self.done, self.last);
                self.last = sum;
            }
        } else if let Some(sum) = with_place(&self.join, self.last, place, section, bytes) {
            self.last = sum;
        }
    }

    /// The CRC of the bytes of a module, if it is known.
    #[tactic(auto, using(crate::proofs::GrowingLaws::crc_found))]
    pub(crate) fn of(&self, part: &ModulePlan) -> Option<u32>
        ensures { (buffer : List ℕ) → All (IsCrcIn buffer) self.now
            → IfSome result (λ crc. crc ≡ crc_of (take part.now.size (drop part.now.at buffer))) }
    {
        if is_of(self.last, part) {
            return Some(self.last.register);
        }
        found_in(self.done.as_slice(), part)
    }
}

/// Keeps the sum, if there is room.
fn keep(done: &mut Vec<Sum>, sum: Sum)
    ensures { done.new.items ≡ done.old.items ⊎ done.new.items ≡ done.old.items ++ sum ∷ [] }
{
    let _ = done.push(sum);
}

/// Whether these are the bytes of the module.
fn is_of(sum: Sum, part: &ModulePlan) -> bool
    ensures { IsTrue result → (sum.at ≡ part.now.at) × (sum.end ≡ part.now.at + part.now.size) }
{
    sum.at == part.at && u64::from(sum.end) == u64::from(part.at) + u64::from(part.size)
}

#[tactic(auto, using(crate::proofs::GrowingLaws::crc_found))]
fn found_in(sums: &[Sum], part: &ModulePlan) -> Option<u32>
    ensures { (buffer : List ℕ) → All (IsCrcIn buffer) sums.now
        → IfSome result (λ crc. crc ≡ crc_of (take part.now.size (drop part.now.at buffer))) }
{
    for sum in sums {
        if is_of(*sum, part) {
            return Some(sum.register);
        }
    }
    None
}

/// No bytes from this place on.
fn empty_at(at: u32) -> Sum
    ensures { result ≡ record { at = at; end = at; register = start } }
{
    Sum {
        at,
        end: at,
        register: START,
    }
}
