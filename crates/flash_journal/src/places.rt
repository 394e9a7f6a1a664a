//! The places of a plan, by their numbers and by their ranges.

ghost use Rattle.std.specs.Prelude.{◌≡◌, ◌+◌, ◌*◌, ◌-◌, ◌<◌, ◌≤◌, ◌^◌, IfNone, IfSome, Some, min, ℕ};
ghost use Rattle.ssu_group.specs.Place.{block_length, place_at};
ghost use Rattle.ssu_group.specs.declared.places.Place.{Place};

use crate::slot::SlotRange;
use ssu_group::{GroupPlan, Place};

/// The place of a block of a module, which has that number and begins so many blocks and bytes behind the front of the image.
fn block_place(block_size: u16, size: u32, at: u32, first: u32, block: u32) -> Place
    requires some { 1 ≤ block_size }
    requires begins { block * block_size < size }
    requires bytes { at + size < 2 ^ 32 }
    requires number { first + block < 2 ^ 32 }
    ensures number { result.number ≡ first + block }
    ensures at { result.at ≡ at + block * block_size }
    ensures len { result.len ≡ block_length block_size size block }
{
    let offset = (u64::from(block) * u64::from(block_size)) as u32;
    let len = (size - offset).min(u32::from(block_size));
    Place {
        number: first + block,
        at: at + offset,
        len: len as u16,
    }
}

/// The place of that number; `None` exactly where the plan has none.
pub(crate) fn nth_place(plan: &GroupPlan, number: u32) -> Option<Place>
    ensures { result ≡ place_at plan.now.block_size plan.now.modules.items number }
{
    let mut at = 0u32;
    let mut first = 0u32;
    for module in plan.modules.as_slice() {
        if number - first < module.blocks {
            return Some(block_place(plan.block_size, module.size, at, first, number - first));
        }
        at += module.size;
        first += module.blocks;
    }
    None
}

/// The first place that has just this range; `None` exactly where the plan has none.
pub(crate) fn place_with(plan: &GroupPlan, range: SlotRange) -> Option<Place>
    ensures found { IfSome result (λ p. (place_at plan.now.block_size plan.now.modules.items p.number ≡ Some p)
        × (p.at ≡ range.at) × (p.len ≡ range.len)) }
    ensures none { IfNone result ((n : ℕ) (p : Place) → place_at plan.now.block_size plan.now.modules.items n ≡ Some p
        → p.at ≡ range.at → p.len ≡ range.len → ⊥) }
{
    let mut number = 0u32;
    while number < plan.places {
        if let Some(place) = nth_place(plan, number) {
            if place.at == range.at && u32::from(place.len) == range.len {
                return Some(place);
            }
        }
        number += 1;
    }
    None
}
