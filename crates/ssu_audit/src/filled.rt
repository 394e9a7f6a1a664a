//! The blocks that are kept for the places of a plan. ETSI EN 301 192, 8.1.

ghost use Rattle.std.specs.Prelude.{◌≡◌, ◌≤◌};
ghost use Rattle.std.specs.Option.{option_map};
ghost use Rattle.ts_crc.specs.Crc.{crc_of};
ghost use Rattle.ssu_audit.specs.Filled.{missing_in as missing_block, missing_of, text_at, text_of, wrong_of};
ghost use Rattle.ssu_audit.specs.Kept.{block_at};
ghost use Rattle.ssu_group.specs.Carried.{crc_is};
ghost use Rattle.ssu_group.specs.Place.{block_length};

use crate::kept::Kept;
use crate::key::BlockKey;
use ssu_group::{GroupPlan, ModulePlan};
use std::collections::HashMap;
use ts_crc::Register;

/// The bytes kept of a block of a module, if they have the length of its place.
#[tactic(auto, unfolding(crate::specs::Filled::text_at))]
fn text<'a>(
    blocks: &'a HashMap<BlockKey, Kept>,
    plan: &GroupPlan,
    module: &ModulePlan,
    block: u16,
) -> Option<&'a [u8]>
    ensures { option_map (λ t. t.now) result ≡ text_at (block_at blocks.now) plan.now module.now block }
{
    let key = BlockKey {
        download: plan.download,
        module_id: module.id,
        version: module.version,
        block,
    };
    let kept = blocks.get(&key)?;
    if kept.bytes.len() as u64 != length_of(plan.block_size, module.size, block) {
        return None;
    }
    Some(kept.bytes.as_slice())
}

/// How many bytes a block of a module of so many bytes has.
fn length_of(block_size: u16, size: u32, block: u16) -> u64
    ensures { result ≡ block_length block_size size block }
{
    let begin = u64::from(block) * u64::from(block_size);
    u64::from(size)
        .saturating_sub(begin)
        .min(u64::from(block_size))
}

/// The first block of a module that is not kept.
fn missing_in(
    blocks: &HashMap<BlockKey, Kept>,
    plan: &GroupPlan,
    module: &ModulePlan,
) -> Option<u32>
    requires { module.now.blocks ≤ 65536 }
    ensures { result ≡ missing_block (block_at blocks.now) plan.now module.now }
{
    for block in 0..module.blocks {
        if text(blocks, plan, module, block as u16).is_none() {
            return Some(block);
        }
    }
    None
}

/// The number of the first place of the plan whose block is not kept.
pub(crate) fn first_missing(blocks: &HashMap<BlockKey, Kept>, plan: &GroupPlan) -> Option<u32>
    ensures { result ≡ missing_of (block_at blocks.now) plan.now plan.now.modules.items }
{
    for module in plan.modules.as_slice() {
        if let Some(block) = missing_in(blocks, plan, module) {
            return Some(module.first + block);
        }
    }
    None
}

/// The CRC of the bytes of a module, joined of what is kept.
fn crc_of_module(blocks: &HashMap<BlockKey, Kept>, plan: &GroupPlan, module: &ModulePlan) -> u32
    requires { module.now.blocks ≤ 65536 }
    ensures { result ≡ crc_of (text_of (block_at blocks.now) plan.now module.now) }
{
    let mut register = Register::new();
    for block in 0..module.blocks {
        if let Some(bytes) = text(blocks, plan, module, block as u16) {
            register.push(bytes);
        }
    }
    register.value()
}

/// Has the module the CRC that its descriptor gives, if it has one?
fn is_right(blocks: &HashMap<BlockKey, Kept>, plan: &GroupPlan, module: &ModulePlan) -> bool
    requires { module.now.blocks ≤ 65536 }
    ensures { result ≡ crc_is (text_of (block_at blocks.now) plan.now module.now) module.now.crc }
{
    match module.crc {
        Some(crc) => crc_of_module(blocks, plan, module) == crc,
        None => true,
    }
}

/// The id of the first module of the plan that has not the CRC of its descriptor.
pub(crate) fn first_wrong(blocks: &HashMap<BlockKey, Kept>, plan: &GroupPlan) -> Option<u16>
    ensures { result ≡ option_map (λ m. m.id) (wrong_of (block_at blocks.now) plan.now plan.now.modules.items) }
{
    for module in plan.modules.as_slice() {
        if !is_right(blocks, plan, module) {
            return Some(module.id);
        }
    }
    None
}
