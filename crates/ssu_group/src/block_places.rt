//! The place that a block fills.

ghost use Rattle.std.specs.Prelude.{◌≡◌, ◌+◌, ◌*◌, ◌<◌, ◌≤◌, ◌^◌, IfSome, Some};
ghost use Rattle.std.specs.Int.{div_ceil};
ghost use Rattle.std.specs.List.{find};
ghost use Rattle.dsmcc_msg.specs.View.{ddb_view};
ghost use Rattle.ssu_group.specs.Place.{IsPlace, block_place, is_module_of, place_of};

use crate::group_plan::GroupPlan;
use crate::module_plan::ModulePlan;
use crate::places::Place;
use dsmcc_msg::Ddb;

/// The module of the block, by id and version.
fn module_of(modules: &[ModulePlan], ddb: &Ddb<'_>) -> Option<ModulePlan>
    ensures { result ≡ find (is_module_of (ddb_view ddb.now)) modules.now }
{
    for module in modules {
        if module.id == ddb.module && module.version == ddb.version {
            return Some(*module);
        }
    }
    None
}

/// The place of the block in its module, if the module has such a block of just so many bytes.
fn place_in_module(plan: ModulePlan, block_size: u16, ddb: &Ddb<'_>) -> Option<Place>
    requires some { 1 ≤ block_size }
    requires count { plan.blocks ≡ div_ceil plan.size block_size }
    requires bytes { plan.at + plan.size < 2 ^ 32 }
    requires blocks { plan.first + plan.blocks < 2 ^ 32 }
    ensures { result ≡ block_place block_size (ddb_view ddb.now) plan }
{
    let block = u32::from(ddb.block);
    if block >= plan.blocks {
        return None;
    }
    let offset = begin(plan.size, block_size, ddb.block);
    let len = (plan.size - offset).min(u32::from(block_size));
    if ddb.bytes.len() != len as usize {
        return None;
    }
    Some(Place {
        number: plan.first + block,
        at: plan.at + offset,
        len: len as u16,
    })
}

/// The byte of a module at which a block begins.
fn begin(size: u32, block_size: u16, block: u16) -> u32
    requires some { 1 ≤ block_size }
    requires below { block < div_ceil size block_size }
    ensures exact { result ≡ block * block_size }
    ensures inside { result < size }
{
    (u64::from(block) * u64::from(block_size)) as u32
}

impl GroupPlan {
    /// The place that the block fills. None comes exactly where the download id, a module's id and version, the block's
    /// number or its exact length do not fit.
    #[tactic(auto, unfolding(crate::specs::Place::place_of))]
    pub fn place(&self, ddb: &Ddb<'_>) -> Option<Place>
        ensures exact { result ≡ place_of self.now (ddb_view ddb.now) }
        ensures of_the_plan { IfSome result (λ p. IsPlace self.now p) }
    {
        if ddb.download != self.download {
            return None;
        }
        match module_of(self.modules.as_slice(), ddb) {
            None => None,
            Some(module) => place_in_module(module, self.block_size, ddb),
        }
    }
}
