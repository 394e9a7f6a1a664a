//! The plan that a DII gives.

ghost use Rattle.std.specs.Prelude.{◌≡◌, ◌<◌, ◌≤◌, ◌^◌, [], None, Some, MatchResult, IfOk, IfErr, sum_by};
ghost use Rattle.ssu_group.specs.Plan.{blocks_of, laid_out};
ghost use Rattle.ssu_group.specs.Refusal.{refusal, total_of as sum_of_sizes};
ghost use Rattle.ssu_group.specs.Lays.{IsPlanOf};

use crate::group_plan::GroupPlan;
use crate::module_passes::{crc_in, first_compressed, first_too_many, first_twice, total_of};
use crate::module_plan::ModulePlan;
use crate::unusable::Unusable;
use arrayvec::ArrayVec;
use dsmcc_msg::Dii;

/// The bytes of the group, if it can be used.
#[tactic(auto, unfolding(crate::specs::Refusal::refusal))]
fn usable_bytes(dii: &Dii<'_>, bank_len: u32) -> Result<u32, Unusable>
    ensures { MatchResult result
        (λ total. (refusal dii.now bank_len ≡ None) × (total ≡ sum_of_sizes dii.now.modules))
        (λ why. refusal dii.now bank_len ≡ Some why) }
{
    if let Some(id) = first_compressed(dii) {
        return Err(Unusable::Compressed(id));
    }
    if dii.block_size == 0 || dii.block_size > 4066 {
        return Err(Unusable::NoBlockSize);
    }
    if let Some(id) = first_too_many(dii, dii.block_size) {
        return Err(Unusable::TooManyBlocks(id));
    }
    if let Some(id) = first_twice(dii) {
        return Err(Unusable::TwiceModule(id));
    }
    let total = total_of(dii);
    if total > u64::from(bank_len) {
        return Err(Unusable::TooLong(total));
    }
    if total == 0 {
        return Err(Unusable::Empty);
    }
    Ok(total as u32)
}

/// The blocks and the bytes of modules.
struct Sums {
    places: u32,
    total: u32,
}

/// Lays the modules one after the other, where the caller keeps them: there are many, and each copy of them is one on the stack.
#[inline]
#[tactic(auto, unfolding(crate::specs::Plan::laid_out))]
fn lay(modules: &mut ArrayVec<ModulePlan, 512>, dii: &Dii<'_>, block_size: u16) -> Sums
    requires none { modules.old.items ≡ [] }
    requires some { 1 ≤ block_size }
    requires bytes { sum_of_sizes dii.now.modules < 2 ^ 32 }
    requires blocks { sum_by (blocks_of block_size) dii.now.modules < 2 ^ 32 }
    ensures modules { modules.new.items ≡ laid_out block_size 0 0 dii.now.modules }
    ensures places { result.places ≡ sum_by (blocks_of block_size) dii.now.modules }
    ensures total { result.total ≡ sum_of_sizes dii.now.modules }
{
    let mut places = 0u32;
    let mut total = 0u32;
    for module in dii.modules() {
        let blocks = module.size.div_ceil(u32::from(block_size));
        modules.push(ModulePlan {
            id: module.id,
            version: module.version,
            size: module.size,
            at: total,
            first: places,
            blocks,
            crc: crc_in(module.info),
        });
        total += module.size;
        places += blocks;
    }
    Sums { places, total }
}

impl GroupPlan {
    /// The plan of the group whose DII this is, for a bank of `bank_len` bytes. It takes no memory.
    ///
    /// Answers exactly the first of these that holds: `Compressed` where a module has a compressed_module descriptor,
    /// `NoBlockSize` where the block size is 0 or above 4,066 bytes, `TooManyBlocks` where a module has more than
    /// 65,536 blocks, `TwiceModule` where a module's id stood earlier, `TooLong` where the modules have more bytes
    /// than the bank, and `Empty` where they have none.
    #[inline]
    pub fn of(dii: &Dii<'_>, bank_len: u32) -> Result<GroupPlan, Unusable>
        ensures usable { IfOk result (λ p. (refusal dii.now bank_len ≡ None) × IsPlanOf dii.now p) }
        ensures fits { IfOk result (λ p. p.total ≤ bank_len) }
        ensures refused { IfErr result (λ why. refusal dii.now bank_len ≡ Some why) }
    {
        match usable_bytes(dii, bank_len) {
            Err(why) => Err(why),
            Ok(_) => {
                let block_size = dii.block_size;
                let mut modules = ArrayVec::new();
                let Sums { places, total } = lay(&mut modules, dii, block_size);
                Ok(GroupPlan {
                    download: dii.download,
                    block_size,
                    modules,
                    places,
                    total,
                })
            }
        }
    }
}
