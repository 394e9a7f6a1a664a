//! What stands against a group of the DSI.

ghost use Rattle.std.specs.Prelude.{◌≡◌, ◌<◌, List, ℕ};
ghost use Rattle.ssu_group.specs.Carried.{filling};
ghost use Rattle.ssu_group.specs.declared.group_plan.GroupPlan.{GroupPlan};
ghost use Rattle.ssu_audit.specs.Calls.{Call};
ghost use Rattle.ssu_audit.specs.Ending.{AgainstGroup};
ghost use Rattle.ssu_audit.specs.Filled.{against_kept};
ghost use Rattle.ssu_audit.specs.Kept.{block_at, dii_at};
ghost use Rattle.ssu_audit.specs.Standing.{HoldsGroups};

use crate::filled::{first_missing, first_wrong};
use crate::kept::Kept;
use crate::key::BlockKey;
use crate::reading::dii_in;
use audit_answer::AuditNo;
use ssu_answer::BANK_LEN;
use ssu_group::GroupPlan;
use std::collections::HashMap;

/// The first fact against a group that the DSI lists with this size, where this is its plan.
fn against_plan(
    blocks: &HashMap<BlockKey, Kept>,
    plan: &GroupPlan,
    group: u32,
    size: u32,
) -> Option<AuditNo>
    ensures { result ≡ against_kept group size plan.now (block_at blocks.now) }
{
    if size != plan.total {
        return Some(AuditNo::SizeDiffers(group, size, u64::from(plan.total)));
    }
    if let Some(place) = first_missing(blocks, plan) {
        return Some(AuditNo::PlaceMissing(group, place));
    }
    match first_wrong(blocks, plan) {
        Some(id) => Some(AuditNo::BadModule(group, id)),
        None => None,
    }
}

/// The first fact against a group that the DSI lists with this size.
pub(crate) fn against_group(
    diis: &HashMap<u32, Kept>,
    blocks: &HashMap<BlockKey, Kept>,
    group: u32,
    size: u32,
) -> Option<AuditNo>
    ensures { (calls : List Call) → HoldsGroups calls (dii_at diis.now) (block_at blocks.now) → AgainstGroup calls group size result }
{
    let Some(kept) = diis.get(&group) else {
        return Some(AuditNo::NoDii(group));
    };
    let Some(dii) = dii_in(kept.bytes.as_slice()) else {
        return Some(AuditNo::NoDii(group));
    };
    match GroupPlan::of(&dii, BANK_LEN) {
        Ok(plan) => against_plan(blocks, &plan, group, size),
        Err(_) => Some(AuditNo::Unusable(group)),
    }
}
