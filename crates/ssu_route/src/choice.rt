//! The group that the box wants now.

use arrayvec::ArrayVec;
use ssu_compat::SwId;
use ssu_group::GroupPlan;

/// A group whose modules the box collects.
#[derive(Drop)]
pub struct Choice {
    /// The id of the group.
    pub group: u32,
    /// The software that the group offers; model 0 and version 0 where it names none.
    pub software: SwId,
    /// Where the modules and blocks of the group stand.
    pub plan: GroupPlan,
    /// The message of the DII that the plan is of, from its first byte to its last.
    pub message: ArrayVec<u8, 4084>,
}
