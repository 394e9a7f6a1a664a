//! The plan of a group.

ghost use Rattle.ssu_group.specs.Plan.{IsPlan};

use crate::module_plan::ModulePlan;
use arrayvec::ArrayVec;

/// The plan of a group, whose image is its modules joined in the order of the DII. `places` counts its blocks and
/// `total` its bytes.
#[derive(Drop)]
pub struct GroupPlan {
    /// downloadId.
    pub download: u32,
    /// blockSize, in bytes.
    pub block_size: u16,
    /// The modules, in the order of the DII.
    pub modules: ArrayVec<ModulePlan, 512>,
    /// The number of blocks of all modules.
    pub places: u32,
    /// The bytes of all modules.
    pub total: u32,
    pub ghost planned: { IsPlan block_size modules.items places total },
}
