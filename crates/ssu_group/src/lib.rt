//! The plan of a group of a software update: ETSI TS 102 006; ETSI EN 301 192, 8.1.
#![tactic(auto)]

mod block_map;
mod block_places;
mod group_plan;
mod laws;
mod layout;
mod module_passes;
mod module_plan;
mod places;
mod unusable;
mod wrong;

pub use block_map::BlockMap;
pub use group_plan::GroupPlan;
pub use laws::{modules_lie_in_order, places_fill_image, twice_is_the_first_that_stood_earlier};
pub use module_plan::ModulePlan;
pub use places::Place;
pub use unusable::Unusable;
pub use wrong::Wrong;
