//! What the yes of an audit means for a box: the image that a replay of audited packets installs is the one image of its group.
//! ETSI TS 102 006; ETSI EN 301 192, 8.1.
#![tactic(auto)]

mod laws;

pub use laws::{installed_groups_are_collected, yes_holds_for_replay, yes_holds_for_sections};
