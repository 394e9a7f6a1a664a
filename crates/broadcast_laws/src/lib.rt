//! What a box can have heard of a broadcast, and what a broadcast can have told a box: definitions and laws alone. With the premise
//! that no damaged section passes for a right one, a group that a box heard whole is a group of the plan.
#![tactic(auto)]

mod laws;

pub use laws::{
    blocks_join_to_files, groups_are_told_apart, heard_groups_are_planned,
    heard_sections_are_right, planned_blocks, planned_diis, planned_dsis, received_groups,
    received_modules, received_windows, undeceived_boxes_hear_what_is_sent,
};
