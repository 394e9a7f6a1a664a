//! What the calls of a bank leave of what a flash keeps of a group that is not whole yet: what whole contents hold and have staged, as
//! definitions, and laws.
#![tactic(auto)]

mod laws;

pub use laws::{
    calls_change_their_part, calls_hold_no_more, calls_keep_what_is_staged,
    committed_record_holds_nothing, erased_journal_holds_nothing, header_stages_its_group,
    offers_stage_one_place, one_group_is_held, resumed_area_keeps_all,
};
