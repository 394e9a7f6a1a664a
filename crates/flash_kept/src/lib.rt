//! What a flash of layout 2 keeps of a group that is not whole yet: what its spare area holds and what of it counts as staged, as
//! definitions, and what the calls that change the area leave of both, as laws.
#![tactic(auto)]

mod laws;

pub use laws::{
    areas_are_in_order, blank_place_is_filled_and_marked, contents_tell_what_is_staged,
    erased_block_adds_nothing, lost_place_goes_to_a_slot, margin_holds, new_header_holds_no_place,
    places_are_blank_or_lost, same_area_keeps_all, same_header_holds_the_same_message,
};
