//! The loader of a set-top box: it replays a transport stream, follows the way to an update, collects the group and installs
//! it, so that boot takes the old image or the new one whatever happens. ETSI TS 102 006; ETSI EN 301 192, 8.1.
#![tactic(auto)]

mod blocks;
mod collector;
mod fault;
mod gather;
mod hearing;
mod laws;
mod life;
mod loader;
mod replaying;
mod settle;
mod wrong;

pub use fault::LoadFault;
pub use laws::{
    decisions_are_one, first_choice_has_what_is_staged, packets_go_on, places_are_kept,
    window_counts_alone, windows_count_alone,
};
pub use life::{
    formatted_flash_begins_a_life, life_holds, opening_is_what_is_staged,
    places_are_staged_or_heard, steps_go_on,
};
pub use loader::Loader;
pub use replaying::replay;
pub use ssu_answer::{Chosen, Level, Verdict};
