//! The places of a group while they are staged, and what boot takes of the flash meanwhile.
#![tactic(auto)]

mod bank_stage;
mod install;
mod laws;
mod modules;
mod ram_stage;
mod read_back;
mod stage;

pub use bank_stage::BankStage;
pub use laws::{banks_stay, calls_go_on, modules_join_their_places, same_modules_have_one_outline};
pub use ram_stage::RamStage;
pub use stage::Stage;
