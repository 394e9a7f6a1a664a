//! A stage that keeps its places over a power loss: the journal beside the spare bank says what stands there.
#![tactic(auto)]

mod begin;
mod blank;
mod header;
mod journal_stage;
mod lists;
mod places;
mod read_back;
mod reading;
mod side;
mod slot;
mod staged;
mod store;
mod stored;
mod texts;

pub use flash_kept::margin_holds;
pub use journal_stage::JournalStage;
