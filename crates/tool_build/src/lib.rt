//! `build`: the packets of the plan in `plan.toml`.
#![tactic(auto)]

mod building;
mod images;
mod plan_text;

pub use building::build;
