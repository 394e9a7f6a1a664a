//! Items with due numbers: the item with the least number is found through lists of items, one for each slot of a wheel.
#![tactic(auto)]

mod links;
mod steps;
mod wheel;

pub use links::Links;
pub use steps::Steps;
pub use wheel::Wheel;
