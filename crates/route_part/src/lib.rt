//! Parts of a history, newest item first: the part since a value changed, what its last or first item says, and
//! how one item more changes each of these. The crate has definitions and laws alone; what keeps such a value in
//! small fields cites them.
#![tactic(auto)]

mod laws;

pub use laws::{
    by_part, first_steps, fixed_steps, held_steps, last_steps, since_steps, steady_steps,
};
