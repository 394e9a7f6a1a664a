//! The laws of the parts of a route, called at concrete types.

use route_part::*;

#[test]
fn each_law_holds_at_concrete_types() {
    since_steps::<u8, u16>();
    steady_steps::<u8, u16>();
    last_steps::<u8, u16>();
    first_steps::<u8, u16>();
    fixed_steps::<u8, u16, u32>();
    held_steps::<u8, u16, u32>();
    by_part::<u8, u16, u32, u64>();
}
