//! The numbers and the names of the levels.

use crate::check::same;
use ssu_answer::Level;
use std::test::Fail;

#[test]
fn levels_have_their_numbers_and_names(rt: HostRuntime) -> Result<(), Fail> {
    let rows = [
        (Level::Linkage, 1u8, "linkage"),
        (Level::Program, 2, "program"),
        (Level::Component, 3, "component"),
        (Level::Notice, 4, "notice"),
        (Level::Window, 5, "window"),
        (Level::Group, 6, "group"),
        (Level::Modules, 7, "modules"),
    ];
    for (level, number, name) in rows {
        same(&rt, &level.number(), &number);
        same(&rt, &level.name(), &name);
    }
    Ok(())
}
