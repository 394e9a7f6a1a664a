//! The modules of a plan, which a stage keeps.

ghost use Rattle.std.specs.Prelude.{◌≡◌, ◌≤◌, length, vec_capacity};

use ssu_group::ModulePlan;

/// As many modules as a plan has at most.
pub(crate) const MOST_MODULES: usize = 512;

/// Takes other modules in the place of those before. There is room for them, so no memory is taken.
pub(crate) fn replace(modules: &mut Vec<ModulePlan>, by: &[ModulePlan])
    requires room { 512 ≤ vec_capacity modules.old }
    requires few { length by.now ≤ 512 }
    ensures items { modules.new.items ≡ by.now }
    ensures room { 512 ≤ vec_capacity modules.new }
{
    modules.clear();
    let _ = modules.extend_from_slice(by);
}
