//! The lists that a stage keeps of a group.

ghost use Rattle.std.specs.Prelude.{◌≡◌, ◌≤◌, length, vec_capacity};

use ssu_group::ModulePlan;

/// As many modules as a plan has at most.
pub(crate) const MOST_MODULES: usize = 512;

/// As many bytes as the message of a DII has at most.
pub(crate) const MOST_MESSAGE: usize = 4084;

/// Takes other modules in the place of those before. There is room for them, so no memory is taken.
pub(crate) fn replace_modules(modules: &mut Vec<ModulePlan>, by: &[ModulePlan])
    requires room { 512 ≤ vec_capacity modules.old }
    requires few { length by.now ≤ 512 }
    ensures items { modules.new.items ≡ by.now }
    ensures room { 512 ≤ vec_capacity modules.new }
{
    modules.clear();
    let _ = modules.extend_from_slice(by);
}

/// Takes another message in the place of the one before. There is room for it, so no memory is taken.
pub(crate) fn replace_message(message: &mut Vec<u8>, by: &[u8])
    requires room { 4084 ≤ vec_capacity message.old }
    requires few { length by.now ≤ 4084 }
    ensures items { message.new.items ≡ by.now }
    ensures room { 4084 ≤ vec_capacity message.new }
{
    message.clear();
    let _ = message.extend_from_slice(by);
}
