//! The ranges of a plan's fields, which its types keep.
ghost use Rattle.std.specs.Prelude.{◌≡◌, ◌^◌, ◌<◌, ◌≤◌, length};
ghost use Rattle.std.specs.List.{All};
ghost use Rattle.broadcast_laws.specs.Planned.{IsGroupInRange};

use head_plan::{Plan, PlanGroup};

/// The fields of a plan are in their ranges.
pub(crate) fn read_ranges(plan: &Plan)
    ensures oui { plan.now.oui < 2 ^ 24 }
    ensures few { length plan.now.group ≤ 16 }
    ensures groups { All IsGroupInRange plan.now.group }
{
    let _oui = plan.oui.get();
    for group in plan.group.as_slice() {
        read_group(group);
    }
}

/// So are those of a group.
fn read_group(group: &PlanGroup)
    ensures { IsGroupInRange group.now }
{
    let _model = half(group.model);
    let _version = half(group.version);
    let _software_model = half(group.software_model);
    let _software_version = half(group.software_version);
    let _module_version = byte(group.module_version);
    let _files = group.modules.count();
}

/// A number of 16 bits.
fn half(n: u16) -> u16
    ensures value { result ≡ n }
    ensures range { n < 2 ^ 16 }
{
    n
}

/// A number of 8 bits.
fn byte(n: u8) -> u8
    ensures value { result ≡ n }
    ensures range { n < 2 ^ 8 }
{
    n
}
