//! The groups of a plan with the images of their files.
ghost use Rattle.std.specs.Prelude.{◌≡◌, ◌≤◌, IfOk, length, map};
ghost use Rattle.head_plan.specs.Plans.{mentions};
ghost use Rattle.head_carousel.specs.GroupFiles.{groups_from};

use head_plan::PlanGroup;
use ssu_io::NoMemory;
use std::alloc::Global;
use std::marker::Model;

/// A group of a plan with the bytes of its files, in the order of its names.
#[derive(Drop)]
pub(crate) struct GroupFiles<'a> {
    pub(crate) id: u32,
    pub(crate) group: &'a PlanGroup,
    pub(crate) files: &'a [Vec<u8>],
}

impl<'a> Model for GroupFiles<'a> {
    ghost use Rattle.std.specs.Prelude.{◌≡◌, ◌≤◌, length, map};
    ghost use Rattle.head_carousel.specs.GroupFiles.{GroupFiles};

    ghost Value = { GroupFiles };

    ghost view = { λ g. record { id = g.id; group = g.group.now; files = map (λ v. v.items) g.files.now } };

    ghost invariant = { λ g. (length g.files.now ≡ length g.group.now.modules) × (length g.files.now ≤ 256) };
}

/// The groups of a plan, each with as many of the images as it has names.
pub(crate) fn groups_with_files<'a>(
    alloc: Global,
    groups: &'a [PlanGroup],
    images: &'a [Vec<u8>],
) -> Result<Vec<GroupFiles<'a>>, NoMemory>
    requires few { length groups.now ≤ 16 }
    requires images { length images.now ≡ length (mentions groups.now) }
    ensures { IfOk result (λ v. v.items ≡ groups_from 0 groups.now (map (λ i. i.items) images.now)) }
{
    let mut out = Vec::new(alloc);
    let mut rest = images;
    for (index, group) in groups.iter().enumerate() {
        let (files, behind) = rest.split_at(group.modules.count());
        let id = 0x8000_0002 + 2 * index as u32;
        out.push(GroupFiles { id, group, files })?;
        rest = behind;
    }
    Ok(out)
}
