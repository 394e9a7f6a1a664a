//! The files that a plan mentions, one after the other.
ghost use Rattle.std.specs.Prelude.{◌≡◌, ◌<◌, ◌≤◌, Some, length, slice_get};
ghost use Rattle.head_plan.specs.Plans.{mentions};

use crate::groups::PlanGroup;
use crate::plan::Plan;
use ssu_io::FileName;

impl Plan {
    /// How many files the groups mention. A file that is mentioned twice counts twice.
    pub fn file_count(&self) -> u32
        ensures value { result ≡ length (mentions self.now.group) }
        ensures few { result ≤ 4096 }
    {
        count_in(self.group.as_slice())
    }

    /// The file of the mention `k`, from 0 on, group by group.
    pub fn file(&self, k: u32) -> FileName
        requires { k < length (mentions self.now.group) }
        ensures { slice_get (mentions self.now.group) k ≡ Some result.bytes }
    {
        file_in(self.group.as_slice(), k as usize)
    }
}

fn count_in(groups: &[PlanGroup]) -> u32
    requires { length groups.now ≤ 16 }
    ensures value { result ≡ length (mentions groups.now) }
    ensures few { result ≤ 4096 }
{
    let mut count = 0;
    for group in groups {
        count += group.modules.count() as u32;
    }
    count
}

fn file_in(groups: &[PlanGroup], k: usize) -> FileName
    requires { k < length (mentions groups.now) }
    ensures { slice_get (mentions groups.now) k ≡ Some result.bytes }
{
    let mut left = k;
    for group in groups {
        let count = group.modules.count();
        if left < count {
            return group.modules.name(left);
        }
        left -= count;
    }
    unreachable!()
}
