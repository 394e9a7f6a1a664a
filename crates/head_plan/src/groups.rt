//! The groups of a plan.
ghost use Rattle.std.specs.Prelude.{◌≡◌, ◌≤◌, length};

use crate::files::Files;
use std::marker::Model;

/// A group: a hardware, the software that it gets, and the files that are sent.
#[derive(Debug, Drop)]
pub struct PlanGroup {
    /// The model and the version of the hardware.
    pub model: u16,
    pub version: u16,
    /// The software that is sent.
    pub software_model: u16,
    pub software_version: u16,
    /// The bytes of a block, 1 to 4066.
    pub block_size: u16,
    /// The version that each module is sent with.
    pub module_version: u8,
    /// The subgroup, below 2 to the power of 40, if there is one.
    pub subgroup: Option<u64>,
    /// The files that are sent, a module each.
    pub modules: Files,
}

impl Model for PlanGroup {
    ghost use Rattle.head_plan.specs.Plans.{GroupData, IsGroup};

    ghost Value = { GroupData };

    ghost view = { λ g. record {
      model = g.model;
      version = g.version;
      software_model = g.software_model;
      software_version = g.software_version;
      block_size = g.block_size;
      module_version = g.module_version;
      subgroup = g.subgroup;
      modules = g.modules;
    } };

    ghost invariant = { λ g. IsGroup g.block_size g.subgroup };
}

/// The groups of a plan, 1 to 16. A contract sees them as a list.
#[derive(Debug, Drop)]
pub struct Groups {
    groups: Vec<PlanGroup>,
}

impl Model for Groups {
    ghost use Rattle.std.specs.Prelude.{List, length, ◌≤◌};
    ghost use Rattle.head_plan.specs.Plans.{GroupData, AreGroups};

    ghost Value = { List GroupData };

    ghost view = { λ g. g.groups.items };

    ghost invariant = { λ g. AreGroups (length g.groups.items) };
}

impl Groups {
    ghost use Rattle.head_plan.specs.Plans.{AreGroups};

    /// These groups.
    pub fn new(groups: Vec<PlanGroup>) -> Groups
        requires { AreGroups (length groups.items) }
        ensures { result ≡ groups.items }
    {
        Groups { groups }
    }

    /// The groups, in order.
    pub fn as_slice(&self) -> &[PlanGroup]
        ensures groups { result.now ≡ self.now }
        ensures count { AreGroups (length self.now) }
    {
        self.groups.as_slice()
    }

    /// The groups, in order.
    pub fn into_vec(self) -> Vec<PlanGroup>
        ensures { result.items ≡ self }
    {
        self.groups
    }
}
