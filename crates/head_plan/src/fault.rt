//! Why a text gave no plan.
ghost use Rattle.std.specs.Prelude.{◌≡◌};
ghost use Rattle.head_plan.specs.declared.fault.PlanFault.TheVariants.{Field, Memory};

use std::alloc::AllocFailed;
use thiserror::Error;
use toml_fields::FieldName;

/// Why a text gave no plan.
#[derive(Clone, Copy, Debug, Error)]
pub enum PlanFault {
    /// The first bad field; `text` where the file is no TOML or no UTF-8.
    #[error("plan refused at {0}")]
    Field(FieldName),
    /// Memory ran out.
    #[error("out of memory")]
    Memory,
}

impl From<FieldName> for PlanFault {
    ghost from_gives = { λ name fault. fault ≡ Field name };

    fn from(name: FieldName) -> PlanFault {
        PlanFault::Field(name)
    }
}

impl<T: Drop> From<AllocFailed<T>> for PlanFault {
    ghost from_gives = { λ _ fault. fault ≡ Memory };

    fn from(_: AllocFailed<T>) -> PlanFault {
        PlanFault::Memory
    }
}
