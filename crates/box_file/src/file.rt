//! What `box.toml` says.
ghost use Rattle.std.specs.Prelude.{◌≡◌};
ghost use Rattle.box_file.specs.declared.file.BoxFault.TheVariants.{Field};

use si_desc::ServiceRef;
use ssu_compat::{BoxId, Rule, SwId};
use thiserror::Error;
use toml_fields::FieldName;

/// A set-top box: what it is, what software it runs, and what it accepts.
#[derive(Debug, Drop)]
pub struct BoxFile {
    /// The hardware, and the addresses that a notification may name.
    pub id: BoxId,
    /// Which offered software is accepted.
    pub rule: Rule,
    /// Whether an update that wants a user's consent is accepted.
    pub manual: bool,
    /// The only service that is asked for updates, if there is one.
    pub service: Option<ServiceRef>,
    /// The software that runs.
    pub software: SwId,
}

/// Why a text gave no box.
#[derive(Clone, Copy, Debug, Error)]
pub enum BoxFault {
    /// The first bad field; `text` where the file is no TOML or no UTF-8.
    #[error("box.toml refused at {0}")]
    Field(FieldName),
    /// Memory ran out.
    #[error("out of memory")]
    Memory,
}

impl From<FieldName> for BoxFault {
    ghost from_gives = { λ name fault. fault ≡ Field name };

    fn from(name: FieldName) -> BoxFault {
        BoxFault::Field(name)
    }
}
