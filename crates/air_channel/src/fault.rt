//! Why a text gave no script.
ghost use Rattle.std.specs.Prelude.{◌≡◌};
ghost use Rattle.air_channel.specs.declared.fault.ScriptFault.TheVariants.{Field, Memory};

use std::alloc::AllocFailed;
use std::error::Error;
use std::fmt;
use toml_fields::FieldName;

/// Why a text gave no script.
#[derive(Clone, Copy, Debug)]
pub enum ScriptFault {
    /// The first bad field, with `script.` before it; `script.text` where the file is no TOML or no UTF-8.
    Field(FieldName),
    /// Memory ran out.
    Memory,
}

impl fmt::Display for ScriptFault {
    fn fmt<W: fmt::Write>(&self, f: &mut fmt::Formatter<W>) -> fmt::Result {
        match self {
            ScriptFault::Field(name) => {
                let name = name.as_str();
                write!(f, "plan refused at {name}")
            }
            ScriptFault::Memory => write!(f, "out of memory"),
        }
    }
}

impl Error for ScriptFault {}

impl From<FieldName> for ScriptFault {
    ghost from_gives = { λ name fault. fault ≡ Field name };

    fn from(name: FieldName) -> ScriptFault {
        ScriptFault::Field(name)
    }
}

impl<T: Drop> From<AllocFailed<T>> for ScriptFault {
    ghost from_gives = { λ _ fault. fault ≡ Memory };

    fn from(_: AllocFailed<T>) -> ScriptFault {
        ScriptFault::Memory
    }
}
