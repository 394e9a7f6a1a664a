//! Writing a compatibility descriptor.

ghost use Rattle.std.specs.Prelude.{◌≡◌, ◌≤◌, ◌++◌, length, map, IfOk, OnOk};
ghost use Rattle.ssu_compat.specs.Compat.{compat};
ghost use Rattle.ssu_compat.specs.Written.{Fits, entry_of, entry_bytes, spelling};

use crate::oui::Oui;
use ssu_io::NoMemory;
use std::alloc::{AllocError, Global};
use wire::put_u16;

/// An entry to be written: an OUI, model and version of a hardware (kind 1) or a software (kind 2).
#[derive(Clone, Copy, Debug, PartialEq, Eq)]
pub struct Plain {
    pub kind: u8,
    pub oui: Oui,
    pub model: u16,
    pub version: u16,
}

/// The descriptor of these entries, 256 at most. `NoMemory` is the one refusal.
pub fn write(alloc: Global, entries: &[Plain]) -> Result<Vec<u8>, NoMemory>
    requires { length entries.now ≤ 256 }
    ensures written { IfOk result (λ v. v.items ≡ spelling entries.now) }
    // It is read back with the fields written.
    ensures read_back { IfOk result (λ v. compat.Spells (map entry_of entries.now) v.items) }
{
    let mut out = Vec::new(alloc);
    if entries.is_empty() {
        put_u16(&mut out, 0)?;
        return Ok(out);
    }
    let count = entries.len() as u16;
    put_u16(&mut out, 2 + 11 * count)?;
    put_u16(&mut out, count)?;
    for plain in entries {
        put_entry(&mut out, plain)?;
    }
    Ok(out)
}

fn put_entry(out: &mut Vec<u8>, plain: &Plain) -> Result<(), AllocError>
    ensures put { OnOk result (out.new.items ≡ out.old.items ++ entry_bytes plain.now) }
    ensures fits { OnOk result (Fits plain.now) }
{
    let Plain {
        kind,
        oui,
        model,
        version,
    } = *plain;
    let [_, oui2, oui1, oui0] = oui.get().to_be_bytes();
    let [model1, model0] = model.to_be_bytes();
    let [version1, version0] = version.to_be_bytes();
    out.extend_from_slice(&[
        kind, 9, 1, oui2, oui1, oui0, model1, model0, version1, version0, 0,
    ])
}
