//! The sections of notices.

ghost use Rattle.std.specs.Prelude.{◌≡◌, Bool, map, OnErr, OnOk};
ghost use Rattle.std.specs.Option.{option_map, option_or};
ghost use Rattle.ssu_unt.specs.Table.{UntFields};
ghost use Rattle.std.specs.List.{list_any};
ghost use Rattle.ssu_audit.specs.Kept.{first_kept, has_bytes, kept_of};
ghost use Rattle.ssu_audit.specs.Said.{notice_with};

use crate::kept::Kept;
use ssu_io::NoMemory;
use ssu_unt::Unt;
use std::alloc::Global;

/// Is a section with these bytes kept?
fn is_kept(notices: &[Kept], section: &[u8]) -> bool
    ensures { result ≡ list_any (has_bytes section.now) notices.now }
{
    for kept in notices {
        if kept.bytes.as_slice() == section {
            return true;
        }
    }
    false
}

/// Keeps a section of an Update Notification Table, unless one with its bytes is kept. Any other section is passed over.
pub(crate) fn hear_notice(
    notices: &mut Vec<Kept>,
    alloc: Global,
    number: u64,
    section: &[u8],
) -> Result<(), NoMemory>
    ensures kept { OnOk result ((test : UntFields → Bool) → first_kept test (map kept_of notices.new.items)
        ≡ option_or (first_kept test (map kept_of notices.old.items)) (option_map (λ u. number) (notice_with test section.now))) }
    ensures unchanged { OnErr result (notices.new.items ≡ notices.old.items) }
{
    if Unt::read(section).is_none() || is_kept(notices.as_slice(), section) {
        return Ok(());
    }
    let kept = Kept::new(alloc, number, section)?;
    notices.push(kept)?;
    Ok(())
}
