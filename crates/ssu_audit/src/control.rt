//! The control messages of a carousel: the first DSI, and the first DII of each transaction id.

ghost use Rattle.std.specs.Prelude.{◌≡◌, None, Some, IfOk, OnErr, ℕ, nat_eq};
ghost use Rattle.std.specs.Option.{option_map, option_or};
ghost use Rattle.ssu_audit.specs.Kept.{KeepsFirst, dii_answer, dii_at, dsi_answer, kept_of};

use crate::kept::Kept;
use crate::reading::message_of;
use audit_answer::AuditNo;
use dsmcc_msg::Dii;
use ssu_io::NoMemory;
use std::alloc::Global;
use std::collections::HashMap;

/// Keeps the message of a DII, unless another stands under its transaction id.
pub(crate) fn hear_dii(
    diis: &mut HashMap<u32, Kept>,
    alloc: Global,
    number: u64,
    dii: &Dii<'_>,
) -> Result<Option<AuditNo>, NoMemory>
    ensures answer { IfOk result (λ answer. answer ≡ dii_answer (dii_at diis.old dii.now.transaction) number dii.now.message) }
    ensures kept { IfOk result (λ answer. answer ≡ None
        → KeepsFirst nat_eq (dii_at diis.old) (dii_at diis.new) dii.now.transaction (number, dii.now.message)) }
    ensures unchanged { OnErr result ((group : ℕ) → dii_at diis.new group ≡ dii_at diis.old group) }
{
    let message = dii.message();
    if let Some(kept) = diis.get(&dii.transaction) {
        if kept.bytes.as_slice() == message {
            return Ok(None);
        }
        return Ok(Some(AuditNo::DiiDiffers(kept.number, number)));
    }
    let kept = Kept::new(alloc, number, message)?;
    diis.insert(dii.transaction, kept)?;
    Ok(None)
}

/// Keeps a DSI, unless one with another message was heard before.
pub(crate) fn hear_dsi(
    first: &mut Option<Kept>,
    alloc: Global,
    number: u64,
    section: &[u8],
) -> Result<Option<AuditNo>, NoMemory>
    ensures answer { IfOk result (λ answer. answer ≡ dsi_answer (option_map kept_of first.old) number section.now) }
    ensures kept { IfOk result (λ answer. answer ≡ None
        → option_map kept_of first.new ≡ option_or (option_map kept_of first.old) (Some (number, section.now))) }
    ensures unchanged { OnErr result (first.new ≡ first.old) }
{
    match first {
        Some(kept) => {
            if message_of(kept.bytes.as_slice()) == message_of(section) {
                return Ok(None);
            }
            Ok(Some(AuditNo::DsiDiffers(kept.number, number)))
        }
        None => {
            *first = Some(Kept::new(alloc, number, section)?);
            Ok(None)
        }
    }
}
