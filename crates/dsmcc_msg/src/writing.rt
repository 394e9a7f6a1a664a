//! Messages and sections as they are written.

ghost use Rattle.std.specs.Prelude.{◌≡◌, ◌+◌, ◌<◌, ◌≤◌, ◌^◌, ◌↔◌, length, IfOk, IsTrue, false};
ghost use Rattle.section_form.specs.Written.{long_bytes};
ghost use Rattle.dsmcc_msg.specs.Written.{message_bytes, control_head};

use crate::message::{CONTROL_TABLE, DSMCC_TYPE, PROTOCOL_DISCRIMINATOR};
use section_form::table_section;
use ssu_io::NoMemory;
use std::alloc::Global;
use wire::{put_u8, put_u16, put_u32};

/// Reserved bytes are written so.
pub(crate) const RESERVED: u8 = 0xFF;

/// Whether the pieces fit into what is left of `most` bytes.
pub(crate) fn fits(most: usize, used: usize, front: usize, a: usize, b: usize) -> bool
    requires used { used ≤ most }
    ensures { IsTrue result ↔ (used + front + a + b ≤ most) }
{
    let room = most - used;
    front <= room && a <= room - front && b <= room - front - a
}

/// The message with this payload, without an adaptation.
pub(crate) fn message(
    alloc: Global,
    id: u16,
    transaction: u32,
    payload: &[u8],
) -> Result<Vec<u8>, NoMemory>
    requires { length payload.now < 2 ^ 16 }
    ensures { IfOk result (λ m. m.items ≡ message_bytes id transaction payload.now) }
{
    let mut out = Vec::new(alloc);
    put_u8(&mut out, PROTOCOL_DISCRIMINATOR)?;
    put_u8(&mut out, DSMCC_TYPE)?;
    put_u16(&mut out, id)?;
    put_u32(&mut out, transaction)?;
    put_u8(&mut out, RESERVED)?;
    put_u8(&mut out, 0)?;
    put_u16(&mut out, payload.len() as u16)?;
    out.extend_from_slice(payload)?;
    Ok(out)
}

/// The section of a control message.
pub(crate) fn control_section(
    alloc: Global,
    id: u16,
    transaction: u32,
    payload: &[u8],
) -> Result<Vec<u8>, NoMemory>
    requires { length payload.now ≤ 4072 }
    ensures { IfOk result (λ s. s.items ≡ long_bytes false (control_head id transaction payload.now)) }
{
    let body = message(alloc, id, transaction, payload)?;
    let extension = (transaction % 65536) as u16;
    table_section(alloc, CONTROL_TABLE, extension, 0, &body, false)
}
