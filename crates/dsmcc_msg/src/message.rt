//! The message: ISO/IEC 13818-6, 7.2.

ghost use Rattle.std.specs.Prelude.{◌≡◌};
ghost use Rattle.std.specs.Option.{option_map};
ghost use Rattle.wire.specs.Format.{only, whole_such};
ghost use Rattle.wire.specs.Exact.{IsPrefixFree};
ghost use Rattle.wire.specs.Read.{Reads};
ghost use Rattle.section_form.specs.Long.{body_of, has_table, long_form};
ghost use Rattle.section_form.specs.Section.{IsRight};
ghost use Rattle.dsmcc_msg.specs.Message.{message, has_id};

use section_form::{long, long_of_right};
use wire::{raw_at, u8_at, u16_at, u32_at};

// What every message has at its front.
pub(crate) const PROTOCOL_DISCRIMINATOR: u8 = 0x11;

pub(crate) const DSMCC_TYPE: u8 = 0x03;

// messageId
pub(crate) const DSI_ID: u16 = 0x1006;

pub(crate) const DII_ID: u16 = 0x1002;

pub(crate) const DDB_ID: u16 = 0x1003;

// table_id of the control messages, and of the data blocks
pub(crate) const CONTROL_TABLE: u8 = 0x3B;

pub(crate) const BLOCK_TABLE: u8 = 0x3C;

#[derive(Drop)]
pub(crate) struct Message<'a> {
    pub id: u16,
    pub transaction: u32,
    pub payload: &'a [u8],
}

/// The message at the front, and the bytes behind it.
#[tactic(auto, unfolding(crate::specs::Message::message))]
fn message_at(bytes: &[u8]) -> Option<(Message<'_>, &[u8])>
    ensures { Reads (λ x. (record { id = x.0.id; transaction = x.0.transaction; payload = x.0.payload.now }, x.1.now))
        result (message.at bytes.now) }
{
    let (discriminator, rest) = u8_at(bytes)?;
    if discriminator != PROTOCOL_DISCRIMINATOR {
        return None;
    }
    let (kind, rest) = u8_at(rest)?;
    if kind != DSMCC_TYPE {
        return None;
    }
    let (id, rest) = u16_at(rest)?;
    let (transaction, rest) = u32_at(rest)?;
    let (_, rest) = u8_at(rest)?;
    let (adaptation, rest) = u8_at(rest)?;
    let (len, rest) = u16_at(rest)?;
    let (inside, behind) = raw_at(rest, len as usize)?;
    let (_, payload) = raw_at(inside, adaptation as usize)?;
    Some((
        Message {
            id,
            transaction,
            payload,
        },
        behind,
    ))
}

/// The message that fills the bytes, if it has this id.
pub(crate) fn message_with(bytes: &[u8], id: u16) -> Option<Message<'_>>
    ensures { Reads (λ x. record { id = x.id; transaction = x.transaction; payload = x.payload.now }) result
        ((whole_such (has_id id) (only message)).of bytes.now) }
{
    let (message, behind) = message_at(bytes)?;
    if !behind.is_empty() {
        return None;
    }
    if message.id != id {
        return None;
    }
    Some(message)
}

/// The body of a section in the long form that has this table_id.
pub(crate) fn body_with(section: &[u8], table: u8) -> Option<&[u8]>
    ensures { Reads (λ x. x.now) result (option_map body_of ((whole_such (has_table table) long_form).of section.now)) }
{
    let form = long(section)?;
    if form.table != table {
        return None;
    }
    Some(form.body)
}

/// The same of a right section, whose CRC is not computed again.
pub(crate) fn body_with_right(section: &[u8], table: u8) -> Option<&[u8]>
    requires { IsRight section.now }
    ensures { Reads (λ x. x.now) result (option_map body_of ((whole_such (has_table table) long_form).of section.now)) }
{
    let form = long_of_right(section)?;
    if form.table != table {
        return None;
    }
    Some(form.body)
}

/// No message begins another: where a message and the bytes of another have the same front, they are the same. And
/// some bytes are at most one message. DSI, DII and DDB are messages, told apart by their messageId.
pub fn message_ends()
    ensures { IsPrefixFree message }
{}
