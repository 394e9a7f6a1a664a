//! DownloadInfoIndication: ISO/IEC 13818-6, 7.3; ETSI EN 301 192, 8.1. table_id 0x3B, messageId 0x1002.

ghost use Rattle.std.specs.Prelude.{◌≡◌, ◌≤◌, length, IfSome};
ghost use Rattle.wire.specs.Items.{items_of};
ghost use Rattle.wire.specs.Read.{Reads};
ghost use Rattle.dsmcc_msg.specs.Control.{DiiFields, module_entry, dii_payload, dii_message, dii};

use crate::fields::{sized8_at, sized16};
use crate::message::{CONTROL_TABLE, DII_ID, body_with, message_with};
use ssu_compat::compat_at;
use std::marker::Model;
use wire::{Item, Items, raw_at, u8_at, u16_at, u32_at};

/// The modules of a DII, in its order.
pub type Modules<'a> = Items<'a, Module<'a>>;

/// A module: its id, its size in bytes, its version, and its private descriptors.
#[derive(Drop)]
pub struct Module<'a> {
    pub id: u16,
    pub size: u32,
    pub version: u8,
    pub info: &'a [u8],
}

impl<'a> Item<'a> for Module<'a> {
    ghost use Rattle.dsmcc_msg.specs.Control.{ModuleFields, module_entry};
    ghost use Rattle.dsmcc_msg.specs.Exact.{module_entry_exact};

    ghost Seen = { ModuleFields };

    ghost format = { module_entry };

    ghost exact = { module_entry_exact };

    ghost view = { λ m. record { id = m.id; size = m.size; version = m.version; info = m.info.now } };

    #[tactic(auto, unfolding(crate::specs::Control::module_entry))]
    fn at(bytes: &'a [u8]) -> Option<(Self, &'a [u8])> {
        let (id, rest) = u16_at(bytes)?;
        let (size, rest) = u32_at(rest)?;
        let (version, rest) = u8_at(rest)?;
        let (info, behind) = sized8_at(rest)?;
        Some((
            Module {
                id,
                size,
                version,
                info,
            },
            behind,
        ))
    }
}

/// A DII, which lists the modules of a group.
///
/// A contract sees its fields, the list of its modules and the bytes of its message.
#[derive(Drop)]
pub struct Dii<'a> {
    pub transaction: u32,
    pub download: u32,
    pub block_size: u16,
    modules: Modules<'a>,
    message: &'a [u8],
}

impl<'a> Model for Dii<'a> {
    ghost use Rattle.std.specs.Prelude.{◌≤◌, length};
    ghost use Rattle.wire.specs.Items.{items_of};
    ghost use Rattle.dsmcc_msg.specs.Control.{DiiFields, module_entry};

    ghost Value = { DiiFields };

    ghost view = { λ d. record {
      transaction = d.transaction;
      download = d.download;
      block_size = d.block_size;
      modules = items_of module_entry d.modules;
      message = d.message.now;
    } };

    // Each module takes eight bytes of the message.
    ghost invariant = { λ d. length (items_of module_entry d.modules) ≤ 506 };
}

/// What the payload says.
#[derive(Drop)]
struct Payload<'a> {
    download: u32,
    block_size: u16,
    modules: Modules<'a>,
}

#[tactic(auto, unfolding(crate::specs::Control::dii_payload))]
fn payload_of(bytes: &[u8]) -> Option<Payload<'_>>
    ensures { Reads (λ x. record { id = x.download; block_size = x.block_size; modules = items_of module_entry x.modules })
        result (dii_payload.of bytes.now) }
{
    let (download, rest) = u32_at(bytes)?;
    let (block_size, rest) = u16_at(rest)?;
    let (_, rest) = raw_at(rest, 10)?;
    let (_, rest) = compat_at(rest)?;
    let (count, rest) = u16_at(rest)?;
    let (modules, rest) = Items::counted(count as usize, rest)?;
    let _private = sized16(rest)?;
    Some(Payload {
        download,
        block_size,
        modules,
    })
}

#[tactic(auto, unfolding(crate::specs::Control::dii_message))]
fn message_of(bytes: &[u8]) -> Option<Dii<'_>>
    ensures { Reads (λ x. x) result (dii_message.of bytes.now) }
{
    if bytes.len() > 4084 {
        return None;
    }
    let message = message_with(bytes, DII_ID)?;
    let payload = payload_of(message.payload)?;
    Some(Dii {
        transaction: message.transaction,
        download: payload.download,
        block_size: payload.block_size,
        modules: payload.modules,
        message: bytes,
    })
}

#[tactic(auto, unfolding(crate::specs::Control::dii))]
fn section_of(section: &[u8]) -> Option<Dii<'_>>
    ensures { Reads (λ x. x) result (dii.of section.now) }
{
    message_of(body_with(section, CONTROL_TABLE)?)
}

impl<'a> Dii<'a> {
    /// The DII that the section is: None exactly where it is no section in the long form, with its CRC, of table 0x3B whose
    /// body is a message of that id and payload.
    pub fn read(section: &'a [u8]) -> Option<Dii<'a>>
        ensures found { IfSome result (λ d. dii.Spells d section.now) }
        ensures only { (d : DiiFields) → dii.Spells d section.now → result ≡ Some d }
    {
        section_of(section)
    }

    /// The DII that the message is, as `message` gives it: None exactly where the bytes are no such message, or are more
    /// than 4,084.
    pub fn read_message(message: &'a [u8]) -> Option<Dii<'a>>
        ensures found { IfSome result (λ d. dii_message.Spells d message.now) }
        ensures only { (d : DiiFields) → dii_message.Spells d message.now → result ≡ Some d }
    {
        message_of(message)
    }

    /// The bytes of its message, which are the body of its section.
    pub fn message(&self) -> &[u8]
        ensures { result.now ≡ self.now.message }
    {
        self.message
    }

    /// Its modules, in its order.
    pub fn modules(&self) -> Modules<'a>
        ensures listed { items_of module_entry result ≡ self.now.modules }
        ensures few { length self.now.modules ≤ 506 }
    {
        self.modules.again()
    }
}
