//! DownloadServerInitiate: ISO/IEC 13818-6, 7.3; ETSI EN 301 192, 8.1. table_id 0x3B, messageId 0x1006.

ghost use Rattle.std.specs.Prelude.{◌≡◌, IfSome};
ghost use Rattle.wire.specs.Items.{items_of};
ghost use Rattle.wire.specs.Read.{Reads};
ghost use Rattle.dsmcc_msg.specs.Control.{DsiFields, group_entry, group_list, dsi_payload, dsi_message, dsi};

use crate::fields::{sized16, sized16_at};
use crate::group::Groups;
use crate::message::{CONTROL_TABLE, DSI_ID, body_with, message_with};
use std::marker::Model;
use wire::{Items, raw_at, u16_at};

/// A DSI, which lists the groups of the carousel.
///
/// A contract sees its transaction id and the list of its groups.
#[derive(Drop)]
pub struct Dsi<'a> {
    pub transaction: u32,
    groups: Groups<'a>,
}

impl<'a> Model for Dsi<'a> {
    ghost use Rattle.wire.specs.Items.{items_of};
    ghost use Rattle.dsmcc_msg.specs.Control.{DsiFields, group_entry};

    ghost Value = { DsiFields };

    ghost view = { λ d. record { transaction = d.transaction; groups = items_of group_entry d.groups } };
}

/// The groups of the private data.
#[tactic(auto, unfolding(crate::specs::Control::group_list))]
fn group_list_of(bytes: &[u8]) -> Option<Groups<'_>>
    ensures { Reads (λ x. items_of group_entry x) result (group_list.of bytes.now) }
{
    let (count, rest) = u16_at(bytes)?;
    let (groups, rest) = Items::counted(count as usize, rest)?;
    let _private = sized16(rest)?;
    Some(groups)
}

#[tactic(auto, unfolding(crate::specs::Control::dsi_payload))]
fn payload_of(bytes: &[u8]) -> Option<Groups<'_>>
    ensures { Reads (λ x. items_of group_entry x) result (dsi_payload.of bytes.now) }
{
    let (_, rest) = raw_at(bytes, 20)?;
    let (compat, rest) = u16_at(rest)?;
    if compat != 0 {
        return None;
    }
    let (private, behind) = sized16_at(rest)?;
    let groups = group_list_of(private)?;
    if !behind.is_empty() {
        return None;
    }
    Some(groups)
}

#[tactic(auto, unfolding(crate::specs::Control::dsi_message))]
fn message_of(bytes: &[u8]) -> Option<Dsi<'_>>
    ensures { Reads (λ x. x) result (dsi_message.of bytes.now) }
{
    let message = message_with(bytes, DSI_ID)?;
    let groups = payload_of(message.payload)?;
    Some(Dsi {
        transaction: message.transaction,
        groups,
    })
}

#[tactic(auto, unfolding(crate::specs::Control::dsi))]
fn section_of(section: &[u8]) -> Option<Dsi<'_>>
    ensures { Reads (λ x. x) result (dsi.of section.now) }
{
    message_of(body_with(section, CONTROL_TABLE)?)
}

impl<'a> Dsi<'a> {
    /// The DSI that the section is: None exactly where it is no section in the long form, with its CRC, of table 0x3B whose
    /// body is a message of that id and payload.
    pub fn read(section: &'a [u8]) -> Option<Dsi<'a>>
        ensures found { IfSome result (λ d. dsi.Spells d section.now) }
        ensures only { (d : DsiFields) → dsi.Spells d section.now → result ≡ Some d }
    {
        section_of(section)
    }

    /// Its groups, in its order.
    pub fn groups(&self) -> Groups<'a>
        ensures { items_of group_entry result ≡ self.now.groups }
    {
        self.groups.again()
    }
}
