//! DownloadDataBlock: ISO/IEC 13818-6, 7.3; ETSI EN 301 192, 8.1. table_id 0x3C, messageId 0x1003.

ghost use Rattle.std.specs.Prelude.{◌≡◌, ◌≤◌, length, IfSome, IfOk};
ghost use Rattle.std.specs.Option.{option_map};
ghost use Rattle.wire.specs.Read.{Reads};
ghost use Rattle.section_form.specs.Section.{IsRight};
ghost use Rattle.dsmcc_msg.specs.Block.{DdbFields, ddb_payload, ddb_message, ddb as ddb_format};
ghost use Rattle.dsmcc_msg.specs.View.{ddb_view};
ghost use Rattle.dsmcc_msg.specs.Written.{ddb_payload_bytes, ddb_bytes};

use crate::message::{BLOCK_TABLE, DDB_ID, body_with, body_with_right, message_with};
use crate::writing::{RESERVED, message};
use section_form::{LongForm, long_section};
use ssu_io::NoMemory;
use std::alloc::Global;
use wire::{put_u8, put_u16, raw_at, u8_at, u16_at};

/// A block of a module, of at most 4,066 bytes.
#[derive(Drop)]
pub struct Ddb<'a> {
    /// downloadId.
    pub download: u32,
    /// moduleId.
    pub module: u16,
    /// moduleVersion.
    pub version: u8,
    /// blockNumber, from 0.
    pub block: u16,
    /// The bytes of the block.
    pub bytes: &'a [u8],
}

/// What the payload says.
#[derive(Drop)]
struct Payload<'a> {
    module_id: u16,
    version: u8,
    block: u16,
    bytes: &'a [u8],
}

#[tactic(auto, unfolding(crate::specs::Block::ddb_payload))]
fn payload_of(bytes: &[u8]) -> Option<Payload<'_>>
    ensures { Reads (λ x. record { module_id = x.module_id; version = x.version; number = x.block; bytes = x.bytes.now })
        result (ddb_payload.of bytes.now) }
{
    let (module_id, rest) = u16_at(bytes)?;
    let (version, rest) = u8_at(rest)?;
    let (_, rest) = raw_at(rest, 1)?;
    let (block, bytes) = u16_at(rest)?;
    Some(Payload {
        module_id,
        version,
        block,
        bytes,
    })
}

#[tactic(auto, unfolding(crate::specs::Block::ddb_message))]
fn message_of(bytes: &[u8]) -> Option<Ddb<'_>>
    ensures { Reads ddb_view result (ddb_message.of bytes.now) }
{
    let message = message_with(bytes, DDB_ID)?;
    let payload = payload_of(message.payload)?;
    Some(Ddb {
        download: message.transaction,
        module: payload.module_id,
        version: payload.version,
        block: payload.block,
        bytes: payload.bytes,
    })
}

#[tactic(auto, unfolding(crate::specs::Block::ddb))]
fn section_of(section: &[u8]) -> Option<Ddb<'_>>
    ensures { Reads ddb_view result (ddb_format.of section.now) }
{
    message_of(body_with(section, BLOCK_TABLE)?)
}

#[tactic(auto, unfolding(crate::specs::Block::ddb))]
fn right_section_of(section: &[u8]) -> Option<Ddb<'_>>
    requires { IsRight section.now }
    ensures { Reads ddb_view result (ddb_format.of section.now) }
{
    message_of(body_with_right(section, BLOCK_TABLE)?)
}

impl<'a> Ddb<'a> {
    /// The DDB that the section is: None exactly where it is no section in the long form, with its CRC, of table 0x3C whose
    /// body is a message of that id.
    pub fn read(section: &'a [u8]) -> Option<Ddb<'a>>
        ensures found { IfSome result (λ d. ddb_format.Spells (ddb_view d) section.now) }
        ensures only { (d : DdbFields) → ddb_format.Spells d section.now → option_map ddb_view result ≡ Some d }
    {
        section_of(section)
    }

    /// The DDB that a right section is: what `read` answers, without the time of a CRC.
    ///
    /// A section that a hearer gives out is right.
    pub fn read_right(section: &'a [u8]) -> Option<Ddb<'a>>
        requires right { IsRight section.now }
        ensures found { IfSome result (λ d. ddb_format.Spells (ddb_view d) section.now) }
        ensures only { (d : DdbFields) → ddb_format.Spells d section.now → option_map ddb_view result ≡ Some d }
    {
        right_section_of(section)
    }
}

/// The payload of a DDB.
fn payload_bytes(alloc: Global, ddb: &Ddb<'_>) -> Result<Vec<u8>, NoMemory>
    ensures { IfOk result (λ p. p.items ≡ ddb_payload_bytes (ddb_view ddb.now)) }
{
    let mut out = Vec::new(alloc);
    put_u16(&mut out, ddb.module)?;
    put_u8(&mut out, ddb.version)?;
    put_u8(&mut out, RESERVED)?;
    put_u16(&mut out, ddb.block)?;
    out.extend_from_slice(ddb.bytes)?;
    Ok(out)
}

#[tactic(auto, unfolding(crate::specs::Written::ddb_bytes))]
fn block_section(alloc: Global, ddb: &Ddb<'_>, last_block: u16) -> Result<Vec<u8>, NoMemory>
    requires short { length ddb.now.bytes.now ≤ 4066 }
    requires in_module { ddb.now.block ≤ last_block }
    ensures { IfOk result (λ s. s.items ≡ ddb_bytes (ddb_view ddb.now) last_block) }
{
    let payload = payload_bytes(alloc, ddb)?;
    let body = message(alloc, DDB_ID, ddb.download, &payload)?;
    let head = LongForm {
        table: BLOCK_TABLE,
        extension: ddb.module,
        version: ddb.version % 32,
        number: (ddb.block % 256) as u8,
        last: last_block.min(255) as u8,
        body: &body,
    };
    long_section(alloc, head, false)
}

/// The section of a block of a module whose last block has this number. It goes with moduleId as extension, the low 5
/// bits of moduleVersion as version, the low 8 bits of blockNumber as section number, and the lesser of 255 and the
/// last block's number as last section number. The block has at most 4,066 bytes, and its number is at most the last
/// one's. `NoMemory` is the one refusal.
pub fn write_ddb(alloc: Global, ddb: Ddb<'_>, last_block: u16) -> Result<Vec<u8>, NoMemory>
    requires short { length ddb.bytes.now ≤ 4066 }
    requires in_module { ddb.block ≤ last_block }
    ensures made { IfOk result (λ s. s.items ≡ ddb_bytes (ddb_view ddb.entry) last_block) }
    // It is read back with the fields written.
    ensures read_back { IfOk result (λ s. ddb_format.Spells (ddb_view ddb.entry) s.items) }
{
    let section = block_section(alloc, &ddb, last_block)?;
    Ok(section)
}
