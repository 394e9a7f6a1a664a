//! Writing a DSI.

ghost use Rattle.std.specs.Prelude.{◌≡◌, ◌+◌, ◌<◌, ◌≤◌, ◌↔◌, List, [], ◌∷◌, ◌++◌, length, replicate, IfOk, IfErr, OnErr, OnOk};
ghost use Rattle.ssu_compat.specs.Compat.{EntryFields, compat as compat_format};
ghost use Rattle.dsmcc_msg.specs.Control.{dsi};
ghost use Rattle.dsmcc_msg.specs.Written.{group_bytes, dsi_payload_bytes, dsi_bytes, dsi_section_length};

use crate::message::DSI_ID;
use crate::writing::{RESERVED, control_section, fits};
use section_form::MakeFault;
use ssu_io::NoMemory;
use std::alloc::Global;
use std::marker::Model;
use wire::{put_u16, put_u32};

/// The most bytes of groups that a section has room for.
const MOST: usize = 4044;

/// A DSI that is being written.
///
/// A contract sees its transaction id, the list of its groups, and the bytes that the groups are written as.
#[derive(Drop)]
pub struct DsiWriter {
    alloc: Global,
    transaction: u32,
    count: u16,
    groups: Vec<u8>,
}

impl Model for DsiWriter {
    ghost use Rattle.wire.specs.Items.{items_of};
    ghost use Rattle.dsmcc_msg.specs.Control.{group_entry};
    ghost use Rattle.dsmcc_msg.specs.Written.{IsRow, DsiDraft};

    ghost Value = { DsiDraft };

    ghost view = { λ w. record {
      transaction = w.transaction;
      groups = items_of group_entry w.groups.items;
      bytes = w.groups.items;
    } };

    ghost invariant = { λ w. IsRow group_entry w.count 4044 w.groups.items };
}

/// The bytes of a group.
fn group_piece(
    alloc: Global,
    id: u32,
    size: u32,
    compat: &[u8],
    info: &[u8],
) -> Result<Vec<u8>, NoMemory>
    requires { length info.now < 65536 }
    ensures { IfOk result (λ p. p.items ≡ group_bytes id size compat.now info.now) }
{
    let mut out = Vec::new(alloc);
    put_u32(&mut out, id)?;
    put_u32(&mut out, size)?;
    out.extend_from_slice(compat)?;
    put_u16(&mut out, info.len() as u16)?;
    out.extend_from_slice(info)?;
    Ok(out)
}

/// The payload of a DSI with as many groups.
fn payload_bytes(alloc: Global, count: u16, groups: &[u8]) -> Result<Vec<u8>, NoMemory>
    requires { length groups.now ≤ 4044 }
    ensures { IfOk result (λ p. p.items ≡ dsi_payload_bytes count groups.now) }
{
    let mut out = Vec::new(alloc);
    out.extend_from_slice(&[RESERVED; 20])?;
    put_u16(&mut out, 0)?;
    put_u16(&mut out, groups.len() as u16 + 4)?;
    put_u16(&mut out, count)?;
    out.extend_from_slice(groups)?;
    put_u16(&mut out, 0)?;
    Ok(out)
}

impl DsiWriter {
    /// A DSI without groups. Its section goes with the low 16 bits of the transaction id as extension. `NoMemory` is
    /// the one refusal.
    pub fn new(alloc: Global, transaction: u32) -> Result<DsiWriter, NoMemory>
        ensures { IfOk result (λ w. w ≡ record { transaction = transaction; groups = []; bytes = [] }) }
    {
        Ok(DsiWriter {
            alloc,
            transaction,
            count: 0,
            groups: Vec::new(alloc),
        })
    }

    /// Adds a group. `compat` is a compatibility descriptor, as `ssu_compat::write` makes it. `TooLong` comes exactly where
    /// section_length would pass 4,093, `Memory` where memory runs out; the writer is then unchanged.
    pub fn group(&mut self, id: u32, size: u32, compat: &[u8], info: &[u8]) -> Result<(), MakeFault>
        requires { (entries : List EntryFields) × compat_format.Spells entries compat.now }
        ensures ok { (entries : List EntryFields) → compat_format.Spells entries compat.now
            → OnOk result (self.new ≡ record self.old {
              groups = self.old.groups ++ record { id = id; size = size; compat = entries; info = info.now } ∷ [];
              bytes = self.old.bytes ++ group_bytes id size compat.now info.now;
            }) }
        ensures too_long { (result ≡ Err MakeFault.TooLong)
            ↔ (4093 < dsi_section_length (length self.old.bytes + length (group_bytes id size compat.now info.now))) }
        ensures unchanged { OnErr result (self.new ≡ self.old) }
    {
        if !fits(MOST, self.groups.len(), 10, compat.len(), info.len()) {
            return Err(MakeFault::TooLong);
        }
        let piece = group_piece(self.alloc, id, size, compat, info)?;
        self.groups.extend_from_slice(&piece)?;
        self.count += 1;
        Ok(())
    }

    /// The section. `NoMemory` is the one refusal, and hands the writer back as it was.
    pub fn finish(self) -> Result<Vec<u8>, (DsiWriter, NoMemory)>
        ensures made { IfOk result (λ s. s.items ≡ dsi_bytes self) }
        // It is read back with the fields written.
        ensures read_back { IfOk result (λ s. dsi.Spells (record { transaction = self.transaction; groups = self.groups }) s.items) }
        ensures handed_back { IfErr result (λ e. e.0 ≡ self) }
    {
        match self.make() {
            Ok(section) => Ok(section),
            Err(fault) => Err((self, fault)),
        }
    }

    fn make(&self) -> Result<Vec<u8>, NoMemory>
        ensures { IfOk result (λ s. s.items ≡ dsi_bytes self.now) }
    {
        let payload = payload_bytes(self.alloc, self.count, &self.groups)?;
        control_section(self.alloc, DSI_ID, self.transaction, &payload)
    }
}
