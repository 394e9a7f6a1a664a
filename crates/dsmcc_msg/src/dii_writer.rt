//! Writing a DII.

ghost use Rattle.std.specs.Prelude.{◌≡◌, ◌+◌, ◌<◌, ◌≤◌, ◌↔◌, List, [], ◌∷◌, ◌++◌, length, replicate, IfOk, IfErr, OnErr, OnOk};
ghost use Rattle.dsmcc_msg.specs.Control.{dii};
ghost use Rattle.dsmcc_msg.specs.Written.{dii_of, module_bytes, dii_payload_bytes, dii_bytes, dii_section_length};

use crate::message::DII_ID;
use crate::writing::{control_section, fits};
use section_form::MakeFault;
use ssu_io::NoMemory;
use std::alloc::Global;
use std::marker::Model;
use wire::{put_u8, put_u16, put_u32};

/// The most bytes of modules that a section has room for.
const MOST: usize = 4050;

/// A DII that is being written.
///
/// A contract sees its fields, the list of its modules, and the bytes that the modules are written as.
#[derive(Drop)]
pub struct DiiWriter {
    alloc: Global,
    transaction: u32,
    download: u32,
    block_size: u16,
    count: u16,
    modules: Vec<u8>,
}

impl Model for DiiWriter {
    ghost use Rattle.wire.specs.Items.{items_of};
    ghost use Rattle.dsmcc_msg.specs.Control.{module_entry};
    ghost use Rattle.dsmcc_msg.specs.Written.{IsRow, DiiDraft};

    ghost Value = { DiiDraft };

    ghost view = { λ w. record {
      transaction = w.transaction;
      download = w.download;
      block_size = w.block_size;
      modules = items_of module_entry w.modules.items;
      bytes = w.modules.items;
    } };

    ghost invariant = { λ w. IsRow module_entry w.count 4050 w.modules.items };
}

/// The bytes of a module.
fn module_piece(
    alloc: Global,
    id: u16,
    size: u32,
    version: u8,
    info: &[u8],
) -> Result<Vec<u8>, NoMemory>
    requires { length info.now ≤ 255 }
    ensures { IfOk result (λ p. p.items ≡ module_bytes id size version info.now) }
{
    let mut out = Vec::new(alloc);
    put_u16(&mut out, id)?;
    put_u32(&mut out, size)?;
    put_u8(&mut out, version)?;
    put_u8(&mut out, info.len() as u8)?;
    out.extend_from_slice(info)?;
    Ok(out)
}

/// The payload of a DII with as many modules.
fn payload_bytes(
    alloc: Global,
    download: u32,
    block_size: u16,
    count: u16,
    modules: &[u8],
) -> Result<Vec<u8>, NoMemory>
    ensures { IfOk result (λ p. p.items ≡ dii_payload_bytes download block_size count modules.now) }
{
    let mut out = Vec::new(alloc);
    put_u32(&mut out, download)?;
    put_u16(&mut out, block_size)?;
    out.extend_from_slice(&[0; 10])?;
    put_u16(&mut out, 0)?;
    put_u16(&mut out, count)?;
    out.extend_from_slice(modules)?;
    put_u16(&mut out, 0)?;
    Ok(out)
}

impl DiiWriter {
    /// A DII without modules. Its section goes with the low 16 bits of the transaction id as extension. `NoMemory` is
    /// the one refusal.
    pub fn new(
        alloc: Global,
        transaction: u32,
        download: u32,
        block_size: u16,
    ) -> Result<DiiWriter, NoMemory>
        ensures { IfOk result (λ w. w ≡ record {
          transaction = transaction;
          download = download;
          block_size = block_size;
          modules = [];
          bytes = [];
        }) }
    {
        Ok(DiiWriter {
            alloc,
            transaction,
            download,
            block_size,
            count: 0,
            modules: Vec::new(alloc),
        })
    }

    /// Adds a module, whose info has at most 255 bytes. `TooLong` comes exactly where section_length would pass 4,093,
    /// `Memory` where memory runs out; the writer is then unchanged.
    pub fn module(&mut self, id: u16, size: u32, version: u8, info: &[u8]) -> Result<(), MakeFault>
        requires { length info.now ≤ 255 }
        ensures ok { OnOk result (self.new ≡ record self.old {
          modules = self.old.modules ++ record { id = id; size = size; version = version; info = info.now } ∷ [];
          bytes = self.old.bytes ++ module_bytes id size version info.now;
        }) }
        ensures too_long { (result ≡ Err MakeFault.TooLong)
            ↔ (4093 < dii_section_length (length self.old.bytes + length (module_bytes id size version info.now))) }
        ensures unchanged { OnErr result (self.new ≡ self.old) }
    {
        if !fits(MOST, self.modules.len(), 8, info.len(), 0) {
            return Err(MakeFault::TooLong);
        }
        let piece = module_piece(self.alloc, id, size, version, info)?;
        self.modules.extend_from_slice(&piece)?;
        self.count += 1;
        Ok(())
    }

    /// The section. `NoMemory` is the one refusal, and hands the writer back as it was.
    pub fn finish(self) -> Result<Vec<u8>, (DiiWriter, NoMemory)>
        ensures made { IfOk result (λ s. s.items ≡ dii_bytes self) }
        // It is read back with the fields written.
        ensures read_back { IfOk result (λ s. dii.Spells (dii_of self) s.items) }
        ensures handed_back { IfErr result (λ e. e.0 ≡ self) }
    {
        match self.make() {
            Ok(section) => Ok(section),
            Err(fault) => Err((self, fault)),
        }
    }

    fn make(&self) -> Result<Vec<u8>, NoMemory>
        ensures { IfOk result (λ s. s.items ≡ dii_bytes self.now) }
    {
        let payload = payload_bytes(
            self.alloc,
            self.download,
            self.block_size,
            self.count,
            &self.modules,
        )?;
        control_section(self.alloc, DII_ID, self.transaction, &payload)
    }
}
