//! Writing a PMT: ISO/IEC 13818-1, 2.4.4.8. It has no PCR, PCR_PID 0x1FFF, and no program descriptors.

ghost use Rattle.std.specs.Prelude.{◌≡◌, ◌↔◌, ◌+◌, ◌<◌, ◌≤◌, [], ◌∷◌, ◌++◌, length, Err, IfOk, IfErr, OnOk, OnErr};
ghost use Rattle.si_desc.specs.Descriptors.{IsRow};
ghost use Rattle.si_table.specs.Tables.{pmt};
ghost use Rattle.si_table.specs.Written.{stream_bytes, pmt_body_bytes, pmt_bytes, pmt_section_length};

use section_form::{MakeFault, table_section};
use si_desc::put_row;
use ssu_io::NoMemory;
use std::alloc::Global;
use std::marker::Model;
use ts_packet::Pid;
use wire::{put_length, put_u8, put_u16};

/// The most bytes of streams that a section has room for.
const MOST: usize = 1008;

/// A PMT that is being written.
///
/// A contract sees its program number, the list of its streams, and the bytes that the streams are written as.
#[derive(Drop)]
pub struct PmtWriter {
    alloc: Global,
    program: u16,
    streams: Vec<u8>,
}

impl Model for PmtWriter {
    ghost use Rattle.wire.specs.Items.{items_of};
    ghost use Rattle.si_table.specs.Written.{IsStreamRow, PmtDraft};
    ghost use Rattle.si_table.specs.Tables.{stream};

    ghost Value = { PmtDraft };

    ghost view = { λ w. record {
      program = w.program;
      streams = items_of stream w.streams.items;
      bytes = w.streams.items;
    } };

    ghost invariant = { λ w. IsStreamRow w.streams.items };
}

impl PmtWriter {
    /// A PMT without streams. `NoMemory` is the one refusal.
    pub fn new(alloc: Global, program: u16) -> Result<PmtWriter, NoMemory>
        ensures { IfOk result (λ w. w ≡ record { program = program; streams = []; bytes = [] }) }
    {
        Ok(PmtWriter {
            alloc,
            program,
            streams: Vec::new(alloc),
        })
    }

    /// Adds a stream. `info` is a row of whole descriptors. `TooLong` comes exactly where section_length would pass
    /// 1,021, `Memory` where memory runs out; the writer is then unchanged.
    pub fn stream(&mut self, kind: u8, pid: Pid, info: &[u8]) -> Result<(), MakeFault>
        requires { IsRow info.now }
        ensures ok { OnOk result (self.new ≡ record self.old {
          streams = self.old.streams ++ record { kind = kind; pid = pid; info = info.now } ∷ [];
          bytes = self.old.bytes ++ stream_bytes (record { kind = kind; pid = pid; info = info.now });
        }) }
        ensures too_long { (result ≡ Err MakeFault.TooLong)
            ↔ (1021 < pmt_section_length (length self.old.bytes + (5 + length info.now))) }
        ensures unchanged { OnErr result (self.new ≡ self.old) }
    {
        if info.len() > MOST || self.streams.len() + 5 + info.len() > MOST {
            return Err(MakeFault::TooLong);
        }
        let pid = pid.get();
        let piece = stream_piece(self.alloc, kind, pid, info)?;
        self.streams.extend_from_slice(&piece)?;
        Ok(())
    }

    /// The section. `NoMemory` is the one refusal, and hands the writer back as it was.
    pub fn finish(self) -> Result<Vec<u8>, (PmtWriter, NoMemory)>
        ensures made { IfOk result (λ s. s.items ≡ pmt_bytes self) }
        // It is read back with the fields written.
        ensures read_back { IfOk result (λ s. pmt.Spells (record {
          program = self.program;
          pcr = 0x1FFF;
          info = [];
          streams = self.streams;
        }) s.items) }
        ensures handed_back { IfErr result (λ e. e.0 ≡ self) }
    {
        match self.make() {
            Ok(section) => Ok(section),
            Err(fault) => Err((self, fault)),
        }
    }

    #[tactic(auto, unfolding(crate::specs::Written::pmt_bytes))]
    fn make(&self) -> Result<Vec<u8>, NoMemory>
        ensures made { IfOk result (λ s. s.items ≡ pmt_bytes self.now) }
        ensures read_back { IfOk result (λ s. pmt.Spells (record {
          program = self.now.program;
          pcr = 0x1FFF;
          info = [];
          streams = self.now.streams;
        }) s.items) }
    {
        let body = pmt_body(self.alloc, &self.streams)?;
        let section = table_section(self.alloc, 0x02, self.program, 0, &body, false)?;
        Ok(section)
    }
}

fn pmt_body(alloc: Global, streams: &[u8]) -> Result<Vec<u8>, NoMemory>
    ensures { IfOk result (λ b. b.items ≡ pmt_body_bytes streams.now) }
{
    let mut body = Vec::new(alloc);
    put_u16(&mut body, 0xFFFF)?;
    put_length(&mut body, 0)?;
    body.extend_from_slice(streams)?;
    Ok(body)
}

/// The bytes of a stream.
fn stream_piece(alloc: Global, kind: u8, pid: u16, info: &[u8]) -> Result<Vec<u8>, NoMemory>
    requires pid { pid < 8192 }
    requires info { length info.now ≤ 1008 }
    ensures { IfOk result (λ p. p.items ≡ stream_bytes (record { kind = kind; pid = pid; info = info.now })) }
{
    let mut piece = Vec::new(alloc);
    put_u8(&mut piece, kind)?;
    put_u16(&mut piece, 0xE000 + pid)?;
    put_row(&mut piece, info)?;
    Ok(piece)
}
