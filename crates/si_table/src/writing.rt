//! Writing PAT, NIT, BAT, TDT and TOT: version 0, section 0 of 0; reserved bits are ones.

ghost use Rattle.std.specs.Prelude.{◌≡◌, ◌⊎◌, ◌↔◌, ◌<◌, ◌≤◌, [], ◌∷◌, length, Err, IfOk};
ghost use Rattle.si_desc.specs.Descriptors.{IsRow};
ghost use Rattle.ssu_time.specs.UtcField.{time_view};
ghost use Rattle.si_table.specs.Tables.{pat, net};
ghost use Rattle.si_table.specs.Times.{tdt, tot};
ghost use Rattle.si_table.specs.Written.{pat_bytes, net_body_bytes, net_bytes, net_section_length, tdt_bytes, tot_text, tot_bytes, tot_section_length};

use section_form::{MakeFault, table_section};
use si_desc::put_row;
use ssu_io::NoMemory;
use ssu_time::{Utc, write_utc};
use std::alloc::Global;
use ts_packet::Pid;
use wire::{put_length, put_u8, put_u16, put_u32};

/// A PAT of one program. `NoMemory` is the one refusal.
#[tactic(auto, unfolding(crate::specs::Written::pat_bytes))]
pub fn write_pat(alloc: Global, ts: u16, program: u16, pmt: Pid) -> Result<Vec<u8>, NoMemory>
    ensures made { IfOk result (λ s. s.items ≡ pat_bytes ts (record { number = program; pid = pmt })) }
    // It is read back with the fields written.
    ensures read_back { IfOk result (λ s. pat.Spells (record { ts = ts; programs = record { number = program; pid = pmt } ∷ [] }) s.items) }
{
    let mut body = Vec::new(alloc);
    put_u16(&mut body, program)?;
    put_u16(&mut body, 0xE000 + pmt.get())?;
    let section = table_section(alloc, 0x00, ts, 0, &body, false)?;
    Ok(section)
}

/// A NIT, `table` 0x40, or a BAT, `table` 0x4A, with one entry, which has no descriptors. `info` is a row of whole
/// descriptors. `TooLong` comes exactly where `info` has more than 1,002 bytes, so that section_length would pass 1,021;
/// `Memory` where memory runs out.
#[tactic(auto, unfolding(crate::specs::Written::net_bytes))]
pub fn write_net(
    alloc: Global,
    table: u8,
    id: u16,
    info: &[u8],
    ts: u16,
    network: u16,
) -> Result<Vec<u8>, MakeFault>
    requires table { (table ≡ 0x40) ⊎ (table ≡ 0x4A) }
    requires row { IsRow info.now }
    ensures made { IfOk result (λ s. s.items ≡ net_bytes table id info.now ts network) }
    // It is read back with the fields written.
    ensures read_back { IfOk result (λ s. net.Spells (record {
      table = table;
      id = id;
      info = info.now;
      entries = record { ts = ts; network = network; info = [] } ∷ [];
    }) s.items) }
    ensures too_long { (result ≡ Err MakeFault.TooLong) ↔ (1021 < net_section_length (length info.now)) }
{
    if info.len() > 1002 {
        return Err(MakeFault::TooLong);
    }
    let body = net_body(alloc, info, ts, network)?;
    let section = table_section(alloc, table, id, 0, &body, true)?;
    Ok(section)
}

fn net_body(alloc: Global, info: &[u8], ts: u16, network: u16) -> Result<Vec<u8>, NoMemory>
    requires { length info.now ≤ 1002 }
    ensures { IfOk result (λ b. b.items ≡ net_body_bytes info.now ts network) }
{
    let mut body = Vec::new(alloc);
    put_row(&mut body, info)?;
    put_length(&mut body, 6)?;
    put_u16(&mut body, ts)?;
    put_u16(&mut body, network)?;
    put_length(&mut body, 0)?;
    Ok(body)
}

/// A TDT. `NoMemory` is the one refusal.
pub fn write_tdt(alloc: Global, time: Utc) -> Result<Vec<u8>, NoMemory>
    ensures made { IfOk result (λ s. s.items ≡ tdt_bytes (time_view time)) }
    // It is read back with the time written.
    ensures read_back { IfOk result (λ s. tdt.Spells (time_view time) s.items) }
{
    let mut out = Vec::new(alloc);
    put_u8(&mut out, 0x70)?;
    put_u16(&mut out, 0x7005)?;
    out.extend_from_slice(&write_utc(time))?;
    Ok(out)
}

/// A TOT. `info` is a row of whole descriptors. `TooLong` comes exactly where it has more than 1,010 bytes, so that
/// section_length would pass 1,021; `Memory` where memory runs out.
#[tactic(auto, unfolding(crate::specs::Written::tot_bytes))]
pub fn write_tot(alloc: Global, time: Utc, info: &[u8]) -> Result<Vec<u8>, MakeFault>
    requires { IsRow info.now }
    ensures made { IfOk result (λ s. s.items ≡ tot_bytes (time_view time) info.now) }
    // It is read back with the fields written.
    ensures read_back { IfOk result (λ s. tot.Spells (record { time = time_view time; info = info.now }) s.items) }
    ensures too_long { (result ≡ Err MakeFault.TooLong) ↔ (1021 < tot_section_length (length info.now)) }
{
    if info.len() > 1010 {
        return Err(MakeFault::TooLong);
    }
    let mut out = tot_front(alloc, time, info)?;
    let crc = ts_crc::crc(&out);
    put_u32(&mut out, crc)?;
    Ok(out)
}

/// What the CRC of a TOT is taken over.
fn tot_front(alloc: Global, time: Utc, info: &[u8]) -> Result<Vec<u8>, NoMemory>
    requires { length info.now ≤ 1010 }
    ensures { IfOk result (λ s. s.items ≡ tot_text (time_view time) info.now) }
{
    let mut out = Vec::new(alloc);
    put_u8(&mut out, 0x73)?;
    put_u16(&mut out, 0x7000 + 11 + info.len() as u16)?;
    out.extend_from_slice(&write_utc(time))?;
    put_row(&mut out, info)?;
    Ok(out)
}
