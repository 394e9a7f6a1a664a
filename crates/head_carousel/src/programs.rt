//! PAT and PMT (ISO/IEC 13818-1, 2.4.4), and the TDT (ETSI EN 300 468, 5.2.5).
ghost use Rattle.std.specs.Prelude.{◌≡◌, ◌<◌, ◌≤◌, ◌++◌, [], ◌∷◌, IfOk, OnOk, length};
ghost use Rattle.std.specs.List.{All};
ghost use Rattle.si_desc.specs.Descriptors.{IsRow};
ghost use Rattle.si_desc.specs.Written.{component_bytes, info_bytes};
ghost use Rattle.si_table.specs.Written.{pat_bytes, pmt_bytes, stream_bytes, tdt_bytes};
ghost use Rattle.ssu_time.specs.UtcField.{time_view};
ghost use Rattle.head_carousel.specs.Signals.{pmt_draft, programs, stream, streams_of};
ghost use Rattle.head_carousel.specs.WellMade.{IsReady, IsWellMade};

use crate::listing::{add, pid_of, wanting};
use head_plan::Plan;
use si_desc::{put_component_tag, put_ssu_info};
use si_table::{PmtWriter, write_pat, write_tdt};
use ssu_compat::Oui;
use ssu_io::NoMemory;
use ssu_time::Utc;
use std::alloc::Global;
use ts_packet::Pid;
use ts_section::Timed;

/// Adds PAT, TDT and PMT.
#[tactic(auto, unfolding(crate::specs::Signals::programs))]
pub(crate) fn add_programs(
    alloc: Global,
    plan: &Plan,
    list: &mut Vec<Timed>,
) -> Result<(), NoMemory>
    ensures added { OnOk result (list.new.items ≡ list.old.items ++ programs plan.now) }
    ensures ready { All IsReady list.old.items → OnOk result (All IsReady list.new.items) }
{
    let pat = pat_section(alloc, plan.ts, plan.service, plan.pmt_pid)?;
    add(list, pid_of(0x0000), plan.signal_period, pat)?;
    let tdt = tdt_section(alloc, plan.time)?;
    add(list, pid_of(0x0014), plan.signal_period, tdt)?;
    let pmt = pmt_section(
        alloc,
        plan.service,
        plan.oui,
        plan.data_pid,
        plan.notice_pid,
    )?;
    add(list, plan.pmt_pid, plan.signal_period, pmt)
}

fn pat_section(alloc: Global, ts: u16, service: u16, pmt: Pid) -> Result<Vec<u8>, NoMemory>
    ensures made { IfOk result (λ s. s.items ≡ pat_bytes ts (record { number = service; pid = pmt })) }
    ensures right { IfOk result (λ s. IsWellMade s.items) }
{
    write_pat(alloc, ts, service, pmt)
}

fn tdt_section(alloc: Global, time: Utc) -> Result<Vec<u8>, NoMemory>
    ensures made { IfOk result (λ s. s.items ≡ tdt_bytes (time_view time)) }
    ensures right { IfOk result (λ s. IsWellMade s.items) }
{
    write_tdt(alloc, time)
}

/// The PMT of the service with its streams.
fn pmt_section(
    alloc: Global,
    service: u16,
    oui: Oui,
    pid: Pid,
    notice: Option<Pid>,
) -> Result<Vec<u8>, NoMemory>
    ensures made { IfOk result (λ s. s.items ≡ pmt_bytes (pmt_draft service (streams_of oui pid notice))) }
    ensures right { IfOk result (λ s. IsWellMade s.items) }
{
    let mut writer = PmtWriter::new(alloc, service)?;
    add_streams(alloc, &mut writer, oui, pid, notice)?;
    match writer.finish() {
        Ok(section) => Ok(section),
        Err((_, fault)) => Err(fault),
    }
}

/// Adds the streams to a PMT without streams.
fn add_streams(
    alloc: Global,
    writer: &mut PmtWriter,
    oui: Oui,
    pid: Pid,
    notice: Option<Pid>,
) -> Result<(), NoMemory>
    requires empty { writer.old.bytes ≡ [] }
    requires none { writer.old.streams ≡ [] }
    ensures { OnOk result (writer.new ≡ pmt_draft writer.old.program (streams_of oui pid notice)) }
{
    let Some(notice) = notice else {
        let info = tag_and_info(alloc, 2, oui, 1)?;
        return add_stream(writer, 0x0B, pid, &info);
    };
    let info = tag_and_info(alloc, 1, oui, 2)?;
    add_stream(writer, 0x05, notice, &info)?;
    let tag = tag_alone(alloc, 2)?;
    add_stream(writer, 0x0B, pid, &tag)
}

fn add_stream(writer: &mut PmtWriter, kind: u8, pid: Pid, info: &[u8]) -> Result<(), NoMemory>
    requires row { IsRow info.now }
    requires short { length info.now ≤ 14 }
    requires room { length writer.old.bytes ≤ 19 }
    ensures { OnOk result (writer.new ≡ record writer.old {
      streams = writer.old.streams ++ stream kind pid info.now ∷ [];
      bytes = writer.old.bytes ++ stream_bytes (stream kind pid info.now);
    }) }
{
    match writer.stream(kind, pid, info) {
        Ok(()) => Ok(()),
        Err(fault) => Err(wanting(fault)),
    }
}

/// The component tag, and the update information.
fn tag_and_info(alloc: Global, tag: u8, oui: Oui, update_type: u8) -> Result<Vec<u8>, NoMemory>
    requires { update_type < 16 }
    ensures made { IfOk result (λ row. row.items ≡ component_bytes tag ++ info_bytes oui update_type) }
    ensures row { IfOk result (λ row. IsRow row.items) }
{
    let mut row = tag_alone(alloc, tag)?;
    put_ssu_info(&mut row, oui, update_type)?;
    Ok(row)
}

fn tag_alone(alloc: Global, tag: u8) -> Result<Vec<u8>, NoMemory>
    ensures made { IfOk result (λ row. row.items ≡ component_bytes tag) }
    ensures row { IfOk result (λ row. IsRow row.items) }
{
    let mut row = Vec::new(alloc);
    put_component_tag(&mut row, tag)?;
    Ok(row)
}
