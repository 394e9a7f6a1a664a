//! The control messages, DSI and DII: ISO/IEC 13818-6, 7.3; ETSI EN 301 192, 8.1.
ghost use Rattle.std.specs.Prelude.{◌≡◌, ◌≤◌, ◌<◌, ◌^◌, ◌++◌, [], ◌∷◌, IfOk, OnOk, length, map};
ghost use Rattle.std.specs.List.{All, flat_map, sum_by};
ghost use Rattle.std.specs.Option.{ForSome};
ghost use Rattle.ssu_compat.specs.Compat.{compat as compat_format};
ghost use Rattle.ssu_compat.specs.Written.{entry_of, spelling};
ghost use Rattle.head_carousel.specs.Blocks.{IsShort};
ghost use Rattle.head_carousel.specs.Control.{crc_row as crc_bytes, dii_section as dii_of, dsi_section as dsi_of};
ghost use Rattle.head_carousel.specs.Control.{group_fields, group_piece, hardware_and_software as both, module_fields};
ghost use Rattle.head_carousel.specs.Control.{module_piece, subgroup_row};
ghost use Rattle.head_carousel.specs.GroupFiles.{numbered};
ghost use Rattle.head_carousel.specs.Sections.{control_messages};
ghost use Rattle.head_carousel.specs.Signals.{timed};
ghost use Rattle.head_carousel.specs.WellMade.{IsReady, IsWellMade};

use crate::group_files::GroupFiles;
use crate::listing::{add, wanting};
use crate::notices::put_subgroup;
use dsmcc_msg::{DiiWriter, DsiWriter};
use head_plan::{Plan, PlanGroup};
use ssu_compat::{Oui, Plain, write};
use ssu_io::NoMemory;
use std::alloc::Global;
use ts_packet::Pid;
use ts_section::Timed;

/// Adds the DSI, and a DII for each group.
pub(crate) fn add_control_messages(
    alloc: Global,
    plan: &Plan,
    groups: &[GroupFiles<'_>],
    list: &mut Vec<Timed>,
) -> Result<(), NoMemory>
    requires few { length groups.now ≤ 16 }
    requires small { All IsShort groups.now }
    ensures added { OnOk result (list.new.items ≡ list.old.items ++ control_messages plan.now groups.now) }
    ensures ready { All IsReady list.old.items → OnOk result (All IsReady list.new.items) }
{
    let dsi = dsi_section(alloc, plan.oui, groups)?;
    add(list, plan.data_pid, plan.signal_period, dsi)?;
    add_diis(alloc, plan.data_pid, plan.signal_period, groups, list)
}

fn add_diis(
    alloc: Global,
    pid: Pid,
    period: u32,
    groups: &[GroupFiles<'_>],
    list: &mut Vec<Timed>,
) -> Result<(), NoMemory>
    requires period { 1 ≤ period }
    requires small { All IsShort groups.now }
    ensures added { OnOk result (list.new.items
        ≡ list.old.items ++ map (λ g. timed pid period (dii_of g)) groups.now) }
    ensures ready { All IsReady list.old.items → OnOk result (All IsReady list.new.items) }
{
    for group in groups {
        let dii = dii_section(alloc, group)?;
        add(list, pid, period, dii)?;
    }
    Ok(())
}

/// The DSI of the groups.
fn dsi_section(alloc: Global, oui: Oui, groups: &[GroupFiles<'_>]) -> Result<Vec<u8>, NoMemory>
    requires few { length groups.now ≤ 16 }
    requires small { All IsShort groups.now }
    ensures made { IfOk result (λ s. s.items ≡ dsi_of oui groups.now) }
    ensures right { IfOk result (λ s. IsWellMade s.items) }
{
    let mut writer = DsiWriter::new(alloc, 0x8000_0000)?;
    for group in groups {
        add_group(alloc, &mut writer, oui, group)?;
    }
    match writer.finish() {
        Ok(section) => Ok(section),
        Err((_, fault)) => Err(fault),
    }
}

fn add_group(
    alloc: Global,
    writer: &mut DsiWriter,
    oui: Oui,
    group: &GroupFiles<'_>,
) -> Result<(), NoMemory>
    requires room { length writer.old.bytes ≤ 1000 }
    requires small { IsShort group.now }
    ensures { OnOk result (writer.new ≡ record writer.old {
      groups = writer.old.groups ++ group_fields oui group.now ∷ [];
      bytes = writer.old.bytes ++ group_piece oui group.now;
    }) }
{
    let plan = group.group;
    let compat = hardware_and_software(alloc, oui, plan)?;
    let info = subgroup_info(alloc, plan.subgroup)?;
    match writer.group(group.id, total_size(group.files), &compat, &info) {
        Ok(()) => Ok(()),
        Err(fault) => Err(wanting(fault)),
    }
}

/// The descriptor of a subgroup, where there is one.
fn subgroup_info(alloc: Global, subgroup: Option<u64>) -> Result<Vec<u8>, NoMemory>
    requires { ForSome subgroup (λ n. n < 2 ^ 40) }
    ensures made { IfOk result (λ info. info.items ≡ subgroup_row subgroup) }
{
    let mut info = Vec::new(alloc);
    put_subgroup(&mut info, subgroup)?;
    Ok(info)
}

/// The compatibility descriptor of the group's hardware and software.
fn hardware_and_software(alloc: Global, oui: Oui, group: &PlanGroup) -> Result<Vec<u8>, NoMemory>
    ensures made { IfOk result (λ v. v.items ≡ spelling (both oui group.now)) }
    ensures spelled { IfOk result (λ v. compat_format.Spells (map entry_of (both oui group.now)) v.items) }
{
    let hardware = Plain {
        kind: 1,
        oui,
        model: group.model,
        version: group.version,
    };
    let software = Plain {
        kind: 2,
        oui,
        model: group.software_model,
        version: group.software_version,
    };
    write(alloc, &[hardware, software])
}

/// The bytes of all files.
fn total_size(files: &[Vec<u8>]) -> u32
    requires { sum_by (λ f. length f.items) files.now < 2 ^ 32 }
    ensures { result ≡ sum_by length (map (λ f. f.items) files.now) }
{
    let mut total = 0;
    for file in files {
        total += file.len() as u32;
    }
    total
}

/// The DII of a group.
fn dii_section(alloc: Global, group: &GroupFiles<'_>) -> Result<Vec<u8>, NoMemory>
    requires small { IsShort group.now }
    ensures made { IfOk result (λ s. s.items ≡ dii_of group.now) }
    ensures right { IfOk result (λ s. IsWellMade s.items) }
{
    let plan = group.group;
    let mut writer = DiiWriter::new(alloc, group.id, group.id, plan.block_size)?;
    add_modules(&mut writer, plan.module_version, group.files)?;
    match writer.finish() {
        Ok(section) => Ok(section),
        Err((_, fault)) => Err(fault),
    }
}

/// Adds a module for each file, numbered from 1, to a DII without modules.
fn add_modules(writer: &mut DiiWriter, version: u8, files: &[Vec<u8>]) -> Result<(), NoMemory>
    requires few { length files.now ≤ 256 }
    requires none { writer.old.modules ≡ [] }
    requires empty { writer.old.bytes ≡ [] }
    requires small { sum_by (λ f. length f.items) files.now < 2 ^ 32 }
    ensures { OnOk result (writer.new ≡ record writer.old {
      modules = map (module_fields version) (numbered 1 (map (λ f. f.items) files.now));
      bytes = flat_map (module_piece version) (numbered 1 (map (λ f. f.items) files.now));
    }) }
{
    for (index, file) in files.iter().enumerate() {
        add_module(writer, 1 + index as u16, version, file)?;
    }
    Ok(())
}

fn add_module(writer: &mut DiiWriter, id: u16, version: u8, file: &[u8]) -> Result<(), NoMemory>
    requires room { length writer.old.bytes ≤ 3570 }
    requires small { length file.now < 2 ^ 32 }
    ensures { OnOk result (writer.new ≡ record writer.old {
      modules = writer.old.modules ++ module_fields version (id, file.now) ∷ [];
      bytes = writer.old.bytes ++ module_piece version (id, file.now);
    }) }
{
    let info = crc_row(file);
    match writer.module(id, file.len() as u32, version, &info) {
        Ok(()) => Ok(()),
        Err(fault) => Err(wanting(fault)),
    }
}

/// The CRC32 descriptor of a module.
fn crc_row(file: &[u8]) -> [u8; 6]
    ensures { result ≡ crc_bytes file.now }
{
    let [a, b, c, d] = ts_crc::crc(file).to_be_bytes();
    [0x05, 4, a, b, c, d]
}
