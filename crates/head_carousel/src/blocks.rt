//! The data blocks: ISO/IEC 13818-6, 7.3; ETSI EN 301 192, 8.1.
ghost use Rattle.std.specs.Prelude.{◌≡◌, ◌≤◌, ◌<◌, ◌-◌, ◌++◌, IfOk, OnOk, length, map};
ghost use Rattle.std.specs.List.{All};
ghost use Rattle.dsmcc_msg.specs.Written.{ddb_bytes};
ghost use Rattle.head_carousel.specs.Blocks.{IsShort, all_blocks, block_count, block_of as block_in, ddb_fields};
ghost use Rattle.head_carousel.specs.Blocks.{group_blocks, module_blocks};
ghost use Rattle.head_carousel.specs.Signals.{timed};
ghost use Rattle.head_carousel.specs.WellMade.{IsReady, IsWellMade};

use crate::group_files::GroupFiles;
use crate::listing::add;
use dsmcc_msg::{Ddb, write_ddb};
use ssu_io::NoMemory;
use std::alloc::Global;
use ts_packet::Pid;
use ts_section::Timed;

/// Where and how often the blocks are sent.
#[derive(Drop)]
pub(crate) struct Rhythm {
    pub(crate) pid: Pid,
    pub(crate) period: u32,
}

/// Adds the blocks of all groups.
pub(crate) fn add_blocks(
    alloc: Global,
    groups: &[GroupFiles<'_>],
    rhythm: &Rhythm,
    list: &mut Vec<Timed>,
) -> Result<(), NoMemory>
    requires period { 1 ≤ rhythm.now.period }
    requires short { All IsShort groups.now }
    ensures added { OnOk result (list.new.items
        ≡ list.old.items ++ map (timed rhythm.now.pid rhythm.now.period) (all_blocks groups.now)) }
    ensures ready { All IsReady list.old.items → OnOk result (All IsReady list.new.items) }
{
    for group in groups {
        add_group_blocks(alloc, group, rhythm, list)?;
    }
    Ok(())
}

fn add_group_blocks(
    alloc: Global,
    group: &GroupFiles<'_>,
    rhythm: &Rhythm,
    list: &mut Vec<Timed>,
) -> Result<(), NoMemory>
    requires period { 1 ≤ rhythm.now.period }
    requires short { IsShort group.now }
    ensures added { OnOk result (list.new.items
        ≡ list.old.items ++ map (timed rhythm.now.pid rhythm.now.period) (group_blocks group.now)) }
    ensures ready { All IsReady list.old.items → OnOk result (All IsReady list.new.items) }
{
    for (index, file) in group.files.iter().enumerate() {
        add_module_blocks(alloc, group, 1 + index as u16, file, rhythm, list)?;
    }
    Ok(())
}

fn add_module_blocks(
    alloc: Global,
    group: &GroupFiles<'_>,
    id: u16,
    file: &[u8],
    rhythm: &Rhythm,
    list: &mut Vec<Timed>,
) -> Result<(), NoMemory>
    requires period { 1 ≤ rhythm.now.period }
    requires short { block_count group.now.group.block_size file.now ≤ 65536 }
    ensures added { OnOk result (list.new.items
        ≡ list.old.items ++ map (timed rhythm.now.pid rhythm.now.period) (module_blocks group.now (id, file.now))) }
    ensures ready { All IsReady list.old.items → OnOk result (All IsReady list.new.items) }
{
    let plan = group.group;
    let size = plan.block_size as usize;
    let count = file.len().div_ceil(size);
    for k in 0..count {
        let section = block_section(alloc, group, id, file, k, count)?;
        add(list, rhythm.pid, rhythm.period, section)?;
    }
    Ok(())
}

/// The section of a block, of which the module has `count`.
fn block_section(
    alloc: Global,
    group: &GroupFiles<'_>,
    id: u16,
    file: &[u8],
    k: usize,
    count: usize,
) -> Result<Vec<u8>, NoMemory>
    requires within { k < count }
    requires all { count ≡ block_count group.now.group.block_size file.now }
    requires few { count ≤ 65536 }
    ensures made { IfOk result (λ s. s.items ≡ ddb_bytes (ddb_fields group.now (id, file.now) k) (count - 1)) }
    ensures right { IfOk result (λ s. IsWellMade s.items) }
{
    let plan = group.group;
    let ddb = Ddb {
        download: group.id,
        module: id,
        version: plan.module_version,
        block: k as u16,
        bytes: block_of(file, plan.block_size as usize, k),
    };
    write_ddb(alloc, ddb, (count - 1) as u16)
}

/// So many bytes, or what is left of the file.
fn block_of(file: &[u8], size: usize, k: usize) -> &[u8]
    requires size { 1 ≤ size }
    requires short { size ≤ 4066 }
    requires within { k < block_count size file.now }
    ensures bytes { result.now ≡ block_in size file.now k }
    ensures len { length result.now ≤ size }
{
    let (_, rest) = file.split_at(k * size);
    let (block, _) = rest.split_at(size.min(rest.len()));
    block
}
