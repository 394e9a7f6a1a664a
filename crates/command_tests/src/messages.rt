//! Messages of a small carousel as sections, and their packets.

use dsmcc_msg::{Ddb, DiiWriter, write_ddb};
use std::alloc::Global;
use std::test::Fail;
use ts_packet::Pid;
use ts_section::cut;

/// The group of the examples, which has one module of 9 bytes.
pub const GROUP: u32 = 0x8000_0002;

/// The DII of a group, whose module has this info.
pub fn dii(alloc: Global, group: u32, block_size: u16, info: &[u8]) -> Result<Vec<u8>, Fail> {
    if info.len() > 255 {
        return Err("the info is too long".into());
    }
    let mut writer = DiiWriter::new(alloc, group, group, block_size)?;
    writer.module(1, 9, 0, info)?;
    Ok(writer.finish().ok().ok_or("memory")?)
}

/// The block of the module of the group.
pub fn ddb(alloc: Global, version: u8, bytes: &[u8]) -> Result<Vec<u8>, Fail> {
    if bytes.len() > 4066 {
        return Err("the block is too long".into());
    }
    let block = Ddb {
        download: GROUP,
        module: 1,
        version,
        block: 0,
        bytes,
    };
    Ok(write_ddb(alloc, block, 0)?)
}

/// Adds the packets of a section, and answers the next counter.
pub fn send(out: &mut Vec<u8>, section: &[u8], pid: u16, counter: u8) -> Result<u8, Fail> {
    let pid = Pid::new(pid).ok_or("a PID")?;
    if section.len() < 3 || section.len() > 4096 || section[0] == 0xFF {
        return Err("no section".into());
    }
    Ok(cut(section, pid, counter % 16, out)?)
}
