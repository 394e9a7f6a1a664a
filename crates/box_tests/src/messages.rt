//! Sections of tables, and messages of small carousels as sections.

use dsmcc_msg::{Ddb, DiiWriter, DsiWriter, write_ddb};
use section_form::table_section;
use ssu_compat::{Oui, Plain, write};
use std::alloc::Global;
use std::test::Fail;

/// A section of a table with this body, in the long form, with a CRC.
pub fn section(alloc: Global, table: u8, extension: u16, body: &[u8]) -> Result<Vec<u8>, Fail> {
    if body.len() > 4084 {
        return Err("the body is too long".into());
    }
    Ok(table_section(alloc, table, extension, 0, body, true)?)
}

/// A DSI with these groups of 9 bytes for the OUI 0x001234: each has an id, the model of its hardware, whose version is 2, and the version
/// of its software, whose model is 1.
pub fn dsi(alloc: Global, groups: &[(u32, u16, u16)]) -> Result<Vec<u8>, Fail> {
    let oui = Oui::new(0x1234).ok_or("an OUI")?;
    let mut writer = DsiWriter::new(alloc, 0x8000_0000)?;
    for (id, model, version) in groups {
        let hardware = Plain {
            kind: 1,
            oui,
            model: *model,
            version: 2,
        };
        let software = Plain {
            kind: 2,
            oui,
            model: 1,
            version: *version,
        };
        let compat = write(alloc, &[hardware, software])?;
        writer.group(*id, 9, &compat, &[])?;
    }
    Ok(writer.finish().ok().ok_or("memory")?)
}

/// A module of a DII: its id, its size, its version and its descriptors.
pub type Module<'a> = (u16, u32, u8, &'a [u8]);

/// The DII of a group with these modules.
pub fn dii(
    alloc: Global,
    group: u32,
    block_size: u16,
    modules: &[Module<'_>],
) -> Result<Vec<u8>, Fail> {
    let mut writer = DiiWriter::new(alloc, group, group, block_size)?;
    for (id, size, version, info) in modules {
        if info.len() > 255 {
            return Err("the descriptors are too long".into());
        }
        writer.module(*id, *size, *version, info)?;
    }
    Ok(writer.finish().ok().ok_or("memory")?)
}

/// The DII of a group with so many modules of one byte, each with this version and these descriptors.
pub fn dii_of_many(
    alloc: Global,
    group: u32,
    block_size: u16,
    count: u16,
    version: u8,
    info: &[u8],
) -> Result<Vec<u8>, Fail> {
    if info.len() > 255 {
        return Err("the descriptors are too long".into());
    }
    let mut writer = DiiWriter::new(alloc, group, group, block_size)?;
    for id in 0..count {
        writer.module(id, 1, version, info)?;
    }
    Ok(writer.finish().ok().ok_or("memory")?)
}

/// A block of module 1 of a group, in version 0.
pub fn ddb(alloc: Global, group: u32, number: u16, bytes: &[u8]) -> Result<Vec<u8>, Fail> {
    if bytes.len() > 4066 {
        return Err("the block is too long".into());
    }
    let block = Ddb {
        download: group,
        module: 1,
        version: 0,
        block: number,
        bytes,
    };
    Ok(write_ddb(alloc, block, number)?)
}
