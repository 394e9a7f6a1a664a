//! Messages as they stand in a stream.

use crate::check::{same, same_at};
use dsmcc_msg::{Ddb, Dii, DiiWriter, Dsi, DsiWriter, write_ddb};
use section_form::{LongForm, MakeFault, long_section};
use ssu_compat::{Oui, Plain, write};
use ssu_io::NoMemory;
use std::alloc::Global;
use std::test::Fail;

// A DSI with one group, its DII with one module of the text 123456789, and the last of 258 blocks of such a module in
// version 33: their bytes by hand, and their CRC by a program of ten lines in Python.
const DSI: [u8; 77] = [
    0x3B, 0xB0, 0x4A, 0x00, 0x00, 0xC1, 0x00, 0x00, 0x11, 0x03, 0x10, 0x06, 0x80, 0x00, 0x00, 0x00,
    0xFF, 0x00, 0x00, 0x35, 0xFF, 0xFF, 0xFF, 0xFF, 0xFF, 0xFF, 0xFF, 0xFF, 0xFF, 0xFF, 0xFF, 0xFF,
    0xFF, 0xFF, 0xFF, 0xFF, 0xFF, 0xFF, 0xFF, 0xFF, 0x00, 0x00, 0x00, 0x1D, 0x00, 0x01, 0x80, 0x00,
    0x00, 0x02, 0x00, 0x00, 0x00, 0x09, 0x00, 0x0D, 0x00, 0x01, 0x01, 0x09, 0x01, 0x00, 0x12, 0x34,
    0x00, 0x07, 0x00, 0x02, 0x00, 0x00, 0x00, 0x00, 0x00, 0x43, 0x8E, 0x7C, 0x02,
];

const DII: [u8; 60] = [
    0x3B, 0xB0, 0x39, 0x00, 0x02, 0xC1, 0x00, 0x00, 0x11, 0x03, 0x10, 0x02, 0x80, 0x00, 0x00, 0x02,
    0xFF, 0x00, 0x00, 0x24, 0x80, 0x00, 0x00, 0x02, 0x0F, 0xE2, 0x00, 0x00, 0x00, 0x00, 0x00, 0x00,
    0x00, 0x00, 0x00, 0x00, 0x00, 0x00, 0x00, 0x01, 0x00, 0x01, 0x00, 0x00, 0x00, 0x09, 0x00, 0x06,
    0x05, 0x04, 0x03, 0x76, 0xE6, 0xE7, 0x00, 0x00, 0x13, 0x9E, 0x25, 0x8D,
];

const DDB: [u8; 39] = [
    0x3C, 0xB0, 0x24, 0x00, 0x01, 0xC3, 0x01, 0xFF, 0x11, 0x03, 0x10, 0x03, 0x80, 0x00, 0x00, 0x02,
    0xFF, 0x00, 0x00, 0x0F, 0x00, 0x01, 0x21, 0xFF, 0x01, 0x01, 0x31, 0x32, 0x33, 0x34, 0x35, 0x36,
    0x37, 0x38, 0x39, 0xA1, 0xDF, 0x3C, 0x14,
];

/// The CRC of the text 123456789 in a descriptor of tag 0x05.
const CRC_INFO: [u8; 6] = [5, 4, 0x03, 0x76, 0xE6, 0xE7];

fn group_count(dsi: &Dsi<'_>) -> u16 {
    let mut count = 0u16;
    for _group in dsi.groups() {
        count = count.saturating_add(1);
    }
    count
}

fn module_count(dii: &Dii<'_>) -> u16 {
    let mut count = 0u16;
    for _module in dii.modules() {
        count = count.saturating_add(1);
    }
    count
}

fn section(alloc: Global, table: u8, body: &[u8]) -> Result<Vec<u8>, NoMemory> {
    if body.len() > 4084 {
        return Err(NoMemory);
    }
    let head = LongForm {
        table,
        extension: 9,
        version: 3,
        number: 1,
        last: 2,
        body,
    };
    long_section(alloc, head, false)
}

#[test]
fn a_written_dsi_is_these_bytes_and_read_back(rt: HostRuntime) -> Result<(), Fail> {
    let mut writer = DsiWriter::new(rt.alloc(), 0x8000_0000)?;
    let oui = Oui::new(0x1234).ok_or("oui")?;
    let compat = write(
        rt.alloc(),
        &[Plain {
            kind: 1,
            oui,
            model: 7,
            version: 2,
        }],
    )?;
    writer.group(0x8000_0002, 9, &compat, &[])?;
    let Ok(made) = writer.finish() else {
        panic!(rt; "memory is ample");
    };
    same(&rt, &made.as_slice(), &DSI.as_slice());
    let Some(dsi) = Dsi::read(&made) else {
        panic!(rt; "it is a DSI");
    };
    same(&rt, &dsi.transaction, &0x8000_0000);
    same(&rt, &group_count(&dsi), &1);
    for group in dsi.groups() {
        same(&rt, &(group.id, group.size), &(0x8000_0002, 9));
        same(&rt, &group.info.len(), &0);
    }
    Ok(())
}

#[test]
fn a_written_dii_is_these_bytes_and_read_back(rt: HostRuntime) -> Result<(), Fail> {
    let mut writer = DiiWriter::new(rt.alloc(), 0x8000_0002, 0x8000_0002, 4066)?;
    writer.module(1, 9, 0, &CRC_INFO)?;
    let Ok(made) = writer.finish() else {
        panic!(rt; "memory is ample");
    };
    same(&rt, &made.as_slice(), &DII.as_slice());
    let Some(dii) = Dii::read(&made) else {
        panic!(rt; "it is a DII");
    };
    same(
        &rt,
        &(dii.transaction, dii.download, dii.block_size),
        &(0x8000_0002, 0x8000_0002, 4066),
    );
    same(&rt, &dii.message(), &&DII[8..DII.len() - 4]);
    let Some(again) = Dii::read_message(dii.message()) else {
        panic!(rt; "its message is a DII");
    };
    same(&rt, &module_count(&again), &1);
    for module in again.modules() {
        same(&rt, &(module.id, module.size, module.version), &(1, 9, 0));
        same(&rt, &module.info, &CRC_INFO.as_slice());
    }
    Ok(())
}

#[test]
fn a_written_ddb_is_these_bytes_and_read_back(rt: HostRuntime) -> Result<(), Fail> {
    let ddb = Ddb {
        download: 0x8000_0002,
        module: 1,
        version: 33,
        block: 257,
        bytes: b"123456789",
    };
    let made = write_ddb(rt.alloc(), ddb, 257)?;
    same(&rt, &made.as_slice(), &DDB.as_slice());
    let Some(read) = Ddb::read(&made) else {
        panic!(rt; "it is a DDB");
    };
    same(
        &rt,
        &(read.download, read.module, read.version, read.block),
        &(0x8000_0002, 1, 33, 257),
    );
    same(&rt, &read.bytes, &b"123456789".as_slice());
    Ok(())
}

#[test]
fn a_section_has_room_for_506_modules(rt: HostRuntime) -> Result<(), Fail> {
    let mut writer = DiiWriter::new(rt.alloc(), 2, 2, 1)?;
    for id in 0..506u16 {
        writer.module(id, 1, 0, &[])?;
    }
    same(
        &rt,
        &writer.module(506, 1, 0, &[]),
        &Err(MakeFault::TooLong),
    );
    let Ok(made) = writer.finish() else {
        panic!(rt; "memory is ample");
    };
    let Some(dii) = Dii::read(&made) else {
        panic!(rt; "it is a DII");
    };
    same(&rt, &module_count(&dii), &506);
    same(&rt, &made.len(), &(3 + 9 + 12 + 22 + 506 * 8));
    Ok(())
}

#[test]
fn free_bytes_are_not_looked_at(rt: HostRuntime) -> Result<(), Fail> {
    // private bytes behind the groups, a serverId of ones, and another extension and version than the writer's
    let made = section(
        rt.alloc(),
        0x3B,
        b"\x11\x03\x10\x06\x00\x00\x00\x01\xff\x00\x00\x2b\x01\x01\x01\x01\x01\x01\x01\x01\x01\x01\x01\x01\
          \x01\x01\x01\x01\x01\x01\x01\x01\x00\x00\x00\x13\x00\x01\x00\x00\x00\x02\x00\x00\x00\x09\x00\x00\
          \x00\x01\x07\x00\x02\x08\x09",
    )?;
    let Some(dsi) = Dsi::read(&made) else {
        panic!(rt; "it is a DSI");
    };
    same(&rt, &group_count(&dsi), &1);
    // three bytes of adaptation
    let made = section(
        rt.alloc(),
        0x3B,
        b"\x11\x03\x10\x06\x00\x00\x00\x01\xff\x03\x00\x1f\x01\x02\x03\x01\x01\x01\x01\x01\x01\x01\x01\x01\
          \x01\x01\x01\x01\x01\x01\x01\x01\x01\x01\x01\x00\x00\x00\x04\x00\x00\x00\x00",
    )?;
    assert!(rt; Dsi::read(&made).is_some());
    assert!(rt;
        Dsi::read(&section(
            rt.alloc(),
            0x3C,
            b"\x11\x03\x10\x06\x00\x00\x00\x01\xff\x00\x00\x2b\x01\x01\x01\x01\x01\x01\x01\x01\x01\x01\x01\
              \x01\x01\x01\x01\x01\x01\x01\x01\x01\x00\x00\x00\x13\x00\x01\x00\x00\x00\x02\x00\x00\x00\x09\
              \x00\x00\x00\x01\x07\x00\x02\x08\x09"
        )?)
        .is_none()
    );
    // a block without bytes
    let made = section(
        rt.alloc(),
        0x3C,
        b"\x11\x03\x10\x03\x00\x00\x00\x01\xff\x00\x00\x06\x00\x01\x00\x00\x00\x00",
    )?;
    let Some(ddb) = Ddb::read(&made) else {
        panic!(rt; "it is a DDB");
    };
    same(&rt, &ddb.bytes.len(), &0);
    Ok(())
}

#[test]
fn what_is_no_dsi_is_refused(rt: HostRuntime) -> Result<(), Fail> {
    let bodies: [(&str, &[u8]); 9] = [
        (
            "two groups are counted and one is there",
            b"\x11\x03\x10\x06\x00\x00\x00\x01\xff\x00\x00\x29\x01\x01\x01\x01\x01\x01\x01\x01\x01\x01\x01\
              \x01\x01\x01\x01\x01\x01\x01\x01\x01\x00\x00\x00\x11\x00\x02\x00\x00\x00\x02\x00\x00\x00\x09\
              \x00\x00\x00\x01\x07\x00\x00",
        ),
        (
            "a group info runs past the private data",
            b"\x11\x03\x10\x06\x00\x00\x00\x01\xff\x00\x00\x29\x01\x01\x01\x01\x01\x01\x01\x01\x01\x01\x01\
              \x01\x01\x01\x01\x01\x01\x01\x01\x01\x00\x00\x00\x11\x00\x01\x00\x00\x00\x02\x00\x00\x00\x09\
              \x00\x00\x00\x04\x07\x00\x00",
        ),
        (
            "the compatibility length is not 0",
            b"\x11\x03\x10\x06\x00\x00\x00\x01\xff\x00\x00\x1e\x01\x01\x01\x01\x01\x01\x01\x01\x01\x01\x01\
              \x01\x01\x01\x01\x01\x01\x01\x01\x01\x00\x02\x00\x00\x00\x04\x00\x00\x00\x00",
        ),
        (
            "a byte stands behind the private data",
            b"\x11\x03\x10\x06\x00\x00\x00\x01\xff\x00\x00\x1d\x01\x01\x01\x01\x01\x01\x01\x01\x01\x01\x01\
              \x01\x01\x01\x01\x01\x01\x01\x01\x01\x00\x00\x00\x04\x00\x00\x00\x00\x09",
        ),
        (
            "messageLength is one less than the rest of the body",
            b"\x11\x03\x10\x06\x00\x00\x00\x01\xff\x00\x00\x1b\x01\x01\x01\x01\x01\x01\x01\x01\x01\x01\x01\
              \x01\x01\x01\x01\x01\x01\x01\x01\x01\x00\x00\x00\x04\x00\x00\x00\x00",
        ),
        (
            "the adaptation is longer than the message",
            b"\x11\x03\x10\x06\x00\x00\x00\x01\xff\x1d\x00\x1c\x01\x01\x01\x01\x01\x01\x01\x01\x01\x01\x01\
              \x01\x01\x01\x01\x01\x01\x01\x01\x01\x00\x00\x00\x04\x00\x00\x00\x00",
        ),
        (
            "another protocolDiscriminator",
            b"\x12\x03\x10\x06\x00\x00\x00\x01\xff\x00\x00\x1c\x01\x01\x01\x01\x01\x01\x01\x01\x01\x01\x01\
              \x01\x01\x01\x01\x01\x01\x01\x01\x01\x00\x00\x00\x04\x00\x00\x00\x00",
        ),
        (
            "another dsmccType",
            b"\x11\x04\x10\x06\x00\x00\x00\x01\xff\x00\x00\x1c\x01\x01\x01\x01\x01\x01\x01\x01\x01\x01\x01\
              \x01\x01\x01\x01\x01\x01\x01\x01\x01\x00\x00\x00\x04\x00\x00\x00\x00",
        ),
        (
            "a DII is no DSI",
            b"\x11\x03\x10\x02\x00\x00\x00\x02\xff\x00\x00\x1e\x00\x00\x00\x02\x00\x01\x00\x00\x00\x00\x00\
              \x00\x00\x00\x00\x00\x00\x00\x00\x01\x00\x01\x00\x00\x00\x09\x00\x00\x00\x00",
        ),
    ];
    for (what, body) in bodies {
        same_at(
            &rt,
            what,
            &Dsi::read(&section(rt.alloc(), 0x3B, body)?).is_none(),
            &true,
        );
    }
    Ok(())
}

#[test]
fn what_is_no_dii_is_refused(rt: HostRuntime) -> Result<(), Fail> {
    let bodies: [(&str, &[u8]); 4] = [
        (
            "numberOfModules is one too high",
            b"\x11\x03\x10\x02\x00\x00\x00\x02\xff\x00\x00\x1e\x00\x00\x00\x02\x00\x01\x00\x00\x00\x00\x00\
              \x00\x00\x00\x00\x00\x00\x00\x00\x02\x00\x01\x00\x00\x00\x09\x00\x00\x00\x00",
        ),
        (
            "numberOfModules is one too low",
            b"\x11\x03\x10\x02\x00\x00\x00\x02\xff\x00\x00\x1e\x00\x00\x00\x02\x00\x01\x00\x00\x00\x00\x00\
              \x00\x00\x00\x00\x00\x00\x00\x00\x00\x00\x01\x00\x00\x00\x09\x00\x00\x00\x00",
        ),
        (
            "the private length is one too high",
            b"\x11\x03\x10\x02\x00\x00\x00\x02\xff\x00\x00\x1e\x00\x00\x00\x02\x00\x01\x00\x00\x00\x00\x00\
              \x00\x00\x00\x00\x00\x00\x00\x00\x01\x00\x01\x00\x00\x00\x09\x00\x00\x00\x01",
        ),
        (
            "a DSI is no DII",
            b"\x11\x03\x10\x06\x00\x00\x00\x01\xff\x00\x00\x1c\x01\x01\x01\x01\x01\x01\x01\x01\x01\x01\x01\
              \x01\x01\x01\x01\x01\x01\x01\x01\x01\x00\x00\x00\x04\x00\x00\x00\x00",
        ),
    ];
    for (what, body) in bodies {
        same_at(
            &rt,
            what,
            &Dii::read(&section(rt.alloc(), 0x3B, body)?).is_none(),
            &true,
        );
    }
    Ok(())
}

#[test]
fn a_block_has_at_most_4066_bytes(rt: HostRuntime) -> Result<(), Fail> {
    let ddb = Ddb {
        download: 1,
        module: 1,
        version: 0,
        block: 0,
        bytes: &[0; 4066],
    };
    let made = write_ddb(rt.alloc(), ddb, 0)?;
    same(&rt, &made.len(), &4096);
    assert!(rt; Ddb::read(&made).is_some());
    // one byte more, with section_length 4094 and its right CRC
    let mut longer = Vec::new(rt.alloc());
    longer.extend_from_slice(
        b"\x3C\xBF\xFE\x00\x01\xC1\x00\x00\x11\x03\x10\x03\x00\x00\x00\x01\xFF\x00\x0F\xE9\x00\x01\x00\xFF\x00\x00",
    )?;
    longer.extend_from_slice(&[0; 4067])?;
    longer.extend_from_slice(b"\x15\xBD\xCC\x46")?;
    same(&rt, &longer.len(), &4097);
    assert!(rt; Ddb::read(&longer).is_none());
    Ok(())
}
