//! A small carousel, over a flash in memory.

use crate::check::same;
use crate::messages::{ddb, dii, dsi, section};
use box_file::BoxFile;
use flash_bank::{boot, format};
use flash_dev::MemFlash;
use flash_stage::BankStage;
use si_desc::ServiceRef;
use ssu_compat::{BoxId, Oui, Rule, SwId};
use ssu_io::{MemSink, MemSource};
use ssu_loader::{Chosen, Verdict, replay};
use std::alloc::Global;
use std::test::Fail;
use ts_packet::Pid;
use ts_section::cut;

const OLD: SwId = SwId {
    model: 1,
    version: 7,
};

const NEW: SwId = SwId {
    model: 1,
    version: 8,
};

const GROUP: u32 = 2;

/// Program 3 has its PMT on PID 256.
const PROGRAMS: &[u8] = b"\x00\x03\xE1\x00";

/// Stream 258 has an update of type 1.
const STREAMS: &[u8] =
    b"\xFF\xFF\xF0\x00\x0B\xE1\x02\xF0\x0B\x66\x09\x00\x0A\x06\x00\x12\x34\xF1\xC0\x00";

/// The image before a replay.
const OLD_IMAGE: &[u8] = &[1, 2, 3];

/// A compressed_module_descriptor: ETSI EN 301 192, 8.1.2.
const COMPRESSED: &[u8] = &[9, 5, 8, 0, 0, 0, 9];

/// The CRC of the text 123456789.
const CRC_INFO: &[u8] = &[5, 4, 0x03, 0x76, 0xE6, 0xE7];

/// Adds the packets of a section, and answers the next counter.
fn send(out: &mut Vec<u8>, section: &[u8], pid: u16, counter: u8) -> Result<u8, Fail> {
    let pid = Pid::new(pid).ok_or("a PID")?;
    if section.len() < 3 || section.len() > 4096 || section[0] == 0xFF {
        return Err("no section".into());
    }
    Ok(cut(section, pid, counter % 16, out)?)
}

/// What the carousel sends next.
#[derive(Clone, Copy)]
enum Next<'a> {
    /// A DSI with these groups: each has an id, the model of its hardware and the version of its software.
    Groups(&'a [(u32, u16, u16)]),
    /// The DII of a group, whose module has this version and these descriptors.
    Module(u32, u8, &'a [u8]),
    /// This block of the group.
    Block(u32, u16, &'a [u8]),
}

/// The packets of the tables, and of the carousel with blocks of this length.
fn stream(alloc: Global, block_size: u16, sent: &[Next<'_>]) -> Result<Vec<u8>, Fail> {
    let mut out = Vec::new(alloc);
    send(&mut out, &section(alloc, 0x00, 1, PROGRAMS)?, 0, 0)?;
    send(&mut out, &section(alloc, 0x02, 3, STREAMS)?, 256, 0)?;
    let mut counter = 0;
    for next in sent {
        let section = match *next {
            Next::Groups(groups) => dsi(alloc, groups)?,
            Next::Module(group, version, info) => dii(
                alloc,
                group,
                block_size,
                &[(1, 9, version, info)],
            )?,
            Next::Block(group, block, bytes) => ddb(alloc, group, block, bytes)?,
        };
        counter = send(&mut out, &section, 258, counter)?;
    }
    Ok(out)
}

fn the_box() -> Result<BoxFile, Fail> {
    Ok(BoxFile {
        id: BoxId {
            oui: Oui::new(0x1234).ok_or("an OUI")?,
            model: 7,
            version: 2,
            mac: None,
            serial: None,
        },
        rule: Rule::Newer,
        manual: false,
        service: Some(ServiceRef {
            ts: 1,
            network: 2,
            service: 3,
        }),
        software: OLD,
    })
}

/// What comes of a replay of the carousel, and what boot takes then.
fn came(alloc: Global, block_size: u16, sent: &[Next<'_>]) -> Result<(Verdict, Vec<u8>), Fail> {
    let mut flash = MemFlash::blank(alloc, 6, 256, 64)?;
    format(&mut flash, OLD_IMAGE, OLD)?;
    let mut air = MemSource::new(stream(alloc, block_size, sent)?, 100, Vec::new(alloc));
    let verdict = replay::<MemSource, MemFlash, BankStage>(
        alloc,
        &the_box()?,
        &mut air,
        &mut flash,
    )?;
    let mut sink = MemSink::new(alloc, Vec::new(alloc));
    boot(&mut flash, &mut sink)?;
    Ok((verdict, sink.into_bytes()))
}

fn chosen(group: u32) -> Chosen {
    Chosen {
        group,
        software: NEW,
        bytes: 9,
    }
}

#[test]
fn a_carousel_comes_to_its_verdict(rt: HostRuntime) -> Result<(), Fail> {
    let alloc = rt.alloc();
    let text: &[u8] = b"123456789";
    let other: &[u8] = b"987654321";
    let both: &[(u32, u16, u16)] = &[(GROUP, 7, 8), (4, 7, 8)];
    let own: &[(u32, u16, u16)] = &[(GROUP, 7, 8)];
    let none: &[(u32, u16, u16)] = &[];
    // the length of a block, what is sent, what comes of it, and what boot takes
    let rows: [(u16, &[Next<'_>], Verdict, &[u8]); 5] = [
        (
            4066,
            &[
                Next::Groups(own),
                Next::Module(GROUP, 0, CRC_INFO),
                Next::Block(GROUP, 0, text),
            ],
            Verdict::Installed(chosen(GROUP)),
            text,
        ),
        (
            4066,
            &[
                Next::Groups(own),
                Next::Module(GROUP, 0, CRC_INFO),
                Next::Block(GROUP, 0, other),
            ],
            Verdict::BadModule(1, 0x0376_E6E7, 0x56FD_8C5B),
            OLD_IMAGE,
        ),
        (
            4066,
            &[Next::Groups(own), Next::Module(GROUP, 0, CRC_INFO)],
            Verdict::Incomplete(chosen(GROUP), 1),
            OLD_IMAGE,
        ),
        // the module of the first group is compressed, so the second is taken
        (
            4066,
            &[
                Next::Groups(both),
                Next::Module(GROUP, 0, COMPRESSED),
                Next::Module(4, 0, CRC_INFO),
                Next::Block(4, 0, text),
            ],
            Verdict::Installed(chosen(4)),
            text,
        ),
        // behind half the blocks comes a DSI without a group, and then the group again: the first block does not count
        (
            5,
            &[
                Next::Groups(own),
                Next::Module(GROUP, 0, CRC_INFO),
                Next::Block(GROUP, 0, b"12345"),
                Next::Groups(none),
                Next::Groups(own),
                Next::Module(GROUP, 0, CRC_INFO),
                Next::Block(GROUP, 1, b"6789"),
            ],
            Verdict::Incomplete(chosen(GROUP), 1),
            OLD_IMAGE,
        ),
    ];
    for (block_size, sent, verdict, image) in rows {
        let (came, booted) = came(alloc, block_size, sent)?;
        same(&rt, &came, &verdict);
        same(&rt, &booted.as_slice(), &image);
    }
    Ok(())
}

#[test]
fn no_more_than_sixteen_choices_begin(rt: HostRuntime) -> Result<(), Fail> {
    let alloc = rt.alloc();
    let own: &[(u32, u16, u16)] = &[(GROUP, 7, 8)];
    let rows: [(u8, Verdict); 2] = [
        (16, Verdict::Incomplete(chosen(GROUP), 1)),
        (17, Verdict::Unsettled),
    ];
    for (choices, verdict) in rows {
        let mut sent = vec![in alloc; Next::Groups(own)]?;
        for k in 0..choices {
            sent.push(Next::Module(GROUP, k % 2, CRC_INFO))?;
        }
        let (came, booted) = came(alloc, 4066, &sent)?;
        same(&rt, &came, &verdict);
        same(&rt, &booted.as_slice(), &OLD_IMAGE);
    }
    Ok(())
}
