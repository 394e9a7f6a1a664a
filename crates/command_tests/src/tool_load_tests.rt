//! Carousels that the tests make, and what comes of them.

use crate::check::same;
use crate::messages::{GROUP, ddb, dii, send};
use dsmcc_msg::DsiWriter;
use ssu_answer::{Chosen, Level};
use ssu_compat::{Oui, Plain, SwId, write};
use ssu_io::{MemSink, MemSource, Source};
use ssu_status::Status;
use std::alloc::Global;
use std::test::Fail;
use tool_load::{first_with_later_steps, load, verdict_stays};
use ts_packet::Pid;

/// The bytes of the module.
const TEXT: &[u8] = b"123456789";

/// The descriptor with the CRC of the text, and one with zeros.
const CRC_INFO: &[u8] = &[5, 4, 0x03, 0x76, 0xE6, 0xE7];

const ZERO_INFO: &[u8] = &[5, 4, 0, 0, 0, 0];

/// compressed_module
const COMPRESSED_INFO: &[u8] = &[9, 1, 0];

/// A DSI with these groups.
fn dsi(alloc: Global, groups: &[u32]) -> Result<Vec<u8>, Fail> {
    let oui = Oui::new(0x00_1234).ok_or("an OUI")?;
    let entries = [
        Plain {
            kind: 1,
            oui,
            model: 7,
            version: 2,
        },
        Plain {
            kind: 2,
            oui,
            model: 1,
            version: 8,
        },
    ];
    let mut writer = DsiWriter::new(alloc, 0x8000_0000)?;
    for group in groups {
        let compat = write(alloc, &entries)?;
        writer.group(*group, 9, &compat, &[])?;
    }
    Ok(writer.finish().ok().ok_or("memory")?)
}

/// A section of the example's carousel, or one that differs from it.
#[derive(Clone, Copy)]
enum Sent {
    /// A DSI without groups.
    NoGroup,
    /// A DSI with the group and another one.
    Groups,
    /// A DSI with the other group alone.
    OtherGroup,
    /// The DII of the group, with the CRC of its module.
    Usable,
    /// The same without a CRC.
    Plain,
    /// The same with a CRC of zeros.
    Zeros,
    /// The same with a compressed module.
    Compressed,
    /// The DII of the other group.
    OtherDii,
    /// The only block of the module.
    Block,
    /// The block with other bytes.
    SecondBlock,
    /// The block in another version.
    NewerBlock,
    /// The block with a byte less.
    ShortBlock,
}

fn section_of(alloc: Global, sent: Sent) -> Result<Vec<u8>, Fail> {
    match sent {
        Sent::NoGroup => dsi(alloc, &[]),
        Sent::Groups => dsi(alloc, &[GROUP, 7]),
        Sent::OtherGroup => dsi(alloc, &[7]),
        Sent::Usable => dii(alloc, GROUP, 4066, CRC_INFO),
        Sent::Plain => dii(alloc, GROUP, 4066, &[]),
        Sent::Zeros => dii(alloc, GROUP, 4066, ZERO_INFO),
        Sent::Compressed => dii(alloc, GROUP, 4066, COMPRESSED_INFO),
        Sent::OtherDii => dii(alloc, 7, 4066, CRC_INFO),
        Sent::Block => ddb(alloc, 0, TEXT),
        Sent::SecondBlock => ddb(alloc, 0, b"987654321"),
        Sent::NewerBlock => ddb(alloc, 1, TEXT),
        Sent::ShortBlock => ddb(alloc, 0, b"12345678"),
    }
}

/// The packets of these sections on PID 258.
fn packets(alloc: Global, sections: &[Sent]) -> Result<Vec<u8>, Fail> {
    let mut counter = 0u8;
    let mut bytes = Vec::new(alloc);
    for sent in sections {
        let section = section_of(alloc, *sent)?;
        counter = send(&mut bytes, &section, 258, counter)?;
    }
    Ok(bytes)
}

#[derive(Drop)]
struct Came {
    status: Status,
    made: Vec<u8>,
    out: Vec<u8>,
    left: usize,
}

/// `load 258` on these bytes, with the calls that fail: of the source, of `made` and of `out`.
fn run_load(alloc: Global, air: Vec<u8>, fails: [&[u32]; 3]) -> Result<Came, Fail> {
    let pid = Pid::new(258).ok_or("a PID")?;
    let mut air = MemSource::new(air, 1000, fails[0].to_vec(alloc)?);
    let mut made = MemSink::new(alloc, fails[1].to_vec(alloc)?);
    let mut out = MemSink::new(alloc, fails[2].to_vec(alloc)?);
    let status = load(alloc, pid, &mut air, &mut made, &mut out);
    let left = air.take(&mut [0; 1000]).unwrap_or(0);
    Ok(Came {
        status,
        made: made.into_bytes(),
        out: out.into_bytes(),
        left,
    })
}

fn chosen(bytes: u32) -> Chosen {
    Chosen {
        group: GROUP,
        software: SwId {
            model: 0,
            version: 0,
        },
        bytes,
    }
}

#[test]
fn the_first_group_that_can_be_used_is_loaded(rt: HostRuntime) -> Result<(), Fail> {
    first_with_later_steps::<u8, u8>();
    verdict_stays();
    let loaded = "loaded group 2147483650 bytes 9\n";
    let incomplete = "incomplete group 2147483650 missing 1\n";
    let no_group = "nothing level 6 group\n";
    let no_modules = "nothing level 7 modules\n";
    let bad = "bad module 1 want 00000000 found 0376e6e7\n";
    let other_bad = "bad module 1 want 0376e6e7 found 56fd8c5b\n";
    let missing = Status::Incomplete(chosen(9), 1);
    // what is sent, what comes of it, what is printed and what is made
    let rows: [(&[Sent], Status, &str, &[u8]); 14] = [
        (
            &[Sent::Groups, Sent::Usable, Sent::Block],
            Status::Done,
            loaded,
            TEXT,
        ),
        (
            &[Sent::Groups, Sent::Zeros, Sent::Block],
            Status::BadModule(1, 0, 0x0376_E6E7),
            bad,
            b"",
        ),
        (&[Sent::Groups, Sent::Usable], missing, incomplete, b""),
        (&[], Status::Nothing(Level::Group), no_group, b""),
        (
            &[Sent::Usable, Sent::Block],
            Status::Nothing(Level::Group),
            no_group,
            b"",
        ),
        (
            &[Sent::NoGroup, Sent::Usable, Sent::Block],
            Status::Nothing(Level::Group),
            no_group,
            b"",
        ),
        (
            &[Sent::Groups, Sent::Block],
            Status::Nothing(Level::Modules),
            no_modules,
            b"",
        ),
        (
            &[Sent::Groups, Sent::Compressed, Sent::OtherDii],
            Status::Nothing(Level::Modules),
            no_modules,
            b"",
        ),
        // a DSI without groups, and a compressed DII, are passed over
        (
            &[
                Sent::NoGroup,
                Sent::Groups,
                Sent::Compressed,
                Sent::Usable,
                Sent::Block,
            ],
            Status::Done,
            loaded,
            TEXT,
        ),
        // the first DSI and the first DII decide
        (
            &[
                Sent::Groups,
                Sent::OtherGroup,
                Sent::OtherDii,
                Sent::Usable,
                Sent::Zeros,
                Sent::Block,
            ],
            Status::Done,
            loaded,
            TEXT,
        ),
        // blocks before the DII, of another version and of another length do not count
        (
            &[Sent::Groups, Sent::Block, Sent::Usable],
            missing,
            incomplete,
            b"",
        ),
        (
            &[
                Sent::Groups,
                Sent::Usable,
                Sent::NewerBlock,
                Sent::ShortBlock,
            ],
            missing,
            incomplete,
            b"",
        ),
        // without a CRC any bytes are right
        (
            &[Sent::Groups, Sent::Plain, Sent::SecondBlock],
            Status::Done,
            loaded,
            b"987654321",
        ),
        (
            &[Sent::Groups, Sent::Usable, Sent::SecondBlock, Sent::Block],
            Status::BadModule(1, 0x0376_E6E7, 0x56FD_8C5B),
            other_bad,
            b"",
        ),
    ];
    for (sections, status, line, made) in rows {
        let came = run_load(rt.alloc(), packets(rt.alloc(), sections)?, [&[], &[], &[]])?;
        same(&rt, &came.status, &status);
        same(&rt, &came.out.as_slice(), &line.as_bytes());
        same(&rt, &came.made.as_slice(), &made);
    }
    Ok(())
}

#[test]
fn no_byte_behind_the_verdict_is_taken(rt: HostRuntime) -> Result<(), Fail> {
    // what is sent in four packets, and how many bytes are left
    let rows: [(&[Sent], usize); 3] = [
        (&[Sent::Groups, Sent::Usable, Sent::Block, Sent::Block], 188),
        (&[Sent::Groups, Sent::Zeros, Sent::Block, Sent::Block], 188),
        (&[Sent::Groups, Sent::Usable, Sent::Usable, Sent::Groups], 0),
    ];
    for (sections, left) in rows {
        let came = run_load(rt.alloc(), packets(rt.alloc(), sections)?, [&[], &[], &[]])?;
        same(&rt, &came.left, &left);
    }
    Ok(())
}

#[test]
fn faults_are_told_from_each_other(rt: HostRuntime) -> Result<(), Fail> {
    let whole = packets(rt.alloc(), &[Sent::Groups, Sent::Usable, Sent::Block])?;
    // the failing calls, what comes of it, how many bytes are made and printed
    let rows: [([&[u32]; 3], Status, usize, usize); 4] = [
        ([&[1], &[], &[]], Status::ReadFault, 0, 0),
        ([&[3], &[1], &[1]], Status::ReadFault, 0, 0),
        ([&[], &[1], &[]], Status::WriteFault, 0, 0),
        ([&[], &[], &[1]], Status::WriteFault, 9, 0),
    ];
    for (fails, status, made, out) in rows {
        let came = run_load(rt.alloc(), whole.clone()?, fails)?;
        same(&rt, &came.status, &status);
        same(&rt, &(came.made.len(), came.out.len()), &(made, out));
    }
    Ok(())
}
