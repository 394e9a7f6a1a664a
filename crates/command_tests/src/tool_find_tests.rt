//! The levels and the sections that are printed of a short stream, and a box that is not to be had.

use crate::check::same;
use ssu_io::{MemShelf, MemSink, MemSource};
use ssu_status::Status;
use std::alloc::{AllocError, Global};
use std::test::Fail;
use tool_find::{find, show};

/// A packet of PID 20 with one TDT section.
const TDT_PACKET: [u8; 13] = [
    0x47, 0x40, 0x14, 0x10, 0x00, 0x70, 0x70, 0x05, 0xC0, 0x79, 0x12, 0x45, 0x00,
];

const BOX: &str = "oui = 4660
model = 7
version = 1
rule = \"newer\"
software_model = 1
software_version = 1
";

const NONE: &str = "1 none
2 none
3 none
4 none
5 none
6 none
7 none
";

const TDT_SHOWN: &str = "       1 0014 70    8 TDT 1993-10-13T12:45:00
";

/// An unusable packet, and a packet with a TDT.
fn packets(alloc: Global) -> Result<Vec<u8>, AllocError> {
    let mut bytes = Vec::new(alloc);
    for _ in 0..188usize {
        bytes.push(0)?;
    }
    bytes.extend_from_slice(&TDT_PACKET)?;
    for _ in TDT_PACKET.len()..188 {
        bytes.push(0xFF)?;
    }
    Ok(bytes)
}

fn shelf(alloc: Global, text: &str, fails: &[u32]) -> Result<MemShelf, Fail> {
    let mut shelf = MemShelf::new(alloc, fails.to_vec(alloc)?);
    shelf.add("box.toml", text.as_bytes().to_vec(alloc)?)?;
    Ok(shelf)
}

#[test]
fn levels_are_printed_and_sections_shown(rt: HostRuntime) -> Result<(), Fail> {
    let alloc = rt.alloc();
    let mut files = shelf(alloc, BOX, &[])?;
    for input in [Vec::new(alloc), packets(alloc)?] {
        let mut air = MemSource::new(input, 100, Vec::new(alloc));
        let mut out = MemSink::new(alloc, Vec::new(alloc));
        same(
            &rt,
            &find(alloc, &mut files, &mut air, &mut out),
            &Status::Done,
        );
        same(&rt, &out.bytes(), &NONE.as_bytes());
    }
    let mut air = MemSource::new(packets(alloc)?, 100, Vec::new(alloc));
    let mut out = MemSink::new(alloc, Vec::new(alloc));
    same(
        &rt,
        &show(alloc, &mut files, &mut air, &mut out),
        &Status::Done,
    );
    same(&rt, &out.bytes().len(), &(TDT_SHOWN.len() + NONE.len()));
    assert!(rt; out.bytes().starts_with(TDT_SHOWN.as_bytes()));
    assert!(rt; out.bytes().ends_with(NONE.as_bytes()));
    Ok(())
}

#[test]
fn a_box_is_wanted_first(rt: HostRuntime) -> Result<(), Fail> {
    let alloc = rt.alloc();
    let mut files = MemShelf::new(alloc, Vec::new(alloc));
    let mut air = MemSource::new(Vec::new(alloc), 1, Vec::new(alloc));
    let mut out = MemSink::new(alloc, Vec::new(alloc));
    let status = find(alloc, &mut files, &mut air, &mut out);
    same(&rt, &status.text().as_str(), &"box.toml is absent");
    let mut files = shelf(alloc, "oui = 1\nmodel = 1\nversion = 1\n", &[])?;
    let status = show(alloc, &mut files, &mut air, &mut out);
    same(&rt, &status.text().as_str(), &"box.toml refused at rule");
    let mut files = shelf(alloc, BOX, &[1])?;
    same(
        &rt,
        &find(alloc, &mut files, &mut air, &mut out),
        &Status::ShelfFault,
    );
    assert!(rt; out.bytes().is_empty());
    Ok(())
}
