//! A flash that is made, formatted and booted, and the status of each fault.

use crate::check::same;
use arrayvec::ArrayString;
use flash_dev::{Flash, MemFlash, Tear};
use ssu_answer::FileName;
use ssu_io::{MemShelf, MemSink, NoMemory};
use ssu_status::Status;
use std::alloc::{AllocError, Global};
use std::test::Fail;
use tool_flash::{blank, boot, format};

const BOX: &str =
    "oui = 4660\nmodel = 7\nversion = 1\nrule = \"newer\"\nsoftware_model = 1\nsoftware_version = 2\n";

const NO_RULE: &str =
    "oui = 4660\nmodel = 7\nversion = 1\nsoftware_model = 1\nsoftware_version = 2\n";

fn name(text: &str) -> Result<FileName, Fail> {
    Ok(FileName::from(text).ok().ok_or("a name")?)
}

/// A shelf with this box.toml and an `a.bin` of so many bytes, where they are given. It fails the calls of these numbers.
fn shelf_of(
    alloc: Global,
    text: Option<&str>,
    len: Option<usize>,
    fails: &[u32],
) -> Result<MemShelf, Fail> {
    let mut shelf = MemShelf::new(alloc, fails.to_vec(alloc)?);
    if let Some(text) = text {
        let bytes = text.as_bytes().to_vec(alloc)?;
        shelf.add("box.toml", bytes).ok().ok_or("memory")?;
    }
    if let Some(len) = len {
        let bytes = vec![in alloc; 7u8; len]?;
        shelf.add("a.bin", bytes).ok().ok_or("memory")?;
    }
    Ok(shelf)
}

fn sink(alloc: Global, fails: &[u32]) -> Result<MemSink, AllocError> {
    Ok(MemSink::new(alloc, fails.to_vec(alloc)?))
}

/// What `blank` of so many blocks makes.
fn blank_flash(alloc: Global, blocks: u32) -> Result<Vec<u8>, Fail> {
    let mut made = sink(alloc, &[])?;
    let mut out = sink(alloc, &[])?;
    if blank(blocks, &mut made, &mut out) != Status::Done {
        return Err(Fail::from("blank"));
    }
    Ok(made.into_bytes())
}

/// A flash of blocks of 4,096 bytes with these contents.
fn flash_with(alloc: Global, held: &[u8]) -> Result<MemFlash, Fail> {
    if held.len() % 4096 != 0 || held.len() > 1_000_000 {
        return Err(Fail::from("whole blocks"));
    }
    Ok(MemFlash::holding(alloc, held, 4096, 64)?)
}

#[test]
fn a_formatted_flash_gives_its_file_back(rt: HostRuntime) -> Result<(), Fail> {
    let alloc = rt.alloc();
    let mut made = sink(alloc, &[])?;
    let mut out = sink(alloc, &[])?;
    same(&rt, &blank(6, &mut made, &mut out), &Status::Done);
    same(&rt, &made.bytes().len(), &24576);
    assert!(rt; made.bytes().iter().all(|byte| *byte == 255));
    let mut flash = flash_with(alloc, made.bytes())?;
    let mut shelf = shelf_of(alloc, Some(BOX), Some(5), &[])?;
    same(
        &rt,
        &format(alloc, &name("a.bin")?, &mut shelf, &mut flash, &mut out),
        &Status::Done,
    );
    let mut image = sink(alloc, &[])?;
    same(&rt, &boot(&mut flash, &mut image, &mut out), &Status::Done);
    same(&rt, &image.bytes(), &[7; 5].as_slice());
    same(
        &rt,
        &out.bytes(),
        &b"blank 6\nformatted bytes 5\nboot bank 0 number 1 software 1.2 bytes 5\n".as_slice(),
    );
    Ok(())
}

/// The answer of `format` with such a shelf over a blank flash of so many blocks, and whether a line is printed.
fn answer(
    alloc: Global,
    text: Option<&str>,
    len: Option<usize>,
    fails: &[u32],
    blocks: u32,
) -> Result<(Status, bool), Fail> {
    let mut shelf = shelf_of(alloc, text, len, fails)?;
    let mut flash = flash_with(alloc, &blank_flash(alloc, blocks)?)?;
    let mut out = sink(alloc, &[])?;
    let status = format(alloc, &name("a.bin")?, &mut shelf, &mut flash, &mut out);
    Ok((status, !out.bytes().is_empty()))
}

#[test]
fn format_is_refused_in_order(rt: HostRuntime) -> Result<(), Fail> {
    let alloc = rt.alloc();
    let rule = ArrayString::from("rule").ok().expect(&rt, "rule");
    let no_box = Status::Absent(name("box.toml")?);
    let no_file = Status::Absent(name("a.bin")?);
    // box.toml, the length of the file, the calls of the shelf that fail, the blocks, the answer
    let rows: [(Option<&str>, Option<usize>, &[u32], u32, Status); 8] = [
        (None, Some(5), &[], 4, no_box),
        (Some(BOX), Some(5), &[1], 4, Status::ShelfFault),
        (Some(NO_RULE), None, &[], 0, Status::BoxRefused(rule)),
        (Some(BOX), None, &[], 0, no_file),
        (Some(BOX), Some(5), &[2], 0, Status::ShelfFault),
        (Some(BOX), Some(4097), &[], 0, Status::Geometry),
        (Some(BOX), Some(4097), &[], 4, Status::NoFit),
        (Some(BOX), Some(4096), &[], 4, Status::Done),
    ];
    for (text, len, fails, blocks, status) in rows {
        let done = status == Status::Done;
        same(
            &rt,
            &answer(alloc, text, len, fails, blocks)?,
            &(status, done),
        );
    }
    Ok(())
}

/// Whether `format` with a file of five bytes answers so, whose line is put but at these calls.
fn formats(
    alloc: Global,
    flash: &mut MemFlash,
    fails: &[u32],
    status: Status,
) -> Result<bool, Fail> {
    let mut shelf = shelf_of(alloc, Some(BOX), Some(5), &[])?;
    let mut out = sink(alloc, fails)?;
    let answer = format(alloc, &name("a.bin")?, &mut shelf, flash, &mut out);
    Ok(answer == status)
}

/// Whether `boot` answers so, with this image, which is put but at these calls.
fn boots(
    alloc: Global,
    flash: &mut MemFlash,
    fails: &[u32],
    status: Status,
    image: &[u8],
) -> Result<bool, Fail> {
    let mut made = sink(alloc, fails)?;
    let mut out = sink(alloc, &[])?;
    Ok(boot(flash, &mut made, &mut out) == status && made.bytes() == image)
}

#[test]
fn faults_are_told_apart(rt: HostRuntime) -> Result<(), Fail> {
    let alloc = rt.alloc();
    // what is blank is not sound, and what has no blocks is out of the limits
    let mut none = flash_with(alloc, &[])?;
    assert!(rt; boots(alloc, &mut none, &[], Status::Geometry, &[])?);
    let mut flash = flash_with(alloc, &blank_flash(alloc, 4)?)?;
    assert!(rt; boots(alloc, &mut flash, &[], Status::Foreign, &[])?);
    // the third erase fails
    let planned: Result<(), NoMemory> = flash.fail_at(3, Tear::Front(0));
    assert!(rt; planned.is_ok());
    assert!(rt; formats(alloc, &mut flash, &[], Status::FlashFault)?);
    assert!(rt; boots(alloc, &mut flash, &[], Status::Foreign, &[])?);
    assert!(rt; formats(alloc, &mut flash, &[], Status::Done)?);
    // the line is not put, and the flash is formatted all the same
    assert!(rt; formats(alloc, &mut flash, &[1], Status::WriteFault)?);
    assert!(rt; boots(alloc, &mut flash, &[], Status::Done, &[7; 5])?);
    // the image is not made
    assert!(rt; boots(alloc, &mut flash, &[1], Status::WriteFault, &[])?);
    Ok(())
}

#[test]
fn a_blank_whose_second_block_is_not_put_is_a_write_fault(rt: HostRuntime) -> Result<(), Fail> {
    let alloc = rt.alloc();
    let mut made = sink(alloc, &[2])?;
    let mut out = sink(alloc, &[])?;
    same(&rt, &blank(4, &mut made, &mut out), &Status::WriteFault);
    same(&rt, &made.bytes().len(), &4096);
    Ok(())
}
