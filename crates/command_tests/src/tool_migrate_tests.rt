//! `migrate`: a flash of layout 1 gets layout 2 and keeps its image, also where the power goes, and what is refused.

use flash_bank::format_one;
use flash_dev::{MemFlash, Tear};
use ssu_compat::SwId;
use ssu_io::MemSink;
use ssu_status::Status;
use std::alloc::{AllocError, Global};
use std::test::Fail;
use tool_flash::{boot, migrate};

const SOFTWARE: SwId = SwId {
    model: 1,
    version: 1,
};

const IMAGE: [u8; 16] = [1, 2, 3, 4, 5, 6, 7, 8, 9, 10, 11, 12, 13, 14, 15, 16];

fn sink(alloc: Global, fails: &[u32]) -> Result<MemSink, AllocError> {
    Ok(MemSink::new(alloc, fails.to_vec(alloc)?))
}

/// What a flash of so many blocks of 4,096 bytes holds once it has layout 1 with this image.
fn layout_one(alloc: Global, blocks: u32, image: &[u8]) -> Result<Vec<u8>, Fail> {
    if blocks > 600 {
        return Err(Fail::from("at most 600 blocks"));
    }
    let mut flash = MemFlash::blank(alloc, blocks, 4096, 8192)?;
    format_one(&mut flash, image, SOFTWARE)?;
    Ok(flash.contents().to_vec(alloc)?)
}

/// A flash of blocks of 4,096 bytes with these contents.
fn flash_with(alloc: Global, held: &[u8]) -> Result<MemFlash, Fail> {
    if held.len() % 4096 != 0 || held.len() > 3_000_000 {
        return Err(Fail::from("whole blocks"));
    }
    Ok(MemFlash::holding(alloc, held, 4096, 1024)?)
}

/// Whether `migrate` answers so, with this line.
fn migrates(
    alloc: Global,
    flash: &mut MemFlash,
    status: &Status,
    line: &str,
) -> Result<bool, Fail> {
    let mut out = sink(alloc, &[])?;
    let answer = migrate(flash, &mut out);
    Ok(answer == *status && out.bytes() == line.as_bytes())
}

/// Whether boot takes the image of these contents, with this line.
fn boots(alloc: Global, held: &[u8], line: &str) -> Result<bool, Fail> {
    let mut flash = flash_with(alloc, held)?;
    let mut made = sink(alloc, &[])?;
    let mut out = sink(alloc, &[])?;
    let answer = boot(&mut flash, &mut made, &mut out);
    Ok(answer == Status::Done && made.bytes() == IMAGE.as_slice() && out.bytes() == line.as_bytes())
}

const DONE: &str = "migrated bytes 16 number 2\n";

const ALREADY: &str = "already layout 2 number 2\n";

#[test]
fn a_flash_of_520_blocks_gets_layout_2(rt: HostRuntime) -> Result<(), Fail> {
    let alloc = rt.alloc();
    let mut flash = flash_with(alloc, &layout_one(alloc, 520, &IMAGE)?)?;
    assert!(rt; migrates(alloc, &mut flash, &Status::Done, DONE)?);
    let line = "boot bank 0 number 2 software 1.1 bytes 16\n";
    assert!(rt; boots(alloc, flash.contents(), line)?);
    let before = flash.contents().to_vec(alloc)?;
    assert!(rt; migrates(alloc, &mut flash, &Status::Done, ALREADY)?);
    assert!(rt; flash.contents() == before.as_slice());
    Ok(())
}

// The erase of the spare record block is call 1, those of the spare area are 2 to 260, those of the journal of the current area 261
// to 281, and the program of the record is call 282.
#[test]
fn a_stop_leaves_the_image(rt: HostRuntime) -> Result<(), Fail> {
    let alloc = rt.alloc();
    let held = layout_one(alloc, 520, &IMAGE)?;
    let line = "boot bank 0 number 1 software 1.1 bytes 16\n";
    let rows = [
        (1, Tear::Drift(90)),
        (2, Tear::Front(100)),
        (260, Tear::Drift(90)),
        (261, Tear::Front(0)),
        (281, Tear::Front(100)),
        (282, Tear::Front(62)),
    ];
    for (call, tear) in rows {
        let mut flash = flash_with(alloc, &held)?;
        flash.stop_at(call, tear);
        assert!(rt; migrates(alloc, &mut flash, &Status::FlashFault, "")?);
        assert!(rt; boots(alloc, flash.contents(), line)?);
        let mut again = flash_with(alloc, flash.contents())?;
        assert!(rt; migrates(alloc, &mut again, &Status::Done, DONE)?);
    }
    Ok(())
}

/// Whether `migrate` of these contents answers so, with this code, and changes nothing. Its first read fails where that is said.
fn refuses(
    alloc: Global,
    held: &[u8],
    fails: bool,
    status: Status,
    code: u8,
) -> Result<bool, Fail> {
    let mut flash = flash_with(alloc, held)?;
    if fails {
        flash.fail_read(1)?;
    }
    let is_told = migrates(alloc, &mut flash, &status, "")?;
    Ok(is_told && status.code() == code && flash.contents() == held)
}

#[test]
fn a_refusal_changes_nothing(rt: HostRuntime) -> Result<(), Fail> {
    let alloc = rt.alloc();
    assert!(rt; refuses(alloc, &[], false, Status::Geometry, 17)?);
    let blank = vec![in alloc; 255u8; 24_576]?;
    assert!(rt; refuses(alloc, &blank, false, Status::Foreign, 5)?);
    let small = layout_one(alloc, 22, &IMAGE)?;
    assert!(rt; refuses(alloc, &small, false, Status::NoFit, 16)?);
    let long = layout_one(alloc, 520, &vec![in alloc; 7u8; 974_849]?)?;
    assert!(rt; refuses(alloc, &long, false, Status::NoFit, 16)?);
    let mut held = layout_one(alloc, 520, &IMAGE)?;
    assert!(rt; refuses(alloc, &held, true, Status::FlashFault, 12)?);
    for (k, byte) in held.iter_mut().enumerate() {
        // the four pairs of the number
        if (8..16).contains(&k) {
            *byte = if k % 2 == 0 { 255 } else { 0 };
        }
    }
    assert!(rt; refuses(alloc, &held, false, Status::Worn, 13)?);
    Ok(())
}

#[test]
fn a_line_that_is_not_put_leaves_layout_2(rt: HostRuntime) -> Result<(), Fail> {
    let alloc = rt.alloc();
    let mut flash = flash_with(alloc, &layout_one(alloc, 520, &IMAGE)?)?;
    let mut failing = sink(alloc, &[1])?;
    assert!(rt; migrate(&mut flash, &mut failing) == Status::WriteFault);
    assert!(rt; failing.bytes().is_empty());
    assert!(rt; migrates(alloc, &mut flash, &Status::Done, ALREADY)?);
    Ok(())
}
