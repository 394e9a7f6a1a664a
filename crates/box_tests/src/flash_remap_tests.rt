//! A flash whose failing blocks are replaced: which calls go to spares, and what the map tells once it is opened anew.

use crate::check::same;
use flash_dev::{Flash, MemFlash, Tear};
use flash_remap::{Remap, RemapFault, prepare};
use std::test::Fail;

// The entry of logical block 3 and spare 0, and that of logical block 3 and spare 1, in pairs.
const FIRST: [u8; 16] = [
    0x42, 0xBD, 0x4D, 0xB2, 0, 255, 3, 252, 0, 255, 0, 255, 0, 255, 0, 255,
];

const SECOND: [u8; 16] = [
    0x42, 0xBD, 0x4D, 0xB2, 0, 255, 3, 252, 0, 255, 1, 254, 0, 255, 0, 255,
];

/// Whether these bytes stand at the place.
fn holds(contents: &[u8], place: usize, bytes: &[u8]) -> bool {
    match contents.get(place..) {
        Some(rest) => rest.starts_with(bytes),
        None => false,
    }
}

// Eight blocks of 64 bytes: with two spares, blocks 0 to 4 are logical, 5 and 6 the spares, and 7 is the map.
// The erase of block 3, which is all zero, fails, and a spare takes its place.
#[test]
fn a_failing_block_is_replaced_by_a_spare(rt: HostRuntime) -> Result<(), Fail> {
    let mut flash = MemFlash::holding(rt.alloc(), &[0; 512], 64, 40)?;
    flash.fail_at(2, Tear::Front(1))?;
    prepare(&mut flash)?;
    if let Ok(mut remap) = Remap::open(flash, 2) {
        remap.erase(3)?;
        assert!(rt; (remap.left(), remap.is_worn(), remap.blocks()) == (1, false, 5));
        let mut buf = [0u8; 4];
        remap.read(3 * 64 - 2, &mut buf)?;
        same(&rt, &buf.as_slice(), &[0, 0, 255, 255].as_slice());
        let flash = remap.into_inner();
        assert!(rt; holds(flash.contents(), 7 * 64, &FIRST));
        assert!(rt; holds(flash.contents(), 3 * 64, &[255, 0]));
        if let Ok(mut remap) = Remap::open(flash, 2) {
            let mut buf = [0u8; 2];
            remap.read(4 * 64 - 1, &mut buf)?;
            same(&rt, &(buf, remap.left()), &([255, 0], 1));
            return Ok(());
        }
    }
    Err(Fail::new("not opened"))
}

// The erase fails, the first spare's entry fails and is whole all the same, and the second spare is taken.
#[test]
fn an_entry_that_failed_and_is_whole_is_followed_by_the_next(rt: HostRuntime) -> Result<(), Fail> {
    let mut flash = MemFlash::blank(rt.alloc(), 8, 64, 40)?;
    flash.fail_at(2, Tear::Drift(9))?;
    flash.fail_at(4, Tear::Front(16))?;
    prepare(&mut flash)?;
    if let Ok(mut remap) = Remap::open(flash, 2) {
        remap.erase(3)?;
        assert!(rt; remap.left() == 0);
        let flash = remap.into_inner();
        assert!(rt; holds(flash.contents(), 7 * 64, &FIRST));
        assert!(rt; holds(flash.contents(), 7 * 64 + 16, &SECOND));
        return Ok(());
    }
    Err(Fail::new("not opened"))
}

// The erase and both spares fail: it is worn until it is opened anew.
#[test]
fn once_no_spare_is_left_each_call_fails_until_it_is_opened_anew(
    rt: HostRuntime,
) -> Result<(), Fail> {
    let mut flash = MemFlash::blank(rt.alloc(), 8, 64, 40)?;
    flash.fail_at(2, Tear::Front(0))?;
    flash.fail_at(3, Tear::Front(0))?;
    flash.fail_at(4, Tear::Front(0))?;
    prepare(&mut flash)?;
    if let Ok(mut remap) = Remap::open(flash, 2) {
        assert!(rt; remap.erase(3).is_err());
        assert!(rt; (remap.left(), remap.is_worn()) == (0, true));
        assert!(rt; remap.read(0, &mut [0]).is_err());
        assert!(rt; remap.erase(1).is_err());
        if let Ok(mut remap) = Remap::open(remap.into_inner(), 2) {
            assert!(rt; (remap.left(), remap.is_worn()) == (2, false));
            remap.erase(3)?;
            return Ok(());
        }
    }
    Err(Fail::new("not opened"))
}

// (blocks, spares, it is opened)
const GEOMETRIES: [(u16, u32, bool); 6] = [
    (6, 0, false),
    (6, 1, true),
    (6, 2, false),
    (260, 255, true),
    (261, 256, false),
    (27, 4, true),
];

#[test]
fn a_flash_is_opened_exactly_in_the_limits(rt: HostRuntime) -> Result<(), Fail> {
    for (blocks, spares, is_opened) in GEOMETRIES {
        let flash = MemFlash::blank(rt.alloc(), u32::from(blocks), 16, 1)?;
        match Remap::open(flash, spares) {
            Ok(_) => assert!(rt; is_opened, "{blocks} {spares}"),
            Err((_, fault)) => {
                same(&rt, &fault, &RemapFault::Geometry);
                assert!(rt; !is_opened, "{blocks} {spares}");
            }
        }
    }
    let mut small = MemFlash::blank(rt.alloc(), 5, 16, 1)?;
    same(&rt, &prepare(&mut small), &Err(RemapFault::Geometry));
    Ok(())
}
