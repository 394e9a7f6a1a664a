//! What calls leave and answer: a flash in memory, torn and stopped, and one that never fails.

use crate::check::same;
use flash_dev::{Flash, MemFlash, SureFlash, Tear};
use std::test::Fail;

// What an erase and a program of 0x10 to 0x13 leave of four bytes: (tear, after the erase, after the program).
// The erase finds 0, 100, 200, 255; the program finds 255s.
const TEARS: [(Tear, [u8; 4], [u8; 4]); 6] = [
    (Tear::Front(0), [0, 100, 200, 255], [255, 255, 255, 255]),
    (
        Tear::Front(3),
        [255, 255, 255, 255],
        [0x10, 0x11, 0x12, 255],
    ),
    (
        Tear::Front(9),
        [255, 255, 255, 255],
        [0x10, 0x11, 0x12, 0x13],
    ),
    // 0, 37, 74 and 111 parts of 255
    (Tear::Drift(0), [0, 122, 215, 255], [16, 51, 86, 121]),
    // 200, 237, 18 and 55 parts
    (Tear::Drift(200), [200, 244, 203, 255], [203, 238, 34, 69]),
    // 255, 36, 73 and 110 parts
    (Tear::Drift(255), [255, 121, 215, 255], [255, 50, 85, 120]),
];

#[test]
fn torn_calls_leave_what_their_tears_say(rt: HostRuntime) -> Result<(), Fail> {
    for (tear, erased, programmed) in TEARS {
        let mut flash = MemFlash::holding(rt.alloc(), &[0, 100, 200, 255], 4, 1)?;
        flash.fail_at(1, tear)?;
        assert!(rt; flash.erase(0).is_err());
        same(&rt, &(tear, flash.contents()), &(tear, erased.as_slice()));

        let mut flash = MemFlash::blank(rt.alloc(), 1, 4, 1)?;
        flash.fail_at(1, tear)?;
        assert!(rt; flash.program(0, &[0x10, 0x11, 0x12, 0x13]).is_err());
        same(
            &rt,
            &(tear, flash.contents()),
            &(tear, programmed.as_slice()),
        );
    }
    Ok(())
}

#[test]
fn a_flash_in_memory_holds_what_is_programmed(rt: HostRuntime) -> Result<(), Fail> {
    let mut flash = MemFlash::blank(rt.alloc(), 2, 4, 3)?;
    flash.fail_read(2)?;
    flash.program(5, &[1, 2])?;
    let mut buf = [0u8; 3];
    flash.read(4, &mut buf)?;
    same(&rt, &buf.as_slice(), &[255, 1, 2].as_slice());
    assert!(rt; flash.read(4, &mut buf).is_err());
    flash.read(4, &mut buf)?;
    flash.erase(1)?;
    same(&rt, &flash.contents(), &[255; 8].as_slice());
    assert!(rt; (flash.blocks(), flash.block_size()) == (2, 4));
    Ok(())
}

#[test]
fn calls_past_the_room_and_after_a_stop_change_nothing(rt: HostRuntime) -> Result<(), Fail> {
    let mut flash = MemFlash::blank(rt.alloc(), 1, 4, 1)?;
    flash.program(0, &[7])?;
    assert!(rt; flash.erase(0).is_err(), "past the room");
    same(&rt, &flash.contents(), &[7, 255, 255, 255].as_slice());

    let mut flash = MemFlash::holding(rt.alloc(), &[1, 2, 3, 4], 2, 9)?;
    flash.stop_at(2, Tear::Front(1));
    flash.erase(1)?;
    assert!(rt; flash.erase(0).is_err(), "the call that stops");
    assert!(rt; flash.erase(0).is_err(), "a later one");
    assert!(rt; flash.read(0, &mut [0]).is_err(), "a later read");
    same(&rt, &flash.contents(), &[255, 2, 255, 255].as_slice());
    Ok(())
}

#[test]
fn a_sure_flash_holds_what_is_programmed(rt: HostRuntime) -> Result<(), Fail> {
    let mut flash = SureFlash::blank(rt.alloc(), 2, 4)?;
    flash.program(6, &[1, 2])?;
    flash.program(0, &[3])?;
    flash.erase(1)?;
    let mut buf = [0u8; 2];
    flash.read(0, &mut buf)?;
    same(&rt, &buf.as_slice(), &[3, 255].as_slice());
    same(
        &rt,
        &flash.contents(),
        &[3, 255, 255, 255, 255, 255, 255, 255].as_slice(),
    );
    assert!(rt; (flash.blocks(), flash.block_size()) == (2, 4));
    Ok(())
}
