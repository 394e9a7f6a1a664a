//! Layout 2: which flash gets it, what boot takes over slots, and journals that are refused.

use crate::check::same;
use crate::flash_bank_tests::install;
use flash_bank::{Bank, BootFault, Record, boot, format, format_one};
use flash_dev::MemFlash;
use ssu_compat::SwId;
use ssu_io::MemSink;
use std::alloc::Global;
use std::test::Fail;

const OLD: SwId = SwId {
    model: 1,
    version: 1,
};

const IMAGE: [u8; 16] = [1, 2, 3, 4, 5, 6, 7, 8, 9, 10, 11, 12, 13, 14, 15, 16];

// In a flash of 520 blocks of 4,096 bytes area 0 has the 259 blocks from block 2 on, of which the last 21 are its journal.
const JOURNAL: usize = 983_040;

const SLOTS: usize = 999_424;

// Writes bytes over others, as far as there are any.
fn put(held: &mut [u8], at: usize, bytes: &[u8]) {
    for (i, byte) in bytes.iter().enumerate() {
        if let Some(place) = held.get_mut(at.saturating_add(i)) {
            *place = *byte;
        }
    }
}

// The same with each byte b as the pair b, 255 - b.
fn put_pairs(held: &mut [u8], at: usize, bytes: &[u8]) {
    for (i, byte) in bytes.iter().enumerate() {
        put(
            held,
            at.saturating_add(i.saturating_mul(2)),
            &[*byte, 255 - *byte],
        );
    }
}

// What a flash of 520 blocks of 4,096 bytes holds after it was formatted with the 16 bytes.
fn formatted(alloc: Global) -> Result<Vec<u8>, Fail> {
    let mut flash = MemFlash::blank(alloc, 520, 4096, 1024)?;
    format(&mut flash, &IMAGE, OLD)?;
    Ok(flash.contents().to_vec(alloc)?)
}

// A flash with these contents, if they are 520 blocks of 4,096 bytes.
fn flash_with(alloc: Global, held: &[u8]) -> Result<MemFlash, Fail> {
    if held.len() != 2_129_920 {
        return Err(Fail::from("520 blocks of 4,096 bytes"));
    }
    Ok(MemFlash::holding(alloc, held, 4096, 1024)?)
}

// What boot takes of these contents.
fn booted(alloc: Global, held: &[u8]) -> Result<(Record, Vec<u8>), Fail> {
    let mut flash = flash_with(alloc, held)?;
    let mut sink = MemSink::new(alloc, Vec::new(alloc));
    let head = boot(&mut flash, &mut sink)?;
    Ok((head, sink.into_bytes()))
}

// Boot refuses these contents, and puts nothing.
fn is_foreign(alloc: Global, held: &[u8]) -> Result<bool, Fail> {
    let mut flash = flash_with(alloc, held)?;
    let mut sink = MemSink::new(alloc, Vec::new(alloc));
    let refused = boot(&mut flash, &mut sink) == Err(BootFault::Foreign);
    Ok(refused && sink.bytes().is_empty())
}

#[test]
fn format_writes_layout_2_where_an_area_has_1_048_576_bytes(rt: HostRuntime) -> Result<(), Fail> {
    for (blocks, layout, magic) in [(513u32, 1u8, 0x31u8), (514, 2, 0x32), (520, 2, 0x32)] {
        let mut flash = MemFlash::blank(rt.alloc(), blocks, 4096, 1024)?;
        let head = format(&mut flash, &IMAGE, OLD)?;
        assert!(rt; head.layout == layout);
        let front = flash.contents().get(..8).expect(&rt, "8 bytes");
        let stated = [0x53, 0xAC, 0x53, 0xAC, 0x55, 0xAA, magic, 255 - magic];
        assert!(rt; front == stated.as_slice());
    }
    let mut flash = MemFlash::blank(rt.alloc(), 520, 4096, 1024)?;
    format(&mut flash, &IMAGE, OLD)?;
    assert!(rt; Bank::open(&mut flash)?.bank_len() == 974_848);
    let mut flash = MemFlash::blank(rt.alloc(), 520, 4096, 1024)?;
    let head = format_one(&mut flash, &IMAGE, OLD)?;
    assert!(rt; head.layout == 1);
    assert!(rt; Bank::open(&mut flash)?.bank_len() == 1_060_864);
    Ok(())
}

#[test]
fn boot_lays_valid_slots_over_the_bank(rt: HostRuntime) -> Result<(), Fail> {
    let mut held = formatted(rt.alloc())?;
    // slot 1 for byte 3 of the bank, over it slot 2 for byte 4, and slot 3 whose head is torn
    put_pairs(&mut held, SLOTS + 4352, &[0x53, 0x50, 0, 0, 0, 3, 0, 2]);
    put(&mut held, SLOTS + 4352 + 256, &[100, 101]);
    put_pairs(&mut held, SLOTS + 2 * 4352, &[0x53, 0x50, 0, 0, 0, 4, 0, 1]);
    put(&mut held, SLOTS + 2 * 4352 + 256, &[102]);
    put_pairs(&mut held, SLOTS + 3 * 4352, &[0x53, 0x50, 0, 0, 0, 5, 0, 1]);
    put(&mut held, SLOTS + 3 * 4352, &[0xFF]);
    put(&mut held, SLOTS + 3 * 4352 + 256, &[103]);
    let (head, image) = booted(rt.alloc(), &held)?;
    same(&rt, &(head.layout, head.number, head.bank), &(2, 1, 0));
    let laid = [1, 2, 3, 100, 102, 6, 7, 8, 9, 10, 11, 12, 13, 14, 15, 16];
    assert!(rt; image.as_slice() == laid.as_slice());
    Ok(())
}

#[test]
fn journals_that_do_not_fit_are_refused(rt: HostRuntime) -> Result<(), Fail> {
    // the header of the current area may have the number of its record, and not the next one
    let header = [0x53, 0x53, 0x55, 0x4A, 0, 0, 0, 1, 0, 1, 0, 0, 0, 0, 0, 0];
    let mut held = formatted(rt.alloc())?;
    put_pairs(&mut held, JOURNAL, &header);
    put_pairs(&mut held, JOURNAL + 256, &[7]);
    assert!(rt; !is_foreign(rt.alloc(), &held)?);
    put_pairs(&mut held, JOURNAL + 8, &[0, 0, 0, 2]);
    assert!(rt; is_foreign(rt.alloc(), &held)?);

    // a pair of a mark below 255
    let mut held = formatted(rt.alloc())?;
    put(&mut held, JOURNAL + 8448, &[0, 255]);
    assert!(rt; !is_foreign(rt.alloc(), &held)?);
    put(&mut held, JOURNAL + 8448, &[0, 254]);
    assert!(rt; is_foreign(rt.alloc(), &held)?);
    Ok(())
}

#[test]
fn an_image_is_installed_in_the_other_area(rt: HostRuntime) -> Result<(), Fail> {
    let mut flash = MemFlash::blank(rt.alloc(), 520, 4096, 1024)?;
    format(&mut flash, &IMAGE, OLD)?;
    install(&mut flash, &[9, 8, 7])?;
    let (head, image) = booted(rt.alloc(), flash.contents())?;
    same(
        &rt,
        &(head.layout, head.number, head.bank, head.length),
        &(2, 2, 1, 3),
    );
    assert!(rt; image.as_slice() == [9, 8, 7].as_slice());
    Ok(())
}
