//! The calls on the spare journal of a bank: what they write and read, and what stands in the flash then.
ghost use Rattle.std.specs.Prelude.{◌≡◌, ◌<◌, true, IfOk};
ghost use Rattle.flash_dev.specs.Changes.{IsBlank};
ghost use Rattle.flash_layout.specs.Layout.{area_len};
ghost use Rattle.flash_bank.specs.Bank.{IsLent, current_of, geometry_of, is_begun, spare_bank};

use crate::flash_bank_tests::install;
use flash_bank::{Bank, FlashFault, Record, boot, format, format_one};
use flash_dev::{Flash, MemFlash};
use ssu_compat::SwId;
use ssu_io::MemSink;
use std::alloc::Global;
use std::test::Fail;

const OLD: SwId = SwId {
    model: 1,
    version: 1,
};

const NEW: SwId = SwId {
    model: 1,
    version: 2,
};

// In a flash of 520 blocks of 4,096 bytes the journal of area 1, and where its slots begin.
const JOURNAL: usize = 2_043_904;

const SLOTS: usize = 2_060_288;

// A flash of 520 blocks of 4,096 bytes, formatted with 2 bytes.
pub(crate) fn formatted(alloc: Global) -> Result<MemFlash, Fail> {
    let mut flash = MemFlash::blank(alloc, 520, 4096, 2048)?;
    format(&mut flash, &[1, 2], OLD)?;
    Ok(flash)
}

// A bank of layout 2.
pub(crate) fn opened<F: Flash>(flash: &mut F) -> Result<Bank, FlashFault>
    ensures lent { IfOk result (λ bank. IsLent F.tells F.contents F.block_count F.block_len bank flash.new) }
    ensures two { IfOk result (λ bank. (current_of bank).layout ≡ 2) }
    ensures next_fits { IfOk result (λ bank. (current_of bank).number < 4294967295) }
{
    let bank = Bank::open(flash).map_err(|_| FlashFault)?;
    if bank.current().layout == 2 {
        Ok(bank)
    } else {
        Err(FlashFault)
    }
}

// A bank of layout 2 whose spare area is erased.
fn begun<F: Flash>(flash: &mut F) -> Result<Bank, FlashFault>
    ensures lent { IfOk result (λ bank. IsLent F.tells F.contents F.block_count F.block_len bank flash.new) }
    ensures begun { IfOk result (λ bank. is_begun bank ≡ true) }
    ensures two { IfOk result (λ bank. (current_of bank).layout ≡ 2) }
    ensures blank { F.tells → IfOk result (λ bank. IsBlank (F.contents flash.new) (spare_bank bank) (area_len (geometry_of bank))) }
{
    let mut bank = opened(flash)?;
    bank.begin(flash)?;
    Ok(bank)
}

// Writes a header over a message.
fn head<F: Flash>(flash: &mut F, message: &[u8]) -> Result<(), FlashFault> {
    if message.is_empty() || message.len() > 4084 {
        return Err(FlashFault);
    }
    let mut bank = begun(flash)?;
    bank.head(flash, message)
}

// Marks a place.
fn mark<F: Flash>(flash: &mut F, place: u32) -> Result<(), FlashFault> {
    let mut bank = begun(flash)?;
    if place >= bank.marks() {
        return Err(FlashFault);
    }
    bank.mark(flash, place)
}

// Puts bytes into a slot, and commits an image that ends with them.
fn spare<F: Flash>(flash: &mut F, slot: u32, at: u32, bytes: &[u8]) -> Result<(), FlashFault> {
    if slot >= 16 || bytes.is_empty() || bytes.len() > 4066 {
        return Err(FlashFault);
    }
    let mut bank = begun(flash)?;
    let len = bank.bank_len();
    if at > len || bytes.len() > (len - at) as usize {
        return Err(FlashFault);
    }
    bank.spare(flash, slot, at, bytes)?;
    bank.commit(flash, at + bytes.len() as u32, NEW, 0)
}

// Reads the front of the spare journal, goes on with the spare area and then forgets what stands there.
fn go_on<F: Flash>(flash: &mut F, front: &mut [u8]) -> Result<(), FlashFault> {
    let mut bank = opened(flash)?;
    if front.len() > bank.journal_len() as usize {
        return Err(FlashFault);
    }
    bank.glance(flash, 0, front)?;
    bank.resume(flash)?;
    bank.forget(flash)
}

// The bytes that a flash holds from a place on.
fn held(flash: &MemFlash, at: usize, n: usize) -> Option<&[u8]> {
    flash.contents().get(at..)?.get(..n)
}

pub(crate) fn booted(alloc: Global, flash: &mut MemFlash) -> Result<(Record, Vec<u8>), Fail> {
    let mut sink = MemSink::new(alloc, Vec::new(alloc));
    let head = boot(flash, &mut sink)?;
    Ok((head, sink.into_bytes()))
}

#[test]
fn a_journal_of_layout_2_has_21_blocks_and_2_584_marks(rt: HostRuntime) -> Result<(), Fail> {
    let mut flash = formatted(rt.alloc())?;
    let bank = Bank::open(&mut flash)?;
    assert!(rt; (bank.journal_len(), bank.marks()) == (86_016, 2584));
    let mut flash = MemFlash::blank(rt.alloc(), 520, 4096, 2048)?;
    format_one(&mut flash, &[1, 2], OLD)?;
    let mut bank = Bank::open(&mut flash)?;
    assert!(rt; (bank.journal_len(), bank.marks()) == (0, 0));
    bank.glance(&mut flash, 0, &mut [])?;
    Ok(())
}

#[test]
fn header_mark_and_slot_are_written_as_stated(rt: HostRuntime) -> Result<(), Fail> {
    let mut flash = formatted(rt.alloc())?;
    head(&mut flash, b"hi")?;
    let fixed = [
        0x53, 0xAC, 0x53, 0xAC, 0x55, 0xAA, 0x4A, 0xB5, 0x00, 0xFF, 0x00, 0xFF, 0x00, 0xFF, 0x02,
        0xFD, 0x00, 0xFF, 0x02, 0xFD, 0x00, 0xFF, 0x00, 0xFF, 0x00, 0xFF, 0x00, 0xFF, 0x00, 0xFF,
        0x00, 0xFF,
    ];
    let message = [0x68, 0x97, 0x69, 0x96, 0xFF];
    let pair = [0xFF, 0x00, 0xFF, 0xFF];
    let slot = [
        0x53, 0xAC, 0x50, 0xAF, 0x00, 0xFF, 0x00, 0xFF, 0x01, 0xFE, 0x02, 0xFD, 0x00, 0xFF, 0x03,
        0xFC, 0xFF,
    ];
    assert!(rt; held(&flash, JOURNAL, 32) == Some(fixed.as_slice()));
    assert!(rt; held(&flash, JOURNAL + 256, 5) == Some(message.as_slice()));

    mark(&mut flash, 2583)?;
    assert!(rt; held(&flash, JOURNAL + 8448 + 5165, 4) == Some(pair.as_slice()));

    spare(&mut flash, 3, 258, &[7, 8, 9])?;
    assert!(rt; held(&flash, SLOTS + 3 * 4352, 17) == Some(slot.as_slice()));
    assert!(rt; held(&flash, SLOTS + 3 * 4352 + 256, 4) == Some([7, 8, 9, 255].as_slice()));
    Ok(())
}

#[test]
fn a_slot_lies_over_the_image_that_is_committed(rt: HostRuntime) -> Result<(), Fail> {
    let mut flash = formatted(rt.alloc())?;
    spare(&mut flash, 15, 1, &[7, 8])?;
    let (record, image) = booted(rt.alloc(), &mut flash)?;
    assert!(rt; (record.layout, record.number, record.bank) == (2, 2, 1));
    assert!(rt; image.as_slice() == [255, 7, 8].as_slice());
    Ok(())
}

#[test]
fn a_former_record_and_a_journal_are_taken_away(rt: HostRuntime) -> Result<(), Fail> {
    let blank = [255u8; 32];
    let mut flash = formatted(rt.alloc())?;
    install(&mut flash, &[3, 4])?;
    install(&mut flash, &[5, 6])?;
    assert!(rt; held(&flash, 4096, 2) == Some([0x53, 0xAC].as_slice()));
    let mut front = [0u8; 300];
    go_on(&mut flash, &mut front)?;
    assert!(rt; held(&flash, 4096, 32) == Some(blank.as_slice()));
    assert!(rt; front.get(..32) == Some(blank.as_slice()));

    head(&mut flash, b"hi")?;
    go_on(&mut flash, &mut front)?;
    assert!(rt; front.get(..4) == Some([0x53, 0xAC, 0x53, 0xAC].as_slice()));
    assert!(rt; front.get(256..261) == Some([0x68, 0x97, 0x69, 0x96, 0xFF].as_slice()));
    assert!(rt; held(&flash, JOURNAL, 32) == Some(blank.as_slice()));
    assert!(rt; held(&flash, JOURNAL + 256, 32) == Some(blank.as_slice()));
    let (record, image) = booted(rt.alloc(), &mut flash)?;
    assert!(rt; (record.number, record.bank) == (3, 0));
    assert!(rt; image.as_slice() == [5, 6].as_slice());
    Ok(())
}
