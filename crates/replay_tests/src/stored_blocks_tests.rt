//! `replay` puts the blocks of a group straight into the spare bank: what the flash holds while the group is not whole.

use crate::check::same;
use crate::commands::{Receiver, file_of, front, holding, shelf_with};
use flash_bank::Bank;
use flash_dev::{MemFlash, Tear};
use ssu_io::MemShelf;
use std::alloc::{AllocError, Global};
use std::process::Abort;
use std::test::Fail;

const BOX: &str = "oui = 4660
model = 7
version = 1
rule = \"newer\"
software_model = 1
software_version = 1
";

/// The tables, the DSI, the DII and the three blocks of one file, each once.
const PLAN: &str = "ts = 1
network = 2
service = 3
oui = 4660
time = \"2024-03-01T02:00:00\"
pmt_pid = 256
data_pid = 258
turns = 9
[[group]]
model = 7
version = 1
software_model = 1
block_size = 1000
modules = [\"a.bin\"]
";

/// The image of a flash before the first replay.
const OLD: &[u8] = b"old";

const BLOCK: usize = 4096;

/// Where bank 0 and bank 1 begin, and where the flash ends.
const BANK_0: usize = 2 * BLOCK;

const BANK_1: usize = 12 * BLOCK;

const END: usize = 22 * BLOCK;

/// The exit codes and lines of a replay: an update to version 2 or 3 is whole, or a block is missing.
const SECOND: (u8, &str) = (0, "installed group 2147483650 software 1.2 bytes 2500\n");

const THIRD: (u8, &str) = (0, "installed group 2147483650 software 1.3 bytes 2500\n");

const MISSING: (u8, &str) = (7, "incomplete group 2147483650 missing 1\n");

/// A file of 2,500 bytes.
fn file(alloc: Global, first: u8) -> Result<Vec<u8>, AllocError> {
    file_of(alloc, first, 2500)
}

/// A shelf with the box, the old image, and an update to this version with the file that begins so.
fn shelf_of(alloc: Global, version: u8, first: u8) -> Result<MemShelf, Fail> {
    let plan = format!(in alloc; "{PLAN}software_version = {version}\n")?;
    shelf_with(
        alloc,
        &[
            ("box.toml", BOX.as_bytes()),
            ("old.bin", OLD),
            ("plan.toml", plan.as_bytes()),
            ("a.bin", &file(alloc, first)?),
        ],
    )
}

/// A box with an update to version 2, and a flash of 22 blocks with the old image, whose spare bank is all 7.
fn receiver_of(alloc: Global) -> Result<Receiver, Fail> {
    let blank = MemFlash::blank(alloc, 22, 4096, 64)?;
    let mut receiver = Receiver::formatted(alloc, shelf_of(alloc, 2, 0)?, blank)?;
    receiver.flash = with_sevens(alloc, receiver.flash.contents())?;
    Ok(receiver)
}

/// A flash with these contents, but for the second bank, which is all 7. Its calls are counted from here on.
fn with_sevens(alloc: Global, contents: &[u8]) -> Result<MemFlash, Fail> {
    let mut held = front(contents, BANK_1)?.to_vec(alloc)?;
    held.extend_from_slice(&vec![in alloc; 7u8; END - BANK_1]?)?;
    holding(alloc, &held, 256)
}

/// The packets but the last, which is the end of the third block.
fn without_the_last(packets: &[u8]) -> Result<&[u8], Fail> {
    let len = packets.len().checked_sub(188).ok_or("a packet")?;
    Ok(packets.get(..len).ok_or("as many bytes")?)
}

/// Whether the flash holds nothing but this byte from one place to the other.
fn is_all(flash: &MemFlash, from: usize, to: usize, byte: u8) -> bool {
    match flash.contents().get(from..to) {
        Some(bytes) => bytes.iter().all(|b| *b == byte),
        None => false,
    }
}

#[test]
fn a_replay_that_failed_within_its_erases_is_run_again(rt: HostRuntime) -> Result<(), Fail> {
    let alloc = rt.alloc();
    let mut receiver = receiver_of(alloc)?;
    let packets = receiver.packets(alloc)?;
    // the spare record block and four blocks of the bank: the erase of the fourth changes nothing and fails
    receiver.flash.fail_at(5, Tear::Front(0))?;
    receiver.fails(&rt, alloc, &packets)?;
    assert!(rt; is_all(&receiver.flash, BANK_1, BANK_1 + 3 * BLOCK, 255));
    assert!(rt; is_all(&receiver.flash, BANK_1 + 3 * BLOCK, END, 7));
    receiver.boots(&rt, alloc, OLD)?;
    receiver.replays(&rt, alloc, &packets, SECOND)?;
    receiver.boots(&rt, alloc, &file(alloc, 0)?)
}

#[test]
fn the_blocks_that_came_are_in_the_spare_bank(rt: HostRuntime) -> Result<(), Fail> {
    let alloc = rt.alloc();
    let mut receiver = receiver_of(alloc)?;
    let packets = receiver.packets(alloc)?;
    receiver.replays(&rt, alloc, without_the_last(&packets)?, MISSING)?;
    let file = file(alloc, 0)?;
    let came = front(&file, 2000)?;
    assert!(rt; receiver.has_at(BANK_1, came));
    assert!(rt; is_all(&receiver.flash, BANK_1 + 2000, END, 255));
    receiver.boots(&rt, alloc, OLD)?;
    // and so a bank that is opened then reads them
    same(&rt, &peeked(&mut receiver.flash)?.as_slice(), &came);
    Ok(())
}

/// The first 2,000 bytes of the spare bank.
fn peeked(flash: &mut MemFlash) -> Result<[u8; 2000], Fail> {
    let mut bank = Bank::open(flash)?;
    if bank.bank_len() < 2000 {
        return Err("not ten blocks".into());
    }
    let mut front = [0u8; 2000];
    bank.peek(flash, 0, &mut front)?;
    Ok(front)
}

#[test]
fn a_choice_that_begins_ends_what_boot_took_before(rt: HostRuntime) -> Result<(), Fail> {
    let alloc = rt.alloc();
    let mut receiver = receiver_of(alloc)?;
    let packets = receiver.packets(alloc)?;
    receiver.replays(&rt, alloc, &packets, SECOND)?;
    // the record and the image of the first formatting are there
    assert!(rt; receiver.has_at(0, &[0x53, 0xAC]));
    assert!(rt; receiver.has_at(BANK_0, OLD));
    receiver.shelf = shelf_of(alloc, 3, 0xA5)?;
    the_next_begins(&rt, alloc, &mut receiver, &file(alloc, 0xA5)?)
}

/// Replays an update to version 3 with this file, at first without its last packet.
fn the_next_begins(
    rt: &impl Abort,
    alloc: Global,
    receiver: &mut Receiver,
    newer: &[u8],
) -> Result<(), Fail> {
    let packets = receiver.packets(alloc)?;
    receiver.replays(rt, alloc, without_the_last(&packets)?, MISSING)?;
    assert!(rt; is_all(&receiver.flash, 0, BLOCK, 255));
    assert!(rt; receiver.has_at(BANK_0, front(newer, 2000)?));
    receiver.boots(rt, alloc, &file(alloc, 0)?)?;
    receiver.replays(rt, alloc, &packets, THIRD)?;
    receiver.boots(rt, alloc, newer)
}
