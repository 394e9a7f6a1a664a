//! The commands of a flash with `spares S` behind their words, over a flash in memory whose calls fail.

use crate::check::same;
use crate::commands::file_of;
use flash_dev::{MemFlash, Tear};
use flash_remap::Remap;
use ssu_io::{MemShelf, MemSink, MemSource};
use ssu_tool::{Status, made_file, run_spared};
use std::alloc::{AllocError, Global};
use std::test::Fail;

const BOX: &str = "oui = 4660
model = 7
version = 1
rule = \"newer\"
software_model = 1
software_version = 1
";

/// The tables, the DSI, the DII and the three blocks of one file, each once.
const PLAN: &str = "ts = 1
network = 2
service = 3
oui = 4660
time = \"2024-03-01T02:00:00\"
pmt_pid = 256
data_pid = 258
turns = 9
[[group]]
model = 7
version = 1
software_model = 1
software_version = 2
block_size = 1000
modules = [\"a.bin\"]
";

/// The image of a flash before the first replay.
const OLD: &[u8] = b"old";

/// A file of 2,500 bytes.
fn file(alloc: Global) -> Result<Vec<u8>, AllocError> {
    file_of(alloc, 0, 2500)
}

/// A shelf with the box, the old image, and the plan with its file.
fn shelf_of(alloc: Global) -> Result<MemShelf, Fail> {
    let mut shelf = MemShelf::new(alloc, Vec::new(alloc));
    shelf.add("box.toml", BOX.as_bytes().to_vec(alloc)?)?;
    shelf.add("old.bin", OLD.to_vec(alloc)?)?;
    shelf.add("plan.toml", PLAN.as_bytes().to_vec(alloc)?)?;
    shelf.add("a.bin", file(alloc)?)?;
    Ok(shelf)
}

/// The words of a command in a folder.
fn words_of(alloc: Global, command: &[&str]) -> Result<Vec<String>, AllocError> {
    let mut words = Vec::new(alloc);
    words.push(String::from_str(alloc, "folder")?)?;
    for word in command {
        words.push(String::from_str(alloc, word)?)?;
    }
    Ok(words)
}

#[derive(Drop)]
struct Outcome {
    flash: MemFlash,
    status: Status,
    put: Vec<u8>,
    made: Vec<u8>,
}

/// A command over the files of the shelf, these packets and the flash.
fn outcome_on(
    alloc: Global,
    command: &[&str],
    packets: &[u8],
    flash: MemFlash,
) -> Result<Outcome, Fail> {
    let words = words_of(alloc, command)?;
    let mut shelf = shelf_of(alloc)?;
    let mut air = MemSource::new(packets.to_vec(alloc)?, 1000, Vec::new(alloc));
    let mut made = MemSink::new(alloc, Vec::new(alloc));
    let mut out = MemSink::new(alloc, Vec::new(alloc));
    let (flash, status) = run_spared(
        alloc, &words, &mut shelf, &mut air, flash, &mut made, &mut out,
    );
    Ok(Outcome {
        flash,
        status,
        put: out.into_bytes(),
        made: made.into_bytes(),
    })
}

/// A flash of 27 blocks, formatted with 4 spares. Its calls are counted from here on.
fn flash_of(alloc: Global) -> Result<MemFlash, Fail> {
    let blank = MemFlash::blank(alloc, 27, 4096, 64)?;
    let formatted = outcome_on(alloc, &["format", "old.bin", "spares", "4"], &[], blank)?;
    assert_is(formatted.status == Status::Done, "it is not formatted")?;
    let held = formatted.flash.contents();
    if held.len() != 110_592 {
        return Err("not 27 blocks".into());
    }
    Ok(MemFlash::holding(alloc, held, 4096, 256)?)
}

fn assert_is(holds: bool, why: &'static str) -> Result<(), Fail> {
    if holds { Ok(()) } else { Err(why.into()) }
}

/// The packets of the update.
fn packets_of(alloc: Global) -> Result<Vec<u8>, Fail> {
    let none = MemFlash::blank(alloc, 4, 256, 0)?;
    let built = outcome_on(alloc, &["build"], &[], none)?;
    assert_is(built.status == Status::Done, "it is not built")?;
    Ok(built.made)
}

/// How many replacements a flash with 4 spares has left.
fn left_of(flash: MemFlash) -> Result<(MemFlash, u32), Fail> {
    match Remap::open(flash, 4) {
        Ok(remap) => {
            let left = remap.left();
            Ok((remap.into_inner(), left))
        }
        Err(_) => Err("it is not opened".into()),
    }
}

// The erase of the fourth block of the bank fails, and a spare takes its place. `format` begins the map anew.
#[test]
fn an_update_is_installed_past_a_failing_block(rt: HostRuntime) -> Result<(), Fail> {
    let alloc = rt.alloc();
    let packets = packets_of(alloc)?;
    let mut flash = flash_of(alloc)?;
    flash.fail_at(5, Tear::Front(0))?;
    let replayed = outcome_on(alloc, &["replay", "spares", "4"], &packets, flash)?;
    same(&rt, &replayed.status.code(), &0);
    let line = "installed group 2147483650 software 1.2 bytes 2500\n";
    same(&rt, &replayed.put.as_slice(), &line.as_bytes());
    let booted = outcome_on(alloc, &["boot", "spares", "4"], &[], replayed.flash)?;
    same(&rt, &booted.status.code(), &0);
    same(&rt, &booted.made.as_slice(), &file(alloc)?.as_slice());
    let (used, left) = left_of(booted.flash)?;
    assert!(rt; left == 3);
    let formatted = outcome_on(alloc, &["format", "old.bin", "spares", "4"], &[], used)?;
    assert!(rt; formatted.status.code() == 0);
    let (_, left) = left_of(formatted.flash)?;
    assert!(rt; left == 4);
    Ok(())
}

// That erase fails, and so do those of the four spares.
#[test]
fn a_flash_without_spares_left_fails_and_boots_as_before(rt: HostRuntime) -> Result<(), Fail> {
    let alloc = rt.alloc();
    let packets = packets_of(alloc)?;
    let mut flash = flash_of(alloc)?;
    for call in 5..10u32 {
        flash.fail_at(call, Tear::Front(0))?;
    }
    let replayed = outcome_on(alloc, &["replay", "spares", "4"], &packets, flash)?;
    same(&rt, &replayed.status, &Status::FlashFault);
    same(&rt, &replayed.status.code(), &12);
    assert!(rt; replayed.put.is_empty());
    let booted = outcome_on(alloc, &["boot", "spares", "4"], &[], replayed.flash)?;
    same(&rt, &booted.status.code(), &0);
    same(&rt, &booted.made.as_slice(), &OLD);
    Ok(())
}

/// (the words behind the folder, the status over a flash of 27 blocks 255, the file that they make)
const WORDS: [(&[&str], u8, &str); 10] = [
    (&["boot", "spares", "4"], 5, "image.bin"),
    (&["boot", "spares", "23"], 17, "image.bin"),
    (&["replay", "spares", "4"], 5, ""),
    (&["migrate", "spares", "4"], 5, ""),
    (&["format", "none.bin", "spares", "4"], 9, ""),
    (&["boot", "spares", "0"], 2, ""),
    (&["boot", "spares", "256"], 2, ""),
    (&["boot", "spares", "04"], 2, ""),
    (&["build", "spares", "4"], 2, ""),
    (&["spares", "4"], 2, ""),
];

#[test]
fn words_that_end_in_spares_are_those_of_the_flash(rt: HostRuntime) -> Result<(), Fail> {
    let alloc = rt.alloc();
    for (command, code, made) in WORDS {
        let words = words_of(alloc, command)?;
        assert!(rt; made_file(&words).as_str() == made, "{words:?}");
        let flash = MemFlash::blank(alloc, 27, 4096, 64)?;
        let ended = outcome_on(alloc, command, &[], flash)?;
        assert!(rt; ended.status.code() == code, "{words:?}");
    }
    Ok(())
}
