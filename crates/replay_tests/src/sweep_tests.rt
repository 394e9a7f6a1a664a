//! Each call of a run fails in turn: the flash at each erase, program and read, and the files and outputs of every command. Each
//! loop goes on until the run does not meet the call, and so ends by itself.

use crate::check::same;
use crate::commands::{holding, owned};
use flash_bank::{boot, format};
use flash_dev::{MemFlash, Tear};
use ssu_compat::SwId;
use ssu_io::{MemShelf, MemSink, MemSource};
use ssu_tool::{Status, run};
use std::alloc::Global;
use std::process::Abort;
use std::test::Fail;

const BOX: &str = "oui = 4660
model = 7
version = 1
rule = \"any\"
software_model = 1
software_version = 1
";

/// The tables, the DSI, the DII and the five blocks of one file, each once.
const PLAN: &str = "ts = 1
network = 2
service = 3
oui = 4660
time = \"2024-03-01T02:00:00\"
pmt_pid = 256
data_pid = 258
turns = 11
[[group]]
model = 7
version = 1
software_model = 1
software_version = 2
modules = [\"new.bin\"]
";

/// The image of the flash before a replay.
const OLD: &[u8] = b"old";

/// The length of the new image.
const NEW_LEN: usize = 20_000;

/// More calls than any run makes of one object.
const MOST: u32 = 600;

/// What a command is lent, but for the flash.
#[derive(Clone, Copy, PartialEq, Eq)]
enum Object {
    Shelf,
    Air,
    Made,
    Out,
}

/// How the call of one number fails.
#[derive(Clone, Copy, PartialEq, Eq)]
enum Harm {
    /// No call fails.
    None,
    /// The erase or program of the flash fails and leaves this.
    Fails(Tear),
    /// The same, and so does each call of the flash after it.
    Stops(Tear),
    /// The read of the flash fails.
    FailsToRead,
    /// The call of another object fails.
    Of(Object),
}

/// The calls of an object that fail: this one, where the harm is to that object.
fn failing(alloc: Global, object: Object, harm: Harm, call: u32) -> Result<Vec<u32>, Fail> {
    let mut calls = Vec::new(alloc);
    if harm == Harm::Of(object) {
        calls.push(call)?;
    }
    Ok(calls)
}

/// A shelf with all that a command wants.
fn shelf_of(alloc: Global, fails: Vec<u32>) -> Result<MemShelf, Fail> {
    let mut shelf = MemShelf::new(alloc, fails);
    for (name, text) in [
        ("box.toml", BOX),
        ("plan.toml", PLAN),
        ("script.toml", "drop = [900]"),
        ("old.bin", "old"),
    ] {
        shelf.add(name, text.as_bytes().to_vec(alloc)?)?;
    }
    shelf.add("new.bin", vec![in alloc; 9u8; NEW_LEN]?)?;
    Ok(shelf)
}

/// The contents of a flash of 22 blocks with the old image, which is of layout 1.
fn small(alloc: Global) -> Result<Vec<u8>, Fail> {
    formatted(alloc, MemFlash::blank(alloc, 22, 4096, MOST)?)
}

/// The contents of a flash of 520 blocks with the old image, which is of layout 2.
fn large(alloc: Global) -> Result<Vec<u8>, Fail> {
    formatted(alloc, MemFlash::blank(alloc, 520, 4096, MOST)?)
}

/// What the flash holds once it is formatted with the old image.
fn formatted(alloc: Global, mut flash: MemFlash) -> Result<Vec<u8>, Fail> {
    let software = SwId {
        model: 1,
        version: 1,
    };
    format(&mut flash, OLD, software)?;
    Ok(flash.contents().to_vec(alloc)?)
}

/// What came of a command, what it put and printed, and what the flash holds then.
#[derive(Drop)]
struct Outcome {
    status: Status,
    made: Vec<u8>,
    put: Vec<u8>,
    held: Vec<u8>,
}

/// Runs a command over a flash with these contents, where the call of this number, from 1, is harmed.
fn outcome_of(
    alloc: Global,
    words: &[&str],
    air: &[u8],
    held: &[u8],
    harm: Harm,
    call: u32,
) -> Result<Outcome, Fail> {
    let words = owned(alloc, words)?;
    let mut flash = holding(alloc, held, MOST)?;
    match harm {
        Harm::Fails(tear) => flash.fail_at(call, tear)?,
        Harm::Stops(tear) => flash.stop_at(call, tear),
        Harm::FailsToRead => flash.fail_read(call)?,
        Harm::None | Harm::Of(_) => {}
    }
    let mut shelf = shelf_of(alloc, failing(alloc, Object::Shelf, harm, call)?)?;
    let air_fails = failing(alloc, Object::Air, harm, call)?;
    let mut air = MemSource::new(air.to_vec(alloc)?, 1000, air_fails);
    let mut made = MemSink::new(alloc, failing(alloc, Object::Made, harm, call)?);
    let mut out = MemSink::new(alloc, failing(alloc, Object::Out, harm, call)?);
    let status = run(
        alloc, &words, &mut shelf, &mut air, &mut flash, &mut made, &mut out,
    );
    Ok(Outcome {
        status,
        made: made.into_bytes(),
        put: out.into_bytes(),
        held: flash.contents().to_vec(alloc)?,
    })
}

/// The packets of the plan.
fn packets(alloc: Global) -> Result<Vec<u8>, Fail> {
    let held = small(alloc)?;
    let built = outcome_of(alloc, &["folder", "build"], &[], &held, Harm::None, 1)?;
    if built.status != Status::Done {
        return Err("it is not built".into());
    }
    Ok(built.made)
}

/// Whether boot takes the new image of a flash with these contents. Any other one than this and the old one is a failure.
fn boots_new(alloc: Global, held: &[u8]) -> Result<bool, Fail> {
    let mut flash = holding(alloc, held, MOST)?;
    let mut image = MemSink::new(alloc, Vec::new(alloc));
    boot(&mut flash, &mut image)?;
    if image.bytes() == OLD {
        return Ok(false);
    }
    if image.bytes().len() == NEW_LEN && image.bytes().iter().all(|byte| *byte == 9) {
        return Ok(true);
    }
    Err("neither the old image nor the whole new one".into())
}

/// Replays with each call of the flash harmed in turn. Boot takes the old image or the whole new one, the new one only after the
/// last call, and a second replay installs, since the rule of the box admits what runs too. Answers how many calls there were.
fn sweep(
    rt: &impl Abort,
    alloc: Global,
    air: &[u8],
    start: &[u8],
    harm: Harm,
) -> Result<u32, Fail> {
    let mut is_new = false;
    for call in 1..MOST {
        let outcome = outcome_of(alloc, &["folder", "replay"], air, start, harm, call)?;
        if matches!(outcome.status, Status::Installed(_)) {
            assert!(rt; boots_new(alloc, &outcome.held)?);
            return Ok(call - 1);
        }
        same(rt, &outcome.status, &Status::FlashFault);
        assert!(rt; outcome.put.is_empty());
        // the new image was there one call ago, so that was the last one
        assert!(rt; !is_new);
        is_new = boots_new(alloc, &outcome.held)?;
        let again = outcome_of(
            alloc,
            &["folder", "replay"],
            air,
            &outcome.held,
            Harm::None,
            1,
        )?;
        assert!(rt; matches!(again.status, Status::Installed(_)));
        assert!(rt; boots_new(alloc, &again.held)?);
    }
    Err("more calls".into())
}

/// Sweeps with each harm, where there are at least so many erases and programs, and reads.
fn sweep_each(
    rt: &impl Abort,
    alloc: Global,
    start: &[u8],
    changes: u32,
    reads: u32,
) -> Result<(), Fail> {
    let air = packets(alloc)?;
    for (harm, calls) in [
        (Harm::Fails(Tear::Front(0)), changes),
        (Harm::Stops(Tear::Front(0)), changes),
        (Harm::Stops(Tear::Front(100)), changes),
        (Harm::Stops(Tear::Drift(90)), changes),
        (Harm::FailsToRead, reads),
    ] {
        assert!(rt; sweep(rt, alloc, &air, start, harm)? >= calls);
    }
    Ok(())
}

#[test]
fn each_call_of_the_flash_fails_in_turn(rt: HostRuntime) -> Result<(), Fail> {
    let alloc = rt.alloc();
    // An erase of the record block and of ten blocks of the bank, at least 79 pieces of 256 bytes at most, and the record; as many
    // pieces that are read back.
    sweep_each(&rt, alloc, &small(alloc)?, 91, 79)
}

#[test]
fn each_call_of_a_flash_with_a_journal_fails_in_turn(rt: HostRuntime) -> Result<(), Fail> {
    let alloc = rt.alloc();
    // An erase of the record block, of 21 blocks of the journal and of 238 of the bank, two programs of the journal's header, at
    // least 79 pieces of the image, a mark of each of the five blocks, and the record; as many pieces that are read back.
    sweep_each(&rt, alloc, &large(alloc)?, 347, 79)
}

/// Runs the command with each call of an object failing in turn. Each answer is the fault, until the command does not meet the
/// call. What is put and printed is a front of what it puts and prints then, and boot takes the old image or the whole new one.
fn each_fails(
    rt: &impl Abort,
    alloc: Global,
    words: &[&str],
    air: &[u8],
    object: Object,
    fault: Status,
) -> Result<(), Fail> {
    let start = small(alloc)?;
    let harm = Harm::Of(object);
    let whole = outcome_of(alloc, words, air, &start, Harm::None, 1)?;
    for call in 1..MOST {
        let outcome = outcome_of(alloc, words, air, &start, harm, call)?;
        assert!(rt; whole.made.starts_with(&outcome.made));
        assert!(rt; whole.put.starts_with(&outcome.put));
        boots_new(alloc, &outcome.held)?;
        if outcome.status == whole.status {
            return Ok(());
        }
        same(rt, &outcome.status, &fault);
    }
    Err("more calls".into())
}

#[test]
fn each_call_of_the_files_and_outputs_fails_in_turn(rt: HostRuntime) -> Result<(), Fail> {
    let alloc = rt.alloc();
    let air = packets(alloc)?;
    let commands: [&[&str]; 12] = [
        &["folder", "hear", "258"],
        &["folder", "load", "258"],
        &["folder", "find"],
        &["folder", "show"],
        &["folder", "build"],
        &["folder", "blank", "4"],
        &["folder", "format", "old.bin"],
        &["folder", "boot"],
        &["folder", "replay"],
        &["folder", "air"],
        &["folder", "audit", "258"],
        &["folder", "sample", "0"],
    ];
    for words in commands {
        each_fails(&rt, alloc, words, &air, Object::Shelf, Status::ShelfFault)?;
        each_fails(&rt, alloc, words, &air, Object::Air, Status::ReadFault)?;
        each_fails(&rt, alloc, words, &air, Object::Made, Status::WriteFault)?;
        each_fails(&rt, alloc, words, &air, Object::Out, Status::WriteFault)?;
    }
    Ok(())
}
