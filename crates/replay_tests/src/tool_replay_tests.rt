//! Streams that `build` made, replayed to a flash in memory.

use crate::check::same;
use crate::commands::front;
use flash_bank::{boot, format};
use flash_dev::{Flash, MemFlash, Tear};
use flash_stage::{BankStage, RamStage, Stage};
use ssu_answer::{Chosen, Level};
use ssu_compat::SwId;
use ssu_io::{MemShelf, MemSink, MemSource};
use ssu_status::Status;
use std::alloc::Global;
use std::process::Abort;
use std::test::Fail;
use tool_build::build;
use tool_replay::replay;

const BOX: &str = "oui = 4660
model = 7
version = 1
rule = \"newer\"
software_model = 1
software_version = 1
";

const PLAN: &str = "ts = 1
network = 2
service = 3
oui = 4660
time = \"2024-03-01T02:00:00\"
pmt_pid = 256
data_pid = 258
turns = 7
[[group]]
model = 7
version = 1
software_model = 1
software_version = 2
modules = [\"a.bin\"]
";

/// The image of a flash before a replay.
const OLD: &[u8] = b"old";

/// A shelf with a box, a plan of software 1.2, and its file of so many bytes 9. It fails the calls of these numbers.
fn shelf_of(alloc: Global, len: usize, fails: &[u32]) -> Result<MemShelf, Fail> {
    let mut shelf = MemShelf::new(alloc, fails.to_vec(alloc)?);
    shelf.add("box.toml", BOX.as_bytes().to_vec(alloc)?)?;
    shelf.add("plan.toml", PLAN.as_bytes().to_vec(alloc)?)?;
    shelf.add("a.bin", vec![in alloc; 9u8; len]?)?;
    Ok(shelf)
}

/// The packets of the plan on the shelf.
fn packets_of(alloc: Global, shelf: &mut MemShelf) -> Result<Vec<u8>, Fail> {
    let mut made = MemSink::new(alloc, Vec::new(alloc));
    let mut out = MemSink::new(alloc, Vec::new(alloc));
    match build(alloc, shelf, &mut made, &mut out) {
        Status::Done => Ok(made.into_bytes()),
        _ => Err(Fail::from("it is not built")),
    }
}

/// A flash with two banks of 256 bytes and the old image, whose software is 1 of this version.
fn flash_of(alloc: Global, version: u16) -> Result<MemFlash, Fail> {
    let mut flash = MemFlash::blank(alloc, 4, 256, 64)?;
    let software = SwId { model: 1, version };
    match format(&mut flash, OLD, software) {
        Ok(_) => Ok(flash),
        Err(_) => Err(Fail::from("it is not formatted")),
    }
}

/// The same, where the number of the record is 4,294,967,295: four pairs from byte 8 on.
fn worn_flash(alloc: Global) -> Result<MemFlash, Fail> {
    let flash = flash_of(alloc, 1)?;
    let mut held = front(flash.contents(), 8)?.to_vec(alloc)?;
    held.extend_from_slice(&[255, 0, 255, 0, 255, 0, 255, 0])?;
    held.extend_from_slice(flash.contents().get(16..).ok_or("four blocks")?)?;
    if held.len() % 256 != 0 || held.len() > 1024 {
        return Err(Fail::from("not four blocks"));
    }
    Ok(MemFlash::holding(alloc, &held, 256, 64)?)
}

/// The image that boot takes.
fn booted<F: Flash>(alloc: Global, flash: &mut F) -> Result<Vec<u8>, Fail> {
    let mut image = MemSink::new(alloc, Vec::new(alloc));
    match boot(flash, &mut image) {
        Ok(_) => Ok(image.into_bytes()),
        Err(_) => Err(Fail::from("it does not boot")),
    }
}

/// What came of a replay, and what it printed.
#[derive(Drop)]
struct Outcome {
    status: Status,
    line: Vec<u8>,
}

/// Replays the packets, of which the source and the output fail the calls of these numbers.
fn replayed<S: Stage, F: Flash>(
    alloc: Global,
    shelf: &mut MemShelf,
    air: &[u8],
    fails: (&[u32], &[u32]),
    flash: &mut F,
) -> Result<Outcome, Fail> {
    let mut air = MemSource::new(air.to_vec(alloc)?, 1000, fails.0.to_vec(alloc)?);
    let mut out = MemSink::new(alloc, fails.1.to_vec(alloc)?);
    let status = replay::<MemShelf, MemSource, F, MemSink, S>(
        alloc, shelf, &mut air, flash, &mut out,
    );
    Ok(Outcome {
        status,
        line: out.into_bytes(),
    })
}

fn chosen(bytes: u32) -> Chosen {
    Chosen {
        group: 2_147_483_650,
        software: SwId {
            model: 1,
            version: 2,
        },
        bytes,
    }
}

#[test]
fn each_verdict_has_its_line_and_its_image(rt: HostRuntime) -> Result<(), Fail> {
    verdicts_are_told::<RamStage>(&rt, rt.alloc())?;
    verdicts_are_told::<BankStage>(&rt, rt.alloc())
}

fn verdicts_are_told<S: Stage>(rt: &impl Abort, alloc: Global) -> Result<(), Fail> {
    let new = vec![in alloc; 9u8; 256]?;
    // the version that runs, the length of the file, how many bytes of the stream are sent, the answer, its line, the image that boot takes
    let rows: [(u16, usize, usize, Status, &str, &[u8]); 5] = [
        (
            1,
            256,
            8 * 188,
            Status::Installed(chosen(256)),
            "installed group 2147483650 software 1.2 bytes 256\n",
            &new,
        ),
        (
            2,
            256,
            8 * 188,
            Status::Nothing(Level::Group),
            "nothing level 6 group\n",
            OLD,
        ),
        (
            1,
            257,
            8 * 188,
            Status::Nothing(Level::Modules),
            "nothing level 7 modules\n",
            OLD,
        ),
        (
            1,
            256,
            7 * 188,
            Status::Incomplete(chosen(256), 1),
            "incomplete group 2147483650 missing 1\n",
            OLD,
        ),
        (
            1,
            256,
            0,
            Status::Nothing(Level::Linkage),
            "nothing level 1 linkage\n",
            OLD,
        ),
    ];
    for (version, len, sent, status, line, image) in rows {
        is_told::<S>(rt, alloc, (version, len, sent), status, line, image)?;
    }
    Ok(())
}

/// Replays so many bytes of the stream of a file of a length to a box that runs a version.
fn is_told<S: Stage>(
    rt: &impl Abort,
    alloc: Global,
    (version, len, sent): (u16, usize, usize),
    status: Status,
    line: &str,
    image: &[u8],
) -> Result<(), Fail> {
    let mut shelf = shelf_of(alloc, len, &[])?;
    let all = packets_of(alloc, &mut shelf)?;
    same(rt, &all.len(), &(8 * 188));
    let mut flash = flash_of(alloc, version)?;
    let air = front(&all, sent)?;
    let outcome = replayed::<S, MemFlash>(alloc, &mut shelf, air, (&[], &[]), &mut flash)?;
    same(rt, &outcome.status, &status);
    same(rt, &outcome.line.as_slice(), &line.as_bytes());
    same(rt, &booted(alloc, &mut flash)?.as_slice(), &image);
    Ok(())
}

#[test]
fn faults_are_told_apart(rt: HostRuntime) -> Result<(), Fail> {
    let alloc = rt.alloc();
    let new = vec![in alloc; 9u8; 256]?;
    let air = packets_of(alloc, &mut shelf_of(alloc, 256, &[])?)?;
    // the calls of shelf, source and output that fail, the answer, the image that boot takes
    let rows: [(&[u32], &[u32], &[u32], Status, &[u8]); 3] = [
        (&[1], &[], &[], Status::ShelfFault, OLD),
        (&[], &[2], &[], Status::ReadFault, OLD),
        (&[], &[], &[1], Status::WriteFault, &new),
    ];
    for (shelf_fails, air_fails, out_fails, status, image) in rows {
        let mut shelf = shelf_of(alloc, 256, shelf_fails)?;
        let mut flash = flash_of(alloc, 1)?;
        let fails = (air_fails, out_fails);
        let outcome = replayed::<BankStage, MemFlash>(alloc, &mut shelf, &air, fails, &mut flash)?;
        same(&rt, &outcome.status, &status);
        assert!(rt; outcome.line.is_empty());
        same(&rt, &booted(alloc, &mut flash)?.as_slice(), &image);
    }
    Ok(())
}

#[test]
fn a_replay_that_the_flash_failed_is_run_again(rt: HostRuntime) -> Result<(), Fail> {
    a_failed_replay_is_run_again::<RamStage>(&rt, rt.alloc())?;
    a_failed_replay_is_run_again::<BankStage>(&rt, rt.alloc())
}

fn a_failed_replay_is_run_again<S: Stage>(rt: &impl Abort, alloc: Global) -> Result<(), Fail> {
    let mut shelf = shelf_of(alloc, 256, &[])?;
    let air = packets_of(alloc, &mut shelf)?;
    let mut flash = flash_of(alloc, 1)?;
    // behind the five calls of the formatting, the erase of the bank fails
    flash.fail_at(7, Tear::Front(0))?;
    let outcome = replayed::<S, MemFlash>(alloc, &mut shelf, &air, (&[], &[]), &mut flash)?;
    same(rt, &outcome.status, &Status::FlashFault);
    assert!(rt; outcome.line.is_empty());
    same(rt, &booted(alloc, &mut flash)?.as_slice(), &OLD);
    let outcome = replayed::<S, MemFlash>(alloc, &mut shelf, &air, (&[], &[]), &mut flash)?;
    same(rt, &outcome.status, &Status::Installed(chosen(256)));
    same(rt, &booted(alloc, &mut flash)?.len(), &256);
    Ok(())
}

#[test]
fn a_flash_is_refused_unchanged(rt: HostRuntime) -> Result<(), Fail> {
    let alloc = rt.alloc();
    let mut shelf = shelf_of(alloc, 256, &[])?;
    let air = packets_of(alloc, &mut shelf)?;
    is_refused(
        &rt,
        alloc,
        &mut shelf,
        &air,
        worn_flash(alloc)?,
        Status::Worn.code(),
    )?;
    let blank = MemFlash::blank(alloc, 4, 256, 64)?;
    is_refused(&rt, alloc, &mut shelf, &air, blank, Status::Foreign.code())?;
    let small = MemFlash::blank(alloc, 3, 256, 64)?;
    is_refused(&rt, alloc, &mut shelf, &air, small, Status::Geometry.code())?;
    // and where the box has no file
    let mut empty = MemShelf::new(alloc, Vec::new(alloc));
    is_refused(&rt, alloc, &mut empty, &air, worn_flash(alloc)?, 9)
}

/// Replays to a flash, which ends with this code: it is as before, and nothing is printed.
fn is_refused(
    rt: &impl Abort,
    alloc: Global,
    shelf: &mut MemShelf,
    air: &[u8],
    mut flash: MemFlash,
    code: u8,
) -> Result<(), Fail> {
    let before = flash.contents().to_vec(alloc)?;
    let outcome = replayed::<BankStage, MemFlash>(alloc, shelf, air, (&[], &[]), &mut flash)?;
    same(rt, &outcome.status.code(), &code);
    assert!(rt; outcome.line.is_empty());
    same(rt, &flash.contents(), &before.as_slice());
    Ok(())
}
