//! A plan of one small file, sent to a box through scripts: what the box installs, and what it boots then.

ghost use Rattle.ssu_answer.specs.declared.build_fault.BuildFault.{BuildFault};

use crate::check::same;
use air_channel::Script;
use box_file::BoxFile;
use broadcast::{Outcome, broadcast_then_boot};
use flash_bank::format;
use flash_dev::MemFlash;
use head_plan::Plan;
use ssu_answer::{Chosen, Verdict};
use ssu_compat::SwId;
use std::alloc::Global;
use std::test::Fail;

const BOX: &str = "oui = 4660
model = 7
version = 1
rule = \"newer\"
software_model = 1
software_version = 1
";

/// The tables, the DSI, the DII and the three blocks of one file, each once: 21 packets.
const PLAN: &str = "ts = 1
network = 2
service = 3
oui = 4660
time = \"2024-03-01T02:00:00\"
pmt_pid = 256
data_pid = 258
turns = 9
[[group]]
model = 7
version = 1
software_model = 1
software_version = 2
modules = [\"a.bin\"]
";

/// The group of the plan.
const GROUP: Chosen = Chosen {
    group: 0x8000_0002,
    software: SwId {
        model: 1,
        version: 2,
    },
    bytes: 2500,
};

/// Six blocks of 4,096 bytes that hold an old image.
fn formatted(alloc: Global) -> Result<MemFlash, Fail> {
    let mut flash = MemFlash::blank(alloc, 6, 4096, 64)?;
    let software = SwId {
        model: 1,
        version: 1,
    };
    format(&mut flash, b"old", software)?;
    Ok(flash)
}

/// The plan, in blocks of so many bytes.
fn plan_of(alloc: Global, block_size: u16) -> Result<Plan, Fail> {
    let text = format!(in alloc; "{PLAN}block_size = {block_size}\n")?;
    Ok(Plan::read(alloc, text.as_bytes())?)
}

/// Its one file, of so many bytes 0x31.
fn images_of(alloc: Global, len: usize) -> Result<Vec<Vec<u8>>, Fail> {
    let mut images = Vec::new(alloc);
    images.push(vec![in alloc; 0x31; len]?)?;
    Ok(images)
}

/// What comes of a plan with as many images as it has files, and of the packets that the script makes.
fn sent(
    alloc: Global,
    plan: &Plan,
    images: &[Vec<u8>],
    script: &str,
    flash: &mut MemFlash,
) -> Result<Option<Outcome>, Fail> {
    if images.len() != plan.file_count() as usize {
        return Err("an image for each file".into());
    }
    let script = Script::read(alloc, script.as_bytes())?;
    let me = BoxFile::read(alloc, BOX.as_bytes()).map_err(|_| "no box")?;
    match broadcast_then_boot(alloc, plan, images, &script, &me, flash) {
        Ok(outcome) => Ok(Some(outcome)),
        Err(_) => Ok(None),
    }
}

/// What comes of the plan in blocks of so many bytes, its one file of so many bytes, and the packets that the script makes.
fn outcome(
    alloc: Global,
    block_size: u16,
    len: usize,
    script: &str,
    flash: &mut MemFlash,
) -> Result<Option<Outcome>, Fail> {
    let plan = plan_of(alloc, block_size)?;
    let images = images_of(alloc, len)?;
    sent(alloc, &plan, &images, script, flash)
}

#[test]
fn the_file_of_the_plan_is_booted(rt: HostRuntime) -> Result<(), Fail> {
    let alloc = rt.alloc();
    let mut flash = formatted(alloc)?;
    // without its last packet the third block is not heard
    let lost = outcome(alloc, 1000, 2500, "drop = [20]", &mut flash)?.expect(&rt, "no outcome");
    same(&rt, &lost.verdict, &Verdict::Incomplete(GROUP, 1));
    same(&rt, &lost.booted.number, &1);
    same(&rt, &lost.image.as_slice(), &b"old".as_slice());
    let whole = outcome(alloc, 1000, 2500, "", &mut flash)?.expect(&rt, "no outcome");
    same(&rt, &whole.verdict, &Verdict::Installed(GROUP));
    same(&rt, &whole.booted.software.version, &2);
    same(&rt, &whole.image.len(), &2500);
    assert!(rt; whole.image.iter().all(|byte| *byte == 0x31));
    // what is not built is not sent
    let long = outcome(alloc, 1, 65_537, "", &mut flash)?;
    assert!(rt; long.is_none());
    Ok(())
}
