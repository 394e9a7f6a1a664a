//! Plans of a few small files, their sections by number and first bytes, and plans that are too large.

use crate::check::same;
use head_carousel::{BuildFault, Timed, sections};
use head_plan::Plan;
use ssu_io::FileName;
use std::alloc::Global;
use std::process::Abort;
use std::test::Fail;

const START: &str =
    "ts = 1\nnetwork = 2\nservice = 3\noui = 4660\ntime = \"2024-03-01T02:00:00\"\npmt_pid = 256\ndata_pid = 258\nturns = 7\n";

const GROUP: &str = "[[group]]\nmodel = 7\nversion = 1\nsoftware_model = 1\nsoftware_version = 2\n";

/// What an announced plan has besides.
const ANNOUNCED: &str =
    "bouquet = 9\nnotice_pid = 257\n[schedule]\nstart = \"2024-03-01T01:00:00\"\nend = \"2024-04-01T01:00:00\"\nperiod_hours = 24\nduration_hours = 2\n";

/// The sections of a plan whose files are these.
fn built(
    rt: &impl Abort,
    alloc: Global,
    plan: &Plan,
    images: &[Vec<u8>],
) -> Result<Vec<Timed>, BuildFault> {
    assert!(rt; images.len() == plan.file_count() as usize);
    sections(alloc, plan, images)
}

fn plan_of(alloc: Global, more: &str, modules: &str) -> Result<Plan, Fail> {
    let text = format!(in alloc; "{START}{more}{GROUP}{modules}\n")?;
    Ok(Plan::read(alloc, text.as_bytes())?)
}

/// Files of these lengths.
fn files(alloc: Global, lengths: &[usize]) -> Result<Vec<Vec<u8>>, Fail> {
    let mut files = Vec::new(alloc);
    for length in lengths {
        files.push(vec![in alloc; 0x31; *length]?)?;
    }
    Ok(files)
}

#[test]
fn a_plan_of_one_small_file_has_seven_sections(rt: HostRuntime) -> Result<(), Fail> {
    let alloc = rt.alloc();
    let plan = plan_of(alloc, "", "modules = [\"a.bin\"]")?;
    let mut images = Vec::new(alloc);
    images.push(b"123456789".to_vec(alloc)?)?;
    let list = built(&rt, alloc, &plan, &images).map_err(|_| "refused")?;
    // The PID, the period, the table_id, and the length of each section.
    let expected: [(u16, u32, u8, usize); 7] = [
        (0x10, 50, 0x40, 36),
        (0x00, 50, 0x00, 16),
        (0x14, 50, 0x70, 8),
        (256, 50, 0x02, 35),
        (258, 50, 0x3B, 88),
        (258, 50, 0x3B, 60),
        (258, 8, 0x3C, 39),
    ];
    same(&rt, &list.len(), &7);
    for (section, row) in list.iter().zip(expected.iter()) {
        let (pid, period, table, length) = *row;
        same(&rt, &section.pid.get(), &pid);
        same(&rt, &section.period, &period);
        same(&rt, &section.bytes.first().copied(), &Some(table));
        same(&rt, &section.bytes.len(), &length);
    }
    Ok(())
}

#[test]
fn an_announced_plan_has_a_bat_and_a_notification(rt: HostRuntime) -> Result<(), Fail> {
    let alloc = rt.alloc();
    let plan = plan_of(
        alloc,
        ANNOUNCED,
        "block_size = 100\nmodules = [\"a.bin\", \"b.bin\", \"a.bin\"]",
    )?;
    let images = files(alloc, &[250, 0, 100])?;
    let list = built(&rt, alloc, &plan, &images).map_err(|_| "refused")?;
    let tables = [
        0x40, 0x4A, 0x00, 0x70, 0x02, 0x4B, 0x3B, 0x3B, 0x3C, 0x3C, 0x3C, 0x3C,
    ];
    same(&rt, &list.len(), &tables.len());
    for (section, table) in list.iter().zip(tables.iter()) {
        same(&rt, &section.bytes.first(), &Some(table));
    }
    Ok(())
}

#[test]
fn four_megabytes_in_three_files_are_1040_sections(rt: HostRuntime) -> Result<(), Fail> {
    let alloc = rt.alloc();
    let plan = plan_of(
        alloc,
        "notice_pid = 257\n",
        "modules = [\"a.bin\", \"b.bin\", \"c.bin\"]",
    )?;
    let images = files(alloc, &[2_000_000, 2_000_000, 194_304])?;
    let list = built(&rt, alloc, &plan, &images).map_err(|_| "refused")?;
    same(&rt, &list.len(), &(7 + 492 + 492 + 48));
    Ok(())
}

/// The file for which the plan is not built.
fn too_long(
    rt: &impl Abort,
    alloc: Global,
    plan: &Plan,
    images: &[Vec<u8>],
) -> Result<FileName, Fail> {
    match &built(rt, alloc, plan, images) {
        Err(BuildFault::ImageTooLong(name)) => Ok(*name),
        _ => Err(Fail::from("not refused for a long file")),
    }
}

#[test]
fn the_first_file_of_too_many_blocks_is_named(rt: HostRuntime) -> Result<(), Fail> {
    let alloc = rt.alloc();
    let plan = plan_of(
        alloc,
        "",
        "block_size = 1\nmodules = [\"a.bin\", \"b.bin\", \"c.bin\"]",
    )?;
    let images = files(alloc, &[65_536, 65_537, 65_538])?;
    let name = too_long(&rt, alloc, &plan, &images)?;
    same(&rt, &name.as_str(), &"b.bin");
    Ok(())
}

#[test]
fn sixteen_files_of_17_000_000_bytes_are_too_many_sections(rt: HostRuntime) -> Result<(), Fail> {
    let alloc = rt.alloc();
    let sixteen =
        "modules = [\"a.bin\", \"a.bin\", \"a.bin\", \"a.bin\", \"a.bin\", \"a.bin\", \"a.bin\", \"a.bin\", \
         \"a.bin\", \"a.bin\", \"a.bin\", \"a.bin\", \"a.bin\", \"a.bin\", \"a.bin\", \"a.bin\"]";
    let plan = plan_of(alloc, "", sixteen)?;
    let file = vec![in alloc; 0; 17_000_000]?;
    let mut images = Vec::new(alloc);
    for _ in 0..16usize {
        images.push(file.clone()?)?;
    }
    match built(&rt, alloc, &plan, &images) {
        Err(BuildFault::TooManySections(count)) => same(&rt, &count, &66_918),
        _ => return Err("not refused for its sections".into()),
    }
    Ok(())
}
