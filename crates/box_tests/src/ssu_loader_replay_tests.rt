//! Replays over a flash in memory.

use crate::check::same;
use box_file::BoxFile;
use flash_bank::format;
use flash_dev::MemFlash;
use flash_stage::RamStage;
use ssu_compat::SwId;
use ssu_io::MemSource;
use ssu_loader::{Level, LoadFault, Verdict, replay};
use std::alloc::Global;
use std::test::Fail;

const BOX: &str =
    "oui = 4660\nmodel = 1\nversion = 1\nsoftware_model = 1\nsoftware_version = 1\nrule = \"different\"\n";

const OLD: SwId = SwId {
    model: 1,
    version: 1,
};

/// Replays so many bytes that are no packet of a table, in pieces of 100, of which these takes fail.
fn answer(
    alloc: Global,
    flash: &mut MemFlash,
    len: usize,
    fails: &[u32],
) -> Result<Result<Verdict, LoadFault>, Fail> {
    let me = BoxFile::read(alloc, BOX.as_bytes())?;
    let mut air = MemSource::new(vec![in alloc; 71; len]?, 100, fails.to_vec(alloc)?);
    Ok(replay::<MemSource, MemFlash, RamStage>(alloc, &me, &mut air, flash))
}

#[test]
fn a_replay_ends(rt: HostRuntime) -> Result<(), Fail> {
    let alloc = rt.alloc();
    let mut flash = MemFlash::blank(alloc, 6, 256, 64)?;
    same(
        &rt,
        &answer(alloc, &mut flash, 376, &[])?,
        &Err(LoadFault::Foreign),
    );
    format(&mut flash, &[1, 2, 3], OLD)?;
    let none: [u32; 0] = [];
    let rows: [(usize, &[u32], Result<Verdict, LoadFault>); 4] = [
        (0, &none, Ok(Verdict::Nothing(Level::Linkage))),
        (376, &none, Ok(Verdict::Nothing(Level::Linkage))),
        (400, &[1], Err(LoadFault::ReadFault)),
        (400, &[5], Err(LoadFault::ReadFault)),
    ];
    for (len, fails, wanted) in rows {
        same(
            &rt,
            &(len, answer(alloc, &mut flash, len, fails)?),
            &(len, wanted),
        );
    }
    Ok(())
}
