//! A night's update of 4 MB, of which some packets are lost on the way, to a box that takes it in a window.

use crate::check::same;
use crate::commands::outcome_on;
use flash_bank::format;
use flash_dev::SureFlash;
use ssu_compat::SwId;
use ssu_io::MemShelf;
use ssu_tool::Status;
use std::alloc::Global;
use std::process::Abort;
use std::test::Fail;

const BOX: &str = "oui = 4660
model = 7
version = 1
rule = \"newer\"
software_model = 1
software_version = 7
";

/// Every 50th of the first 20,000 packets is lost.
const SCRIPT: &str = "drop_every = 50
drop_until = 20000
";

/// The files, with the byte of which each is made.
const FILES: [(&str, u8, usize); 3] = [
    ("a.bin", 1, 2_000_000),
    ("b.bin", 2, 2_000_000),
    ("c.bin", 3, 194_304),
];

/// The image of the flash before the night.
const OLD: &[u8] = b"old";

/// A shelf with the box, the script, the files, and their plan. Boxes take the update from one to three o'clock in March 2024, and
/// this is the time in its tables.
fn shelf_of(alloc: Global, time: &str) -> Result<MemShelf, Fail> {
    let plan = format!(in alloc;
        "ts = 1
network = 2
bouquet = 9
service = 3
oui = 4660
time = \"{time}\"
pmt_pid = 256
notice_pid = 257
data_pid = 258
turns = 4000
[schedule]
start = \"2024-03-01T01:00:00\"
end = \"2024-04-01T01:00:00\"
period_hours = 24
duration_hours = 2
[[group]]
model = 7
version = 1
software_model = 1
software_version = 8
modules = [\"a.bin\", \"b.bin\", \"c.bin\"]
"
    )?;
    let mut shelf = MemShelf::new(alloc, Vec::new(alloc));
    shelf.add("box.toml", BOX.as_bytes().to_vec(alloc)?)?;
    shelf.add("script.toml", SCRIPT.as_bytes().to_vec(alloc)?)?;
    shelf.add("plan.toml", plan.as_bytes().to_vec(alloc)?)?;
    for (name, byte, len) in FILES {
        shelf.add(name, vec![in alloc; byte; len]?)?;
    }
    Ok(shelf)
}

/// The files, joined.
fn joined(alloc: Global) -> Result<Vec<u8>, Fail> {
    let mut joined = Vec::new(alloc);
    for (_, byte, len) in FILES {
        joined.extend_from_slice(&vec![in alloc; byte; len]?)?;
    }
    Ok(joined)
}

/// The packets of the update that come over the air.
fn aired(
    rt: &impl Abort,
    alloc: Global,
    shelf: &mut MemShelf,
    flash: &mut SureFlash,
) -> Result<Vec<u8>, Fail> {
    let built = outcome_on(alloc, &["folder", "build"], shelf, &[], flash)?;
    assert!(rt; built.put.starts_with("sections 1040 packets ".as_bytes()));
    let aired = outcome_on(alloc, &["folder", "air"], shelf, &built.made, flash)?;
    same(rt, &aired.status, &Status::Done);
    Ok(aired.made)
}

#[test]
fn a_nights_update_is_installed_in_its_window(rt: HostRuntime) -> Result<(), Fail> {
    let alloc = rt.alloc();
    let joined = joined(alloc)?;
    // the time, the version that runs, the exit code, the line, and whether boot takes the update then
    let rows: [(&str, u16, u8, &str, bool); 3] = [
        (
            "2024-03-05T02:00:00",
            7,
            0,
            "installed group 2147483650 software 1.8 bytes 4194304\n",
            true,
        ),
        (
            "2024-03-05T12:00:00",
            7,
            6,
            "nothing level 5 window\n",
            false,
        ),
        (
            "2024-03-05T02:00:00",
            8,
            6,
            "nothing level 6 group\n",
            false,
        ),
    ];
    for (time, version, code, line, is_updated) in rows {
        let mut shelf = shelf_of(alloc, time)?;
        let mut flash = SureFlash::blank(alloc, 2100, 4096)?;
        if format(&mut flash, OLD, SwId { model: 1, version }).is_err() {
            return Err("it is not formatted".into());
        }
        let packets = aired(&rt, alloc, &mut shelf, &mut flash)?;
        let words = ["folder", "replay"];
        let replayed = outcome_on(alloc, &words, &mut shelf, &packets, &mut flash)?;
        same(&rt, &replayed.status.code(), &code);
        same(&rt, &replayed.put.as_slice(), &line.as_bytes());
        let words = ["folder", "boot"];
        let booted = outcome_on(alloc, &words, &mut shelf, &[], &mut flash)?;
        same(&rt, &booted.status, &Status::Done);
        let image = if is_updated { joined.as_slice() } else { OLD };
        same(&rt, &booted.made.as_slice(), &image);
    }
    Ok(())
}
