//! Plans on a shelf in memory: what is printed and put, and what is refused.

use crate::check::same;
use ssu_answer::{BuildFault, FileName};
use ssu_io::{MemShelf, MemSink};
use ssu_status::Status;
use std::alloc::Global;
use std::test::Fail;
use toml_fields::FieldName;
use tool_build::build;

const START: &str =
    "ts = 1\nnetwork = 2\nservice = 3\noui = 4660\ntime = \"2024-03-01T02:00:00\"\npmt_pid = 256\ndata_pid = 258\n";

const GROUP: &str = "[[group]]\nmodel = 7\nversion = 1\nsoftware_model = 1\nsoftware_version = 2\n";

/// A shelf with a plan of so many turns, and with a.bin, the text `123456789`.
fn shelf(alloc: Global, turns: &str, group: &str) -> Result<MemShelf, Fail> {
    let text = format!(in alloc; "{START}turns = {turns}\n{GROUP}{group}\n")?;
    let mut shelf = MemShelf::new(alloc, Vec::new(alloc));
    shelf.add("plan.toml", text.into_bytes())?;
    shelf.add("a.bin", b"123456789".to_vec(alloc)?)?;
    Ok(shelf)
}

/// What came of the command, what was put, and what was printed.
#[derive(Drop)]
struct Outcome {
    status: Status,
    made: MemSink,
    out: MemSink,
}

fn run_build(alloc: Global, mut shelf: MemShelf) -> Outcome {
    let mut made = MemSink::new(alloc, Vec::new(alloc));
    let mut out = MemSink::new(alloc, Vec::new(alloc));
    let status = build(alloc, &mut shelf, &mut made, &mut out);
    Outcome { status, made, out }
}

/// The packets of a plan that is built, where this line is printed.
fn built(alloc: Global, shelf: MemShelf, line: &str) -> Result<Vec<u8>, Fail> {
    let Outcome { status, made, out } = run_build(alloc, shelf);
    if status != Status::Done || out.bytes() != line.as_bytes() {
        return Err(Fail::from("it is not built, or another line is printed"));
    }
    Ok(made.into_bytes())
}

#[test]
fn one_small_file_makes_seven_sections(rt: HostRuntime) -> Result<(), Fail> {
    let alloc = rt.alloc();
    let one = "modules = [\"a.bin\"]";
    let seven = built(alloc, shelf(alloc, "7", one)?, "sections 7 packets 7\n")?;
    same(&rt, &seven.len(), &(7 * 188));
    // The eighth turn sends the data block again, on PID 258.
    let packets = built(alloc, shelf(alloc, "8", one)?, "sections 7 packets 8\n")?;
    assert!(rt; packets.len() == 8 * 188);
    // The packets differ only in their counters, 2 and 3, since DSI and DII go on the same PID before them.
    let header = [0x47, 0x41, 0x02];
    assert!(rt; packets[6 * 188..].starts_with(&header) && packets[7 * 188..].starts_with(&header));
    same(
        &rt,
        &(packets[6 * 188 + 3], packets[7 * 188 + 3]),
        &(0x12, 0x13),
    );
    same(
        &rt,
        &&packets[6 * 188 + 4..7 * 188],
        &&packets[7 * 188 + 4..8 * 188],
    );
    Ok(())
}

#[test]
fn a_file_may_be_mentioned_twice(rt: HostRuntime) -> Result<(), Fail> {
    let alloc = rt.alloc();
    let twice = shelf(alloc, "8", "modules = [\"a.bin\", \"a.bin\"]")?;
    same(
        &rt,
        &built(alloc, twice, "sections 8 packets 8\n")?.len(),
        &(8 * 188),
    );
    Ok(())
}

/// The name in the status, where it has one.
fn name_in(status: &Status) -> Result<FileName, Fail> {
    match status {
        Status::Absent(name) => Ok(*name),
        Status::BuildRefused(BuildFault::ImageTooLong(name)) => Ok(*name),
        _ => Err(Fail::from("no name")),
    }
}

fn field_in(status: &Status) -> Result<FieldName, Fail> {
    match status {
        Status::PlanRefused(field) => Ok(*field),
        _ => Err(Fail::from("no field")),
    }
}

/// The file that is missing or too long. Nothing is put and printed then.
fn bad_file(alloc: Global, shelf: MemShelf) -> Result<FileName, Fail> {
    let Outcome { status, made, out } = run_build(alloc, shelf);
    if !made.bytes().is_empty() || !out.bytes().is_empty() {
        return Err(Fail::from("something is put"));
    }
    name_in(&status)
}

/// The field at which the plan is refused. Nothing is put and printed then.
fn bad_field(alloc: Global, shelf: MemShelf) -> Result<FieldName, Fail> {
    let Outcome { status, made, out } = run_build(alloc, shelf);
    if !made.bytes().is_empty() || !out.bytes().is_empty() {
        return Err(Fail::from("something is put"));
    }
    field_in(&status)
}

#[test]
fn what_is_missing_or_bad_is_named(rt: HostRuntime) -> Result<(), Fail> {
    let alloc = rt.alloc();
    let empty = MemShelf::new(alloc, Vec::new(alloc));
    same(&rt, &bad_file(alloc, empty)?.as_str(), &"plan.toml");
    let missing = shelf(alloc, "7", "modules = [\"a.bin\", \"b.bin\"]")?;
    same(&rt, &bad_file(alloc, missing)?.as_str(), &"b.bin");
    let still = shelf(alloc, "0", "modules = [\"a.bin\"]")?;
    same(&rt, &bad_field(alloc, still)?.as_str(), &"turns");
    Ok(())
}

#[test]
fn a_file_of_65537_blocks_is_too_long(rt: HostRuntime) -> Result<(), Fail> {
    let alloc = rt.alloc();
    let group = "block_size = 1\nmodules = [\"a.bin\", \"b.bin\"]";
    let mut shelf = shelf(alloc, "7", group)?;
    shelf.add("b.bin", vec![in alloc; 1; 65_537]?)?;
    same(&rt, &bad_file(alloc, shelf)?.as_str(), &"b.bin");
    Ok(())
}

#[test]
fn a_sink_that_fails_is_a_write_fault(rt: HostRuntime) -> Result<(), Fail> {
    let alloc = rt.alloc();
    let mut shelf = shelf(alloc, "7", "modules = [\"a.bin\"]")?;
    let mut made = MemSink::new(alloc, vec![in alloc; 1]?);
    let mut out = MemSink::new(alloc, Vec::new(alloc));
    let status = build(alloc, &mut shelf, &mut made, &mut out);
    same(&rt, &status, &Status::WriteFault);
    assert!(rt; made.bytes().is_empty() && out.bytes().is_empty());
    Ok(())
}
