//! Small streams through scripts on a shelf in memory: what is put and printed, and what is refused.

use crate::check::same;
use ssu_io::{MemShelf, MemSink, MemSource};
use ssu_status::Status;
use std::alloc::Global;
use std::test::Fail;
use toml_fields::FieldName;
use tool_air::air;

/// What came of the command, what was put, and what was printed.
#[derive(Drop)]
struct Outcome {
    status: Status,
    made: MemSink,
    out: MemSink,
}

/// The packets of which each has 188 times the same letter.
fn packets(alloc: Global, letters: &str) -> Result<Vec<u8>, Fail> {
    let mut bytes = Vec::new(alloc);
    for letter in letters.as_bytes() {
        for _ in 0..188 {
            bytes.push(*letter)?;
        }
    }
    Ok(bytes)
}

/// Runs the command on the packets of these letters. The source fails at its calls of `fails`.
fn run_air(alloc: Global, script: &str, letters: &str, fails: Vec<u32>) -> Result<Outcome, Fail> {
    let mut shelf = MemShelf::new(alloc, Vec::new(alloc));
    shelf.add("script.toml", script.as_bytes().to_vec(alloc)?)?;
    let mut source = MemSource::new(packets(alloc, letters)?, 188, fails);
    let mut made = MemSink::new(alloc, Vec::new(alloc));
    let mut out = MemSink::new(alloc, Vec::new(alloc));
    let status = air(alloc, &mut shelf, &mut source, &mut made, &mut out);
    Ok(Outcome { status, made, out })
}

/// Whether the script makes packets of these letters of those, and this line is printed.
fn becomes(
    alloc: Global,
    script: &str,
    before: &str,
    after: &str,
    line: &str,
) -> Result<bool, Fail> {
    let Outcome { status, made, out } = run_air(alloc, script, before, Vec::new(alloc))?;
    let wanted = packets(alloc, after)?;
    Ok(
        status == Status::Done
            && made.bytes() == wanted.as_slice()
            && out.bytes() == line.as_bytes(),
    )
}

#[test]
fn packets_are_lost_repeated_and_exchanged(rt: HostRuntime) -> Result<(), Fail> {
    let alloc = rt.alloc();
    // the script, the packets, what becomes of them, the line
    let rows = [
        (
            "drop = [0]\nrepeat = [2]\nswap = [1]",
            "abcd",
            "cbbd",
            "packets 4\n",
        ),
        ("", "abcd", "abcd", "packets 4\n"),
        ("", "", "", "packets 0\n"),
        (
            "drop_every = 2\ndrop_until = 4",
            "abcdef",
            "acef",
            "packets 4\n",
        ),
        ("swap = [3]", "abcd", "abcd", "packets 4\n"),
        ("repeat = [0]\ndrop = [0]", "ab", "b", "packets 1\n"),
        ("unknown = 1\ndrop = [9]", "ab", "ab", "packets 2\n"),
    ];
    for (script, before, after, line) in rows {
        same(
            &rt,
            &(script, becomes(alloc, script, before, after, line)?),
            &(script, true),
        );
    }
    Ok(())
}

#[test]
fn a_changed_byte_changes_its_place_with_its_packet(rt: HostRuntime) -> Result<(), Fail> {
    let alloc = rt.alloc();
    let script = "set = [[0, 187, 33], [1, 0, 63]]\nswap = [0]";
    let outcome = run_air(alloc, script, "ab", Vec::new(alloc))?;
    let bytes = outcome.made.bytes();
    same(&rt, &bytes.first(), &Some(&63));
    same(&rt, &bytes.get(1), &Some(&98));
    same(&rt, &bytes.last(), &Some(&33));
    Ok(())
}

/// The field at which the script is refused, where nothing is put and printed.
fn bad_field(alloc: Global, script: &str) -> Result<FieldName, Fail> {
    let Outcome { status, made, out } = run_air(alloc, script, "ab", Vec::new(alloc))?;
    if !made.bytes().is_empty() || !out.bytes().is_empty() {
        return Err(Fail::from("something is put"));
    }
    match status {
        Status::PlanRefused(field) => Ok(field),
        _ => Err(Fail::from("no field")),
    }
}

#[test]
fn the_first_bad_field_is_named(rt: HostRuntime) -> Result<(), Fail> {
    let alloc = rt.alloc();
    let rows = [
        ("drop", "script.text"),
        ("set = [[0, 188, 1]]\nswap = 1", "script.set"),
        ("set = [[0, 1]]", "script.set"),
        ("set = [[1, 0, 0], [0, 5, 0]]", "script.set"),
        ("set = [[1, 5, 0], [1, 5, 1]]", "script.set"),
        ("set = [[0, 0, 256]]", "script.set"),
        ("swap = [1, 2]", "script.swap"),
        ("drop = [16777216]", "script.drop"),
        ("drop = [2, 2]", "script.drop"),
        ("repeat = [-1]", "script.repeat"),
        ("repeat = [1.0]", "script.repeat"),
        ("drop_every = 1\ndrop_until = 9", "script.drop_every"),
        ("drop_every = 65536\ndrop_until = 9", "script.drop_every"),
        ("drop_every = 2", "script.drop_until"),
        ("drop_until = 2", "script.drop_every"),
        ("drop_every = 2\ndrop_until = 16777217", "script.drop_until"),
    ];
    for (script, field) in rows {
        same(&rt, &bad_field(alloc, script)?.as_str(), &field);
    }
    Ok(())
}

#[test]
fn a_fault_ends_the_run(rt: HostRuntime) -> Result<(), Fail> {
    let alloc = rt.alloc();
    // the third packet is not taken: what was taken is put, and no line is printed
    let fails = [3].to_vec(alloc)?;
    let failed = run_air(alloc, "swap = [1]", "abcd", fails)?;
    same(&rt, &failed.status, &Status::ReadFault);
    let wanted = packets(alloc, "ab")?;
    same(&rt, &failed.made.bytes(), &wanted.as_slice());
    assert!(rt; failed.out.bytes().is_empty());
    Ok(())
}

#[test]
fn a_sink_that_fails_is_a_write_fault(rt: HostRuntime) -> Result<(), Fail> {
    let alloc = rt.alloc();
    // in turn the file that is made fails, and the printed line
    for (made_fails, out_fails, put) in [(1, 0, 0), (0, 1, 188)] {
        let mut shelf = MemShelf::new(alloc, Vec::new(alloc));
        shelf.add("script.toml", Vec::new(alloc))?;
        let mut source = MemSource::new(packets(alloc, "a")?, 100, Vec::new(alloc));
        let mut made = MemSink::new(alloc, [made_fails].to_vec(alloc)?);
        let mut out = MemSink::new(alloc, [out_fails].to_vec(alloc)?);
        let status = air(alloc, &mut shelf, &mut source, &mut made, &mut out);
        same(&rt, &status, &Status::WriteFault);
        same(&rt, &made.bytes().len(), &put);
        assert!(rt; out.bytes().is_empty());
    }
    Ok(())
}

#[test]
fn a_script_that_is_missing_is_named(rt: HostRuntime) -> Result<(), Fail> {
    let alloc = rt.alloc();
    let mut shelf = MemShelf::new(alloc, Vec::new(alloc));
    let mut source = MemSource::new(packets(alloc, "a")?, 100, Vec::new(alloc));
    let mut made = MemSink::new(alloc, Vec::new(alloc));
    let mut out = MemSink::new(alloc, Vec::new(alloc));
    match air(alloc, &mut shelf, &mut source, &mut made, &mut out) {
        Status::Absent(name) => same(&rt, &name.as_str(), &"script.toml"),
        _ => return Err(Fail::from("no name")),
    }
    Ok(())
}
