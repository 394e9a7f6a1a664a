//! Whole commands over files in memory: the status, what is put, and what the flash holds.

ghost use Rattle.std.specs.Prelude.{◌+◌, ◌≤◌};

use crate::check::same;
use crate::commands::{Outcome, done, outcome_on, owned};
use flash_dev::SureFlash;
use ssu_io::{MemShelf, MemSink, MemSource};
use ssu_status::Status;
use ssu_tool::run;
use std::alloc::{AllocError, Global};
use std::process::Abort;
use std::test::Fail;
use ts_crc::crc;
use ts_packet::Pid;
use ts_section::{LongForm, cut, long_section};

/// A packet of PID 20 with one TDT section.
const TDT_PACKET: [u8; 13] = [
    0x47, 0x40, 0x14, 0x10, 0x00, 0x70, 0x70, 0x05, 0xC0, 0x79, 0x12, 0x45, 0x00,
];

/// A packet of PID 0 with the PAT that FFmpeg writes for one service on PID 4096.
const PAT_PACKET: [u8; 21] = [
    0x47, 0x40, 0x00, 0x10, 0x00, 0x00, 0xB0, 0x0D, 0x00, 0x01, 0xC1, 0x00, 0x00, 0x00, 0x01, 0xF0,
    0x00, 0x2A, 0xB1, 0x04, 0xB2,
];

/// The bytes, filled up to a packet.
fn add_packet(bytes: &mut Vec<u8>, front: &[u8]) -> Result<(), AllocError> {
    bytes.extend_from_slice(front)?;
    for _ in front.len()..188 {
        bytes.push(0xFF)?;
    }
    Ok(())
}

/// A command over no file, these packets and a blank flash, where calls of the packets and of the output fail.
fn outcome_of(
    alloc: Global,
    words: &[&str],
    packets: &[u8],
    fails: &[u32],
    sink_fails: &[u32],
) -> Result<Outcome, Fail> {
    let words = owned(alloc, words)?;
    let mut shelf = MemShelf::new(alloc, Vec::new(alloc));
    let mut flash = SureFlash::blank(alloc, 4, 256)?;
    let mut air = MemSource::new(packets.to_vec(alloc)?, 1000, fails.to_vec(alloc)?);
    let mut made = MemSink::new(alloc, Vec::new(alloc));
    let mut out = MemSink::new(alloc, sink_fails.to_vec(alloc)?);
    let status = run(
        alloc, &words, &mut shelf, &mut air, &mut flash, &mut made, &mut out,
    );
    Ok(Outcome {
        status,
        put: out.into_bytes(),
        made: made.into_bytes(),
    })
}

/// Hears the sections of a PID, which are put.
fn hears(
    rt: &impl Abort,
    alloc: Global,
    pid: &str,
    packets: &[u8],
    put: &[u8],
) -> Result<(), Fail> {
    let outcome = outcome_of(alloc, &["folder", "hear", pid], packets, &[], &[])?;
    same(rt, &(pid, outcome.status), &(pid, Status::Done));
    same(rt, &(pid, outcome.put.as_slice()), &(pid, put));
    assert!(rt; outcome.made.is_empty());
    Ok(())
}

#[test]
fn hear_puts_the_sections_of_its_pid(rt: HostRuntime) -> Result<(), Fail> {
    let alloc = rt.alloc();
    let mut air = Vec::new(alloc);
    add_packet(&mut air, &TDT_PACKET)?;
    add_packet(&mut air, &PAT_PACKET)?;
    air.extend_from_slice(&[0x47; 100])?;
    // the PID, the packets, what is put
    let rows: [(&str, &[u8], &[u8]); 4] = [
        ("20", &air, &TDT_PACKET[5..]),
        ("0", &air, &PAT_PACKET[5..]),
        ("21", &air, &[]),
        ("0", &[], &[]),
    ];
    for (pid, packets, put) in rows {
        hears(&rt, alloc, pid, packets, put)?;
    }
    Ok(())
}

#[test]
fn faults_are_told_from_each_other(rt: HostRuntime) -> Result<(), Fail> {
    let alloc = rt.alloc();
    let mut air = Vec::new(alloc);
    add_packet(&mut air, &TDT_PACKET)?;
    // words, failing calls of the source and of the output, status, how many bytes are put
    let rows: [(&[&str], &[u32], &[u32], Status, usize); 6] = [
        (&[], &[], &[], Status::Usage, 0),
        (&["folder", "hear", "8192"], &[], &[], Status::Usage, 0),
        (&["folder", "hear", "007"], &[1], &[], Status::Usage, 0),
        (&["folder", "hear", "0"], &[2], &[], Status::ReadFault, 0),
        (&["folder", "hear", "20"], &[2], &[], Status::ReadFault, 8),
        (&["folder", "hear", "20"], &[], &[1], Status::WriteFault, 0),
    ];
    for (words, fails, sink_fails, status, put) in rows {
        let outcome = outcome_of(alloc, words, &air, fails, sink_fails)?;
        same(&rt, &outcome.status, &status);
        same(&rt, &outcome.put.len(), &put);
    }
    Ok(())
}

#[test]
fn random_bytes_and_unusable_packets_are_passed_over(rt: HostRuntime) -> Result<(), Fail> {
    let alloc = rt.alloc();
    let mut air = Vec::new(alloc);
    let mut seed = 1u32;
    for _ in 0..40 * 188usize {
        seed = seed.wrapping_mul(1_664_525).wrapping_add(1_013_904_223);
        air.push(seed.to_be_bytes()[0] & 0xB8)?;
    }
    // Places and values of the header that make the packet unusable.
    let broken = [
        (0usize, 0x46u8),
        (1, 0xC0),
        (3, 0x50),
        (3, 0x00),
        (3, 0x20),
        (4, 0xB7),
    ];
    for (place, value) in broken {
        let mut packet = TDT_PACKET;
        packet[place] = value;
        add_packet(&mut air, &packet)?;
    }
    add_packet(&mut air, &TDT_PACKET)?;
    hears(&rt, alloc, "20", &air, &TDT_PACKET[5..])
}

#[test]
fn a_pat_is_heard_unless_a_bit_of_it_changed(rt: HostRuntime) -> Result<(), Fail> {
    let alloc = rt.alloc();
    let head = LongForm {
        table: 0x00,
        extension: 1,
        version: 0,
        number: 0,
        last: 0,
        body: &[0x00, 0x03, 0xE1, 0x00],
    };
    let section = long_section(alloc, head, false)?;
    assert!(rt; section.len() == 16);
    assert!(rt; section[0] == 0x00);
    let mut air = Vec::new(alloc);
    let _counter = cut(&section, Pid::new(0).expect(&rt, "a PID"), 0, &mut air)?;
    hears(&rt, alloc, "0", &air, &section)?;
    for place in 5..21usize {
        let mut changed = air.clone()?;
        assert!(rt; changed.len() == 188);
        changed[place] ^= 0x10;
        hears(&rt, alloc, "0", &changed, &[])?;
    }
    Ok(())
}

const BOX: &str = "oui = 4660
model = 7
version = 1
rule = \"newer\"
software_model = 1
software_version = 1
";

const PLAN: &str = "ts = 1
network = 2
service = 3
oui = 4660
time = \"2024-03-01T02:00:00\"
pmt_pid = 256
data_pid = 258
turns = 40
[[group]]
model = 7
version = 1
software_model = 1
software_version = 2
modules = [\"a.bin\"]
";

const FOUND: &str = "1 services 1
2 program 3 pid 256
3 component 258 type 1
4 direct
5 carousel 258
6 groups 1
7 modules 1 bytes 9
";

fn shelf_with(alloc: Global, plan: &str) -> Result<MemShelf, Fail> {
    let mut shelf = MemShelf::new(alloc, Vec::new(alloc));
    for (name, text) in [
        ("box.toml", BOX),
        ("plan.toml", plan),
        ("a.bin", "123456789"),
    ] {
        shelf.add(name, text.as_bytes().to_vec(alloc)?)?;
    }
    Ok(shelf)
}

#[test]
fn a_built_stream_is_found_and_loaded(rt: HostRuntime) -> Result<(), Fail> {
    let alloc = rt.alloc();
    let mut shelf = shelf_with(alloc, PLAN)?;
    let mut flash = SureFlash::blank(alloc, 4, 256)?;
    let line = "sections 7 packets 40\n";
    let air = done(
        &rt,
        alloc,
        &["folder", "build"],
        &mut shelf,
        &[],
        &mut flash,
        line,
    )?;
    same(&rt, &air.len(), &(40 * 188usize));
    done(
        &rt,
        alloc,
        &["folder", "find"],
        &mut shelf,
        &air,
        &mut flash,
        FOUND,
    )?;
    let line = "loaded group 2147483650 bytes 9\n";
    let load = ["folder", "load", "258"];
    let loaded = done(&rt, alloc, &load, &mut shelf, &air, &mut flash, line)?;
    same(&rt, &loaded.as_slice(), &"123456789".as_bytes());
    Ok(())
}

/// The packets of the plan's first seven turns: NIT, PAT, TDT, PMT, DSI, DII and DDB.
const FIRST_LEN: usize = 7 * 188;

/// Where the section of the DII begins, and the CRC of its module; where the CRC of the section begins.
const DII_AT: usize = 5 * 188 + 5;

const MODULE_CRC_AT: usize = DII_AT + 50;

const SECTION_CRC_AT: usize = DII_AT + 56;

/// The four bytes at a place of the packets.
fn four_at(packets: &[u8; FIRST_LEN], at: usize) -> [u8; 4]
    requires { at + 4 ≤ 1316 }
{
    [
        packets[at],
        packets[at + 1],
        packets[at + 2],
        packets[at + 3],
    ]
}

/// Puts four bytes to a place of the packets.
fn put_four(packets: &mut [u8; FIRST_LEN], at: usize, four: [u8; 4])
    requires { at + 4 ≤ 1316 }
{
    packets[at..at + 4].copy_from_slice(&four);
}

/// The CRC of the section of the DII, of the bytes before it.
fn dii_crc(packets: &[u8; FIRST_LEN]) -> [u8; 4] {
    crc(&packets[DII_AT..SECTION_CRC_AT]).to_be_bytes()
}

/// The same packets, where the DII states zeros in place of this CRC of its module.
fn with_zeros(packets: &[u8], module_crc: [u8; 4]) -> Result<[u8; FIRST_LEN], Fail> {
    let mut changed = [0; FIRST_LEN];
    if packets.len() != FIRST_LEN {
        return Err("not seven packets".into());
    }
    changed.copy_from_slice(packets);
    if four_at(&changed, MODULE_CRC_AT) != module_crc {
        return Err("not the CRC of the module".into());
    }
    put_four(&mut changed, MODULE_CRC_AT, [0; 4]);
    let crc = dii_crc(&changed);
    put_four(&mut changed, SECTION_CRC_AT, crc);
    Ok(changed)
}

/// The packets of the plan, where a.bin has this text.
fn built_of(alloc: Global, text: &str) -> Result<Vec<u8>, Fail> {
    let mut shelf = MemShelf::new(alloc, Vec::new(alloc));
    shelf.add("plan.toml", PLAN.as_bytes().to_vec(alloc)?)?;
    shelf.add("a.bin", text.as_bytes().to_vec(alloc)?)?;
    let mut flash = SureFlash::blank(alloc, 4, 256)?;
    let built = outcome_on(alloc, &["folder", "build"], &mut shelf, &[], &mut flash)?;
    Ok(built.made)
}

#[test]
fn a_built_stream_that_was_changed_is_not_loaded(rt: HostRuntime) -> Result<(), Fail> {
    let alloc = rt.alloc();
    let built = built_of(alloc, "123456789")?;
    let (Some(packets), Some(without_block)) = (built.get(..FIRST_LEN), built.get(..6 * 188)) else {
        return Err("not seven packets".into());
    };
    let zeros = with_zeros(packets, [0x03, 0x76, 0xE6, 0xE7])?;
    // What is loaded, the exit code and the line.
    let rows: [(&[u8], u8, &str); 3] = [
        (packets, 0, "loaded group 2147483650 bytes 9\n"),
        (&zeros, 8, "bad module 1 want 00000000 found 0376e6e7\n"),
        (without_block, 7, "incomplete group 2147483650 missing 1\n"),
    ];
    for (air, code, line) in rows {
        let loaded = outcome_of(alloc, &["folder", "load", "258"], air, &[], &[])?;
        same(&rt, &loaded.status.code(), &code);
        same(&rt, &loaded.put.as_slice(), &line.as_bytes());
        same(&rt, &loaded.made.is_empty(), &(code != 0));
    }
    Ok(())
}

#[test]
fn a_built_stream_is_audited(rt: HostRuntime) -> Result<(), Fail> {
    let alloc = rt.alloc();
    let one = built_of(alloc, "123456789")?;
    let other = built_of(alloc, "123456780")?;
    let (Some(first), Some(without_block), Some(second)) = (
        one.get(..FIRST_LEN),
        one.get(..6 * 188),
        other.get(..FIRST_LEN),
    ) else {
        return Err("not seven packets".into());
    };
    let zeros = with_zeros(first, [0x03, 0x76, 0xE6, 0xE7])?;
    let other_zeros = with_zeros(second, [0x21, 0xBF, 0x16, 0xE8])?;
    // What is sent, and then behind it, the exit code and the line.
    let rows: [(&[u8], &[u8], u8, &str); 5] = [
        (one.as_slice(), &[], 0, "audit ok groups 1 blocks 1\n"),
        (without_block, &[], 21, "missing 2147483650 place 0\n"),
        (&[], &[], 21, "no dsi\n"),
        (first, second, 21, "differ dii 1 4\n"),
        (&zeros, &other_zeros, 21, "differ block 2 5\n"),
    ];
    for (air, behind, code, line) in rows {
        let mut packets = air.to_vec(alloc)?;
        packets.extend_from_slice(behind)?;
        let audited = outcome_of(alloc, &["folder", "audit", "258"], &packets, &[], &[])?;
        same(&rt, &audited.status.code(), &code);
        same(&rt, &audited.put.as_slice(), &line.as_bytes());
        assert!(rt; audited.made.is_empty());
    }
    Ok(())
}

const NOTICE: &str = "ts = 1
network = 2
service = 3
oui = 4660
time = \"2024-03-05T02:00:00\"
pmt_pid = 256
data_pid = 258
notice_pid = 257
turns = 8
[schedule]
start = \"2024-03-01T01:00:00\"
end = \"2024-04-01T01:00:00\"
period_hours = 24
duration_hours = 2
[[group]]
model = 7
version = 1
software_model = 1
software_version = 2
modules = [\"a.bin\"]
";

/// The lines of the levels, where they have a value and where they have none.
const FOUND_LINES: [&str; 7] = [
    "1 services 1\n",
    "2 program 3 pid 256\n",
    "3 component 257 type 2\n",
    "4 notices 1\n",
    "5 carousel 258\n",
    "6 groups 1\n",
    "7 modules 1 bytes 9\n",
];

const NONE_LINES: [&str; 7] = [
    "1 none\n", "2 none\n", "3 none\n", "4 none\n", "5 none\n", "6 none\n", "7 none\n",
];

/// The seven lines where so many levels have a value.
fn lines_of(alloc: Global, levels: usize) -> Result<Vec<u8>, AllocError> {
    let mut lines = Vec::new(alloc);
    for level in 0..7usize {
        let line = if level < levels {
            FOUND_LINES[level]
        } else {
            NONE_LINES[level]
        };
        lines.extend_from_slice(line.as_bytes())?;
    }
    Ok(lines)
}

/// The first eight packets without one of them.
fn without(alloc: Global, packets: &[u8], left_out: usize) -> Result<Vec<u8>, AllocError> {
    let mut others = Vec::new(alloc);
    if packets.len() < 8 * 188 {
        return Ok(others);
    }
    for k in 0..8usize {
        if k != left_out {
            others.extend_from_slice(&packets[188 * k..188 * k + 188])?;
        }
    }
    Ok(others)
}

#[test]
fn a_level_ends_where_its_section_is_left_out(rt: HostRuntime) -> Result<(), Fail> {
    let alloc = rt.alloc();
    let mut shelf = shelf_with(alloc, NOTICE)?;
    let mut flash = SureFlash::blank(alloc, 4, 256)?;
    let line = "sections 8 packets 8\n";
    let built = done(
        &rt,
        alloc,
        &["folder", "build"],
        &mut shelf,
        &[],
        &mut flash,
        line,
    )?;
    // The packet that is left out (NIT, PAT, PMT, UNT, TDT, DSI, DII, DDB), and how many levels have a value then.
    let rows = [
        (0usize, 0usize),
        (1, 1),
        (3, 2),
        (4, 3),
        (2, 4),
        (5, 5),
        (6, 6),
        (7, 7),
    ];
    for (left_out, levels) in rows {
        let air = without(alloc, &built, left_out)?;
        let found = outcome_on(alloc, &["folder", "find"], &mut shelf, &air, &mut flash)?;
        same(&rt, &found.status, &Status::Done);
        same(
            &rt,
            &found.put.as_slice(),
            &lines_of(alloc, levels)?.as_slice(),
        );
    }
    Ok(())
}

#[test]
fn a_formatted_flash_is_booted(rt: HostRuntime) -> Result<(), Fail> {
    let alloc = rt.alloc();
    let mut shelf = shelf_with(alloc, PLAN)?;
    let mut flash = SureFlash::blank(alloc, 4, 4096)?;
    let blank = ["folder", "blank", "4"];
    let blank = done(&rt, alloc, &blank, &mut shelf, &[], &mut flash, "blank 4\n")?;
    same(&rt, &blank.len(), &(4 * 4096usize));
    same(&rt, &blank.as_slice(), &flash.contents());
    let foreign = outcome_on(alloc, &["folder", "boot"], &mut shelf, &[], &mut flash)?;
    same(&rt, &foreign.status, &Status::Foreign);
    let format = ["folder", "format", "a.bin"];
    let line = "formatted bytes 9\n";
    done(&rt, alloc, &format, &mut shelf, &[], &mut flash, line)?;
    let line = "boot bank 0 number 1 software 1.1 bytes 9\n";
    let image = done(
        &rt,
        alloc,
        &["folder", "boot"],
        &mut shelf,
        &[],
        &mut flash,
        line,
    )?;
    same(&rt, &image.as_slice(), &"123456789".as_bytes());
    Ok(())
}

#[test]
fn a_built_stream_is_installed_and_booted(rt: HostRuntime) -> Result<(), Fail> {
    let alloc = rt.alloc();
    let mut shelf = shelf_with(alloc, PLAN)?;
    let mut flash = SureFlash::blank(alloc, 4, 4096)?;
    let line = "sections 7 packets 40\n";
    let air = done(
        &rt,
        alloc,
        &["folder", "build"],
        &mut shelf,
        &[],
        &mut flash,
        line,
    )?;
    // box.toml is the old image
    let format = ["folder", "format", "box.toml"];
    let line = "formatted bytes 88\n";
    done(&rt, alloc, &format, &mut shelf, &[], &mut flash, line)?;
    let line = "installed group 2147483650 software 1.2 bytes 9\n";
    let made = done(
        &rt,
        alloc,
        &["folder", "replay"],
        &mut shelf,
        &air,
        &mut flash,
        line,
    )?;
    assert!(rt; made.is_empty());
    let line = "boot bank 1 number 2 software 1.2 bytes 9\n";
    let image = done(
        &rt,
        alloc,
        &["folder", "boot"],
        &mut shelf,
        &[],
        &mut flash,
        line,
    )?;
    same(&rt, &image.as_slice(), &"123456789".as_bytes());
    Ok(())
}

/// A first loop of 17 linkages of type 0x09 for the OUI 4660, and no entry.
fn linkages(alloc: Global) -> Result<Vec<u8>, AllocError> {
    let mut body = [0xF0, 238].to_vec(alloc)?;
    for service in 1..18u8 {
        body.extend_from_slice(&[
            0x4A, 12, 0, 1, 0, 2, 0, service, 0x09, 4, 0x00, 0x12, 0x34, 0,
        ])?;
    }
    body.extend_from_slice(&[0xF0, 0])?;
    Ok(body)
}

#[test]
fn the_first_sixteen_of_seventeen_services_are_kept(rt: HostRuntime) -> Result<(), Fail> {
    let alloc = rt.alloc();
    let body = linkages(alloc)?;
    assert!(rt; body.len() == 242);
    let head = LongForm {
        table: 0x40,
        extension: 2,
        version: 0,
        number: 0,
        last: 0,
        body: &body,
    };
    let section = long_section(alloc, head, true)?;
    assert!(rt; section.len() == 254);
    assert!(rt; section[0] == 0x40);
    let mut air = Vec::new(alloc);
    let _counter = cut(&section, Pid::new(0x10).expect(&rt, "a PID"), 0, &mut air)?;
    let mut shelf = shelf_with(alloc, PLAN)?;
    let mut flash = SureFlash::blank(alloc, 4, 256)?;
    let found = outcome_on(alloc, &["folder", "find"], &mut shelf, &air, &mut flash)?;
    same(&rt, &found.status, &Status::Done);
    assert!(rt; found.put.starts_with("1 services 16\n2 none\n".as_bytes()));
    Ok(())
}

#[test]
fn a_sample_prints_what_came_of_it(rt: HostRuntime) -> Result<(), Fail> {
    let alloc = rt.alloc();
    let rows = [
        (
            "0",
            "sample 0 modules 1 bytes 50000 sections 55
installed group 2147483650 software 1.2 bytes 50000
boot bank 1 number 2 software 1.2 bytes 50000
",
        ),
        (
            "5",
            "sample 5 modules 3 bytes 244000 sections 246
installed group 2147483650 software 1.2 bytes 244000
boot bank 1 number 2 software 1.2 bytes 244000
",
        ),
        (
            "999999",
            "sample 999999 modules 1 bytes 93000 sections 97
installed group 2147483650 software 1.2 bytes 93000
boot bank 1 number 2 software 1.2 bytes 93000
",
        ),
    ];
    for (number, lines) in rows {
        let outcome = outcome_of(alloc, &["folder", "sample", number], &[], &[], &[])?;
        same(&rt, &outcome.status, &Status::Done);
        same(&rt, &outcome.put.as_slice(), &lines.as_bytes());
        assert!(rt; outcome.made.is_empty());
    }
    Ok(())
}
