//! Tables that are written and read back, damaged ones, and one that is too long.

ghost use Rattle.std.specs.Prelude.{IfOk};
ghost use Rattle.si_desc.specs.Descriptors.{IsRow};

use crate::check::same;
use section_form::MakeFault;
use si_table::*;
use ssu_time::Utc;
use std::alloc::{AllocError, Global};
use std::test::*;
use ts_crc::crc;
use ts_packet::Pid;

fn pid(number: u16) -> Pid {
    match Pid::new(number % 8192) {
        Some(pid) => pid,
        None => unreachable!(),
    }
}

/// A row of so many descriptors of tag 0x5F, without bytes.
fn empty_descriptors(alloc: Global, count: usize) -> Result<Vec<u8>, AllocError>
    ensures { IfOk result (λ v. IsRow v.items) }
{
    let mut row = Vec::new(alloc);
    for _ in 0..count {
        row.extend_from_slice(&[0x5F, 0])?;
    }
    Ok(row)
}

#[test]
fn pat_and_net_are_read_back(rt: HostRuntime) -> Result<(), Fail> {
    let section = write_pat(rt.alloc(), 1, 3, pid(256)).expect(&rt, "memory");
    assert!(rt; section.starts_with(b"\x00\xB0\x0D\x00\x01\xC1\x00\x00\x00\x03\xE1\x00"));
    let pat = Pat::read(&section).expect(&rt, "a PAT");
    same(&rt, &pat.ts, &1);
    let mut seen = 0u8;
    for program in pat.programs() {
        same(&rt, &(program.number, program.pid.get()), &(3, 256));
        seen = seen.saturating_add(1);
    }
    same(&rt, &seen, &1);
    let info = empty_descriptors(rt.alloc(), 1)?;
    let section = write_net(rt.alloc(), 0x4A, 7, &info, 1, 2).expect(&rt, "memory");
    let Some(net) = Net::read(&section) else {
        panic!(rt; "a BAT");
    };
    same(&rt, &(net.table, net.id), &(0x4A, 7));
    same(&rt, &net.info, &b"\x5F\x00".as_slice());
    let mut seen = 0u8;
    for entry in net.entries() {
        same(&rt, &(entry.ts, entry.network), &(1, 2));
        assert!(rt; entry.info.is_empty());
        seen = seen.saturating_add(1);
    }
    same(&rt, &seen, &1);
    Ok(())
}

#[test]
fn pmt_of_two_streams_is_read_back(rt: HostRuntime) -> Result<(), Fail> {
    let mut writer = PmtWriter::new(rt.alloc(), 3).expect(&rt, "memory");
    let info = empty_descriptors(rt.alloc(), 2)?;
    assert!(rt; writer.stream(0x05, pid(300), &info).is_ok());
    assert!(rt; writer.stream(0x0B, pid(258), &info).is_ok());
    let Ok(section) = writer.finish() else {
        panic!(rt; "memory");
    };
    let Some(pmt) = Pmt::read(&section) else {
        panic!(rt; "a PMT");
    };
    same(&rt, &(pmt.program, pmt.pcr.get()), &(3, 0x1FFF));
    let mut seen = 0u8;
    for stream in pmt.streams() {
        let wanted = if seen == 0 { (0x05, 300) } else { (0x0B, 258) };
        same(&rt, &(stream.kind, stream.pid.get()), &wanted);
        same(&rt, &stream.info, &info.as_slice());
        seen = seen.saturating_add(1);
    }
    same(&rt, &seen, &2);
    Ok(())
}

#[test]
fn times_are_read_back(rt: HostRuntime) -> Result<(), Fail> {
    let time = Utc {
        mjd: 49273,
        second: 45900,
    };
    let section = write_tdt(rt.alloc(), time).expect(&rt, "memory");
    same(
        &rt,
        &section.as_slice(),
        &b"\x70\x70\x05\xC0\x79\x12\x45\x00".as_slice(),
    );
    let info = empty_descriptors(rt.alloc(), 0)?;
    let section = write_tot(rt.alloc(), time, &info).expect(&rt, "memory");
    same(&rt, &section.len(), &14);
    assert!(rt; section.starts_with(b"\x73\x70\x0B\xC0\x79\x12\x45\x00\xF0\x00"));
    same(&rt, &crc(&section), &0);
    match Tot::read(&section) {
        Some(tot) => same(&rt, &tot.time, &time),
        None => panic!(rt; "a TOT"),
    }
    // Hour 24.
    assert!(rt; Tdt::read(b"\x70\x70\x05\xC0\x79\x24\x45\x00").is_none());
    Ok(())
}

// The bodies of damaged tables, each in a section of the long form with the right CRC.
#[test]
fn damaged_tables_are_refused(rt: HostRuntime) -> Result<(), Fail> {
    for (table, number, body) in [
        // A first loop one byte longer than its bytes; an entry loop that ends inside an entry; a byte behind it.
        (0x40, 0, b"\xF0\x01\xF0\x00".as_slice()),
        (0x40, 0, b"\xF0\x00\xF0\x03\x00\x01\x00".as_slice()),
        (0x4A, 0, b"\xF0\x00\xF0\x00\x00".as_slice()),
        // A PAT of five bytes; a PMT of section number 1.
        (0x00, 0, b"\x00\x01\xE1\x00\x00".as_slice()),
        (0x02, 1, b"\xFF\xFF\xF0\x00".as_slice()),
    ] {
        let head = section_form::LongForm {
            table,
            extension: 1,
            version: 0,
            number,
            last: 1,
            body,
        };
        let section = section_form::long_section(rt.alloc(), head, true).expect(&rt, "memory");
        assert!(rt; Pat::read(&section).is_none());
        assert!(rt; Pmt::read(&section).is_none());
        assert!(rt; Net::read(&section).is_none());
    }
    Ok(())
}

#[test]
fn first_loop_of_a_nit_that_is_too_long_is_refused(rt: HostRuntime) -> Result<(), Fail> {
    let info = empty_descriptors(rt.alloc(), 501)?;
    same(&rt, &info.len(), &1002);
    assert!(rt; write_net(rt.alloc(), 0x40, 1, &info, 1, 2).is_ok());
    let info = empty_descriptors(rt.alloc(), 502)?;
    assert!(rt;
        matches!(
            write_net(rt.alloc(), 0x40, 1, &info, 1, 2),
            Err(MakeFault::TooLong)
        )
    );
    Ok(())
}
