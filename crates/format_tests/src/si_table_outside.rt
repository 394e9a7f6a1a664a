//! Sections that tshark 4.0.17 (Wireshark) and libdvbpsi 1.3.3 were seen to accept with the same fields, and whose CRC
//! tshark found right. The script outside/tables.py of the repository makes the comparison again.

use crate::check::same;
use si_table::*;
use std::test::*;

const PAT: &[u8] =
    b"\x00\xB0\x15\x00\x01\xC1\x00\x00\x00\x00\xE0\x10\x00\x03\xE1\x00\x00\x04\xE1\xF0\x8D\x24\x67\x56";

const PMT: &[u8] =
    b"\x02\xB0\x28\x00\x03\xC1\x00\x00\xFF\xFF\xF0\x00\x05\xE1\x03\xF0\x0E\x52\x01\x01\x66\x09\x00\x0A\x06\
      \x00\x12\x34\xF2\xC0\x00\x0B\xE1\x02\xF0\x03\x52\x01\x02\x83\xCB\x52\x10";

const NIT: &[u8] =
    b"\x40\xF0\x26\x00\x02\xC1\x00\x00\xF0\x0E\x4A\x0C\x00\x01\x00\x02\x00\x03\x09\x04\x00\x12\x34\x00\xF0\
      \x0B\x00\x01\x00\x02\xF0\x05\x41\x03\x00\x03\x0C\xAE\x39\x0B\x45";

const BAT: &[u8] =
    b"\x4A\xF0\x26\x01\x02\xC1\x00\x00\xF0\x0E\x4A\x0C\x00\x01\x00\x02\x00\x03\x09\x04\x00\x12\x34\x00\xF0\
      \x0B\x00\x01\x00\x02\xF0\x05\x41\x03\x00\x03\x0C\x24\xFE\xB5\xA6";

const TDT: &[u8] = b"\x70\x70\x05\xC0\x79\x12\x45\x00";

const TOT: &[u8] =
    b"\x73\x70\x1A\xC0\x79\x12\x45\x00\xF0\x0F\x58\x0D\x47\x42\x52\x04\x00\x00\xC0\x7C\x00\x00\x00\x01\x00\xDB\xE0\x9B\x83";

#[test]
fn pat_and_pmt_have_the_fields_that_other_decoders_read(rt: HostRuntime) -> Result<(), Fail> {
    let pat = Pat::read(PAT).expect(&rt, "a PAT");
    same(&rt, &pat.ts, &1);
    let mut programs = Vec::new(rt.alloc());
    for program in pat.programs() {
        programs.push((program.number, program.pid.get()))?;
    }
    same(
        &rt,
        &programs.as_slice(),
        &[(0, 16), (3, 256), (4, 496)].as_slice(),
    );

    let Some(pmt) = Pmt::read(PMT) else {
        panic!(rt; "a PMT");
    };
    same(&rt, &(pmt.program, pmt.pcr.get()), &(3, 8191));
    let mut streams = Vec::new(rt.alloc());
    for stream in pmt.streams() {
        streams.push((stream.kind, stream.pid.get(), stream.info.len()))?;
    }
    same(
        &rt,
        &streams.as_slice(),
        &[(5, 259, 14), (11, 258, 3)].as_slice(),
    );
    Ok(())
}

#[test]
fn nit_and_bat_have_the_fields_that_other_decoders_read(rt: HostRuntime) -> Result<(), Fail> {
    for (section, table, id) in [(NIT, 0x40, 2), (BAT, 0x4A, 258)] {
        let Some(net) = Net::read(section) else {
            panic!(rt; "a NIT or a BAT");
        };
        same(&rt, &(net.table, net.id), &(table, id));
        assert!(rt;
            net.info
                .starts_with(b"\x4A\x0C\x00\x01\x00\x02\x00\x03\x09")
        );
        let mut entries = Vec::new(rt.alloc());
        for entry in net.entries() {
            entries.push((entry.ts, entry.network, entry.info.len()))?;
        }
        same(&rt, &entries.as_slice(), &[(1, 2, 5)].as_slice());
    }
    Ok(())
}

#[test]
fn tdt_and_tot_have_the_time_that_other_decoders_read(rt: HostRuntime) {
    match Tdt::read(TDT) {
        Some(tdt) => same(&rt, &tdt.time.text(), &*b"1993-10-13T12:45:00"),
        None => panic!(rt; "a TDT"),
    }
    match Tot::read(TOT) {
        Some(tot) => {
            same(&rt, &tot.time.text(), &*b"1993-10-13T12:45:00");
            same(&rt, &tot.info.len(), &15);
        }
        None => panic!(rt; "a TOT"),
    }
}
