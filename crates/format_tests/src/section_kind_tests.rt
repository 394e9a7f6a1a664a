//! Sections off their grammar, blocks of the greatest length, and both tables of time, by the kind that they have.

use crate::check::{same, same_at};
use section_form::{LongForm, long_section};
use section_kind::{SectionKind, kind};
use si_table::write_tdt;
use ssu_time::Utc;
use std::alloc::{AllocError, Global};
use std::test::Fail;
use ts_crc::crc;

/// A section of the long form, by its table_id, its section number and its body.
fn section(alloc: Global, table: u8, number: u8, body: &[u8]) -> Result<Vec<u8>, Fail> {
    if body.len() > 4084 {
        return Err(Fail::from("a shorter body"));
    }
    let head = LongForm {
        table,
        extension: 1,
        version: 0,
        number,
        last: number,
        body,
    };
    Ok(long_section(alloc, head, false).ok().ok_or("memory")?)
}

/// A DDB of so many bytes, as the body of a section.
fn block_of(alloc: Global, len: u16) -> Result<Vec<u8>, AllocError> {
    let mut body = Vec::from_slice(alloc, b"\x11\x03\x10\x03\x80\x00\x00\x02\xFF\x00")?;
    body.extend_from_slice(&len.saturating_add(6).to_be_bytes())?;
    body.extend_from_slice(b"\x00\x01\x00\xFF\x00\x00")?;
    for _ in 0..len {
        body.push(0x55)?;
    }
    Ok(body)
}

#[test]
fn a_section_off_its_grammar_has_no_kind(rt: HostRuntime) -> Result<(), Fail> {
    // the kind of the right one, table_id, the body of the right one, section number and body of the wrong one
    let rows: [(SectionKind, u8, &[u8], u8, &[u8]); 11] = [
        // the first loop's length is one more than its bytes
        (
            SectionKind::Nit,
            0x40,
            b"\xF0\x02\x5F\x00\xF0\x00",
            0,
            b"\xF0\x03\x5F\x00\xF0\x00",
        ),
        // the entry loop ends inside an entry
        (
            SectionKind::Bat,
            0x4A,
            b"\xF0\x00\xF0\x06\x00\x01\x00\x02\xF0\x00",
            0,
            b"\xF0\x00\xF0\x05\x00\x01\x00\x02\xF0",
        ),
        // five bytes of programs
        (
            SectionKind::Pat,
            0x00,
            b"\x00\x03\xE1\x00",
            0,
            b"\x00\x03\xE1\x00\x00",
        ),
        // section_number 1
        (
            SectionKind::Pmt,
            0x02,
            b"\xFF\xFF\xF0\x00",
            1,
            b"\xFF\xFF\xF0\x00",
        ),
        // NumberOfGroups 2 and one group
        (
            SectionKind::Dsi,
            0x3B,
            b"\x11\x03\x10\x06\x80\x00\x00\x00\xFF\x00\x00\x28\
              \xFF\xFF\xFF\xFF\xFF\xFF\xFF\xFF\xFF\xFF\xFF\xFF\xFF\xFF\xFF\xFF\xFF\xFF\xFF\xFF\x00\x00\x00\x10\
              \x00\x01\x80\x00\x00\x02\x00\x00\x00\x09\x00\x00\x00\x00\x00\x00",
            0,
            b"\x11\x03\x10\x06\x80\x00\x00\x00\xFF\x00\x00\x28\
              \xFF\xFF\xFF\xFF\xFF\xFF\xFF\xFF\xFF\xFF\xFF\xFF\xFF\xFF\xFF\xFF\xFF\xFF\xFF\xFF\x00\x00\x00\x10\
              \x00\x02\x80\x00\x00\x02\x00\x00\x00\x09\x00\x00\x00\x00\x00\x00",
        ),
        // GroupInfoLength runs past the private bytes
        (
            SectionKind::Dsi,
            0x3B,
            b"\x11\x03\x10\x06\x80\x00\x00\x00\xFF\x00\x00\x28\
              \xFF\xFF\xFF\xFF\xFF\xFF\xFF\xFF\xFF\xFF\xFF\xFF\xFF\xFF\xFF\xFF\xFF\xFF\xFF\xFF\x00\x00\x00\x10\
              \x00\x01\x80\x00\x00\x02\x00\x00\x00\x09\x00\x00\x00\x00\x00\x00",
            0,
            b"\x11\x03\x10\x06\x80\x00\x00\x00\xFF\x00\x00\x28\
              \xFF\xFF\xFF\xFF\xFF\xFF\xFF\xFF\xFF\xFF\xFF\xFF\xFF\xFF\xFF\xFF\xFF\xFF\xFF\xFF\x00\x00\x00\x10\
              \x00\x01\x80\x00\x00\x02\x00\x00\x00\x09\x00\x00\x00\x03\x00\x00",
        ),
        // numberOfModules is one too high
        (
            SectionKind::Dii,
            0x3B,
            b"\x11\x03\x10\x02\x80\x00\x00\x02\xFF\x00\x00\x1E\x80\x00\x00\x02\x0F\xE2\
              \x00\x00\x00\x00\x00\x00\x00\x00\x00\x00\x00\x00\x00\x01\x00\x01\x00\x00\x00\x09\x00\x00\x00\x00",
            0,
            b"\x11\x03\x10\x02\x80\x00\x00\x02\xFF\x00\x00\x1E\x80\x00\x00\x02\x0F\xE2\
              \x00\x00\x00\x00\x00\x00\x00\x00\x00\x00\x00\x00\x00\x02\x00\x01\x00\x00\x00\x09\x00\x00\x00\x00",
        ),
        // adaptationLength is above messageLength
        (
            SectionKind::Dii,
            0x3B,
            b"\x11\x03\x10\x02\x80\x00\x00\x02\xFF\x00\x00\x1E\x80\x00\x00\x02\x0F\xE2\
              \x00\x00\x00\x00\x00\x00\x00\x00\x00\x00\x00\x00\x00\x01\x00\x01\x00\x00\x00\x09\x00\x00\x00\x00",
            0,
            b"\x11\x03\x10\x02\x80\x00\x00\x02\xFF\x1F\x00\x1E\x80\x00\x00\x02\x0F\xE2\
              \x00\x00\x00\x00\x00\x00\x00\x00\x00\x00\x00\x00\x00\x01\x00\x01\x00\x00\x00\x09\x00\x00\x00\x00",
        ),
        // messageLength is one less than what is left of the body
        (
            SectionKind::Ddb,
            0x3C,
            b"\x11\x03\x10\x03\x80\x00\x00\x02\xFF\x00\x00\x09\x00\x01\x00\xFF\x00\x00\x31\x32\x33",
            0,
            b"\x11\x03\x10\x03\x80\x00\x00\x02\xFF\x00\x00\x08\x00\x01\x00\xFF\x00\x00\x31\x32\x33",
        ),
        // the platform loop ends inside a pair
        (
            SectionKind::Unt,
            0x4B,
            b"\x00\x01\x5A\x00\xF0\x00\x00\x00\x00\x04\xF0\x00\xF0\x00",
            0,
            b"\x00\x01\x5A\x00\xF0\x00\x00\x00\x00\x02\xF0\x00",
        ),
        // a lone byte after the last platform
        (
            SectionKind::Unt,
            0x4B,
            b"\x00\x01\x5A\x00\xF0\x00\x00\x00\x00\x04\xF0\x00\xF0\x00",
            0,
            b"\x00\x01\x5A\x00\xF0\x00\x00\x00\x00\x04\xF0\x00\xF0\x00\x00",
        ),
    ];
    for (wanted, table, right, number, wrong) in rows {
        let word = wanted.word();
        same_at(
            &rt,
            word,
            &kind(&section(rt.alloc(), table, 0, right)?),
            &Some(wanted),
        );
        same_at(
            &rt,
            word,
            &kind(&section(rt.alloc(), table, number, wrong)?),
            &None,
        );
    }
    Ok(())
}

#[test]
fn a_block_has_4066_bytes_at_most(rt: HostRuntime) -> Result<(), Fail> {
    let alloc = rt.alloc();
    let longest = section(alloc, 0x3C, 0, &block_of(alloc, 4066)?)?;
    same(&rt, &kind(&longest), &Some(SectionKind::Ddb));
    // section_length 4094, with a right CRC
    let mut longer = Vec::from_slice(alloc, b"\x3C\xBF\xFE\x00\x01\xC1\x00\x00")?;
    longer.extend_from_slice(&block_of(alloc, 4067)?)?;
    let end = crc(&longer);
    longer.extend_from_slice(&end.to_be_bytes())?;
    same(&rt, &crc(&longer), &0);
    same(&rt, &kind(&longer), &None);
    Ok(())
}

#[test]
fn times_are_told_by_their_tables(rt: HostRuntime) -> Result<(), Fail> {
    let time = Utc {
        mjd: 49273,
        second: 45900,
    };
    let tdt = write_tdt(rt.alloc(), time).expect(&rt, "memory");
    same(&rt, &kind(&tdt), &Some(SectionKind::Tdt(time)));
    let mut tot = Vec::from_slice(rt.alloc(), b"\x73\x70\x0B\xC0\x79\x12\x45\x00\xF0\x00")?;
    let end = crc(&tot);
    tot.extend_from_slice(&end.to_be_bytes())?;
    same(&rt, &kind(&tot), &Some(SectionKind::Tot(time)));
    // hour 24
    same(&rt, &kind(b"\x70\x70\x05\xC0\x79\x24\x00\x00"), &None);
    same(&rt, &kind(&[]), &None);
    Ok(())
}
