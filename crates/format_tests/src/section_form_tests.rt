//! Sections as they stand in a stream.

use crate::check::same;
use section_form::{MakeFault, is_right, long, table_section};
use ssu_io::NoMemory;
use std::test::Fail;

/// A PAT with one program, number 3 on PID 256: its bytes by hand, and their CRC by a program of ten lines in Python.
const PAT: [u8; 16] = [
    0x00, 0xB0, 0x0D, 0x00, 0x01, 0xC1, 0x00, 0x00, 0x00, 0x03, 0xE1, 0x00, 0xEB, 0x48, 0x07, 0x73,
];

#[test]
fn written_section_is_right_and_gives_its_fields_back(rt: HostRuntime) -> Result<(), Fail> {
    let section = table_section(rt.alloc(), 0x00, 1, 0, &PAT[8..12], false)?;
    same(&rt, &section.as_slice(), &PAT.as_slice());
    assert!(rt; is_right(&PAT));
    let Some(read) = long(&section) else {
        panic!(rt; "the section is in the long form");
    };
    same(&rt, &read.extension, &1);
    same(&rt, &read.body, &&PAT[8..12]);
    Ok(())
}

#[test]
fn time_and_date_table_has_no_crc(rt: HostRuntime) {
    let section = b"\x70\x70\x05\xC0\x79\x12\x45\x00";
    assert!(rt; is_right(section));
    assert!(rt; long(section).is_none());
    assert!(rt; !is_right(b"\x71\x70\x05\xC0\x79\x12\x45\x00"));
}

#[test]
fn want_of_memory_is_a_fault_of_its_own(rt: HostRuntime) {
    same(&rt, &MakeFault::from(NoMemory), &MakeFault::Memory);
    assert_ne!(rt; MakeFault::Memory, MakeFault::TooLong);
}
