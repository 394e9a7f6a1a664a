//! Numbers and lengths, onto a buffer and out of it.

use crate::check::same;
use std::test::*;
use wire::*;

// Each number, onto a buffer and out of it.
#[test]
fn numbers_are_written_and_read_back(rt: HostRuntime) -> Result<(), Fail> {
    let mut out = Vec::new(rt.alloc());
    put_u8(&mut out, 0x47)?;
    put_u16(&mut out, 0x1FFB)?;
    put_u24(&mut out, 0x00015A)?;
    put_u32(&mut out, 0x80000002)?;
    put_u40(&mut out, 0xC079124500)?;
    put_u48(&mut out, 0x00123456789A)?;
    put_length(&mut out, 0x123)?;
    let wanted =
        b"\x47\x1F\xFB\x00\x01\x5A\x80\x00\x00\x02\xC0\x79\x12\x45\x00\x00\x12\x34\x56\x78\x9A\xF1\x23";
    assert!(rt; out.as_slice() == wanted.as_slice());
    let (byte, rest) = u8_at(&out).expect(&rt, "one byte");
    let (pid, rest) = u16_at(rest).expect(&rt, "two bytes");
    let (oui, rest) = u24_at(rest).expect(&rt, "three bytes");
    let (group, rest) = u32_at(rest).expect(&rt, "four bytes");
    let (time, rest) = u40_at(rest).expect(&rt, "five bytes");
    let (mac, rest) = u48_at(rest).expect(&rt, "six bytes");
    let (length, rest) = length_at(rest).expect(&rt, "a length");
    same(&rt, &(byte, pid, oui), &(0x47, 0x1FFB, 0x15A));
    same(
        &rt,
        &(group, time, mac),
        &(0x80000002, 0xC079124500, 0x00123456789A),
    );
    same(&rt, &length, &0x123);
    assert!(rt; rest.is_empty());
    assert!(rt; u16_at(&out[22..]).is_none());
    Ok(())
}
