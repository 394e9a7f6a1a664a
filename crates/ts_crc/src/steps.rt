//! The register over many bytes: sixteen at a time by sixteen tables, and the last few by the first table.

ghost use Rattle.std.specs.Prelude.{◌≡◌, ◌≤◌, length, take};
ghost use Rattle.ts_crc.specs.Crc.{after_byte, after_bytes};

use crate::later_tables::{lane_8, lane_9, lane_10, lane_11, lane_12, lane_13, lane_14, lane_15};
use crate::tables::{lane_0, lane_1, lane_2, lane_3, lane_4, lane_5, lane_6, lane_7};

/// What the register holds after the bytes.
pub(crate) fn pushed(register: u32, bytes: &[u8]) -> u32
    ensures { result ≡ after_bytes register bytes.now }
{
    let (now, rest) = after_sixteens(register, bytes);
    after_rest(now, rest)
}

/// Takes in all whole groups of sixteen bytes, and gives back what is left.
fn after_sixteens(register: u32, bytes: &[u8]) -> (u32, &[u8])
    ensures { after_bytes result.0 result.1.now ≡ after_bytes register bytes.now }
{
    let mut now = register;
    let mut rest = bytes;
    while rest.len() >= 16 {
        now = with_sixteen(now, rest);
        rest = &rest[16..];
    }
    (now, rest)
}

fn after_rest(register: u32, bytes: &[u8]) -> u32
    ensures { result ≡ after_bytes register bytes.now }
{
    let mut now = register;
    for byte in bytes {
        now = with_byte(now, *byte);
    }
    now
}

/// The register is added to the first four bytes; then each byte counts as if the register had been 0 and the bytes
/// beside it were 0. The bytes that do not wait for the register come first: the processor takes them while the register
/// of the sixteen before is still being made.
#[inline]
fn with_sixteen(register: u32, bytes: &[u8]) -> u32
    requires { 16 ≤ length bytes.now }
    ensures { result ≡ after_bytes register (take 16 bytes.now) }
{
    let later = lane_11(bytes[4])
        ^ lane_10(bytes[5])
        ^ lane_9(bytes[6])
        ^ lane_8(bytes[7])
        ^ lane_7(bytes[8])
        ^ lane_6(bytes[9])
        ^ lane_5(bytes[10])
        ^ lane_4(bytes[11])
        ^ lane_3(bytes[12])
        ^ lane_2(bytes[13])
        ^ lane_1(bytes[14])
        ^ lane_0(bytes[15]);
    let [first, second, third, fourth] = register.to_be_bytes();
    later
        ^ (lane_15(first ^ bytes[0])
            ^ lane_14(second ^ bytes[1])
            ^ lane_13(third ^ bytes[2])
            ^ lane_12(fourth ^ bytes[3]))
}

#[inline]
fn with_byte(register: u32, byte: u8) -> u32
    ensures { result ≡ after_byte register byte }
{
    let first = (register >> 24) as u8;
    lane_0(first ^ byte) ^ register << 8
}
