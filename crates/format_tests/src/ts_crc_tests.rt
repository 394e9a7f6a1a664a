//! The check value of CRC-32/MPEG-2 in the catalogue of parametrised CRC algorithms.

use crate::check::same;
use ts_crc::{Register, crc};

#[test]
fn check_value_of_the_digits(rt: HostRuntime) {
    same(&rt, &crc(b"123456789"), &0x0376_E6E7);
    same(&rt, &crc(b""), &0xFFFF_FFFF);
    same(&rt, &crc(b"123456789\x03\x76\xE6\xE7"), &0);
}

#[test]
fn pieces_give_the_crc_of_their_join(rt: HostRuntime) {
    let mut register = Register::new();
    register.push(b"1");
    register.push(b"");
    register.push(b"23456789");
    same(&rt, &register.value(), &0x0376_E6E7);
}
