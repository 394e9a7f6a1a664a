//! The CRC of a block by that of its section.

use crate::{BlockJoin, resumed};
use std::test::Fail;
use ts_crc::crc;

#[test]
fn block_of_a_section_gives_the_check_value(rt: HostRuntime) -> Result<(), Fail> {
    let text = b"a head and 123456789";
    let mut section = Vec::from_slice(rt.alloc(), text)?;
    section.extend_from_slice(&crc(text).to_be_bytes())?;
    assert!(rt; crc(&section) == 0);
    let join = BlockJoin::new(9);
    assert_eq!(rt; join.len(), 9);
    assert_eq!(rt; join.joined(0xFFFF_FFFF, &section), 0x0376_E6E7);
    Ok(())
}

#[test]
fn register_goes_on_from_a_number(rt: HostRuntime) {
    assert_eq!(rt; resumed(crc(b"1234"), b"56789"), Some(0x0376_E6E7));
}
