//! Blocks of one length that come in right sections.

ghost use Rattle.std.specs.Prelude.{◌≡◌, ◌+◌, ◌≤◌, length};
ghost use Rattle.std.specs.Int.{to_be_bytes, w32};
ghost use Rattle.ts_crc.specs.Crc.{after_bytes, crc_of};
ghost use Rattle.crc_join.specs.Block.{block_of};

use crate::columns::{columns_of, sum_of};
use std::marker::Model;
use ts_crc::crc;

/// Goes on with blocks of one length by the CRCs of the sections that carry them.
///
/// The register of CRC_32 is linear over exclusive or. So what a block leaves of a register is told by what it leaves of another
/// one, and a section with its CRC behind the block tells that of the register that the section's head leaves. A contract sees
/// the length of the blocks.
#[derive(Drop)]
pub struct BlockJoin {
    len: u16,
    columns: [u32; 32],
}

impl Model for BlockJoin {
    ghost use Rattle.std.specs.Prelude.{ℕ};
    ghost use Rattle.crc_join.specs.Columns.{AreColumns};

    ghost Value = { ℕ };

    ghost view = { λ j. j.len };

    ghost invariant = { λ j. AreColumns j.len j.columns };
}

impl BlockJoin {
    /// For blocks of so many bytes.
    pub fn new(len: u16) -> BlockJoin
        ensures { result ≡ len }
    {
        BlockJoin {
            len,
            columns: columns_of(len),
        }
    }

    /// How many bytes a block has.
    pub fn len(&self) -> u16
        ensures { result ≡ self.now }
    {
        self.len
    }

    /// What the register holds after the block that stands in the section before its last four bytes, which are its CRC_32.
    /// The bytes of the block are not read.
    pub fn joined(&self, register: u32, section: &[u8]) -> u32
        requires long { self.now + 4 ≤ length section.now }
        requires right { crc_of section.now ≡ 0 }
        ensures { result ≡ after_bytes register (block_of self.now section.now) }
    {
        let end = section.len() - 4;
        let head = crc(&section[..end - self.len as usize]);
        sum_of(&self.columns, register ^ head) ^ number_of(&section[end..])
    }
}

/// The number that four bytes are, the highest first.
#[inline]
fn number_of(bytes: &[u8]) -> u32
    requires { length bytes.now ≡ 4 }
    ensures { to_be_bytes w32 result ≡ bytes.now }
{
    u32::from_be_bytes([bytes[0], bytes[1], bytes[2], bytes[3]])
}
