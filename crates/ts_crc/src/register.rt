//! The register of CRC_32, and the CRC of a text.

ghost use Rattle.std.specs.Prelude.{◌≡◌, ℕ, ◌<◌, ◌^◌, List, [], ◌++◌};
ghost use Rattle.std.specs.Int.{to_be_bytes, w32};
ghost use Rattle.ts_crc.specs.Crc.{after_bytes, crc_of};

use crate::steps::pushed;
use std::marker::Model;

/// The CRC of what was pushed into it, piece by piece. A contract sees it as the number that it holds.
#[derive(Clone, Copy, Debug)]
pub struct Register {
    value: u32,
}

impl Model for Register {
    ghost Value = { ℕ };

    ghost view = { λ r. r.value };

    ghost inverse = { λ n. record { value = n } };
}

impl Register {
    /// Nothing was pushed yet.
    pub fn new() -> Register
        ensures { result ≡ crc_of [] }
    {
        Register { value: 0xFFFF_FFFF }
    }

    /// Goes on with these bytes.
    pub fn push(&mut self, bytes: &[u8])
        ensures register { self.new ≡ after_bytes self.old bytes.now }
        // Pushing pieces gives the CRC of their join.
        ensures join { (before : List ℕ) → self.old ≡ crc_of before → self.new ≡ crc_of (before ++ bytes.now) }
    {
        self.value = pushed(self.value, bytes);
    }

    /// The CRC of what was pushed.
    pub fn value(&self) -> u32
        ensures { result ≡ self.now }
    {
        self.value
    }
}

/// The CRC of the bytes.
pub fn crc(bytes: &[u8]) -> u32
    ensures value { result ≡ crc_of bytes.now }
    // A text with its own CRC behind it, highest byte first, has the CRC 0.
    ensures appended { crc_of (bytes.now ++ to_be_bytes w32 result) ≡ 0 }
{
    pushed(0xFFFF_FFFF, bytes)
}
