//! Fields with a length in front of them.

ghost use Rattle.std.specs.Prelude.{◌≡◌};
ghost use Rattle.wire.specs.Format.{sized, rest as whatever, only};
ghost use Rattle.wire.specs.Number.{number};
ghost use Rattle.wire.specs.Read.{Reads};

use wire::{raw_at, u8_at, u16_at};

/// A length of 8 bits, that many bytes, and the bytes behind them.
pub(crate) fn sized8_at(bytes: &[u8]) -> Option<(&[u8], &[u8])>
    ensures { Reads (λ x. (x.0.now, x.1.now)) result ((sized (number 1) whatever).at bytes.now) }
{
    let (len, rest) = u8_at(bytes)?;
    raw_at(rest, len as usize)
}

/// A length of 16 bits, that many bytes, and the bytes behind them.
pub(crate) fn sized16_at(bytes: &[u8]) -> Option<(&[u8], &[u8])>
    ensures { Reads (λ x. (x.0.now, x.1.now)) result ((sized (number 2) whatever).at bytes.now) }
{
    let (len, rest) = u16_at(bytes)?;
    raw_at(rest, len as usize)
}

/// A length of 16 bits, and that many bytes to the end.
pub(crate) fn sized16(bytes: &[u8]) -> Option<&[u8]>
    ensures { Reads (λ x. x.now) result ((only (sized (number 2) whatever)).of bytes.now) }
{
    let (inside, behind) = sized16_at(bytes)?;
    if !behind.is_empty() {
        return None;
    }
    Some(inside)
}
