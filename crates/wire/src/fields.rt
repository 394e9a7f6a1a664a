//! The field at the front of the bytes, and the bytes behind it. All numbers have the highest byte
//! first. `None` comes exactly where there are too few bytes.

ghost use Rattle.std.specs.Prelude.{◌≡◌, ◌<◌, ◌^◌, IfSome};
ghost use Rattle.wire.specs.Format.{raw};
ghost use Rattle.wire.specs.Number.{low, number};
ghost use Rattle.wire.specs.Read.{Reads};

/// The first `count` bytes.
pub fn raw_at(bytes: &[u8], count: usize) -> Option<(&[u8], &[u8])>
    ensures { Reads (λ x. (x.0.now, x.1.now)) result ((raw count).at bytes.now) }
{
    if bytes.len() < count {
        return None;
    }
    Some(bytes.split_at(count))
}

/// A number of 8 bits.
#[tactic(auto, using(crate::proofs::Cells::cells1))]
pub fn u8_at(bytes: &[u8]) -> Option<(u8, &[u8])>
    ensures { Reads (λ x. (x.0, x.1.now)) result ((number 1).at bytes.now) }
{
    let (front, rest) = raw_at(bytes, 1)?;
    Some((front[0], rest))
}

/// A number of 16 bits.
#[tactic(auto, using(crate::proofs::Cells::cells2))]
pub fn u16_at(bytes: &[u8]) -> Option<(u16, &[u8])>
    ensures { Reads (λ x. (x.0, x.1.now)) result ((number 2).at bytes.now) }
{
    let (front, rest) = raw_at(bytes, 2)?;
    Some((u16::from_be_bytes([front[0], front[1]]), rest))
}

/// A length of 12 bits behind 4 reserved bits.
pub fn length_at(bytes: &[u8]) -> Option<(u16, &[u8])>
    ensures { Reads (λ x. (x.0, x.1.now)) result ((low 2 12).at bytes.now) }
{
    let (number, rest) = u16_at(bytes)?;
    Some((number % 4096, rest))
}

/// A number of 24 bits, as an OUI.
#[tactic(auto, using(crate::proofs::Cells::cells3))]
pub fn u24_at(bytes: &[u8]) -> Option<(u32, &[u8])>
    ensures reads { Reads (λ x. (x.0, x.1.now)) result ((number 3).at bytes.now) }
    ensures in_range { IfSome result (λ x. x.0 < 2 ^ 24) }
{
    let (front, rest) = raw_at(bytes, 3)?;
    Some((u32::from_be_bytes([0, front[0], front[1], front[2]]), rest))
}

/// A number of 32 bits.
#[tactic(auto, using(crate::proofs::Cells::cells4))]
pub fn u32_at(bytes: &[u8]) -> Option<(u32, &[u8])>
    ensures { Reads (λ x. (x.0, x.1.now)) result ((number 4).at bytes.now) }
{
    let (front, rest) = raw_at(bytes, 4)?;
    let number = u32::from_be_bytes([front[0], front[1], front[2], front[3]]);
    Some((number, rest))
}

/// A number of 40 bits, as a time or a subgroup.
#[tactic(auto, using(crate::proofs::Cells::cells5))]
pub fn u40_at(bytes: &[u8]) -> Option<(u64, &[u8])>
    ensures reads { Reads (λ x. (x.0, x.1.now)) result ((number 5).at bytes.now) }
    ensures in_range { IfSome result (λ x. x.0 < 2 ^ 40) }
{
    let (front, rest) = raw_at(bytes, 5)?;
    let number = u64::from_be_bytes([0, 0, 0, front[0], front[1], front[2], front[3], front[4]]);
    Some((number, rest))
}

/// A number of 48 bits, as a MAC address.
#[tactic(auto, using(crate::proofs::Cells::cells6))]
pub fn u48_at(bytes: &[u8]) -> Option<(u64, &[u8])>
    ensures reads { Reads (λ x. (x.0, x.1.now)) result ((number 6).at bytes.now) }
    ensures in_range { IfSome result (λ x. x.0 < 2 ^ 48) }
{
    let (front, rest) = raw_at(bytes, 6)?;
    let number = u64::from_be_bytes([
        0, 0, front[0], front[1], front[2], front[3], front[4], front[5],
    ]);
    Some((number, rest))
}
