//! Pairs that are read from a flash: the fixed part of a header, marks, heads of slots.
ghost use Rattle.std.specs.Prelude.{◌≡◌, ◌↔◌, ◌+◌, ◌*◌, ◌^◌, ◌<◌, ◌≤◌, ℕ, true, length, IfOk, IfSome, IsSome, IsTrue};
ghost use Rattle.flash_layout.specs.Journal.{IsSettled};
ghost use Rattle.flash_layout.specs.Layout.{HasJournals, IsInLimits, journal_bytes, mark_count, slots_at};
ghost use Rattle.flash_layout.specs.Pairs.{half_at, part, word_at};
ghost use Rattle.flash_layout.specs.Shape.{geometry};
ghost use Rattle.flash_bank.specs.Runs.{OnlyReads};
ghost use Rattle.flash_bank.specs.Scan.{AreHeads, ArePairs, HasHeader, IsFixedPart, IsPair};
ghost use Rattle.ssu_io.specs.Faults.{HasCause};

use flash_dev::Flash;
use flash_layout::{Shape, are_whole, are_zero, half, word};
use ssu_io::Failed;

/// The first four bytes of a header, `SSUJ`.
const MAGIC: u32 = 0x5353_554A;

fn is_pair(a: u8, b: u8, exact: bool) -> bool
    ensures { IsTrue result ↔ IsPair exact (a + b) }
{
    let sum = u32::from(a) + u32::from(b);
    if exact { sum == 255 } else { sum >= 255 }
}

fn are_pairs(bytes: &[u8], n: usize, exact: bool) -> bool
    requires { length bytes.now ≡ 2 * n }
    ensures { IsTrue result ↔ ArePairs exact bytes.now 0 n }
{
    for i in 0..n {
        if !is_pair(bytes[2 * i], bytes[2 * i + 1], exact) {
            return false;
        }
    }
    true
}

/// Whether the pairs that fill a buffer are such.
fn read_pairs<F: Flash>(
    flash: &mut F,
    at: u32,
    buf: &mut [u8],
    n: usize,
    exact: bool,
) -> Result<bool, Failed>
    requires inside { at + 2 * n ≤ F.block_count flash.old * F.block_len flash.old }
    requires size { length buf.old ≡ 2 * n }
    ensures found { F.tells → IfOk result (λ yes. IsTrue yes ↔ ArePairs exact (F.contents flash.old) at n) }
    ensures reads { OnlyReads F.tells F.contents F.block_count F.block_len F.moment F.left_since flash.old flash.new }
    ensures cause { HasCause (F.faults flash.old) (F.faults flash.new) result }
{
    flash.read(at, buf)?;
    Ok(are_pairs(buf, n, exact))
}

/// The same of up to 128 pairs.
fn some_pairs<F: Flash>(flash: &mut F, at: u32, n: usize, exact: bool) -> Result<bool, Failed>
    requires inside { at + 2 * n ≤ F.block_count flash.old * F.block_len flash.old }
    requires few { n ≤ 128 }
    ensures found { F.tells → IfOk result (λ yes. IsTrue yes ↔ ArePairs exact (F.contents flash.old) at n) }
    ensures reads { OnlyReads F.tells F.contents F.block_count F.block_len F.moment F.left_since flash.old flash.new }
    ensures cause { HasCause (F.faults flash.old) (F.faults flash.new) result }
{
    let mut buf = [0u8; 256];
    read_pairs(flash, at, &mut buf[..2 * n], n, exact)
}

/// Whether each of so many pairs from `at` on sums to 255 at least, or exactly.
pub(crate) fn scan_pairs<F: Flash>(
    flash: &mut F,
    at: u32,
    count: u32,
    exact: bool,
) -> Result<bool, Failed>
    requires inside { at + 2 * count ≤ F.block_count flash.old * F.block_len flash.old }
    requires addressable { at + 2 * count < 2 ^ 32 }
    ensures found { F.tells → IfOk result (λ yes. IsTrue yes ↔ ArePairs exact (F.contents flash.old) at count) }
    ensures reads { OnlyReads F.tells F.contents F.block_count F.block_len F.moment F.left_since flash.old flash.new }
    ensures cause { HasCause (F.faults flash.old) (F.faults flash.new) result }
{
    let mut done = 0u32;
    while done < count {
        let n = (count - done).min(128);
        let good = some_pairs(flash, at + 2 * done, n as usize, exact)?;
        if !good {
            return Ok(false);
        }
        done += n;
    }
    Ok(true)
}

/// Whether no pair of the slot heads of a journal is below 255.
fn scan_heads<F: Flash>(flash: &mut F, slots: u32) -> Result<bool, Failed>
    requires inside { slots + 69632 ≤ F.block_count flash.old * F.block_len flash.old }
    requires addressable { slots + 69632 < 2 ^ 32 }
    ensures found { F.tells → IfOk result (λ yes. IsTrue yes ↔ AreHeads (F.contents flash.old) slots 16) }
    ensures reads { OnlyReads F.tells F.contents F.block_count F.block_len F.moment F.left_since flash.old flash.new }
    ensures cause { HasCause (F.faults flash.old) (F.faults flash.new) result }
{
    let mut slot = 0u32;
    while slot < 16 {
        let good = scan_pairs(flash, slots + 4352 * slot, 8, false)?;
        if !good {
            return Ok(false);
        }
        slot += 1;
    }
    Ok(true)
}

/// Whether no pair of a journal is below 255.
pub(crate) fn is_settled<F: Flash>(flash: &mut F, shape: Shape, area: u8) -> Result<bool, Failed>
    requires limits { IsInLimits (geometry shape) }
    requires room { HasJournals (geometry shape) }
    requires area { area < 2 }
    requires blocks { F.block_count flash.old ≡ shape.blocks }
    requires block_size { F.block_len flash.old ≡ shape.block_size }
    ensures found { F.tells → IfOk result (λ yes. IsTrue yes ↔ IsSettled (mark_count (geometry shape)) (slots_at (geometry shape))
        (journal_bytes (geometry shape) (F.contents flash.old) area)) }
    ensures reads { OnlyReads F.tells F.contents F.block_count F.block_len F.moment F.left_since flash.old flash.new }
    ensures cause { HasCause (F.faults flash.old) (F.faults flash.new) result }
{
    let place = shape.journal_place(area);
    let fixed = scan_pairs(flash, place, 16, false)?;
    let rest = scan_pairs(flash, place + 256, 4096 + shape.mark_count(), false)?;
    let heads = scan_heads(flash, place + shape.slots_at())?;
    Ok(all_three(fixed, rest, heads))
}

fn all_three(first: bool, second: bool, third: bool) -> bool
    ensures { IsTrue result ↔ (IsTrue first × (IsTrue second × IsTrue third)) }
{
    first && second && third
}

/// The number of the header of a journal, where it is valid.
pub(crate) fn header_in<F: Flash>(flash: &mut F, place: u32) -> Result<Option<u32>, Failed>
    requires inside { place + 8448 ≤ F.block_count flash.old * F.block_len flash.old }
    requires addressable { place + 8448 < 2 ^ 32 }
    requires whole { F.tells → length (F.contents flash.old) ≡ F.block_count flash.old * F.block_len flash.old }
    ensures found { F.tells → IfOk result (λ number. IsSome number ↔ HasHeader (F.contents flash.old) place) }
    ensures number { F.tells → IfOk result (λ number. IfSome number (λ n. n ≡ word_at (part (F.contents flash.old) place 32) 4)) }
    ensures reads { OnlyReads F.tells F.contents F.block_count F.block_len F.moment F.left_since flash.old flash.new }
    ensures cause { HasCause (F.faults flash.old) (F.faults flash.new) result }
{
    let mut bytes = [0u8; 32];
    flash.read(place, &mut bytes)?;
    match fixed_part(&bytes) {
        None => Ok(None),
        Some(fixed) => with_message(flash, place, fixed),
    }
}

/// The fixed part of a header.
#[derive(Clone, Copy)]
struct FixedPart {
    number: u32,
    len: u32,
}

/// The fixed part of a header in its bytes, where it is one.
fn fixed_part(bytes: &[u8]) -> Option<FixedPart>
    requires { length bytes.now ≡ 32 }
    ensures valid { IsSome result ↔ IsFixedPart bytes.now }
    ensures number { IfSome result (λ fixed. (fixed.number ≡ word_at bytes.now 4) × (fixed.len ≡ half_at bytes.now 8) × (fixed.len ≤ 4084)) }
{
    let len = u32::from(half(bytes, 8));
    if are_whole(bytes, 16)
        && word(bytes, 0) == MAGIC
        && 1 <= len
        && len <= 4084
        && are_zero(bytes, 10, 16)
    {
        Some(FixedPart {
            number: word(bytes, 4),
            len,
        })
    } else {
        None
    }
}

/// The number of a header with this fixed part, where the pairs of its message are whole.
fn with_message<F: Flash>(
    flash: &mut F,
    place: u32,
    fixed: FixedPart,
) -> Result<Option<u32>, Failed>
    requires inside { place + 8448 ≤ F.block_count flash.old * F.block_len flash.old }
    requires addressable { place + 8448 < 2 ^ 32 }
    requires few { fixed.len ≤ 4084 }
    ensures found { F.tells → IfOk result (λ number. IsSome number ↔ ArePairs true (F.contents flash.old) (place + 256) fixed.len) }
    ensures number { IfOk result (λ number. IfSome number (λ n. n ≡ fixed.number)) }
    ensures reads { OnlyReads F.tells F.contents F.block_count F.block_len F.moment F.left_since flash.old flash.new }
    ensures cause { HasCause (F.faults flash.old) (F.faults flash.new) result }
{
    let whole = scan_pairs(flash, place + 256, fixed.len, true)?;
    Ok(number_where(whole, fixed.number))
}

fn number_where(whole: bool, number: u32) -> Option<u32>
    ensures some { IsSome result ↔ IsTrue whole }
    ensures number { IfSome result (λ n. n ≡ number) }
{
    if whole { Some(number) } else { None }
}
