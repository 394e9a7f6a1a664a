//! Whether a range of the spare area is erased.

ghost use Rattle.std.specs.Prelude.{◌≡◌, ◌↔◌, ◌+◌, ◌^◌, ◌<◌, ◌≤◌, IfOk, IsTrue, OnErr, OnOk, length, true};
ghost use Rattle.flash_bank.specs.Bank.{IsLent, current_of, is_spent};
ghost use Rattle.flash_dev.specs.Changes.{IsBlank};
ghost use Rattle.flash_journal.specs.Looks.{Looks};
ghost use Rattle.flash_journal.specs.Side.{side_len, side_place};
ghost use Rattle.ssu_io.specs.Faults.{HasCause};

use crate::side::{Side, read};
use flash_bank::{Bank, FlashFault};
use flash_dev::Flash;

/// The length of a piece that is read at once.
const PIECE: u32 = 256;

/// Whether all of these bytes are erased.
fn is_erased(bytes: &[u8]) -> bool
    ensures { IsTrue result ↔ IsBlank bytes.now 0 (length bytes.now) }
{
    for i in 0..bytes.len() {
        if bytes[i] != 255 {
            return false;
        }
    }
    true
}

/// Whether the bytes that fill a buffer are erased.
fn piece_is_blank<F: Flash>(
    bank: &mut Bank,
    flash: &mut F,
    side: Side,
    at: u32,
    len: u32,
    piece: &mut [u8],
) -> Result<bool, FlashFault>
    requires lent { IsLent F.tells F.contents F.block_count F.block_len bank.old flash.old }
    requires two { (current_of bank.old).layout ≡ 2 }
    requires size { length piece.old ≡ len }
    requires inside { at + len ≤ side_len side bank.old }
    ensures lent { OnOk result (IsLent F.tells F.contents F.block_count F.block_len bank.new flash.new) }
    ensures found { F.tells → IfOk result (λ yes. IsTrue yes ↔ IsBlank (F.contents flash.old) (side_place side bank.old + at) len) }
    ensures looks { Looks F.tells F.contents F.block_count F.block_len F.moment F.left_since flash.old bank.old flash.new bank.new }
    ensures spent { OnErr result (is_spent bank.new ≡ true) }
    ensures cause { HasCause (F.faults flash.old) (F.faults flash.new) result }
{
    read(bank, flash, side, at, piece)?;
    Ok(is_erased(piece))
}

/// The same of up to 256 bytes.
fn some_are_blank<F: Flash>(
    bank: &mut Bank,
    flash: &mut F,
    side: Side,
    at: u32,
    len: u32,
) -> Result<bool, FlashFault>
    requires lent { IsLent F.tells F.contents F.block_count F.block_len bank.old flash.old }
    requires two { (current_of bank.old).layout ≡ 2 }
    requires few { len ≤ 256 }
    requires inside { at + len ≤ side_len side bank.old }
    ensures lent { OnOk result (IsLent F.tells F.contents F.block_count F.block_len bank.new flash.new) }
    ensures found { F.tells → IfOk result (λ yes. IsTrue yes ↔ IsBlank (F.contents flash.old) (side_place side bank.old + at) len) }
    ensures looks { Looks F.tells F.contents F.block_count F.block_len F.moment F.left_since flash.old bank.old flash.new bank.new }
    ensures spent { OnErr result (is_spent bank.new ≡ true) }
    ensures cause { HasCause (F.faults flash.old) (F.faults flash.new) result }
{
    let mut buf = [0u8; PIECE as usize];
    piece_is_blank(bank, flash, side, at, len, &mut buf[..len as usize])
}

/// Whether `len` bytes of a part from byte `at` of it on are erased.
pub(crate) fn is_blank<F: Flash>(
    bank: &mut Bank,
    flash: &mut F,
    side: Side,
    at: u32,
    len: u32,
) -> Result<bool, FlashFault>
    requires lent { IsLent F.tells F.contents F.block_count F.block_len bank.old flash.old }
    requires two { (current_of bank.old).layout ≡ 2 }
    requires inside { at + len ≤ side_len side bank.old }
    requires addressable { at + len < 2 ^ 32 }
    ensures lent { OnOk result (IsLent F.tells F.contents F.block_count F.block_len bank.new flash.new) }
    ensures found { F.tells → IfOk result (λ yes. IsTrue yes ↔ IsBlank (F.contents flash.old) (side_place side bank.old + at) len) }
    ensures looks { Looks F.tells F.contents F.block_count F.block_len F.moment F.left_since flash.old bank.old flash.new bank.new }
    ensures spent { OnErr result (is_spent bank.new ≡ true) }
    ensures cause { HasCause (F.faults flash.old) (F.faults flash.new) result }
{
    let mut done = 0u32;
    while done < len {
        let n = (len - done).min(PIECE);
        let blank = some_are_blank(bank, flash, side, at + done, n)?;
        if !blank {
            return Ok(false);
        }
        done += n;
    }
    Ok(true)
}
