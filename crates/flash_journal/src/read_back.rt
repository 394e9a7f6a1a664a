//! The CRC of bytes that stand in the spare area.

ghost use Rattle.std.specs.Prelude.{◌≡◌, ◌+◌, ◌++◌, ◌≤◌, List, OnErr, OnOk, length, true, ℕ};
ghost use Rattle.flash_bank.specs.Bank.{IsLent, current_of, is_spent};
ghost use Rattle.flash_journal.specs.Looks.{Looks};
ghost use Rattle.flash_journal.specs.Side.{side_len, side_place};
ghost use Rattle.flash_journal.specs.declared.side.Side.TheVariants.{InJournal};
ghost use Rattle.flash_layout.specs.Pairs.{part};
ghost use Rattle.ssu_io.specs.Faults.{HasCause};
ghost use Rattle.ts_crc.specs.Crc.{crc_of};

use crate::side::{Side, read};
use flash_bank::{Bank, FlashFault};
use flash_dev::Flash;
use ts_crc::Register;

/// The length of a piece that is read at once.
const PIECE: u32 = 256;

/// Reads a piece and goes on with it.
fn push_piece<F: Flash>(
    bank: &mut Bank,
    flash: &mut F,
    side: Side,
    at: u32,
    piece: &mut [u8],
    register: &mut Register,
) -> Result<(), FlashFault>
    requires lent { IsLent F.tells F.contents F.block_count F.block_len bank.old flash.old }
    requires two { side ≡ InJournal → (current_of bank.old).layout ≡ 2 }
    requires inside { at + length piece.old ≤ side_len side bank.old }
    ensures lent { OnOk result (IsLent F.tells F.contents F.block_count F.block_len bank.new flash.new) }
    ensures join { F.tells → OnOk result ((before : List ℕ) → register.old ≡ crc_of before
        → register.new ≡ crc_of (before ++ part (F.contents flash.old) (side_place side bank.old + at) (length piece.old))) }
    ensures looks { Looks F.tells F.contents F.block_count F.block_len F.moment F.left_since flash.old bank.old flash.new bank.new }
    ensures spent { OnErr result (is_spent bank.new ≡ true) }
    ensures cause { HasCause (F.faults flash.old) (F.faults flash.new) result }
{
    read(bank, flash, side, at, piece)?;
    register.push(piece);
    Ok(())
}

/// Goes on with up to 256 bytes.
fn push_some<F: Flash>(
    bank: &mut Bank,
    flash: &mut F,
    side: Side,
    at: u32,
    len: u32,
    register: &mut Register,
) -> Result<(), FlashFault>
    requires lent { IsLent F.tells F.contents F.block_count F.block_len bank.old flash.old }
    requires few { len ≤ 256 }
    requires two { side ≡ InJournal → (current_of bank.old).layout ≡ 2 }
    requires inside { at + len ≤ side_len side bank.old }
    ensures lent { OnOk result (IsLent F.tells F.contents F.block_count F.block_len bank.new flash.new) }
    ensures join { F.tells → OnOk result ((before : List ℕ) → register.old ≡ crc_of before
        → register.new ≡ crc_of (before ++ part (F.contents flash.old) (side_place side bank.old + at) len)) }
    ensures looks { Looks F.tells F.contents F.block_count F.block_len F.moment F.left_since flash.old bank.old flash.new bank.new }
    ensures spent { OnErr result (is_spent bank.new ≡ true) }
    ensures cause { HasCause (F.faults flash.old) (F.faults flash.new) result }
{
    let mut buf = [0u8; PIECE as usize];
    push_piece(bank, flash, side, at, &mut buf[..len as usize], register)
}

/// Goes on with so many bytes of a part of the spare area, from byte `at` of it on.
pub(crate) fn push_range<F: Flash>(
    bank: &mut Bank,
    flash: &mut F,
    side: Side,
    at: u32,
    len: u32,
    register: &mut Register,
) -> Result<(), FlashFault>
    requires lent { IsLent F.tells F.contents F.block_count F.block_len bank.old flash.old }
    requires two { side ≡ InJournal → (current_of bank.old).layout ≡ 2 }
    requires inside { at + len ≤ side_len side bank.old }
    ensures lent { OnOk result (IsLent F.tells F.contents F.block_count F.block_len bank.new flash.new) }
    ensures join { F.tells → OnOk result ((before : List ℕ) → register.old ≡ crc_of before
        → register.new ≡ crc_of (before ++ part (F.contents flash.old) (side_place side bank.old + at) len)) }
    ensures looks { Looks F.tells F.contents F.block_count F.block_len F.moment F.left_since flash.old bank.old flash.new bank.new }
    ensures spent { OnErr result (is_spent bank.new ≡ true) }
    ensures cause { HasCause (F.faults flash.old) (F.faults flash.new) result }
{
    let mut done = 0u32;
    while done < len {
        let n = (len - done).min(PIECE);
        push_some(bank, flash, side, at + done, n, register)?;
        done += n;
    }
    Ok(())
}
