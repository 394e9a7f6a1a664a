//! The CRC of bytes that stand in the spare bank.

ghost use Rattle.std.specs.Prelude.{◌≡◌, ◌+◌, ◌++◌, ◌≤◌, IfOk, List, OnErr, OnOk, length, true, ℕ};
ghost use Rattle.flash_bank.specs.Bank.{IsLent, is_begun, is_spent, len_of, spare_bank};
ghost use Rattle.flash_layout.specs.Pairs.{part};
ghost use Rattle.flash_bank.specs.Runs.{OnlyReads};
ghost use Rattle.flash_stage.specs.Leaving.{SameBank};
ghost use Rattle.ssu_io.specs.Faults.{HasCause};
ghost use Rattle.ts_crc.specs.Crc.{crc_of};

use flash_bank::{Bank, FlashFault};
use flash_dev::Flash;
use ts_crc::Register;

/// The length of a piece that is read at once.
const PIECE: u32 = 256;

/// The CRC of so many bytes of the spare bank from `at` on.
pub(crate) fn crc_of_range<F: Flash>(
    bank: &mut Bank,
    flash: &mut F,
    at: u32,
    len: u32,
) -> Result<u32, FlashFault>
    requires lent { IsLent F.tells F.contents F.block_count F.block_len bank.old flash.old }
    requires inside { at + len ≤ len_of bank.old }
    ensures lent { OnOk result (IsLent F.tells F.contents F.block_count F.block_len bank.new flash.new) }
    ensures crc { F.tells → IfOk result (λ crc. crc ≡ crc_of (part (F.contents flash.old) (spare_bank bank.old + at) len)) }
    ensures reads { OnlyReads F.tells F.contents F.block_count F.block_len F.moment F.left_since flash.old flash.new }
    ensures begun { is_begun bank.new ≡ is_begun bank.old }
    ensures spent { OnErr result (is_spent bank.new ≡ true) }
    ensures same_bank { SameBank bank.old bank.new }
    ensures cause { HasCause (F.faults flash.old) (F.faults flash.new) result }
{
    let mut register = Register::new();
    let mut done = 0u32;
    while done < len {
        let n = (len - done).min(PIECE);
        push_some(bank, flash, at + done, n, &mut register)?;
        done += n;
    }
    Ok(register.value())
}

/// Goes on with up to 256 bytes.
fn push_some<F: Flash>(
    bank: &mut Bank,
    flash: &mut F,
    at: u32,
    len: u32,
    register: &mut Register,
) -> Result<(), FlashFault>
    requires lent { IsLent F.tells F.contents F.block_count F.block_len bank.old flash.old }
    requires few { len ≤ 256 }
    requires inside { at + len ≤ len_of bank.old }
    ensures lent { OnOk result (IsLent F.tells F.contents F.block_count F.block_len bank.new flash.new) }
    ensures join { F.tells → OnOk result ((before : List ℕ) → register.old ≡ crc_of before
        → register.new ≡ crc_of (before ++ part (F.contents flash.old) (spare_bank bank.old + at) len)) }
    ensures reads { OnlyReads F.tells F.contents F.block_count F.block_len F.moment F.left_since flash.old flash.new }
    ensures begun { is_begun bank.new ≡ is_begun bank.old }
    ensures spent { OnErr result (is_spent bank.new ≡ true) }
    ensures same_bank { SameBank bank.old bank.new }
    ensures cause { HasCause (F.faults flash.old) (F.faults flash.new) result }
{
    let mut buf = [0u8; PIECE as usize];
    push_piece(bank, flash, at, &mut buf[..len as usize], register)
}

/// Reads a piece and goes on with it.
fn push_piece<F: Flash>(
    bank: &mut Bank,
    flash: &mut F,
    at: u32,
    piece: &mut [u8],
    register: &mut Register,
) -> Result<(), FlashFault>
    requires lent { IsLent F.tells F.contents F.block_count F.block_len bank.old flash.old }
    requires inside { at + length piece.old ≤ len_of bank.old }
    ensures lent { OnOk result (IsLent F.tells F.contents F.block_count F.block_len bank.new flash.new) }
    ensures join { F.tells → OnOk result ((before : List ℕ) → register.old ≡ crc_of before
        → register.new ≡ crc_of (before ++ part (F.contents flash.old) (spare_bank bank.old + at) (length piece.old))) }
    ensures reads { OnlyReads F.tells F.contents F.block_count F.block_len F.moment F.left_since flash.old flash.new }
    ensures begun { is_begun bank.new ≡ is_begun bank.old }
    ensures spent { OnErr result (is_spent bank.new ≡ true) }
    ensures same_bank { SameBank bank.old bank.new }
    ensures cause { HasCause (F.faults flash.old) (F.faults flash.new) result }
{
    bank.peek(flash, at, piece)?;
    register.push(piece);
    Ok(())
}
