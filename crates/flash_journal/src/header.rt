//! Whether the header of the spare journal stands, with the next number and over a message.

ghost use Rattle.std.specs.Prelude.{◌≡◌, ◌↔◌, ◌+◌, ◌*◌, ◌^◌, ◌<◌, ◌≤◌, IfOk, IsTrue, OnErr, OnOk, length, true};
ghost use Rattle.bank_kept.specs.Bank.{area_of_bank};
ghost use Rattle.flash_bank.specs.Bank.{IsLent, current_of, geometry_of, is_spent, spare_journal};
ghost use Rattle.flash_dev.specs.Changes.{Holds};
ghost use Rattle.flash_journal.specs.Looks.{Looks};
ghost use Rattle.flash_kept.specs.Leaving.{HeaderStands};
ghost use Rattle.flash_layout.specs.Layout.{journal_len};
ghost use Rattle.flash_layout.specs.Pairs.{paired};
ghost use Rattle.ssu_io.specs.Faults.{HasCause};

use crate::side::{Side, read};
use flash_bank::{Bank, FlashFault};
use flash_dev::Flash;
use flash_layout::{header_bytes, put_pairs};

/// The bytes of the message that are looked at at once; their pairs fill a page.
const PIECE: usize = 128;

/// Whether bytes are these.
fn are_same(bytes: &[u8], wanted: &[u8]) -> bool
    requires { length bytes.now ≡ length wanted.now }
    ensures { IsTrue result ↔ Holds bytes.now 0 wanted.now }
{
    for i in 0..wanted.len() {
        if bytes[i] != wanted[i] {
            return false;
        }
    }
    true
}

/// Whether bytes of the journal from byte `at` of it on are these, as many as fill a buffer.
fn piece_stands<F: Flash>(
    bank: &mut Bank,
    flash: &mut F,
    at: u32,
    wanted: &[u8],
    piece: &mut [u8],
) -> Result<bool, FlashFault>
    requires lent { IsLent F.tells F.contents F.block_count F.block_len bank.old flash.old }
    requires two { (current_of bank.old).layout ≡ 2 }
    requires size { length piece.old ≡ length wanted.now }
    requires inside { at + length wanted.now ≤ journal_len (geometry_of bank.old) }
    ensures lent { OnOk result (IsLent F.tells F.contents F.block_count F.block_len bank.new flash.new) }
    ensures found { F.tells → IfOk result (λ yes. IsTrue yes ↔ Holds (F.contents flash.old) (spare_journal bank.old + at) wanted.now) }
    ensures looks { Looks F.tells F.contents F.block_count F.block_len F.moment F.left_since flash.old bank.old flash.new bank.new }
    ensures spent { OnErr result (is_spent bank.new ≡ true) }
    ensures cause { HasCause (F.faults flash.old) (F.faults flash.new) result }
{
    read(bank, flash, Side::InJournal, at, piece)?;
    Ok(are_same(piece, wanted))
}

/// The same of up to 256 bytes.
fn bytes_stand<F: Flash>(
    bank: &mut Bank,
    flash: &mut F,
    at: u32,
    wanted: &[u8],
) -> Result<bool, FlashFault>
    requires lent { IsLent F.tells F.contents F.block_count F.block_len bank.old flash.old }
    requires two { (current_of bank.old).layout ≡ 2 }
    requires few { length wanted.now ≤ 256 }
    requires inside { at + length wanted.now ≤ journal_len (geometry_of bank.old) }
    ensures lent { OnOk result (IsLent F.tells F.contents F.block_count F.block_len bank.new flash.new) }
    ensures found { F.tells → IfOk result (λ yes. IsTrue yes ↔ Holds (F.contents flash.old) (spare_journal bank.old + at) wanted.now) }
    ensures looks { Looks F.tells F.contents F.block_count F.block_len F.moment F.left_since flash.old bank.old flash.new bank.new }
    ensures spent { OnErr result (is_spent bank.new ≡ true) }
    ensures cause { HasCause (F.faults flash.old) (F.faults flash.new) result }
{
    let mut buf = [0u8; 256];
    piece_stands(bank, flash, at, wanted, &mut buf[..wanted.len()])
}

/// Whether the pairs of bytes stand, up to 128 of them.
fn pairs_stand<F: Flash>(
    bank: &mut Bank,
    flash: &mut F,
    at: u32,
    plain: &[u8],
) -> Result<bool, FlashFault>
    requires lent { IsLent F.tells F.contents F.block_count F.block_len bank.old flash.old }
    requires two { (current_of bank.old).layout ≡ 2 }
    requires few { length plain.now ≤ 128 }
    requires inside { at + 2 * length plain.now ≤ journal_len (geometry_of bank.old) }
    ensures lent { OnOk result (IsLent F.tells F.contents F.block_count F.block_len bank.new flash.new) }
    ensures found { F.tells → IfOk result (λ yes. IsTrue yes ↔ Holds (F.contents flash.old) (spare_journal bank.old + at) (paired plain.now)) }
    ensures looks { Looks F.tells F.contents F.block_count F.block_len F.moment F.left_since flash.old bank.old flash.new bank.new }
    ensures spent { OnErr result (is_spent bank.new ≡ true) }
    ensures cause { HasCause (F.faults flash.old) (F.faults flash.new) result }
{
    let mut pairs = [0u8; 256];
    let wanted = &mut pairs[..2 * plain.len()];
    put_pairs(wanted, plain);
    bytes_stand(bank, flash, at, wanted)
}

/// Whether the pairs of a message stand behind the fixed part of the header.
fn message_stands<F: Flash>(
    bank: &mut Bank,
    flash: &mut F,
    message: &[u8],
) -> Result<bool, FlashFault>
    requires lent { IsLent F.tells F.contents F.block_count F.block_len bank.old flash.old }
    requires two { (current_of bank.old).layout ≡ 2 }
    requires few { length message.now ≤ 4084 }
    requires inside { 8448 ≤ journal_len (geometry_of bank.old) }
    ensures lent { OnOk result (IsLent F.tells F.contents F.block_count F.block_len bank.new flash.new) }
    ensures found { F.tells → IfOk result (λ yes. IsTrue yes ↔ Holds (F.contents flash.old) (spare_journal bank.old + 256) (paired message.now)) }
    ensures looks { Looks F.tells F.contents F.block_count F.block_len F.moment F.left_since flash.old bank.old flash.new bank.new }
    ensures spent { OnErr result (is_spent bank.new ≡ true) }
    ensures cause { HasCause (F.faults flash.old) (F.faults flash.new) result }
{
    let mut done = 0usize;
    while done < message.len() {
        let n = (message.len() - done).min(PIECE);
        let stands = pairs_stand(bank, flash, 256 + 2 * done as u32, &message[done..done + n])?;
        if !stands {
            return Ok(false);
        }
        done += n;
    }
    Ok(true)
}

/// Whether the header of the spare journal stands, with the number after the current one and over this message of at most 4,084 bytes.
/// `FlashFault` comes only where the flash failed and its count of faults rose; the bank is spent then.
pub(crate) fn header_stands<F: Flash>(
    bank: &mut Bank,
    flash: &mut F,
    message: &[u8],
) -> Result<bool, FlashFault>
    requires lent { IsLent F.tells F.contents F.block_count F.block_len bank.old flash.old }
    requires two { (current_of bank.old).layout ≡ 2 }
    requires next_fits { (current_of bank.old).number < 4294967295 }
    requires few { length message.now ≤ 4084 }
    ensures lent { OnOk result (IsLent F.tells F.contents F.block_count F.block_len bank.new flash.new) }
    ensures found { F.tells → IfOk result (λ yes. IsTrue yes ↔ HeaderStands (area_of_bank bank.old) message.now (F.contents flash.old)) }
    ensures looks { Looks F.tells F.contents F.block_count F.block_len F.moment F.left_since flash.old bank.old flash.new bank.new }
    ensures spent { OnErr result (is_spent bank.new ≡ true) }
    ensures cause { HasCause (F.faults flash.old) (F.faults flash.new) result }
{
    let fixed = header_bytes(bank.current().number + 1, message.len() as u32);
    let fixed_stands = bytes_stand(bank, flash, 0, &fixed)?;
    if !fixed_stands {
        return Ok(false);
    }
    message_stands(bank, flash, message)
}
