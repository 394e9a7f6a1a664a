//! The image of a record of layout 2: the bytes of its bank with the slots of its journal laid over, slot by slot.
ghost use Rattle.std.specs.Prelude.{◌≡◌, ◌⊎◌, ◌↔◌, ◌+◌, ◌-◌, ◌*◌, ◌^◌, ◌<◌, ◌≤◌, List, ℕ, length, slice_index, IfSome, IsErrOf, IsSome, IsTrue, OnErr, OnOk};
ghost use Rattle.flash_dev.specs.Changes.{Changes, Holds};
ghost use Rattle.flash_layout.specs.Pairs.{part};
ghost use Rattle.flash_layout.specs.Slots.{laid_one, slot_at, slot_len};
ghost use Rattle.flash_bank.specs.Laid.{IsSlotHead, Lays, LiesWithin, laid_text};
ghost use Rattle.flash_bank.specs.Runs.{OnlyReads};
ghost use Rattle.ssu_io.specs.Bytes.{Gains, GainsPrefix};
ghost use Rattle.ssu_io.specs.Faults.{HasCause, Rose};

use crate::boot_image::put_bytes;
use crate::fault::BootFault;
use flash_dev::Flash;
use flash_layout::{are_whole, half, word};
use ssu_io::{Failed, Sink};

/// The length of a piece of the image.
const PIECE: usize = 4096;

/// Where a bank stands and how long it is, and where its slots begin.
#[derive(Clone, Copy)]
pub(crate) struct LaidBank {
    pub(crate) place: u32,
    pub(crate) len: u32,
    pub(crate) slots: u32,
}

/// The range of the bank that a slot is for.
#[derive(Clone, Copy)]
struct SlotRange {
    at: u32,
    len: u32,
}

/// Puts the first bytes of a bank with its slots laid over, piece by piece.
pub(crate) fn put_laid<F: Flash, W: Sink>(
    flash: &mut F,
    sink: &mut W,
    bank: LaidBank,
    len: u32,
) -> Result<(), BootFault>
    requires within { LiesWithin bank (F.block_count flash.old * F.block_len flash.old) }
    requires fits { len ≤ bank.len }
    requires whole { F.tells → length (F.contents flash.old) ≡ F.block_count flash.old * F.block_len flash.old }
    ensures whole { F.tells → OnOk result (Gains (W.contents sink.old) (W.contents sink.new) (part (laid_text bank (F.contents flash.old)) 0 len)) }
    ensures prefix { F.tells → OnErr result (GainsPrefix (W.contents sink.old) (W.contents sink.new)
        (part (laid_text bank (F.contents flash.old)) 0 len)) }
    ensures fault { IsErrOf result BootFault.Flash → Rose (F.faults flash.old) (F.faults flash.new) }
    ensures write { IsErrOf result BootFault.Write → Rose (W.faults sink.old) (W.faults sink.new) }
    ensures no_geometry { IsErrOf result BootFault.Geometry → ⊥ }
    ensures no_foreign { IsErrOf result BootFault.Foreign → ⊥ }
    ensures reads { OnlyReads F.tells F.contents F.block_count F.block_len F.moment F.left_since flash.old flash.new }
    ensures faults { F.faults flash.old ≤ F.faults flash.new }
    ensures sink_faults { W.faults sink.old ≤ W.faults sink.new }
{
    let mut done = 0u32;
    while done < len {
        let n = (len - done).min(PIECE as u32);
        put_some_laid(flash, sink, bank, done, n)?;
        done += n;
    }
    Ok(())
}

/// Puts up to 4,096 bytes.
#[inline(never)]
fn put_some_laid<F: Flash, W: Sink>(
    flash: &mut F,
    sink: &mut W,
    bank: LaidBank,
    at: u32,
    len: u32,
) -> Result<(), BootFault>
    requires few { len ≤ 4096 }
    requires within { LiesWithin bank (F.block_count flash.old * F.block_len flash.old) }
    requires fits { at + len ≤ bank.len }
    requires whole { F.tells → length (F.contents flash.old) ≡ F.block_count flash.old * F.block_len flash.old }
    ensures whole { F.tells → OnOk result (Gains (W.contents sink.old) (W.contents sink.new) (part (laid_text bank (F.contents flash.old)) at len)) }
    ensures prefix { F.tells → OnErr result (GainsPrefix (W.contents sink.old) (W.contents sink.new)
        (part (laid_text bank (F.contents flash.old)) at len)) }
    ensures fault { IsErrOf result BootFault.Flash → Rose (F.faults flash.old) (F.faults flash.new) }
    ensures write { IsErrOf result BootFault.Write → Rose (W.faults sink.old) (W.faults sink.new) }
    ensures no_geometry { IsErrOf result BootFault.Geometry → ⊥ }
    ensures no_foreign { IsErrOf result BootFault.Foreign → ⊥ }
    ensures reads { OnlyReads F.tells F.contents F.block_count F.block_len F.moment F.left_since flash.old flash.new }
    ensures faults { F.faults flash.old ≤ F.faults flash.new }
    ensures sink_faults { W.faults sink.old ≤ W.faults sink.new }
{
    let mut buf = [0u8; PIECE];
    put_laid_piece(flash, sink, bank, at, &mut buf[..len as usize])
}

/// Reads a piece and puts it.
fn put_laid_piece<F: Flash, W: Sink>(
    flash: &mut F,
    sink: &mut W,
    bank: LaidBank,
    at: u32,
    piece: &mut [u8],
) -> Result<(), BootFault>
    requires within { LiesWithin bank (F.block_count flash.old * F.block_len flash.old) }
    requires fits { at + length piece.old ≤ bank.len }
    requires whole { F.tells → length (F.contents flash.old) ≡ F.block_count flash.old * F.block_len flash.old }
    ensures whole { F.tells → OnOk result (Gains (W.contents sink.old) (W.contents sink.new)
        (part (laid_text bank (F.contents flash.old)) at (length piece.old))) }
    ensures prefix { F.tells → OnErr result (GainsPrefix (W.contents sink.old) (W.contents sink.new)
        (part (laid_text bank (F.contents flash.old)) at (length piece.old))) }
    ensures fault { IsErrOf result BootFault.Flash → Rose (F.faults flash.old) (F.faults flash.new) }
    ensures write { IsErrOf result BootFault.Write → Rose (W.faults sink.old) (W.faults sink.new) }
    ensures no_geometry { IsErrOf result BootFault.Geometry → ⊥ }
    ensures no_foreign { IsErrOf result BootFault.Foreign → ⊥ }
    ensures reads { OnlyReads F.tells F.contents F.block_count F.block_len F.moment F.left_since flash.old flash.new }
    ensures faults { F.faults flash.old ≤ F.faults flash.new }
    ensures sink_faults { W.faults sink.old ≤ W.faults sink.new }
{
    match read_laid(flash, bank, at, piece) {
        Ok(()) => put_bytes(sink, piece),
        Err(_) => Err(BootFault::Flash),
    }
}

/// Reads bytes of the bank from byte `at` of it on, and lays the slots over them.
fn read_laid<F: Flash>(
    flash: &mut F,
    bank: LaidBank,
    at: u32,
    piece: &mut [u8],
) -> Result<(), Failed>
    requires within { LiesWithin bank (F.block_count flash.old * F.block_len flash.old) }
    requires fits { at + length piece.old ≤ bank.len }
    requires whole { F.tells → length (F.contents flash.old) ≡ F.block_count flash.old * F.block_len flash.old }
    ensures bytes { F.tells → OnOk result (Holds (laid_text bank (F.contents flash.old)) at piece.new) }
    ensures reads { OnlyReads F.tells F.contents F.block_count F.block_len F.moment F.left_since flash.old flash.new }
    ensures cause { HasCause (F.faults flash.old) (F.faults flash.new) result }
{
    flash.read(bank.place + at, piece)?;
    let mut slot = 0u32;
    while slot < 16 {
        lay(flash, bank.slots + 4352 * slot, bank.len, at, piece)?;
        slot += 1;
    }
    Ok(())
}

/// Lays a slot over a piece of a bank of `len` bytes, which begins at byte `at` of it, where the slot is valid.
fn lay<F: Flash>(
    flash: &mut F,
    slot: u32,
    len: u32,
    at: u32,
    piece: &mut [u8],
) -> Result<(), Failed>
    requires inside { slot + 4352 ≤ F.block_count flash.old * F.block_len flash.old }
    requires addressable { slot + 4352 < 2 ^ 32 }
    requires fits { at + length piece.old ≤ len }
    requires whole { F.tells → length (F.contents flash.old) ≡ F.block_count flash.old * F.block_len flash.old }
    ensures laid { F.tells → OnOk result ((text : List ℕ) → length text ≡ len → Holds text at piece.old
        → Holds (laid_one len (part (F.contents flash.old) slot 4352) text) at piece.new) }
    ensures reads { OnlyReads F.tells F.contents F.block_count F.block_len F.moment F.left_since flash.old flash.new }
    ensures cause { HasCause (F.faults flash.old) (F.faults flash.new) result }
{
    let mut head = [0u8; 16];
    flash.read(slot, &mut head)?;
    match range_of(&head, len) {
        None => Ok(()),
        Some(range) => lay_range(flash, slot + 256, range, at, piece),
    }
}

/// The range that the head of a slot says, where the slot is valid for a bank of `len` bytes.
fn range_of(head: &[u8], len: u32) -> Option<SlotRange>
    requires { length head.now ≡ 16 }
    ensures valid { IsSome result ↔ IsSlotHead len head.now }
    ensures value { IfSome result (λ range. (range.at ≡ slot_at head.now) × (range.len ≡ slot_len head.now)) }
{
    let range = SlotRange {
        at: word(head, 2),
        len: u32::from(half(head, 6)),
    };
    if is_valid(head, range, len) {
        Some(range)
    } else {
        None
    }
}

fn is_valid(head: &[u8], range: SlotRange, len: u32) -> bool
    requires head { length head.now ≡ 16 }
    requires at { range.at ≡ slot_at head.now }
    requires len { range.len ≡ slot_len head.now }
    ensures { IsTrue result ↔ IsSlotHead len head.now }
{
    are_whole(head, 8)
        && half(head, 0) == 0x5350
        && 1 <= range.len
        && range.len <= 4066
        && u64::from(range.at) + u64::from(range.len) <= u64::from(len)
}

/// Reads the bytes of a slot into a piece where its range meets it.
fn lay_range<F: Flash>(
    flash: &mut F,
    bytes: u32,
    slot: SlotRange,
    at: u32,
    piece: &mut [u8],
) -> Result<(), Failed>
    requires few { slot.len ≤ 4066 }
    requires end { slot.at + slot.len < 2 ^ 32 }
    requires inside { bytes + slot.len ≤ F.block_count flash.old * F.block_len flash.old }
    requires addressable { bytes + slot.len < 2 ^ 32 }
    requires fits { at + length piece.old < 2 ^ 32 }
    ensures lays { F.tells → OnOk result (Lays (F.contents flash.old) bytes slot at piece.old piece.new) }
    ensures reads { OnlyReads F.tells F.contents F.block_count F.block_len F.moment F.left_since flash.old flash.new }
    ensures cause { HasCause (F.faults flash.old) (F.faults flash.new) result }
{
    let from = slot.at.max(at);
    let to = (slot.at + slot.len).min(at + piece.len() as u32);
    if from < to {
        read_part(
            flash,
            bytes + (from - slot.at),
            piece,
            (from - at) as usize,
            (to - at) as usize,
        )
    } else {
        Ok(())
    }
}

/// Reads bytes into a part of a piece.
fn read_part<F: Flash>(
    flash: &mut F,
    place: u32,
    piece: &mut [u8],
    from: usize,
    to: usize,
) -> Result<(), Failed>
    requires order { from ≤ to }
    requires part { to ≤ length piece.old }
    requires inside { place + (to - from) ≤ F.block_count flash.old * F.block_len flash.old }
    ensures bytes { F.tells → OnOk result (Changes from (to - from)
        (λ k old new. new ≡ slice_index (F.contents flash.old) (place + k)) piece.old piece.new) }
    ensures reads { OnlyReads F.tells F.contents F.block_count F.block_len F.moment F.left_since flash.old flash.new }
    ensures cause { HasCause (F.faults flash.old) (F.faults flash.new) result }
{
    flash.read(place, &mut piece[from..to])?;
    Ok(())
}
