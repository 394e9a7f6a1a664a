//! What is programmed into a journal: a header, a mark, a slot.
ghost use Rattle.std.specs.Prelude.{◌≡◌, ◌+◌, ◌*◌, ◌%◌, ◌^◌, ◌<◌, ◌≤◌, length, OnOk};
ghost use Rattle.flash_dev.specs.Changes.{Changes, IsBlank, IsProgrammed, IsTornProgram};
ghost use Rattle.flash_dev.specs.Moments.{LeavesOnly};
ghost use Rattle.flash_layout.specs.Journal.{header_written, mark_written};
ghost use Rattle.flash_layout.specs.Pairs.{paired};
ghost use Rattle.flash_layout.specs.Slots.{slot_written};
ghost use Rattle.flash_bank.specs.Journal.{CutsPut, Puts};
ghost use Rattle.ssu_io.specs.Faults.{HasCause};

use crate::runs::program_pieces;
use flash_dev::Flash;
use flash_layout::{header_bytes, mark_bytes, put_pairs, slot_bytes};
use ssu_io::Failed;

/// Programs a header at the front of a journal: first its message, and then its fixed part.
pub(crate) fn put_header<F: Flash>(
    flash: &mut F,
    place: u32,
    number: u32,
    message: &[u8],
) -> Result<(), Failed>
    requires page { F.block_len flash.old % 256 ≡ 0 }
    requires some { 0 < F.block_len flash.old }
    requires inside { place + 8448 ≤ F.block_count flash.old * F.block_len flash.old }
    requires addressable { place + 8448 < 2 ^ 32 }
    requires few { length message.now ≤ 4084 }
    requires blank { F.tells → IsBlank (F.contents flash.old) place 32 }
    requires message_blank { F.tells → IsBlank (F.contents flash.old) (place + 256) (2 * length message.now) }
    ensures done { F.tells → OnOk result (Puts (place + 256) (paired message.now) place (header_written number (length message.now))
        (F.contents flash.old) (F.contents flash.new)) }
    ensures held { F.tells → CutsPut (place + 256) (paired message.now) place (header_written number (length message.now))
        (F.contents flash.old) (F.contents flash.new) }
    ensures left { F.tells → LeavesOnly F.moment F.left_since flash.old flash.new
        (CutsPut (place + 256) (paired message.now) place (header_written number (length message.now)) (F.contents flash.old)) }
    ensures blocks { F.block_count flash.new ≡ F.block_count flash.old }
    ensures block_size { F.block_len flash.new ≡ F.block_len flash.old }
    ensures cause { HasCause (F.faults flash.old) (F.faults flash.new) result }
{
    let mut pairs = [0u8; 8168];
    put_header_pairs(
        flash,
        place,
        number,
        message,
        &mut pairs[..2 * message.len()],
    )
}

/// The same over room for the pairs of the message.
fn put_header_pairs<F: Flash>(
    flash: &mut F,
    place: u32,
    number: u32,
    message: &[u8],
    pairs: &mut [u8],
) -> Result<(), Failed>
    requires room { length pairs.old ≡ 2 * length message.now }
    requires page { F.block_len flash.old % 256 ≡ 0 }
    requires some { 0 < F.block_len flash.old }
    requires inside { place + 8448 ≤ F.block_count flash.old * F.block_len flash.old }
    requires addressable { place + 8448 < 2 ^ 32 }
    requires few { length message.now ≤ 4084 }
    requires blank { F.tells → IsBlank (F.contents flash.old) place 32 }
    requires message_blank { F.tells → IsBlank (F.contents flash.old) (place + 256) (2 * length message.now) }
    ensures done { F.tells → OnOk result (Puts (place + 256) (paired message.now) place (header_written number (length message.now))
        (F.contents flash.old) (F.contents flash.new)) }
    ensures held { F.tells → CutsPut (place + 256) (paired message.now) place (header_written number (length message.now))
        (F.contents flash.old) (F.contents flash.new) }
    ensures left { F.tells → LeavesOnly F.moment F.left_since flash.old flash.new
        (CutsPut (place + 256) (paired message.now) place (header_written number (length message.now)) (F.contents flash.old)) }
    ensures blocks { F.block_count flash.new ≡ F.block_count flash.old }
    ensures block_size { F.block_len flash.new ≡ F.block_len flash.old }
    ensures cause { HasCause (F.faults flash.old) (F.faults flash.new) result }
{
    put_pairs(pairs, message);
    program_both(
        flash,
        place + 256,
        pairs,
        place,
        &header_bytes(number, message.len() as u32),
    )
}

/// Programs the pair of a mark.
pub(crate) fn put_mark<F: Flash>(flash: &mut F, place: u32) -> Result<(), Failed>
    requires page { F.block_len flash.old % 256 ≡ 0 }
    requires some { 0 < F.block_len flash.old }
    requires inside { place + 2 ≤ F.block_count flash.old * F.block_len flash.old }
    requires addressable { place + 2 < 2 ^ 32 }
    requires blank { F.tells → IsBlank (F.contents flash.old) place 2 }
    ensures done { F.tells → OnOk result (Changes place 2 (IsProgrammed mark_written) (F.contents flash.old) (F.contents flash.new)) }
    ensures held { F.tells → Changes place 2 (IsTornProgram mark_written) (F.contents flash.old) (F.contents flash.new) }
    ensures left { F.tells → LeavesOnly F.moment F.left_since flash.old flash.new
        (Changes place 2 (IsTornProgram mark_written) (F.contents flash.old)) }
    ensures blocks { F.block_count flash.new ≡ F.block_count flash.old }
    ensures block_size { F.block_len flash.new ≡ F.block_len flash.old }
    ensures cause { HasCause (F.faults flash.old) (F.faults flash.new) result }
{
    program_pieces(flash, place, &mark_bytes())
}

/// Programs a slot: first its bytes, and then its head.
pub(crate) fn put_slot<F: Flash>(
    flash: &mut F,
    place: u32,
    at: u32,
    bytes: &[u8],
) -> Result<(), Failed>
    requires page { F.block_len flash.old % 256 ≡ 0 }
    requires some { 0 < F.block_len flash.old }
    requires inside { place + 4352 ≤ F.block_count flash.old * F.block_len flash.old }
    requires addressable { place + 4352 < 2 ^ 32 }
    requires few { length bytes.now ≤ 4066 }
    requires blank { F.tells → IsBlank (F.contents flash.old) place 4352 }
    ensures done { F.tells → OnOk result (Puts (place + 256) bytes.now place (slot_written at (length bytes.now))
        (F.contents flash.old) (F.contents flash.new)) }
    ensures held { F.tells → CutsPut (place + 256) bytes.now place (slot_written at (length bytes.now))
        (F.contents flash.old) (F.contents flash.new) }
    ensures left { F.tells → LeavesOnly F.moment F.left_since flash.old flash.new
        (CutsPut (place + 256) bytes.now place (slot_written at (length bytes.now)) (F.contents flash.old)) }
    ensures blocks { F.block_count flash.new ≡ F.block_count flash.old }
    ensures block_size { F.block_len flash.new ≡ F.block_len flash.old }
    ensures cause { HasCause (F.faults flash.old) (F.faults flash.new) result }
{
    program_both(
        flash,
        place + 256,
        bytes,
        place,
        &slot_bytes(at, bytes.len() as u32),
    )
}

/// Programs bytes, and then others, which lie before them.
fn program_both<F: Flash>(
    flash: &mut F,
    at: u32,
    bytes: &[u8],
    next: u32,
    more: &[u8],
) -> Result<(), Failed>
    requires page { F.block_len flash.old % 256 ≡ 0 }
    requires some { 0 < F.block_len flash.old }
    requires inside { at + length bytes.now ≤ F.block_count flash.old * F.block_len flash.old }
    requires addressable { at + length bytes.now < 2 ^ 32 }
    requires blank { F.tells → IsBlank (F.contents flash.old) at (length bytes.now) }
    requires next_blank { F.tells → IsBlank (F.contents flash.old) next (length more.now) }
    requires apart { next + length more.now ≤ at }
    ensures done { F.tells → OnOk result (Puts at bytes.now next more.now (F.contents flash.old) (F.contents flash.new)) }
    ensures held { F.tells → CutsPut at bytes.now next more.now (F.contents flash.old) (F.contents flash.new) }
    ensures left { F.tells → LeavesOnly F.moment F.left_since flash.old flash.new
        (CutsPut at bytes.now next more.now (F.contents flash.old)) }
    ensures blocks { F.block_count flash.new ≡ F.block_count flash.old }
    ensures block_size { F.block_len flash.new ≡ F.block_len flash.old }
    ensures cause { HasCause (F.faults flash.old) (F.faults flash.new) result }
{
    program_pieces(flash, at, bytes)?;
    program_pieces(flash, next, more)?;
    Ok(())
}
