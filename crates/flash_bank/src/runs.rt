//! Runs of flash calls: the erase of neighbouring blocks, and the program of a text in pieces.
ghost use Rattle.std.specs.Prelude.{◌≡◌, ◌⊎◌, ◌+◌, ◌*◌, ◌%◌, ◌^◌, ◌<◌, ◌≤◌, length, OnOk};
ghost use Rattle.flash_dev.specs.Changes.{Changes, IsBlank, IsErased, IsProgrammed, IsTornProgram};
ghost use Rattle.flash_dev.specs.Moments.{LeavesOnly};
ghost use Rattle.flash_layout.specs.Layout.{HasJournals, IsInLimits, journal_len, journal_place};
ghost use Rattle.flash_layout.specs.Shape.{geometry};
ghost use Rattle.flash_bank.specs.Runs.{CutsInPage, IsRaised};
ghost use Rattle.flash_bank.specs.Spare.{Cleared, CutsJournal, CutsSpare};
ghost use Rattle.ssu_io.specs.Faults.{HasCause};

use flash_dev::Flash;
use flash_layout::Shape;
use ssu_io::Failed;

/// Erases so many blocks from the first one on, in ascending order.
pub(crate) fn erase_blocks<F: Flash>(flash: &mut F, first: u32, count: u32) -> Result<(), Failed>
    requires inside { first + count ≤ F.block_count flash.old }
    requires few { first + count < 2 ^ 32 }
    ensures done { F.tells → OnOk result (Changes (first * F.block_len flash.old) (count * F.block_len flash.old)
        IsErased (F.contents flash.old) (F.contents flash.new)) }
    ensures held { F.tells → Changes (first * F.block_len flash.old) (count * F.block_len flash.old)
        IsRaised (F.contents flash.old) (F.contents flash.new) }
    ensures left { F.tells → LeavesOnly F.moment F.left_since flash.old flash.new
        (Changes (first * F.block_len flash.old) (count * F.block_len flash.old) IsRaised (F.contents flash.old)) }
    ensures blocks { F.block_count flash.new ≡ F.block_count flash.old }
    ensures block_size { F.block_len flash.new ≡ F.block_len flash.old }
    ensures cause { HasCause (F.faults flash.old) (F.faults flash.new) result }
{
    for i in 0..count {
        flash.erase(first + i)?;
    }
    Ok(())
}

/// Programs bytes in pieces, each of which ends at a multiple of 256 of the address or with the bytes.
pub(crate) fn program_pieces<F: Flash>(flash: &mut F, at: u32, bytes: &[u8]) -> Result<(), Failed>
    requires page { F.block_len flash.old % 256 ≡ 0 }
    requires some { 0 < F.block_len flash.old }
    requires inside { at + length bytes.now ≤ F.block_count flash.old * F.block_len flash.old }
    requires addressable { at + length bytes.now < 2 ^ 32 }
    requires blank { F.tells → IsBlank (F.contents flash.old) at (length bytes.now) }
    ensures done { F.tells → OnOk result (Changes at (length bytes.now)
        (IsProgrammed bytes.now) (F.contents flash.old) (F.contents flash.new)) }
    ensures held { F.tells → Changes at (length bytes.now)
        (IsTornProgram bytes.now) (F.contents flash.old) (F.contents flash.new) }
    ensures left { F.tells → LeavesOnly F.moment F.left_since flash.old flash.new
        (Changes at (length bytes.now) (IsTornProgram bytes.now) (F.contents flash.old)) }

    // Each call is for one piece, within its page of 256 bytes.
    ensures pages { F.tells → LeavesOnly F.moment F.left_since flash.old flash.new
        (CutsInPage at bytes.now (F.contents flash.old)) }
    ensures blocks { F.block_count flash.new ≡ F.block_count flash.old }
    ensures block_size { F.block_len flash.new ≡ F.block_len flash.old }
    ensures cause { HasCause (F.faults flash.old) (F.faults flash.new) result }
{
    let mut done = 0usize;
    while done < bytes.len() {
        let place = at as usize + done;
        let end = done + piece_len(place, bytes.len() - done);
        flash.program(place as u32, &bytes[done..end])?;
        done = end;
    }
    Ok(())
}

/// The length of the piece at an address: up to the next multiple of 256, or what is left.
fn piece_len(place: usize, left: usize) -> usize
    requires { 0 < left }
    ensures some { 0 < result }
    ensures few { result ≤ 256 }
    ensures page { place % 256 + result ≤ 256 }
    ensures ends { ((place + result) % 256 ≡ 0) ⊎ (result ≡ left) }
    ensures inside { result ≤ left }
{
    left.min(256 - place % 256)
}

/// Erases the blocks of the journal of an area, the first one first.
pub(crate) fn erase_journal<F: Flash>(flash: &mut F, shape: Shape, area: u8) -> Result<(), Failed>
    requires limits { IsInLimits (geometry shape) }
    requires room { HasJournals (geometry shape) }
    requires area { area < 2 }
    requires blocks { F.block_count flash.old ≡ shape.blocks }
    requires block_size { F.block_len flash.old ≡ shape.block_size }
    ensures done { F.tells → OnOk result (Changes (journal_place (geometry shape) area) (journal_len (geometry shape))
        IsErased (F.contents flash.old) (F.contents flash.new)) }
    ensures held { F.tells → CutsJournal (geometry shape) area (F.contents flash.old) (F.contents flash.new) }
    ensures left { F.tells → LeavesOnly F.moment F.left_since flash.old flash.new (CutsJournal (geometry shape) area (F.contents flash.old)) }
    ensures blocks { F.block_count flash.new ≡ F.block_count flash.old }
    ensures block_size { F.block_len flash.new ≡ F.block_len flash.old }
    ensures cause { HasCause (F.faults flash.old) (F.faults flash.new) result }
{
    let first = shape.journal_block(area);
    let rest = shape.journal_blocks() - 1;
    flash.erase(first)?;
    erase_blocks(flash, first + 1, rest)
}

/// Erases the spare record block, and then the spare area: in layout 2 its journal before its bank.
pub(crate) fn erase_spare<F: Flash>(
    flash: &mut F,
    shape: Shape,
    layout: u8,
    block: u32,
    area: u8,
) -> Result<(), Failed>
    requires limits { IsInLimits (geometry shape) }
    requires room { layout ≡ 2 → HasJournals (geometry shape) }
    requires block { block < 2 }
    requires area { area < 2 }
    requires blocks { F.block_count flash.old ≡ shape.blocks }
    requires block_size { F.block_len flash.old ≡ shape.block_size }
    ensures done { F.tells → OnOk result (Cleared (geometry shape) layout block area (F.contents flash.old) (F.contents flash.new)) }
    ensures held { F.tells → CutsSpare (geometry shape) layout block area (F.contents flash.old) (F.contents flash.new) }
    ensures left { F.tells → LeavesOnly F.moment F.left_since flash.old flash.new
        (CutsSpare (geometry shape) layout block area (F.contents flash.old)) }
    ensures blocks { F.block_count flash.new ≡ F.block_count flash.old }
    ensures block_size { F.block_len flash.new ≡ F.block_len flash.old }
    ensures cause { HasCause (F.faults flash.old) (F.faults flash.new) result }
{
    if layout == 2 {
        erase_spare_two(flash, shape, layout, block, area)
    } else {
        erase_spare_one(flash, shape, layout, block, area)
    }
}

fn erase_spare_one<F: Flash>(
    flash: &mut F,
    shape: Shape,
    layout: u8,
    block: u32,
    area: u8,
) -> Result<(), Failed>
    requires limits { IsInLimits (geometry shape) }
    requires one { layout ≡ 2 → ⊥ }
    requires block { block < 2 }
    requires area { area < 2 }
    requires blocks { F.block_count flash.old ≡ shape.blocks }
    requires block_size { F.block_len flash.old ≡ shape.block_size }
    ensures done { F.tells → OnOk result (Cleared (geometry shape) layout block area (F.contents flash.old) (F.contents flash.new)) }
    ensures held { F.tells → CutsSpare (geometry shape) layout block area (F.contents flash.old) (F.contents flash.new) }
    ensures left { F.tells → LeavesOnly F.moment F.left_since flash.old flash.new
        (CutsSpare (geometry shape) layout block area (F.contents flash.old)) }
    ensures blocks { F.block_count flash.new ≡ F.block_count flash.old }
    ensures block_size { F.block_len flash.new ≡ F.block_len flash.old }
    ensures cause { HasCause (F.faults flash.old) (F.faults flash.new) result }
{
    flash.erase(block)?;
    erase_blocks(flash, shape.area_block(area), shape.area_blocks())
}

fn erase_spare_two<F: Flash>(
    flash: &mut F,
    shape: Shape,
    layout: u8,
    block: u32,
    area: u8,
) -> Result<(), Failed>
    requires limits { IsInLimits (geometry shape) }
    requires room { HasJournals (geometry shape) }
    requires block { block < 2 }
    requires area { area < 2 }
    requires blocks { F.block_count flash.old ≡ shape.blocks }
    requires block_size { F.block_len flash.old ≡ shape.block_size }
    ensures done { F.tells → OnOk result (Cleared (geometry shape) layout block area (F.contents flash.old) (F.contents flash.new)) }
    ensures held { F.tells → CutsSpare (geometry shape) layout block area (F.contents flash.old) (F.contents flash.new) }
    ensures left { F.tells → LeavesOnly F.moment F.left_since flash.old flash.new
        (CutsSpare (geometry shape) layout block area (F.contents flash.old)) }
    ensures blocks { F.block_count flash.new ≡ F.block_count flash.old }
    ensures block_size { F.block_len flash.new ≡ F.block_len flash.old }
    ensures cause { HasCause (F.faults flash.old) (F.faults flash.new) result }
{
    let first = shape.area_block(area);
    let count = shape.area_blocks() - shape.journal_blocks();
    flash.erase(block)?;
    erase_journal(flash, shape, area)?;
    erase_blocks(flash, first, count)
}
