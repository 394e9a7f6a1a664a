//! The first record and image of a flash.
ghost use Rattle.std.specs.Prelude.{◌≡◌, ◌⊎◌, ◌↔◌, ◌+◌, ◌*◌, ◌<◌, ◌≤◌, length, IfOk, IsErrOf, IsTrue, OnErr, OnOk};
ghost use Rattle.flash_dev.specs.Changes.{Changes, IsErased};
ghost use Rattle.flash_layout.specs.Layout.{HasJournals, IsInLimits, bank_len, blocks_of, journal_place};
ghost use Rattle.flash_layout.specs.Shape.{geometry};
ghost use Rattle.flash_bank.specs.Format.{Formats, PutsFirst, SameOutsideFirst, first_record, journal_in, layout_for};
ghost use Rattle.flash_bank.specs.Record.{IsInRange};
ghost use Rattle.flash_bank.specs.Runs.{IsRaised, OnlyReads};
ghost use Rattle.ssu_io.specs.Faults.{HasCause, Rose};

use crate::encoding::encoded;
use crate::fault::FormatFault;
use crate::record::Record;
use crate::runs::{erase_blocks, program_pieces};
use flash_dev::Flash;
use flash_layout::{Shape, shape_of};
use ssu_compat::SwId;
use ssu_io::Failed;

/// Formats a flash with layout 2 where it exists, which is where an area has 1,048,576 bytes, and else with layout 1: erases both record
/// blocks, area 0 and in layout 2 the journal of area 1, puts the image into bank 0, and writes record 1 over it. Of a power loss within
/// it nothing is promised.
///
/// Answers `Geometry` exactly where the number or the length of the blocks is out of the limits of the layout: 4 to
/// 65,536 blocks of 256 to 65,536 bytes, a multiple of 256, and 268,435,456 bytes at most; else `NoFit` exactly where
/// the image has more bytes than a bank of that layout; `Flash` only where the flash failed and its count of faults rose. The first
/// two change nothing. At `Flash` the other bank and an odd last block are as they were.
pub fn format<F: Flash>(flash: &mut F, image: &[u8], software: SwId) -> Result<Record, FormatFault>
    ensures head { IfOk result (λ head. head ≡ first_record (layout_for (blocks_of F.Flash flash.old)) (length image.now) software) }
    ensures formatted { F.tells → IfOk result (λ head. Formats (blocks_of F.Flash flash.old)
        head image.now (F.contents flash.old) (F.contents flash.new)) }

    // The number or the length of the blocks is out of the limits.
    ensures geometry { IsErrOf result FormatFault.Geometry
        ↔ (IsInLimits (blocks_of F.Flash flash.old) → ⊥) }

    // The image is longer than a bank.
    ensures no_fit { IsErrOf result FormatFault.NoFit
        ↔ (IsInLimits (blocks_of F.Flash flash.old)
        × (bank_len (blocks_of F.Flash flash.old) (layout_for (blocks_of F.Flash flash.old)) < length image.now)) }
    ensures fault { IsErrOf result FormatFault.Flash → Rose (F.faults flash.old) (F.faults flash.new) }

    // Whatever it answers, the other bank and an odd last block are as they were.
    ensures outside { F.tells → SameOutsideFirst (blocks_of F.Flash flash.old) (layout_for (blocks_of F.Flash flash.old))
        (F.contents flash.old) (F.contents flash.new) }

    // A refusal changes nothing.
    ensures refused { (IsErrOf result FormatFault.Flash → ⊥) → OnErr result
        (OnlyReads F.tells F.contents F.block_count F.block_len F.moment F.left_since flash.old flash.new) }
    ensures blocks { F.block_count flash.new ≡ F.block_count flash.old }
    ensures block_size { F.block_len flash.new ≡ F.block_len flash.old }
    ensures faults { F.faults flash.old ≤ F.faults flash.new }
{
    let Some(shape) = shape_of(flash) else {
        return Err(FormatFault::Geometry);
    };
    format_as(flash, shape, layout_of_shape(shape), image, software)
}

/// The same with layout 1 always: both record blocks and area 0 are erased, and the image is put there.
pub fn format_one<F: Flash>(
    flash: &mut F,
    image: &[u8],
    software: SwId,
) -> Result<Record, FormatFault>
    ensures head { IfOk result (λ head. head ≡ first_record 1 (length image.now) software) }
    ensures formatted { F.tells → IfOk result (λ head. Formats (blocks_of F.Flash flash.old)
        head image.now (F.contents flash.old) (F.contents flash.new)) }

    // The number or the length of the blocks is out of the limits.
    ensures geometry { IsErrOf result FormatFault.Geometry
        ↔ (IsInLimits (blocks_of F.Flash flash.old) → ⊥) }

    // The image is longer than an area.
    ensures no_fit { IsErrOf result FormatFault.NoFit
        ↔ (IsInLimits (blocks_of F.Flash flash.old)
        × (bank_len (blocks_of F.Flash flash.old) 1 < length image.now)) }
    ensures fault { IsErrOf result FormatFault.Flash → Rose (F.faults flash.old) (F.faults flash.new) }

    // Whatever it answers, area 1 and an odd last block are as they were.
    ensures outside { F.tells → SameOutsideFirst (blocks_of F.Flash flash.old) 1
        (F.contents flash.old) (F.contents flash.new) }

    // A refusal changes nothing.
    ensures refused { (IsErrOf result FormatFault.Flash → ⊥) → OnErr result
        (OnlyReads F.tells F.contents F.block_count F.block_len F.moment F.left_since flash.old flash.new) }
    ensures blocks { F.block_count flash.new ≡ F.block_count flash.old }
    ensures block_size { F.block_len flash.new ≡ F.block_len flash.old }
    ensures faults { F.faults flash.old ≤ F.faults flash.new }
{
    let Some(shape) = shape_of(flash) else {
        return Err(FormatFault::Geometry);
    };
    format_as(flash, shape, 1, image, software)
}

/// The layout that a flash of this shape is formatted with.
fn layout_of_shape(shape: Shape) -> u8
    requires { IsInLimits (geometry shape) }
    ensures value { result ≡ layout_for (geometry shape) }
    ensures room { result ≡ 2 → HasJournals (geometry shape) }
    ensures least { 1 ≤ result }
    ensures most { result ≤ 2 }
{
    let two = shape.has_journals();
    if two { 2 } else { 1 }
}

/// Formats a flash with this layout.
fn format_as<F: Flash>(
    flash: &mut F,
    shape: Shape,
    layout: u8,
    image: &[u8],
    software: SwId,
) -> Result<Record, FormatFault>
    requires limits { IsInLimits (geometry shape) }
    requires least { 1 ≤ layout }
    requires most { layout ≤ 2 }
    requires room { layout ≡ 2 → HasJournals (geometry shape) }
    requires blocks { F.block_count flash.old ≡ shape.blocks }
    requires block_size { F.block_len flash.old ≡ shape.block_size }
    requires whole { F.tells → length (F.contents flash.old) ≡ F.block_count flash.old * F.block_len flash.old }
    ensures head { IfOk result (λ head. head ≡ first_record layout (length image.now) software) }
    ensures formatted { F.tells → IfOk result (λ head. Formats (geometry shape) head image.now (F.contents flash.old) (F.contents flash.new)) }
    ensures no_geometry { IsErrOf result FormatFault.Geometry → ⊥ }
    ensures no_fit { IsErrOf result FormatFault.NoFit ↔ (bank_len (geometry shape) layout < length image.now) }
    ensures fault { IsErrOf result FormatFault.Flash → Rose (F.faults flash.old) (F.faults flash.new) }
    ensures outside { F.tells → SameOutsideFirst (geometry shape) layout (F.contents flash.old) (F.contents flash.new) }
    ensures refused { (IsErrOf result FormatFault.Flash → ⊥) → OnErr result
        (OnlyReads F.tells F.contents F.block_count F.block_len F.moment F.left_since flash.old flash.new) }
    ensures blocks { F.block_count flash.new ≡ F.block_count flash.old }
    ensures block_size { F.block_len flash.new ≡ F.block_len flash.old }
    ensures faults { F.faults flash.old ≤ F.faults flash.new }
{
    if image.len() > shape.bank_len(layout) as usize {
        return Err(FormatFault::NoFit);
    }
    let head = Record {
        layout,
        number: 1,
        bank: 0,
        length: image.len() as u32,
        software,
        group: 0,
    };
    match put_first(flash, shape, image, head) {
        Ok(()) => Ok(head),
        Err(_) => Err(FormatFault::Flash),
    }
}

/// Erases, puts the image into bank 0 and its record into block 0.
fn put_first<F: Flash>(
    flash: &mut F,
    shape: Shape,
    image: &[u8],
    head: Record,
) -> Result<(), Failed>
    requires limits { IsInLimits (geometry shape) }
    requires blocks { F.block_count flash.old ≡ shape.blocks }
    requires block_size { F.block_len flash.old ≡ shape.block_size }
    requires room { head.layout ≡ 2 → HasJournals (geometry shape) }
    requires fits { length image.now ≤ bank_len (geometry shape) head.layout }
    requires layout { (head.layout ≡ 1) ⊎ (head.layout ≡ 2) }
    ensures done { F.tells → OnOk result (PutsFirst (geometry shape) image.now head (F.contents flash.old) (F.contents flash.new)) }
    ensures in_range { OnOk result (IsInRange head) }
    ensures outside { F.tells → SameOutsideFirst (geometry shape) head.layout (F.contents flash.old) (F.contents flash.new) }
    ensures blocks { F.block_count flash.new ≡ F.block_count flash.old }
    ensures block_size { F.block_len flash.new ≡ F.block_len flash.old }
    ensures cause { HasCause (F.faults flash.old) (F.faults flash.new) result }
{
    erase_blocks(flash, 0, 2)?;
    erase_blocks(flash, shape.area_block(0), shape.area_blocks())?;
    erase_other_journal(flash, shape, head.layout)?;
    program_pieces(flash, shape.area_place(0), image)?;
    flash.program(0, &encoded(head))?;
    Ok(())
}

/// In layout 2, erases the journal of area 1.
fn erase_other_journal<F: Flash>(flash: &mut F, shape: Shape, layout: u8) -> Result<(), Failed>
    requires limits { IsInLimits (geometry shape) }
    requires room { layout ≡ 2 → HasJournals (geometry shape) }
    requires blocks { F.block_count flash.old ≡ shape.blocks }
    requires block_size { F.block_len flash.old ≡ shape.block_size }
    ensures done { F.tells → OnOk result (Changes (journal_place (geometry shape) 1) (journal_in (geometry shape) layout)
        IsErased (F.contents flash.old) (F.contents flash.new)) }
    ensures held { F.tells → Changes (journal_place (geometry shape) 1) (journal_in (geometry shape) layout)
        IsRaised (F.contents flash.old) (F.contents flash.new) }
    ensures blocks { F.block_count flash.new ≡ F.block_count flash.old }
    ensures block_size { F.block_len flash.new ≡ F.block_len flash.old }
    ensures cause { HasCause (F.faults flash.old) (F.faults flash.new) result }
{
    let two = is_second(layout);
    if two {
        erase_blocks(flash, shape.journal_block(1), shape.journal_blocks())
    } else {
        Ok(())
    }
}

fn is_second(layout: u8) -> bool
    ensures { IsTrue result ↔ layout ≡ 2 }
{
    layout == 2
}
