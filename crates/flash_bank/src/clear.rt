//! The erase of one block, and of one whose front is not erased.
ghost use Rattle.std.specs.Prelude.{◌≡◌, ◌*◌, ◌<◌, ◌↔◌, ℕ, IsTrue, OnOk, length, slice_index};
ghost use Rattle.flash_dev.specs.Changes.{Changes, IsErased};
ghost use Rattle.flash_dev.specs.Moments.{LeavesOnly};
ghost use Rattle.flash_layout.specs.Layout.{IsInLimits, record_place};
ghost use Rattle.flash_layout.specs.Shape.{geometry};
ghost use Rattle.flash_bank.specs.Journal.{ClearsBlock};
ghost use Rattle.flash_bank.specs.Runs.{IsRaised};
ghost use Rattle.ssu_io.specs.Faults.{HasCause};

use flash_dev::Flash;
use flash_layout::Shape;
use ssu_io::Failed;

/// Erases a record block where its first 256 bytes are not all 255.
pub(crate) fn clear_record<F: Flash>(flash: &mut F, shape: Shape, block: u32) -> Result<(), Failed>
    requires limits { IsInLimits (geometry shape) }
    requires block { block < 2 }
    requires blocks { F.block_count flash.old ≡ shape.blocks }
    requires block_size { F.block_len flash.old ≡ shape.block_size }
    ensures cleared { F.tells → OnOk result (ClearsBlock (record_place (geometry shape) block) shape.block_size
        (F.contents flash.old) (F.contents flash.new)) }
    ensures held { F.tells → Changes (record_place (geometry shape) block) shape.block_size IsRaised
        (F.contents flash.old) (F.contents flash.new) }
    ensures left { F.tells → LeavesOnly F.moment F.left_since flash.old flash.new
        (Changes (record_place (geometry shape) block) shape.block_size IsRaised (F.contents flash.old)) }
    ensures blocks { F.block_count flash.new ≡ F.block_count flash.old }
    ensures block_size { F.block_len flash.new ≡ F.block_len flash.old }
    ensures cause { HasCause (F.faults flash.old) (F.faults flash.new) result }
{
    let mut front = [0u8; 256];
    flash.read(shape.record_place(block), &mut front)?;
    let blank = is_blank(&front);
    if blank {
        Ok(())
    } else {
        erase_block(flash, shape, block)
    }
}

/// Erases a block.
pub(crate) fn erase_block<F: Flash>(flash: &mut F, shape: Shape, block: u32) -> Result<(), Failed>
    requires inside { block < shape.blocks }
    requires blocks { F.block_count flash.old ≡ shape.blocks }
    requires block_size { F.block_len flash.old ≡ shape.block_size }
    ensures done { F.tells → OnOk result (Changes (block * shape.block_size) shape.block_size IsErased
        (F.contents flash.old) (F.contents flash.new)) }
    ensures held { F.tells → Changes (block * shape.block_size) shape.block_size IsRaised (F.contents flash.old) (F.contents flash.new) }
    ensures left { F.tells → LeavesOnly F.moment F.left_since flash.old flash.new
        (Changes (block * shape.block_size) shape.block_size IsRaised (F.contents flash.old)) }
    ensures blocks { F.block_count flash.new ≡ F.block_count flash.old }
    ensures block_size { F.block_len flash.new ≡ F.block_len flash.old }
    ensures cause { HasCause (F.faults flash.old) (F.faults flash.new) result }
{
    flash.erase(block)?;
    Ok(())
}

/// All bytes are erased.
fn is_blank(bytes: &[u8]) -> bool
    ensures { IsTrue result ↔ ((k : ℕ) → k < length bytes.now → slice_index bytes.now k ≡ 255) }
{
    bytes.iter().all(|byte| *byte == 255)
}
