//! A flash of layout 1 becomes one of layout 2, in which its image stays where it is.
//!
//! What is erased is no part of what boot takes of layout 1: the spare record, the spare area, and of the current area the end,
//! which the image does not reach. Once both journals are erased, the record of layout 2 stands for the same bytes.
ghost use Rattle.std.specs.Prelude.{◌≡◌, ◌↔◌, ◌<◌, ◌≤◌, IfOk, IsErrOf, IsTrue, OnErr, OnOk};
ghost use Rattle.flash_dev.specs.Moments.{LeavesOnly};
ghost use Rattle.flash_layout.specs.Layout.{HasJournals, IsInLimits, blocks_of};
ghost use Rattle.flash_layout.specs.Shape.{geometry};
ghost use Rattle.flash_bank.specs.Find.{Finds};
ghost use Rattle.flash_bank.specs.Layout.{IsPlaced};
ghost use Rattle.flash_bank.specs.Migrate.{HasRoom, IsExact, IsMigrated, IsWornOut, LacksRoom, LeavesMoved, Migrates, Movable, MovesBoot};
ghost use Rattle.flash_bank.specs.Migrate.{OnAlready, OnNow, moved_record};
ghost use Rattle.flash_bank.specs.Runs.{OnlyReads};
ghost use Rattle.flash_bank.specs.Sound.{IsSound};
ghost use Rattle.flash_bank.specs.declared.record.Record.{Record as Head};
ghost use Rattle.ssu_io.specs.Faults.{HasCause, Rose};

use crate::encoding::encoded;
use crate::fault::MigrateFault;
use crate::find::{Current, find_current};
use crate::record::Record;
use crate::runs::{erase_journal, erase_spare};
use flash_dev::Flash;
use flash_layout::{Shape, shape_of};
use ssu_io::Failed;

/// What `migrate` found or did.
#[derive(Clone, Copy, Debug, PartialEq, Eq)]
pub enum Migrated {
    /// The flash has layout 2 now, and this is its current record.
    Now(Record),
    /// It had layout 2 already, with this current record, and nothing was changed.
    Already(Record),
}

/// Turns a flash of layout 1 into one of layout 2: erases the spare record block, the spare area, and the journal of the current
/// area, and writes into the spare record block a record of layout 2 with the next number, over the image as it stands. At every
/// moment boot takes that image, with its software and group.
///
/// Answers `Geometry` exactly where the number or the length of the blocks is out of the limits of the layout: 4 to
/// 65,536 blocks of 256 to 65,536 bytes, a multiple of 256, and 268,435,456 bytes at most; `Flash` only where the
/// flash failed and its count of faults rose; `Foreign` where the contents are not sound; then `Already` where the current record is
/// of layout 2; then `Worn` where it has the greatest number, 4,294,967,295; then `NoFit` where the flash has no layout 2, which is
/// where an area has less than 1,048,576 bytes, or where the image is longer than a bank of it. All but `Flash` and `Now` change
/// nothing, and contents that are not sound are never changed.
pub fn migrate<F: Flash>(flash: &mut F) -> Result<Migrated, MigrateFault>
    ensures now { F.tells → IfOk result (λ migrated. OnNow migrated (λ new.
        Migrates (blocks_of F.Flash flash.old) new (F.contents flash.old) (F.contents flash.new))) }

    // The current record is of layout 2.
    ensures already { F.tells → IfOk result (λ migrated. OnAlready migrated (λ head.
        IsMigrated (blocks_of F.Flash flash.old) (F.contents flash.old) head)) }

    // The number or the length of the blocks is out of the limits.
    ensures geometry { IsErrOf result MigrateFault.Geometry
        ↔ (IsInLimits (blocks_of F.Flash flash.old) → ⊥) }
    ensures fault { IsErrOf result MigrateFault.Flash → Rose (F.faults flash.old) (F.faults flash.new) }

    // The contents are not sound.
    ensures foreign { F.tells → IsErrOf result MigrateFault.Foreign
        → IsSound (blocks_of F.Flash flash.old) (F.contents flash.old) → ⊥ }

    // The current record is of layout 1 and has the greatest number.
    ensures worn { F.tells → IsErrOf result MigrateFault.Worn
        → (head : Head) × IsWornOut (blocks_of F.Flash flash.old) (F.contents flash.old) head }

    // It is of layout 1 and has a lesser number, and layout 2 has no room for its image.
    ensures no_fit { F.tells → IsErrOf result MigrateFault.NoFit
        → (head : Head) × LacksRoom (blocks_of F.Flash flash.old) (F.contents flash.old) head }

    // Each of these causes brings its answer about, unless the flash failed.
    ensures exact { F.tells → IsInLimits (blocks_of F.Flash flash.old)
        → IsExact (blocks_of F.Flash flash.old) (F.contents flash.old) result }

    // At every moment boot takes the former image.
    ensures held { F.tells → IsSound (blocks_of F.Flash flash.old) (F.contents flash.old)
        → LeavesMoved (blocks_of F.Flash flash.old) (F.contents flash.old) (F.contents flash.new) }
    ensures left { F.tells → IsSound (blocks_of F.Flash flash.old) (F.contents flash.old)
        → LeavesOnly F.moment F.left_since flash.old flash.new
        (LeavesMoved (blocks_of F.Flash flash.old) (F.contents flash.old)) }

    // A refusal changes nothing, and contents that are not sound are left alone.
    ensures refused { (IsErrOf result MigrateFault.Flash → ⊥) → OnErr result
        (OnlyReads F.tells F.contents F.block_count F.block_len F.moment F.left_since flash.old flash.new) }
    ensures unchanged { IfOk result (λ migrated. OnAlready migrated (λ head.
        OnlyReads F.tells F.contents F.block_count F.block_len F.moment F.left_since flash.old flash.new)) }
    ensures unsound { F.tells → (IsSound (blocks_of F.Flash flash.old) (F.contents flash.old) → ⊥)
        → OnlyReads F.tells F.contents F.block_count F.block_len F.moment F.left_since flash.old flash.new }
    ensures blocks { F.block_count flash.new ≡ F.block_count flash.old }
    ensures block_size { F.block_len flash.new ≡ F.block_len flash.old }
    ensures faults { F.faults flash.old ≤ F.faults flash.new }
{
    let Some(shape) = shape_of(flash) else {
        return Err(MigrateFault::Geometry);
    };
    match find_current(flash, shape) {
        Err(_) => Err(MigrateFault::Flash),
        Ok(None) => Err(MigrateFault::Foreign),
        Ok(Some(current)) => migrate_found(flash, shape, current),
    }
}

/// The same, once the current record was found.
fn migrate_found<F: Flash>(
    flash: &mut F,
    shape: Shape,
    current: Current,
) -> Result<Migrated, MigrateFault>
    requires limits { IsInLimits (geometry shape) }
    requires block { current.block < 2 }
    requires placed { IsPlaced (geometry shape) current.head }
    requires blocks { F.block_count flash.old ≡ shape.blocks }
    requires block_size { F.block_len flash.old ≡ shape.block_size }
    requires found { F.tells → Finds (geometry shape) (F.contents flash.old) current }
    ensures now { F.tells → IfOk result (λ migrated. OnNow migrated (λ new.
        Migrates (geometry shape) new (F.contents flash.old) (F.contents flash.new))) }
    ensures already { F.tells → IfOk result (λ migrated. OnAlready migrated (λ head.
        IsMigrated (geometry shape) (F.contents flash.old) head)) }
    ensures no_geometry { IsErrOf result MigrateFault.Geometry → ⊥ }
    ensures fault { IsErrOf result MigrateFault.Flash → Rose (F.faults flash.old) (F.faults flash.new) }
    ensures no_foreign { IsErrOf result MigrateFault.Foreign → ⊥ }
    ensures worn { F.tells → IsErrOf result MigrateFault.Worn → IsWornOut (geometry shape) (F.contents flash.old) current.head }
    ensures no_fit { F.tells → IsErrOf result MigrateFault.NoFit → LacksRoom (geometry shape) (F.contents flash.old) current.head }
    ensures exact { F.tells → IsExact (geometry shape) (F.contents flash.old) result }
    ensures held { F.tells → LeavesMoved (geometry shape) (F.contents flash.old) (F.contents flash.new) }
    ensures left { F.tells → LeavesOnly F.moment F.left_since flash.old flash.new (LeavesMoved (geometry shape) (F.contents flash.old)) }
    ensures refused { (IsErrOf result MigrateFault.Flash → ⊥) → OnErr result (flash.new ≡ flash.old) }
    ensures unchanged { IfOk result (λ migrated. OnAlready migrated (λ head. flash.new ≡ flash.old)) }
    ensures blocks { F.block_count flash.new ≡ F.block_count flash.old }
    ensures block_size { F.block_len flash.new ≡ F.block_len flash.old }
    ensures faults { F.faults flash.old ≤ F.faults flash.new }
{
    if current.head.layout == 2 {
        return Ok(Migrated::Already(current.head));
    }
    if current.head.number == u32::MAX {
        return Err(MigrateFault::Worn);
    }
    let fits = has_room(shape, current.head);
    if !fits {
        return Err(MigrateFault::NoFit);
    }
    match move_record(flash, shape, current.block, current.head) {
        Ok(new) => Ok(Migrated::Now(new)),
        Err(_) => Err(MigrateFault::Flash),
    }
}

/// The flash has layout 2, and the image of the record is not longer than a bank of it.
fn has_room(shape: Shape, head: Record) -> bool
    requires { IsInLimits (geometry shape) }
    ensures { IsTrue result ↔ HasRoom (geometry shape) head }
{
    shape.has_journals() && head.length <= shape.short_len()
}

/// Erases what is spare and the journal of the current area, and writes a record of layout 2 over the image of the current one.
fn move_record<F: Flash>(
    flash: &mut F,
    shape: Shape,
    block: u32,
    old: Record,
) -> Result<Record, Failed>
    requires limits { IsInLimits (geometry shape) }
    requires room { HasJournals (geometry shape) }
    requires block { block < 2 }
    requires bank { old.bank < 2 }
    requires next { old.number < 4294967295 }
    requires blocks { F.block_count flash.old ≡ shape.blocks }
    requires block_size { F.block_len flash.old ≡ shape.block_size }
    requires can { F.tells → Movable (geometry shape) block old (F.contents flash.old) }
    ensures value { IfOk result (λ new. new ≡ moved_record old) }
    ensures done { F.tells → OnOk result (MovesBoot (geometry shape) block old (F.contents flash.old) (F.contents flash.new)) }
    ensures held { F.tells → LeavesMoved (geometry shape) (F.contents flash.old) (F.contents flash.new) }
    ensures left { F.tells → LeavesOnly F.moment F.left_since flash.old flash.new (LeavesMoved (geometry shape) (F.contents flash.old)) }
    ensures blocks { F.block_count flash.new ≡ F.block_count flash.old }
    ensures block_size { F.block_len flash.new ≡ F.block_len flash.old }
    ensures cause { HasCause (F.faults flash.old) (F.faults flash.new) result }
{
    let new = Record {
        layout: 2,
        number: old.number + 1,
        bank: old.bank,
        length: old.length,
        software: old.software,
        group: old.group,
    };
    erase_spare(flash, shape, 1, 1 - block, 1 - old.bank)?;
    erase_journal(flash, shape, old.bank)?;
    flash.program(shape.record_place(1 - block), &encoded(new))?;
    Ok(new)
}
