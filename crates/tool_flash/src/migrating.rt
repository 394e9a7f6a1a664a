//! `migrate`: layout 2 in place of layout 1.
ghost use Rattle.std.specs.Prelude.{◌≡◌};
ghost use Rattle.flash_bank.specs.Seen.{flash_seen};
ghost use Rattle.ssu_io.specs.Seen.{sink_seen};
ghost use Rattle.tool_flash.specs.Does.{MigrateDoes};
ghost use Rattle.tool_flash.specs.Migrating.{migrated_text};

use crate::printing::print;
use flash_bank::{MigrateFault, Migrated};
use flash_dev::Flash;
use ssu_io::Sink;
use ssu_line::Line;
use ssu_status::Status;

/// Turns a flash of layout 1 into one of layout 2 with the same image, and puts the line `migrated bytes L number N` into `out`, or
/// `already layout 2 number N` where it has layout 2 already. At every moment boot takes the former image, with its software and group.
///
/// `Done`; in this order `Geometry` where the number or the length of the blocks is out of the limits, `FlashFault` where the flash
/// failed, `Foreign` where its contents are not sound, `Worn` where the current record has the greatest number, and `NoFit` where
/// the flash has no layout 2 or the image is longer than a bank of it; then `FlashFault` where the flash failed, and `WriteFault`
/// where `out` did.
pub fn migrate<F: Flash, T: Sink>(flash: &mut F, out: &mut T) -> Status
    ensures does { MigrateDoes result (flash_seen F.Flash flash.old flash.new) (sink_seen T.Sink out.old out.new) }
{
    match flash_bank::migrate(flash) {
        Ok(migrated) => print(&line_of(migrated), out),
        Err(MigrateFault::Geometry) => Status::Geometry,
        Err(MigrateFault::Flash) => Status::FlashFault,
        Err(MigrateFault::Foreign) => Status::Foreign,
        Err(MigrateFault::Worn) => Status::Worn,
        Err(MigrateFault::NoFit) => Status::NoFit,
    }
}

/// What is printed of it.
fn line_of(migrated: Migrated) -> Line
    ensures { result.bytes ≡ migrated_text migrated }
{
    match migrated {
        Migrated::Now(head) => ssu_line::migrated(head.length, head.number),
        Migrated::Already(head) => ssu_line::already(head.number),
    }
}
