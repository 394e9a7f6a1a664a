//! `boot`: the image that boot takes.
ghost use Rattle.std.specs.Prelude.{◌≡◌};
ghost use Rattle.flash_bank.specs.Seen.{flash_seen};
ghost use Rattle.ssu_io.specs.Seen.{sink_seen};
ghost use Rattle.tool_flash.specs.Boots.{record_line};
ghost use Rattle.tool_flash.specs.Does.{BootDoes};

use crate::printing::print;
use flash_bank::{BootFault, Record};
use flash_dev::Flash;
use ssu_io::Sink;
use ssu_line::Line;
use ssu_status::Status;

/// Puts the image that boot takes into `made`, and the line `boot bank B number N software M.V bytes L` into `out`. It does not
/// change the flash.
///
/// `Done`; `Geometry` where the number or the length of the blocks is out of the limits, `FlashFault` where the flash failed,
/// `Foreign` where its contents are not sound, and `WriteFault` where `made` or `out` failed.
pub fn boot<F: Flash, W: Sink, T: Sink>(flash: &mut F, made: &mut W, out: &mut T) -> Status
    ensures does { BootDoes result (flash_seen F.Flash flash.old flash.new) (sink_seen W.Sink made.old made.new)
        (sink_seen T.Sink out.old out.new) }
{
    match flash_bank::boot(flash, made) {
        Ok(head) => print(&line_of(head), out),
        Err(BootFault::Geometry) => Status::Geometry,
        Err(BootFault::Flash) => Status::FlashFault,
        Err(BootFault::Foreign) => Status::Foreign,
        Err(BootFault::Write) => Status::WriteFault,
    }
}

/// What is printed of the record.
fn line_of(head: Record) -> Line
    ensures { result.bytes ≡ record_line head }
{
    ssu_line::booted(head.bank, head.number, head.software, head.length)
}
