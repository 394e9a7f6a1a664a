//! The broadcast of a plan to a box, from its files to what boot takes.
ghost use Rattle.std.specs.Prelude.{◌≡◌, length, map};
ghost use Rattle.broadcast.specs.Broadcasts.{Broadcasts};
ghost use Rattle.broadcast.specs.Making.{of_boot, of_load};
ghost use Rattle.flash_bank.specs.Seen.{flash_seen};
ghost use Rattle.head_plan.specs.Plans.{mentions};

use crate::aired::aired_bytes;
use crate::booting::booted;
use crate::fault::ChainFault;
use crate::held::Held;
use crate::outcome::Outcome;
use crate::ranges::read_ranges;
use air_channel::Script;
use box_file::BoxFile;
use flash_bank::BootFault;
use flash_dev::Flash;
use flash_journal::JournalStage;
use head_plan::Plan;
use ssu_loader::{LoadFault, replay};
use std::alloc::Global;

/// Sends the sections of a plan whose files, mention by mention, have these bytes, `plan.turns` of them in their order of sending;
/// gives the packets, as the script changes them, to the box; and boots.
///
/// The packets are held in memory all at once. Whenever the power goes, boot takes what it took before or, as a whole, a group that
/// the packets carry whole for the box, with the places of it that the flash had staged. Where no damaged section passes for a right one,
/// and the flash had no group staged, that is the joined files of a group of the plan whose OUI, model and version are the box's and whose
/// software its rule admits.
///
/// # Errors
///
/// The first fault: `Build` where the sections are not built; `Load` where the packets come to no verdict, which is `TooLong`
/// exactly where more than 16,777,216 packets are sent, or more than that many are passed on and the first of them decide nothing;
/// `Boot` where the flash failed after the verdict, or, of a flash that does not tell what it holds, took its contents for foreign;
/// and `Memory` wherever memory ran out: before the verdict the flash is only read.
pub fn broadcast_then_boot<F: Flash>(
    alloc: Global,
    plan: &Plan,
    images: &[Vec<u8>],
    script: &Script,
    me: &BoxFile,
    flash: &mut F,
) -> Result<Outcome, ChainFault>
    requires images { length images.now ≡ length (mentions plan.now.group) }
    ensures broadcasts { Broadcasts (record { plan = plan.now; images = map (λ i. i.items) images.now; script = script.now })
        me.now result (flash_seen F.Flash flash.old flash.new) }
{
    read_ranges(plan);
    let bytes = aired_bytes(alloc, plan, images, script)?;
    let mut air = Held::new(alloc, bytes);
    let verdict = match replay::<Held, F, JournalStage>(alloc, me, &mut air, flash) {
        Ok(verdict) => verdict,
        Err(fault) => return Err(load_fault(fault)),
    };
    match booted(alloc, flash) {
        Ok((booted, image)) => Ok(Outcome {
            verdict,
            booted,
            image,
        }),
        Err(fault) => Err(boot_fault(fault)),
    }
}

/// The answer for a fault of the replay.
fn load_fault(fault: LoadFault) -> ChainFault
    ensures { result ≡ of_load fault }
{
    match fault {
        LoadFault::Memory => ChainFault::Memory,
        LoadFault::Geometry
        | LoadFault::FlashFault
        | LoadFault::Foreign
        | LoadFault::Worn
        | LoadFault::ReadFault
        | LoadFault::TooLong => ChainFault::Load(fault),
    }
}

/// The answer for a fault of the boot, which writes into memory.
fn boot_fault(fault: BootFault) -> ChainFault
    ensures { result ≡ of_boot fault }
{
    match fault {
        BootFault::Write => ChainFault::Memory,
        BootFault::Geometry | BootFault::Flash | BootFault::Foreign => ChainFault::Boot(fault),
    }
}
