//! The top call over a flash with spares.
ghost use Rattle.std.specs.Prelude.{◌≡◌, ◌≤◌, ◌<◌, ℕ, List, map, string_bytes};
ghost use Rattle.std.specs.Prelude.{IfErr, IsErrOf, OnOk, false};
ghost use Rattle.flash_bank.specs.Seen.{flash_seen};
ghost use Rattle.flash_dev.specs.Changes.{IsErased, IsTornErase};
ghost use Rattle.flash_remap.specs.Layout.{IsInLimits};
ghost use Rattle.flash_remap.specs.Seen.{faults_of, geometry_of, inner_of, left_of, worn_of};
ghost use Rattle.ssu_io.specs.Faults.{Rose};
ghost use Rattle.ssu_io.specs.Seen.{shelf_seen, sink_seen, source_seen};
ghost use Rattle.ssu_status.specs.Status.{OnUsage};
ghost use Rattle.ssu_status.specs.Words.{IsCommandLine, IsInRange, Task, task_of};
ghost use Rattle.ssu_status.specs.declared.status.Status.TheVariants.{FlashFault, Geometry, Usage};
ghost use Rattle.ssu_tool.specs.Does.{Does};
ghost use Rattle.ssu_tool.specs.Spared.{DoesSpared, IsDone, IsReadied, IsRefusedAtOnce};
ghost use Rattle.ssu_tool.specs.Spares.{AsksOfFlash, EndsInSpares, IsOnFlash};

use crate::opened::{Opened, Opening};
use crate::spares::Spared;
use crate::top::{dispatch, run};
use flash_dev::Flash;
use flash_remap::{Remap, RemapFault, prepare};
use ssu_io::{Shelf, Sink, Source};
use ssu_status::{Command, Status};
use std::alloc::Global;
use std::marker::Brand;

/// What `run` does, over a flash that may have spares. It gives the flash back.
///
/// Where the words end in `spares S`, with S from 1 to 255, the words before them are `format FILE`, `boot`, `migrate` or
/// `replay` with their folder, and else the answer is `Usage`. For `format` the flash is prepared first, so that no spare stands for any block;
/// then it is opened with S spares, and the command works on its logical blocks. `Geometry` comes where the flash is refused with
/// so many spares, and `FlashFault` only where it failed in this call. All other words are those of `run`.
pub fn run_spared<H: Shelf, A: Source, F: Flash, W: Sink, T: Sink>(
    alloc: Global,
    words: &[String],
    shelf: &mut H,
    air: &mut A,
    flash: F,
    made: &mut W,
    out: &mut T,
) -> (F, Status)
    // The words do not end in spares: what they ask for is done.
    ensures plain { ((front : List (List ℕ)) (spares : ℕ) → EndsInSpares (map string_bytes words.now) front spares → ⊥)
        → (task : Task) → IsCommandLine (map string_bytes words.now) task → Does task result.1
        (shelf_seen H.Shelf shelf.old shelf.new) (source_seen A.Source air.old air.new)
        (flash_seen F.Flash flash result.0) (sink_seen W.Sink made.old made.new) (sink_seen T.Sink out.old out.new) }
    ensures wrong_plain { ((front : List (List ℕ)) (spares : ℕ) → EndsInSpares (map string_bytes words.now) front spares → ⊥)
        → ((task : Task) → IsCommandLine (map string_bytes words.now) task → ⊥) → result.1 ≡ Usage }

    // They end so, behind words that do not ask for work on the flash.
    ensures wrong_spared { (front : List (List ℕ)) (spares : ℕ) → EndsInSpares (map string_bytes words.now) front spares
        → ((task : Task) → AsksOfFlash front task → ⊥) → result.1 ≡ Usage }

    // They end so, behind words that do: it is done to the flash with spares.
    ensures spared { (front : List (List ℕ)) (spares : ℕ) (task : Task) → EndsInSpares (map string_bytes words.now) front spares
        → AsksOfFlash front task → DoesSpared F.Flash task spares flash result.0 result.1
        (shelf_seen H.Shelf shelf.old shelf.new) (source_seen A.Source air.old air.new)
        (sink_seen W.Sink made.old made.new) (sink_seen T.Sink out.old out.new) }

    // At wrong words nothing is changed, and a fault of the flash is one of this call.
    ensures usage_shelf { OnUsage result.1 (shelf.new ≡ shelf.old) }
    ensures usage_air { OnUsage result.1 (air.new ≡ air.old) }
    ensures usage_flash { OnUsage result.1 (result.0 ≡ flash) }
    ensures usage_made { OnUsage result.1 (made.new ≡ made.old) }
    ensures usage_out { OnUsage result.1 (out.new ≡ out.old) }
{
    let Some(spared) = Spared::parse(words) else {
        let mut flash = flash;
        let status = run(alloc, words, shelf, air, &mut flash, made, out);
        return (flash, status);
    };
    let Spared { spares, command } = spared;
    match command {
        Some(command) => on_spares(alloc, command, spares, shelf, air, flash, made, out),
        None => (flash, Status::Usage),
    }
}

/// Does what a command asks for to a flash with so many spares.
fn on_spares<H: Shelf, A: Source, F: Flash, W: Sink, T: Sink>(
    alloc: Global,
    command: Command,
    spares: u32,
    shelf: &mut H,
    air: &mut A,
    flash: F,
    made: &mut W,
    out: &mut T,
) -> (F, Status)
    requires flash { IsOnFlash (task_of command) }
    requires range { IsInRange (task_of command) }
    ensures does { DoesSpared F.Flash (task_of command) spares flash result.0 result.1
        (shelf_seen H.Shelf shelf.old shelf.new) (source_seen A.Source air.old air.new)
        (sink_seen W.Sink made.old made.new) (sink_seen T.Sink out.old out.new) }
    ensures no_usage { OnUsage result.1 ⊥ }
{
    let mut flash = flash;
    if let Err(fault) = prepare_for(&command, &mut flash) {
        return (flash, refused(fault));
    }
    match Remap::open(flash, spares) {
        Err((flash, fault)) => (flash, refused(fault)),
        Ok(remap) => {
            served::<H, A, F, W, T, Brand>(alloc, command, shelf, air, remap, made, out)
        }
    }
}

/// Does what a command asks for to a flash with spares, from its opening on.
fn served<H: Shelf, A: Source, F: Flash, W: Sink, T: Sink, K: Opening>(
    alloc: Global,
    command: Command,
    shelf: &mut H,
    air: &mut A,
    remap: Remap<F>,
    made: &mut W,
    out: &mut T,
) -> (F, Status)
    requires flash { IsOnFlash (task_of command) }
    requires range { IsInRange (task_of command) }
    requires geometry { geometry_of remap ≡ K.geometry }
    requires count { F.faults (inner_of remap) ≡ K.count }
    requires left { left_of remap ≡ K.left }
    requires fresh { faults_of remap ≡ 0 }
    requires goes { worn_of remap ≡ false }
    ensures does { IsDone F.Flash K.Opening (task_of command) remap result.0 result.1
        (shelf_seen H.Shelf shelf.old shelf.new) (source_seen A.Source air.old air.new)
        (sink_seen W.Sink made.old made.new) (sink_seen T.Sink out.old out.new) }
    ensures no_usage { OnUsage result.1 ⊥ }
{
    let mut opened = Opened::<F, K>::of(remap);
    let status = dispatch(alloc, command, shelf, air, &mut opened, made, out);
    (opened.into_inner(), status)
}

/// For `format` the flash is prepared.
#[tactic(auto, using(crate::proofs::SparedLemmas::prepared_ok))]
fn prepare_for<F: Flash>(command: &Command, flash: &mut F) -> Result<(), RemapFault>
    ensures readied { OnOk result (IsReadied F.Flash IsErased (task_of command.now) flash.old flash.new) }
    ensures held { IsReadied F.Flash IsTornErase (task_of command.now) flash.old flash.new }
    ensures geometry { IsErrOf result RemapFault.Geometry → F.block_count flash.old < 6 }
    ensures refuses { (spares : ℕ) → IsErrOf result RemapFault.Geometry
        → IsRefusedAtOnce (task_of command.now) (F.block_count flash.old) spares }
    ensures at_once { (spares : ℕ) → IsRefusedAtOnce (task_of command.now) (F.block_count flash.old) spares → flash.new ≡ flash.old }
    ensures at_once_err { (spares : ℕ) → IsRefusedAtOnce (task_of command.now) (F.block_count flash.old) spares
        → IfErr result (λ fault. fault ≡ RemapFault.Geometry) }
    ensures at_once_ok { (spares : ℕ) → IsRefusedAtOnce (task_of command.now) (F.block_count flash.old) spares
        → OnOk result (IsInLimits (F.block_count flash.old) spares → ⊥) }
    ensures fault { IsErrOf result RemapFault.Flash → Rose (F.faults flash.old) (F.faults flash.new) }
    ensures later { F.faults flash.old ≤ F.faults flash.new }
    ensures blocks { F.block_count flash.new ≡ F.block_count flash.old }
    ensures block_size { F.block_len flash.new ≡ F.block_len flash.old }
{
    match command {
        Command::Format(_) => prepare(flash),
        _ => Ok(()),
    }
}

/// The status of a flash that is refused.
fn refused(fault: RemapFault) -> Status
    ensures geometry { fault ≡ RemapFault.Geometry → result ≡ Geometry }
    ensures flash { fault ≡ RemapFault.Flash → result ≡ FlashFault }
{
    match fault {
        RemapFault::Geometry => Status::Geometry,
        RemapFault::Flash => Status::FlashFault,
    }
}
