//! The top call: what the words ask for.
ghost use Rattle.std.specs.Prelude.{◌≡◌, map, string_bytes};
ghost use Rattle.flash_bank.specs.Seen.{flash_seen};
ghost use Rattle.ssu_io.specs.Seen.{shelf_seen, sink_seen, source_seen};
ghost use Rattle.ssu_status.specs.Status.{OnUsage};
ghost use Rattle.ssu_status.specs.Words.{IsCommandLine, IsInRange, Task, task_of};
ghost use Rattle.ssu_status.specs.declared.status.Status.TheVariants.{Usage};
ghost use Rattle.ssu_tool.specs.Does.{Does};

use flash_dev::Flash;
use flash_journal::JournalStage;
use ssu_io::{Shelf, Sink, Source};
use ssu_status::{Command, Status};
use std::alloc::Global;
use tool_audit::audit;
use tool_build::build;
use tool_find::{find, show};
use tool_flash::{blank, boot, format, migrate};
use tool_hear::hear;
use tool_load::load;
use tool_replay::replay;
use tool_sample::sample;

/// Does what the words ask for, with the files of `shelf`, the packets of `air` and the flash. What a command makes goes into
/// `made`, and what it prints into `out`.
///
/// The words are the folder, a command and its arguments: `hear PID`, `load PID`, `find`, `show`, `build`, `blank N`,
/// `format FILE`, `boot`, `migrate`, `replay`, `air`, `audit PID`, `audit PID NOTICE` or `sample N`, with a PID and another NOTICE of 0 to 8191, and an N of
/// 4 to 65,536 for `blank` and of 0 to 999,999 for `sample`. `Usage` comes exactly where they are none of these, and the other answers as each
/// command gives them.
pub fn run<H: Shelf, A: Source, F: Flash, W: Sink, T: Sink>(
    alloc: Global,
    words: &[String],
    shelf: &mut H,
    air: &mut A,
    flash: &mut F,
    made: &mut W,
    out: &mut T,
) -> Status
    // The words are no command line.
    ensures usage { OnUsage result ((task : Task) → IsCommandLine (map string_bytes words.now) task → ⊥) }
    ensures wrong_words { ((task : Task) → IsCommandLine (map string_bytes words.now) task → ⊥) → result ≡ Usage }
    ensures usage_shelf { OnUsage result (shelf.new ≡ shelf.old) }
    ensures usage_air { OnUsage result (air.new ≡ air.old) }
    ensures usage_flash { OnUsage result (flash.new ≡ flash.old) }
    ensures usage_made { OnUsage result (made.new ≡ made.old) }
    ensures usage_out { OnUsage result (out.new ≡ out.old) }

    // What they ask for is done.
    ensures does { (task : Task) → IsCommandLine (map string_bytes words.now) task → Does task result
        (shelf_seen H.Shelf shelf.old shelf.new) (source_seen A.Source air.old air.new)
        (flash_seen F.Flash flash.old flash.new) (sink_seen W.Sink made.old made.new) (sink_seen T.Sink out.old out.new) }
{
    let Some(command) = Command::parse(words) else {
        return Status::Usage;
    };
    dispatch(alloc, command, shelf, air, flash, made, out)
}

/// Does what the command asks for.
pub(crate) fn dispatch<H: Shelf, A: Source, F: Flash, W: Sink, T: Sink>(
    alloc: Global,
    command: Command,
    shelf: &mut H,
    air: &mut A,
    flash: &mut F,
    made: &mut W,
    out: &mut T,
) -> Status
    requires { IsInRange (task_of command) }
    ensures no_usage { OnUsage result ⊥ }
    ensures does { Does (task_of command) result
        (shelf_seen H.Shelf shelf.old shelf.new) (source_seen A.Source air.old air.new)
        (flash_seen F.Flash flash.old flash.new) (sink_seen W.Sink made.old made.new) (sink_seen T.Sink out.old out.new) }
{
    match command {
        Command::Hear(pid) => hear(alloc, pid, air, out),
        Command::Load(pid) => load(alloc, pid, air, made, out),
        Command::Find => find(alloc, shelf, air, out),
        Command::Show => show(alloc, shelf, air, out),
        Command::Build => build(alloc, shelf, made, out),
        Command::Blank(blocks) => blank(blocks, made, out),
        Command::Format(name) => format(alloc, &name, shelf, flash, out),
        Command::Boot => boot(flash, made, out),
        Command::Migrate => migrate(flash, out),
        Command::Replay => replay::<H, A, F, T, JournalStage>(alloc, shelf, air, flash, out),
        Command::Air => tool_air::air(alloc, shelf, air, made, out),
        Command::Audit(pid) => audit(alloc, pid, None, air, out),
        Command::AuditWithNotice(pid, notice) => audit(alloc, pid, Some(notice), air, out),
        Command::Sample(number) => sample(alloc, number, out),
    }
}
