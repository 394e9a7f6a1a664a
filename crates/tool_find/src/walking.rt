//! A walk over all packets of an input.
ghost use Rattle.std.specs.Prelude.{◌≡◌, ◌≤◌, ◌++◌, ℕ, List, [], true, false, IfOk, OnOk, OnErr};
ghost use Rattle.ssu_io.specs.Bytes.{Gains, GainsPrefix};
ghost use Rattle.ssu_io.specs.Faults.{HasCause, Rose};
ghost use Rattle.ssu_io.specs.SinkBuffer.{MovesOn};
ghost use Rattle.ssu_status.specs.Answers.{IsEndOfInput};
ghost use Rattle.ssu_status.specs.Status.{OnDone, OnReadFault, OnTooLong};
ghost use Rattle.ts_input.specs.Puts.{Puts, PutsOfMost};
ghost use Rattle.ts_input.specs.Packets.{IsAtEnd};
ghost use Rattle.route_tables.specs.Values.{Receiver};
ghost use Rattle.tool_find.specs.Answers.{PutsPart};
ghost use Rattle.tool_find.specs.Lines.{levels_lines, lines_for, text_of, whole_text, Walks};

use crate::lines::{put_report, put_sections};
use crate::walk::Walk;
use ssu_io::{Failed, Sink, SinkBuffer, Source};
use ssu_status::Status;
use ts_input::{Ended, PacketInput};
use ts_packet::{Pid, pid_of};
use ts_section::SectionOut;

/// Takes all packets of the input and prints what was found; where `shows`, also a line for each section that is heard. An
/// error is one of `out`.
pub(crate) fn walk_all<A: Source, T: Sink>(
    walk: &mut Walk,
    shows: bool,
    waiting: &mut SinkBuffer,
    air: &mut A,
    out: &mut T,
) -> Result<Status, Failed>
    requires none_waits { waiting.old ≡ [] }
    ensures done { (me : Receiver) → Walks me walk.old []
        → IfOk result (λ status. OnDone status (Puts (whole_text shows me) (A.left air.old) (A.left air.new) (T.contents out.old) (T.contents out.new))) }
    ensures end { IfOk result (λ status. OnDone status (IsAtEnd (A.left air.new))) }
    ensures read_fault { (me : Receiver) → Walks me walk.old []
        → IfOk result (λ status. OnReadFault status (Puts (text_of shows me) (A.left air.old) (A.left air.new) (T.contents out.old) (T.contents out.new))) }
    ensures read_cause { IfOk result (λ status. OnReadFault status (Rose (A.faults air.old) (A.faults air.new))) }
    ensures too_long { (me : Receiver) → Walks me walk.old []
        → IfOk result (λ status. OnTooLong status (PutsOfMost (text_of shows me) (A.left air.old) (A.left air.new) (T.contents out.old) (T.contents out.new))) }
    ensures status { IfOk result IsEndOfInput }
    ensures write_fault { (me : Receiver) → Walks me walk.old []
        → OnErr result (PutsPart shows me (A.left air.old) (A.left air.new) (T.contents out.old) (T.contents out.new)) }
    ensures write_cause { HasCause (T.faults out.old) (T.faults out.new) result }
    ensures air_later { A.faults air.old ≤ A.faults air.new }
{
    let mut input = PacketInput::new();
    while input.next(air) {
        walk.take(input.packet());
        let number = input.count() - 1;
        put_if(
            shows,
            number,
            pid_of(input.packet()),
            &walk.each,
            waiting,
            out,
        )?;
    }
    flush_if(shows, waiting, out)?;
    match input.ended(air) {
        Ended::End => {
            finish(walk, waiting, out)?;
            Ok(Status::Done)
        }
        Ended::Failed => Ok(Status::ReadFault),
        Ended::TooLong => Ok(Status::TooLong),
    }
}

/// Puts the lines of the sections of a packet where they are asked for.
fn put_if<T: Sink>(
    shows: bool,
    number: u32,
    pid: Pid,
    each: &SectionOut,
    waiting: &mut SinkBuffer,
    out: &mut T,
) -> Result<(), Failed>
    ensures ok { OnOk result (MovesOn (T.contents out.old) (T.contents out.new) waiting.old (lines_for shows number pid each.now) waiting.new) }
    ensures failed { OnErr result (GainsPrefix (T.contents out.old) (T.contents out.new) (waiting.old ++ lines_for shows number pid each.now)) }
    ensures only_shown { OnErr result (shows ≡ true) }
    ensures cause { HasCause (T.faults out.old) (T.faults out.new) result }
{
    if shows {
        put_sections(number, pid, each, waiting, out)
    } else {
        Ok(())
    }
}

/// Puts all that waits where sections are shown. Where they are not, nothing waits.
fn flush_if<T: Sink>(shows: bool, waiting: &mut SinkBuffer, out: &mut T) -> Result<(), Failed>
    ensures ok { OnOk result (shows ≡ true → Gains (T.contents out.old) (T.contents out.new) waiting.old) }
    ensures empty { shows ≡ true → waiting.new ≡ [] }
    ensures unwritten { shows ≡ false → out.new ≡ out.old }
    ensures unmoved { shows ≡ false → waiting.new ≡ waiting.old }
    ensures failed { OnErr result (GainsPrefix (T.contents out.old) (T.contents out.new) waiting.old) }
    ensures only_shown { OnErr result (shows ≡ true) }
    ensures cause { HasCause (T.faults out.old) (T.faults out.new) result }
{
    if shows { waiting.flush(out) } else { Ok(()) }
}

/// Puts all that waits, and behind it the seven lines.
fn finish<T: Sink>(walk: &Walk, waiting: &mut SinkBuffer, out: &mut T) -> Result<(), Failed>
    ensures ok { (me : Receiver) (ps : List (List ℕ)) → Walks me walk.now ps
        → OnOk result (Gains (T.contents out.old) (T.contents out.new) (waiting.old ++ levels_lines me ps)) }
    ensures failed { (me : Receiver) (ps : List (List ℕ)) → Walks me walk.now ps
        → OnErr result (GainsPrefix (T.contents out.old) (T.contents out.new) (waiting.old ++ levels_lines me ps)) }
    ensures cause { HasCause (T.faults out.old) (T.faults out.new) result }
{
    put_report(&walk.report(), waiting, out)?;
    waiting.flush(out)?;
    Ok(())
}
