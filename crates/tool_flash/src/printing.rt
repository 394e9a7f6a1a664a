//! The line that ends a command.
ghost use Rattle.std.specs.Prelude.{◌≤◌};
ghost use Rattle.ssu_io.specs.Bytes.{Gains, GainsPrefix};
ghost use Rattle.ssu_io.specs.Faults.{Rose};
ghost use Rattle.ssu_status.specs.Answers.{IsPrinted};
ghost use Rattle.ssu_status.specs.Status.{OnDone, OnWriteFault};

use ssu_io::Sink;
use ssu_line::Line;
use ssu_status::Status;

/// Puts the line, with which the command is done.
pub(crate) fn print<T: Sink>(line: &Line, out: &mut T) -> Status
    ensures done { OnDone result (Gains (T.contents out.old) (T.contents out.new) line.now.bytes) }
    ensures write_fault { OnWriteFault result (GainsPrefix (T.contents out.old) (T.contents out.new) line.now.bytes) }
    ensures write_cause { OnWriteFault result (Rose (T.faults out.old) (T.faults out.new)) }
    ensures answers { IsPrinted result }
    ensures out_later { T.faults out.old ≤ T.faults out.new }
{
    match out.put(line.as_str().as_bytes()) {
        Ok(()) => Status::Done,
        Err(_) => Status::WriteFault,
    }
}
