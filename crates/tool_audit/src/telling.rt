//! What is printed of an answer.

ghost use Rattle.std.specs.Prelude.{◌≡◌, ◌≤◌};
ghost use Rattle.ssu_io.specs.Bytes.{Gains, GainsPrefix};
ghost use Rattle.ssu_io.specs.Faults.{Rose};
ghost use Rattle.ssu_line.specs.AuditLines.{audit_line};
ghost use Rattle.ssu_status.specs.Status.{OnWriteFault};
ghost use Rattle.tool_audit.specs.Answers.{IsTold, UnlessWriteFault, status_of as status_of_answer};

use ssu_audit::{AuditNo, AuditYes};
use ssu_io::{Failed, Sink};
use ssu_line::{Line, audit_ok, audit_refused};
use ssu_status::Status;

/// Prints the line of an answer.
pub(crate) fn tell<T: Sink>(answer: Result<AuditYes, AuditNo>, out: &mut T) -> Status
    ensures told { UnlessWriteFault result ((result ≡ status_of_answer answer)
        × Gains (T.contents out.old) (T.contents out.new) (audit_line answer)) }
    ensures write_fault { OnWriteFault result (GainsPrefix (T.contents out.old) (T.contents out.new) (audit_line answer)) }
    ensures write_cause { OnWriteFault result (Rose (T.faults out.old) (T.faults out.new)) }
    ensures answers { IsTold result }
    ensures later { T.faults out.old ≤ T.faults out.new }
{
    match out.put(line_of(answer).as_bytes()) {
        Ok(()) => status_of(answer),
        Err(Failed) => Status::WriteFault,
    }
}

fn line_of(answer: Result<AuditYes, AuditNo>) -> Line
    ensures { result.bytes ≡ audit_line answer }
{
    match answer {
        Ok(yes) => audit_ok(yes),
        Err(no) => audit_refused(no),
    }
}

fn status_of(answer: Result<AuditYes, AuditNo>) -> Status
    ensures { result ≡ status_of_answer answer }
{
    match answer {
        Ok(_) => Status::Done,
        Err(no) => Status::AuditRefused(no),
    }
}
