//! The packets of the input, up to the first fact against a section.

ghost use Rattle.std.specs.Prelude.{◌≡◌, ◌≤◌, ◌++◌, [], ◌∷◌, ℕ, List, Option};
ghost use Rattle.ssu_audit.specs.Calls.{Call};
ghost use Rattle.ssu_audit.specs.Hearing.{IsOpen};
ghost use Rattle.ssu_audit.specs.Standing.{IsUsable, Stands};
ghost use Rattle.ssu_io.specs.Faults.{Rose};
ghost use Rattle.tool_audit.specs.Answers.{OnFact, OnFault, OnInput, OnMemory, OnMore, OnStop, OnTooLong};
ghost use Rattle.tool_audit.specs.Calls.{calls_of, pids_of};
ghost use Rattle.tool_audit.specs.Comes.{HasFact, HearsAtPacket, HearsIn};
ghost use Rattle.tool_audit.specs.Following.{Follows, onto};
ghost use Rattle.ts_input.specs.Packets.{IsAtEnd, IsOneMore, IsWithin};
ghost use Rattle.ts_section.specs.Hearing.{Hears};

use ssu_audit::{Audit, AuditNo};
use ssu_io::Source;
use ts_input::PacketInput;
use ts_packet::{Packet, Pid, pid_of};
use ts_section::{Hearer, PidSet, SectionOut, only};

/// What came of one packet.
#[derive(Clone, Copy, Debug, PartialEq, Eq)]
pub(crate) enum Step {
    /// No fact stands against one of its sections.
    More,
    /// The first fact against one of its sections.
    Fact(AuditNo),
    /// There is no memory for what one of its sections says.
    Full,
}

/// How the input ended.
#[derive(Clone, Copy, Debug, PartialEq, Eq)]
pub(crate) enum Ended {
    /// A fact stands against a section of the last packet that was taken.
    Fact(AuditNo),
    /// The input was read to its end.
    Input,
    /// The input failed.
    Fault,
    /// One byte more came than the greatest number of packets has.
    TooLong,
    /// There is no memory for what a section of the last packet says.
    Memory,
}

/// The PID of the carousel, and that of its notice.
fn listened(pid: Pid, notice: Option<Pid>) -> PidSet
    ensures { result.items ≡ pids_of pid notice }
{
    let mut pids = only(pid);
    if let Some(notice) = notice {
        pids.push(notice);
    }
    pids
}

/// Hears all sections that became complete in one packet, one after the other, up to the first fact.
fn hear_each(audit: &mut Audit, notice: bool, each: &SectionOut) -> Step
    requires usable { IsUsable audit.old }
    ensures more { OnMore result ((calls : List Call) → Stands calls audit.old → Stands (onto notice each.now calls) audit.new) }
    ensures fact { OnStop result (λ why. (calls : List Call) → Stands calls audit.old → HasFact why (onto notice each.now calls)) }
{
    for k in 0..each.len() {
        match audit.hear_right(notice, each.get(k)) {
            Ok(None) => {}
            Ok(Some(no)) => return Step::Fact(no),
            Err(_) => return Step::Full,
        }
    }
    Step::More
}

/// Hears one packet more.
fn hear_packet(
    hearer: &mut Hearer,
    each: &mut SectionOut,
    audit: &mut Audit,
    pid: Pid,
    packet: &Packet,
) -> Step
    requires usable { IsUsable audit.old }
    ensures more { OnMore result ((notice : Option ℕ) (ps : List (List ℕ)) → Follows pid notice hearer.old audit.old ps
        → Follows pid notice hearer.new audit.new (ps ++ packet.now ∷ [])) }
    ensures fact { OnStop result (λ why. (notice : Option ℕ) (ps : List (List ℕ)) → Follows pid notice hearer.old audit.old ps
        → HasFact why (calls_of pid notice (ps ++ packet.now ∷ []))) }
{
    hearer.feed(packet, each);
    hear_each(audit, pid_of(packet) != pid, each)
}

/// Hears the carousel on a PID and its notice in the packets of the input, up to the first fact against a section.
pub(crate) fn hear_all<A: Source>(
    hearer: &mut Hearer,
    each: &mut SectionOut,
    audit: &mut Audit,
    pid: Pid,
    notice: Option<Pid>,
    air: &mut A,
) -> Ended
    requires fresh { Hears hearer.old [] }
    requires none { Stands [] audit.old }
    ensures fact { OnFact result (λ why. HearsAtPacket pid notice (A.left air.old) (A.left air.new) (HasFact why) IsOpen) }
    ensures input { OnInput result (HearsIn pid notice (A.left air.old) (A.left air.new) IsWithin (λ calls. Stands calls audit.new)) }
    ensures end { OnInput result (IsAtEnd (A.left air.new)) }
    ensures fault { OnFault result (HearsIn pid notice (A.left air.old) (A.left air.new) IsWithin IsOpen) }
    ensures cause { OnFault result (Rose (A.faults air.old) (A.faults air.new)) }
    ensures too_long { OnTooLong result (HearsIn pid notice (A.left air.old) (A.left air.new) IsOneMore IsOpen) }
    ensures no_memory { OnMemory result (HearsAtPacket pid notice (A.left air.old) (A.left air.new) (λ _. Unit {0}) IsOpen) }
    ensures later { A.faults air.old ≤ A.faults air.new }
{
    hearer.listen(&listened(pid, notice));
    let mut input = PacketInput::new();
    while input.next(air) {
        match hear_packet(hearer, each, audit, pid, input.packet()) {
            Step::More => {}
            Step::Fact(no) => return Ended::Fact(no),
            Step::Full => return Ended::Memory,
        }
    }
    match input.ended(air) {
        ts_input::Ended::End => Ended::Input,
        ts_input::Ended::Failed => Ended::Fault,
        ts_input::Ended::TooLong => Ended::TooLong,
    }
}
