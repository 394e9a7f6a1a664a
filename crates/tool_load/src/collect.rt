//! The packets of the input, up to a verdict.

ghost use Rattle.std.specs.Prelude.{◌≡◌, ◌≤◌, ◌++◌, [], ◌∷◌, ℕ, List};
ghost use Rattle.ssu_io.specs.Faults.{Rose};
ghost use Rattle.ts_input.specs.Packets.{IsAtEnd, IsOneMore, IsWithin};
ghost use Rattle.ts_section.specs.Hearing.{Hears};
ghost use Rattle.tool_load.specs.Load.{IsReached, IsChosen, IsOpen, IsUnchosen, HearsIn, HearsAtPacket, sections_of};
ghost use Rattle.tool_load.specs.Progress.{StandsFor, Follows};
ghost use Rattle.tool_load.specs.declared.collect.Step.TheVariants as step;
ghost use Rattle.tool_load.specs.declared.collect.Ended.TheVariants as how;

use crate::progress::{Progress, hear_each, is_whole};
use ssu_io::Source;
use std::alloc::Global;
use ts_input::PacketInput;
use ts_packet::{Packet, Pid};
use ts_section::{Hearer, SectionOut, only};

/// What came of one packet.
#[derive(Clone, Copy, Debug, PartialEq, Eq)]
pub(crate) enum Step {
    /// No verdict is reached.
    More,
    /// All places are filled.
    Reached,
    /// There is no memory for the group.
    Full,
}

/// How the input ended.
#[derive(Clone, Copy, Debug, PartialEq, Eq)]
pub(crate) enum Ended {
    /// A verdict was reached at the last packet that was taken.
    Verdict,
    /// The input was read to its end.
    Input,
    /// The input failed.
    Fault,
    /// One byte more came than the greatest number of packets has.
    TooLong,
    /// There is no memory for the group of the last packet.
    Memory,
}

/// Hears one packet more.
fn hear_packet(
    hearer: &mut Hearer,
    each: &mut SectionOut,
    progress: &mut Progress,
    alloc: Global,
    packet: &Packet,
) -> Step
    ensures more { result ≡ step.More → (pid : ℕ) (ps : List (List ℕ)) → Follows pid hearer.old progress.old ps
        → Follows pid hearer.new progress.new (ps ++ packet.now ∷ []) }
    ensures reached { result ≡ step.Reached → (pid : ℕ) (ps : List (List ℕ)) → Follows pid hearer.old progress.old ps
        → StandsFor progress.new (sections_of pid (ps ++ packet.now ∷ [])) × IsReached (sections_of pid (ps ++ packet.now ∷ [])) }
    ensures full { result ≡ step.Full → (pid : ℕ) (ps : List (List ℕ)) → Follows pid hearer.old progress.old ps
        → IsUnchosen (sections_of pid ps) × IsChosen (sections_of pid (ps ++ packet.now ∷ [])) }
{
    hearer.feed(packet, each);
    match hear_each(progress, alloc, each) {
        Err(_) => Step::Full,
        Ok(()) => next_step(progress),
    }
}

fn next_step(progress: &Progress) -> Step
    ensures more { result ≡ step.More → (sections : List (List ℕ)) → StandsFor progress.now sections → IsOpen sections }
    ensures reached { result ≡ step.Reached → (sections : List (List ℕ)) → StandsFor progress.now sections → IsReached sections }
    ensures not_full { result ≡ step.Full → ⊥ }
{
    if is_whole(progress) {
        Step::Reached
    } else {
        Step::More
    }
}

/// Hears the PID in the packets of the input, up to a verdict.
pub(crate) fn collect<A: Source>(
    hearer: &mut Hearer,
    each: &mut SectionOut,
    progress: &mut Progress,
    alloc: Global,
    pid: Pid,
    air: &mut A,
) -> Ended
    requires fresh { Hears hearer.old [] }
    requires none { StandsFor progress.old [] }
    ensures reached { result ≡ how.Verdict → HearsAtPacket pid (A.left air.old) (A.left air.new)
        (λ sections. StandsFor progress.new sections × IsReached sections) IsOpen }
    ensures input { result ≡ how.Input → HearsIn pid (A.left air.old) (A.left air.new) IsWithin
        (λ sections. StandsFor progress.new sections × IsOpen sections) }
    ensures end { result ≡ how.Input → IsAtEnd (A.left air.new) }
    ensures fault { result ≡ how.Fault → HearsIn pid (A.left air.old) (A.left air.new) IsWithin IsOpen }
    ensures cause { result ≡ how.Fault → Rose (A.faults air.old) (A.faults air.new) }
    ensures too_long { result ≡ how.TooLong → HearsIn pid (A.left air.old) (A.left air.new) IsOneMore IsOpen }
    ensures no_memory { result ≡ how.Memory → HearsAtPacket pid (A.left air.old) (A.left air.new) IsChosen IsUnchosen }
    ensures later { A.faults air.old ≤ A.faults air.new }
{
    hearer.listen(&only(pid));
    let mut input = PacketInput::new();
    while input.next(air) {
        match hear_packet(hearer, each, progress, alloc, input.packet()) {
            Step::More => {}
            Step::Reached => return Ended::Verdict,
            Step::Full => return Ended::Memory,
        }
    }
    match input.ended(air) {
        ts_input::Ended::End => Ended::Input,
        ts_input::Ended::Failed => Ended::Fault,
        ts_input::Ended::TooLong => Ended::TooLong,
    }
}
