//! The packets of a source through a script, into a sink.
ghost use Rattle.std.specs.Prelude.{◌≡◌, ◌+◌, ◌^◌, ◌≤◌, ◌<◌, ◌++◌, [], None, IfOk, OnOk, OnErr, IsSome, length, replicate, true};
ghost use Rattle.std.specs.List.{concat};
ghost use Rattle.std.specs.Result.{IsErrOf};
ghost use Rattle.ssu_io.specs.Bytes.{Gains, GainsPrefix};
ghost use Rattle.ssu_io.specs.Faults.{HasCause, Rose};
ghost use Rattle.ssu_io.specs.SinkBuffer.{MovesOn};
ghost use Rattle.ts_input.specs.Packets.{IsAtEnd};
ghost use Rattle.ts_input.specs.Puts.{Puts, PutsOfMost, PutsPrefix};
ghost use Rattle.air_channel.specs.Aired.{aired_bytes, copies};
ghost use Rattle.air_channel.specs.Passing.{Airs, kept_at, written_at, written_last};
ghost use Rattle.air_channel.specs.Scripts.{rises};
ghost use Rattle.air_channel.specs.declared.channel.AirFault.TheVariants.{ReadFault, WriteFault, TooLong};

use crate::gathered::Gathered;
use crate::script::Script;
use ssu_io::{Failed, Sink, Source};
use thiserror::Error;
use ts_input::{Ended, PacketInput};
use ts_packet::PACKET_LEN;

/// Why not all packets of a source went through a script.
#[derive(Clone, Copy, Debug, PartialEq, Eq, Error)]
pub enum AirFault {
    /// The source failed.
    #[error("the packets could not be read")]
    ReadFault,
    /// The sink failed.
    #[error("the packets could not be written")]
    WriteFault,
    /// There are more bytes than those of 16,777,216 packets.
    #[error("the input is too long")]
    TooLong,
}

/// Puts the packets of the source, as the script changes them, into the sink, and answers how many it put. A rest of fewer
/// than 188 bytes is no packet. It takes no memory; of the packets it holds one that changes places with the next one.
///
/// # Errors
///
/// `ReadFault` where the source failed, and `TooLong` where a byte came behind 16,777,216 packets: the sink got what the
/// script makes of the packets taken. `WriteFault` where the sink failed: it got a prefix of that.
pub fn air<A: Source, W: Sink>(script: &Script, air: &mut A, sink: &mut W) -> Result<u64, AirFault>
    ensures done { IfOk result (λ n. Airs script.now n (A.left air.old) (A.left air.new) (W.contents sink.old) (W.contents sink.new)) }
    ensures end { OnOk result (IsAtEnd (A.left air.new)) }
    ensures read_fault { IsErrOf result ReadFault
        → Puts (aired_bytes script.now) (A.left air.old) (A.left air.new) (W.contents sink.old) (W.contents sink.new) }
    ensures read_cause { IsErrOf result ReadFault → Rose (A.faults air.old) (A.faults air.new) }
    ensures too_long { IsErrOf result TooLong
        → PutsOfMost (aired_bytes script.now) (A.left air.old) (A.left air.new) (W.contents sink.old) (W.contents sink.new) }
    ensures write_fault { IsErrOf result WriteFault
        → PutsPrefix (aired_bytes script.now) (A.left air.old) (A.left air.new) (W.contents sink.old) (W.contents sink.new) }
    ensures write_cause { IsErrOf result WriteFault → Rose (W.faults sink.old) (W.faults sink.new) }
    ensures air_later { A.faults air.old ≤ A.faults air.new }
    ensures sink_later { W.faults sink.old ≤ W.faults sink.new }
{
    let mut on_air = OnAir::new();
    let mut input = PacketInput::new();
    while input.next(air) {
        let mut packet = *input.packet();
        on_air.pass(script, input.count() - 1, &mut packet, sink)?;
    }
    let written = on_air.end(script, input.count(), sink)?;
    match input.ended(air) {
        Ended::End => Ok(written),
        Ended::Failed => Err(AirFault::ReadFault),
        Ended::TooLong => Err(AirFault::TooLong),
    }
}

/// What is on the way from the source to the sink.
#[derive(Drop)]
struct OnAir {
    waiting: Gathered,
    /// A packet that changes places with the next one.
    kept: Option<[u8; PACKET_LEN]>,
    /// How many packets were put.
    count: u64,
}

impl OnAir {
    fn new() -> OnAir
        ensures waiting { result.waiting ≡ [] }
        ensures kept { result.kept ≡ None }
        ensures count { result.count ≡ 0 }
    {
        OnAir {
            waiting: Gathered::new(),
            kept: None,
            count: 0,
        }
    }

    /// Takes packet `n`, and puts what is due.
    fn pass<W: Sink>(
        &mut self,
        script: &Script,
        n: u32,
        packet: &mut [u8; PACKET_LEN],
        sink: &mut W,
    ) -> Result<(), Failed>
        requires first { IsSome self.old.kept → 1 ≤ n }
        requires few { self.old.count < 2 ^ 63 }
        ensures ok { OnOk result (MovesOn (W.contents sink.old) (W.contents sink.new) self.old.waiting
            (concat (written_at script.now n self.old.kept packet.old)) self.new.waiting) }
        ensures kept { OnOk result (self.new.kept ≡ kept_at script.now n self.old.kept packet.old) }
        ensures apart { rises 2 0 script.now.swaps ≡ true }
        ensures count { OnOk result (self.new.count ≡ self.old.count + length (written_at script.now n self.old.kept packet.old)) }
        ensures more { OnOk result (self.new.count ≤ self.old.count + 4) }
        ensures failed { OnErr result (GainsPrefix (W.contents sink.old) (W.contents sink.new)
            (self.old.waiting ++ concat (written_at script.now n self.old.kept packet.old))) }
        ensures cause { HasCause (W.faults sink.old) (W.faults sink.new) result }
    {
        script.changes.make(n, packet);
        match self.kept.take() {
            Some(kept) => {
                self.write(script.copies(n - 1), packet, sink)?;
                self.write(script.copies(n), &kept, sink)
            }
            None if script.swaps.has(n) => {
                self.kept = Some(*packet);
                Ok(())
            }
            None => self.write(script.copies(n), packet, sink),
        }
    }

    /// Puts all that is left, where `n` packets came, and answers how many were put in all.
    fn end<W: Sink>(&mut self, script: &Script, n: u32, sink: &mut W) -> Result<u64, Failed>
        requires first { IsSome self.old.kept → 1 ≤ n }
        requires few { self.old.count < 2 ^ 63 }
        ensures ok { OnOk result (Gains (W.contents sink.old) (W.contents sink.new)
            (self.old.waiting ++ concat (written_last script.now n self.old.kept))) }
        ensures count { IfOk result (λ c. c ≡ self.old.count + length (written_last script.now n self.old.kept)) }
        ensures failed { OnErr result (GainsPrefix (W.contents sink.old) (W.contents sink.new)
            (self.old.waiting ++ concat (written_last script.now n self.old.kept))) }
        ensures cause { HasCause (W.faults sink.old) (W.faults sink.new) result }
    {
        self.release(script, n, sink)?;
        self.waiting.flush(sink)?;
        Ok(self.count)
    }

    /// Puts a packet that was kept, where `n` packets came.
    fn release<W: Sink>(&mut self, script: &Script, n: u32, sink: &mut W) -> Result<(), Failed>
        requires first { IsSome self.old.kept → 1 ≤ n }
        requires few { self.old.count < 2 ^ 63 }
        ensures ok { OnOk result (MovesOn (W.contents sink.old) (W.contents sink.new) self.old.waiting
            (concat (written_last script.now n self.old.kept)) self.new.waiting) }
        ensures count { OnOk result (self.new.count ≡ self.old.count + length (written_last script.now n self.old.kept)) }
        ensures failed { OnErr result (GainsPrefix (W.contents sink.old) (W.contents sink.new)
            (self.old.waiting ++ concat (written_last script.now n self.old.kept))) }
        ensures cause { HasCause (W.faults sink.old) (W.faults sink.new) result }
    {
        match self.kept.take() {
            None => Ok(()),
            Some(kept) => self.write(script.copies(n - 1), &kept, sink),
        }
    }

    /// Puts so many copies of a packet.
    fn write<W: Sink>(
        &mut self,
        copies: u32,
        packet: &[u8; PACKET_LEN],
        sink: &mut W,
    ) -> Result<(), Failed>
        requires few { self.old.count + copies < 2 ^ 64 }
        ensures ok { OnOk result (MovesOn (W.contents sink.old) (W.contents sink.new) self.old.waiting
            (concat (replicate copies packet.now)) self.new.waiting) }
        ensures kept { self.new.kept ≡ self.old.kept }
        ensures count { OnOk result (self.new.count ≡ self.old.count + copies) }
        ensures failed { OnErr result (GainsPrefix (W.contents sink.old) (W.contents sink.new)
            (self.old.waiting ++ concat (replicate copies packet.now))) }
        ensures cause { HasCause (W.faults sink.old) (W.faults sink.new) result }
    {
        for _ in 0..copies {
            self.waiting.put(sink, packet)?;
            self.count += 1;
        }
        Ok(())
    }
}

impl From<Failed> for AirFault {
    ghost use Rattle.std.specs.Prelude.{◌≡◌};
    ghost use Rattle.air_channel.specs.declared.channel.AirFault.TheVariants.{WriteFault};

    ghost from_gives = { λ _ fault. fault ≡ WriteFault };

    fn from(_: Failed) -> AirFault {
        AirFault::WriteFault
    }
}
