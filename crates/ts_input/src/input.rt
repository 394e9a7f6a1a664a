//! A run over the packets of a source, up to the greatest number that a run takes: ISO/IEC 13818-1, 2.4.3.2 (transport packets
//! of 188 bytes).
ghost use Rattle.std.specs.Prelude.{◌≡◌, ◌+◌, ◌≤◌, ℕ, [], IsTrue, IsFalse, length};
ghost use Rattle.ssu_io.specs.Bytes.{Takes};
ghost use Rattle.ssu_io.specs.Faults.{Rose};
ghost use Rattle.ts_input.specs.Input.{IsOver, OnEnd, OnFailed, OnTooLong, TakesOne, TakesRest, UnlessTooLong};
ghost use Rattle.ts_input.specs.Packets.{IsAtEnd, most_packets};
ghost use Rattle.ts_input.specs.declared.input.Last.TheVariants.{End as IsEnded, Failed as IsFailed};

use crate::fill::fill;
use ssu_io::Source;
use std::marker::Model;
use ts_packet::{PACKET_LEN, Packet};

/// How many packets a run takes at most.
pub const MAX_PACKETS: u32 = 16_777_216;

/// How the packets of a source ended.
#[derive(Clone, Copy, Debug, PartialEq, Eq)]
pub enum Ended {
    /// The end of the source. A rest of fewer than 188 bytes before it is no packet.
    End,
    /// A fault of the source.
    Failed,
    /// `MAX_PACKETS` packets came, and one more byte.
    TooLong,
}

/// What came last.
#[derive(Clone, Copy, Debug, PartialEq, Eq)]
enum Last {
    Packet,
    End,
    Failed,
}

/// The packets of a source, one after the other: `while input.next(air) { .. }`, and then how they ended.
#[derive(Drop)]
pub struct PacketInput {
    packet: Packet,
    count: u32,
    last: Last,
}

impl Model for PacketInput {
    ghost use Rattle.std.specs.Prelude.{◌≤◌};
    ghost use Rattle.ts_input.specs.Input.{InputState};
    ghost use Rattle.ts_input.specs.Packets.{most_packets};

    ghost Value = { InputState };

    ghost view = { λ p. record { count = p.count; packet = p.packet; last = p.last } };

    ghost invariant = { λ p. p.count ≤ most_packets };
}

impl PacketInput {
    /// No packet came yet.
    pub fn new() -> PacketInput
        ensures { result.count ≡ 0 }
    {
        PacketInput {
            packet: [0; PACKET_LEN],
            count: 0,
            last: Last::Packet,
        }
    }

    /// Takes the next packet, and answers whether one came. None comes at the end of the source, at a fault of it, and
    /// once `MAX_PACKETS` packets came, where nothing is taken.
    pub fn next<A: Source>(&mut self, air: &mut A) -> bool
        ensures packet { IsTrue result → Takes (A.left air.old) (A.left air.new) self.new.packet }
        ensures count { IsTrue result → self.new.count ≡ self.old.count + 1 }
        ensures within { self.new.count ≤ most_packets }
        ensures len { length self.new.packet ≡ 188 }
        ensures rest { IsFalse result → TakesRest self.old.count (A.left air.old) (A.left air.new) }
        ensures same { IsFalse result → self.new.count ≡ self.old.count }
        ensures over { IsFalse result → IsOver self.new }
        ensures end { self.new.last ≡ IsEnded → IsAtEnd (A.left air.new) }
        ensures cause { self.new.last ≡ IsFailed → Rose (A.faults air.old) (A.faults air.new) }
        ensures later { A.faults air.old ≤ A.faults air.new }
    {
        self.last = Last::Packet;
        if self.count == MAX_PACKETS {
            return false;
        }
        match fill(air, &mut self.packet) {
            Ok(n) if n == PACKET_LEN => {
                self.count += 1;
                return true;
            }
            Ok(_) => self.last = Last::End,
            Err(_) => self.last = Last::Failed,
        }
        false
    }

    /// The packet that came last.
    pub fn packet(&self) -> &Packet
        ensures { result.now ≡ self.now.packet }
    {
        &self.packet
    }

    /// How many packets came.
    pub fn count(&self) -> u32
        ensures { result ≡ self.now.count }
    {
        self.count
    }

    /// How the packets ended, where `next` answered that none came. Where `MAX_PACKETS` packets came, one more byte is
    /// taken, if there is one.
    pub fn ended<A: Source>(&self, air: &mut A) -> Ended
        requires { IsOver self.now }
        ensures nothing { UnlessTooLong result (Takes (A.left air.old) (A.left air.new) []) }
        ensures end { (self.now.last ≡ IsEnded → IsAtEnd (A.left air.old)) → OnEnd result (IsAtEnd (A.left air.new)) }
        ensures too_long { OnTooLong result (TakesOne (A.left air.old) (A.left air.new)) }
        ensures most { OnTooLong result (self.now.count ≡ most_packets) }
        ensures cause { (before : ℕ) → before ≤ A.faults air.old → (self.now.last ≡ IsFailed → Rose before (A.faults air.old))
            → OnFailed result (Rose before (A.faults air.new)) }
        ensures later { A.faults air.old ≤ A.faults air.new }
    {
        match self.last {
            Last::End => Ended::End,
            Last::Failed => Ended::Failed,
            Last::Packet => ended_behind(air),
        }
    }
}

/// How the packets ended, where the greatest number of them came.
fn ended_behind<A: Source>(air: &mut A) -> Ended
    ensures nothing { UnlessTooLong result (Takes (A.left air.old) (A.left air.new) []) }
    ensures end { OnEnd result (IsAtEnd (A.left air.new)) }
    ensures too_long { OnTooLong result (TakesOne (A.left air.old) (A.left air.new)) }
    ensures cause { OnFailed result (Rose (A.faults air.old) (A.faults air.new)) }
    ensures later { A.faults air.old ≤ A.faults air.new }
{
    match fill(air, &mut [0]) {
        Ok(0) => Ended::End,
        Ok(_) => Ended::TooLong,
        Err(_) => Ended::Failed,
    }
}
