//! The packets of a section, one by one: ISO/IEC 13818-1, 2.4.3.2, 2.4.3.3 and 2.4.4.

ghost use Rattle.std.specs.Prelude.{◌≡◌, ◌+◌, ◌<◌, ◌≤◌, ◌++◌, ◌∷◌, length, true, false};
ghost use Rattle.ts_section.specs.Cut.{cut_packets, filled, packets_left, payload_count, with_pointer};

use arrayvec::ArrayVec;
use std::marker::Model;
use ts_packet::{Packet, Pid, write};

/// The bytes of a packet without an adaptation field.
const PAYLOAD: usize = 184;

/// The packets of a section that are still to come. It takes no memory.
///
/// The pointer_field 0 and the first 183 bytes stand in the first packet, 184 bytes in each further one; the last one is
/// filled up with 0xFF. Only the first packet has the start flag.
#[derive(Drop)]
pub struct SectionPackets<'a> {
    rest: &'a [u8],
    pid: Pid,
    counter: u8,
    is_first: bool,
}

impl<'a> Model for SectionPackets<'a> {
    ghost use Rattle.std.specs.Prelude.{◌<◌};
    ghost use Rattle.ts_section.specs.Cut.{Cutting, cutting_of};

    ghost Value = { Cutting };

    ghost view = { λ p. cutting_of p.pid p.counter p.is_first p.rest.now };

    ghost invariant = { λ p. p.counter < 16 };
}

/// The packets of a section, with counters from this one on, which go on modulo 16.
#[tactic(auto, unfolding(crate::specs::Cut::cut_packets))]
pub fn packets_of(section: &[u8], pid: Pid, counter: u8) -> SectionPackets<'_>
    requires counter { counter < 16 }
    ensures { packets_left result ≡ cut_packets section.now pid counter }
{
    SectionPackets {
        rest: section,
        pid,
        counter,
        is_first: true,
    }
}

impl SectionPackets<'_> {
    /// The first packet, with the pointer_field.
    fn first(&mut self) -> Packet
        requires { self.old.start ≡ true }
        ensures { packets_left self.old ≡ result ∷ packets_left self.new }
    {
        let (front, behind) = self.rest.split_at((PAYLOAD - 1).min(self.rest.len()));
        let payload = payload(&[0], front);
        let packet = write(self.pid, self.counter, true, payload.as_slice());
        self.rest = behind;
        self.counter = (self.counter + 1) % 16;
        self.is_first = false;
        packet
    }

    /// A later packet, where bytes are left.
    fn later(&mut self) -> Packet
        requires later { self.old.start ≡ false }
        requires some { 0 < length self.old.bytes }
        ensures { packets_left self.old ≡ result ∷ packets_left self.new }
    {
        let (front, behind) = self.rest.split_at(PAYLOAD.min(self.rest.len()));
        let payload = payload(&[], front);
        let packet = write(self.pid, self.counter, false, payload.as_slice());
        self.rest = behind;
        self.counter = (self.counter + 1) % 16;
        packet
    }
}

impl Iterator for SectionPackets<'_> {
    ghost use Rattle.std.specs.Iterator.{YieldsFirst, item_count};
    ghost use Rattle.ts_section.specs.Cut.{packets_left};

    type Item = Packet;

    ghost next_gives = { YieldsFirst packets_left };

    ghost remaining = { item_count packets_left };

    fn next(&mut self) -> Option<Packet> {
        if self.is_first {
            return Some(self.first());
        }
        if self.rest.is_empty() {
            return None;
        }
        Some(self.later())
    }
}

/// How many packets a section takes.
pub fn packet_count(section: &[u8]) -> usize
    requires { length section.now ≤ 4096 }
    ensures count { result ≡ payload_count (with_pointer section.now) }
    ensures few { result ≤ 23 }
{
    (section.len() + PAYLOAD) / PAYLOAD
}

/// The payload that carries these bytes, the first ones before the others, filled up with 0xFF.
fn payload(first: &[u8], others: &[u8]) -> ArrayVec<u8, 184>
    requires { length first.now + length others.now ≤ 184 }
    ensures { result.items ≡ filled (first.now ++ others.now) }
{
    let mut payload = ArrayVec::new();
    append(&mut payload, first);
    append(&mut payload, others);
    let stuffing = [0xFF; PAYLOAD];
    let room = PAYLOAD - payload.len();
    append(&mut payload, &stuffing[..room]);
    payload
}

fn append(payload: &mut ArrayVec<u8, 184>, bytes: &[u8])
    requires { length payload.old.items + length bytes.now ≤ 184 }
    ensures { payload.new.items ≡ payload.old.items ++ bytes.now }
{
    let _ = payload.try_extend_from_slice(bytes);
}
