//! Transport packet: ISO/IEC 13818-1, 2.4.3.2 and 2.4.3.3.
//!
//! A packet has 188 bytes: sync byte 0x47; transport_error_indicator 1, payload_unit_start_indicator 1,
//! transport_priority 1, PID 13; transport_scrambling_control 2, adaptation_field_control 2,
//! continuity_counter 4; then the adaptation field, where there is one, and the payload.

ghost use Rattle.std.specs.Prelude.{◌≡◌, ◌<◌, ◌≤◌, length, IfSome};
ghost use Rattle.std.specs.Option.{option_map};
ghost use Rattle.ts_packet.specs.Packet.{InRange, usable, is_intact, payload_of, pid_of, pointed_in, shown};

use crate::pid::Pid;

/// The bytes of a packet.
pub const PACKET_LEN: usize = 188;

/// The first byte of each packet.
pub(crate) const SYNC_BYTE: u8 = 0x47;

/// A packet as it stands in a transport stream.
pub type Packet = [u8; 188];

/// What a usable packet carries.
#[derive(Clone, Copy, Debug)]
pub struct View<'a> {
    /// The PID.
    pub pid: Pid,
    /// continuity_counter, below 16.
    pub counter: u8,
    /// payload_unit_start_indicator: a section starts in this packet.
    pub start: bool,
    /// The index in `payload` that the pointer_field points to, or 0 without `start`.
    pub pointed: u8,
    /// The bytes behind the header and the adaptation field, 1 to 184.
    pub payload: &'a [u8],
}

/// What the packet carries, or `None` exactly where it is not usable.
///
/// A packet is usable if its sync byte is right, it has no transport error, it is not scrambled, it has a payload of
/// at least one byte and, where a section starts in it, its pointer_field points inside the payload.
pub fn read(packet: &Packet) -> Option<View<'_>>
    ensures view { option_map shown result ≡ usable packet.now }
    ensures ranges { IfSome result (λ v. InRange (shown v)) }
{
    read_slice(packet)
}

/// The PID that the packet names, whether it is usable or not.
pub fn pid_of(packet: &Packet) -> Pid
    ensures { result ≡ pid_of packet.now }
{
    Pid::of_bytes(packet[1], packet[2])
}

#[tactic(auto, unfolding(crate::specs::Packet::usable))]
fn read_slice(packet: &[u8]) -> Option<View<'_>>
    requires { length packet.now ≡ 188 }
    ensures { option_map shown result ≡ usable packet.now }
{
    if !has_intact_header(packet) {
        return None;
    }
    let payload = payload_in(packet)?;
    let start = packet[1] / 64 % 2 == 1;
    let pointed = pointed_place_in(start, payload)?;
    Some(View {
        pid: Pid::of_bytes(packet[1], packet[2]),
        counter: packet[3] % 16,
        start,
        pointed,
        payload,
    })
}

/// The sync byte is right, and neither the error bit nor the scrambling bits are set.
#[tactic(auto, unfolding(crate::specs::Packet::is_intact))]
fn has_intact_header(packet: &[u8]) -> bool
    requires { length packet.now ≡ 188 }
    ensures { result ≡ is_intact packet.now }
{
    packet[0] == SYNC_BYTE && packet[1] / 128 == 0 && packet[3] / 64 == 0
}

/// The payload, where the packet has one of at least one byte.
#[tactic(auto, unfolding(crate::specs::Packet::payload_of))]
fn payload_in(packet: &[u8]) -> Option<&[u8]>
    requires { length packet.now ≡ 188 }
    ensures value { option_map (λ p. p.now) result ≡ payload_of packet.now }
    ensures some { IfSome result (λ p. 0 < length p.now) }
    ensures few { IfSome result (λ p. length p.now ≤ 184) }
{
    let control = packet[3] / 16 % 4;
    if control == 1 {
        return Some(&packet[4..]);
    }
    if control == 3 && packet[4] <= 182 {
        return Some(&packet[5 + packet[4] as usize..]);
    }
    None
}

/// The pointed place, or 0 where no section starts. `None` where the pointer_field points past the payload.
#[tactic(auto, unfolding(crate::specs::Packet::pointed_in))]
fn pointed_place_in(start: bool, payload: &[u8]) -> Option<u8>
    requires some { 0 < length payload.now }
    requires few { length payload.now ≤ 184 }
    ensures { result ≡ pointed_in start payload.now }
{
    if !start {
        return Some(0);
    }
    if 1 + (payload[0] as usize) < payload.len() {
        return Some(1 + payload[0]);
    }
    None
}
