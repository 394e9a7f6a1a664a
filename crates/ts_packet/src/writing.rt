//! The packet that carries a payload: ISO/IEC 13818-1, 2.4.3.2 to 2.4.3.5.

ghost use Rattle.std.specs.Prelude.{◌≡◌, ◌+◌, ◌<◌, ◌≤◌, IsTrue, Some, ◌++◌, ◌-◌, length, replicate};
ghost use Rattle.ts_packet.specs.Packet.{usable, packet_of, packet_bytes, pointed_place, adaptation_field, header as header_of};

use crate::packet::{PACKET_LEN, Packet, SYNC_BYTE};
use crate::pid::Pid;

/// The packet with this payload. A payload of fewer than 184 bytes stands behind an adaptation field that fills the
/// packet up: its length byte, then one byte of flags, all 0, and stuffing bytes 0xFF, as many as there is room for.
///
/// transport_error_indicator, transport_priority and transport_scrambling_control are 0.
pub fn write(pid: Pid, counter: u8, start: bool, payload: &[u8]) -> Packet
    requires counter { counter < 16 }
    requires some { 1 ≤ length payload.now }
    requires few { length payload.now ≤ 184 }
    requires pointer { IsTrue start → pointed_place payload.now < length payload.now }
    ensures bytes { result ≡ packet_bytes pid counter start payload.now }
    ensures read_back { usable result ≡ Some (packet_of pid counter start payload.now) }
{
    let mut packet = [0xFF; PACKET_LEN];
    let alone = payload.len() == 184;
    put_parts(
        &mut packet,
        &header(pid.get(), counter, start, alone),
        payload,
    );
    packet
}

/// Puts the parts of a packet into stuffing bytes.
fn put_parts(packet: &mut [u8], header: &[u8], payload: &[u8])
    requires stuffing { packet.old ≡ replicate 188 0xFF }
    requires four { length header.now ≡ 4 }
    requires few { length payload.now ≤ 184 }
    ensures { packet.new ≡ header.now ++ adaptation_field (184 - length payload.now) ++ payload.now }
{
    let at = PACKET_LEN - payload.len();
    packet[..4].copy_from_slice(header);
    put_adaptation_field(&mut packet[4..at]);
    packet[at..].copy_from_slice(payload);
}

/// The four bytes of the header, of a packet with a payload alone or behind an adaptation field.
fn header(pid: u16, counter: u8, start: bool, alone: bool) -> [u8; 4]
    requires pid { pid < 8192 }
    requires counter { counter < 16 }
    ensures { result ≡ header_of pid counter start alone }
{
    let unit_start: u8 = if start { 64 } else { 0 };
    let control: u8 = if alone { 16 } else { 48 };
    [
        SYNC_BYTE,
        unit_start + (pid / 256) as u8,
        (pid % 256) as u8,
        control + counter,
    ]
}

/// Makes stuffing bytes into an adaptation field: the length of what follows its first byte, and flags that are 0.
fn put_adaptation_field(field: &mut [u8])
    requires few { length field.old ≤ 184 }
    requires stuffing { field.old ≡ replicate (length field.old) 0xFF }
    ensures { field.new ≡ adaptation_field (length field.old) }
{
    if field.is_empty() {
        return;
    }
    field[0] = (field.len() - 1) as u8;
    if field.len() > 1 {
        field[1] = 0;
    }
}
