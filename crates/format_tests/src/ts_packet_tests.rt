//! Packets as they stand in a stream.

use crate::check::same;
use ts_packet::{PACKET_LEN, Packet, Pid, read, write};

/// A packet that begins with these bytes, and goes on with 0xFF.
fn packet_of(front: &[u8]) -> Packet {
    let mut packet = [0xFF; PACKET_LEN];
    for (to, from) in packet.iter_mut().zip(front) {
        *to = *from;
    }
    packet
}

#[test]
fn packet_of_a_time_and_date_table_is_usable(rt: HostRuntime) {
    let front = b"\x47\x40\x14\x10\x00\x70\x70\x05\xC0\x79\x12\x45\x00";
    let packet = packet_of(front);
    let Some(view) = read(&packet) else {
        panic!(rt; "usable");
    };
    same(&rt, &view.pid.get(), &0x14);
    same(&rt, &view.counter, &0);
    assert!(rt; view.start);
    same(&rt, &view.pointed, &1);
    same(&rt, &view.payload.len(), &184);
}

#[test]
fn damaged_and_scrambled_packets_are_not_usable(rt: HostRuntime) {
    // A wrong sync byte, the error bit, scrambling, no payload, an adaptation field that fills the packet, and a
    // pointer_field that points past the payload.
    assert!(rt; read(&packet_of(b"\x46\x00\x14\x10")).is_none());
    assert!(rt; read(&packet_of(b"\x47\x80\x14\x10")).is_none());
    assert!(rt; read(&packet_of(b"\x47\x00\x14\x50")).is_none());
    assert!(rt; read(&packet_of(b"\x47\x00\x14\x20")).is_none());
    assert!(rt; read(&packet_of(b"\x47\x00\x14\x30\xB7")).is_none());
    assert!(rt; read(&packet_of(b"\x47\x40\x14\x10\xB7")).is_none());
}

#[test]
fn short_payload_stands_behind_an_adaptation_field(rt: HostRuntime) {
    let pid = Pid::new(0x1FFF).expect(&rt, "below 8192");
    let packet = write(pid, 15, false, b"\x01\x02");
    same(
        &rt,
        &&packet[0..6],
        &[0x47, 0x1F, 0xFF, 0x3F, 181, 0].as_slice(),
    );
    same(&rt, &packet[185], &0xFF);
    same(&rt, &packet[186], &1);
    let Some(view) = read(&packet) else {
        panic!(rt; "usable");
    };
    same(&rt, &view.payload, &b"\x01\x02".as_slice());
    assert!(rt; Pid::new(8192).is_none());
}
