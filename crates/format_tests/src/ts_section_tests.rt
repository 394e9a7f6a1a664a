//! Sections cut into packets and heard again.

use crate::check::same;
use std::alloc::Global;
use std::process::Abort;
use std::test::Fail;
use ts_packet::{Packet, Pid};
use ts_section::{Hearer, LongForm, PidSet, SectionOut, cut, long_section};

/// A time and date table: 1993-10-13, 12:45:00.
const TDT: [u8; 8] = [0x70, 0x70, 0x05, 0xC0, 0x79, 0x12, 0x45, 0x00];

/// One event of a stream: listen to PID 20, to none, or feed the packet of this number.
#[derive(Clone, Copy)]
enum Turn {
    Listen,
    Leave,
    Packet(u8),
}

fn pid(rt: &impl Abort) -> Pid {
    Pid::new(20).expect(rt, "a PID")
}

/// Packet `n` of the stream.
fn packet_of(rt: &impl Abort, stream: &[u8], n: u8) -> Packet {
    let at = n as usize * 188;
    let mut packet = [0; 188];
    assert!(rt; at + 188 <= stream.len());
    packet.copy_from_slice(&stream[at..at + 188]);
    packet
}

/// What is heard in these turns, joined.
fn heard(rt: &impl Abort, alloc: Global, stream: &[u8], turns: &[Turn]) -> Result<Vec<u8>, Fail> {
    let mut hearer = Hearer::new(alloc)?;
    let mut each = SectionOut::new(alloc)?;
    let mut heard = Vec::new(alloc);
    let none = PidSet::new();
    let mut pids = PidSet::new();
    pids.push(pid(rt));
    for turn in turns {
        match *turn {
            Turn::Listen => hearer.listen(&pids),
            Turn::Leave => hearer.listen(&none),
            Turn::Packet(n) => {
                hearer.feed(&packet_of(rt, stream, n), &mut each);
                append_all(&each, &mut heard)?;
            }
        }
    }
    Ok(heard)
}

fn append_all(each: &SectionOut, heard: &mut Vec<u8>) -> Result<(), Fail> {
    for k in 0..each.len() {
        heard.extend_from_slice(each.get(k))?;
    }
    Ok(())
}

/// A right section of `12 + len` bytes.
fn section(rt: &impl Abort, alloc: Global, len: u16, seed: u16) -> Result<Vec<u8>, Fail> {
    let mut body = Vec::new(alloc);
    for i in 0..len {
        body.push(((i as u32 * 7 + seed as u32) % 251) as u8)?;
    }
    assert!(rt; body.len() <= 4084);
    let head = LongForm {
        table: 0x40,
        extension: 1,
        version: 0,
        number: 0,
        last: 0,
        body: &body,
    };
    Ok(long_section(alloc, head, true)?)
}

/// Appends the packets of the section, and answers the next counter.
fn put(rt: &impl Abort, section: &[u8], counter: u8, out: &mut Vec<u8>) -> Result<u8, Fail> {
    assert!(rt; section.len() >= 3);
    assert!(rt; section.len() <= 4096);
    assert!(rt; section[0] != 0xFF);
    assert!(rt; counter < 16);
    Ok(cut(section, pid(rt), counter, out)?)
}

/// The turns from packet `first` up to `end`.
fn packets(turns: &mut Vec<Turn>, first: u8, end: u8) -> Result<(), Fail> {
    for n in first..end {
        turns.push(Turn::Packet(n))?;
    }
    Ok(())
}

#[test]
fn each_section_of_a_packet_is_heard(rt: HostRuntime) -> Result<(), Fail> {
    let mut packet = [0xFF; 188];
    packet[..5].copy_from_slice(&[0x47, 0x40, 0x14, 0x10, 0x00]);
    packet[5..13].copy_from_slice(&TDT);
    let turns = [Turn::Listen, Turn::Packet(0)];
    let one = heard(&rt, rt.alloc(), &packet, &turns)?;
    same(&rt, &one.as_slice(), &TDT.as_slice());
    packet[13..21].copy_from_slice(&TDT);
    let two = heard(&rt, rt.alloc(), &packet, &turns)?;
    assert!(rt; two.len() == 16);
    same(&rt, &&two[..8], &TDT.as_slice());
    same(&rt, &&two[8..], &TDT.as_slice());
    Ok(())
}

#[test]
fn a_section_of_4096_bytes_is_heard_at_its_last_packet(rt: HostRuntime) -> Result<(), Fail> {
    let long = section(&rt, rt.alloc(), 4084, 3)?;
    let mut stream = Vec::new(rt.alloc());
    same(&rt, &put(&rt, &long, 12, &mut stream)?, &3);
    same(&rt, &stream.len(), &(23 * 188));
    let mut turns = vec![in rt.alloc(); Turn::Listen]?;
    packets(&mut turns, 0, 22)?;
    same(&rt, &heard(&rt, rt.alloc(), &stream, &turns)?.len(), &0);
    turns.push(Turn::Packet(22))?;
    same(
        &rt,
        &heard(&rt, rt.alloc(), &stream, &turns)?.as_slice(),
        &long.as_slice(),
    );
    Ok(())
}

#[test]
fn repeats_lost_packets_and_splices(rt: HostRuntime) -> Result<(), Fail> {
    let first = section(&rt, rt.alloc(), 488, 1)?;
    let second = section(&rt, rt.alloc(), 100, 2)?;
    let mut stream = Vec::new(rt.alloc());
    let next = put(&rt, &first, 4, &mut stream)?;
    same(&rt, &next, &7);
    put(&rt, &second, next, &mut stream)?;
    let mut both = Vec::from_slice(rt.alloc(), &first)?;
    both.extend_from_slice(&second)?;
    let repeated = [
        Turn::Listen,
        Turn::Packet(0),
        Turn::Packet(1),
        Turn::Packet(1),
        Turn::Packet(2),
        Turn::Packet(3),
        Turn::Packet(3),
    ];
    same(
        &rt,
        &heard(&rt, rt.alloc(), &stream, &repeated)?.as_slice(),
        &both.as_slice(),
    );
    let lost = [
        Turn::Listen,
        Turn::Packet(0),
        Turn::Packet(2),
        Turn::Packet(3),
    ];
    same(
        &rt,
        &heard(&rt, rt.alloc(), &stream, &lost)?.as_slice(),
        &second.as_slice(),
    );
    let kept = [
        Turn::Listen,
        Turn::Packet(0),
        Turn::Listen,
        Turn::Packet(1),
        Turn::Packet(2),
    ];
    same(
        &rt,
        &heard(&rt, rt.alloc(), &stream, &kept)?.as_slice(),
        &first.as_slice(),
    );
    let left = [
        Turn::Listen,
        Turn::Packet(0),
        Turn::Packet(1),
        Turn::Leave,
        Turn::Listen,
        Turn::Packet(2),
        Turn::Packet(3),
    ];
    same(
        &rt,
        &heard(&rt, rt.alloc(), &stream, &left)?.as_slice(),
        &second.as_slice(),
    );
    Ok(())
}

#[test]
fn the_crc_refuses_two_halves(rt: HostRuntime) -> Result<(), Fail> {
    let mut stream = Vec::new(rt.alloc());
    let next = put(&rt, &section(&rt, rt.alloc(), 4084, 5)?, 0, &mut stream)?;
    put(&rt, &section(&rt, rt.alloc(), 4084, 9)?, next, &mut stream)?;
    let mut turns = vec![in rt.alloc(); Turn::Listen]?;
    packets(&mut turns, 0, 10)?;
    packets(&mut turns, 26, 46)?;
    same(&rt, &heard(&rt, rt.alloc(), &stream, &turns)?.len(), &0);
    Ok(())
}
