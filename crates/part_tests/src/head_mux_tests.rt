//! Packets of a few turns, compared with a list made by hand.

ghost use Rattle.std.specs.Prelude.{◌≡◌, IsTrue};
ghost use Rattle.std.specs.List.{All};
ghost use Rattle.head_mux.specs.Sent.{IsSendable};

use crate::check::same;
use head_mux::{MuxFault, mux};
use ssu_io::MemSink;
use std::alloc::Global;
use std::process::Abort;
use std::test::Fail;
use ts_packet::Pid;
use ts_section::Timed;

/// Sections of one packet, of two packets, and of one packet of another PID.
const SHORT: [u8; 3] = [0x40, 0xB0, 0x00];

const LONG: [u8; 200] = [0x41; 200];

const OTHER: [u8; 4] = [0x42, 0xB0, 0x01, 0x00];

/// A packet of the list made by hand.
#[derive(Clone, Copy)]
enum Shape {
    Short,
    LongFront,
    LongRest,
    Other,
}

/// The packets of 12 turns with their counters. SHORT has the period 2 and LONG the period 3 on PID 0x100; OTHER has the
/// period 5 on PID 0x101.
const TWELVE_TURNS: [(Shape, u8); 16] = [
    (Shape::Short, 0),
    (Shape::LongFront, 1),
    (Shape::LongRest, 2),
    (Shape::Short, 3),
    (Shape::Other, 0),
    (Shape::Short, 4),
    (Shape::LongFront, 5),
    (Shape::LongRest, 6),
    (Shape::Short, 7),
    (Shape::Short, 8),
    (Shape::LongFront, 9),
    (Shape::LongRest, 10),
    (Shape::Other, 1),
    (Shape::Short, 11),
    (Shape::LongFront, 12),
    (Shape::LongRest, 13),
];

fn timed(
    rt: &impl Abort,
    alloc: Global,
    pid: u16,
    period: u32,
    bytes: &[u8],
) -> Result<Timed, Fail> {
    Ok(Timed {
        pid: Pid::new(pid).expect(rt, "a PID"),
        period,
        bytes: bytes.to_vec(alloc)?,
    })
}

fn is_sendable(section: &Timed) -> bool
    ensures { IsTrue result → IsSendable section.now }
{
    let bytes = section.bytes.as_slice();
    if bytes.len() < 3 || bytes.len() > 4096 || section.period == 0 {
        return false;
    }
    bytes[0] != 0xFF
}

fn are_sendable(list: &[Timed]) -> bool
    ensures { IsTrue result → All IsSendable list.now }
{
    for section in list {
        if !is_sendable(section) {
            return false;
        }
    }
    true
}

/// Sends the turns, after a look at the conditions.
fn sent(
    rt: &impl Abort,
    alloc: Global,
    list: &[Timed],
    turns: u32,
    sink: &mut MemSink,
) -> Result<u64, MuxFault> {
    assert!(rt; !list.is_empty());
    assert!(rt; list.len() <= 65536);
    assert!(rt; are_sendable(list));
    mux(alloc, list, turns, sink)
}

/// Appends a packet without an adaptation field.
fn append(out: &mut Vec<u8>, header: [u8; 4], payload: &[u8]) -> Result<(), Fail> {
    out.extend_from_slice(&header)?;
    out.extend_from_slice(payload)?;
    for _ in payload.len()..184usize {
        out.push(0xFF)?;
    }
    Ok(())
}

fn append_shape(out: &mut Vec<u8>, shape: Shape, counter: u8) -> Result<(), Fail> {
    let control = 0x10 | counter;
    match shape {
        Shape::Short => append(out, [0x47, 0x41, 0x00, control], &[0, 0x40, 0xB0, 0x00]),
        Shape::LongFront => {
            let mut payload = [0x41; 184];
            payload[0] = 0;
            append(out, [0x47, 0x41, 0x00, control], &payload)
        }
        Shape::LongRest => append(out, [0x47, 0x01, 0x00, control], &[0x41; 17]),
        Shape::Other => append(
            out,
            [0x47, 0x41, 0x01, control],
            &[0, 0x42, 0xB0, 0x01, 0x00],
        ),
    }
}

#[test]
fn each_section_comes_again_after_its_period(rt: HostRuntime) -> Result<(), Fail> {
    let alloc = rt.alloc();
    let mut list = Vec::new(alloc);
    list.push(timed(&rt, alloc, 0x100, 2, &SHORT)?)?;
    list.push(timed(&rt, alloc, 0x100, 3, &LONG)?)?;
    list.push(timed(&rt, alloc, 0x101, 5, &OTHER)?)?;
    let mut sink = MemSink::new(alloc, Vec::new(alloc));
    same(&rt, &sent(&rt, alloc, &list, 12, &mut sink), &Ok(16));
    let mut packets = Vec::new(alloc);
    for (shape, counter) in &TWELVE_TURNS {
        append_shape(&mut packets, *shape, *counter)?;
    }
    same(&rt, &sink.bytes(), &packets.as_slice());
    Ok(())
}

#[test]
fn a_sink_that_fails_at_its_second_call_got_the_first_piece(rt: HostRuntime) -> Result<(), Fail> {
    let alloc = rt.alloc();
    let mut list = Vec::new(alloc);
    list.push(timed(&rt, alloc, 0x100, 1, &[0x40; 4096])?)?;
    let mut sink = MemSink::new(alloc, vec![in alloc; 2]?);
    same(
        &rt,
        &sent(&rt, alloc, &list, 20, &mut sink),
        &Err(MuxFault::WriteFault),
    );
    same(&rt, &sink.bytes().len(), &(348 * 188));
    Ok(())
}
