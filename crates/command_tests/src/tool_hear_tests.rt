//! A section of the PID that is heard.

use crate::check::same;
use ssu_io::{MemSink, MemSource};
use ssu_status::Status;
use std::test::Fail;
use tool_hear::hear;
use ts_packet::Pid;

/// A packet of PID 20 with one TDT section.
const TDT_PACKET: [u8; 13] = [
    0x47, 0x40, 0x14, 0x10, 0x00, 0x70, 0x70, 0x05, 0xC0, 0x79, 0x12, 0x45, 0x00,
];

#[test]
fn a_section_of_the_pid_is_put(rt: HostRuntime) -> Result<(), Fail> {
    let alloc = rt.alloc();
    let mut bytes = TDT_PACKET.to_vec(alloc)?;
    for _ in TDT_PACKET.len()..188 {
        bytes.push(0xFF)?;
    }
    let mut air = MemSource::new(bytes, 1000, Vec::new(alloc));
    let mut out = MemSink::new(alloc, Vec::new(alloc));
    let pid = Pid::new(20).expect(&rt, "a PID");
    same(&rt, &hear(alloc, pid, &mut air, &mut out), &Status::Done);
    same(&rt, &out.bytes(), &&TDT_PACKET[5..]);
    Ok(())
}
