//! A box on its way to a carousel, section by section.

use crate::check::same;
use crate::messages::section;
use box_file::BoxFile;
use route_tables::*;
use si_desc::ServiceRef;
use ssu_compat::{BoxId, Oui, Rule, SwId};
use std::alloc::Global;
use std::test::Fail;
use ts_packet::Pid;

/// A linkage of type 0x09 for the OUI 0x001234 to service 3 of transport stream 1 and network 2, in the first loop.
const LINKED: &[u8] = b"\xF0\x0E\x4A\x0C\x00\x01\x00\x02\x00\x03\x09\x04\x00\x12\x34\x00\xF0\x00";

/// Program 0 names PID 16, program 3 first PID 256 and then PID 257.
const PROGRAMS: &[u8] = b"\x00\x00\xE0\x10\x00\x03\xE1\x00\x00\x03\xE1\x01";

/// Program 3 has its PMT on PID 512.
const MOVED: &[u8] = b"\x00\x03\xE2\x00";

/// Stream 259 has tag 1 and an update of type 2, stream 258 has tag 2, stream 260 has no tag.
const STREAMS: &[u8] =
    b"\xFF\xFF\xF0\x00\x05\xE1\x03\xF0\x0E\x52\x01\x01\x66\x09\x00\x0A\x06\x00\x12\x34\xF2\xC0\x00\x0B\xE1\x02\xF0\x03\x52\x01\x02\x0B\xE1\x04\xF0\x00";

/// Model 7, version 2 of the OUI finds its update on the stream with tag 2, from 1 to 3 o'clock in March 2024.
const ENTRIES: &[u8] =
    b"\x00\x12\x34\x00\xF0\x00\x00\x0D\x00\x01\x01\x09\x01\x00\x12\x34\x00\x07\x00\x02\x00\x00\x1A\xF0\x00\
      \xF0\x16\x01\x0E\xEB\xD2\x01\x00\x00\xEB\xF1\x01\x00\x00\x68\x18\x02\x00\x03\x04\x00\x0A\x00\x02";

/// 5 March 2024, 2 o'clock, and 3 o'clock.
const IN_THE_WINDOW: &[u8] = b"\x70\x70\x05\xEB\xD6\x02\x00\x00";

const AT_ITS_END: &[u8] = b"\x70\x70\x05\xEB\xD6\x03\x00\x00";

fn pid(number: u16) -> Pid {
    match Pid::new(number % 8192) {
        Some(pid) => pid,
        None => unreachable!(),
    }
}

fn the_box(service: Option<ServiceRef>) -> Result<BoxFile, Fail> {
    Ok(BoxFile {
        id: BoxId {
            oui: Oui::new(0x1234).ok_or("an OUI")?,
            model: 7,
            version: 2,
            mac: None,
            serial: None,
        },
        rule: Rule::Any,
        manual: false,
        service,
        software: SwId {
            model: 1,
            version: 1,
        },
    })
}

/// The services, the PIDs of PMT and component, the entries and the PID of the carousel; 0 where there is none.
fn seen(tables: &Tables) -> (u8, u16, u16, u8, u16) {
    let program = match tables.program() {
        Some((_, pid)) => pid.get(),
        None => 0,
    };
    let component = match tables.component() {
        Some((pid, _)) => pid.get(),
        None => 0,
    };
    let carousel = match tables.carousel() {
        Some(carousel) => carousel.pid.get(),
        None => 0,
    };
    (
        tables.services_len(),
        program,
        component,
        tables.notices_len(),
        carousel,
    )
}

#[test]
fn a_box_comes_to_its_carousel_section_by_section(rt: HostRuntime) -> Result<(), Fail> {
    let alloc = rt.alloc();
    let mut tables = Tables::new(&the_box(None)?);
    let rows = [
        // A BAT on the PID of the NIT says nothing.
        (0x0010, section(alloc, 0x4A, 5, LINKED)?, (0, 0, 0, 0, 0)),
        (0x0010, section(alloc, 0x40, 5, LINKED)?, (1, 0, 0, 0, 0)),
        // The PAT of another transport stream.
        (0x0000, section(alloc, 0x00, 2, PROGRAMS)?, (1, 0, 0, 0, 0)),
        (
            0x0000,
            section(alloc, 0x00, 1, PROGRAMS)?,
            (1, 256, 0, 0, 0),
        ),
        // The PMT of another program, and the PMT on another PID.
        (256, section(alloc, 0x02, 4, STREAMS)?, (1, 256, 0, 0, 0)),
        (257, section(alloc, 0x02, 3, STREAMS)?, (1, 256, 0, 0, 0)),
        (256, section(alloc, 0x02, 3, STREAMS)?, (1, 256, 259, 0, 0)),
        (
            259,
            section(alloc, 0x4B, 0x0126, ENTRIES)?,
            (1, 256, 259, 1, 0),
        ),
        (
            0x0014,
            Vec::from_slice(alloc, IN_THE_WINDOW)?,
            (1, 256, 259, 1, 258),
        ),
        (
            0x0014,
            Vec::from_slice(alloc, AT_ITS_END)?,
            (1, 256, 259, 1, 0),
        ),
        (0x0000, section(alloc, 0x00, 1, MOVED)?, (1, 512, 0, 0, 0)),
    ];
    for (number, bytes, expected) in rows {
        tables.hear(pid(number), &bytes);
        same(&rt, &seen(&tables), &expected);
    }
    assert!(rt; !tables.needs_notice());
    Ok(())
}

#[test]
fn a_configured_service_is_the_only_one(rt: HostRuntime) -> Result<(), Fail> {
    let service = ServiceRef {
        ts: 1,
        network: 9,
        service: 4,
    };
    let mut tables = Tables::new(&the_box(Some(service))?);
    tables.hear(pid(0x0010), &section(rt.alloc(), 0x40, 5, LINKED)?);
    tables.hear(pid(0x0000), &section(rt.alloc(), 0x00, 1, PROGRAMS)?);
    same(&rt, &seen(&tables), &(1, 0, 0, 0, 0));
    levels_stay();
    Ok(())
}
