//! A box on its way to a group, section by section.

use crate::check::same;
use crate::messages::{dii_of_many, dsi, section};
use box_file::BoxFile;
use si_desc::ServiceRef;
use ssu_compat::{BoxId, Oui, Rule, SwId};
use ssu_route::*;
use std::alloc::Global;
use std::test::Fail;
use ts_packet::Pid;

/// A linkage of type 0x09 for the OUI 0x001234 to service 3 of transport stream 1 and network 2, in the first loop.
const LINKED: &[u8] = b"\xF0\x0E\x4A\x0C\x00\x01\x00\x02\x00\x03\x09\x04\x00\x12\x34\x00\xF0\x00";

/// Program 3 has its PMT on PID 256.
const PROGRAMS: &[u8] = b"\x00\x03\xE1\x00";

/// Stream 259 has tag 1 and an update of type 2, stream 258 has tag 2.
const NOTIFIED: &[u8] =
    b"\xFF\xFF\xF0\x00\x05\xE1\x03\xF0\x0E\x52\x01\x01\x66\x09\x00\x0A\x06\x00\x12\x34\xF2\xC0\x00\x0B\xE1\x02\xF0\x03\x52\x01\x02";

/// Stream 258 has an update of type 1.
const PLAIN: &[u8] =
    b"\xFF\xFF\xF0\x00\x0B\xE1\x02\xF0\x0B\x66\x09\x00\x0A\x06\x00\x12\x34\xF1\xC0\x00";

/// Model 7, version 2 of the OUI finds its update on the stream with tag 2, from 1 to 3 o'clock in March 2024.
const ENTRIES: &[u8] =
    b"\x00\x12\x34\x00\xF0\x00\x00\x0D\x00\x01\x01\x09\x01\x00\x12\x34\x00\x07\x00\x02\x00\x00\x1A\xF0\x00\
      \xF0\x16\x01\x0E\xEB\xD2\x01\x00\x00\xEB\xF1\x01\x00\x00\x68\x18\x02\x00\x03\x04\x00\x0A\x00\x02";

/// 5 March 2024, 2 o'clock.
const IN_THE_WINDOW: &[u8] = b"\x70\x70\x05\xEB\xD6\x02\x00\x00";

/// A compressed_module descriptor.
const COMPRESSED: &[u8] = b"\x09\x01\x00";

const RUNNING: SwId = SwId {
    model: 1,
    version: 7,
};

fn pid(number: u16) -> Pid {
    match Pid::new(number % 8192) {
        Some(pid) => pid,
        None => unreachable!(),
    }
}

fn oui() -> Oui {
    match Oui::new(0x1234) {
        Some(oui) => oui,
        None => unreachable!(),
    }
}

fn the_box(service: Option<ServiceRef>) -> BoxFile {
    BoxFile {
        id: BoxId {
            oui: oui(),
            model: 7,
            version: 2,
            mac: None,
            serial: None,
        },
        rule: Rule::Newer,
        manual: false,
        service,
        software: RUNNING,
    }
}

/// The DII of the group, with so many modules of this version and one byte, each with these descriptors.
fn dii(alloc: Global, group: u32, modules: u16, version: u8, info: &[u8]) -> Result<Vec<u8>, Fail> {
    dii_of_many(alloc, group, 4066, modules, version, info)
}

/// A box that has come to the carousel on PID 258.
fn at_the_carousel(alloc: Global) -> Result<Route, Fail> {
    let service = ServiceRef {
        ts: 1,
        network: 2,
        service: 3,
    };
    let mut route = Route::new(&the_box(Some(service)), 8192);
    route.hear(pid(0x0000), &section(alloc, 0x00, 1, PROGRAMS)?, RUNNING);
    route.hear(pid(256), &section(alloc, 0x02, 3, PLAIN)?, RUNNING);
    Ok(route)
}

/// The group that was chosen, or 0.
fn chosen(choice: Option<&Choice>) -> u32 {
    match choice {
        Some(choice) => choice.group,
        None => 0,
    }
}

/// Does the text begin with the message of the choice?
fn has_message(choice: Option<&Choice>, text: &[u8]) -> bool {
    match choice {
        Some(choice) => !choice.message.is_empty() && text.starts_with(choice.message.as_slice()),
        None => false,
    }
}

#[test]
fn without_one_section_its_level_is_missing(rt: HostRuntime) -> Result<(), Fail> {
    let alloc = rt.alloc();
    let rows = [
        (0x0010, section(alloc, 0x40, 5, LINKED)?, Level::Linkage),
        (0x0000, section(alloc, 0x00, 1, PROGRAMS)?, Level::Program),
        (256, section(alloc, 0x02, 3, NOTIFIED)?, Level::Component),
        (259, section(alloc, 0x4B, 0x0126, ENTRIES)?, Level::Notice),
        (
            0x0014,
            Vec::from_slice(alloc, IN_THE_WINDOW)?,
            Level::Window,
        ),
        (258, dsi(alloc, &[(2, 7, 8)])?, Level::Group),
        (258, dii(alloc, 2, 1, 0, &[])?, Level::Modules),
    ];
    for skipped in 0..8usize {
        let mut route = HeapRoute::new(alloc, &the_box(None), 8192)
            .ok()
            .expect(&rt, "memory");
        for (k, (number, bytes, _)) in rows.iter().enumerate() {
            if k != skipped {
                route.hear(pid(*number), bytes, RUNNING);
            }
        }
        if skipped < 7 {
            same(&rt, &chosen(route.choice()), &0);
            same(&rt, &route.missing(), &rows[skipped].2);
        } else {
            same(&rt, &chosen(route.choice()), &2);
            same(&rt, &route.listens().len(), &7);
            same(
                &rt,
                &route.report(),
                &Report {
                    services: 1,
                    program: Some((3, pid(256))),
                    component: Some((pid(259), 2)),
                    notices: 1,
                    carousel: Some(pid(258)),
                    groups: 1,
                    modules: Some((1, 1)),
                },
            );
        }
    }
    Ok(())
}

#[test]
fn each_section_changes_the_choice_as_told(rt: HostRuntime) -> Result<(), Fail> {
    let alloc = rt.alloc();
    let mut route = at_the_carousel(alloc)?;
    let rows = [
        (dsi(alloc, &[(2, 7, 8), (4, 7, 9)])?, Change::Same, 0),
        // The DII of a group that is not wanted yet.
        (dii(alloc, 4, 1, 0, &[])?, Change::Same, 0),
        (dii(alloc, 2, 1, 0, &[])?, Change::Chosen, 2),
        // The same once more, and one with another version.
        (dii(alloc, 2, 1, 0, &[])?, Change::Same, 2),
        (dii(alloc, 2, 1, 1, &[])?, Change::Chosen, 2),
        // The first group cannot be used. The second one's DII was heard before it was wanted.
        (dii(alloc, 2, 1, 1, COMPRESSED)?, Change::Lost, 0),
        (dii(alloc, 4, 1, 0, &[])?, Change::Chosen, 4),
        // The same groups.
        (dsi(alloc, &[(2, 7, 8), (4, 7, 9)])?, Change::Same, 4),
        // Groups that the box does not accept: another hardware, and a software that is not newer.
        (dsi(alloc, &[(2, 6, 8), (4, 7, 7)])?, Change::Lost, 0),
        (dii(alloc, 4, 1, 0, &[])?, Change::Same, 0),
        (dsi(alloc, &[(2, 7, 8), (4, 7, 9)])?, Change::Same, 0),
        (dii(alloc, 2, 1, 0, &[])?, Change::Chosen, 2),
    ];
    for (bytes, expected, group) in rows {
        same(&rt, &route.hear(pid(258), &bytes, RUNNING), &expected);
        same(&rt, &chosen(route.choice()), &group);
    }
    // The message of the DII, behind the 8 bytes of its section's head.
    let last = dii(alloc, 2, 1, 0, &[])?;
    same(
        &rt,
        &has_message(route.choice(), last.get(8..).unwrap_or(&[])),
        &true,
    );
    // Another PID, and another transaction in the highest bit.
    let other = dii(alloc, 0x8000_0002, 1, 0, COMPRESSED)?;
    same(
        &rt,
        &route.hear(pid(259), &dii(alloc, 2, 1, 0, COMPRESSED)?, RUNNING),
        &Change::Same,
    );
    same(&rt, &route.hear(pid(258), &other, RUNNING), &Change::Same);
    same(&rt, &route.carousel(), &Some(pid(258)));
    changes_tell();
    windows_grow();
    choices_count();
    choices_stay();
    choices_have_messages();
    Ok(())
}

#[test]
fn the_first_32_groups_and_506_modules_are_kept(rt: HostRuntime) -> Result<(), Fail> {
    let alloc = rt.alloc();
    let mut route = at_the_carousel(alloc)?;
    let mut groups = [(0u32, 7u16, 8u16); 33];
    for k in 0..33usize {
        groups[k].0 = 100 + k as u32;
    }
    route.hear(pid(258), &dsi(alloc, &groups)?, RUNNING);
    same(&rt, &route.report().groups, &32);
    let change = route.hear(pid(258), &dii(alloc, 100, 506, 0, &[])?, RUNNING);
    same(&rt, &change, &Change::Chosen);
    same(&rt, &route.report().modules, &Some((506, 506)));
    same(&rt, &route.missing(), &Level::Modules);
    Ok(())
}
