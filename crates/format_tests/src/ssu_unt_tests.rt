//! Written tables, pairs for a box by MAC address and serial number, and what is no table.

ghost use Rattle.std.specs.Prelude.{length, ◌≤◌, IsTrue};

use crate::check::same;
use arrayvec::ArrayVec;
use section_form::{MakeFault, table_section};
use si_desc::descs;
use ssu_compat::{BoxId, Oui, Plain, write};
use ssu_time::{Window, civil};
use ssu_unt::*;
use std::alloc::Global;
use std::test::Fail;

/// A location: id 0x000A, association tag 0x0002.
const LOCATION: [u8; 6] = [0x03, 4, 0x00, 0x0A, 0x00, 2];

fn me(oui: Oui, serial: Option<ArrayVec<u8, 32>>) -> BoxId {
    BoxId {
        oui,
        model: 7,
        version: 2,
        mac: Some([0x00, 0x12, 0x34, 0x56, 0x78, 0x9A]),
        serial,
    }
}

/// A table of one platform with the same pair some times.
fn table(
    alloc: Global,
    oui: Oui,
    target: &[u8],
    operational: &[u8],
    pairs: u8,
) -> Result<Vec<u8>, MakeFault> {
    let compat = write(
        alloc,
        &[Plain {
            kind: 1,
            oui,
            model: 7,
            version: 2,
        }],
    )?;
    let mut writer = UntWriter::new(alloc, oui, 0, &[])?;
    writer.platform(&compat)?;
    'pairs: for _ in 0..pairs {
        add(&mut writer, target, operational)?;
    }
    match writer.finish() {
        Ok(section) => Ok(section),
        Err((_, fault)) => Err(MakeFault::from(fault)),
    }
}

fn add(writer: &mut UntWriter, target: &[u8], operational: &[u8]) -> Result<(), MakeFault>
    requires { IsTrue writer.old.begun }
    ensures { IsTrue writer.new.begun }
{
    if descs(target).is_none() || descs(operational).is_none() {
        return Ok(());
    }
    writer.pair(target, operational)
}

/// A section of the table with this body.
fn section(alloc: Global, body: &[u8]) -> Result<Vec<u8>, Fail>
    requires { length body.now ≤ 4084 }
{
    Ok(table_section(alloc, 0x4B, 0x0100, 0, body, true)?)
}

fn count(section: &[u8], me: &BoxId) -> usize {
    match Unt::read(section) {
        Some(unt) => unt.targeted(me).len(),
        None => 99,
    }
}

fn is_table(section: &[u8]) -> bool {
    match Unt::read(section) {
        Some(_) => true,
        None => false,
    }
}

#[test]
fn the_extension_has_the_hash_of_the_oui(rt: HostRuntime) -> Result<(), Fail> {
    let oui = Oui::new(0x00015A).expect(&rt, "oui");
    let section = table(rt.alloc(), oui, &[], &LOCATION, 1)?;
    let bytes = section.as_slice();
    assert!(rt; bytes.len() >= 5);
    same(&rt, &bytes[0], &0x4B);
    same(&rt, &bytes[3], &0x01);
    same(&rt, &bytes[4], &0x5B);
    same(&rt, &count(&section, &me(oui, None)), &1);
    Ok(())
}

#[test]
fn a_mask_leaves_the_other_bits_free(rt: HostRuntime) -> Result<(), Fail> {
    let oui = Oui::new(0x1234).expect(&rt, "oui");
    let target = [
        0x07, 12, 0xFF, 0xFF, 0xFF, 0, 0, 0, 0x00, 0x12, 0x34, 0, 0, 0,
    ];
    let section = table(rt.alloc(), oui, &target, &LOCATION, 1)?;
    let mut me = me(oui, None);
    same(&rt, &count(&section, &me), &1);
    me.mac = Some([0x00, 0x12, 0x35, 0x56, 0x78, 0x9A]);
    same(&rt, &count(&section, &me), &0);
    me.mac = None;
    same(&rt, &count(&section, &me), &0);
    Ok(())
}

#[test]
fn a_serial_number_is_compared_whole(rt: HostRuntime) -> Result<(), Fail> {
    let oui = Oui::new(0x1234).expect(&rt, "oui");
    let section = table(rt.alloc(), oui, &[0x08, 3, 1, 2, 3], &LOCATION, 1)?;
    let mut serial = ArrayVec::new();
    serial.push(1u8);
    serial.push(2);
    same(&rt, &count(&section, &me(oui, None)), &0);
    serial.push(3);
    same(&rt, &count(&section, &me(oui, Some(serial))), &1);
    Ok(())
}

#[test]
fn the_first_32_pairs_are_kept(rt: HostRuntime) -> Result<(), Fail> {
    let oui = Oui::new(0x1234).expect(&rt, "oui");
    let section = table(rt.alloc(), oui, &[], &LOCATION, 33)?;
    same(&rt, &count(&section, &me(oui, None)), &32);
    let other = BoxId {
        oui,
        model: 8,
        version: 2,
        mac: None,
        serial: None,
    };
    same(&rt, &count(&section, &other), &0);
    Ok(())
}

#[test]
fn a_schedule_opens_a_nightly_window(rt: HostRuntime) -> Result<(), Fail> {
    let oui = Oui::new(0x1234).expect(&rt, "oui");
    // 2024-03-01T01:00:00 to 2024-04-01T01:00:00, every 24 hours for 2 hours; a location; manual.
    let operational = [
        0x01, 14, 0xEB, 0xD2, 0x01, 0, 0, 0xEB, 0xF1, 0x01, 0, 0, 0x68, 24, 2, 0, 0x03, 4, 0x00,
        0x0A, 0x00, 2, 0x02, 1, 0x00, 0x0B, 5, 0, 0, 0, 1, 2,
    ];
    let section = table(rt.alloc(), oui, &[], &operational, 1)?;
    let Some(unt) = Unt::read(&section) else {
        return Err("no table".into());
    };
    let mut seen = 0u8;
    for entry in unt.targeted(&me(oui, None)).iter() {
        same(&rt, &entry.tag, &2);
        same(&rt, &entry.windows.len(), &1);
        assert!(rt; entry.manual);
        same(&rt, &entry.subgroup, &Some(258));
        let fifth_of_march = 60374 * 86400;
        assert!(rt; entry.is_open(Some(fifth_of_march + 2 * 3600), true));
        assert!(rt; !entry.is_open(Some(fifth_of_march + 2 * 3600), false));
        assert!(rt; !entry.is_open(Some(fifth_of_march + 12 * 3600), true));
        assert!(rt; !entry.is_open(None, true));
        seen = seen.saturating_add(1);
    }
    same(&rt, &seen, &1);
    Ok(())
}

#[test]
fn descriptors_of_an_operational_loop_are_these_bytes(rt: HostRuntime) -> Result<(), Fail> {
    let start = civil("2024-03-01T01:00:00").expect(&rt, "start");
    let end = civil("2024-04-01T01:00:00").expect(&rt, "end");
    let mut row = Vec::new(rt.alloc());
    put_scheduling(&mut row, start, end, 24, 2)?;
    put_update(&mut row, true)?;
    put_ssu_location(&mut row, 2)?;
    put_ssu_subgroup(&mut row, 258)?;
    put_scheduling(&mut row, start, end, 0, 2)?;
    put_update(&mut row, false)?;
    let bytes = [
        0x01, 14, 0xEB, 0xD2, 0x01, 0, 0, 0xEB, 0xF1, 0x01, 0, 0, 0x68, 24, 2, 0, 0x02, 1, 0x00,
        0x03, 4, 0x00, 0x0A, 0x00, 2, 0x0B, 5, 0, 0, 0, 1, 2, 0x01, 14, 0xEB, 0xD2, 0x01, 0, 0,
        0xEB, 0xF1, 0x01, 0, 0, 0x28, 0, 0, 0, 0x02, 1, 0x40,
    ];
    same(&rt, &row.as_slice(), &bytes.as_slice());
    Ok(())
}

#[test]
fn what_is_no_table_is_refused(rt: HostRuntime) -> Result<(), Fail> {
    let oui = Oui::new(0x1234).expect(&rt, "oui");
    let alloc = rt.alloc();
    let bare = section(alloc, &[0, 0x12, 0x34, 0, 0xF0, 0])?;
    same(&rt, &count(&bare, &me(oui, None)), &0);
    let platform = [0, 0x12, 0x34, 0, 0xF0, 0, 0, 0, 0, 4, 0xF0, 0, 0xF0, 0];
    assert!(rt; is_table(&section(alloc, &platform)?));
    let lone_byte = [0, 0x12, 0x34, 0, 0xF0, 0, 0, 0, 0, 4, 0xF0, 0, 0xF0, 0, 0];
    assert!(rt; !is_table(&section(alloc, &lone_byte)?));
    let inside_a_pair = [0, 0x12, 0x34, 0, 0xF0, 0, 0, 0, 0, 3, 0xF0, 0, 0xF0];
    assert!(rt; !is_table(&section(alloc, &inside_a_pair)?));
    let common_past_the_body = [0, 0x12, 0x34, 0, 0xF0, 1];
    assert!(rt; !is_table(&section(alloc, &common_past_the_body)?));
    Ok(())
}

#[test]
fn windows_open_and_close_at_the_second(rt: HostRuntime) {
    let once = Window {
        start: 1000,
        end: 2000,
        period: 0,
        duration: 0,
    };
    let by_turns = Window {
        start: 1000,
        end: 2000,
        period: 100,
        duration: 10,
    };
    // the window, the second, whether it is open
    let rows: [(Window, u64, bool); 10] = [
        (once, 999, false),
        (once, 1000, true),
        (once, 1999, true),
        (once, 2000, false),
        (by_turns, 1000, true),
        (by_turns, 1009, true),
        (by_turns, 1010, false),
        (by_turns, 1099, false),
        (by_turns, 1900, true),
        (by_turns, 2000, false),
    ];
    for (window, second, is_open) in rows {
        let mut windows = ArrayVec::new();
        windows.push(Window::default());
        windows.push(window);
        let entry = UntEntry {
            tag: 1,
            windows,
            manual: false,
            subgroup: None,
        };
        same(
            &rt,
            &(second, entry.is_open(Some(second), false)),
            &(second, is_open),
        );
        assert!(rt; !entry.is_open(None, false));
    }
}
