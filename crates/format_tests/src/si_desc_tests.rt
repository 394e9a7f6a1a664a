//! Descriptors of the standards' examples and of a stream, and what is no descriptor.

use crate::check::same;
use si_desc::*;
use ssu_compat::Oui;
use std::test::Fail;

fn first_is(row: &[u8], tag: u8, body: &[u8]) -> bool {
    match first(row, tag) {
        Some(found) => found == body,
        None => false,
    }
}

fn is_row(row: &[u8]) -> bool {
    match descs(row) {
        Some(_) => true,
        None => false,
    }
}

fn oui() -> Option<Oui> {
    Oui::new(0x1234)
}

#[test]
fn a_written_linkage_is_read_back(rt: HostRuntime) -> Result<(), Fail> {
    let to = ServiceRef {
        ts: 1,
        network: 0x2002,
        service: 3,
    };
    let mut row = Vec::new(rt.alloc());
    put_linkage(&mut row, to, oui().expect(&rt, "oui"))?;
    let bytes = [0x4A, 12, 0, 1, 0x20, 2, 0, 3, 9, 4, 0, 0x12, 0x34, 0];
    same(&rt, &row.as_slice(), &bytes.as_slice());
    let linkage = read_linkage(first(&row, 0x4A).expect(&rt, "none")).expect(&rt, "no linkage");
    same(&rt, &linkage.to, &to);
    same(&rt, &linkage.kind, &9);
    same(
        &rt,
        &lists_oui(linkage.rest, oui().expect(&rt, "oui")),
        &Some(true),
    );
    same(
        &rt,
        &lists_oui(linkage.rest, Oui::new(1).expect(&rt, "oui")),
        &Some(false),
    );
    Ok(())
}

#[test]
fn a_written_info_and_tag_are_read_back(rt: HostRuntime) -> Result<(), Fail> {
    let mut row = Vec::new(rt.alloc());
    put_component_tag(&mut row, 2)?;
    put_ssu_info(&mut row, oui().expect(&rt, "oui"), 1)?;
    let bytes = [
        0x52, 1, 2, 0x66, 9, 0, 0x0A, 6, 0, 0x12, 0x34, 0xF1, 0xC0, 0,
    ];
    same(&rt, &row.as_slice(), &bytes.as_slice());
    same(
        &rt,
        &component_tag(first(&row, 0x52).expect(&rt, "none")),
        &Some(2),
    );
    let infos = ssu_infos(first(&row, 0x66).expect(&rt, "none")).expect(&rt, "no infos");
    let mut entries = 0u8;
    for info in infos {
        same(&rt, &info.oui.get(), &0x1234);
        same(&rt, &info.update_type, &1);
        assert!(rt; !info.versioned && info.version == 0 && info.selector.is_empty());
        entries = entries.saturating_add(1);
    }
    same(&rt, &entries, &1);
    Ok(())
}

#[test]
fn the_first_of_a_tag_counts_up_to_what_is_no_descriptor(rt: HostRuntime) {
    let row = [0x66, 1, 7, 0x66, 0, 0x52, 2, 1, 2, 0x09, 5, 0];
    assert!(rt; first_is(&row, 0x66, &[7]));
    assert!(rt; first_is(&row, 0x52, &[1, 2]));
    assert!(rt; first(&row, 0x09).is_none());
    assert!(rt; !is_row(&row));
    assert!(rt; is_row(&row[..9]));
    assert!(rt; is_row(&[]));
}

#[test]
fn forms_are_filled_exactly(rt: HostRuntime) -> Result<(), Fail> {
    let oui = oui().expect(&rt, "oui");
    // Two entries, the second with two selector bytes, and a private byte.
    let rest = [10, 0, 0, 1, 0, 0, 0x12, 0x34, 2, 8, 9, 0x55];
    same(&rt, &lists_oui(&rest, oui), &Some(true));
    // One byte less or more of length than the entries have.
    let mut short = rest;
    short[0] = 9;
    same(&rt, &lists_oui(&short, oui), &None);
    let mut long = rest;
    long[0] = 11;
    same(&rt, &lists_oui(&long, oui), &None);
    same(&rt, &lists_oui(&[0], oui), &Some(false));
    same(&rt, &lists_oui(&[], oui), &None);
    assert!(rt; ssu_infos(&[0, 0x0A, 0]).is_some());
    assert!(rt; ssu_infos(&[0, 0x0B, 0]).is_none());
    assert!(rt; ssu_infos(&[0, 0x0A, 1]).is_none());
    assert!(rt; read_linkage(&[0; 6]).is_none());
    same(&rt, &component_tag(&[1, 2]), &None);
    same(&rt, &component_tag(&[]), &None);
    Ok(())
}
