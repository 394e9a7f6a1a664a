//! Compatibility descriptors by their bytes, the entries that match a box, and the rules by which it takes a software.

use crate::check::same;
use ssu_compat::*;
use std::test::*;

/// One hardware entry of OUI 0x001234, model 7, version 2.
const HARDWARE: &[u8] = b"\x00\x0D\x00\x01\x01\x09\x01\x00\x12\x34\x00\x07\x00\x02\x00";

#[test]
fn descriptors_of_none_and_of_one_entry(rt: HostRuntime) -> Result<(), Fail> {
    let (none, len) = Compat::read(b"\x00\x00").expect(&rt, "no entries");
    same(&rt, &len, &2);
    assert!(rt; none.entries().next().is_none());
    let (one, len) = Compat::read(HARDWARE).expect(&rt, "one entry");
    same(&rt, &len, &15);
    let mut entries = one.entries();
    let Some(entry) = entries.next() else {
        panic!(rt; "an entry");
    };
    same(
        &rt,
        &(entry.kind, entry.specifier, entry.oui.get()),
        &(1, 1, 0x1234),
    );
    same(&rt, &(entry.model, entry.version, entry.subs), &(7, 2, 0));
    assert!(rt; entry.sub_bytes.is_empty());
    assert!(rt; entries.next().is_none());
    Ok(())
}

#[test]
fn lengths_that_disagree_are_refused(rt: HostRuntime) {
    // A length of one byte; a sub-descriptor for which descriptorLength leaves no room; a count too high.
    assert!(rt; Compat::read(b"\x00\x01\x00").is_none());
    assert!(rt;
        Compat::read(b"\x00\x0D\x00\x01\x01\x09\x01\x00\x12\x34\x00\x07\x00\x02\x01").is_none()
    );
    assert!(rt;
        Compat::read(b"\x00\x0D\x00\x02\x01\x09\x01\x00\x12\x34\x00\x07\x00\x02\x00").is_none()
    );
}

#[test]
fn rules_and_the_running_version_seven(rt: HostRuntime) {
    let running = SwId {
        model: 1,
        version: 7,
    };
    let next = SwId {
        model: 1,
        version: 8,
    };
    assert!(rt; !admits(Rule::Newer, running, Some(running)));
    assert!(rt; admits(Rule::Newer, running, Some(next)));
    assert!(rt; !admits(Rule::Newer, running, None));
    assert!(rt; !admits(Rule::Different, running, Some(running)));
    assert!(rt;
        admits(
            Rule::Different,
            running,
            Some(SwId {
                model: 2,
                version: 7
            })
        )
    );
    assert!(rt; admits(Rule::Any, running, None));
}

fn plain(kind: u8, oui: Oui, model: u16, version: u16) -> Plain {
    Plain {
        kind,
        oui,
        model,
        version,
    }
}

#[test]
fn written_entries_are_matched_and_offered(rt: HostRuntime) -> Result<(), Fail> {
    let oui = Oui::new(0x1234).expect(&rt, "an OUI");
    let other = Oui::new(0xFF_FFFF).expect(&rt, "an OUI");
    assert!(rt; Oui::new(0x100_0000).is_none());
    let one = write(rt.alloc(), &[plain(1, oui, 7, 2)]).expect(&rt, "memory");
    same(&rt, &one.as_slice(), &HARDWARE);
    let entries = [plain(2, oui, 3, 9), plain(1, oui, 7, 2)];
    let bytes = write(rt.alloc(), &entries).expect(&rt, "memory");
    let (compat, _) = Compat::read(&bytes).expect(&rt, "two entries");
    let me = BoxId {
        oui,
        model: 7,
        version: 2,
        mac: None,
        serial: None,
    };
    assert!(rt; compat.matches(&me));
    same(
        &rt,
        &compat.offered(oui),
        &Some(SwId {
            model: 3,
            version: 9,
        }),
    );
    same(&rt, &compat.offered(other), &None);
    Ok(())
}
