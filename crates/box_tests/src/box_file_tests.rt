//! A whole `box.toml`, the first bad field of others, and numbers out of their range.

use crate::check::same;
use box_file::{BoxFault, BoxFile, FieldName};
use ssu_compat::{BoxId, Rule};
use std::alloc::Global;
use std::test::Fail;

const WHOLE: &str =
    "oui = 4660\nmodel = 7\nversion = 1\nrule = \"different\"\nsoftware_model = 1\nsoftware_version = 2\nmanu\
     al = true\nmac = \"00123456789a\"\nserial = \"A 1~\"\ncolour = \"red\"\n[service]\nts = 1\nnetwork = 2\n\
     service = 3\ncolour = 4\n";

/// The field at which the text is refused.
fn bad_field(alloc: Global, text: &str) -> Option<FieldName> {
    match &BoxFile::read(alloc, text.as_bytes()) {
        Err(BoxFault::Field(name)) => Some(*name),
        _ => None,
    }
}

#[test]
fn a_box_is_read(rt: HostRuntime) -> Result<(), Fail> {
    let BoxFile {
        id,
        rule,
        manual,
        service,
        software,
    } = BoxFile::read(rt.alloc(), WHOLE.as_bytes())?;
    let BoxId {
        oui,
        model,
        version,
        mac,
        serial,
    } = id;
    same(&rt, &oui.get(), &4660);
    same(&rt, &(model, version), &(7, 1));
    same(&rt, &rule, &Rule::Different);
    same(&rt, &(software.model, software.version), &(1, 2));
    assert!(rt; manual);
    same(&rt, &mac, &Some([0x00, 0x12, 0x34, 0x56, 0x78, 0x9A]));
    assert!(rt; serial.expect(&rt, "serial").as_slice() == b"A 1~".as_slice());
    let service = service.expect(&rt, "service");
    same(
        &rt,
        &(service.ts, service.network, service.service),
        &(1, 2, 3),
    );
    Ok(())
}

#[test]
fn the_first_bad_field_is_named(rt: HostRuntime) -> Result<(), Fail> {
    let start = "oui = 0\nmodel = 0\nversion = 0\nsoftware_model = 0\nsoftware_version = 0\n";
    for (more, field) in [
        ("mac = ", "text"),
        ("", "rule"),
        ("rule = 7\n", "rule"),
        ("rule = \"any\"\nmac = \"0\"\nmanual = 1\n", "manual"),
        ("rule = \"any\"\nserial = \"\"\n", "serial"),
        (
            "rule = \"any\"\nservice = { ts = 1, network = 2 }\n",
            "service",
        ),
        (
            "rule = \"any\"\n[service]\nts = 1\nnetwork = 2\nservice = 0\n",
            "service",
        ),
    ] {
        let text = format!(in rt.alloc(); "{start}{more}")?;
        let name = bad_field(rt.alloc(), text.as_str()).expect(&rt, "not refused at a field");
        assert!(rt; name.as_str() == field);
    }
    Ok(())
}

#[test]
fn a_number_out_of_its_range_is_refused(rt: HostRuntime) -> Result<(), Fail> {
    for (text, field) in [
        ("", "oui"),
        ("oui = 16777216", "oui"),
        ("oui = 0\nmodel = 0.0\nversion = 65536", "model"),
        ("oui = 0\nmodel = 0\nversion = 65536", "version"),
    ] {
        let name = bad_field(rt.alloc(), text).expect(&rt, "not refused at a field");
        assert!(rt; name.as_str() == field);
    }
    Ok(())
}
