//! The fields of a document, the name of a bad one, and bytes that are no document.

use crate::check::same;
use std::test::Fail;
use toml_fields::{DocumentFault, Fields, item_prefix, read_document};

const FILE: &str =
    "a = 7\nb = 7.0\nc = \"seven\"\nd = true\nextra = 1\n[e]\nf = 65536\n[[g]]\n[[g]]\nh = 0\n";

#[test]
fn a_document_is_read(rt: HostRuntime) -> Result<(), Fail> {
    let table = read_document(rt.alloc(), FILE.as_bytes())?;
    let fields = Fields {
        table: &table,
        prefix: "",
    };
    same(&rt, &fields.number("a", 0, 7).ok(), &Some(7));
    same(
        &rt,
        &fields
            .number("a", 8, 9)
            .err()
            .expect(&rt, "a is 7")
            .as_str(),
        &"a",
    );
    assert!(rt; fields.number("b", 0, 9).is_err());
    assert!(rt; fields.number("c", 0, 9).is_err());
    assert!(rt; fields.number("z", 0, 9).is_err());
    same(&rt, &fields.optional_number("z", 0, 9).ok(), &Some(None));
    same(&rt, &fields.optional_flag("d").ok(), &Some(Some(true)));
    assert!(rt; fields.text("c").ok() == Some("seven"));
    assert!(rt; fields.tables("g", 1, 2).is_ok());
    assert!(rt; fields.tables("g", 3, 4).is_err());
    Ok(())
}

#[test]
fn a_bad_field_is_named_with_its_prefix(rt: HostRuntime) -> Result<(), Fail> {
    let table = read_document(rt.alloc(), FILE.as_bytes())?;
    let prefix = item_prefix("g", 12);
    let fields = Fields {
        table: &table,
        prefix: prefix.as_str(),
    };
    same(
        &rt,
        &fields.text("a").err().expect(&rt, "a is a number").as_str(),
        &"g.12.a",
    );
    Ok(())
}

#[test]
fn bytes_that_are_no_text_are_no_document(rt: HostRuntime) {
    same(
        &rt,
        &read_document(rt.alloc(), &[0xFF]).err(),
        &Some(DocumentFault::Text),
    );
    same(
        &rt,
        &read_document(rt.alloc(), b"a = ").err(),
        &Some(DocumentFault::Text),
    );
}
