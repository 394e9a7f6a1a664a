//! A file and a box that are fetched from a shelf, and the status of each refusal.

use crate::check::same;
use arrayvec::ArrayString;
use ssu_answer::FileName;
use ssu_io::MemShelf;
use ssu_status::Status;
use std::alloc::Global;
use std::test::Fail;
use tool_box::{fetch, read_box};

const BOX: &str =
    "oui = 4660\nmodel = 7\nversion = 1\nrule = \"newer\"\nsoftware_model = 1\nsoftware_version = 2\n";

const NO_RULE: &str =
    "oui = 4660\nmodel = 7\nversion = 1\nsoftware_model = 1\nsoftware_version = 2\n";

fn name(text: &str) -> Result<FileName, Fail> {
    Ok(FileName::from(text).ok().ok_or("a name")?)
}

/// A shelf with this file, which fails the calls of these numbers.
fn shelf_of(alloc: Global, name: &str, text: &str, fails: &[u32]) -> Result<MemShelf, Fail> {
    let mut shelf = MemShelf::new(alloc, fails.to_vec(alloc)?);
    let bytes = text.as_bytes().to_vec(alloc)?;
    shelf.add(name, bytes).ok().ok_or("memory")?;
    Ok(shelf)
}

#[test]
fn a_file_and_a_box_are_had(rt: HostRuntime) -> Result<(), Fail> {
    let alloc = rt.alloc();
    let mut shelf = shelf_of(alloc, "box.toml", BOX, &[])?;
    let bytes = fetch(alloc, &mut shelf, &name("box.toml")?)
        .ok()
        .expect(&rt, "bytes");
    same(&rt, &bytes.as_slice(), &BOX.as_bytes());
    let file = read_box(alloc, &mut shelf).ok().expect(&rt, "a box");
    same(
        &rt,
        &(file.id.oui.get(), file.id.model, file.software.version),
        &(4660, 7, 2),
    );
    Ok(())
}

#[test]
fn each_refusal_has_its_status(rt: HostRuntime) -> Result<(), Fail> {
    let alloc = rt.alloc();
    let rule = ArrayString::from("rule").ok().expect(&rt, "rule");
    let text = ArrayString::from("text").ok().expect(&rt, "text");
    // the name of the file, its text, the calls that fail, the answer
    let rows: [(&str, &str, &[u32], Status); 4] = [
        ("other.toml", BOX, &[], Status::Absent(name("box.toml")?)),
        ("box.toml", BOX, &[1], Status::ShelfFault),
        ("box.toml", NO_RULE, &[], Status::BoxRefused(rule)),
        ("box.toml", "oui", &[], Status::BoxRefused(text)),
    ];
    for (file, said, fails, status) in rows {
        let mut shelf = shelf_of(alloc, file, said, fails)?;
        same(&rt, &read_box(alloc, &mut shelf).err(), &Some(status));
    }
    Ok(())
}
