//! The words of each command, words that are none, and the code and the text of each status.

use crate::check::same;
use ssu_compat::SwId;
use ssu_status::{
    AuditNo, BuildFault, Chosen, Command, FieldName, FileName, Level, Status, made_file,
};
use std::alloc::{AllocError, Global};
use std::test::Fail;
use ts_packet::Pid;

fn owned(alloc: Global, words: &[&str]) -> Result<Vec<String>, AllocError> {
    let mut list = Vec::new(alloc);
    for word in words {
        list.push(String::from_str(alloc, word)?)?;
    }
    Ok(list)
}

#[test]
fn the_words_of_each_command_are_read(rt: HostRuntime) -> Result<(), Fail> {
    let pid = Pid::new(8191).expect(&rt, "a PID");
    let notice = Pid::new(257).expect(&rt, "a PID");
    let name = FileName::from("a.bin").map_err(|_| "a name")?;
    // words behind the folder, command, file that is made
    let rows: [(&[&str], Command, &str); 16] = [
        (&["hear", "8191"], Command::Hear(pid), ""),
        (&["load", "8191"], Command::Load(pid), "group.bin"),
        (&["find"], Command::Find, ""),
        (&["show"], Command::Show, ""),
        (&["build"], Command::Build, "air.ts"),
        (&["blank", "4"], Command::Blank(4), "flash.bin"),
        (&["blank", "65536"], Command::Blank(65_536), "flash.bin"),
        (&["format", "a.bin"], Command::Format(name), ""),
        (&["boot"], Command::Boot, "image.bin"),
        (&["migrate"], Command::Migrate, ""),
        (&["replay"], Command::Replay, ""),
        (&["air"], Command::Air, "aired.ts"),
        (&["audit", "8191"], Command::Audit(pid), ""),
        (
            &["audit", "8191", "257"],
            Command::AuditWithNotice(pid, notice),
            "",
        ),
        (&["sample", "0"], Command::Sample(0), ""),
        (&["sample", "999999"], Command::Sample(999_999), ""),
    ];
    for (behind, command, made) in rows {
        let mut words = owned(rt.alloc(), &["folder"])?;
        for word in behind {
            words.push(String::from_str(rt.alloc(), word)?)?;
        }
        same(&rt, &Command::parse(&words), &Some(command));
        same(&rt, &made_file(&words).as_str(), &made);
    }
    Ok(())
}

#[test]
fn other_words_are_no_command(rt: HostRuntime) -> Result<(), Fail> {
    let rows: [&[&str]; 30] = [
        &[],
        &["folder"],
        &["folder", "hear"],
        &["folder", "hear", "8192"],
        &["folder", "hear", "007"],
        &["folder", "hear", "+7"],
        &["folder", "hear", "4294967296"],
        &["folder", "hear", "7", "8"],
        &["folder", "Hear", "7"],
        &["hear", "7"],
        &["folder", "find", "7"],
        &["folder", "blank", "3"],
        &["folder", "blank", "65537"],
        &["folder", "format", ".a"],
        &["folder", "format", ""],
        &["folder", "boot", "0"],
        &["folder", "replay", "0"],
        &["folder", "air", "0"],
        &["folder", "audit"],
        &["folder", "audit", "8192"],
        &["folder", "audit", "7", "8192"],
        &["folder", "audit", "7", "7"],
        &["folder", "audit", "7", "8", "9"],
        &["folder", "sample"],
        &["folder", "sample", "1000000"],
        &["folder", "sample", "00"],
        &["folder", "sample", "-1"],
        &["folder", "sample", "1.0"],
        &["folder", "sample", ""],
        &["folder", "sample", "1", "2"],
    ];
    for words in rows {
        let words = owned(rt.alloc(), words)?;
        same(&rt, &Command::parse(&words), &None);
        assert!(rt; made_file(&words).is_empty());
    }
    Ok(())
}

#[test]
fn each_status_has_its_code_and_text(rt: HostRuntime) -> Result<(), Fail> {
    let field = FieldName::from("rule").map_err(|_| "a name")?;
    let name = FileName::from("b.bin").map_err(|_| "a name")?;
    let software = SwId {
        model: 0,
        version: 0,
    };
    let chosen = Chosen {
        group: 1,
        software,
        bytes: 9,
    };
    let rows = [
        (Status::Done, 0, ""),
        (Status::Installed(chosen), 0, ""),
        (Status::Usage, 2, "usage"),
        (Status::BoxRefused(field), 3, "box.toml refused at rule"),
        (Status::PlanRefused(field), 4, "plan refused at rule"),
        (Status::Foreign, 5, "flash is foreign"),
        (Status::Nothing(Level::Window), 6, ""),
        (Status::Incomplete(chosen, 1), 7, ""),
        (Status::BadModule(1, 0, 2), 8, ""),
        (Status::Absent(name), 9, "b.bin is absent"),
        (Status::ReadFault, 10, "read failed"),
        (Status::WriteFault, 11, "write failed"),
        (Status::FlashFault, 12, "flash failed"),
        (Status::Worn, 13, "records are worn out"),
        (Status::TooLong, 14, "input too long"),
        (Status::NoMemory, 15, "out of memory"),
        (Status::NoFit, 16, "image does not fit"),
        (Status::Geometry, 17, "flash has a wrong geometry"),
        (Status::ShelfFault, 18, "file could not be read"),
        (Status::Unsettled, 19, ""),
        (
            Status::BuildRefused(BuildFault::ImageTooLong(name)),
            20,
            "b.bin is too long",
        ),
        (
            Status::BuildRefused(BuildFault::TooManySections(66_918)),
            20,
            "too many sections: 66918",
        ),
        (Status::AuditRefused(AuditNo::NoDsi), 21, ""),
    ];
    for (status, code, text) in rows {
        same(&rt, &status.code(), &code);
        same(&rt, &status.text().as_str(), &text);
    }
    Ok(())
}
