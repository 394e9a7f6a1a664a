//! The lines that the commands print, word by word.

use crate::check::same;
use section_kind::SectionKind;
use ssu_answer::{Chosen, Level};
use ssu_compat::SwId;
use ssu_line::{
    Line, aired, already, audit_ok, audit_refused, bad_module, blank, booted, built, carousel,
    component, formatted, groups, incomplete, installed, loaded, migrated, modules, nothing,
    notices, program, sampled, services, shown, unsettled,
};
use ssu_status::{AuditNo, AuditYes};
use ssu_time::Utc;
use std::test::Fail;
use ts_packet::Pid;

fn pid(number: u16) -> Result<Pid, Fail> {
    Ok(Pid::new(number).ok_or("a PID")?)
}

#[test]
fn results_are_told(rt: HostRuntime) -> Result<(), Fail> {
    let software = SwId {
        model: 1,
        version: 2,
    };
    let chosen = Chosen {
        group: 2147483650,
        software,
        bytes: 244000,
    };
    let rows: [(Line, &str); 14] = [
        (loaded(2147483650, 9), "loaded group 2147483650 bytes 9\n"),
        (
            installed(chosen),
            "installed group 2147483650 software 1.2 bytes 244000\n",
        ),
        (nothing(Level::Modules), "nothing level 7 modules\n"),
        (
            incomplete(2147483650, 1),
            "incomplete group 2147483650 missing 1\n",
        ),
        (
            bad_module(1, 0, 0x0376e6e7),
            "bad module 1 want 00000000 found 0376e6e7\n",
        ),
        (unsettled(), "unsettled\n"),
        (built(7, 7), "sections 7 packets 7\n"),
        (aired(4), "packets 4\n"),
        (
            sampled(5, 3, 244000, 246),
            "sample 5 modules 3 bytes 244000 sections 246\n",
        ),
        (blank(4), "blank 4\n"),
        (formatted(5), "formatted bytes 5\n"),
        (migrated(16, 2), "migrated bytes 16 number 2\n"),
        (already(2), "already layout 2 number 2\n"),
        (
            booted(1, 2, software, 244000),
            "boot bank 1 number 2 software 1.2 bytes 244000\n",
        ),
    ];
    for (line, text) in rows {
        same(&rt, &line.as_str(), &text);
    }
    Ok(())
}

#[test]
fn audits_are_told(rt: HostRuntime) -> Result<(), Fail> {
    let yes = AuditYes {
        groups: 1,
        blocks: 65_536,
    };
    same(
        &rt,
        &audit_ok(yes).as_str(),
        &"audit ok groups 1 blocks 65536\n",
    );
    let rows: [(AuditNo, &str); 11] = [
        (AuditNo::BlockDiffers(2, 5), "differ block 2 5\n"),
        (AuditNo::DsiDiffers(0, 3), "differ dsi 0 3\n"),
        (AuditNo::DiiDiffers(1, 4), "differ dii 1 4\n"),
        (AuditNo::TooManyBlocks(65_537), "too many blocks 65537\n"),
        (AuditNo::NoDsi, "no dsi\n"),
        (AuditNo::NoDii(2147483650), "no dii 2147483650\n"),
        (AuditNo::Unusable(2147483650), "unusable 2147483650\n"),
        (
            AuditNo::SizeDiffers(2147483650, 8, 9),
            "size 2147483650 listed 8 total 9\n",
        ),
        (
            AuditNo::PlaceMissing(2147483650, 0),
            "missing 2147483650 place 0\n",
        ),
        (
            AuditNo::BadModule(2147483650, 1),
            "bad module 2147483650 1\n",
        ),
        (AuditNo::NoticeApart(7), "notice apart 7\n"),
    ];
    for (no, text) in rows {
        same(&rt, &audit_refused(no).as_str(), &text);
    }
    Ok(())
}

#[test]
fn levels_are_told(rt: HostRuntime) -> Result<(), Fail> {
    let direct = Some((pid(258)?, 1));
    let indirect = Some((pid(257)?, 2));
    let rows: [(Line, &str); 15] = [
        (services(1), "1 services 1\n"),
        (services(0), "1 none\n"),
        (program(Some((3, pid(256)?))), "2 program 3 pid 256\n"),
        (program(None), "2 none\n"),
        (component(direct), "3 component 258 type 1\n"),
        (component(None), "3 none\n"),
        (notices(direct, 0), "4 direct\n"),
        (notices(indirect, 32), "4 notices 32\n"),
        (notices(indirect, 0), "4 none\n"),
        (carousel(Some(pid(258)?)), "5 carousel 258\n"),
        (carousel(None), "5 none\n"),
        (groups(1), "6 groups 1\n"),
        (groups(0), "6 none\n"),
        (modules(Some((1, 9))), "7 modules 1 bytes 9\n"),
        (modules(None), "7 none\n"),
    ];
    for (line, text) in rows {
        same(&rt, &line.as_str(), &text);
    }
    Ok(())
}

#[test]
fn sections_are_told(rt: HostRuntime) -> Result<(), Fail> {
    let time = Utc {
        mjd: 49273,
        second: 45900,
    };
    let rows: [(Line, &str); 3] = [
        (
            shown(0, pid(20)?, 0x70, 8, Some(SectionKind::Tdt(time))),
            "       0 0014 70    8 TDT 1993-10-13T12:45:00\n",
        ),
        (
            shown(16777215, pid(8191)?, 0x3b, 4096, Some(SectionKind::Dii)),
            "16777215 1fff 3b 4096 DII\n",
        ),
        (shown(12, pid(0)?, 0, 13, None), "      12 0000 00   13 -\n"),
    ];
    for (line, text) in rows {
        same(&rt, &line.as_str(), &text);
    }
    Ok(())
}
