//! Carousels that are audited: what an audit answers, and what the command prints.

use crate::check::same;
use crate::messages::{GROUP, ddb, dii, send};
use dsmcc_msg::DsiWriter;
use ssu_audit::{Audit, AuditNo, AuditYes, answers_are_one, yes_means_one_image};
use ssu_compat::{Oui, Plain, write};
use ssu_io::{MemSink, MemSource, Source};
use ssu_status::Status;
use ssu_unt::UntWriter;
use std::alloc::Global;
use std::test::Fail;
use tool_audit::audit;
use ts_packet::Pid;

/// A section of the example's carousel or its notice, or one that differs from it.
#[derive(Clone, Copy)]
enum Sent {
    /// The DSI, with the group.
    Dsi,
    /// A DSI with another size of the group.
    OtherDsi,
    /// The DII, without a CRC of its module.
    Dii,
    /// A DII with zeros as the CRC of its module.
    ZeroDii,
    /// A DII with blocks of no bytes.
    NoBlockSize,
    /// The only block of the module.
    Block,
    /// The block with other bytes.
    OtherBlock,
    /// The block with a byte less.
    ShortBlock,
    /// A notice for the hardware of the group.
    Notice,
    /// A notice for other hardware.
    OtherNotice,
}

fn oui() -> Result<Oui, Fail> {
    Ok(Oui::new(4660).ok_or("an OUI")?)
}

fn dsi(alloc: Global, size: u32) -> Result<Vec<u8>, Fail> {
    let hardware = Plain {
        kind: 1,
        oui: oui()?,
        model: 7,
        version: 1,
    };
    let compat = write(alloc, &[hardware])?;
    let mut writer = DsiWriter::new(alloc, 0x8000_0000)?;
    writer.group(GROUP, size, &compat, &[])?;
    Ok(writer.finish().ok().ok_or("memory")?)
}

/// A notice for the hardware of a model.
fn notice(alloc: Global, model: u16) -> Result<Vec<u8>, Fail> {
    let oui = oui()?;
    let hardware = Plain {
        kind: 1,
        oui,
        model,
        version: 1,
    };
    let compat = write(alloc, &[hardware])?;
    let mut writer = UntWriter::new(alloc, oui, 0, &[])?;
    writer.platform(&compat)?;
    Ok(writer.finish().ok().ok_or("memory")?)
}

fn section_of(alloc: Global, sent: Sent) -> Result<Vec<u8>, Fail> {
    match sent {
        Sent::Dsi => dsi(alloc, 9),
        Sent::OtherDsi => dsi(alloc, 8),
        Sent::Dii => dii(alloc, GROUP, 4066, &[]),
        Sent::ZeroDii => dii(alloc, GROUP, 4066, &[5, 4, 0, 0, 0, 0]),
        Sent::NoBlockSize => dii(alloc, GROUP, 0, &[]),
        Sent::Block => ddb(alloc, 0, b"123456789"),
        Sent::OtherBlock => ddb(alloc, 0, b"123456780"),
        Sent::ShortBlock => ddb(alloc, 0, b"12345678"),
        Sent::Notice => notice(alloc, 7),
        Sent::OtherNotice => notice(alloc, 8),
    }
}

/// The carousel is on PID 258, and its notice on PID 257.
fn pid_of(sent: Sent) -> u16 {
    match sent {
        Sent::Notice | Sent::OtherNotice => 257,
        _ => 258,
    }
}

/// The packets of these sections. Each begins anew, so all have the counter 0 or go on from it.
fn packets(alloc: Global, sections: &[Sent]) -> Result<Vec<u8>, Fail> {
    let mut counter = 0u8;
    let mut bytes = Vec::new(alloc);
    for sent in sections {
        let section = section_of(alloc, *sent)?;
        counter = send(&mut bytes, &section, pid_of(*sent), counter)?;
    }
    Ok(bytes)
}

#[derive(Drop)]
struct Came {
    status: Status,
    out: Vec<u8>,
    left: usize,
}

/// `audit 258`, or `audit 258 257`, on these bytes, with the calls that fail: of the source, and of `out`.
fn run_audit(
    alloc: Global,
    air: Vec<u8>,
    has_notice: bool,
    fails: [&[u32]; 2],
) -> Result<Came, Fail> {
    let pid = Pid::new(258).ok_or("a PID")?;
    let notice = if has_notice { Pid::new(257) } else { None };
    let mut air = MemSource::new(air, 1000, fails[0].to_vec(alloc)?);
    let mut out = MemSink::new(alloc, fails[1].to_vec(alloc)?);
    let status = audit(alloc, pid, notice, &mut air, &mut out);
    let left = air.take(&mut [0; 1000]).unwrap_or(0);
    Ok(Came {
        status,
        out: out.into_bytes(),
        left,
    })
}

#[test]
fn each_answer_is_printed(rt: HostRuntime) -> Result<(), Fail> {
    let yes = "audit ok groups 1 blocks 1\n";
    // what is sent, whether its notice is heard, the exit code and the line
    let rows: [(&[Sent], bool, u8, &str); 14] = [
        (
            &[Sent::Dsi, Sent::Dii, Sent::Block, Sent::Dsi, Sent::Block],
            false,
            0,
            yes,
        ),
        (&[], false, 21, "no dsi\n"),
        (&[Sent::Dsi, Sent::Block], false, 21, "no dii 2147483650\n"),
        (
            &[Sent::Dsi, Sent::NoBlockSize],
            false,
            21,
            "unusable 2147483650\n",
        ),
        (
            &[Sent::OtherDsi, Sent::Dii, Sent::Block],
            false,
            21,
            "size 2147483650 listed 8 total 9\n",
        ),
        (
            &[Sent::Dsi, Sent::Dii],
            false,
            21,
            "missing 2147483650 place 0\n",
        ),
        (
            &[Sent::Dsi, Sent::Dii, Sent::ShortBlock],
            false,
            21,
            "missing 2147483650 place 0\n",
        ),
        (
            &[Sent::Dsi, Sent::ZeroDii, Sent::Block],
            false,
            21,
            "bad module 2147483650 1\n",
        ),
        (
            &[Sent::Dsi, Sent::Dii, Sent::Block, Sent::ZeroDii],
            false,
            21,
            "differ dii 1 3\n",
        ),
        (
            &[Sent::Dsi, Sent::Dii, Sent::OtherDsi],
            false,
            21,
            "differ dsi 0 2\n",
        ),
        (
            &[Sent::Dsi, Sent::ZeroDii, Sent::Block, Sent::OtherBlock],
            false,
            21,
            "differ block 2 3\n",
        ),
        (
            &[Sent::Notice, Sent::Dsi, Sent::Dii, Sent::Block],
            true,
            0,
            yes,
        ),
        (
            &[Sent::Dsi, Sent::Dii, Sent::Block, Sent::OtherNotice],
            true,
            21,
            "notice apart 3\n",
        ),
        (
            &[Sent::Dsi, Sent::Dii, Sent::Block, Sent::OtherNotice],
            false,
            0,
            yes,
        ),
    ];
    for (sections, has_notice, code, line) in rows {
        let air = packets(rt.alloc(), sections)?;
        let came = run_audit(rt.alloc(), air, has_notice, [&[], &[]])?;
        same(&rt, &came.status.code(), &code);
        same(&rt, &came.out.as_slice(), &line.as_bytes());
    }
    Ok(())
}

#[test]
fn no_byte_behind_a_fact_is_taken(rt: HostRuntime) -> Result<(), Fail> {
    let sections = [Sent::Dsi, Sent::Block, Sent::OtherBlock, Sent::Dii];
    let came = run_audit(
        rt.alloc(),
        packets(rt.alloc(), &sections)?,
        false,
        [&[], &[]],
    )?;
    same(
        &rt,
        &came.status,
        &Status::AuditRefused(AuditNo::BlockDiffers(1, 2)),
    );
    same(&rt, &came.left, &188);
    Ok(())
}

#[test]
fn faults_are_told_from_each_other(rt: HostRuntime) -> Result<(), Fail> {
    let whole = packets(rt.alloc(), &[Sent::Dsi, Sent::Dii, Sent::Block])?;
    // the failing calls, and what comes of it
    let rows: [([&[u32]; 2], Status); 3] = [
        ([&[1], &[]], Status::ReadFault),
        ([&[3], &[1]], Status::ReadFault),
        ([&[], &[1]], Status::WriteFault),
    ];
    for (fails, status) in rows {
        let came = run_audit(rt.alloc(), whole.clone()?, false, fails)?;
        same(&rt, &came.status, &status);
        assert!(rt; came.out.is_empty());
    }
    Ok(())
}

#[test]
fn an_audit_hears_sections_one_by_one(rt: HostRuntime) -> Result<(), Fail> {
    answers_are_one();
    yes_means_one_image();
    let alloc = rt.alloc();
    let mut audit = Audit::new(alloc)?;
    same(&rt, &audit.end(), &Err(AuditNo::NoDsi));
    let None = audit.hear(false, &dsi(alloc, 9)?)? else {
        return Err("a fact against the DSI".into());
    };
    let None = audit.hear(false, &dii(alloc, GROUP, 4066, &[])?)? else {
        return Err("a fact against the DII".into());
    };
    let None = audit.hear(true, &notice(alloc, 7)?)? else {
        return Err("a fact against the notice".into());
    };
    let None = audit.hear(false, &ddb(alloc, 0, b"123456789")?)? else {
        return Err("a fact against the block".into());
    };
    let yes = AuditYes {
        groups: 1,
        blocks: 1,
    };
    same(&rt, &audit.end(), &Ok(yes));
    let other = audit.hear(false, &ddb(alloc, 0, b"123456780")?)?;
    same(&rt, &other, &Some(AuditNo::BlockDiffers(3, 4)));
    Ok(())
}
