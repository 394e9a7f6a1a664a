//! What an audit answered.
ghost use Rattle.std.specs.Prelude.{◌≡◌, ◌≤◌, length};
ghost use Rattle.audit_answer.specs.declared.answers.AuditNo.TheVariants.{BadModule, NoDsi, PlaceMissing, SizeDiffers};
ghost use Rattle.ssu_line.specs.AuditLines.{audit_no_line, audit_ok_line, differ_line, number_line};

use crate::writing::{Line, put_count, put_number};
use audit_answer::{AuditNo, AuditYes};

/// `audit ok groups G blocks B`: the number of groups of the DSI and of different block keys.
pub fn audit_ok(yes: AuditYes) -> Line
    ensures { result.bytes ≡ audit_ok_line yes }
{
    let mut line = Line::new();
    line.push_str("audit ok groups ");
    put_number(&mut line, yes.groups as u32);
    line.push_str(" blocks ");
    put_number(&mut line, yes.blocks);
    line.push_str("\n");
    line
}

/// The line of a fact against a stream: `differ block A B`, `differ dsi A B` and `differ dii A B` with the numbers of two
/// sections, `too many blocks N`, `no dsi`, `no dii G`, `unusable G`, `size G listed L total T`, `missing G place K`,
/// `bad module G I`, and `notice apart A` with the number of a section. G is the id of a group, I that of a module.
pub fn audit_refused(no: AuditNo) -> Line
    ensures { result.bytes ≡ audit_no_line no }
{
    match no {
        AuditNo::BlockDiffers(first, second) => differ("differ block ", first, second),
        AuditNo::DsiDiffers(first, second) => differ("differ dsi ", first, second),
        AuditNo::DiiDiffers(first, second) => differ("differ dii ", first, second),
        AuditNo::TooManyBlocks(count) => numbered("too many blocks ", u64::from(count)),
        AuditNo::NoDsi => no_dsi(),
        AuditNo::NoDii(group) => numbered("no dii ", u64::from(group)),
        AuditNo::Unusable(group) => numbered("unusable ", u64::from(group)),
        AuditNo::SizeDiffers(group, listed, total) => size_differs(group, listed, total),
        AuditNo::PlaceMissing(group, place) => missing(group, place),
        AuditNo::BadModule(group, id) => bad_module(group, id),
        AuditNo::NoticeApart(section) => numbered("notice apart ", section),
    }
}

/// Words, and the numbers of two sections.
fn differ(words: &str, first: u64, second: u64) -> Line
    requires { length words.now ≤ 16 }
    ensures { result.bytes ≡ differ_line words.now first second }
{
    let mut line = Line::new();
    line.push_str(words);
    put_count(&mut line, first);
    line.push_str(" ");
    put_count(&mut line, second);
    line.push_str("\n");
    line
}

/// Words, and one number.
fn numbered(words: &str, number: u64) -> Line
    requires { length words.now ≤ 16 }
    ensures { result.bytes ≡ number_line words.now number }
{
    let mut line = Line::new();
    line.push_str(words);
    put_count(&mut line, number);
    line.push_str("\n");
    line
}

fn no_dsi() -> Line
    ensures { result.bytes ≡ audit_no_line NoDsi }
{
    let mut line = Line::new();
    line.push_str("no dsi\n");
    line
}

fn size_differs(group: u32, listed: u32, total: u64) -> Line
    ensures { result.bytes ≡ audit_no_line (SizeDiffers group listed total) }
{
    let mut line = Line::new();
    line.push_str("size ");
    put_number(&mut line, group);
    line.push_str(" listed ");
    put_number(&mut line, listed);
    line.push_str(" total ");
    put_count(&mut line, total);
    line.push_str("\n");
    line
}

fn missing(group: u32, place: u32) -> Line
    ensures { result.bytes ≡ audit_no_line (PlaceMissing group place) }
{
    let mut line = Line::new();
    line.push_str("missing ");
    put_number(&mut line, group);
    line.push_str(" place ");
    put_number(&mut line, place);
    line.push_str("\n");
    line
}

fn bad_module(group: u32, id: u16) -> Line
    ensures { result.bytes ≡ audit_no_line (BadModule group id) }
{
    let mut line = Line::new();
    line.push_str("bad module ");
    put_number(&mut line, group);
    line.push_str(" ");
    put_number(&mut line, id as u32);
    line.push_str("\n");
    line
}
