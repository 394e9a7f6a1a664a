//! The lines that are printed.
ghost use Rattle.std.specs.Prelude.{◌≡◌, ◌+◌, ◌≤◌, ◌++◌, length, slice_index, OnOk, OnErr};
ghost use Rattle.ssu_io.specs.Bytes.{GainsPrefix};
ghost use Rattle.ssu_io.specs.Faults.{HasCause};
ghost use Rattle.ssu_io.specs.SinkBuffer.{MovesOn};
ghost use Rattle.tool_find.specs.Lines.{report_lines, section_line, section_lines};

use arrayvec::ArrayString;
use section_kind::kind;
use ssu_io::{Failed, Sink, SinkBuffer};
use ssu_line::{Line, carousel, component, groups, modules, notices, program, services, shown};
use ssu_route::Report;
use ts_packet::Pid;
use ts_section::SectionOut;

/// Puts a line for each section of the packet of this number.
pub(crate) fn put_sections<T: Sink>(
    number: u32,
    pid: Pid,
    each: &SectionOut,
    waiting: &mut SinkBuffer,
    out: &mut T,
) -> Result<(), Failed>
    ensures ok { OnOk result (MovesOn (T.contents out.old) (T.contents out.new) waiting.old (section_lines number pid each.now) waiting.new) }
    ensures failed { OnErr result (GainsPrefix (T.contents out.old) (T.contents out.new) (waiting.old ++ section_lines number pid each.now)) }
    ensures cause { HasCause (T.faults out.old) (T.faults out.new) result }
{
    for k in 0..each.len() {
        put_section(number, pid, each.get(k), waiting, out)?;
    }
    Ok(())
}

/// Puts the line of a section.
fn put_section<T: Sink>(
    number: u32,
    pid: Pid,
    section: &[u8],
    waiting: &mut SinkBuffer,
    out: &mut T,
) -> Result<(), Failed>
    requires { length section.now ≤ 4096 }
    ensures ok { OnOk result (MovesOn (T.contents out.old) (T.contents out.new) waiting.old (section_line number pid section.now) waiting.new) }
    ensures failed { OnErr result (GainsPrefix (T.contents out.old) (T.contents out.new) (waiting.old ++ section_line number pid section.now)) }
    ensures cause { HasCause (T.faults out.old) (T.faults out.new) result }
{
    let line = shown(
        number,
        pid,
        table_id(section),
        section.len() as u16,
        kind(section),
    );
    waiting.put(out, line.as_bytes())
}

/// The first byte.
fn table_id(section: &[u8]) -> u8
    ensures { result ≡ slice_index section.now 0 }
{
    match section {
        [table_id, ..] => *table_id,
        [] => 0,
    }
}

/// Puts the seven lines.
pub(crate) fn put_report<T: Sink>(
    report: &Report,
    waiting: &mut SinkBuffer,
    out: &mut T,
) -> Result<(), Failed>
    ensures ok { OnOk result (MovesOn (T.contents out.old) (T.contents out.new) waiting.old (report_lines report.now) waiting.new) }
    ensures failed { OnErr result (GainsPrefix (T.contents out.old) (T.contents out.new) (waiting.old ++ report_lines report.now)) }
    ensures cause { HasCause (T.faults out.old) (T.faults out.new) result }
{
    waiting.put(out, text_of(report).as_bytes())
}

/// The seven lines.
fn text_of(report: &Report) -> ArrayString<672>
    ensures { result.bytes ≡ report_lines report.now }
{
    let mut text = ArrayString::new();
    push_line(&mut text, &services(report.services), 0);
    push_line(&mut text, &program(report.program), 96);
    push_line(&mut text, &component(report.component), 192);
    push_line(&mut text, &notices(report.component, report.notices), 288);
    push_line(&mut text, &carousel(report.carousel), 384);
    push_line(&mut text, &groups(report.groups), 480);
    push_line(&mut text, &modules(report.modules), 576);
    text
}

/// Pushes a line behind a text of at most so many bytes.
fn push_line(text: &mut ArrayString<672>, line: &Line, most: usize)
    requires room { most ≤ 576 }
    requires before { length text.old.bytes ≤ most }
    ensures bytes { text.new.bytes ≡ text.old.bytes ++ line.now.bytes }
    ensures after { length text.new.bytes ≤ most + 96 }
{
    text.push_str(line.as_str());
}
