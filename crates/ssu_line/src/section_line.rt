//! The line of a section that was heard.
ghost use Rattle.std.specs.Prelude.{◌≡◌, ◌+◌, ◌≤◌, ◌++◌, Some};
ghost use Rattle.arrayvec.specs.ArrayString.{array_string_len};
ghost use Rattle.ssu_line.specs.SectionLine.{kind_time, kind_word, shown_line, time_part};
ghost use Rattle.section_kind.specs.Words.{time_of, word_of};

use crate::time_text::put_time;
use crate::writing::{Line, put_hex_byte, put_right};
use section_kind::SectionKind;
use ssu_time::Utc;
use ts_packet::Pid;

/// `PACKET PID TABLE BYTES WORD`, and behind TDT and TOT the time: the number of the packet at which the section was complete,
/// its PID, its table_id, its length in bytes, and what it is; `-` for what no reader accepts.
pub fn shown(packet: u32, pid: Pid, table_id: u8, bytes: u16, kind: Option<SectionKind>) -> Line
    ensures { result.bytes ≡ shown_line packet pid table_id bytes kind }
{
    let mut line = Line::new();
    put_right(&mut line, 8, packet);
    line.push_str(" ");
    put_hex_byte(&mut line, (pid.get() / 256) as u8);
    put_hex_byte(&mut line, (pid.get() % 256) as u8);
    line.push_str(" ");
    put_hex_byte(&mut line, table_id);
    line.push_str(" ");
    put_right(&mut line, 4, bytes as u32);
    line.push_str(" ");
    put_kind(&mut line, kind);
    line.push_str("\n");
    line
}

fn put_kind(line: &mut Line, kind: Option<SectionKind>)
    requires { array_string_len line.old + 23 ≤ 96 }
    ensures bytes { line.new.bytes ≡ line.old.bytes ++ kind_word kind ++ kind_time kind }
    ensures len { array_string_len line.new ≤ array_string_len line.old + 23 }
{
    match kind {
        None => line.push_str("-"),
        Some(kind) => put_known(line, kind),
    }
}

fn put_known(line: &mut Line, kind: SectionKind)
    requires { array_string_len line.old + 23 ≤ 96 }
    ensures bytes { line.new.bytes ≡ line.old.bytes ++ word_of kind ++ time_part (time_of kind) }
    ensures len { array_string_len line.new ≤ array_string_len line.old + 23 }
{
    line.push_str(kind.word());
    put_time_part(line, kind.time());
}

fn put_time_part(line: &mut Line, time: Option<Utc>)
    requires { array_string_len line.old + 20 ≤ 96 }
    ensures bytes { line.new.bytes ≡ line.old.bytes ++ time_part time }
    ensures len { array_string_len line.new ≤ array_string_len line.old + 20 }
{
    match time {
        None => {}
        Some(time) => put_spaced_time(line, time),
    }
}

fn put_spaced_time(line: &mut Line, time: Utc)
    requires { array_string_len line.old + 20 ≤ 96 }
    ensures bytes { line.new.bytes ≡ line.old.bytes ++ time_part (Some time) }
    ensures len { array_string_len line.new ≤ array_string_len line.old + 20 }
{
    line.push_str(" ");
    put_time(line, time);
}
