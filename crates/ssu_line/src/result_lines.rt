//! What a command did.
ghost use Rattle.std.specs.Prelude.{◌≡◌, ◌+◌, ◌≤◌, ◌++◌};
ghost use Rattle.arrayvec.specs.ArrayString.{array_string_len};
ghost use Rattle.ssu_line.specs.Lines.{loaded_line, installed_line, nothing_line, incomplete_line, bad_module_line};
ghost use Rattle.ssu_line.specs.Lines.{unsettled_line, built_line, blank_line, formatted_line, booted_line};
ghost use Rattle.ssu_line.specs.Lines.{aired_line, already_line, migrated_line, sampled_line};
ghost use Rattle.ssu_line.specs.Lines.{software_text, verdict_line};

use crate::writing::{Line, put_count, put_hex_word, put_number};
use ssu_answer::{Chosen, Level, Verdict};
use ssu_compat::SwId;

/// `loaded group G bytes L`: the id of the group and the length of its image.
pub fn loaded(group: u32, bytes: u32) -> Line
    ensures { result.bytes ≡ loaded_line group bytes }
{
    let mut line = Line::new();
    line.push_str("loaded group ");
    put_number(&mut line, group);
    line.push_str(" bytes ");
    put_number(&mut line, bytes);
    line.push_str("\n");
    line
}

/// `installed group G software M.V bytes L`: the id of the group, the software that it offers and the length of its image.
pub fn installed(chosen: Chosen) -> Line
    ensures { result.bytes ≡ installed_line chosen }
{
    let mut line = Line::new();
    line.push_str("installed group ");
    put_number(&mut line, chosen.group);
    line.push_str(" software ");
    put_software(&mut line, chosen.software);
    line.push_str(" bytes ");
    put_number(&mut line, chosen.bytes);
    line.push_str("\n");
    line
}

/// `nothing level K NAME`: the first level without a value.
pub fn nothing(level: Level) -> Line
    ensures { result.bytes ≡ nothing_line level }
{
    let mut line = Line::new();
    line.push_str("nothing level ");
    put_number(&mut line, level.number() as u32);
    line.push_str(" ");
    line.push_str(level.name());
    line.push_str("\n");
    line
}

/// `incomplete group G missing N`: the id of the group and how many of its blocks were not heard.
pub fn incomplete(group: u32, missing: u32) -> Line
    ensures { result.bytes ≡ incomplete_line group missing }
{
    let mut line = Line::new();
    line.push_str("incomplete group ");
    put_number(&mut line, group);
    line.push_str(" missing ");
    put_number(&mut line, missing);
    line.push_str("\n");
    line
}

/// `bad module I want C found C`: the id of the module, its stated CRC and the CRC of its bytes.
pub fn bad_module(id: u16, want: u32, found: u32) -> Line
    ensures { result.bytes ≡ bad_module_line id want found }
{
    let mut line = Line::new();
    line.push_str("bad module ");
    put_number(&mut line, id as u32);
    line.push_str(" want ");
    put_hex_word(&mut line, want);
    line.push_str(" found ");
    put_hex_word(&mut line, found);
    line.push_str("\n");
    line
}

/// `unsettled`: a seventeenth choice of a group would begin.
pub fn unsettled() -> Line
    ensures { result.bytes ≡ unsettled_line }
{
    let mut line = Line::new();
    line.push_str("unsettled\n");
    line
}

/// The line of a verdict.
pub fn verdict(verdict: Verdict) -> Line
    ensures { result.bytes ≡ verdict_line verdict }
{
    match verdict {
        Verdict::Installed(chosen) => installed(chosen),
        Verdict::Nothing(level) => nothing(level),
        Verdict::Incomplete(chosen, missing) => incomplete(chosen.group, missing),
        Verdict::BadModule(id, want, found) => bad_module(id, want, found),
        Verdict::Unsettled => unsettled(),
    }
}

/// `sections N packets P`: how many sections a plan makes, and how many packets were written.
pub fn built(sections: u64, packets: u64) -> Line
    ensures { result.bytes ≡ built_line sections packets }
{
    let mut line = Line::new();
    line.push_str("sections ");
    put_count(&mut line, sections);
    line.push_str(" packets ");
    put_count(&mut line, packets);
    line.push_str("\n");
    line
}

/// `packets P`: how many packets were written.
pub fn aired(packets: u64) -> Line
    ensures { result.bytes ≡ aired_line packets }
{
    let mut line = Line::new();
    line.push_str("packets ");
    put_count(&mut line, packets);
    line.push_str("\n");
    line
}

/// `sample N modules M bytes L sections S`: the number of the sample, its modules, their bytes in all, and the sections.
pub fn sampled(number: u32, modules: u32, bytes: u32, sections: u32) -> Line
    ensures { result.bytes ≡ sampled_line number modules bytes sections }
{
    let mut line = Line::new();
    line.push_str("sample ");
    put_number(&mut line, number);
    line.push_str(" modules ");
    put_number(&mut line, modules);
    line.push_str(" bytes ");
    put_number(&mut line, bytes);
    line.push_str(" sections ");
    put_number(&mut line, sections);
    line.push_str("\n");
    line
}

/// `blank N`: how many blocks were written.
pub fn blank(blocks: u32) -> Line
    ensures { result.bytes ≡ blank_line blocks }
{
    let mut line = Line::new();
    line.push_str("blank ");
    put_number(&mut line, blocks);
    line.push_str("\n");
    line
}

/// `formatted bytes L`: the length of the image.
pub fn formatted(bytes: u32) -> Line
    ensures { result.bytes ≡ formatted_line bytes }
{
    let mut line = Line::new();
    line.push_str("formatted bytes ");
    put_number(&mut line, bytes);
    line.push_str("\n");
    line
}

/// `migrated bytes L number N`: the length of the image, and the number of the record of layout 2.
pub fn migrated(bytes: u32, number: u32) -> Line
    ensures { result.bytes ≡ migrated_line bytes number }
{
    let mut line = Line::new();
    line.push_str("migrated bytes ");
    put_number(&mut line, bytes);
    line.push_str(" number ");
    put_number(&mut line, number);
    line.push_str("\n");
    line
}

/// `already layout 2 number N`: the number of the record of layout 2 that was there.
pub fn already(number: u32) -> Line
    ensures { result.bytes ≡ already_line number }
{
    let mut line = Line::new();
    line.push_str("already layout 2 number ");
    put_number(&mut line, number);
    line.push_str("\n");
    line
}

/// `boot bank B number N software M.V bytes L`: the record that boot takes.
pub fn booted(bank: u8, number: u32, software: SwId, bytes: u32) -> Line
    ensures { result.bytes ≡ booted_line bank number software bytes }
{
    let mut line = Line::new();
    line.push_str("boot bank ");
    put_number(&mut line, bank as u32);
    line.push_str(" number ");
    put_number(&mut line, number);
    line.push_str(" software ");
    put_software(&mut line, software);
    line.push_str(" bytes ");
    put_number(&mut line, bytes);
    line.push_str("\n");
    line
}

/// `M.V`
fn put_software(line: &mut Line, software: SwId)
    requires { array_string_len line.old + 21 ≤ 96 }
    ensures bytes { line.new.bytes ≡ line.old.bytes ++ software_text software }
    ensures len { array_string_len line.new ≤ array_string_len line.old + 21 }
{
    put_number(line, software.model as u32);
    line.push_str(".");
    put_number(line, software.version as u32);
}
