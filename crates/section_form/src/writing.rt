//! Writes a section in the long form: ISO/IEC 13818-1, 2.4.4.11.

ghost use Rattle.std.specs.Prelude.{◌≡◌, ◌≢◌, ◌≤◌, ◌<◌, ◌*◌, [], length, Some, IfOk, OnOk};
ghost use Rattle.section_form.specs.Long.{long_form, fields};
ghost use Rattle.section_form.specs.Section.{IsRightSection};
ghost use Rattle.section_form.specs.Written.{long_bytes, long_text, head_bits, only_section};

use crate::reading::LongForm;
use ssu_io::NoMemory;
use std::alloc::Global;
use wire::{put_u8, put_u16, put_u32};

/// The section with these fields, in force, with its CRC. The body has at most 4,084 bytes, the version is below 32, and
/// the section number at most the last one's. `NoMemory` is the one refusal.
///
/// `second_bit` stands behind section_syntax_indicator: 0 for PAT, PMT and DSM-CC sections, 1 for NIT, BAT and UNT.
pub fn long_section(
    alloc: Global,
    head: LongForm<'_>,
    second_bit: bool,
) -> Result<Vec<u8>, NoMemory>
    requires body { length head.body.now ≤ 4084 }
    requires version { head.version < 32 }
    requires numbers { head.number ≤ head.last }
    ensures bytes { IfOk result (λ s. s.items ≡ long_bytes second_bit (fields head.entry)) }
    // `long` gives the fields back.
    ensures read_back { IfOk result (λ s. long_form.of s.items ≡ Some (fields head.entry)) }
    // table_id 0x70 alone has no long form.
    ensures right { head.entry.table ≢ 0x70 → IfOk result (λ s. IsRightSection s.items) }
{
    let mut out = Vec::new(alloc);
    put_text(&mut out, &head, second_bit)?;
    let crc = ts_crc::crc(&out);
    put_u32(&mut out, crc)?;
    Ok(out)
}

/// The same of section 0 of 0 of a table. The body has at most 4,084 bytes, and the version is below 32. `NoMemory`
/// is the one refusal.
pub fn table_section(
    alloc: Global,
    table: u8,
    extension: u16,
    version: u8,
    body: &[u8],
    second_bit: bool,
) -> Result<Vec<u8>, NoMemory>
    requires body { length body.now ≤ 4084 }
    requires version { version < 32 }
    ensures bytes { IfOk result (λ s. s.items ≡ long_bytes second_bit (only_section table extension version body.now)) }
    ensures read_back { IfOk result (λ s. long_form.of s.items ≡ Some (only_section table extension version body.now)) }
    ensures right { table ≢ 0x70 → IfOk result (λ s. IsRightSection s.items) }
{
    let head = LongForm {
        table,
        extension,
        version,
        number: 0,
        last: 0,
        body,
    };
    long_section(alloc, head, second_bit)
}

fn put_text(out: &mut Vec<u8>, head: &LongForm<'_>, second_bit: bool) -> Result<(), NoMemory>
    requires empty { out.old.items ≡ [] }
    requires body { length head.now.body.now ≤ 4084 }
    requires version { head.now.version < 32 }
    ensures { OnOk result (out.new.items ≡ long_text second_bit (fields head.now)) }
{
    let bits = bits_of_head(second_bit);
    put_u8(out, head.table)?;
    put_u16(out, bits + (9 + head.body.len()) as u16)?;
    put_u16(out, head.extension)?;
    put_u8(out, 0xC1 + 2 * head.version)?;
    put_u8(out, head.number)?;
    put_u8(out, head.last)?;
    out.extend_from_slice(head.body)?;
    Ok(())
}

/// The four bits before section_length: section_syntax_indicator 1, the second bit, and 2 reserved bits.
fn bits_of_head(second_bit: bool) -> u16
    ensures value { result ≡ head_bits second_bit * 4096 }
    ensures room { result ≤ 15 * 4096 }
{
    if second_bit { 0xF000 } else { 0xB000 }
}
