//! The long form of a section: ISO/IEC 13818-1, 2.4.4.11.
//!
//! table_id 8; section_syntax_indicator 1, one bit that no reader looks at, 2 reserved bits, section_length 12;
//! table_id_extension 16; 2 reserved bits, version_number 5, current_next_indicator 1; section_number 8,
//! last_section_number 8; the body; CRC_32.

ghost use Rattle.std.specs.Prelude.{◌≡◌, Some, IfSome};
ghost use Rattle.std.specs.Option.{option_map};
ghost use Rattle.wire.specs.Read.{Reads};
ghost use Rattle.section_form.specs.Long.{LongFields, long_form, unchecked_form, long_head, current_version, behind_length, fields};
ghost use Rattle.section_form.specs.Section.{IsRight};

use ts_crc::crc;
use wire::{raw_at, u8_at, u16_at};

/// A section in the long form.
#[derive(Clone, Copy, Debug)]
pub struct LongForm<'a> {
    /// table_id.
    pub table: u8,
    /// table_id_extension, which each table names in its own way.
    pub extension: u16,
    /// version_number, below 32.
    pub version: u8,
    /// section_number.
    pub number: u8,
    /// last_section_number.
    pub last: u8,
    /// What stands between last_section_number and CRC_32.
    pub body: &'a [u8],
}

/// The fields of a section in the long form.
///
/// `None` comes exactly where the section is not in the long form, or its length is not three bytes and its
/// section_length, or section_length is below 9 or above 4093, or current_next_indicator is 0, or the CRC over all of its
/// bytes is not 0.
pub fn long(section: &[u8]) -> Option<LongForm<'_>>
    // What is answered is spelled so.
    ensures found { IfSome result (λ f. long_form.Spells (fields f) section.now) }
    // What is spelled so is answered.
    ensures only { (x : LongFields) → long_form.Spells x section.now → option_map fields result ≡ Some x }
    ensures reads { Reads fields result (long_form.of section.now) }
{
    fields_in(section)
}

/// The fields of a right section in the long form: what `long` answers, without the time of a CRC. `None` comes
/// exactly where `long` answers it.
///
/// A section that a hearer gives out is right.
pub fn long_of_right(section: &[u8]) -> Option<LongForm<'_>>
    requires right { IsRight section.now }
    ensures found { IfSome result (λ f. long_form.Spells (fields f) section.now) }
    ensures only { (x : LongFields) → long_form.Spells x section.now → option_map fields result ≡ Some x }
    ensures reads { Reads fields result (long_form.of section.now) }
{
    unchecked_in(section)
}

#[tactic(auto, unfolding(crate::specs::Long::long_form))]
fn fields_in(section: &[u8]) -> Option<LongForm<'_>>
    ensures { Reads fields result (long_form.of section.now) }
{
    if crc(section) != 0 {
        return None;
    }
    unchecked_in(section)
}

/// The fields of the long form, whatever its CRC.
#[tactic(auto, unfolding(crate::specs::Long::unchecked_form))]
fn unchecked_in(section: &[u8]) -> Option<LongForm<'_>>
    ensures { Reads fields result (unchecked_form.of section.now) }
{
    let (table, bytes) = u8_at(section)?;
    let (length, bytes) = length_at(bytes)?;
    let (inside, rest) = raw_at(bytes, length as usize)?;
    let behind = behind_length_in(inside)?;
    if !rest.is_empty() {
        return None;
    }
    Some(LongForm {
        table,
        extension: behind.extension,
        version: behind.version,
        number: behind.number,
        last: behind.last,
        body: behind.body,
    })
}

/// section_length, behind section_syntax_indicator 1.
#[tactic(auto, unfolding(crate::specs::Long::long_head))]
fn length_at(bytes: &[u8]) -> Option<(u16, &[u8])>
    ensures { Reads (λ x. (x.0, x.1.now)) result (long_head.at bytes.now) }
{
    let (head, rest) = u16_at(bytes)?;
    if head / 0x8000 == 1 && head % 4096 <= 4093 {
        return Some((head % 4096, rest));
    }
    None
}

/// version_number, before current_next_indicator 1.
#[tactic(auto, unfolding(crate::specs::Long::current_version))]
fn version_at(bytes: &[u8]) -> Option<(u8, &[u8])>
    ensures { Reads (λ x. (x.0, x.1.now)) result (current_version.at bytes.now) }
{
    let (head, rest) = u8_at(bytes)?;
    if head % 2 == 1 {
        return Some((head / 2 % 32, rest));
    }
    None
}

/// What stands behind section_length.
#[derive(Drop)]
struct Behind<'a> {
    extension: u16,
    version: u8,
    number: u8,
    last: u8,
    body: &'a [u8],
}

#[tactic(auto, unfolding(crate::specs::Long::behind_length))]
fn behind_length_in(bytes: &[u8]) -> Option<Behind<'_>>
    ensures { Reads (λ b. (b.extension, (b.version, (b.number, (b.last, b.body.now))))) result (behind_length.of bytes.now) }
{
    let (extension, bytes) = u16_at(bytes)?;
    let (version, bytes) = version_at(bytes)?;
    let (number, bytes) = u8_at(bytes)?;
    let (last, bytes) = u8_at(bytes)?;
    if bytes.len() < 4 {
        return None;
    }
    Some(Behind {
        extension,
        version,
        number,
        last,
        body: &bytes[..bytes.len() - 4],
    })
}
