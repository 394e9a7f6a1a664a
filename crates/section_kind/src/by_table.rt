//! The kind of a section, by its table_id.
ghost use Rattle.std.specs.Prelude.{◌≡◌, IfNone};
ghost use Rattle.section_kind.specs.Kinds.{IsOfNoKind, kind_by, kind_of};

use crate::readers::{block, control, net, pat, pmt, tdt, tot, unt};
use crate::section_kinds::SectionKind;

/// What the section is. `None` comes exactly where no reader accepts it.
pub fn kind(section: &[u8]) -> Option<SectionKind>
    ensures kind { result ≡ kind_of section.now }
    ensures none { IfNone result (IsOfNoKind section.now) }
{
    if section.is_empty() {
        return None;
    }
    kind_in(section[0], section)
}

/// What the section with this table_id is.
fn kind_in(table: u8, section: &[u8]) -> Option<SectionKind>
    ensures { result ≡ kind_by table section.now }
{
    match table {
        0x00 => pat(section),
        0x02 => pmt(section),
        0x40 | 0x4A => net(section),
        0x70 => tdt(section),
        0x73 => tot(section),
        0x4B => unt(section),
        0x3B => control(section),
        0x3C => block(section),
        _ => None,
    }
}
