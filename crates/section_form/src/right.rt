//! A right section: ISO/IEC 13818-1, 2.4.4.10 and 2.4.4.11; ETSI EN 300 468, 5.2.5 and 5.2.6.

ghost use Rattle.std.specs.Prelude.{◌≡◌, ◌++◌, ◌==◌, ◌≤◌, ◌↔◌, IsTrue, List, ℕ, [], length};
ghost use Rattle.section_form.specs.Section.{is_right as right_of, IsRight, IsRightSection, current_next_indicator};

use ts_crc::crc;

/// Whether a whole section is right: a TDT of eight bytes, a section in the long form that is in force and has the
/// right CRC, or one in the short form that has the right CRC.
pub fn is_right(section: &[u8]) -> bool
    requires { 3 ≤ length section.now }
    ensures right { IsTrue result ↔ IsRight section.now }
    ensures test { result ≡ right_of section.now }
{
    passes(section)
}

#[tactic(auto, unfolding(crate::specs::Section::is_right))]
fn passes(section: &[u8]) -> bool
    requires { 3 ≤ length section.now }
    ensures { result ≡ right_of section.now }
{
    let is_long = section[1] >= 128;
    let length = section[1] as u16 % 16 * 256 + section[2] as u16;
    if section[0] == 0x70 {
        return !is_long && length == 5;
    }
    if length > 4093 {
        return false;
    }
    if is_long {
        length >= 9 && is_current(section) && crc(section) == 0
    } else {
        length >= 4 && crc(section) == 0
    }
}

/// current_next_indicator is 1.
fn is_current(section: &[u8]) -> bool
    ensures { result ≡ (current_next_indicator section.now == 1) }
{
    section.len() > 5 && section[5] % 2 == 1
}

/// No right section begins another: what a section is tells where it ends.
pub fn section_ends()
    ensures { (section longer more : List ℕ) → IsRightSection section → IsRightSection longer
        → longer ≡ section ++ more → more ≡ [] }
{}
