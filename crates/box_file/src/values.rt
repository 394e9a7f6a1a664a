//! What the texts of single fields may be.
ghost use Rattle.std.specs.Prelude.{◌≡◌};
ghost use Rattle.std.specs.List.{list_all};
ghost use Rattle.box_file.specs.BoxText.{rule_of, mac_of, serial_of, is_serial, is_printable};

use arrayvec::ArrayVec;
use hex::FromHex;
use ssu_compat::Rule;

/// The rule of that name.
pub(crate) fn rule_of(text: &str) -> Option<Rule>
    ensures { result ≡ rule_of text.now }
{
    if text == "newer" {
        Some(Rule::Newer)
    } else if text == "different" {
        Some(Rule::Different)
    } else if text == "any" {
        Some(Rule::Any)
    } else {
        None
    }
}

/// The address that twelve hexadecimal digits write, with letters in either case.
pub(crate) fn mac_of(text: &str) -> Option<[u8; 6]>
    ensures { result ≡ mac_of text.now }
{
    <[u8; 6] as FromHex>::from_hex(text).ok()
}

/// The serial number of 1 to 32 characters from space to `~`.
pub(crate) fn serial_of(text: &str) -> Option<ArrayVec<u8, 32>>
    ensures { result ≡ serial_of text.now }
{
    let bytes = text.as_bytes();
    if is_serial(bytes) {
        ArrayVec::try_from(bytes).ok()
    } else {
        None
    }
}

fn is_serial(bytes: &[u8]) -> bool
    ensures { result ≡ is_serial bytes.now }
{
    1 <= bytes.len() && bytes.len() <= 32 && is_printable(bytes)
}

fn is_printable(bytes: &[u8]) -> bool
    ensures { result ≡ list_all is_printable bytes.now }
{
    for byte in bytes {
        if *byte < b' ' || b'~' < *byte {
            return false;
        }
    }
    true
}
