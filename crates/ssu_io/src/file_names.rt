//! Names of files.
ghost use Rattle.std.specs.Prelude.{◌≡◌, option_map};
ghost use Rattle.std.specs.List.{list_all};
ghost use Rattle.ssu_io.specs.FileName.{file_name_of, is_file_name, is_file_character};

use arrayvec::ArrayString;

/// The name of a file.
pub type FileName = ArrayString<64>;

/// The text as the name of a file: 1 to 64 letters, digits, `.`, `_` or `-` of ASCII, of which the
/// first is not `.`. `None` exactly for every other text.
pub fn file_name(text: &str) -> Option<FileName>
    ensures { option_map (λ n. n.bytes) result ≡ file_name_of text.now }
{
    if is_file_name(text) {
        FileName::from(text).ok()
    } else {
        None
    }
}

/// Whether the text may be the name of a file.
pub fn is_file_name(text: &str) -> bool
    ensures { result ≡ is_file_name text.now }
{
    let bytes = text.as_bytes();
    if bytes.is_empty() || bytes.len() > 64 {
        return false;
    }
    bytes[0] != b'.' && is_each_file_character(bytes)
}

fn is_each_file_character(bytes: &[u8]) -> bool
    ensures { result ≡ list_all is_file_character bytes.now }
{
    for byte in bytes {
        if !is_file_character(*byte) {
            return false;
        }
    }
    true
}

fn is_file_character(byte: u8) -> bool
    ensures { result ≡ is_file_character byte }
{
    matches!(byte, b'A'..=b'Z' | b'a'..=b'z' | b'0'..=b'9' | b'.' | b'_' | b'-')
}
