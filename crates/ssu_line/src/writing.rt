//! Pieces of a line.
ghost use Rattle.std.specs.Prelude.{◌≡◌, ◌+◌, ◌<◌, ◌≤◌, ◌++◌, [], ◌∷◌, length, decimal, replicate};
ghost use Rattle.arrayvec.specs.ArrayString.{array_string_len};
ghost use Rattle.ssu_line.specs.Digits.{hex_digit as hex_digit_of, hex_byte as hex_byte_of, hex_word as hex_word_of};
ghost use Rattle.ssu_line.specs.Digits.{right};

use arrayvec::ArrayString;
use itoa::Buffer;

/// A printed line, which ends with a line feed.
pub type Line = ArrayString<96>;

/// A number of up to 32 bits in decimal digits, ten of them at most.
pub(crate) fn put_number(line: &mut Line, number: u32)
    requires { array_string_len line.old + 10 ≤ 96 }
    ensures bytes { line.new.bytes ≡ line.old.bytes ++ decimal number }
    ensures len { array_string_len line.new ≤ array_string_len line.old + 10 }
{
    let mut buffer = Buffer::new();
    line.push_str(buffer.format(number));
}

/// A number of up to 64 bits in decimal digits, twenty of them at most.
pub(crate) fn put_count(line: &mut Line, number: u64)
    requires { array_string_len line.old + 20 ≤ 96 }
    ensures bytes { line.new.bytes ≡ line.old.bytes ++ decimal number }
    ensures len { array_string_len line.new ≤ array_string_len line.old + 20 }
{
    let mut buffer = Buffer::new();
    line.push_str(buffer.format(number));
}

/// The number in decimal digits, with spaces before it up to the width.
pub(crate) fn put_right(line: &mut Line, width: usize, number: u32)
    requires room { array_string_len line.old + width + 10 ≤ 96 }
    ensures bytes { line.new.bytes ≡ line.old.bytes ++ right width (decimal number) }
    ensures len { array_string_len line.new ≤ array_string_len line.old + width + 10 }
{
    let mut buffer = Buffer::new();
    let digits = buffer.format(number);
    put_spaces(line, width.saturating_sub(digits.len()));
    line.push_str(digits);
}

fn put_spaces(line: &mut Line, count: usize)
    requires { array_string_len line.old + count ≤ 96 }
    ensures bytes { line.new.bytes ≡ line.old.bytes ++ replicate count 32 }
    ensures len { array_string_len line.new ≡ array_string_len line.old + count }
{
    for _k in 0..count {
        put_character(line, b' ');
    }
}

/// A number of 32 bits in eight hexadecimal digits.
pub(crate) fn put_hex_word(line: &mut Line, word: u32)
    requires { array_string_len line.old + 8 ≤ 96 }
    ensures bytes { line.new.bytes ≡ line.old.bytes ++ hex_word_of word }
    ensures len { array_string_len line.new ≡ array_string_len line.old + 8 }
{
    put_hex_byte(line, (word / 16_777_216) as u8);
    put_hex_byte(line, (word / 65_536 % 256) as u8);
    put_hex_byte(line, (word / 256 % 256) as u8);
    put_hex_byte(line, (word % 256) as u8);
}

/// A byte in two hexadecimal digits.
pub(crate) fn put_hex_byte(line: &mut Line, byte: u8)
    requires { array_string_len line.old + 2 ≤ 96 }
    ensures bytes { line.new.bytes ≡ line.old.bytes ++ hex_byte_of byte }
    ensures len { array_string_len line.new ≡ array_string_len line.old + 2 }
{
    put_hex_digit(line, byte / 16);
    put_hex_digit(line, byte % 16);
}

fn put_hex_digit(line: &mut Line, digit: u8)
    requires room { array_string_len line.old + 1 ≤ 96 }
    requires digit { digit < 16 }
    ensures bytes { line.new.bytes ≡ line.old.bytes ++ hex_digit_of digit ∷ [] }
    ensures len { array_string_len line.new ≡ array_string_len line.old + 1 }
{
    put_character(line, hex_digit(digit));
}

fn hex_digit(digit: u8) -> u8
    requires { digit < 16 }
    ensures value { result ≡ hex_digit_of digit }
    ensures ascii { result < 128 }
{
    if digit < 10 {
        b'0' + digit
    } else {
        b'a' + (digit - 10)
    }
}

/// A character of ASCII.
pub(crate) fn put_character(line: &mut Line, character: u8)
    requires room { array_string_len line.old + 1 ≤ 96 }
    requires ascii { character < 128 }
    ensures bytes { line.new.bytes ≡ line.old.bytes ++ character ∷ [] }
    ensures len { array_string_len line.new ≡ array_string_len line.old + 1 }
{
    line.push(char::from(character));
}
