//! What is programmed into a journal: the fixed part of its header, the pair of a mark, the head of a slot.
ghost use Rattle.std.specs.Prelude.{◌≡◌, ◌<◌};
ghost use Rattle.flash_layout.specs.Journal.{header_spelled, header_written, mark_written};
ghost use Rattle.flash_layout.specs.Slots.{slot_spelled, slot_written};

use crate::pairs::put_pairs;

/// The pair of a place that is marked.
pub fn mark_bytes() -> [u8; 2]
    ensures { result ≡ mark_written }
{
    [0, 255]
}

/// The 32 bytes of the fixed part of a header with this number, over a message of `len` bytes.
pub fn header_bytes(number: u32, len: u32) -> [u8; 32]
    requires { len < 65536 }
    ensures { result ≡ header_written number len }
{
    let plain = plain_header(number, len);
    let mut bytes = [0; 32];
    put_pairs(&mut bytes, &plain);
    bytes
}

fn plain_header(number: u32, len: u32) -> [u8; 16]
    requires { len < 65536 }
    ensures { result ≡ header_spelled number len }
{
    [
        0x53,
        0x53,
        0x55,
        0x4A,
        (number / 16777216) as u8,
        (number / 65536 % 256) as u8,
        (number / 256 % 256) as u8,
        (number % 256) as u8,
        (len / 256) as u8,
        (len % 256) as u8,
        0,
        0,
        0,
        0,
        0,
        0,
    ]
}

/// The 16 bytes of the head of a slot for `len` bytes from `at` of the bank on.
pub fn slot_bytes(at: u32, len: u32) -> [u8; 16]
    requires { len < 65536 }
    ensures { result ≡ slot_written at len }
{
    let plain = plain_slot(at, len);
    let mut bytes = [0; 16];
    put_pairs(&mut bytes, &plain);
    bytes
}

fn plain_slot(at: u32, len: u32) -> [u8; 8]
    requires { len < 65536 }
    ensures { result ≡ slot_spelled at len }
{
    [
        0x53,
        0x50,
        (at / 16777216) as u8,
        (at / 65536 % 256) as u8,
        (at / 256 % 256) as u8,
        (at % 256) as u8,
        (len / 256) as u8,
        (len % 256) as u8,
    ]
}
