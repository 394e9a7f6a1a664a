//! The bytes of a record: 32 bytes, which stand as 64, in pairs.
ghost use Rattle.std.specs.Prelude.{◌≡◌, ◌⊎◌, ◌↔◌, ◌+◌, ◌*◌, ◌<◌, ◌≤◌, ℕ, IsTrue, IfSome, IsSome, length};
ghost use Rattle.flash_layout.specs.Layout.{IsInLimits};
ghost use Rattle.flash_layout.specs.Shape.{geometry};
ghost use Rattle.flash_bank.specs.Layout.{Allows, AllowsOne, AllowsTwo, IsPlaced};
ghost use Rattle.flash_bank.specs.Record.{IsInRange, IsValid, record_of, spelled, written};

use crate::record::Record;
use flash_layout::{Shape, are_whole, are_zero, half, put_pairs, word};
use ssu_compat::SwId;

/// The bytes of a record in pairs.
pub(crate) const RECORD_LEN: usize = 64;

/// The first four bytes of a record of layout 1, `SSU1`.
const MAGIC: u32 = 0x5353_5531;

/// The same of layout 2, `SSU2`.
const MAGIC_TWO: u32 = 0x5353_5532;

fn decoded(bytes: &[u8]) -> Record
    requires { length bytes.now ≡ 64 }
    ensures { result ≡ record_of bytes.now }
{
    let layout = if word(bytes, 0) == MAGIC_TWO { 2 } else { 1 };
    Record {
        layout,
        number: word(bytes, 4),
        bank: bytes[16],
        length: word(bytes, 12),
        software: SwId {
            model: half(bytes, 16),
            version: half(bytes, 18),
        },
        group: word(bytes, 20),
    }
}

/// The record in the bytes of a record block, where it is valid there.
pub(crate) fn valid_record(bytes: &[u8], shape: Shape, block: u32) -> Option<Record>
    requires len { length bytes.now ≡ 64 }
    requires limits { IsInLimits (geometry shape) }
    requires block { block < 2 }
    ensures valid { IsSome result ↔ IsValid (Allows (geometry shape) block) bytes.now }
    ensures value { IfSome result (λ head. head ≡ record_of bytes.now) }
    ensures placed { IfSome result (λ head. IsPlaced (geometry shape) head) }
{
    let head = decoded(bytes);
    if are_whole(bytes, 32)
        && are_zero(bytes, 9, 12)
        && are_zero(bytes, 24, 32)
        && is_allowed(word(bytes, 0), head, shape, block)
    {
        Some(head)
    } else {
        None
    }
}

/// The magic is right, and bank and length may stand with it.
fn is_allowed(magic: u32, head: Record, shape: Shape, block: u32) -> bool
    requires { IsInLimits (geometry shape) }
    ensures { IsTrue result ↔ Allows (geometry shape) block magic head.bank head.length }
{
    is_allowed_one(magic, head, shape, block) || is_allowed_two(magic, head, shape)
}

/// In layout 1 the bank is that of the block, and the image fits its area.
fn is_allowed_one(magic: u32, head: Record, shape: Shape, block: u32) -> bool
    requires { IsInLimits (geometry shape) }
    ensures { IsTrue result ↔ AllowsOne (geometry shape) block magic head.bank head.length }
{
    magic == MAGIC && u32::from(head.bank) == block && head.length <= shape.area_len()
}

/// In layout 2 the bank is one of both, and the image ends before the journal.
fn is_allowed_two(magic: u32, head: Record, shape: Shape) -> bool
    requires { IsInLimits (geometry shape) }
    ensures { IsTrue result ↔ AllowsTwo (geometry shape) magic head.bank head.length }
{
    shape.has_journals() && magic == MAGIC_TWO && head.bank < 2 && head.length <= shape.short_len()
}

/// The bytes of a record, in pairs.
pub(crate) fn encoded(head: Record) -> [u8; 64]
    requires layout { (head.layout ≡ 1) ⊎ (head.layout ≡ 2) }
    ensures bytes { result ≡ written head }
    ensures in_range { IsInRange head }
{
    let plain = plain_bytes(head);
    let mut bytes = [0; 64];
    put_pairs(&mut bytes, &plain);
    bytes
}

fn plain_bytes(head: Record) -> [u8; 32]
    requires layout { (head.layout ≡ 1) ⊎ (head.layout ≡ 2) }
    ensures bytes { result ≡ spelled head }
    ensures in_range { IsInRange head }
{
    let layout = head.layout;
    let number = head.number;
    let bank = head.bank;
    let length = head.length;
    let model = head.software.model;
    let version = head.software.version;
    let group = head.group;
    [
        0x53,
        0x53,
        0x55,
        0x30 + layout,
        (number / 16777216) as u8,
        (number / 65536 % 256) as u8,
        (number / 256 % 256) as u8,
        (number % 256) as u8,
        bank,
        0,
        0,
        0,
        (length / 16777216) as u8,
        (length / 65536 % 256) as u8,
        (length / 256 % 256) as u8,
        (length % 256) as u8,
        (model / 256) as u8,
        (model % 256) as u8,
        (version / 256) as u8,
        (version % 256) as u8,
        (group / 16777216) as u8,
        (group / 65536 % 256) as u8,
        (group / 256 % 256) as u8,
        (group % 256) as u8,
        0,
        0,
        0,
        0,
        0,
        0,
        0,
        0,
    ]
}
