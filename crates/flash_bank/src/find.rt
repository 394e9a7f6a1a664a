//! Which record is current.
ghost use Rattle.std.specs.Prelude.{◌≡◌, ◌⊎◌, ◌↔◌, ◌+◌, ◌*◌, ◌<◌, ◌≤◌, length, IfOk, IfSome, IsTrue, MatchOption};
ghost use Rattle.flash_bank.specs.Find.{ChecksJournals, Describes, DescribesArea, Finds, FindsWith, GoTogether, HeaderFits, IsShort, IsTwo};
ghost use Rattle.flash_bank.specs.Find.{NameApart, NumberFits, current_of_two, newer_of};
ghost use Rattle.flash_layout.specs.Layout.{HasJournals, IsInLimits, record_bytes};
ghost use Rattle.flash_layout.specs.Shape.{geometry};
ghost use Rattle.flash_bank.specs.Layout.{IsPlaced};
ghost use Rattle.flash_bank.specs.Runs.{OnlyReads};
ghost use Rattle.flash_bank.specs.Sound.{IsSound};
ghost use Rattle.ssu_io.specs.Faults.{HasCause};

use crate::encoding::{RECORD_LEN, valid_record};
use crate::record::Record;
use crate::scan::{header_in, is_settled};
use flash_dev::Flash;
use flash_layout::{Shape, none_below};
use ssu_io::Failed;

/// The current record, and the block that holds it.
#[derive(Clone, Copy, Debug, PartialEq, Eq)]
pub(crate) struct Current {
    pub(crate) block: u32,
    pub(crate) head: Record,
}

/// The bytes of a record block, as they were read.
#[derive(Clone, Copy)]
struct Block {
    /// None of its pairs is below 255.
    settled: bool,
    /// Its record, where it is valid.
    head: Option<Record>,
}

/// What was found of a journal.
#[derive(Clone, Copy)]
struct Journal {
    /// None of its pairs is below 255.
    settled: bool,
    /// The number of its header, where that is valid.
    number: Option<u32>,
}

/// The current record, where the contents are sound.
pub(crate) fn find_current<F: Flash>(flash: &mut F, shape: Shape) -> Result<Option<Current>, Failed>
    requires limits { IsInLimits (geometry shape) }
    requires blocks { shape.blocks ≡ F.block_count flash.old }
    requires block_size { shape.block_size ≡ F.block_len flash.old }
    requires whole { F.tells → length (F.contents flash.old) ≡ shape.blocks * shape.block_size }
    ensures found { F.tells → IfOk result (λ found. MatchOption found
        (IsSound (geometry shape) (F.contents flash.old) → ⊥)
        (λ current. Finds (geometry shape) (F.contents flash.old) current)) }
    ensures placed { IfOk result (λ found. IfSome found (λ current. (current.block < 2) × IsPlaced (geometry shape) current.head)) }
    ensures reads { OnlyReads F.tells F.contents F.block_count F.block_len F.moment F.left_since flash.old flash.new }
    ensures cause { HasCause (F.faults flash.old) (F.faults flash.new) result }
{
    let first = read_block(flash, shape, 0)?;
    let second = read_block(flash, shape, 1)?;
    let two = some_two(first.head, second.head);
    if two {
        find_with_journals(flash, shape, first, second)
    } else {
        Ok(choose(first, second))
    }
}

/// One of both records is there, and of layout 2.
fn some_two(first: Option<Record>, second: Option<Record>) -> bool
    ensures { IsTrue result ↔ (IsTwo first ⊎ IsTwo second) }
{
    is_two(first) || is_two(second)
}

/// The record is there, and of layout 2.
fn is_two(head: Option<Record>) -> bool
    ensures { IsTrue result ↔ IsTwo head }
{
    match head {
        None => false,
        Some(head) => head.layout == 2,
    }
}

/// The current record, where the two blocks are sound and go together with both journals.
fn find_with_journals<F: Flash>(
    flash: &mut F,
    shape: Shape,
    first: Block,
    second: Block,
) -> Result<Option<Current>, Failed>
    requires limits { IsInLimits (geometry shape) }
    requires room { HasJournals (geometry shape) }
    requires blocks { shape.blocks ≡ F.block_count flash.old }
    requires block_size { shape.block_size ≡ F.block_len flash.old }
    requires whole { F.tells → length (F.contents flash.old) ≡ shape.blocks * shape.block_size }
    requires first_placed { IfSome first.head (λ head. IsPlaced (geometry shape) head) }
    requires second_placed { IfSome second.head (λ head. IsPlaced (geometry shape) head) }
    ensures found { F.tells → IfOk result (λ found. FindsWith (geometry shape) (F.contents flash.old) first second found) }
    ensures placed { IfOk result (λ found. IfSome found (λ current. (current.block < 2) × IsPlaced (geometry shape) current.head)) }
    ensures reads { OnlyReads F.tells F.contents F.block_count F.block_len F.moment F.left_since flash.old flash.new }
    ensures cause { HasCause (F.faults flash.old) (F.faults flash.new) result }
{
    let front = read_journal(flash, shape, 0)?;
    let back = read_journal(flash, shape, 1)?;
    Ok(checked(shape, first, second, front, back))
}

fn checked(
    shape: Shape,
    first: Block,
    second: Block,
    front: Journal,
    back: Journal,
) -> Option<Current>
    requires limits { IsInLimits (geometry shape) }
    requires room { HasJournals (geometry shape) }
    ensures { ChecksJournals (geometry shape) first second front back result }
{
    if go_together(shape, first.head, second.head, front, back) {
        choose(first, second)
    } else {
        None
    }
}

fn go_together(
    shape: Shape,
    first: Option<Record>,
    second: Option<Record>,
    front: Journal,
    back: Journal,
) -> bool
    requires limits { IsInLimits (geometry shape) }
    requires room { HasJournals (geometry shape) }
    ensures { IsTrue result ↔ GoTogether (geometry shape) first second front back }
{
    front.settled
        && back.settled
        && header_fits(0, front.number, first)
        && header_fits(1, back.number, first)
        && header_fits(0, front.number, second)
        && header_fits(1, back.number, second)
        && name_apart(first, second)
        && is_short(shape, first)
        && is_short(shape, second)
}

/// The number of a header of this area's journal is at most that of the record plus 1, and at most that of one that names the area.
fn header_fits(area: u8, number: Option<u32>, head: Option<Record>) -> bool
    ensures { IsTrue result ↔ HeaderFits area number head }
{
    match (number, head) {
        (Some(number), Some(head)) => number_fits(area, number, head),
        _ => true,
    }
}

fn number_fits(area: u8, number: u32, head: Record) -> bool
    ensures { IsTrue result ↔ NumberFits area number head }
{
    u64::from(number) <= u64::from(head.number) + 1 && (head.bank != area || number <= head.number)
}

/// Two records of layout 2 name different areas.
fn name_apart(a: Option<Record>, b: Option<Record>) -> bool
    ensures { IsTrue result ↔ NameApart a b }
{
    match (a, b) {
        (Some(a), Some(b)) => a.layout != 2 || b.layout != 2 || a.bank != b.bank,
        _ => true,
    }
}

/// An image of layout 1 ends before the journal of its area.
fn is_short(shape: Shape, head: Option<Record>) -> bool
    requires limits { IsInLimits (geometry shape) }
    requires room { HasJournals (geometry shape) }
    ensures { IsTrue result ↔ IsShort (geometry shape) head }
{
    match head {
        None => true,
        Some(head) => head.layout != 1 || head.length <= shape.short_len(),
    }
}

/// What is found of the journal of an area.
fn read_journal<F: Flash>(flash: &mut F, shape: Shape, area: u8) -> Result<Journal, Failed>
    requires limits { IsInLimits (geometry shape) }
    requires room { HasJournals (geometry shape) }
    requires area { area < 2 }
    requires blocks { shape.blocks ≡ F.block_count flash.old }
    requires block_size { shape.block_size ≡ F.block_len flash.old }
    requires whole { F.tells → length (F.contents flash.old) ≡ shape.blocks * shape.block_size }
    ensures found { F.tells → IfOk result (λ found. DescribesArea (geometry shape) found (F.contents flash.old) area) }
    ensures reads { OnlyReads F.tells F.contents F.block_count F.block_len F.moment F.left_since flash.old flash.new }
    ensures cause { HasCause (F.faults flash.old) (F.faults flash.new) result }
{
    let settled = is_settled(flash, shape, area)?;
    let number = header_in(flash, shape.journal_place(area))?;
    Ok(Journal { settled, number })
}

/// The valid record with the greater number, where the two blocks are sound.
fn choose(first: Block, second: Block) -> Option<Current>
    ensures { result ≡ current_of_two first second }
{
    if !first.settled || !second.settled {
        return None;
    }
    match (first.head, second.head) {
        (None, None) => None,
        (Some(head), None) => Some(Current { block: 0, head }),
        (None, Some(head)) => Some(Current { block: 1, head }),
        (Some(a), Some(b)) => newer(a, b),
    }
}

fn newer(a: Record, b: Record) -> Option<Current>
    ensures { result ≡ newer_of a b }
{
    if b.number < a.number {
        Some(Current { block: 0, head: a })
    } else if a.number < b.number {
        Some(Current { block: 1, head: b })
    } else {
        None
    }
}

fn read_block<F: Flash>(flash: &mut F, shape: Shape, block: u32) -> Result<Block, Failed>
    requires limits { IsInLimits (geometry shape) }
    requires block { block < 2 }
    requires blocks { shape.blocks ≡ F.block_count flash.old }
    requires block_size { shape.block_size ≡ F.block_len flash.old }
    requires whole { F.tells → length (F.contents flash.old) ≡ shape.blocks * shape.block_size }
    ensures found { F.tells → IfOk result (λ found. Describes (geometry shape) found
        (record_bytes (geometry shape) (F.contents flash.old) block) block) }
    ensures placed { IfOk result (λ found. IfSome found.head (λ head. IsPlaced (geometry shape) head)) }
    ensures reads { OnlyReads F.tells F.contents F.block_count F.block_len F.moment F.left_since flash.old flash.new }
    ensures cause { HasCause (F.faults flash.old) (F.faults flash.new) result }
{
    let mut bytes = [0; RECORD_LEN];
    flash.read(shape.record_place(block), &mut bytes)?;
    Ok(described(&bytes, shape, block))
}

fn described(bytes: &[u8], shape: Shape, block: u32) -> Block
    requires len { length bytes.now ≡ 64 }
    requires limits { IsInLimits (geometry shape) }
    requires block { block < 2 }
    ensures found { Describes (geometry shape) result bytes.now block }
    ensures placed { IfSome result.head (λ head. IsPlaced (geometry shape) head) }
{
    Block {
        settled: none_below(bytes, 32),
        head: valid_record(bytes, shape, block),
    }
}
