//! A group of two modules over a flash in memory, staged through the trait.

ghost use Rattle.std.specs.Prelude.{◌≡◌, OnOk};
ghost use Rattle.flash_bank.specs.Bank.{IsLent};
ghost use Rattle.flash_stage.specs.Leaving.{SameBank};
ghost use Rattle.flash_stage.specs.Outline.{outline_of};
ghost use Rattle.ssu_group.specs.Map.{missing_below};

use crate::check::same;
use crate::{flash_bank_journal_tests, messages};
use arrayvec::ArrayVec;
use dsmcc_msg::{Ddb, Dii};
use flash_bank::{Bank, FlashFault, Record, boot, format};
use flash_dev::{Flash, MemFlash, Tear};
use flash_journal::JournalStage;
use flash_stage::{BankStage, RamStage, Stage};
use ssu_compat::SwId;
use ssu_group::GroupPlan;
use ssu_io::MemSink;
use std::alloc::Global;
use std::test::Fail;

const OLD: SwId = SwId {
    model: 1,
    version: 1,
};

const NEW: SwId = SwId {
    model: 1,
    version: 2,
};

/// A block of a module.
#[derive(Clone, Copy)]
struct Block {
    module: u16,
    number: u16,
    bytes: &'static [u8],
}

fn block_of(module: u16, number: u16, bytes: &'static [u8]) -> Block {
    Block {
        module,
        number,
        bytes,
    }
}

/// The message of a DII in blocks of four bytes: module 1 of five bytes, module 2 of three.
fn message(alloc: Global) -> Result<Vec<u8>, Fail> {
    let section = messages::dii(alloc, 2, 4, &[(1, 5, 0, &[]), (2, 3, 0, &[])])?;
    let dii = Dii::read(&section).ok_or("no DII")?;
    let mut message = Vec::new(alloc);
    message.extend_from_slice(dii.message())?;
    Ok(message)
}

/// Stages the block, if it fills a place.
fn offer<S: Stage, F: Flash>(
    stage: &mut S,
    bank: &mut Bank,
    flash: &mut F,
    plan: &GroupPlan,
    block: Block,
) -> Result<(), FlashFault>
    requires lent { IsLent F.tells F.contents F.block_count F.block_len bank.old flash.old }
    requires ready { S.ready stage.old bank.old }
    requires agrees { F.tells → S.agrees stage.old bank.old (F.contents flash.old) }
    requires plan { S.plan_of stage.old ≡ outline_of plan.now }
    ensures lent { OnOk result (IsLent F.tells F.contents F.block_count F.block_len bank.new flash.new) }
    ensures ready { OnOk result (S.ready stage.new bank.new) }
    ensures agrees { F.tells → OnOk result (S.agrees stage.new bank.new (F.contents flash.new)) }
    ensures plan { S.plan_of stage.new ≡ outline_of plan.now }
    ensures same_bank { SameBank bank.old bank.new }
{
    let ddb = Ddb {
        download: 2,
        module: block.module,
        version: 0,
        block: block.number,
        bytes: block.bytes,
    };
    match plan.place(&ddb) {
        Some(place) => stage.offer(bank, flash, place, block.bytes),
        None => Ok(()),
    }
}

/// Stages blocks in this order.
fn offer_all<S: Stage, F: Flash>(
    stage: &mut S,
    bank: &mut Bank,
    flash: &mut F,
    plan: &GroupPlan,
    blocks: &[Block],
) -> Result<(), FlashFault>
    requires lent { IsLent F.tells F.contents F.block_count F.block_len bank.old flash.old }
    requires ready { S.ready stage.old bank.old }
    requires agrees { F.tells → S.agrees stage.old bank.old (F.contents flash.old) }
    requires plan { S.plan_of stage.old ≡ outline_of plan.now }
    ensures lent { OnOk result (IsLent F.tells F.contents F.block_count F.block_len bank.new flash.new) }
    ensures ready { OnOk result (S.ready stage.new bank.new) }
    ensures agrees { F.tells → OnOk result (S.agrees stage.new bank.new (F.contents flash.new)) }
    ensures plan { S.plan_of stage.new ≡ outline_of plan.now }
    ensures same_bank { SameBank bank.old bank.new }
{
    for block in blocks {
        offer(stage, bank, flash, plan, *block)?;
    }
    Ok(())
}

/// The CRC of each module of a group that is whole.
fn module_crcs<S: Stage, F: Flash>(
    stage: &mut S,
    bank: &mut Bank,
    flash: &mut F,
    plan: &GroupPlan,
    crcs: &mut ArrayVec<u32, 512>,
) -> Result<(), FlashFault>
    requires lent { IsLent F.tells F.contents F.block_count F.block_len bank.old flash.old }
    requires ready { S.ready stage.old bank.old }
    requires agrees { F.tells → S.agrees stage.old bank.old (F.contents flash.old) }
    requires plan { S.plan_of stage.old ≡ outline_of plan.now }
    requires whole { missing_below (S.has stage.old) plan.now.places ≡ 0 }
    ensures lent { OnOk result (IsLent F.tells F.contents F.block_count F.block_len bank.new flash.new) }
    ensures ready { OnOk result (S.ready stage.new bank.new) }
    ensures agrees { F.tells → OnOk result (S.agrees stage.new bank.new (F.contents flash.new)) }
    ensures plan { S.plan_of stage.new ≡ outline_of plan.now }
    ensures whole { missing_below (S.has stage.new) plan.now.places ≡ 0 }
    ensures same_bank { SameBank bank.old bank.new }
{
    for module in plan.modules.as_slice() {
        let crc = stage.module_crc(bank, flash, module)?;
        let _ = crcs.try_push(crc);
    }
    Ok(())
}

/// What comes behind the blocks of a group.
#[derive(Clone, Copy)]
enum End {
    /// It is installed if it is whole.
    Install,
    /// It is forgotten.
    Forget,
}

/// Stages these blocks of the group of this message, up to this end. The answer is how many places are missing then; whatever fails is a fault.
fn stage_group<S: Stage, F: Flash>(
    alloc: Global,
    flash: &mut F,
    message: &[u8],
    blocks: &[Block],
    end: End,
    crcs: &mut ArrayVec<u32, 512>,
) -> Result<u32, FlashFault> {
    let mut bank = Bank::open(flash).map_err(|_| FlashFault)?;
    let Some(dii) = Dii::read_message(message) else {
        return Err(FlashFault);
    };
    let Ok(plan) = GroupPlan::of(&dii, bank.bank_len()) else {
        return Err(FlashFault);
    };
    let mut stage = S::make(alloc, &bank).map_err(|_| FlashFault)?;
    stage.start(&mut bank, flash, message, &plan)?;
    offer_all(&mut stage, &mut bank, flash, &plan, blocks)?;
    if let End::Forget = end {
        stage.forget(&mut bank, flash)?;
        return Ok(stage.missing());
    }
    let missing = stage.missing();
    if missing != 0 {
        return Ok(missing);
    }
    module_crcs(&mut stage, &mut bank, flash, &plan, crcs)?;
    stage.finish(&mut bank, flash, NEW, 7)?;
    Ok(0)
}

/// Whether a flash of layout 2 has the group of this message staged, whose DII is usable.
fn is_staged<F: Flash>(alloc: Global, flash: &mut F, message: &[u8]) -> Result<bool, FlashFault> {
    let mut bank = flash_bank_journal_tests::opened(flash)?;
    let stage = JournalStage::make(alloc, &bank).map_err(|_| FlashFault)?;
    let Some(dii) = Dii::read_message(message) else {
        return Err(FlashFault);
    };
    match GroupPlan::of(&dii, bank.bank_len()) {
        Ok(_) => stage.staged(&mut bank, flash, message),
        Err(_) => Err(FlashFault),
    }
}

/// Six blocks of 256 bytes, formatted with the text `old`.
fn formatted(alloc: Global) -> Result<MemFlash, Fail> {
    let mut flash = MemFlash::blank(alloc, 6, 256, 64)?;
    format(&mut flash, b"old", OLD)?;
    Ok(flash)
}

/// What boot takes of this flash, once it has power again.
fn booted(alloc: Global, flash: &MemFlash) -> Result<(Record, Vec<u8>), Fail> {
    let held = flash.contents();
    if held.len() != 1536 {
        return Err("six blocks of 256 bytes".into());
    }
    let mut flash = MemFlash::holding(alloc, held, 256, 64)?;
    let mut sink = MemSink::new(alloc, Vec::new(alloc));
    let head = boot(&mut flash, &mut sink)?;
    Ok((head, sink.into_bytes()))
}

/// The blocks out of order, one of them twice, and two that fill no place.
fn blocks() -> [Block; 6] {
    [
        block_of(2, 0, b"678"),
        block_of(1, 1, b"5"),
        block_of(1, 1, b"x"),
        block_of(1, 2, b"x"),
        block_of(1, 0, b"123"),
        block_of(1, 0, b"1234"),
    ]
}

#[test]
fn places_come_in_any_order_and_become_the_image(rt: HostRuntime) -> Result<(), Fail> {
    let message = message(rt.alloc())?;
    let mut flash = formatted(rt.alloc())?;
    let mut crcs = ArrayVec::new();
    let missing = stage_group::<RamStage, MemFlash>(
        rt.alloc(),
        &mut flash,
        &message,
        &blocks(),
        End::Install,
        &mut crcs,
    )?;
    same(&rt, &missing, &0);
    let stated = [ts_crc::crc(b"12345"), ts_crc::crc(b"678")];
    same(&rt, &crcs.as_slice(), &stated.as_slice());
    let (head, image) = booted(rt.alloc(), &flash)?;
    let stated = Record {
        layout: 1,
        number: 2,
        bank: 1,
        length: 8,
        software: NEW,
        group: 7,
    };
    same(&rt, &head, &stated);
    same(&rt, &image.as_slice(), &b"12345678".as_slice());
    Ok(())
}

#[test]
fn places_become_the_image_in_the_bank_too(rt: HostRuntime) -> Result<(), Fail> {
    let message = message(rt.alloc())?;
    let mut flash = formatted(rt.alloc())?;
    let mut crcs = ArrayVec::new();
    let missing = stage_group::<BankStage, MemFlash>(
        rt.alloc(),
        &mut flash,
        &message,
        &blocks()[..5],
        End::Install,
        &mut crcs,
    )?;
    same(&rt, &missing, &1);
    // The spare bank has the places that were staged, and boot takes what it took.
    let held = flash.contents().get(1024..1032).expect(&rt, "a bank");
    same(
        &rt,
        &held,
        &[255, 255, 255, 255, b'5', b'6', b'7', b'8'].as_slice(),
    );
    let (head, image) = booted(rt.alloc(), &flash)?;
    same(&rt, &head.number, &1);
    same(&rt, &image.as_slice(), &b"old".as_slice());

    let missing = stage_group::<BankStage, MemFlash>(
        rt.alloc(),
        &mut flash,
        &message,
        &blocks(),
        End::Install,
        &mut crcs,
    )?;
    same(&rt, &missing, &0);
    let stated = [ts_crc::crc(b"12345"), ts_crc::crc(b"678")];
    same(&rt, &crcs.as_slice(), &stated.as_slice());
    let (head, image) = booted(rt.alloc(), &flash)?;
    same(&rt, &(head.number, head.bank, head.length), &(2, 1, 8));
    same(&rt, &image.as_slice(), &b"12345678".as_slice());
    Ok(())
}

#[test]
fn without_the_last_block_boot_takes_what_it_took(rt: HostRuntime) -> Result<(), Fail> {
    let message = message(rt.alloc())?;
    let mut flash = formatted(rt.alloc())?;
    let mut crcs = ArrayVec::new();
    let missing = stage_group::<RamStage, MemFlash>(
        rt.alloc(),
        &mut flash,
        &message,
        &blocks()[..5],
        End::Install,
        &mut crcs,
    )?;
    same(&rt, &missing, &1);
    let (head, image) = booted(rt.alloc(), &flash)?;
    same(&rt, &head.number, &1);
    same(&rt, &image.as_slice(), &b"old".as_slice());
    Ok(())
}

#[test]
fn a_stop_before_the_record_is_whole_keeps_the_old_image(rt: HostRuntime) -> Result<(), Fail> {
    let message = message(rt.alloc())?;
    // after the six calls of `format`: the spare record block, two bank blocks, the image and the record
    for call in 7..=11u32 {
        let mut flash = formatted(rt.alloc())?;
        flash.stop_at(call, Tear::Front(3));
        let mut crcs = ArrayVec::new();
        let answer = stage_group::<RamStage, MemFlash>(
            rt.alloc(),
            &mut flash,
            &message,
            &blocks(),
            End::Install,
            &mut crcs,
        );
        same(&rt, &(call, answer), &(call, Err(FlashFault)));
        let (head, image) = booted(rt.alloc(), &flash)?;
        same(&rt, &(call, head.number), &(call, 1));
        same(&rt, &(call, image.as_slice()), &(call, b"old".as_slice()));
    }
    Ok(())
}

#[test]
fn places_of_a_journal_outlive_their_stage(rt: HostRuntime) -> Result<(), Fail> {
    let message = message(rt.alloc())?;
    let mut flash = flash_bank_journal_tests::formatted(rt.alloc())?;
    let mut crcs = ArrayVec::new();
    let missing = stage_group::<JournalStage, MemFlash>(
        rt.alloc(),
        &mut flash,
        &message,
        &blocks()[..5],
        End::Install,
        &mut crcs,
    )?;
    same(&rt, &missing, &1);
    assert!(rt; is_staged(rt.alloc(), &mut flash, &message)?);
    // A stage that is made anew goes on with them.
    let missing = stage_group::<JournalStage, MemFlash>(
        rt.alloc(),
        &mut flash,
        &message,
        &blocks()[5..],
        End::Install,
        &mut crcs,
    )?;
    same(&rt, &missing, &0);
    let stated = [ts_crc::crc(b"12345"), ts_crc::crc(b"678")];
    same(&rt, &crcs.as_slice(), &stated.as_slice());
    let (head, image) = flash_bank_journal_tests::booted(rt.alloc(), &mut flash)?;
    same(&rt, &(head.number, head.bank, head.length), &(2, 1, 8));
    same(&rt, &image.as_slice(), &b"12345678".as_slice());
    Ok(())
}

#[test]
fn a_group_that_is_forgotten_misses_each_place(rt: HostRuntime) -> Result<(), Fail> {
    let message = message(rt.alloc())?;
    let mut crcs = ArrayVec::new();
    let mut flash = formatted(rt.alloc())?;
    let missing = stage_group::<RamStage, MemFlash>(
        rt.alloc(),
        &mut flash,
        &message,
        &blocks()[..5],
        End::Forget,
        &mut crcs,
    )?;
    same(&rt, &missing, &3);
    let missing = stage_group::<BankStage, MemFlash>(
        rt.alloc(),
        &mut flash,
        &message,
        &blocks()[..5],
        End::Forget,
        &mut crcs,
    )?;
    same(&rt, &missing, &3);
    let mut flash = flash_bank_journal_tests::formatted(rt.alloc())?;
    let missing = stage_group::<JournalStage, MemFlash>(
        rt.alloc(),
        &mut flash,
        &message,
        &blocks()[..5],
        End::Forget,
        &mut crcs,
    )?;
    same(&rt, &missing, &3);
    assert!(rt; !is_staged(rt.alloc(), &mut flash, &message)?);
    Ok(())
}
