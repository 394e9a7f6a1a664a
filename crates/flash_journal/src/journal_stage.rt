//! A stage whose places go straight into the spare bank, and in layout 2 are kept by the journal behind it.

ghost use Rattle.std.specs.Prelude.{◌≡◌, ◌≤◌, ◌<◌, length, min, true, vec_capacity};

use crate::begin::begin_kept;
use crate::lists::{MOST_MESSAGE, MOST_MODULES, replace_message, replace_modules};
use crate::reading::keeps_places;
use crate::staged::is_staged;
use crate::store::store;
use crate::stored::mark_stored;
use crate::texts::push_module;
use dsmcc_msg::Dii;
use flash_bank::{Bank, FlashFault};
use flash_dev::Flash;
use flash_stage::Stage;
use ssu_compat::SwId;
use ssu_group::{BlockMap, GroupPlan, ModulePlan, Place};
use ssu_io::NoMemory;
use std::alloc::Global;
use ts_crc::Register;

/// The most places that a plan has: 506 modules of 65,536 blocks.
const MOST_PLACES: u32 = 33_161_216;

/// The group in the spare bank, with a bit for each place in memory. In layout 2 a group that has no more places than the journal has
/// marks is kept: its message stands in the header of the journal, each place that is stored is marked, and one whose range was
/// spoilt by a power loss goes to a slot. So where the same message is begun again after a power loss the places are
/// there still, as long as the free slots are as many as the lost places. Any other group begins anew each time.
#[derive(Drop)]
pub struct JournalStage {
    most: u32,
    block_size: u16,
    modules: Vec<ModulePlan>,
    total: u32,
    map: BlockMap,
    message: Vec<u8>,
    keeps: bool,
    ghost room: { min most 33161216 ≤ map.most },
    ghost modules_room: { 512 ≤ vec_capacity modules },
    ghost message_room: { 4084 ≤ vec_capacity message },
}

impl JournalStage {
    ghost use Rattle.std.specs.Prelude.{◌↔◌, IfOk, IsTrue, OnErr, OnOk};
    ghost use Rattle.bank_kept.specs.Contents.{StagesGroup};
    ghost use Rattle.dsmcc_msg.specs.Control.{DiiFields};
    ghost use Rattle.flash_bank.specs.Bank.{IsLent, current_of, geometry_of, is_spent};
    ghost use Rattle.flash_journal.specs.Beginning.{SpellsUsable};
    ghost use Rattle.flash_journal.specs.Looks.{Looks};
    ghost use Rattle.ssu_io.specs.Faults.{HasCause};

    /// Whether the flash has the group of this message staged, which is that of a DII that is usable for the bank; `start` with it goes
    /// on with the places that are there. Nothing changes.
    /// `FlashFault` comes only where the flash failed and its count of faults rose; the bank is spent then.
    pub fn staged<F: Flash>(
        &self,
        bank: &mut Bank,
        flash: &mut F,
        message: &[u8],
    ) -> Result<bool, FlashFault>
        requires lent { IsLent F.tells F.contents F.block_count F.block_len bank.old flash.old }
        requires usable { SpellsUsable bank.old message.now }
        ensures lent { OnOk result (IsLent F.tells F.contents F.block_count F.block_len bank.new flash.new) }
        ensures found { F.tells → IfOk result (λ yes. IsTrue yes
            ↔ ((dii : DiiFields) × StagesGroup (geometry_of bank.old) (F.contents flash.old) message.now dii)) }
        ensures looks { Looks F.tells F.contents F.block_count F.block_len F.moment F.left_since flash.old bank.old flash.new bank.new }
        ensures spent { OnErr result (is_spent bank.new ≡ true) }
        ensures cause { HasCause (F.faults flash.old) (F.faults flash.new) result }
    {
        let Some(dii) = Dii::read_message(message) else {
            return Ok(false);
        };
        let Ok(plan) = GroupPlan::of(&dii, bank.bank_len()) else {
            return Ok(false);
        };
        if !keeps_places(bank, plan.places) {
            return Ok(false);
        }
        // Behind the record with the greatest number comes none, so a header names none.
        if bank.current().number == u32::MAX {
            return Ok(false);
        }
        is_staged(bank, flash, message, &plan)
    }
}

impl Stage for JournalStage {
    ghost use Rattle.flash_journal.specs.InJournal.{IsBegunFor, KeepsPlaces, bytes_in_journal, has_in_journal, message_in_journal};
    ghost use Rattle.flash_journal.specs.InJournal.{most_in_journal, outline_in_journal};
    ghost use Rattle.flash_journal.specs.StageLaws.{stands_in_bank_else};

    ghost most = { most_in_journal };

    ghost plan_of = { outline_in_journal };

    ghost has = { has_in_journal };

    ghost message_of = { message_in_journal };

    ghost bytes_at = { bytes_in_journal };

    ghost ready = { IsBegunFor };

    ghost agrees = { KeepsPlaces };

    ghost IN_BANK = { true };

    const IN_BANK: bool = true;

    ghost KEEPS = { true };

    const KEEPS: bool = true;

    fn make(alloc: Global, bank: &Bank) -> Result<Self, NoMemory> {
        let most = bank.bank_len();
        Ok(JournalStage {
            most,
            block_size: 0,
            modules: Vec::with_capacity(alloc, MOST_MODULES)?,
            total: 0,
            map: BlockMap::new(alloc, most.min(MOST_PLACES))?,
            message: Vec::with_capacity(alloc, MOST_MESSAGE)?,
            keeps: false,
        })
    }

    fn start<F: Flash>(
        &mut self,
        bank: &mut Bank,
        flash: &mut F,
        message: &[u8],
        plan: &GroupPlan,
    ) -> Result<(), FlashFault> {
        self.block_size = plan.block_size;
        replace_modules(&mut self.modules, plan.modules.as_slice());
        self.total = plan.total;
        self.map.clear(plan.places);
        replace_message(&mut self.message, message);
        self.keeps = keeps_places(bank, plan.places);
        if !self.keeps {
            return bank.begin(flash);
        }
        let staged = is_staged(bank, flash, message, plan)?;
        if !staged {
            return begin_kept(bank, flash, message);
        }
        mark_stored(bank, flash, plan, &mut self.map)?;
        bank.resume(flash)
    }

    fn offer<F: Flash>(
        &mut self,
        bank: &mut Bank,
        flash: &mut F,
        place: Place,
        bytes: &[u8],
    ) -> Result<(), FlashFault> {
        if self.map.has(place.number) {
            return Ok(());
        }
        if self.keeps {
            store(bank, flash, place, bytes)?;
            self.map.mark(place.number);
            return Ok(());
        }
        bank.fill(flash, place.at, bytes)?;
        self.map.mark(place.number);
        Ok(())
    }

    fn missing(&self) -> u32 {
        self.map.missing()
    }

    fn module_crc<F: Flash>(
        &mut self,
        bank: &mut Bank,
        flash: &mut F,
        module: &ModulePlan,
    ) -> Result<u32, FlashFault> {
        let mut register = Register::new();
        push_module(
            bank,
            flash,
            self.block_size,
            module,
            self.keeps,
            &mut register,
        )?;
        Ok(register.value())
    }

    fn finish<F: Flash>(
        &mut self,
        bank: &mut Bank,
        flash: &mut F,
        software: SwId,
        group: u32,
    ) -> Result<(), FlashFault> {
        bank.commit(flash, self.total, software, group)
    }

    fn forget<F: Flash>(&mut self, bank: &mut Bank, flash: &mut F) -> Result<(), FlashFault> {
        self.map.unmark_all();
        if bank.current().layout != 2 {
            return Ok(());
        }
        bank.forget(flash)
    }

    ghost in_bank = { stands_in_bank_else };

    ghost in_bank_begun = { λ is stage bank ready. ready.begun.begun };

    ghost keeps = { λ is stage bank held ready agrees fits kept. agrees.kept kept };

    ghost keeps_none = { λ is stage bank held ready agrees fits never. agrees.none never };
}
