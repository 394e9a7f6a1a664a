//! A stage whose places go straight into the spare bank.

ghost use Rattle.std.specs.Prelude.{[], ◌≡◌, ◌≤◌, ◌<◌, false, min, true, vec_capacity};

use crate::modules::{MOST_MODULES, replace};
use crate::read_back::crc_of_range;
use crate::stage::Stage;
use flash_bank::{Bank, FlashFault};
use flash_dev::Flash;
use ssu_compat::SwId;
use ssu_group::{BlockMap, GroupPlan, ModulePlan, Place};
use ssu_io::NoMemory;
use std::alloc::Global;

/// The most places that a plan has: 506 modules of 65,536 blocks.
const MOST_PLACES: u32 = 33_161_216;

/// The group in the spare bank, which `start` erases: each place stands there from its `offer` on. In memory there is a
/// bit for each place.
#[derive(Drop)]
pub struct BankStage {
    most: u32,
    block_size: u16,
    modules: Vec<ModulePlan>,
    total: u32,
    map: BlockMap,
    ghost room: { min most 33161216 ≤ map.most },
    ghost kept: { 512 ≤ vec_capacity modules },
}

impl Stage for BankStage {
    ghost use Rattle.flash_stage.specs.InBank.{IsBegun, LeavesBlank, bytes_in_bank, has_in_bank, keeps_nothing, most_in_bank, outline_in_bank, stands_in_bank};

    ghost most = { most_in_bank };

    ghost plan_of = { outline_in_bank };

    ghost has = { has_in_bank };

    ghost message_of = { λ stage. [] };

    ghost bytes_at = { bytes_in_bank };

    ghost ready = { IsBegun };

    ghost agrees = { LeavesBlank };

    ghost IN_BANK = { true };

    const IN_BANK: bool = true;

    ghost KEEPS = { false };

    const KEEPS: bool = false;

    ghost in_bank = { stands_in_bank };

    ghost in_bank_begun = { λ is stage bank ready. ready.begun };

    fn make(alloc: Global, bank: &Bank) -> Result<Self, NoMemory> {
        let most = bank.bank_len();
        Ok(BankStage {
            most,
            block_size: 0,
            modules: Vec::with_capacity(alloc, MOST_MODULES)?,
            total: 0,
            map: BlockMap::new(alloc, most.min(MOST_PLACES))?,
        })
    }

    fn start<F: Flash>(
        &mut self,
        bank: &mut Bank,
        flash: &mut F,
        _message: &[u8],
        plan: &GroupPlan,
    ) -> Result<(), FlashFault> {
        bank.begin(flash)?;
        self.block_size = plan.block_size;
        replace(&mut self.modules, plan.modules.as_slice());
        self.total = plan.total;
        self.map.clear(plan.places);
        Ok(())
    }

    fn offer<F: Flash>(
        &mut self,
        bank: &mut Bank,
        flash: &mut F,
        place: Place,
        bytes: &[u8],
    ) -> Result<(), FlashFault> {
        if self.map.has(place.number) {
            return Ok(());
        }
        bank.fill(flash, place.at, bytes)?;
        self.map.mark(place.number);
        Ok(())
    }

    fn missing(&self) -> u32 {
        self.map.missing()
    }

    fn module_crc<F: Flash>(
        &mut self,
        bank: &mut Bank,
        flash: &mut F,
        module: &ModulePlan,
    ) -> Result<u32, FlashFault> {
        crc_of_range(bank, flash, module.at, module.size)
    }

    fn finish<F: Flash>(
        &mut self,
        bank: &mut Bank,
        flash: &mut F,
        software: SwId,
        group: u32,
    ) -> Result<(), FlashFault> {
        bank.commit(flash, self.total, software, group)
    }

    fn forget<F: Flash>(&mut self, _bank: &mut Bank, _flash: &mut F) -> Result<(), FlashFault> {
        self.map.unmark_all();
        Ok(())
    }

    ghost keeps = { keeps_nothing };

    ghost keeps_none = { keeps_nothing };
}
