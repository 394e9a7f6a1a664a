//! A stage that keeps the group in memory until it is whole.

ghost use Rattle.std.specs.Prelude.{[], ◌≡◌, ◌≤◌, ◌<◌, false, length, vec_capacity};
ghost use Rattle.group_image.specs.Image.{HasRoom};
ghost use Rattle.ssu_group.specs.declared.group_plan.GroupPlan.{GroupPlan};

use crate::install::install;
use crate::modules::{MOST_MODULES, replace};
use crate::stage::Stage;
use flash_bank::{Bank, FlashFault};
use flash_dev::Flash;
use group_image::GroupImage;
use ssu_compat::SwId;
use ssu_group::{GroupPlan, ModulePlan, Place};
use ssu_io::NoMemory;
use std::alloc::Global;

/// The group in memory. The flash is touched in `finish` alone, which erases the spare record block and the spare area,
/// fills the bank with the whole image and commits the record.
#[derive(Drop)]
pub struct RamStage {
    most: u32,
    block_size: u16,
    modules: Vec<ModulePlan>,
    image: GroupImage,
    ghost room: { (plan : GroupPlan) → plan.total ≤ most → HasRoom plan image },
    ghost kept: { 512 ≤ vec_capacity modules },
}

impl Stage for RamStage {
    ghost use Rattle.flash_stage.specs.Ram.{IsStarted, bytes_in, has_in, most_of, not_in_bank, outline_in};

    ghost most = { most_of };

    ghost plan_of = { outline_in };

    ghost has = { has_in };

    ghost message_of = { λ stage. [] };

    ghost bytes_at = { bytes_in };

    ghost ready = { IsStarted };

    ghost agrees = { λ _ _ _. Unit {0} };

    ghost IN_BANK = { false };

    const IN_BANK: bool = false;

    ghost KEEPS = { false };

    const KEEPS: bool = false;

    ghost in_bank = { not_in_bank };

    ghost in_bank_begun = { not_in_bank };

    fn make(alloc: Global, bank: &Bank) -> Result<Self, NoMemory> {
        let most = bank.bank_len();
        Ok(RamStage {
            most,
            block_size: 0,
            modules: Vec::with_capacity(alloc, MOST_MODULES)?,
            image: GroupImage::with_room(alloc, most)?,
        })
    }

    fn start<F: Flash>(
        &mut self,
        _bank: &mut Bank,
        _flash: &mut F,
        _message: &[u8],
        plan: &GroupPlan,
    ) -> Result<(), FlashFault> {
        self.block_size = plan.block_size;
        replace(&mut self.modules, plan.modules.as_slice());
        self.image.start(plan);
        Ok(())
    }

    fn offer<F: Flash>(
        &mut self,
        _bank: &mut Bank,
        _flash: &mut F,
        place: Place,
        bytes: &[u8],
    ) -> Result<(), FlashFault> {
        self.image.offer(place, bytes);
        Ok(())
    }

    fn missing(&self) -> u32 {
        self.image.missing()
    }

    fn module_crc<F: Flash>(
        &mut self,
        _bank: &mut Bank,
        _flash: &mut F,
        module: &ModulePlan,
    ) -> Result<u32, FlashFault> {
        Ok(self.image.module_crc(module))
    }

    fn finish<F: Flash>(
        &mut self,
        bank: &mut Bank,
        flash: &mut F,
        software: SwId,
        group: u32,
    ) -> Result<(), FlashFault> {
        install(bank, flash, self.image.bytes(), software, group)
    }

    fn forget<F: Flash>(&mut self, _bank: &mut Bank, _flash: &mut F) -> Result<(), FlashFault> {
        self.image.forget();
        Ok(())
    }

    ghost keeps = { not_in_bank };

    ghost keeps_none = { not_in_bank };
}
