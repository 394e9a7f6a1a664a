//! The blocks of a group that was chosen.

ghost use Rattle.std.specs.Prelude.{◌≡◌, ◌∷◌, [], ℕ, List, IfOk, Some, All};
ghost use Rattle.group_image.specs.Image.{IsFor};
ghost use Rattle.tool_load.specs.Growing.{IsSum, Reaches};
ghost use Rattle.section_form.specs.Section.{IsRight};

use crate::image::Image;
use crate::reading::ddb_of;
use crate::sums::Sums;
use ssu_group::GroupPlan;
use ssu_io::NoMemory;
use std::alloc::Global;

/// A group that was chosen, its plan, and its image with the blocks that were heard since and with the CRCs of its parts.
#[derive(Drop)]
pub(crate) struct Blocks {
    pub(crate) group: u32,
    pub(crate) plan: GroupPlan,
    pub(crate) image: Image,
    pub(crate) sums: Sums,
    ghost is_for: { IsFor plan image },
    ghost reaches: { Reaches plan image },
    ghost summed: { All (IsSum plan image) sums },
}

impl Blocks {
    ghost use Rattle.tool_load.specs.Progress.{Holds};

    /// The group of this plan, without a block. All its space is taken here.
    #[inline]
    pub(crate) fn new(alloc: Global, group: u32, plan: GroupPlan) -> Result<Blocks, NoMemory>
        ensures group { IfOk result (λ blocks. blocks.group ≡ group) }
        ensures plan { IfOk result (λ blocks. blocks.plan ≡ plan) }
        ensures none { IfOk result (λ blocks. Holds blocks.plan blocks.image []) }
    {
        let image = Image::new(alloc, &plan)?;
        let sums = Sums::new(alloc, &plan)?;
        Ok(Blocks {
            group,
            plan,
            image,
            sums,
        })
    }

    /// Takes the block that a right section is, if it fills a place that is missing.
    pub(crate) fn take(&mut self, section: &[u8])
        requires right { IsRight section.now }
        ensures group { self.new.group ≡ self.old.group }
        ensures plan { self.new.plan ≡ self.old.plan }
        ensures holds { (window : List (List ℕ)) → Holds self.old.plan self.old.image window
            → Holds self.new.plan self.new.image (section.now ∷ window) }
    {
        let Some(ddb) = ddb_of(section) else {
            return;
        };
        if let Some(place) = self.plan.place(&ddb) {
            if !self.image.has(place) {
                self.image.put(place, ddb.bytes);
                self.sums.take(place, ddb.block == 0, section, ddb.bytes);
            }
        }
    }
}
