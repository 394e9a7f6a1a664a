//! The first module that has not the CRC that it should have.

ghost use Rattle.std.specs.Prelude.{◌≡◌, ◌+◌, ◌≤◌, None, Some, true, MatchOption, All, length};
ghost use Rattle.std.specs.List.{find};
ghost use Rattle.ts_crc.specs.Crc.{crc_of};
ghost use Rattle.ssu_group.specs.Carried.{IsWrong, is_right, is_wrong, module_bytes};
ghost use Rattle.ssu_group.specs.declared.module_plan.ModulePlan.{ModulePlan};
ghost use Rattle.group_image.specs.Image.{image_of};
ghost use Rattle.tool_load.specs.Growing.{IsCrcIn};

use crate::image::Image;
use crate::sums::Sums;
use ssu_group::{ModulePlan, Wrong};

/// The CRC of the bytes of the module, out of those of its blocks where it is known.
fn crc_of_module(image: &Image, sums: &Sums, part: &ModulePlan) -> u32
    requires reached { image.now.total ≤ length image.now.buffer }
    requires sums { All (IsCrcIn image.now.buffer) sums.now }
    requires inside { part.now.at + part.now.size ≤ image.now.total }
    ensures { result ≡ crc_of (module_bytes (image_of image.now) part.now) }
{
    match sums.of(part) {
        Some(crc) => crc,
        None => image.module_crc(part),
    }
}

/// Whether the bytes of the module have another CRC than its descriptor gives, if it gives one.
fn wrong_of(image: &Image, sums: &Sums, part: &ModulePlan) -> Option<Wrong>
    requires reached { image.now.total ≤ length image.now.buffer }
    requires sums { All (IsCrcIn image.now.buffer) sums.now }
    requires inside { part.now.at + part.now.size ≤ image.now.total }
    ensures { MatchOption result (is_right (image_of image.now) part.now ≡ true) (λ wrong. IsWrong (image_of image.now) part.now wrong) }
{
    let Some(want) = part.crc else {
        return None;
    };
    let found = crc_of_module(image, sums, part);
    if found == want {
        return None;
    }
    Some(Wrong {
        id: part.id,
        want,
        found,
    })
}

/// The first of the modules whose bytes have not the CRC that its descriptor gives.
pub(crate) fn first_wrong(image: &Image, sums: &Sums, modules: &[ModulePlan]) -> Option<Wrong>
    requires reached { image.now.total ≤ length image.now.buffer }
    requires sums { All (IsCrcIn image.now.buffer) sums.now }
    requires inside { All (λ m. m.at + m.size ≤ image.now.total) modules.now }
    ensures { MatchOption result (find (is_wrong (image_of image.now)) modules.now ≡ None)
        (λ wrong. (m : ModulePlan) × (find (is_wrong (image_of image.now)) modules.now ≡ Some m) × IsWrong (image_of image.now) m wrong) }
{
    for part in modules {
        if let Some(wrong) = wrong_of(image, sums, part) {
            return Some(wrong);
        }
    }
    None
}
