//! What comes of the sections that were heard.

ghost use Rattle.std.specs.Prelude.{◌≡◌, ℕ, List};
ghost use Rattle.group_image.specs.Image.{image_of};
ghost use Rattle.ssu_answer.specs.declared.verdict.Verdict.TheVariants.{Unsettled};
ghost use Rattle.tool_load.specs.Load.{IsVerdict, chosen_of};
ghost use Rattle.tool_load.specs.Progress.{StandsFor, Collects, bytes_in};

use crate::blocks::Blocks;
use crate::progress::Progress;
use crate::wrong::first_wrong;
use ssu_answer::{Chosen, Level, Verdict};
use ssu_compat::SwId;

/// What comes of the sections so far.
pub(crate) fn verdict_of(progress: &Progress) -> Verdict
    ensures verdict { (sections : List (List ℕ)) → StandsFor progress.now sections → IsVerdict sections result (bytes_in progress.now) }
    ensures settled { result ≡ Unsettled → ⊥ }
{
    match progress {
        Progress::NoGroup => Verdict::Nothing(Level::Group),
        Progress::Wanted(_) => Verdict::Nothing(Level::Modules),
        Progress::Collecting(blocks) => verdict_of_blocks(blocks),
    }
}

/// What comes of the group with its blocks.
fn verdict_of_blocks(blocks: &Blocks) -> Verdict
    ensures verdict { (sections : List (List ℕ)) → Collects blocks.now sections
        → IsVerdict sections result (image_of blocks.now.image) }
    ensures settled { result ≡ Unsettled → ⊥ }
{
    let missing = blocks.image.missing();
    if missing > 0 {
        return Verdict::Incomplete(chosen(blocks), missing);
    }
    match first_wrong(&blocks.image, &blocks.sums, blocks.plan.modules.as_slice()) {
        None => Verdict::Installed(chosen(blocks)),
        Some(wrong) => Verdict::BadModule(wrong.id, wrong.want, wrong.found),
    }
}

/// The group, without a software.
fn chosen(blocks: &Blocks) -> Chosen
    ensures { result ≡ chosen_of blocks.now.group blocks.now.plan }
{
    Chosen {
        group: blocks.group,
        software: SwId {
            model: 0,
            version: 0,
        },
        bytes: blocks.plan.total,
    }
}

/// The bytes that were collected.
pub(crate) fn bytes_of(progress: &Progress) -> &[u8]
    ensures { result.now ≡ bytes_in progress.now }
{
    match progress {
        Progress::NoGroup => &[],
        Progress::Wanted(_) => &[],
        Progress::Collecting(blocks) => blocks.image.bytes(),
    }
}
