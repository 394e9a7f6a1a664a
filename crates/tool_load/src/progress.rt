//! How far the sections have led: to no group, to a group, to its blocks.

ghost use Rattle.std.specs.Prelude.{◌∷◌, ◌++◌, ℕ, List, reverse, OnOk, OnErr, IsTrue, IsFalse};
ghost use Rattle.section_form.specs.Section.{IsRight};
ghost use Rattle.tool_load.specs.Load.{IsChosen, IsReached};
ghost use Rattle.tool_load.specs.Progress.{StandsFor};

use crate::blocks::Blocks;
use crate::reading::{group_in, plan_in};
use ssu_io::NoMemory;
use std::alloc::Global;
use ts_section::SectionOut;

/// What is known of the group.
#[derive(Drop)]
pub(crate) enum Progress {
    /// No DSI that has a group was heard.
    NoGroup,
    /// The first group of the first such DSI, of which no DII that can be used was heard since.
    Wanted(u32),
    /// The group with its plan, and the blocks that were heard since.
    Collecting(Blocks),
}

impl Progress {
    /// One right section more.
    pub(crate) fn hear(&mut self, alloc: Global, section: &[u8]) -> Result<(), NoMemory>
        requires right { IsRight section.now }
        ensures stands { OnOk result ((sections : List (List ℕ)) → StandsFor self.old sections
            → StandsFor self.new (section.now ∷ sections)) }
        // The space of the group is taken at its DII.
        ensures no_memory { OnErr result ((sections : List (List ℕ)) → StandsFor self.old sections
            → (IsChosen sections → ⊥) × IsChosen (section.now ∷ sections)) }
    {
        if let Progress::Collecting(blocks) = self {
            blocks.take(section);
            return Ok(());
        }
        self.go_on(alloc, section)
    }

    /// The same. It stands apart because it has a plan on its stack, whose room is cleared at each call: with the blocks that would
    /// take as long as their copies.
    fn go_on(&mut self, alloc: Global, section: &[u8]) -> Result<(), NoMemory>
        requires right { IsRight section.now }
        ensures stands { OnOk result ((sections : List (List ℕ)) → StandsFor self.old sections
            → StandsFor self.new (section.now ∷ sections)) }
        // The space of the group is taken at its DII.
        ensures no_memory { OnErr result ((sections : List (List ℕ)) → StandsFor self.old sections
            → (IsChosen sections → ⊥) × IsChosen (section.now ∷ sections)) }
    {
        match self {
            Progress::NoGroup => {
                if let Some(group) = group_in(section) {
                    *self = Progress::Wanted(group);
                }
            }
            Progress::Wanted(group) => {
                let group = *group;
                if let Some(plan) = plan_in(group, section) {
                    *self = Progress::Collecting(Blocks::new(alloc, group, plan)?);
                }
            }
            Progress::Collecting(blocks) => blocks.take(section),
        }
        Ok(())
    }
}

/// All sections that became complete in one packet, one after the other.
pub(crate) fn hear_each(
    progress: &mut Progress,
    alloc: Global,
    each: &SectionOut,
) -> Result<(), NoMemory>
    ensures stands { OnOk result ((sections : List (List ℕ)) → StandsFor progress.old sections
        → StandsFor progress.new (reverse each.now ++ sections)) }
    ensures no_memory { OnErr result ((sections : List (List ℕ)) → StandsFor progress.old sections
        → (IsChosen sections → ⊥) × IsChosen (reverse each.now ++ sections)) }
{
    for k in 0..each.len() {
        progress.hear(alloc, each.get(k))?;
    }
    Ok(())
}

/// Whether nothing is missing of the group.
pub(crate) fn is_whole(progress: &Progress) -> bool
    ensures reached { IsTrue result → (sections : List (List ℕ)) → StandsFor progress.now sections → IsReached sections }
    ensures open { IsFalse result → (sections : List (List ℕ)) → StandsFor progress.now sections → IsReached sections → ⊥ }
{
    match progress {
        Progress::NoGroup => false,
        Progress::Wanted(_) => false,
        Progress::Collecting(blocks) => blocks.image.missing() == 0,
    }
}
