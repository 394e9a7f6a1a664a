//! How many sections there are, which is known before one of them is made.
ghost use Rattle.std.specs.Prelude.{◌≡◌, ◌≤◌, ◌<◌, ◌+◌, IfErr, IfOk, OnOk, None, Some, length, option_map};
ghost use Rattle.std.specs.Prelude.{if◌then◌else◌};
ghost use Rattle.std.specs.List.{find};
ghost use Rattle.head_carousel.specs.Blocks.{all_blocks, group_blocks};
ghost use Rattle.head_carousel.specs.Refusal.{first_too_long, group_mentions, is_too_long, name_of};
ghost use Rattle.head_carousel.specs.Sections.{signalling};

use crate::group_files::GroupFiles;
use head_plan::Plan;
use ssu_io::FileName;

/// The most blocks of a file, for blockNumber has 16 bits.
const MOST_BLOCKS: usize = 65536;

/// The blocks of all groups.
///
/// # Errors
///
/// The name of the first file that has too many.
pub(crate) fn block_count(groups: &[GroupFiles<'_>]) -> Result<u64, FileName>
    requires few { length groups.now ≤ 16 }
    ensures all { IfOk result (λ n. n ≡ length (all_blocks groups.now)) }
    ensures short { OnOk result (first_too_long groups.now ≡ None) }
    ensures long { IfErr result (λ name. first_too_long groups.now ≡ Some name.bytes) }
    ensures room { IfOk result (λ n. n ≤ 268435456) }
{
    let mut count = 0;
    for group in groups {
        count += group_block_count(group)?;
    }
    Ok(count)
}

fn group_block_count(group: &GroupFiles<'_>) -> Result<u64, FileName>
    ensures all { IfOk result (λ n. n ≡ length (group_blocks group.now)) }
    ensures short { OnOk result (find is_too_long (group_mentions group.now) ≡ None) }
    ensures long { IfErr result (λ name. option_map name_of (find is_too_long (group_mentions group.now)) ≡ Some name.bytes) }
    ensures room { IfOk result (λ n. n ≤ 16777216) }
{
    let plan = group.group;
    let size = plan.block_size as usize;
    let mut count = 0;
    for (index, file) in group.files.iter().enumerate() {
        let blocks = file.as_slice().len().div_ceil(size);
        if blocks > MOST_BLOCKS {
            return Err(plan.modules.name(index));
        }
        count += blocks as u64;
    }
    Ok(count)
}

/// The sections before the blocks: NIT, PAT, TDT, PMT and DSI, the BAT and the UNT where there are, and a DII for each
/// group.
pub(crate) fn signalling_count(plan: &Plan, groups: &[GroupFiles<'_>]) -> u64
    requires few { length groups.now ≤ 16 }
    ensures all { result ≡ length (signalling plan.now groups.now) }
    ensures some { 1 ≤ result }
    ensures room { result ≤ 23 }
{
    let bats = count_of(plan.bouquet.is_some());
    let notices = count_of(plan.notice_pid.is_some());
    5 + bats + notices + groups.len() as u64
}

/// One section, where there is one.
fn count_of(is_there: bool) -> u64
    ensures { result ≡ (if is_there then 1 else 0) }
{
    if is_there { 1 } else { 0 }
}
