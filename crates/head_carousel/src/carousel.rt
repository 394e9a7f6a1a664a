//! All sections of a plan.
ghost use Rattle.std.specs.Prelude.{◌≡◌, ◌≤◌, Contains, IfErr, IfOk, OnOk, length, map};
ghost use Rattle.std.specs.List.{All};
ghost use Rattle.head_plan.specs.Plans.{mentions};
ghost use Rattle.head_carousel.specs.Signals.{pids_of};
ghost use Rattle.head_carousel.specs.Refusal.{CanBeMade, IsBuildable, IsCause, IsFaultOf};
ghost use Rattle.head_carousel.specs.Sections.{all_sections, section_count, sections_of};
ghost use Rattle.head_carousel.specs.WellMade.{IsHeard, IsReady};

use crate::blocks::{Rhythm, add_blocks};
use crate::control::add_control_messages;
use crate::counting::{block_count, signalling_count};
use crate::group_files::{GroupFiles, groups_with_files};
use crate::networks::add_networks;
use crate::notices::add_notices;
use crate::programs::add_programs;
use head_plan::Plan;
use ssu_answer::BuildFault;
use ssu_io::NoMemory;
use std::alloc::Global;
use ts_section::Timed;

/// The most sections of a plan.
const MOST_SECTIONS: u64 = 65536;

/// The sections of a plan whose files, mention by mention, have these bytes: NIT, BAT, PAT, TDT, PMT, UNT, DSI, a DII
/// for each group, and the DDBs by group, module and block.
///
/// Answers `ImageTooLong` with the name of the first file that needs more than 65,536 blocks; else `TooManySections`
/// with the number of sections there would be, which is more than 65,536; and `Memory` where memory ran out.
pub fn sections(alloc: Global, plan: &Plan, images: &[Vec<u8>]) -> Result<Vec<Timed>, BuildFault>
    requires images { length images.now ≡ length (mentions plan.now.group) }
    ensures ok { IfOk result (λ list. list.items ≡ sections_of plan.now (map (λ i. i.items) images.now)) }
    // It is refused exactly where it is not to be built.
    ensures buildable { OnOk result (IsBuildable plan.now (map (λ i. i.items) images.now)) }
    ensures cause { IfErr result (IsCause plan.now (map (λ i. i.items) images.now)) }
    // What is built may be sent: `head_mux` asks for no more. It goes on at most seven PIDs, and each section, cut into
    // packets, is heard again.
    ensures some { IfOk result (λ list. 1 ≤ length list.items) }
    ensures few { IfOk result (λ list. length list.items ≤ 65536) }
    ensures ready { IfOk result (λ list. All IsReady list.items) }
    ensures pids { IfOk result (λ list. All (λ s. Contains (pids_of plan.now) s.pid) list.items) }
    ensures heard { IfOk result (λ list. All IsHeard list.items) }
{
    let Ok(groups) = groups_with_files(alloc, plan.group.as_slice(), images) else {
        return Err(BuildFault::Memory);
    };
    let count = checked_count(plan, &groups)?;
    match made(alloc, plan, &groups, count) {
        Ok(list) => Ok(list),
        Err(_) => Err(BuildFault::Memory),
    }
}

/// How many sections there are, if they may be made.
fn checked_count(plan: &Plan, groups: &[GroupFiles<'_>]) -> Result<u32, BuildFault>
    requires few { length groups.now ≤ 16 }
    ensures all { IfOk result (λ n. n ≡ section_count plan.now groups.now) }
    ensures room { IfOk result (λ n. n ≤ 65536) }
    ensures cause { IfErr result (IsFaultOf plan.now groups.now) }
    ensures can { OnOk result (CanBeMade plan.now groups.now) }
{
    let blocks = match block_count(groups) {
        Ok(blocks) => blocks,
        Err(name) => return Err(BuildFault::ImageTooLong(name)),
    };
    let count = signalling_count(plan, groups) + blocks;
    if count > MOST_SECTIONS {
        return Err(BuildFault::TooManySections(count));
    }
    Ok(count as u32)
}

/// The sections, which are so many.
fn made(
    alloc: Global,
    plan: &Plan,
    groups: &[GroupFiles<'_>],
    count: u32,
) -> Result<Vec<Timed>, NoMemory>
    requires groups { length groups.now ≤ 16 }
    requires all { count ≡ section_count plan.now groups.now }
    requires few { count ≤ 65536 }
    ensures list { IfOk result (λ list. list.items ≡ all_sections plan.now groups.now) }
    ensures ready { IfOk result (λ list. All IsReady list.items) }
{
    let mut list = Vec::new(alloc);
    add_networks(alloc, plan, &mut list)?;
    add_programs(alloc, plan, &mut list)?;
    add_notices(alloc, plan, &mut list)?;
    add_control_messages(alloc, plan, groups, &mut list)?;
    let rhythm = Rhythm {
        pid: plan.data_pid,
        period: count + count / 4,
    };
    add_blocks(alloc, groups, &rhythm, &mut list)?;
    Ok(list)
}
