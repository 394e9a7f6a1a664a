//! The Update Notification Table: ETSI TS 102 006, 9.4.
ghost use Rattle.std.specs.Prelude.{◌≡◌, ◌≤◌, ◌<◌, ◌^◌, ◌++◌, [], List, IfOk, IsTrue, OnOk, length, map, option_map};
ghost use Rattle.std.specs.Prelude.{true};
ghost use Rattle.std.specs.List.{All};
ghost use Rattle.std.specs.Option.{ForSome};
ghost use Rattle.head_plan.specs.Plans.{schedule_data};
ghost use Rattle.section_form.specs.Written.{long_bytes};
ghost use Rattle.si_desc.specs.Descriptors.{IsRow};
ghost use Rattle.ssu_compat.specs.Compat.{EntryFields, compat as compat_format};
ghost use Rattle.ssu_compat.specs.Written.{entry_of, spelling};
ghost use Rattle.ssu_unt.specs.Written.{body_bytes, new_draft, with_pair, with_platform};
ghost use Rattle.head_carousel.specs.Control.{hardware_alone, subgroup_row};
ghost use Rattle.head_carousel.specs.Notice.{notice_head, operational, platform_bytes, schedule_row};
ghost use Rattle.head_carousel.specs.Signals.{notices, notices_on};
ghost use Rattle.head_carousel.specs.WellMade.{IsReady, IsWellMade};

use crate::listing::{add, wanting};
use head_plan::{Plan, PlanGroup, Schedule};
use ssu_compat::{Oui, Plain, write};
use ssu_io::NoMemory;
use ssu_unt::{UntWriter, put_scheduling, put_ssu_location, put_ssu_subgroup, put_update};
use std::alloc::Global;
use ts_packet::Pid;
use ts_section::Timed;

/// Adds the table, where the plan has a PID for it.
#[tactic(auto, unfolding(crate::specs::Signals::notices))]
pub(crate) fn add_notices(alloc: Global, plan: &Plan, list: &mut Vec<Timed>) -> Result<(), NoMemory>
    ensures added { OnOk result (list.new.items ≡ list.old.items ++ notices plan.now) }
    ensures ready { All IsReady list.old.items → OnOk result (All IsReady list.new.items) }
{
    add_notices_on(alloc, plan, plan.notice_pid, list)
}

fn add_notices_on(
    alloc: Global,
    plan: &Plan,
    notice: Option<Pid>,
    list: &mut Vec<Timed>,
) -> Result<(), NoMemory>
    ensures added { OnOk result (list.new.items ≡ list.old.items ++ notices_on plan.now notice) }
    ensures ready { All IsReady list.old.items → OnOk result (All IsReady list.new.items) }
{
    let Some(pid) = notice else {
        return Ok(());
    };
    let groups = plan.group.as_slice();
    let section = notice_section(alloc, plan.oui, plan.schedule, plan.manual, groups)?;
    add(list, pid, plan.signal_period, section)
}

/// The table with a platform for each group.
fn notice_section(
    alloc: Global,
    oui: Oui,
    schedule: Option<Schedule>,
    manual: bool,
    groups: &[PlanGroup],
) -> Result<Vec<u8>, NoMemory>
    requires few { length groups.now ≤ 16 }
    ensures made { IfOk result (λ s. s.items ≡ long_bytes true (notice_head oui (option_map schedule_data schedule) manual groups.now)) }
    ensures right { IfOk result (λ s. IsWellMade s.items) }
{
    prove!(oui.get() < 0x100_0000);
    let mut writer = empty_table(alloc, oui)?;
    for group in groups {
        add_platform(alloc, &mut writer, oui, schedule, manual, group)?;
    }
    match writer.finish() {
        Ok(section) => Ok(section),
        Err((_, fault)) => Err(fault),
    }
}

/// A table without platforms, with an empty common loop.
fn empty_table(alloc: Global, oui: Oui) -> Result<UntWriter, NoMemory>
    ensures { IfOk result (λ w. w ≡ new_draft oui 0 []) }
{
    match UntWriter::new(alloc, oui, 0, &[]) {
        Ok(writer) => Ok(writer),
        Err(fault) => Err(wanting(fault)),
    }
}

/// Adds the platform of a group with its pair.
fn add_platform(
    alloc: Global,
    writer: &mut UntWriter,
    oui: Oui,
    schedule: Option<Schedule>,
    manual: bool,
    group: &PlanGroup,
) -> Result<(), NoMemory>
    requires room { length (body_bytes writer.old) ≤ 1000 }
    ensures body { OnOk result (body_bytes writer.new
        ≡ body_bytes writer.old ++ platform_bytes oui (option_map schedule_data schedule) manual group.now) }
    ensures oui { OnOk result (writer.new.oui ≡ writer.old.oui) }
    ensures version { OnOk result (writer.new.version ≡ writer.old.version) }
{
    let compat = hardware(alloc, oui, group)?;
    let row = operational_row(alloc, schedule, manual, group.subgroup)?;
    begin_platform(writer, &compat)?;
    add_pair(writer, &row)
}

/// Begins a platform without pairs.
fn begin_platform(writer: &mut UntWriter, compat: &[u8]) -> Result<(), NoMemory>
    requires spelled { (entries : List EntryFields) × compat_format.Spells entries compat.now }
    requires short { length compat.now ≤ 15 }
    requires room { length (body_bytes writer.old) ≤ 1000 }
    ensures { OnOk result (writer.new ≡ with_platform compat.now writer.old) }
{
    match writer.platform(compat) {
        Ok(()) => Ok(()),
        Err(fault) => Err(wanting(fault)),
    }
}

/// Adds a pair with an empty target loop.
fn add_pair(writer: &mut UntWriter, row: &[u8]) -> Result<(), NoMemory>
    requires begun { IsTrue writer.old.begun }
    requires row { IsRow row.now }
    requires short { length row.now ≤ 32 }
    requires room { length (body_bytes writer.old) ≤ 1100 }
    ensures { OnOk result (writer.new ≡ with_pair [] row.now writer.old) }
{
    match writer.pair(&[], row) {
        Ok(()) => Ok(()),
        Err(fault) => Err(wanting(fault)),
    }
}

/// The compatibility descriptor of the group's hardware.
fn hardware(alloc: Global, oui: Oui, group: &PlanGroup) -> Result<Vec<u8>, NoMemory>
    ensures made { IfOk result (λ v. v.items ≡ spelling (hardware_alone oui group.now)) }
    ensures spelled { IfOk result (λ v. compat_format.Spells (map entry_of (hardware_alone oui group.now)) v.items) }
{
    let hardware = Plain {
        kind: 1,
        oui,
        model: group.model,
        version: group.version,
    };
    write(alloc, &[hardware])
}

/// The operational loop.
fn operational_row(
    alloc: Global,
    schedule: Option<Schedule>,
    manual: bool,
    subgroup: Option<u64>,
) -> Result<Vec<u8>, NoMemory>
    requires { ForSome subgroup (λ n. n < 2 ^ 40) }
    ensures made { IfOk result (λ row. row.items ≡ operational (option_map schedule_data schedule) manual subgroup) }
    ensures row { IfOk result (λ row. IsRow row.items) }
    ensures short { IfOk result (λ row. length row.items ≤ 32) }
{
    let mut row = Vec::new(alloc);
    put_schedule(&mut row, schedule)?;
    put_update(&mut row, manual)?;
    put_ssu_location(&mut row, 2)?;
    put_subgroup(&mut row, subgroup)?;
    Ok(row)
}

fn put_schedule(row: &mut Vec<u8>, schedule: Option<Schedule>) -> Result<(), NoMemory>
    ensures put { OnOk result (row.new.items ≡ row.old.items ++ schedule_row (option_map schedule_data schedule)) }
    ensures row { IsRow row.old.items → OnOk result (IsRow row.new.items) }
{
    match schedule {
        Some(s) => put_scheduling(row, s.start, s.end, s.period_hours, s.duration_hours),
        None => Ok(()),
    }
}

/// Appends the descriptor of a subgroup, where there is one.
pub(crate) fn put_subgroup(row: &mut Vec<u8>, subgroup: Option<u64>) -> Result<(), NoMemory>
    requires { ForSome subgroup (λ n. n < 2 ^ 40) }
    ensures put { OnOk result (row.new.items ≡ row.old.items ++ subgroup_row subgroup) }
    ensures row { IsRow row.old.items → OnOk result (IsRow row.new.items) }
{
    match subgroup {
        Some(number) => put_ssu_subgroup(row, number),
        None => Ok(()),
    }
}
