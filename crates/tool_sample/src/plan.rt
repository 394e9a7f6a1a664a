//! The plan of a sample, what is lost of its packets, and its box.
ghost use Rattle.std.specs.Prelude.{◌≡◌, ◌+◌, ◌*◌, ◌/◌, ◌<◌, ◌≤◌, [], ◌∷◌, IfOk, OnOk, length, map, take};
ghost use Rattle.std.specs.List.{All};
ghost use Rattle.head_carousel.specs.Sections.{sections_of};
ghost use Rattle.head_mux.specs.Sent.{IsSendable};
ghost use Rattle.tool_sample.specs.Sample.{group_of, module_count as module_count_of, modules_of, names, plan_in, script_of, section_total};
ghost use Rattle.tool_sample.specs.Sample.{the_box as box_of, turns_for};

use crate::modules::module_count;
use air_channel::{RegularLoss, Script};
use box_file::BoxFile;
use head_carousel::sections;
use head_plan::{FileName, Files, Groups, Plan, PlanGroup};
use ssu_answer::BuildFault;
use ssu_compat::{BoxId, Oui, Rule, SwId};
use ssu_io::NoMemory;
use ssu_time::Utc;
use std::alloc::Global;
use ts_packet::Pid;

/// The software that runs before the update.
pub(crate) const RUNNING: SwId = SwId {
    model: 1,
    version: 1,
};

/// The plan of so many turns.
pub(crate) fn plan(alloc: Global, number: u32, turns: u32) -> Result<Plan, NoMemory>
    requires some { 1 ≤ turns }
    requires most { turns ≤ 1000000 }
    ensures { IfOk result (λ p. p ≡ plan_in number turns) }
{
    Ok(Plan {
        ts: 1,
        network: 2,
        bouquet: None,
        service: 3,
        oui: oui(),
        time: Utc {
            mjd: 60_370,
            second: 7200,
        },
        pmt_pid: pid(256),
        data_pid: pid(258),
        notice_pid: None,
        signal_period: 50,
        turns,
        manual: false,
        schedule: None,
        group: groups(alloc, number)?,
    })
}

/// How many sections the plan makes of these modules.
pub(crate) fn section_count(
    alloc: Global,
    number: u32,
    modules: &[Vec<u8>],
) -> Result<u32, NoMemory>
    requires number { number ≤ 999999 }
    requires modules { map (λ m. m.items) modules.now ≡ modules_of number }
    ensures count { IfOk result (λ n. n ≡ section_total number) }
    ensures few { IfOk result (λ n. n ≤ 297) }
    // Each of them may be sent.
    ensures sendable { OnOk result (All IsSendable (sections_of (plan_in number 1) (modules_of number))) }
{
    let plan = plan(alloc, number, 1)?;
    match sections(alloc, &plan, modules) {
        Ok(list) => Ok(list.len() as u32),
        Err(BuildFault::Memory) => Err(NoMemory),
        Err(BuildFault::ImageTooLong(_)) => unreachable!(),
        Err(BuildFault::TooManySections(_)) => unreachable!(),
    }
}

/// The turns, where there are so many sections: 2,000, in whose packets some are lost, and then eight times as many as two
/// rounds of the sections and a quarter of one have.
pub(crate) fn turns(sections: u32) -> u32
    requires { sections ≤ 297 }
    ensures value { result ≡ turns_for sections }
    ensures some { 1 ≤ result }
    ensures most { result ≤ 7344 }
{
    2000 + 8 * (2 * sections + sections / 4)
}

/// What is lost of the packets: one of so many of the first 2,000.
pub(crate) fn script(alloc: Global, number: u32) -> Script
    ensures { result ≡ script_of number }
{
    Script::losing(
        alloc,
        RegularLoss {
            every: (7 + number % 40) as u16,
            until: 2000,
        },
    )
}

/// The box.
pub(crate) fn the_box() -> BoxFile
    ensures { result ≡ box_of }
{
    BoxFile {
        id: BoxId {
            oui: oui(),
            model: 7,
            version: 1,
            mac: None,
            serial: None,
        },
        rule: Rule::Newer,
        manual: false,
        service: None,
        software: RUNNING,
    }
}

/// The one group.
fn groups(alloc: Global, number: u32) -> Result<Groups, NoMemory>
    ensures { IfOk result (λ groups. groups ≡ group_of number ∷ []) }
{
    let group = PlanGroup {
        model: 7,
        version: 1,
        software_model: 1,
        software_version: 2,
        block_size: 1024,
        module_version: 0,
        subgroup: None,
        modules: files(alloc, number)?,
    };
    let mut groups = Vec::new(alloc);
    groups.push(group)?;
    Ok(Groups::new(groups))
}

/// The names of the files.
fn files(alloc: Global, number: u32) -> Result<Files, NoMemory>
    ensures { IfOk result (λ files. files ≡ take (module_count_of number) names) }
{
    let mut files = Vec::new(alloc);
    files.push(named("a.bin"))?;
    if module_count(number) > 1 {
        files.push(named("b.bin"))?;
    }
    if module_count(number) > 2 {
        files.push(named("c.bin"))?;
    }
    Ok(Files::new(files))
}

fn named(name: &str) -> FileName
    requires { length name.now ≤ 64 }
    ensures { result.bytes ≡ name.now }
{
    let mut named = FileName::new();
    named.push_str(name);
    named
}

fn oui() -> Oui
    ensures { result ≡ 4660 }
{
    match Oui::new(4660) {
        Some(oui) => oui,
        None => unreachable!(),
    }
}

fn pid(number: u16) -> Pid
    requires { number < 8192 }
    ensures { result ≡ number }
{
    match Pid::new(number) {
        Some(pid) => pid,
        None => unreachable!(),
    }
}
