//! The fields of a plan that are no groups.
ghost use Rattle.std.specs.Prelude.{◌≡◌, ◌+◌, ◌≤◌, IfOk, IfSome, [], IsSome, length, option_map, true};
ghost use Rattle.toml_fields.specs.Reading.{named, seen};
ghost use Rattle.toml_fields.specs.Place.{place, number, optional_number};
ghost use Rattle.ssu_time.specs.UtcField.{time_view};
ghost use Rattle.head_plan.specs.Plans.{ArePids, IsOwnPid, schedule_data};
ghost use Rattle.head_plan.specs.PlanText.{service, time, origin, pids, pace, manual, schedule, schedule_in};

use crate::schedule::Schedule;
use ssu_compat::Oui;
use ssu_time::{Utc, civil};
use toml_fields::{FieldName, Fields};
use ts_packet::Pid;

#[tactic(auto, unfolding(crate::specs::PlanText::service))]
pub(crate) fn read_service(fields: &Fields) -> Result<(u16, u16, Option<u16>, u16), FieldName>
    requires { fields.now.prefix.now ≡ [] }
    ensures value { named result ≡ service (place fields.now) }
    ensures in_range { IfOk result (λ x. 1 ≤ x.3) }
{
    let ts = fields.number("ts", 0, 65_535)?;
    let network = fields.number("network", 0, 65_535)?;
    let bouquet = read_optional_u16(fields, "bouquet")?;
    let service = fields.number("service", 1, 65_535)?;
    Ok((ts as u16, network as u16, bouquet, service as u16))
}

pub(crate) fn read_optional_u16(fields: &Fields, name: &str) -> Result<Option<u16>, FieldName>
    requires { length fields.now.prefix.now + length name.now ≤ 32 }
    ensures { named result ≡ optional_number (place fields.now) name.now 0 65535 }
{
    match fields.optional_number(name, 0, 65_535)? {
        Some(n) => Ok(Some(n as u16)),
        None => Ok(None),
    }
}

#[tactic(auto, unfolding(crate::specs::PlanText::time))]
fn read_time(fields: &Fields, name: &str) -> Result<Utc, FieldName>
    requires { length fields.now.prefix.now + length name.now ≤ 32 }
    ensures { seen time_view result ≡ time (place fields.now) name.now }
{
    match civil(fields.text(name)?) {
        Some(time) => Ok(time),
        None => Err(fields.bad(name)),
    }
}

#[tactic(auto, unfolding(crate::specs::PlanText::origin))]
pub(crate) fn read_origin(fields: &Fields) -> Result<(Oui, Utc), FieldName>
    requires { fields.now.prefix.now ≡ [] }
    ensures { seen (λ x. (x.0, time_view x.1)) result ≡ origin (place fields.now) }
{
    let oui = fields.number("oui", 0, 16_777_215)?;
    let oui = Oui::new(oui as u32).unwrap();
    let time = read_time(fields, "time")?;
    Ok((oui, time))
}

fn read_pid(fields: &Fields, name: &str) -> Result<Pid, FieldName>
    requires { length fields.now.prefix.now + length name.now ≤ 32 }
    ensures value { named result ≡ number (place fields.now) name.now 32 8190 }
    ensures in_range { IfOk result IsOwnPid }
{
    let number = fields.number(name, 32, 8_190)?;
    let pid = Pid::new(number as u16).unwrap();
    Ok(pid)
}

fn read_optional_pid(fields: &Fields, name: &str) -> Result<Option<Pid>, FieldName>
    requires { length fields.now.prefix.now + length name.now ≤ 32 }
    ensures value { named result ≡ optional_number (place fields.now) name.now 32 8190 }
    ensures in_range { IfOk result (λ o. IfSome o IsOwnPid) }
{
    match fields.optional_number(name, 32, 8_190)? {
        Some(number) => {
            let pid = Pid::new(number as u16).unwrap();
            Ok(Some(pid))
        }
        None => Ok(None),
    }
}

#[tactic(auto, unfolding(crate::specs::PlanText::pids))]
pub(crate) fn read_pids(fields: &Fields) -> Result<(Pid, Pid, Option<Pid>), FieldName>
    requires { fields.now.prefix.now ≡ [] }
    ensures value { named result ≡ pids (place fields.now) }
    ensures in_range { IfOk result (λ x. ArePids x.0 x.1 x.2) }
{
    let pmt = read_pid(fields, "pmt_pid")?;
    let blocks = read_pid(fields, "data_pid")?;
    if blocks == pmt {
        return Err(fields.bad("data_pid"));
    }
    let Some(notice) = read_optional_pid(fields, "notice_pid")? else {
        return Ok((pmt, blocks, None));
    };
    if notice == pmt || notice == blocks {
        return Err(fields.bad("notice_pid"));
    }
    Ok((pmt, blocks, Some(notice)))
}

#[tactic(auto, unfolding(crate::specs::PlanText::pace))]
pub(crate) fn read_pace(fields: &Fields) -> Result<(u32, u32), FieldName>
    requires { fields.now.prefix.now ≡ [] }
    ensures value { named result ≡ pace (place fields.now) }
    ensures period_some { IfOk result (λ x. 1 ≤ x.0) }
    ensures period_most { IfOk result (λ x. x.0 ≤ 100000) }
    ensures turns_some { IfOk result (λ x. 1 ≤ x.1) }
    ensures turns_most { IfOk result (λ x. x.1 ≤ 1000000) }
{
    let period = fields.optional_number("signal_period", 1, 100_000)?;
    let period = period.unwrap_or(50);
    let turns = fields.number("turns", 1, 1_000_000)?;
    Ok((period as u32, turns as u32))
}

#[tactic(auto, unfolding(crate::specs::PlanText::manual))]
pub(crate) fn read_manual(fields: &Fields, has_notice: bool) -> Result<bool, FieldName>
    requires { fields.now.prefix.now ≡ [] }
    ensures value { named result ≡ manual has_notice (place fields.now) }
    ensures by_notice { IfOk result (λ asks. asks ≡ true → has_notice ≡ true) }
{
    let flag = fields.optional_flag("manual")?;
    let manual = flag.unwrap_or(false);
    if manual && !has_notice {
        return Err(fields.bad("manual"));
    }
    Ok(manual)
}

#[tactic(auto, unfolding(crate::specs::PlanText::schedule_in))]
fn read_schedule_parts(fields: &Fields) -> Result<Schedule, FieldName>
    requires { fields.now.prefix.now ≡ [] }
    ensures { seen schedule_data result ≡ schedule_in (place fields.now) }
{
    let start = read_time(fields, "start")?;
    let end = read_time(fields, "end")?;
    let period_hours = fields.number("period_hours", 0, 255)?;
    let duration_hours = fields.number("duration_hours", 0, 255)?;
    Ok(Schedule {
        start,
        end,
        period_hours: period_hours as u8,
        duration_hours: duration_hours as u8,
    })
}

#[tactic(auto, unfolding(crate::specs::PlanText::schedule))]
pub(crate) fn read_schedule(
    fields: &Fields,
    has_notice: bool,
) -> Result<Option<Schedule>, FieldName>
    requires { fields.now.prefix.now ≡ [] }
    ensures value { seen (option_map schedule_data) result ≡ schedule has_notice (place fields.now) }
    ensures by_notice { IfOk result (λ s. IsSome s → has_notice ≡ true) }
{
    let Some(table) = fields.optional_table("schedule")? else {
        return Ok(None);
    };
    if !has_notice {
        return Err(fields.bad("schedule"));
    }
    let parts = Fields { table, prefix: "" };
    match read_schedule_parts(&parts) {
        Ok(schedule) => Ok(Some(schedule)),
        Err(_) => Err(fields.bad("schedule")),
    }
}
