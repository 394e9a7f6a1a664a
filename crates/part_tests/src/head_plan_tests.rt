//! A whole `plan.toml`, the first bad field of others, and the files that its groups mention.

use crate::check::same;
use head_plan::{FieldName, Plan, PlanFault};
use std::alloc::Global;
use std::test::Fail;

const START: &str =
    "ts = 1\nnetwork = 2\nservice = 3\noui = 4660\ntime = \"2024-03-01T02:00:00\"\npmt_pid = 256\ndata_pid = 258\n";

const GROUP: &str =
    "[[group]]\nmodel = 7\nversion = 1\nsoftware_model = 1\nsoftware_version = 2\nmodules = [\"a.bin\", \"b.bin\"]\ncolour = 1\n";

/// The field at which the plan of these parts is refused.
fn bad_field(alloc: Global, first: &str, more: &str, last: &str) -> Result<FieldName, Fail> {
    let text = format!(in alloc; "{first}{more}{last}")?;
    match &Plan::read(alloc, text.as_bytes()) {
        Err(PlanFault::Field(name)) => Ok(*name),
        _ => Err(Fail::from("not refused at a field")),
    }
}

#[test]
fn a_plan_is_read(rt: HostRuntime) -> Result<(), Fail> {
    let more = "turns = 7\ncolour = \"red\"\n";
    let text = format!(in rt.alloc(); "{START}{more}{GROUP}{GROUP}")?;
    let plan = Plan::read(rt.alloc(), text.as_bytes())?;
    same(&rt, &(plan.ts, plan.network, plan.service), &(1, 2, 3));
    assert!(rt; plan.bouquet.is_none() && plan.notice_pid.is_none() && plan.schedule.is_none());
    same(&rt, &plan.oui.get(), &4660);
    same(&rt, &(plan.time.mjd, plan.time.second), &(60370, 7200));
    same(&rt, &(plan.pmt_pid.get(), plan.data_pid.get()), &(256, 258));
    same(
        &rt,
        &(plan.signal_period, plan.turns, plan.manual),
        &(50, 7, false),
    );
    same(&rt, &plan.file_count(), &4);
    Ok(())
}

#[test]
fn the_first_bad_field_is_named(rt: HostRuntime) -> Result<(), Fail> {
    for (more, field) in [
        ("turns = \n", "text"),
        ("turns = 0\n", "turns"),
        ("turns = 7.0\n", "turns"),
        ("turns = 7\nsignal_period = 0\n", "signal_period"),
        ("turns = 7\nmanual = true\n", "manual"),
        ("turns = 7\nnotice_pid = 258\n", "notice_pid"),
        ("turns = 7\nbouquet = 65536\n", "bouquet"),
        (
            "turns = 7\nnotice_pid = 259\nschedule = { period_hours = 0 }\n",
            "schedule",
        ),
        ("turns = 7\n", "group"),
        ("turns = 7\ngroup = []\n", "group"),
        ("turns = 7\ngroup = [{ model = 65536 }, 7]\n", "group"),
        ("turns = 7\ngroup = [{ model = 65536 }]\n", "group.0.model"),
    ] {
        let name = bad_field(rt.alloc(), START, more, "")?;
        assert!(rt; name.as_str() == field);
    }
    Ok(())
}

#[test]
fn a_bad_group_is_named_by_its_number(rt: HostRuntime) -> Result<(), Fail> {
    let start = format!(in rt.alloc(); "{START}turns = 7\n")?;
    for (more, field) in [
        ("block_size = 4067\n", "group.0.block_size"),
        ("subgroup = 1099511627776\n", "group.0.subgroup"),
        ("[[group]]\nmodel = 7\n", "group.1.version"),
        (
            "[[group]]\nmodel = 7\nversion = 1\nsoftware_model = 1\nsoftware_version = 2\nmodules = [\".a\"]\n",
            "group.1.modules",
        ),
    ] {
        let name = bad_field(rt.alloc(), start.as_str(), GROUP, more)?;
        assert!(rt; name.as_str() == field);
    }
    Ok(())
}

#[test]
fn files_are_counted_by_mention(rt: HostRuntime) -> Result<(), Fail> {
    let text = format!(in rt.alloc(); "{START}turns = 7\n{GROUP}{GROUP}")?;
    let plan = Plan::read(rt.alloc(), text.as_bytes())?;
    assert!(rt; plan.file_count() == 4);
    assert!(rt; plan.file(0).as_str() == "a.bin");
    assert!(rt; plan.file(1).as_str() == "b.bin");
    assert!(rt; plan.file(3).as_str() == "b.bin");
    Ok(())
}
