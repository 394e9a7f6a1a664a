//! A plan.
use crate::groups::Groups;
use crate::schedule::Schedule;
use ssu_compat::Oui;
use ssu_time::Utc;
use std::marker::Model;
use ts_packet::Pid;

/// The plan of a broadcast. A contract sees it as its fields, with the groups and their files as lists.
#[derive(Debug, Drop)]
pub struct Plan {
    /// The transport stream and the original network.
    pub ts: u16,
    pub network: u16,
    /// The bouquet whose BAT names the service too.
    pub bouquet: Option<u16>,
    /// The service that carries the update, at least 1.
    pub service: u16,
    /// The manufacturer whose boxes are updated.
    pub oui: Oui,
    /// The time that the TDT gives.
    pub time: Utc,
    /// The PIDs of the PMT, of the carousel and of the notifications, 32 to 8190, no two the same.
    pub pmt_pid: Pid,
    pub data_pid: Pid,
    pub notice_pid: Option<Pid>,
    /// After how many sections a table is sent again, 1 to 100,000.
    pub signal_period: u32,
    /// How many sections are sent, 1 to 1,000,000.
    pub turns: u32,
    /// Whether a user's consent is asked, which takes notifications.
    pub manual: bool,
    /// When the update may be taken, which takes notifications.
    pub schedule: Option<Schedule>,
    /// The groups that are sent, 1 to 16.
    pub group: Groups,
}

impl Model for Plan {
    ghost use Rattle.std.specs.Prelude.{option_map};
    ghost use Rattle.ssu_time.specs.UtcField.{time_view};
    ghost use Rattle.head_plan.specs.Plans.{PlanData, IsPlan, schedule_data};

    ghost Value = { PlanData };

    ghost view = { λ p. record {
      ts = p.ts;
      network = p.network;
      bouquet = p.bouquet;
      service = p.service;
      oui = p.oui;
      time = time_view p.time;
      pmt_pid = p.pmt_pid;
      data_pid = p.data_pid;
      notice_pid = p.notice_pid;
      signal_period = p.signal_period;
      turns = p.turns;
      manual = p.manual;
      schedule = option_map schedule_data p.schedule;
      group = p.group;
    } };

    ghost invariant = { λ p. IsPlan p.service p.pmt_pid p.data_pid p.notice_pid p.signal_period p.turns
        p.manual (option_map schedule_data p.schedule) };
}
