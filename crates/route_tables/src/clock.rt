//! The time: ETSI EN 300 468, 5.2.5 and 5.2.6. TDT and TOT on PID 0x0014.

ghost use Rattle.std.specs.Prelude.{◌≡◌};
ghost use Rattle.std.specs.Option.{option_map, option_or};
ghost use Rattle.ssu_time.specs.UtcField.{time_view};
ghost use Rattle.route_tables.specs.Said.{time_in, time_said};
ghost use Rattle.route_tables.specs.Next.{heard_on, time_after};

use si_table::{Tdt, Tot};
use ssu_time::Utc;
use ts_packet::Pid;

/// the PID of TDT and TOT
pub(crate) const TIME_PID: u16 = 0x0014;

/// Takes up the time that a section tells, in seconds since the beginning of 17 November 1858.
pub(crate) fn hear(time: &mut Option<u64>, pid: Pid, section: &[u8])
    ensures { time.new ≡ time_after (heard_on pid section.now) time.old }
{
    let Some(second) = second_on(pid, section) else {
        return;
    };
    *time = Some(second);
}

#[tactic(auto, unfolding(crate::specs::Said::time_said))]
fn second_on(pid: Pid, section: &[u8]) -> Option<u64>
    ensures { result ≡ time_said (heard_on pid section.now) }
{
    if pid.get() != TIME_PID {
        return None;
    }
    let Some(time) = time_of(section) else {
        return None;
    };
    Some(time.seconds())
}

/// The time that a TDT or a TOT tells.
fn time_of(section: &[u8]) -> Option<Utc>
    ensures { option_map time_view result ≡ time_in section.now }
{
    if let Some(tdt) = Tdt::read(section) {
        return Some(tdt.time);
    }
    match Tot::read(section) {
        Some(tot) => Some(tot.time),
        None => None,
    }
}
