//! NIT and BAT: ETSI EN 300 468, 5.2.1 and 5.2.2.
ghost use Rattle.std.specs.Prelude.{◌≡◌, ◌⊎◌, ◌++◌, IfOk, OnOk, Option};
ghost use Rattle.std.specs.List.{All};
ghost use Rattle.si_desc.specs.Written.{linkage_bytes};
ghost use Rattle.si_table.specs.Written.{net_bytes};
ghost use Rattle.head_carousel.specs.Signals.{bats, networks};
ghost use Rattle.head_carousel.specs.WellMade.{IsReady, IsWellMade};

use crate::listing::{add, pid_of, wanting};
use head_plan::Plan;
use si_desc::{ServiceRef, put_linkage};
use si_table::write_net;
use ssu_compat::Oui;
use ssu_io::NoMemory;
use std::alloc::Global;
use ts_section::Timed;

/// Adds the NIT, and with a bouquet the BAT.
#[tactic(auto, unfolding(crate::specs::Signals::networks))]
pub(crate) fn add_networks(
    alloc: Global,
    plan: &Plan,
    list: &mut Vec<Timed>,
) -> Result<(), NoMemory>
    ensures added { OnOk result (list.new.items ≡ list.old.items ++ networks plan.now) }
    ensures ready { All IsReady list.old.items → OnOk result (All IsReady list.new.items) }
{
    let section = net_section(alloc, 0x40, plan.network, service_of(plan), plan.oui)?;
    add(list, pid_of(0x0010), plan.signal_period, section)?;
    add_bat(alloc, plan, plan.bouquet, list)
}

fn add_bat(
    alloc: Global,
    plan: &Plan,
    bouquet: Option<u16>,
    list: &mut Vec<Timed>,
) -> Result<(), NoMemory>
    ensures added { OnOk result (list.new.items ≡ list.old.items ++ bats plan.now bouquet) }
    ensures ready { All IsReady list.old.items → OnOk result (All IsReady list.new.items) }
{
    let Some(id) = bouquet else {
        return Ok(());
    };
    let section = net_section(alloc, 0x4A, id, service_of(plan), plan.oui)?;
    add(list, pid_of(0x0011), plan.signal_period, section)
}

/// The service that carries the update.
fn service_of(plan: &Plan) -> ServiceRef
    ensures { result ≡ record { ts = plan.now.ts; network = plan.now.network; service = plan.now.service } }
{
    ServiceRef {
        ts: plan.ts,
        network: plan.network,
        service: plan.service,
    }
}

/// A NIT or BAT with a linkage to the service, and one entry, which has no descriptors.
fn net_section(
    alloc: Global,
    table: u8,
    id: u16,
    to: ServiceRef,
    oui: Oui,
) -> Result<Vec<u8>, NoMemory>
    requires table { (table ≡ 0x40) ⊎ (table ≡ 0x4A) }
    ensures made { IfOk result (λ s. s.items ≡ net_bytes table id (linkage_bytes to oui) to.ts to.network) }
    ensures right { IfOk result (λ s. IsWellMade s.items) }
{
    let mut row = Vec::new(alloc);
    put_linkage(&mut row, to, oui)?;
    match write_net(alloc, table, id, &row, to.ts, to.network) {
        Ok(section) => Ok(section),
        Err(fault) => Err(wanting(fault)),
    }
}
