//! Level 1, the linkage: the services that carry updates. ETSI EN 300 468, 6.2.19; ETSI TS 102 006, 6.1.

ghost use Rattle.std.specs.Prelude.{◌≡◌, map};
ghost use Rattle.std.specs.List.{list_any};
ghost use Rattle.std.specs.Option.{option_map, option_and_then};
ghost use Rattle.si_desc.specs.Linkage.{linkage, update_ouis};
ghost use Rattle.si_desc.specs.Views.{desc_view};
ghost use Rattle.route_tables.specs.Values.{same_service, same_services};
ghost use Rattle.route_tables.specs.Said.{lists_oui as lists_in, linked_service, linked_services};
ghost use Rattle.route_tables.specs.Next.{add_linked as with_linked, add_service, add_services, heard_on, loop_in, services_after};
ghost use Rattle.route_tables.specs.Levels.{linked_by};
ghost use Rattle.route_tables.specs.Standing.{service_view};

use arrayvec::ArrayVec;
use si_desc::{Desc, DescRow, ServiceRef, lists_oui, read_linkage};
use si_table::Net;
use ssu_compat::Oui;
use ts_packet::Pid;
use wire::Items;

/// table_id of the NIT of the actual network
const NIT: u8 = 0x40;
/// the PID of the NIT
pub(crate) const NIT_PID: u16 = 0x0010;
/// table_id of a BAT
const BAT: u8 = 0x4A;
/// the PID of the BAT
pub(crate) const BAT_PID: u16 = 0x0011;
/// linkage descriptor
const LINKAGE: u8 = 0x4A;
/// linkage_type of a system software update
const UPDATE: u8 = 0x09;

/// A service that carries updates.
#[derive(Clone, Copy, Default)]
pub(crate) struct Service {
    pub(crate) ts: u16,
    pub(crate) network: u16,
    pub(crate) service: u16,
}

impl Service {
    pub(crate) fn of(service: ServiceRef) -> Service
        ensures { service_view result ≡ service }
    {
        Service {
            ts: service.ts,
            network: service.network,
            service: service.service,
        }
    }
}

/// The services that carry updates, each once, in order of first hearing. The limit is the project's own.
pub(crate) type Services = ArrayVec<Service, 16>;

/// Takes up the services that a section names, unless one is configured, and tells whether they stayed the same.
pub(crate) fn hear(
    services: &mut Services,
    configured: &Option<ServiceRef>,
    oui: Oui,
    pid: Pid,
    section: &[u8],
) -> bool
    ensures services { map service_view services.new.items
        ≡ services_after configured.now oui (heard_on pid section.now) (map service_view services.old.items) }
    ensures same { result ≡ same_services (map service_view services.new.items) (map service_view services.old.items) }
{
    let before = services.len();
    take_up(services, configured, oui, pid, section);
    services.len() == before
}

/// Takes up the services that a section names, unless one is configured.
fn take_up(
    services: &mut Services,
    configured: &Option<ServiceRef>,
    oui: Oui,
    pid: Pid,
    section: &[u8],
)
    ensures { map service_view services.new.items
        ≡ services_after configured.now oui (heard_on pid section.now) (map service_view services.old.items) }
{
    if configured.is_some() {
        return;
    }
    let Some(row) = loop_on(pid, section) else {
        return;
    };
    add_linked(services, oui, row);
}

/// The first loop of a NIT or a BAT on its PID.
fn loop_on(pid: Pid, section: &[u8]) -> Option<&[u8]>
    ensures { option_map (λ row. row.now) result ≡ loop_in (heard_on pid section.now) }
{
    let number = pid.get();
    if number != NIT_PID && number != BAT_PID {
        return None;
    }
    let Some(net) = Net::read(section) else {
        return None;
    };
    if number == NIT_PID && net.table == NIT || number == BAT_PID && net.table == BAT {
        Some(net.info)
    } else {
        None
    }
}

/// Takes up the services to which the linkages of a loop lead.
fn add_linked(services: &mut Services, oui: Oui, row: &[u8])
    ensures { map service_view services.new.items ≡ add_services (map service_view services.old.items) (linked_services oui row.now) }
{
    let descs: DescRow<'_> = Items::new(row);
    for desc in descs {
        if let Some(service) = linked(&desc, oui) {
            add(services, service);
        }
    }
}

/// The service to which a linkage for the OUI leads.
fn linked(desc: &Desc<'_>, oui: Oui) -> Option<Service>
    ensures { option_map service_view result ≡ linked_by oui (desc_view desc.now) }
{
    if desc.tag != LINKAGE {
        return None;
    }
    let link = read_linkage(desc.body)?;
    if link.kind == UPDATE && lists(link.rest, oui) {
        Some(Service::of(link.to))
    } else {
        None
    }
}

/// Whether the rest of a linkage lists the OUI.
fn lists(rest: &[u8], oui: Oui) -> bool
    ensures { result ≡ lists_in oui (update_ouis.of rest.now) }
{
    match lists_oui(rest, oui) {
        Some(listed) => listed,
        None => false,
    }
}

/// Takes up a service, unless it is there or there is no room.
fn add(services: &mut Services, service: Service)
    ensures { map service_view services.new.items ≡ add_service (map service_view services.old.items) (service_view service) }
{
    if services.is_full() || has(services.as_slice(), service) {
        return;
    }
    services.push(service);
}

fn has(services: &[Service], service: Service) -> bool
    ensures { result ≡ list_any (same_service (service_view service)) (map service_view services.now) }
{
    for other in services {
        if is_same(service, *other) {
            return true;
        }
    }
    false
}

pub(crate) fn is_same(service: Service, other: Service) -> bool
    ensures { result ≡ same_service (service_view service) (service_view other) }
{
    service.ts == other.ts && service.network == other.network && service.service == other.service
}
