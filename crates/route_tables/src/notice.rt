//! Level 4, the notice: what the notification table of the component says for the box. ETSI TS 102 006, 9.4.

ghost use Rattle.std.specs.Prelude.{◌≡◌, map};
ghost use Rattle.std.specs.Option.{option_map};
ghost use Rattle.wire.specs.Read.{Reads};
ghost use Rattle.ssu_unt.specs.Views.{entry_view, me_view, unt_view};
ghost use Rattle.route_tables.specs.Next.{first_notice, heard_on, next_notice, notice_after, notice_again, unt_in};
ghost use Rattle.route_tables.specs.Standing.{component_view, notice_view};

use crate::component::Component;
use arrayvec::ArrayVec;
use ssu_compat::{BoxId, Oui};
use ssu_unt::{Unt, UntEntry};
use ts_packet::Pid;

/// action_type of a system software update
const UPDATE: u8 = 1;

/// The entries for a box.
pub(crate) type Entries = ArrayVec<UntEntry, 32>;

/// The section number that was fixed, and the entries for the box in the last section of that number.
#[derive(Drop)]
pub(crate) struct Notice {
    pub(crate) number: u8,
    pub(crate) entries: Entries,
}

/// Takes up what a section says of the notice. Where the component changed, there is none.
pub(crate) fn hear(
    notice: &mut Option<Notice>,
    is_same_below: bool,
    id: &BoxId,
    component: &Option<Component>,
    pid: Pid,
    section: &[u8],
)
    ensures { option_map notice_view notice.new
        ≡ notice_after is_same_below id.now (option_map component_view component.now) (heard_on pid section.now)
        (option_map notice_view notice.old) }
{
    if !is_same_below {
        *notice = None;
        return;
    }
    let Some(unt) = unt_on(id.oui, component, pid, section) else {
        return;
    };
    take_up(notice, id, &unt);
}

/// The notification table in a section, where the component has one, it was heard on the component's PID, and it tells
/// of software updates for the OUI.
fn unt_on<'a>(
    oui: Oui,
    component: &Option<Component>,
    pid: Pid,
    section: &'a [u8],
) -> Option<Unt<'a>>
    ensures { Reads unt_view result (unt_in oui (option_map component_view component.now) (heard_on pid section.now)) }
{
    let Some(component) = component else {
        return None;
    };
    if !component.has_notice() || pid.get() != component.pid.get() {
        return None;
    }
    let Some(unt) = Unt::read(section) else {
        return None;
    };
    if unt.action == UPDATE && unt.oui == oui {
        Some(unt)
    } else {
        None
    }
}

/// The first table with an entry for the box fixes the section number, and the last of that number counts.
fn take_up(notice: &mut Option<Notice>, id: &BoxId, unt: &Unt<'_>)
    ensures { option_map notice_view notice.new ≡ next_notice (me_view id.now) (Some (unt_view unt.now)) (option_map notice_view notice.old) }
{
    match notice {
        Some(fixed) => again(fixed, id, unt),
        None => *notice = first_of(unt.number, unt.targeted(id)),
    }
}

fn again(fixed: &mut Notice, id: &BoxId, unt: &Unt<'_>)
    ensures { notice_view fixed.new ≡ notice_again (me_view id.now) (unt_view unt.now) (notice_view fixed.old) }
{
    if unt.number == fixed.number {
        fixed.entries = unt.targeted(id);
    }
}

fn first_of(number: u8, entries: Entries) -> Option<Notice>
    ensures { option_map notice_view result ≡ first_notice number (map entry_view entries.items) }
{
    if entries.is_empty() {
        return None;
    }
    Some(Notice { number, entries })
}
