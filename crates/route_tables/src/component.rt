//! Level 3, the component: the stream of the program that tells of an update. ISO/IEC 13818-1, 2.4.4.8; ETSI EN 300 468,
//! 6.2.12 and 6.2.39; ETSI TS 102 006, 7.1.

ghost use Rattle.std.specs.Prelude.{◌≡◌, ◌≤◌, length, map, IfSome};
ghost use Rattle.std.specs.List.{filter_map, find};
ghost use Rattle.std.specs.Option.{option_map};
ghost use Rattle.wire.specs.Items.{items_of};
ghost use Rattle.wire.specs.Read.{Reads};
ghost use Rattle.si_desc.specs.SsuInfo.{info};
ghost use Rattle.si_desc.specs.Views.{desc_view};
ghost use Rattle.si_table.specs.Tables.{stream};
ghost use Rattle.si_table.specs.Views.{pmt_view, stream_view};
ghost use Rattle.route_tables.specs.Values.{same_component, same_component_found, same_list, same_stream};
ghost use Rattle.route_tables.specs.Said.{component_in_pmt, component_of, component_tag_of, first_some, tagged_stream, update_type_of};
ghost use Rattle.route_tables.specs.Levels.{has_notice, first_type_of, type_by};
ghost use Rattle.route_tables.specs.Next.{component_after, decided, heard_on, pmt_in};
ghost use Rattle.route_tables.specs.Standing.{component_view, program_view, tagged_view};

use crate::program::Program;
use arrayvec::ArrayVec;
use si_desc::{Desc, DescRow, InfoRow, component_tag, first, ssu_infos};
use si_table::{Pmt, Stream};
use ssu_compat::Oui;
use ts_packet::Pid;
use wire::Items;

/// data broadcast id descriptor
const DATA_BROADCAST_ID: u8 = 0x66;
/// stream identifier descriptor
const STREAM_IDENTIFIER: u8 = 0x52;
/// update type of a carousel with a notification table
const WITH_NOTICE: u8 = 2;

/// A stream with a component tag.
#[derive(Clone, Copy, Default)]
pub(crate) struct Tagged {
    pub(crate) tag: u8,
    pub(crate) pid: Pid,
}

/// The streams with a component tag, in the order of the PMT. A PMT has at most 1,008 bytes of streams, and each stream
/// takes five or more.
pub(crate) type TaggedStreams = ArrayVec<Tagged, 201>;

/// The stream that tells of an update, and all streams of its program with a component tag.
#[derive(Drop)]
pub(crate) struct Component {
    pub(crate) pid: Pid,
    /// 1 is a carousel without a notification table, 2 one with a table.
    pub(crate) update_type: u8,
    pub(crate) tagged: TaggedStreams,
}

impl Component {
    /// Whether it has a notification table.
    pub(crate) fn has_notice(&self) -> bool
        ensures { result ≡ has_notice (component_view self.now) }
    {
        self.update_type == WITH_NOTICE
    }
}

/// Takes up what a section decides of the component, and tells whether it stayed the same. Where the program changed,
/// there is none.
pub(crate) fn hear(
    component: &mut Option<Component>,
    is_same_below: bool,
    oui: Oui,
    program: &Option<Program>,
    pid: Pid,
    section: &[u8],
) -> bool
    ensures component { option_map component_view component.new
        ≡ component_after is_same_below oui (option_map program_view program.now) (heard_on pid section.now)
        (option_map component_view component.old) }
    ensures same { result ≡ same_component (option_map component_view component.new) (option_map component_view component.old) }
{
    if !is_same_below {
        return put(component, None);
    }
    match decided_by(oui, program, pid, section) {
        Some(next) => put(component, next),
        None => true,
    }
}

/// Puts a component in the place of another, and tells whether it is the same.
fn put(component: &mut Option<Component>, next: Option<Component>) -> bool
    ensures component { component.new ≡ next }
    ensures same { result ≡ same_component (option_map component_view next) (option_map component_view component.old) }
{
    let is_same = is_same_component(&next, component);
    *component = next;
    is_same
}

/// What a section decides of the program's component, if anything.
fn decided_by(
    oui: Oui,
    program: &Option<Program>,
    pid: Pid,
    section: &[u8],
) -> Option<Option<Component>>
    ensures { option_map (λ c. option_map component_view c) result
        ≡ decided oui (option_map program_view program.now) (heard_on pid section.now) }
{
    let Some(program) = program else {
        return None;
    };
    let Some(pmt) = pmt_on(program.pid, pid, section) else {
        return None;
    };
    if pmt.program != program.service.service {
        return None;
    }
    Some(component_in(oui, &pmt))
}

/// The PMT in a section that was heard on its PID.
fn pmt_on(wanted: Pid, pid: Pid, section: &[u8]) -> Option<Pmt<'_>>
    ensures reads { Reads pmt_view result (pmt_in wanted (heard_on pid section.now)) }
    ensures short { IfSome result (λ p. length (filter_map tagged_stream (pmt_view p).streams) ≤ 201) }
{
    if pid.get() != wanted.get() {
        return None;
    }
    Pmt::read(section)
}

/// The first stream that tells of an update for the OUI.
#[tactic(auto, unfolding(crate::specs::Said::first_some))]
fn component_in(oui: Oui, pmt: &Pmt<'_>) -> Option<Component>
    requires { length (filter_map tagged_stream (pmt_view pmt.now).streams) ≤ 201 }
    ensures { option_map component_view result ≡ first_some (component_of oui (pmt_view pmt.now)) (pmt_view pmt.now).streams }
{
    for stream in pmt.streams() {
        if let Some(update_type) = update_type(oui, stream.info) {
            return Some(Component {
                pid: stream.pid,
                update_type,
                tagged: tagged_in(pmt),
            });
        }
    }
    None
}

/// All streams with a component tag.
fn tagged_in(pmt: &Pmt<'_>) -> TaggedStreams
    requires { length (filter_map tagged_stream (pmt_view pmt.now).streams) ≤ 201 }
    ensures { map tagged_view result.items ≡ filter_map tagged_stream (pmt_view pmt.now).streams }
{
    let mut streams = ArrayVec::new();
    for stream in pmt.streams() {
        if let Some(tagged) = with_tag(&stream) {
            streams.push(tagged);
        }
    }
    streams
}

/// The stream, where it has a component tag.
fn with_tag(stream: &Stream<'_>) -> Option<Tagged>
    ensures { option_map tagged_view result ≡ tagged_stream (stream_view stream.now) }
{
    let tag = component_tag_in(stream.info)?;
    Some(Tagged {
        tag,
        pid: stream.pid,
    })
}

/// The component tag of the first stream identifier descriptor in a row.
#[tactic(auto, unfolding(crate::specs::Said::component_tag_of))]
fn component_tag_in(row: &[u8]) -> Option<u8>
    ensures { result ≡ component_tag_of row.now }
{
    let body = first(row, STREAM_IDENTIFIER)?;
    component_tag(body)
}

/// The update type of the first entry for the OUI in a row.
fn update_type(oui: Oui, row: &[u8]) -> Option<u8>
    ensures { result ≡ update_type_of oui row.now }
{
    let descs: DescRow<'_> = Items::new(row);
    for desc in descs {
        if let Some(update_type) = type_by_desc(oui, &desc) {
            return Some(update_type);
        }
    }
    None
}

/// The update type of the first entry for the OUI, where the descriptor is a data broadcast id descriptor.
fn type_by_desc(oui: Oui, desc: &Desc<'_>) -> Option<u8>
    ensures { result ≡ type_by oui (desc_view desc.now) }
{
    if desc.tag != DATA_BROADCAST_ID {
        return None;
    }
    let infos = ssu_infos(desc.body)?;
    first_type(oui, infos)
}

fn first_type(oui: Oui, infos: InfoRow<'_>) -> Option<u8>
    ensures { result ≡ first_type_of oui (items_of info infos.entry) }
{
    for info in infos {
        if info.oui == oui && (info.update_type == 1 || info.update_type == 2) {
            return Some(info.update_type);
        }
    }
    None
}

#[tactic(auto, unfolding(crate::specs::Values::same_option))]
fn is_same_component(component: &Option<Component>, other: &Option<Component>) -> bool
    ensures { result ≡ same_component (option_map component_view component.now) (option_map component_view other.now) }
{
    match (component, other) {
        (Some(component), Some(other)) => is_same_found(component, other),
        (None, None) => true,
        _ => false,
    }
}

fn is_same_found(component: &Component, other: &Component) -> bool
    ensures { result ≡ same_component_found (component_view component.now) (component_view other.now) }
{
    component.pid.get() == other.pid.get()
        && component.update_type == other.update_type
        && are_same_streams(component.tagged.as_slice(), other.tagged.as_slice())
}

#[tactic(auto, unfolding(crate::specs::Values::same_list))]
fn are_same_streams(streams: &[Tagged], others: &[Tagged]) -> bool
    ensures { result ≡ same_list same_stream (map tagged_view streams.now) (map tagged_view others.now) }
{
    if streams.len() != others.len() {
        return false;
    }
    for i in 0..streams.len() {
        if streams[i].tag != others[i].tag || streams[i].pid.get() != others[i].pid.get() {
            return false;
        }
    }
    true
}
