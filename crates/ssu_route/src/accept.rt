//! Which groups of a carousel a box accepts: ETSI EN 301 192, 8.1; ETSI TS 102 006, 9.5.2.

ghost use Rattle.std.specs.Prelude.{◌≡◌, ◌≤◌, ◌++◌, ◌∷◌, [], length, map, take, Some};
ghost use Rattle.std.specs.Option.{option_map};
ghost use Rattle.si_desc.specs.Views.{desc_view};
ghost use Rattle.dsmcc_msg.specs.Control.{dsi};
ghost use Rattle.ssu_route.specs.Kept.{accepted_in, found_items, group_view, is_accepted_by, afresh};
ghost use Rattle.ssu_route.specs.Offers.{carries_subgroup, is_subgroup as names_subgroup};

use crate::found::{Found, FoundGroups};
use arrayvec::ArrayVec;
use dsmcc_msg::{Dsi, Group};
use si_desc::{Desc, DescRow, subgroup as subgroup_of};
use ssu_compat::{BoxId, Rule, SwId, admits};
use wire::Items;

/// ssu_subgroup_association descriptor
const SUBGROUP: u8 = 0x0B;

/// What of a box decides whether it accepts a group, and whether it can use one.
#[derive(Drop)]
pub(crate) struct Terms {
    /// The hardware of the box. Its addresses play no part here.
    pub(crate) id: BoxId,
    /// Which offered software is accepted.
    pub(crate) rule: Rule,
    /// The most bytes that an image may have.
    pub(crate) bank_len: u32,
}

/// Does the descriptor name this subgroup?
fn is_subgroup(desc: &Desc<'_>, subgroup: u64) -> bool
    ensures { result ≡ names_subgroup subgroup (desc_view desc.now) }
{
    if desc.tag != SUBGROUP {
        return false;
    }
    match subgroup_of(desc.body) {
        Some(number) => number == subgroup,
        None => false,
    }
}

/// Is the group of the subgroup?
fn is_of_subgroup(group: &Group<'_>, subgroup: u64) -> bool
    ensures { result ≡ carries_subgroup (Some subgroup) (group_view group.now) }
{
    let descs: DescRow<'_> = Items::new(group.info);
    for desc in descs {
        if is_subgroup(&desc, subgroup) {
            return true;
        }
    }
    false
}

/// Is the group of the subgroup, if one is looked for?
fn carries(group: &Group<'_>, subgroup: Option<u64>) -> bool
    ensures { result ≡ carries_subgroup subgroup (group_view group.now) }
{
    match subgroup {
        Some(subgroup) => is_of_subgroup(group, subgroup),
        None => true,
    }
}

/// Does the box accept the group over the software that runs?
fn is_accepted(terms: &Terms, running: SwId, subgroup: Option<u64>, group: &Group<'_>) -> bool
    ensures { result ≡ is_accepted_by terms.now running subgroup (group_view group.now) }
{
    group.compat.matches(&terms.id)
        && admits(terms.rule, running, group.compat.offered(terms.id.oui))
        && carries(group, subgroup)
}

fn add(found: &mut FoundGroups, group: Found)
    requires { length found.old.items ≤ 32 }
    ensures groups { found.new.items ≡ take 32 (found.old.items ++ group ∷ []) }
    ensures fit { length found.new.items ≤ 32 }
{
    if found.is_full() {
        return;
    }
    found.push(group);
}

/// The first 32 groups of the DSI that the box accepts.
fn accepted(terms: &Terms, running: SwId, subgroup: Option<u64>, dsi: &Dsi<'_>) -> FoundGroups
    ensures { result.items ≡ map afresh (accepted_in terms.now running subgroup dsi.now) }
{
    let mut found = ArrayVec::new();
    for group in dsi.groups() {
        if is_accepted(terms, running, subgroup, &group) {
            let software = group.compat.offered(terms.id.oui);
            add(
                &mut found,
                Found {
                    group: group.id,
                    software,
                    usable: true,
                },
            );
        }
    }
    found
}

/// The DSI that the section is.
fn dsi_of(section: &[u8]) -> Option<Dsi<'_>>
    ensures { result ≡ dsi.of section.now }
{
    Dsi::read(section)
}

/// The first 32 groups that the box accepts, where the section is a DSI.
pub(crate) fn groups_in(
    terms: &Terms,
    running: SwId,
    subgroup: Option<u64>,
    section: &[u8],
) -> Option<FoundGroups>
    ensures { option_map found_items result
        ≡ option_map (λ d. map afresh (accepted_in terms.now running subgroup d)) (dsi.of section.now) }
{
    match dsi_of(section) {
        Some(dsi) => Some(accepted(terms, running, subgroup, &dsi)),
        None => None,
    }
}
