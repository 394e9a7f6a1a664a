//! A group of the carousel that the box accepts.

ghost use Rattle.std.specs.Prelude.{◌≡◌, map};
ghost use Rattle.std.specs.List.{list_any};
ghost use Rattle.ssu_route.specs.Kept.{first_usable, has_group, mark_if, offers_of, seen_offer};
ghost use Rattle.route_tables.specs.Values.{same_option};
ghost use Rattle.ssu_route.specs.Offers.{same_offer, same_offers, same_software};
ghost use Rattle.ssu_route.specs.Route.{is_first};
ghost use Rattle.ssu_route.specs.Windows.{offered_by};

use arrayvec::ArrayVec;
use ssu_compat::SwId;

/// A group that the box accepts, and what its last DII said to that.
#[derive(Clone, Copy, Debug, Default)]
pub(crate) struct Found {
    /// The id of the group.
    pub(crate) group: u32,
    /// The software that it offers, if it names one.
    pub(crate) software: Option<SwId>,
    /// Whether the box could use its last DII. A group of which none was heard counts as usable.
    pub(crate) usable: bool,
}

/// The groups that the box accepts, at most 32.
pub(crate) type FoundGroups = ArrayVec<Found, 32>;

/// The group that the box wants: the first that is usable.
#[tactic(auto, unfolding(crate::specs::Kept::first_usable))]
pub(crate) fn wanted(groups: &[Found]) -> Option<u32>
    ensures { result ≡ first_usable groups.now }
{
    for found in groups {
        if found.usable {
            return Some(found.group);
        }
    }
    None
}

/// Is it the group that the box wants?
pub(crate) fn is_wanted(groups: &[Found], group: u32) -> bool
    ensures { result ≡ is_first group groups.now }
{
    match wanted(groups) {
        Some(first) => first == group,
        None => false,
    }
}

/// Is the group among them?
pub(crate) fn lists(groups: &[Found], group: u32) -> bool
    ensures { result ≡ list_any (has_group group) groups.now }
{
    groups.iter().any(|found| found.group == group)
}

/// The software that the group offers: that of the first entry with its id, or else model 0 and version 0.
#[tactic(auto, unfolding(crate::specs::Windows::offered_by))]
pub(crate) fn software_of(groups: &[Found], group: u32) -> SwId
    ensures { result ≡ offered_by group (offers_of groups.now) }
{
    for found in groups {
        if found.group == group {
            return found.software.unwrap_or(SwId {
                model: 0,
                version: 0,
            });
        }
    }
    SwId {
        model: 0,
        version: 0,
    }
}

fn marked(found: Found, group: u32, usable: bool) -> Found
    ensures { result ≡ mark_if group usable found }
{
    if found.group == group {
        Found { usable, ..found }
    } else {
        found
    }
}

/// Says of each entry with this id whether the group is usable.
pub(crate) fn mark(groups: &mut FoundGroups, group: u32, usable: bool)
    ensures { groups.new.items ≡ map (mark_if group usable) groups.old.items }
{
    for found in groups.iter_mut() {
        *found = marked(*found, group, usable);
    }
}

fn is_same_software(one: Option<SwId>, other: Option<SwId>) -> bool
    ensures { result ≡ same_option same_software one other }
{
    match one {
        None => match other {
            None => true,
            Some(_) => false,
        },
        Some(one) => match other {
            None => false,
            Some(other) => one.model == other.model && one.version == other.version,
        },
    }
}

fn is_same(one: &Found, other: &Found) -> bool
    ensures { result ≡ same_offer (seen_offer one.now) (seen_offer other.now) }
{
    one.group == other.group && is_same_software(one.software, other.software)
}

/// Have they the same ids and software, in the same order?
pub(crate) fn are_same(one: &[Found], other: &[Found]) -> bool
    ensures { result ≡ same_offers (offers_of one.now) (offers_of other.now) }
{
    if one.len() != other.len() {
        return false;
    }
    for i in 0..one.len() {
        if !is_same(&one[i], &other[i]) {
            return false;
        }
    }
    true
}
