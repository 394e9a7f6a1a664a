//! Which pairs of a table are for a box: ETSI TS 102 006, 9.4 to 9.7.

ghost use Rattle.std.specs.Prelude.{◌≡◌, ◌≤◌, ◌∷◌, [], ◌++◌, length, map, take};
ghost use Rattle.std.specs.Option.{option_map};
ghost use Rattle.si_desc.specs.Descriptors.{whole_descriptors};
ghost use Rattle.ssu_unt.specs.Targeting.{candidate, chosen, counting, entry_of, first_of, is_for as targets_box};
ghost use Rattle.ssu_unt.specs.Targeting.{is_manual as manual_of, names as names_box, pairs_in, subgroup_of};
ghost use Rattle.ssu_unt.specs.Targeting.{tag_of as tag, targeted, targets, windows_of as windows, with_tag};
ghost use Rattle.ssu_unt.specs.Views.{entry_view, me_view, pair_view, platform_view, unt_view};
ghost use Rattle.si_desc.specs.Views.{desc_view};

use crate::descriptors::{location_of, names_mac, update_flag_of, window_of};
use crate::entry::UntEntry;
use crate::rows::{Pair, Platform};
use crate::table::Unt;
use arrayvec::ArrayVec;
use si_desc::{Desc, DescRow, first, subgroup};
use ssu_compat::{BoxId, Compat};
use ssu_time::Window;
use wire::Items;

/// scheduling descriptor
const SCHEDULING: u8 = 0x01;
/// update descriptor
const UPDATE: u8 = 0x02;
/// ssu_location descriptor
const LOCATION: u8 = 0x03;
/// target MAC address descriptor
const TARGET_MAC: u8 = 0x07;
/// target serial number descriptor
const TARGET_SERIAL: u8 = 0x08;
/// ssu_subgroup_association descriptor
const SUBGROUP: u8 = 0x0B;

impl Unt<'_> {
    /// The first 32 pairs, in order, that are for the box: the compatibility of their platform matches
    /// it, their target loop is empty or names it, and their first location leads to a component.
    #[tactic(auto, unfolding(crate::specs::Targeting::targeted))]
    pub fn targeted(&self, me: &BoxId) -> ArrayVec<UntEntry, 32>
        ensures { map entry_view result.items ≡ targeted (me_view me.now) (unt_view self.now) }
    {
        let mut entries = ArrayVec::new();
        for platform in self.platforms() {
            add_platform(&mut entries, me, self.common, &platform);
        }
        entries
    }
}

// The pairs of the platform that are for the box, as far as they have room.
#[tactic(auto, unfolding(crate::specs::Targeting::pairs_in))]
fn add_platform(
    entries: &mut ArrayVec<UntEntry, 32>,
    me: &BoxId,
    common: &[u8],
    platform: &Platform<'_>,
)
    requires { length entries.old.items ≤ 32 }
    ensures entries { map entry_view entries.new.items
        ≡ take 32 (map entry_view entries.old.items
        ++ targets (me_view me.now) common.now (pairs_in (platform_view platform.now))) }
    ensures fit { length entries.new.items ≤ 32 }
{
    for pair in platform.pairs() {
        if let Some(entry) = entry_for(me, common, &platform.compat, &pair) {
            add_entry(entries, entry);
        }
    }
}

fn add_entry(entries: &mut ArrayVec<UntEntry, 32>, entry: UntEntry)
    requires { length entries.old.items ≤ 32 }
    ensures entries { entries.new.items ≡ take 32 (entries.old.items ++ entry ∷ []) }
    ensures fit { length entries.new.items ≤ 32 }
{
    if entries.is_full() {
        return;
    }
    entries.push(entry);
}

// The entry of the pair, if it is for the box.
#[tactic(auto, unfolding(crate::specs::Targeting::is_targeted, crate::specs::Targeting::entry_of))]
fn entry_for(me: &BoxId, common: &[u8], compat: &Compat<'_>, pair: &Pair<'_>) -> Option<UntEntry>
    ensures { option_map entry_view result
        ≡ chosen (me_view me.now) common.now (candidate compat.now (pair_view pair.now)) }
{
    if !compat.matches(me) || !is_for(me, pair.target) {
        return None;
    }
    let tag = tag_of(common, pair.operational)?;
    Some(UntEntry {
        tag,
        windows: windows_of(common, pair.operational),
        manual: is_manual(common, pair.operational),
        subgroup: subgroup_in(common, pair.operational),
    })
}

// The target loop is empty, or one of its descriptors names the box.
fn is_for(me: &BoxId, target: &[u8]) -> bool
    ensures { result ≡ targets_box (me_view me.now) target.now }
{
    if target.is_empty() {
        return true;
    }
    let descs: DescRow<'_> = Items::new(target);
    for desc in descs {
        if names(me, &desc) {
            return true;
        }
    }
    false
}

fn names(me: &BoxId, desc: &Desc<'_>) -> bool
    ensures { result ≡ names_box (me_view me.now) (desc_view desc.now) }
{
    if desc.tag == TARGET_MAC {
        return match &me.mac {
            Some(mac) => names_mac(mac, desc.body),
            None => false,
        };
    }
    if desc.tag == TARGET_SERIAL {
        return match &me.serial {
            Some(serial) => desc.body == serial.as_slice(),
            None => false,
        };
    }
    false
}

// The loop whose descriptors of the tag count: the common one, where the operational one has none.
fn counting_loop<'a>(common: &'a [u8], operational: &'a [u8], tag: u8) -> &'a [u8]
    ensures { with_tag tag result.now ≡ counting tag common.now operational.now }
{
    match first(operational, tag) {
        Some(_) => operational,
        None => common,
    }
}

fn first_counting<'a>(common: &'a [u8], operational: &'a [u8], tag: u8) -> Option<&'a [u8]>
    ensures { option_map (λ body. body.now) result
        ≡ first_of (counting tag common.now operational.now) }
{
    first(counting_loop(common, operational, tag), tag)
}

#[tactic(auto, unfolding(crate::specs::Targeting::tag_of))]
fn tag_of(common: &[u8], operational: &[u8]) -> Option<u8>
    ensures { result ≡ tag common.now operational.now }
{
    let body = first_counting(common, operational, LOCATION)?;
    location_of(body)
}

#[tactic(auto, unfolding(crate::specs::Targeting::is_manual))]
fn is_manual(common: &[u8], operational: &[u8]) -> bool
    ensures { result ≡ manual_of common.now operational.now }
{
    let Some(body) = first_counting(common, operational, UPDATE) else {
        return false;
    };
    match update_flag_of(body) {
        Some(flag) => flag == 0,
        None => false,
    }
}

#[tactic(auto, unfolding(crate::specs::Targeting::windows_of))]
fn windows_of(common: &[u8], operational: &[u8]) -> ArrayVec<Window, 4>
    ensures { result.items ≡ windows common.now operational.now }
{
    let mut windows = ArrayVec::new();
    let descs: DescRow<'_> = Items::new(counting_loop(common, operational, SCHEDULING));
    for desc in descs {
        if desc.tag == SCHEDULING {
            add_window(&mut windows, window_of(desc.body));
        }
    }
    windows
}

fn add_window(windows: &mut ArrayVec<Window, 4>, window: Window)
    requires { length windows.old.items ≤ 4 }
    ensures windows { windows.new.items ≡ take 4 (windows.old.items ++ window ∷ []) }
    ensures fit { length windows.new.items ≤ 4 }
{
    if windows.is_full() {
        return;
    }
    windows.push(window);
}

#[tactic(auto, unfolding(crate::specs::Targeting::subgroup_of))]
fn subgroup_in(common: &[u8], operational: &[u8]) -> Option<u64>
    ensures { result ≡ subgroup_of common.now operational.now }
{
    let descs: DescRow<'_> = Items::new(counting_loop(common, operational, SUBGROUP));
    for desc in descs {
        if desc.tag == SUBGROUP && desc.body.len() == 5 {
            return subgroup(desc.body);
        }
    }
    None
}
