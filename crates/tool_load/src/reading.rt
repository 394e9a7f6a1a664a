//! What `load` reads out of one section: ISO/IEC 13818-6, 7.3; ETSI EN 301 192, 8.1.

ghost use Rattle.std.specs.Prelude.{◌≡◌, None, Some, MatchOption, IfSome};
ghost use Rattle.std.specs.Option.{option_map};
ghost use Rattle.dsmcc_msg.specs.Control.{DiiFields, dsi, dii};
ghost use Rattle.dsmcc_msg.specs.Block.{ddb};
ghost use Rattle.dsmcc_msg.specs.View.{ddb_view};
ghost use Rattle.section_form.specs.Section.{IsRight};
ghost use Rattle.ssu_group.specs.Lays.{IsPlanOf};
ghost use Rattle.tool_load.specs.Growing.{Carries};
ghost use Rattle.tool_load.specs.Load.{group_in as group_of_section, dii_in, usable_for};

use dsmcc_msg::{Ddb, Dii, Dsi};
use ssu_answer::BANK_LEN;
use ssu_group::GroupPlan;

/// The DSI that the section is.
fn dsi_of(section: &[u8]) -> Option<Dsi<'_>>
    ensures { result ≡ dsi.of section.now }
{
    Dsi::read(section)
}

/// The DII that the section is.
fn dii_of(section: &[u8]) -> Option<Dii<'_>>
    ensures { result ≡ dii.of section.now }
{
    Dii::read(section)
}

/// The DDB that a right section is.
pub(crate) fn ddb_of(section: &[u8]) -> Option<Ddb<'_>>
    requires { IsRight section.now }
    ensures reads { option_map ddb_view result ≡ ddb.of section.now }
    ensures carried { IfSome result (λ d. Carries section.now d.bytes.now) }
{
    Ddb::read_right(section)
}

/// The first group of the section, if it is a DSI that has one.
#[tactic(auto, unfolding(crate::specs::Load::group_in))]
pub(crate) fn group_in(section: &[u8]) -> Option<u32>
    ensures { result ≡ group_of_section section.now }
{
    let dsi = dsi_of(section)?;
    let group = dsi.groups().next()?;
    Some(group.id)
}

/// The plan of the group, if this is a DII of it that can be used.
#[inline]
fn plan_of(group: u32, dii: &Dii<'_>) -> Option<GroupPlan>
    ensures { MatchOption result (usable_for group dii.now ≡ None)
        (λ plan. (usable_for group dii.now ≡ Some dii.now) × IsPlanOf dii.now plan) }
{
    if dii.transaction != group {
        return None;
    }
    match GroupPlan::of(dii, BANK_LEN) {
        Ok(plan) => Some(plan),
        Err(_) => None,
    }
}

/// The plan of the group, if the section is a DII of it that can be used.
#[inline]
#[tactic(auto, unfolding(crate::specs::Load::dii_in))]
pub(crate) fn plan_in(group: u32, section: &[u8]) -> Option<GroupPlan>
    ensures { MatchOption result (dii_in group section.now ≡ None)
        (λ plan. (d : DiiFields) × (dii_in group section.now ≡ Some d) × IsPlanOf d plan) }
{
    match dii_of(section) {
        Some(dii) => plan_of(group, &dii),
        None => None,
    }
}
