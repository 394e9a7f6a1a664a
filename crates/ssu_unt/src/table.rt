//! Update Notification Table: ETSI TS 102 006, 9.4. table_id 0x4B, the long form.

ghost use Rattle.std.specs.Prelude.{◌≡◌, Some, IfSome};
ghost use Rattle.std.specs.Option.{option_map};
ghost use Rattle.wire.specs.Items.{items_of};
ghost use Rattle.wire.specs.Read.{Reads};
ghost use Rattle.ssu_unt.specs.Table.{UntFields, body, platform, unt};
ghost use Rattle.ssu_unt.specs.Views.{unt_view};

use crate::rows::Platforms;
use section_form::long;
use si_desc::row_at;
use ssu_compat::Oui;
use wire::{Items, u8_at, u24_at};

/// A section of an Update Notification Table.
#[derive(Drop)]
pub struct Unt<'a> {
    /// action_type: 1 is a system software update.
    pub action: u8,
    pub oui: Oui,
    /// processing_order.
    pub order: u8,
    /// section_number.
    pub number: u8,
    /// last_section_number.
    pub last: u8,
    /// The common loop, a row of descriptors.
    pub common: &'a [u8],
    platforms: Platforms<'a>,
}

impl<'a> Unt<'a> {
    /// The table that the section is: None exactly where it is no section of such a table.
    pub fn read(section: &'a [u8]) -> Option<Unt<'a>>
        ensures reads { Reads unt_view result (unt.of section.now) }
        // What is answered is spelled so.
        ensures found { IfSome result (λ u. unt.Spells (unt_view u) section.now) }
        // What is spelled so is answered.
        ensures only { (u : UntFields) → unt.Spells u section.now
            → option_map unt_view result ≡ Some u }
    {
        unt_in(section)
    }

    /// The platforms, in order.
    pub fn platforms(&self) -> Platforms<'a>
        ensures { items_of platform result ≡ (unt_view self.now).platforms }
    {
        self.platforms.again()
    }
}

#[tactic(auto, unfolding(crate::specs::Table::unt))]
fn unt_in(section: &[u8]) -> Option<Unt<'_>>
    ensures { Reads unt_view result (unt.of section.now) }
{
    let head = long(section)?;
    if head.table != 0x4B {
        return None;
    }
    let Some(body) = body_in(head.body) else {
        return None;
    };
    Some(Unt {
        action: (head.extension / 256) as u8,
        oui: body.oui,
        order: body.order,
        number: head.number,
        last: head.last,
        common: body.common,
        platforms: body.platforms,
    })
}

#[derive(Drop)]
struct Body<'a> {
    oui: Oui,
    order: u8,
    common: &'a [u8],
    platforms: Platforms<'a>,
}

#[tactic(auto, unfolding(crate::specs::Table::body))]
fn body_in(bytes: &[u8]) -> Option<Body<'_>>
    ensures { Reads (λ b. (b.oui, (b.order, (b.common.now, items_of platform b.platforms)))) result (body.of bytes.now) }
{
    let (oui, rest) = u24_at(bytes)?;
    let (order, rest) = u8_at(rest)?;
    let (common, rest) = row_at(rest)?;
    let oui = Oui::new(oui)?;
    Some(Body {
        oui,
        order,
        common,
        platforms: Items::to_end(rest)?,
    })
}
