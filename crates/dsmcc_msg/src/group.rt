//! A group of a DSI: ETSI EN 301 192, 8.1.

use crate::fields::sized16_at;
use ssu_compat::{Compat, compat_at};
use wire::{Item, Items, u32_at};

/// The groups of a DSI, in its order.
pub type Groups<'a> = Items<'a, Group<'a>>;

/// A group: GroupId, which is the transaction id of its DII; GroupSize, in bytes; whom it is for and what it offers;
/// and its private descriptors.
#[derive(Drop)]
pub struct Group<'a> {
    pub id: u32,
    pub size: u32,
    pub compat: Compat<'a>,
    pub info: &'a [u8],
}

impl<'a> Item<'a> for Group<'a> {
    ghost use Rattle.dsmcc_msg.specs.Control.{GroupFields, group_entry};
    ghost use Rattle.dsmcc_msg.specs.Exact.{group_entry_exact};

    ghost Seen = { GroupFields };

    ghost format = { group_entry };

    ghost exact = { group_entry_exact };

    ghost view = { λ g. record { id = g.id; size = g.size; compat = g.compat; info = g.info.now } };

    #[tactic(auto, unfolding(crate::specs::Control::group_entry))]
    fn at(bytes: &'a [u8]) -> Option<(Self, &'a [u8])> {
        let (id, rest) = u32_at(bytes)?;
        let (size, rest) = u32_at(rest)?;
        let (compat, rest) = compat_at(rest)?;
        let (info, behind) = sized16_at(rest)?;
        Some((
            Group {
                id,
                size,
                compat,
                info,
            },
            behind,
        ))
    }
}
