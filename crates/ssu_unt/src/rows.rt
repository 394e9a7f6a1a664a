//! Platforms of a table and their pairs: ETSI TS 102 006, 9.4.

ghost use Rattle.std.specs.Prelude.{◌≡◌};
ghost use Rattle.wire.specs.Items.{items_of};
ghost use Rattle.ssu_unt.specs.Table.{pair as pair_format};
ghost use Rattle.ssu_unt.specs.Views.{platform_view};

use si_desc::row_at;
use ssu_compat::{Compat, compat_at};
use wire::{Item, Items, raw_at, u16_at};

/// The platforms of a table, in its order.
pub type Platforms<'a> = Items<'a, Platform<'a>>;

/// The pairs of a platform, in its order.
pub type Pairs<'a> = Items<'a, Pair<'a>>;

/// The pairs for some boxes.
#[derive(Drop)]
pub struct Platform<'a> {
    /// Which boxes.
    pub compat: Compat<'a>,
    /// The bytes of the pairs.
    pub pairs: &'a [u8],
}

/// A pair of loops.
#[derive(Debug, Drop)]
pub struct Pair<'a> {
    /// The target loop, a row of descriptors: which boxes of the platform.
    pub target: &'a [u8],
    /// The operational loop, a row of descriptors: where the update is, and when.
    pub operational: &'a [u8],
}

impl<'a> Platform<'a> {
    /// The pairs, in order.
    pub fn pairs(&self) -> Pairs<'a>
        ensures { items_of pair_format result ≡ (platform_view self.now).pairs }
    {
        Items::new(self.pairs)
    }
}

impl<'a> Item<'a> for Platform<'a> {
    ghost use Rattle.ssu_unt.specs.Table.{PlatformFields, platform};
    ghost use Rattle.ssu_unt.specs.Exact.{platform_exact};
    ghost use Rattle.ssu_unt.specs.Views.{platform_view};

    ghost Seen = { PlatformFields };

    ghost format = { platform };

    ghost exact = { platform_exact };

    ghost view = { platform_view };

    #[tactic(auto, unfolding(crate::specs::Table::platform))]
    fn at(bytes: &'a [u8]) -> Option<(Self, &'a [u8])> {
        let Some((compat, rest)) = compat_at(bytes) else {
            return None;
        };
        let (len, rest) = u16_at(rest)?;
        let (pairs, rest) = raw_at(rest, len as usize)?;
        let _pairs: Pairs<'a> = Items::to_end(pairs)?;
        Some((Platform { compat, pairs }, rest))
    }
}

impl<'a> Item<'a> for Pair<'a> {
    ghost use Rattle.ssu_unt.specs.Table.{PairFields, pair};
    ghost use Rattle.ssu_unt.specs.Exact.{pair_is_exact};
    ghost use Rattle.ssu_unt.specs.Views.{pair_view};

    ghost Seen = { PairFields };

    ghost format = { pair };

    ghost exact = { pair_is_exact };

    ghost view = { pair_view };

    #[tactic(auto, unfolding(crate::specs::Table::pair))]
    fn at(bytes: &'a [u8]) -> Option<(Self, &'a [u8])> {
        let (target, rest) = row_at(bytes)?;
        let (operational, rest) = row_at(rest)?;
        let pair = Pair {
            target,
            operational,
        };
        Some((pair, rest))
    }
}
