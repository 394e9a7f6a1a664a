//! An entry of a compatibility descriptor: ISO/IEC 13818-6, 6.1.

ghost use Rattle.std.specs.Prelude.{◌≡◌};
ghost use Rattle.wire.specs.Format.{whole_reads};
ghost use Rattle.wire.specs.Read.{Reads};
ghost use Rattle.ssu_compat.specs.Compat.{inside_entry, entry_fields};
ghost use Rattle.ssu_compat.specs.View.{view};

use crate::me::BoxId;
use crate::oui::Oui;
use wire::{Item, Items, raw_at, u8_at, u16_at};

/// The entries of a descriptor, in its order.
pub type CompatEntries<'a> = Items<'a, Entry<'a>>;

/// What the descriptor lists: a hardware (kind 1) or a software (kind 2) by its OUI (specifier 1),
/// model and version. Other kinds and specifiers are carried.
#[derive(Debug, Drop)]
pub struct Entry<'a> {
    pub kind: u8,
    pub specifier: u8,
    pub oui: Oui,
    pub model: u16,
    pub version: u16,
    /// How many sub-descriptors there are.
    pub subs: u8,
    /// The sub-descriptors.
    pub sub_bytes: &'a [u8],
}

impl<'a> Item<'a> for Entry<'a> {
    ghost use Rattle.ssu_compat.specs.Compat.{EntryFields, entry};
    ghost use Rattle.ssu_compat.specs.Exact.{entry_exact};
    ghost use Rattle.ssu_compat.specs.View.{view as view_of};

    ghost Seen = { EntryFields };

    ghost format = { entry };

    ghost exact = { entry_exact };

    ghost view = { view_of };

    #[tactic(auto, unfolding(crate::specs::Compat::entry))]
    fn at(bytes: &'a [u8]) -> Option<(Self, &'a [u8])> {
        let (kind, rest) = u8_at(bytes)?;
        let (len, rest) = u8_at(rest)?;
        let (inside, rest) = raw_at(rest, len as usize)?;
        let Some(entry) = inside_of(kind, inside) else {
            return None;
        };
        Some((entry, rest))
    }
}

impl Entry<'_> {
    ghost use Rattle.ssu_compat.specs.View.{view};
    ghost use Rattle.ssu_compat.specs.Match.{is_hardware, is_software};

    // Is it the box's hardware?
    pub(crate) fn is_hardware(&self, me: &BoxId) -> bool
        ensures { result ≡ is_hardware me.now.oui me.now.model me.now.version (view self.now) }
    {
        self.kind == 1
            && self.specifier == 1
            && self.oui == me.oui
            && self.model == me.model
            && self.version == me.version
    }

    // Is it a software of this OUI?
    pub(crate) fn is_software(&self, oui: Oui) -> bool
        ensures { result ≡ is_software oui (view self.now) }
    {
        self.kind == 2 && self.specifier == 1 && self.oui == oui
    }
}

// What stands inside the descriptor's length.
fn inside_of<'a>(kind: u8, bytes: &'a [u8]) -> Option<Entry<'a>>
    ensures { Reads view result ((whole_reads (λ x. entry_fields (kind, x)) inside_entry).of bytes.now) }
{
    let (specifier, rest) = u8_at(bytes)?;
    let Some((oui, rest)) = Oui::at(rest) else {
        return None;
    };
    let (model, rest) = u16_at(rest)?;
    let (version, rest) = u16_at(rest)?;
    let (subs, sub_bytes) = u8_at(rest)?;
    let _subs: Items<'_, SubDescriptor<'_>> = Items::exactly(subs as usize, sub_bytes)?;
    Some(Entry {
        kind,
        specifier,
        oui,
        model,
        version,
        subs,
        sub_bytes,
    })
}

#[derive(Drop)]
struct SubDescriptor<'a> {
    kind: u8,
    bytes: &'a [u8],
}

impl<'a> Item<'a> for SubDescriptor<'a> {
    ghost use Rattle.std.specs.Prelude.{ℕ, List};
    ghost use Rattle.ssu_compat.specs.Compat.{sub_descriptor};
    ghost use Rattle.ssu_compat.specs.Exact.{sub_exact};

    ghost Seen = { ℕ × List ℕ };

    ghost format = { sub_descriptor };

    ghost exact = { sub_exact };

    ghost view = { λ s. (s.kind, s.bytes.now) };

    fn at(bytes: &'a [u8]) -> Option<(Self, &'a [u8])> {
        let (kind, rest) = u8_at(bytes)?;
        let (len, rest) = u8_at(rest)?;
        let (bytes, rest) = raw_at(rest, len as usize)?;
        Some((SubDescriptor { kind, bytes }, rest))
    }
}
