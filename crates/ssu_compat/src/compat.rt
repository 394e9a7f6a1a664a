//! Compatibility descriptor: ISO/IEC 13818-6, 6.1; ETSI TS 102 006, 9.5.2.

ghost use Rattle.std.specs.Prelude.{◌≡◌, ◌≤◌, ℕ, List, length, take, IfSome, Some};
ghost use Rattle.wire.specs.Format.{or_none};
ghost use Rattle.wire.specs.Items.{items_of};
ghost use Rattle.wire.specs.Read.{Reads};
ghost use Rattle.ssu_compat.specs.Compat.{EntryFields, entry, entries, compat as format};
ghost use Rattle.ssu_compat.specs.Match.{matches as matches_box, offered as offered_for};

use crate::entry::CompatEntries;
use crate::me::BoxId;
use crate::oui::Oui;
use crate::rule::SwId;
use std::marker::Model;
use wire::{Items, raw_at, u16_at};

/// A compatibility descriptor, which a contract sees as the list of its entries.
#[derive(Drop)]
pub struct Compat<'a> {
    entries: CompatEntries<'a>,
}

impl<'a> Model for Compat<'a> {
    ghost use Rattle.std.specs.Prelude.{List};
    ghost use Rattle.wire.specs.Items.{items_of};
    ghost use Rattle.ssu_compat.specs.Compat.{EntryFields, entry};

    ghost Value = { List EntryFields };

    ghost view = { λ s. items_of entry s.entries };
}

/// The descriptor at the front of the bytes, and the bytes behind it. `None` comes exactly where no descriptor stands
/// there.
#[tactic(auto, unfolding(crate::specs::Compat::compat))]
pub fn compat_at<'a>(bytes: &'a [u8]) -> Option<(Compat<'a>, &'a [u8])>
    ensures { Reads (λ x. (x.0, x.1.now)) result (format.at bytes.now) }
{
    let (len, rest) = u16_at(bytes)?;
    let (inside, rest) = raw_at(rest, len as usize)?;
    let entries = entries_of(inside)?;
    Some((Compat { entries }, rest))
}

#[tactic(auto, unfolding(crate::specs::Compat::entries))]
fn entries_of<'a>(bytes: &'a [u8]) -> Option<CompatEntries<'a>>
    ensures { Reads (λ items. items_of entry items) result ((or_none entries).of bytes.now) }
{
    match bytes {
        [] => Some(Items::new(bytes)),
        _ => {
            let (count, rest) = u16_at(bytes)?;
            Items::exactly(count as usize, rest)
        }
    }
}

impl<'a> Compat<'a> {
    /// The descriptor at the front of the bytes, and how many bytes it has. `None` comes exactly
    /// where no descriptor stands there.
    pub fn read(bytes: &'a [u8]) -> Option<(Compat<'a>, usize)>
        // What is read is spelled so.
        ensures found { IfSome result (λ x. (x.1 ≤ length bytes.now) × format.Spells x.0 (take x.1 bytes.now)) }
        // What is spelled so is read.
        ensures only { (es : List EntryFields) (n : ℕ) → n ≤ length bytes.now → format.Spells es (take n bytes.now) → result ≡ Some (es, n) }
    {
        let (compat, rest) = compat_at(bytes)?;
        Some((compat, bytes.len() - rest.len()))
    }

    /// The entries, in order.
    pub fn entries(&self) -> CompatEntries<'a>
        ensures { items_of entry result ≡ self.now }
    {
        self.entries.again()
    }

    /// Is an entry the box's hardware: kind 1, specifier 1, and its OUI, model and version?
    #[tactic(auto, unfolding(crate::specs::Match::matches))]
    pub fn matches(&self, me: &BoxId) -> bool
        ensures { result ≡ matches_box me.now.oui me.now.model me.now.version self.now }
    {
        for entry in self.entries() {
            if entry.is_hardware(me) {
                return true;
            }
        }
        false
    }

    /// The software of the first entry of kind 2, specifier 1 and this OUI. `None` comes exactly where there is no
    /// such entry.
    #[tactic(auto, unfolding(crate::specs::Match::offered))]
    pub fn offered(&self, oui: Oui) -> Option<SwId>
        ensures { result ≡ offered_for oui self.now }
    {
        for entry in self.entries() {
            if entry.is_software(oui) {
                return Some(SwId {
                    model: entry.model,
                    version: entry.version,
                });
            }
        }
        None
    }
}
