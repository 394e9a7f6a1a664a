//! Linkage descriptor, tag 0x4A: ETSI EN 300 468, 6.2.19. For linkage type 0x09: ETSI TS 102 006, 6.1.

ghost use Rattle.std.specs.Prelude.{◌≡◌, ◌++◌, List, ℕ, Some, IfSome, OnOk, OnErr};
ghost use Rattle.std.specs.Option.{option_map};
ghost use Rattle.wire.specs.Items.{items_of};
ghost use Rattle.wire.specs.Read.{Reads};
ghost use Rattle.si_desc.specs.Linkage.{LinkageFields, OuiFields, linkage, lists, oui_entry, update_ouis};
ghost use Rattle.si_desc.specs.Views.{linkage_view};
ghost use Rattle.si_desc.specs.Descriptors.{IsRow};
ghost use Rattle.si_desc.specs.Written.{IsUpdateLinkage, linkage_bytes, service_of};

use ssu_compat::Oui;
use ssu_io::NoMemory;
use wire::{Item, Items, raw_at, u8_at, u16_at, u24_at};

/// A service, by the transport stream, the original network and the number that it has there.
#[derive(Clone, Copy, Debug, PartialEq, Eq)]
pub struct ServiceRef {
    /// transport_stream_id.
    pub ts: u16,
    /// original_network_id.
    pub network: u16,
    /// service_id.
    pub service: u16,
}

/// A linkage to a service.
#[derive(Debug, Drop)]
pub struct Linkage<'a> {
    /// The service that it leads to.
    pub to: ServiceRef,
    /// linkage_type.
    pub kind: u8,
    /// The bytes behind the type, whose form the type gives.
    pub rest: &'a [u8],
}

/// The linkage in the body of a linkage descriptor: None exactly where there are too few bytes.
pub fn read_linkage(body: &[u8]) -> Option<Linkage<'_>>
    ensures reads { Reads linkage_view result (linkage.of body.now) }
    // What is answered is spelled so.
    ensures found { IfSome result (λ l. linkage.Spells (linkage_view l) body.now) }
    // What is spelled so is answered.
    ensures only { (l : LinkageFields) → linkage.Spells l body.now
        → option_map linkage_view result ≡ Some l }
{
    linkage_of(body)
}

#[tactic(auto, unfolding(crate::specs::Linkage::linkage))]
fn linkage_of(body: &[u8]) -> Option<Linkage<'_>>
    ensures { Reads linkage_view result (linkage.of body.now) }
{
    let (ts, rest) = u16_at(body)?;
    let (network, rest) = u16_at(rest)?;
    let (service, rest) = u16_at(rest)?;
    let (kind, rest) = u8_at(rest)?;
    let to = ServiceRef {
        ts,
        network,
        service,
    };
    Some(Linkage { to, kind, rest })
}

/// Whether the rest of a linkage of type 0x09 lists the OUI: None exactly where it is not of the form
/// of that type.
pub fn lists_oui(rest: &[u8], oui: Oui) -> Option<bool>
    ensures found { IfSome result (λ listed. (entries : List OuiFields)
        × update_ouis.Spells entries rest.now × (listed ≡ lists oui entries)) }
    ensures only { (entries : List OuiFields) → update_ouis.Spells entries rest.now
        → result ≡ Some (lists oui entries) }
{
    let entries = oui_entries(rest)?;
    Some(has_oui(entries, oui))
}

/// Appends a linkage descriptor of type 0x09 to the service, with one OUI and no selector. `NoMemory` leaves `out` as it
/// was.
pub fn put_linkage(out: &mut Vec<u8>, to: ServiceRef, oui: Oui) -> Result<(), NoMemory>
    ensures put { OnOk result (out.new.items ≡ out.old.items ++ linkage_bytes to oui) }
    ensures read_back { OnOk result (IsUpdateLinkage to oui (linkage_bytes to oui)) }
    // A row of descriptors stays one.
    ensures row { IsRow out.old.items → OnOk result (IsRow out.new.items) }
    ensures unchanged { OnErr result (out.new.items ≡ out.old.items) }
{
    out.extend_from_slice(&descriptor_of(to.ts, to.network, to.service, oui))?;
    Ok(())
}

fn descriptor_of(ts: u16, network: u16, service: u16, oui: Oui) -> [u8; 14]
    ensures bytes { result ≡ linkage_bytes (service_of ts network service) oui }
    ensures read_back { IsUpdateLinkage (service_of ts network service) oui
        (linkage_bytes (service_of ts network service) oui) }
{
    let [t, s] = ts.to_be_bytes();
    let [n, k] = network.to_be_bytes();
    let [v, e] = service.to_be_bytes();
    let [_, o, u, i] = oui.get().to_be_bytes();
    [0x4A, 12, t, s, n, k, v, e, 0x09, 4, o, u, i, 0]
}

#[derive(Drop)]
struct OuiEntry<'a> {
    oui: Oui,
    selector: &'a [u8],
}

impl<'a> Item<'a> for OuiEntry<'a> {
    ghost use Rattle.si_desc.specs.Linkage.{OuiFields, oui_entry};
    ghost use Rattle.si_desc.specs.Exact.{oui_entry_exact};
    ghost use Rattle.si_desc.specs.Views.{oui_view};

    ghost Seen = { OuiFields };

    ghost format = { oui_entry };

    ghost exact = { oui_entry_exact };

    ghost view = { oui_view };

    #[tactic(auto, unfolding(crate::specs::Linkage::oui_entry))]
    fn at(bytes: &'a [u8]) -> Option<(Self, &'a [u8])> {
        let (oui, rest) = u24_at(bytes)?;
        let (len, rest) = u8_at(rest)?;
        let (selector, rest) = raw_at(rest, len as usize)?;
        let oui = Oui::new(oui)?;
        Some((OuiEntry { oui, selector }, rest))
    }
}

#[tactic(auto, unfolding(crate::specs::Linkage::update_ouis))]
fn oui_entries(rest: &[u8]) -> Option<Items<'_, OuiEntry<'_>>>
    ensures { Reads (λ es. items_of oui_entry es) result (update_ouis.of rest.now) }
{
    let (len, behind) = u8_at(rest)?;
    let (inside, _) = raw_at(behind, len as usize)?;
    Items::to_end(inside)
}

#[tactic(auto, unfolding(crate::specs::Linkage::lists))]
fn has_oui<'a>(entries: Items<'a, OuiEntry<'a>>, oui: Oui) -> bool
    ensures { result ≡ lists oui (items_of oui_entry entries.entry) }
{
    for entry in entries {
        if entry.oui == oui {
            return true;
        }
    }
    false
}
