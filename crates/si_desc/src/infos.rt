//! Data broadcast id descriptor, tag 0x66 (ETSI EN 300 468, 6.2.12), with the selector bytes of id
//! 0x000A, system software update: ETSI TS 102 006, 7.1.

ghost use Rattle.std.specs.Prelude.{◌≡◌, ◌<◌, ◌++◌, ◌∷◌, [], List, ℕ, Some, IfSome, OnOk, OnErr};
ghost use Rattle.std.specs.Option.{option_map};
ghost use Rattle.wire.specs.Items.{items_of};
ghost use Rattle.wire.specs.Read.{Reads};
ghost use Rattle.si_desc.specs.SsuInfo.{InfoFields, info, update_infos};
ghost use Rattle.si_desc.specs.Descriptors.{IsDescriptor, IsRow};
ghost use Rattle.si_desc.specs.Written.{info_bytes, written_info};

use ssu_compat::Oui;
use ssu_io::NoMemory;
use wire::{Item, Items, raw_at, u8_at, u16_at, u24_at};

/// The entries of a selector, in its order.
pub type InfoRow<'a> = Items<'a, SsuInfo<'a>>;

/// How the software of an OUI is updated.
#[derive(Debug, Drop)]
pub struct SsuInfo<'a> {
    /// The OUI.
    pub oui: Oui,
    /// 1 is a standard carousel without a notification table, 2 one with a table by broadcast.
    pub update_type: u8,
    /// update_versioning_flag.
    pub versioned: bool,
    /// update_version, 0 to 31.
    pub version: u8,
    /// The bytes of the entry's own selector.
    pub selector: &'a [u8],
}

impl<'a> Item<'a> for SsuInfo<'a> {
    ghost use Rattle.si_desc.specs.SsuInfo.{InfoFields, info};
    ghost use Rattle.si_desc.specs.Exact.{info_exact};
    ghost use Rattle.si_desc.specs.Views.{info_view};

    ghost Seen = { InfoFields };

    ghost format = { info };

    ghost exact = { info_exact };

    ghost view = { info_view };

    #[tactic(auto, unfolding(crate::specs::SsuInfo::info))]
    fn at(bytes: &'a [u8]) -> Option<(Self, &'a [u8])> {
        let (oui, rest) = u24_at(bytes)?;
        let (kind, rest) = u8_at(rest)?;
        let (flags, rest) = u8_at(rest)?;
        let (len, rest) = u8_at(rest)?;
        let (selector, rest) = raw_at(rest, len as usize)?;
        let info = SsuInfo {
            oui: Oui::new(oui)?,
            update_type: kind % 16,
            versioned: flags / 32 % 2 == 1,
            version: flags % 32,
            selector,
        };
        Some((info, rest))
    }
}

/// The entries in the body of a data broadcast id descriptor: None exactly where the id is not 0x000A
/// or the body is not of its form.
pub fn ssu_infos(body: &[u8]) -> Option<InfoRow<'_>>
    ensures reads { Reads (λ is. items_of info is) result (update_infos.of body.now) }
    // What is answered is spelled so.
    ensures found { IfSome result (λ is. update_infos.Spells (items_of info is) body.now) }
    // What is spelled so is answered.
    ensures only { (is : List InfoFields) → update_infos.Spells is body.now
        → option_map (λ s. items_of info s) result ≡ Some is }
{
    infos_of(body)
}

#[tactic(auto, unfolding(crate::specs::SsuInfo::update_infos))]
fn infos_of(body: &[u8]) -> Option<InfoRow<'_>>
    ensures { Reads (λ is. items_of info is) result (update_infos.of body.now) }
{
    let (id, rest) = u16_at(body)?;
    if id != 0x000A {
        return None;
    }
    let (len, rest) = u8_at(rest)?;
    let (inside, _) = raw_at(rest, len as usize)?;
    Items::to_end(inside)
}

/// Appends a data broadcast id descriptor of id 0x000A, with one entry of the OUI and type, below 16, without a
/// version and with no selector. `NoMemory` leaves `out` as it was.
pub fn put_ssu_info(out: &mut Vec<u8>, oui: Oui, update_type: u8) -> Result<(), NoMemory>
    requires { update_type < 16 }
    ensures put { OnOk result (out.new.items ≡ out.old.items ++ info_bytes oui update_type) }
    ensures read_back { OnOk result (IsDescriptor update_infos 0x66 (written_info oui update_type ∷ []) (info_bytes oui update_type)) }
    // A row of descriptors stays one.
    ensures row { IsRow out.old.items → OnOk result (IsRow out.new.items) }
    ensures unchanged { OnErr result (out.new.items ≡ out.old.items) }
{
    out.extend_from_slice(&descriptor_of(oui, update_type))?;
    Ok(())
}

fn descriptor_of(oui: Oui, update_type: u8) -> [u8; 11]
    requires { update_type < 16 }
    ensures bytes { result ≡ info_bytes oui update_type }
    ensures read_back { IsDescriptor update_infos 0x66 (written_info oui update_type ∷ []) (info_bytes oui update_type) }
{
    let [_, o, u, i] = oui.get().to_be_bytes();
    [0x66, 9, 0x00, 0x0A, 6, o, u, i, 0xF0 + update_type, 0xC0, 0]
}
