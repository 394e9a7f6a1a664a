//! NIT of the actual network, table_id 0x40, PID 0x0010, and BAT, table_id 0x4A, PID 0x0011: ETSI EN 300 468, 5.2.1 and
//! 5.2.2.

ghost use Rattle.std.specs.Prelude.{◌≡◌, IfSome, Some};
ghost use Rattle.std.specs.Option.{option_map};
ghost use Rattle.wire.specs.Items.{items_of};
ghost use Rattle.wire.specs.Read.{Reads};
ghost use Rattle.si_table.specs.Tables.{NetFields, net, net_body, net_entry};
ghost use Rattle.si_table.specs.Views.{net_view};

use section_form::long;
use si_desc::row_at;
use wire::{Item, Items, length_at, raw_at, u16_at};

/// The entries of a NIT or a BAT, in its order.
pub type Entries<'a> = Items<'a, NetEntry<'a>>;

/// A transport stream of the network or the bouquet.
#[derive(Debug, Drop)]
pub struct NetEntry<'a> {
    /// transport_stream_id.
    pub ts: u16,
    /// original_network_id.
    pub network: u16,
    /// Its row of descriptors.
    pub info: &'a [u8],
}

impl<'a> Item<'a> for NetEntry<'a> {
    ghost use Rattle.si_table.specs.Exact.{net_entry_exact};
    ghost use Rattle.si_table.specs.Tables.{NetEntryFields, net_entry};
    ghost use Rattle.si_table.specs.Views.{net_entry_view};

    ghost Seen = { NetEntryFields };

    ghost format = { net_entry };

    ghost exact = { net_entry_exact };

    ghost view = { net_entry_view };

    #[tactic(auto, unfolding(crate::specs::Tables::net_entry))]
    fn at(bytes: &'a [u8]) -> Option<(Self, &'a [u8])> {
        let (ts, rest) = u16_at(bytes)?;
        let (network, rest) = u16_at(rest)?;
        let (info, rest) = row_at(rest)?;
        Some((NetEntry { ts, network, info }, rest))
    }
}

/// A network information table or a bouquet association table.
#[derive(Drop)]
pub struct Net<'a> {
    /// 0x40 of a NIT, 0x4A of a BAT.
    pub table: u8,
    /// network_id or bouquet_id.
    pub id: u16,
    /// The row of descriptors of the network or the bouquet.
    pub info: &'a [u8],
    entries: Entries<'a>,
}

impl<'a> Net<'a> {
    /// `None` comes exactly where the section is no NIT of the actual network and no BAT.
    pub fn read(section: &'a [u8]) -> Option<Self>
        ensures reads { Reads net_view result (net.of section.now) }
        // What is answered is spelled so.
        ensures found { IfSome result (λ n. net.Spells (net_view n) section.now) }
        // What is spelled so is answered.
        ensures only { (n : NetFields) → net.Spells n section.now → option_map net_view result ≡ Some n }
    {
        net_of(section)
    }

    /// The entries, in order.
    pub fn entries(&self) -> Entries<'a>
        ensures { items_of net_entry result ≡ (net_view self.now).entries }
    {
        self.entries.again()
    }
}

#[tactic(auto, unfolding(crate::specs::Tables::net_body))]
fn body_of<'a>(bytes: &'a [u8]) -> Option<(&'a [u8], Entries<'a>)>
    ensures { Reads (λ b. (b.0.now, items_of net_entry b.1)) result (net_body.of bytes.now) }
{
    let (info, rest) = row_at(bytes)?;
    let (length, rest) = length_at(rest)?;
    let (inside, rest) = raw_at(rest, length as usize)?;
    let entries = Items::to_end(inside)?;
    if !rest.is_empty() {
        return None;
    }
    Some((info, entries))
}

#[tactic(auto, unfolding(crate::specs::Tables::net))]
fn net_of<'a>(section: &'a [u8]) -> Option<Net<'a>>
    ensures { Reads net_view result (net.of section.now) }
{
    if section.len() > 1024 {
        return None;
    }
    let form = long(section)?;
    if form.table != 0x40 && form.table != 0x4A {
        return None;
    }
    let (info, entries) = body_of(form.body)?;
    Some(Net {
        table: form.table,
        id: form.extension,
        info,
        entries,
    })
}
