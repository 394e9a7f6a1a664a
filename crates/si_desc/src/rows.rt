//! Rows of descriptors: ETSI EN 300 468, 6.1. descriptor_tag 8, descriptor_length 8 and that many
//! bytes, one after the other; and a row behind its length of 12 bits, as the tables have it.

ghost use Rattle.std.specs.Prelude.{◌≡◌, ◌<◌, ◌++◌, List, ℕ, Some, IfSome, OnOk, OnErr, length, ◌==◌};
ghost use Rattle.std.specs.Option.{option_map};
ghost use Rattle.wire.specs.Format.{kept};
ghost use Rattle.wire.specs.Items.{items_of};
ghost use Rattle.wire.specs.Read.{Reads};
ghost use Rattle.si_desc.specs.Descriptors.{DescFields, IsRow, descriptor, row as format, first_body, sized_row};
ghost use Rattle.si_desc.specs.Written.{row_bytes};

use ssu_io::NoMemory;
use wire::{Item, Items, length_at, put_length, raw_at, u8_at};

/// The descriptors of a row, in its order.
pub type DescRow<'a> = Items<'a, Desc<'a>>;

/// A descriptor.
#[derive(Debug, Drop)]
pub struct Desc<'a> {
    /// descriptor_tag.
    pub tag: u8,
    /// The bytes behind descriptor_length.
    pub body: &'a [u8],
}

impl<'a> Item<'a> for Desc<'a> {
    ghost use Rattle.si_desc.specs.Descriptors.{DescFields, descriptor};
    ghost use Rattle.si_desc.specs.Exact.{descriptor_exact};
    ghost use Rattle.si_desc.specs.Views.{desc_view};

    ghost Seen = { DescFields };

    ghost format = { descriptor };

    ghost exact = { descriptor_exact };

    ghost view = { desc_view };

    #[tactic(auto, unfolding(crate::specs::Descriptors::descriptor))]
    fn at(bytes: &'a [u8]) -> Option<(Self, &'a [u8])> {
        let (tag, rest) = u8_at(bytes)?;
        let (len, rest) = u8_at(rest)?;
        let (body, rest) = raw_at(rest, len as usize)?;
        Some((Desc { tag, body }, rest))
    }
}

/// The descriptors that fill the row: None exactly where whole descriptors do not.
#[tactic(auto, unfolding(crate::specs::Descriptors::row))]
pub fn descs(row: &[u8]) -> Option<DescRow<'_>>
    ensures reads { Reads (λ ds. items_of descriptor ds) result (format.of row.now) }
    // What is answered is spelled so.
    ensures found { IfSome result (λ ds. format.Spells (items_of descriptor ds) row.now) }
    // What is spelled so is answered.
    ensures only { (ds : List DescFields) → format.Spells ds row.now
        → option_map (λ s. items_of descriptor s) result ≡ Some ds }
{
    Items::to_end(row)
}

/// The bytes, where they are a row of descriptors.
#[tactic(auto, unfolding(crate::specs::Descriptors::row))]
fn row_of(bytes: &[u8]) -> Option<&[u8]>
    ensures { Reads (λ row. row.now) result ((kept format).of bytes.now) }
{
    let _row = descs(bytes)?;
    Some(bytes)
}

/// The row behind its length, and the bytes behind it: None exactly where there are too few bytes, or those of that
/// length are no row of descriptors.
#[tactic(auto, unfolding(crate::specs::Descriptors::sized_row))]
pub fn row_at(bytes: &[u8]) -> Option<(&[u8], &[u8])>
    ensures { Reads (λ x. (x.0.now, x.1.now)) result (sized_row.at bytes.now) }
{
    let (length, rest) = length_at(bytes)?;
    let (inside, rest) = raw_at(rest, length as usize)?;
    Some((row_of(inside)?, rest))
}

/// Appends a row of descriptors of fewer than 4,096 bytes behind its length. `NoMemory` leaves `out` as it was.
pub fn put_row(out: &mut Vec<u8>, row: &[u8]) -> Result<(), NoMemory>
    requires short { length row.now < 4096 }
    ensures put { OnOk result (out.new.items ≡ out.old.items ++ row_bytes row.now) }
    ensures read_back { IsRow row.now → OnOk result (sized_row.Spells row.now (row_bytes row.now)) }
    ensures unchanged { OnErr result (out.new.items ≡ out.old.items) }
{
    put_length(out, row.len() as u16)?;
    if out.extend_from_slice(row).is_err() {
        out.truncate(out.len() - 2);
        return Err(NoMemory);
    }
    Ok(())
}

/// The body of the first whole descriptor of that tag, counted from the front: None exactly where none
/// of the whole descriptors from the front has the tag, whatever follows them.
#[tactic(auto, unfolding(crate::specs::Descriptors::first_body))]
pub fn first(row: &[u8], tag: u8) -> Option<&[u8]>
    ensures { option_map (λ body. body.now) result ≡ first_body tag row.now }
{
    let row: DescRow<'_> = Items::new(row);
    for desc in row {
        if desc.tag == tag {
            return Some(desc.body);
        }
    }
    None
}
