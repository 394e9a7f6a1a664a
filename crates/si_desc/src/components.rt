//! Stream identifier descriptor, tag 0x52: ETSI EN 300 468, 6.2.39.

ghost use Rattle.std.specs.Prelude.{◌≡◌, ◌++◌, ℕ, Some, IfSome, OnOk, OnErr};
ghost use Rattle.wire.specs.Read.{Reads};
ghost use Rattle.si_desc.specs.Descriptors.{IsDescriptor, IsRow, stream_identifier};
ghost use Rattle.si_desc.specs.Written.{component_bytes};

use ssu_io::NoMemory;

/// The component tag in the body of a stream identifier descriptor: None exactly where the body has not
/// one byte.
#[tactic(auto, unfolding(crate::specs::Descriptors::stream_identifier))]
pub fn component_tag(body: &[u8]) -> Option<u8>
    ensures reads { Reads (λ tag. tag) result (stream_identifier.of body.now) }
    ensures found { IfSome result (λ tag. stream_identifier.Spells tag body.now) }
    ensures only { (tag : ℕ) → stream_identifier.Spells tag body.now → result ≡ Some tag }
{
    match body {
        [tag] => Some(*tag),
        _ => None,
    }
}

/// Appends a stream identifier descriptor of that component tag. `NoMemory` leaves `out` as it was.
pub fn put_component_tag(out: &mut Vec<u8>, tag: u8) -> Result<(), NoMemory>
    ensures put { OnOk result (out.new.items ≡ out.old.items ++ component_bytes tag) }
    ensures read_back { OnOk result (IsDescriptor stream_identifier 0x52 tag (component_bytes tag)) }
    // A row of descriptors stays one.
    ensures row { IsRow out.old.items → OnOk result (IsRow out.new.items) }
    ensures unchanged { OnErr result (out.new.items ≡ out.old.items) }
{
    out.extend_from_slice(&[0x52, 1, tag])?;
    Ok(())
}
