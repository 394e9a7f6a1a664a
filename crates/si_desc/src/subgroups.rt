//! ssu_subgroup_association descriptor, tag 0x0B: ETSI TS 102 006, 9.6. It stands in the loops of a notification table
//! and in the info of a group.

ghost use Rattle.std.specs.Prelude.{◌≡◌, ◌<◌, ◌^◌, ℕ, Some, IfSome};
ghost use Rattle.wire.specs.Read.{Reads};
ghost use Rattle.si_desc.specs.Descriptors.{subgroup_association};

use wire::u40_at;

/// The subgroup in the body of an ssu_subgroup_association descriptor, below 2 to the power of 40: None exactly where
/// the body has not five bytes.
#[tactic(auto, unfolding(crate::specs::Descriptors::subgroup_association))]
pub fn subgroup(body: &[u8]) -> Option<u64>
    ensures reads { Reads (λ number. number) result (subgroup_association.of body.now) }
    ensures found { IfSome result (λ number. subgroup_association.Spells number body.now) }
    ensures only { (number : ℕ) → subgroup_association.Spells number body.now → result ≡ Some number }
    ensures in_range { IfSome result (λ number. number < 2 ^ 40) }
{
    let (number, rest) = u40_at(body)?;
    if rest.is_empty() { Some(number) } else { None }
}
