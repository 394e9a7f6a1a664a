//! What is looked at in the modules of a DII, one thing a pass.

ghost use Rattle.std.specs.Prelude.{◌≡◌, ◌≤◌, length, []};
ghost use Rattle.std.specs.Option.{is_some};
ghost use Rattle.si_desc.specs.Descriptors.{first_body};
ghost use Rattle.ssu_group.specs.Plan.{module_crc, compressed_module_tag};
ghost use Rattle.ssu_group.specs.Refusal.{first_compressed as first_compressed_of};
ghost use Rattle.ssu_group.specs.Refusal.{first_too_many as first_too_many_of};
ghost use Rattle.ssu_group.specs.Refusal.{first_twice as first_twice_of};
ghost use Rattle.ssu_group.specs.Refusal.{total_of as sum_of_sizes};

use arrayvec::ArrayVec;
use dsmcc_msg::Dii;
use si_desc::first;
use wire::u32_at;

const CRC32: u8 = 0x05;

const COMPRESSED_MODULE: u8 = 0x09;

/// The CRC that the first CRC32 descriptor gives, if it has four bytes.
pub(crate) fn crc_in(info: &[u8]) -> Option<u32>
    ensures { result ≡ module_crc info.now }
{
    let body = first(info, CRC32)?;
    if body.len() != 4 {
        return None;
    }
    let (crc, _) = u32_at(body)?;
    Some(crc)
}

fn is_compressed(info: &[u8]) -> bool
    ensures { result ≡ is_some (first_body compressed_module_tag info.now) }
{
    first(info, COMPRESSED_MODULE).is_some()
}

/// The id of the first compressed module.
#[tactic(auto, unfolding(crate::specs::Refusal::first_compressed))]
pub(crate) fn first_compressed(dii: &Dii<'_>) -> Option<u16>
    ensures { result ≡ first_compressed_of dii.now.modules }
{
    for module in dii.modules() {
        if is_compressed(module.info) {
            return Some(module.id);
        }
    }
    None
}

/// The id of the first module with more than 65,536 blocks.
#[tactic(auto, unfolding(crate::specs::Refusal::first_too_many))]
pub(crate) fn first_too_many(dii: &Dii<'_>, block_size: u16) -> Option<u16>
    requires { 1 ≤ block_size }
    ensures { result ≡ first_too_many_of block_size dii.now.modules }
{
    for module in dii.modules() {
        if module.size.div_ceil(u32::from(block_size)) > 65536 {
            return Some(module.id);
        }
    }
    None
}

/// The id of the first module whose id stood earlier.
#[tactic(auto, unfolding(crate::specs::Refusal::first_twice))]
pub(crate) fn first_twice(dii: &Dii<'_>) -> Option<u16>
    ensures { result ≡ first_twice_of [] dii.now.modules }
{
    let mut earlier: ArrayVec<u16, 512> = ArrayVec::new();
    for module in dii.modules() {
        if earlier.contains(&module.id) {
            return Some(module.id);
        }
        earlier.push(module.id);
    }
    None
}

/// The bytes of all modules.
pub(crate) fn total_of(dii: &Dii<'_>) -> u64
    ensures { result ≡ sum_of_sizes dii.now.modules }
{
    let mut total = 0u64;
    for module in dii.modules() {
        total += u64::from(module.size);
    }
    total
}
