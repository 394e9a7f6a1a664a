//! An entry of the map: 8 bytes that stand as 16, in pairs, each byte b as b and 255 - b.
//! A torn program of an entry on erased bytes leaves no byte below the one to be written. So pairs that are whole
//! after it are the pairs that were to be written: an entry is there whole, or none is.
ghost use Rattle.std.specs.Prelude.{◌≡◌, ◌+◌, ◌*◌, ◌<◌, length};
ghost use Rattle.flash_remap.specs.Entry.{are_fixed, are_whole, entry_in, half_at, paired, written};
ghost use Rattle.flash_remap.specs.Map.{is_blank};

/// The bytes of a slot.
pub(crate) const SLOT_LEN: usize = 16;

/// A spare, by its number from 0, that stands for a logical block.
#[derive(Clone, Copy, Debug, Default, PartialEq, Eq)]
pub(crate) struct Entry {
    pub(crate) block: u16,
    pub(crate) spare: u16,
}

/// The entry in the bytes of a slot, where they hold one.
#[tactic(auto, unfolding(crate::specs::Entry::entry_in))]
pub(crate) fn entry_in(slot: &[u8]) -> Option<Entry>
    requires { length slot.now ≡ 16 }
    ensures { result ≡ entry_in slot.now }
{
    if are_whole(slot) && are_fixed(slot) {
        Some(Entry {
            block: half(slot, 2),
            spare: half(slot, 4),
        })
    } else {
        None
    }
}

/// All bytes of a slot are erased.
pub(crate) fn is_blank(slot: &[u8]) -> bool
    ensures { result ≡ is_blank slot.now }
{
    slot.iter().all(|byte| *byte == 255)
}

/// Each of the 8 pairs sums to 255.
#[tactic(auto, using(crate::proofs::EntryLemmas::whole_step, crate::proofs::EntryLemmas::not_whole), unfolding(crate::specs::Entry::are_whole))]
fn are_whole(slot: &[u8]) -> bool
    requires { length slot.now ≡ 16 }
    ensures { result ≡ are_whole 8 slot.now }
{
    for i in 0..8usize {
        if u32::from(slot[2 * i]) + u32::from(slot[2 * i + 1]) != 255 {
            return false;
        }
    }
    true
}

/// The bytes that are the same in each entry are right.
fn are_fixed(slot: &[u8]) -> bool
    requires { length slot.now ≡ 16 }
    ensures { result ≡ are_fixed slot.now }
{
    slot[0] == 0x42 && slot[2] == 0x4D && slot[12] == 0 && slot[14] == 0
}

fn half(slot: &[u8], i: usize) -> u16
    requires len { length slot.now ≡ 16 }
    requires inside { i + 1 < 8 }
    ensures { result ≡ half_at slot.now i }
{
    256 * u16::from(slot[2 * i]) + u16::from(slot[2 * (i + 1)])
}

/// The 16 bytes of an entry.
pub(crate) fn written(entry: Entry) -> [u8; SLOT_LEN]
    ensures bytes { result ≡ written entry }
    ensures block { entry.block < 65536 }
    ensures spare { entry.spare < 65536 }
{
    let plain = [
        0x42,
        0x4D,
        (entry.block / 256) as u8,
        (entry.block % 256) as u8,
        (entry.spare / 256) as u8,
        (entry.spare % 256) as u8,
        0,
        0,
    ];
    let mut bytes = [0; SLOT_LEN];
    put_pairs(&mut bytes, &plain);
    bytes
}

fn put_pairs(bytes: &mut [u8], plain: &[u8])
    requires { length bytes.old ≡ 2 * length plain.now }
    ensures { bytes.new ≡ paired plain.now }
{
    for (i, byte) in plain.iter().enumerate() {
        bytes[2 * i] = *byte;
        bytes[2 * i + 1] = 255 - *byte;
    }
}
