//! Bytes of packets that are changed.
ghost use Rattle.std.specs.Prelude.{◌≡◌, ◌≢◌, ℕ, ◌<◌, ◌≤◌, false, true, [], length, map, slice_index_or};
ghost use Rattle.air_channel.specs.Passing.{changed};
ghost use Rattle.air_channel.specs.Scripts.{AreChanges, byte_number, rises};
ghost use Rattle.air_channel.specs.declared.change.Change.{Change};

use std::alloc::Global;
use std::marker::Model;

/// A byte of a packet, and what it becomes.
#[derive(Clone, Copy, Debug, PartialEq, Eq)]
pub struct Change {
    /// The number of the packet, from 0 to 16,777,215.
    pub packet: u32,
    /// The place of the byte in the packet, from 0 to 187.
    pub offset: u8,
    /// What the byte becomes.
    pub byte: u8,
}

/// At most 65,536 changes, strictly ascending by packet number and offset. A contract sees them as a list.
#[derive(Debug, Drop)]
pub struct Changes {
    changes: Vec<Change>,
}

impl Model for Changes {
    ghost use Rattle.std.specs.Prelude.{List};
    ghost use Rattle.air_channel.specs.Scripts.{AreChanges};
    ghost use Rattle.air_channel.specs.declared.change.Change.{Change};

    ghost Value = { List Change };

    ghost view = { λ c. c.changes.items };

    ghost invariant = { λ c. AreChanges c.changes.items };
}

impl Changes {
    /// These changes.
    pub fn new(changes: Vec<Change>) -> Changes
        requires { AreChanges changes.items }
        ensures { result ≡ changes.items }
    {
        Changes { changes }
    }

    /// No changes. Takes no memory.
    pub fn none(alloc: Global) -> Changes
        ensures { result ≡ [] }
    {
        Changes::new(Vec::new(alloc))
    }

    /// Makes those of the changes that are of the packet of this number.
    pub fn make(&self, number: u32, packet: &mut [u8])
        requires { length packet.old ≡ 188 }
        ensures { packet.new ≡ changed self.now number packet.old }
    {
        let changes = self.changes.as_slice();
        let mut next = first_of(changes, number);
        while is_of(changes, next, number) {
            let change = changes[next];
            packet[change.offset as usize] = change.byte;
            next += 1;
        }
    }

    /// The changes, in order.
    pub fn into_vec(self) -> Vec<Change>
        ensures { result.items ≡ self }
    {
        self.changes
    }
}

/// The place of the first change that is of no packet before this number.
fn first_of(changes: &[Change], number: u32) -> usize
    requires { AreChanges changes.now }
    ensures within { result ≤ length changes.now }
    ensures before { (k : ℕ) (d : Change) → k < result → (slice_index_or changes.now k d).packet < number }
    ensures behind { (k : ℕ) (d : Change) → result ≤ k → k < length changes.now → number ≤ (slice_index_or changes.now k d).packet }
{
    changes.partition_point(|change| change.packet < number)
}

/// Whether there is a change at this place, and it is of this packet.
fn is_of(changes: &[Change], at: usize, number: u32) -> bool
    ensures within { result ≡ true → at < length changes.now }
    ensures own { result ≡ true → (d : Change) → (slice_index_or changes.now at d).packet ≡ number }
    ensures other { result ≡ false → at < length changes.now → (d : Change) → (slice_index_or changes.now at d).packet ≢ number }
{
    at < changes.len() && changes[at].packet == number
}

/// Whether the changes are in strictly ascending order, by packet number and offset.
#[tactic(auto, using(crate::proofs::Rising::ordered_step, crate::proofs::Rising::ordered_end))]
pub(crate) fn are_in_order(changes: &[Change]) -> bool
    ensures { result ≡ rises 1 0 (map byte_number changes.now) }
{
    let mut least: u64 = 0;
    for change in changes {
        let number = 188 * change.packet as u64 + change.offset as u64;
        if number < least {
            return false;
        }
        least = number + 1;
    }
    true
}
