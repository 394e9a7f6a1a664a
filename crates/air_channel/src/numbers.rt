//! Numbers of packets in ascending order.
ghost use Rattle.std.specs.Prelude.{◌≡◌, ◌≤◌, [], length};
ghost use Rattle.air_channel.specs.Aired.{is_in};
ghost use Rattle.air_channel.specs.Scripts.{AreNumbers, rises};

use std::alloc::Global;
use std::marker::Model;

/// At most 65,536 numbers of packets, strictly ascending. A contract sees them as a list.
#[derive(Debug, Drop)]
pub struct Numbers {
    numbers: Vec<u32>,
}

impl Model for Numbers {
    ghost use Rattle.std.specs.Prelude.{ℕ, List};
    ghost use Rattle.air_channel.specs.Scripts.{AreNumbers};

    ghost Value = { List ℕ };

    ghost view = { λ n. n.numbers.items };

    ghost invariant = { λ n. AreNumbers n.numbers.items };
}

impl Numbers {
    /// These numbers.
    pub fn new(numbers: Vec<u32>) -> Numbers
        requires { AreNumbers numbers.items }
        ensures { result ≡ numbers.items }
    {
        Numbers { numbers }
    }

    /// No numbers. Takes no memory.
    pub fn none(alloc: Global) -> Numbers
        ensures { result ≡ [] }
    {
        Numbers::new(Vec::new(alloc))
    }

    /// Whether the number is one of these.
    pub fn has(&self, number: u32) -> bool
        ensures { result ≡ is_in self.now number }
    {
        self.numbers.as_slice().binary_search(&number).is_ok()
    }

    /// The numbers, in order.
    pub fn into_vec(self) -> Vec<u32>
        ensures { result.items ≡ self }
    {
        self.numbers
    }
}

/// Whether each number is at least `gap` more than the one before it.
#[tactic(auto, using(crate::proofs::Rising::rises_step, crate::proofs::Rising::rises_end))]
pub(crate) fn are_rising(numbers: &[u32], gap: u32) -> bool
    requires { gap ≤ 2 }
    ensures { result ≡ rises gap 0 numbers.now }
{
    let mut least: u64 = 0;
    for number in numbers {
        let number = *number as u64;
        if number < least {
            return false;
        }
        least = number + gap as u64;
    }
    true
}
