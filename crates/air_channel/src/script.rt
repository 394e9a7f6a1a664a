//! A script: what happens to the packets of a stream.
ghost use Rattle.std.specs.Prelude.{◌≡◌, ◌≤◌, [], None, Some};
ghost use Rattle.air_channel.specs.Aired.{copies, is_lost};
ghost use Rattle.air_channel.specs.Scripts.{IsLoss};

use crate::change::Changes;
use crate::loss::RegularLoss;
use crate::numbers::Numbers;
use std::alloc::Global;
use std::marker::Model;

/// What happens to the packets of a stream: bytes are changed, neighbours change places, places are left out or written
/// twice. A contract sees its four lists, and its regular loss.
#[derive(Debug, Drop)]
pub struct Script {
    pub(crate) changes: Changes,
    pub(crate) swaps: Numbers,
    pub(crate) drops: Numbers,
    pub(crate) repeats: Numbers,
    pub(crate) loss: Option<RegularLoss>,
}

impl Model for Script {
    ghost use Rattle.air_channel.specs.Scripts.{ScriptData, IsScript};

    ghost Value = { ScriptData };

    ghost view = { λ s. record {
      changes = s.changes;
      swaps = s.swaps;
      drops = s.drops;
      repeats = s.repeats;
      loss = s.loss;
    } };

    ghost invariant = { λ s. IsScript s.swaps s.loss };
}

impl Script {
    /// The script that leaves out one packet of so many, below a number, and does nothing else. Takes no memory.
    pub fn losing(alloc: Global, loss: RegularLoss) -> Script
        requires { IsLoss loss }
        ensures { result ≡ record { changes = []; swaps = []; drops = []; repeats = []; loss = Some loss } }
    {
        Script {
            changes: Changes::none(alloc),
            swaps: Numbers::none(alloc),
            drops: Numbers::none(alloc),
            repeats: Numbers::none(alloc),
            loss: Some(loss),
        }
    }

    /// How many times a place is written.
    pub(crate) fn copies(&self, place: u32) -> u32
        ensures value { result ≡ copies self.now place }
        ensures few { result ≤ 2 }
    {
        if self.drops.has(place) || self.loses(place) {
            0
        } else if self.repeats.has(place) {
            2
        } else {
            1
        }
    }

    /// Whether the place is left out by the regular loss.
    fn loses(&self, place: u32) -> bool
        ensures { result ≡ is_lost self.now.loss place }
    {
        match &self.loss {
            None => false,
            Some(loss) => loss.takes(place),
        }
    }
}
