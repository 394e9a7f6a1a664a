//! OUI: an organizationally unique identifier of 24 bits.

ghost use Rattle.std.specs.Prelude.{◌≡◌, ◌<◌, ◌^◌};
ghost use Rattle.std.specs.Option.{SomeIff};
ghost use Rattle.wire.specs.Number.{number};
ghost use Rattle.wire.specs.Read.{Reads};

use std::marker::Model;
use wire::u24_at;

/// An OUI, a number below 16,777,216.
#[derive(Clone, Copy, Debug, PartialEq, Eq)]
pub struct Oui {
    number: u32,
}

impl Model for Oui {
    ghost use Rattle.std.specs.Prelude.{ℕ, ◌<◌, ◌^◌};

    ghost Value = { ℕ };

    ghost view = { λ o. o.number };

    ghost invariant = { λ o. o.number < 2 ^ 24 };

    ghost inverse = { λ n. record { number = n } };
}

impl Oui {
    /// The OUI of this number. `None` comes exactly from 16,777,216 up.
    pub fn new(n: u32) -> Option<Oui>
        ensures { SomeIff result (n < 2 ^ 24) n }
    {
        if n < 0x100_0000 {
            Some(Oui { number: n })
        } else {
            None
        }
    }

    /// Its number, below 16,777,216.
    pub fn get(self) -> u32
        ensures number { result ≡ self }
        ensures in_range { result < 2 ^ 24 }
    {
        self.number
    }

    /// The OUI at the front of the bytes, and the bytes behind it. `None` comes exactly where there are fewer than
    /// three bytes.
    pub fn at(bytes: &[u8]) -> Option<(Oui, &[u8])>
        ensures { Reads (λ x. (x.0, x.1.now)) result ((number 3).at bytes.now) }
    {
        let (number, rest) = u24_at(bytes)?;
        Some((Oui { number }, rest))
    }
}
