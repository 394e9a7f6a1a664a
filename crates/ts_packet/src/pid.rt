//! PID: ISO/IEC 13818-1, 2.4.3.3. A number of 13 bits.

ghost use Rattle.std.specs.Prelude.{◌≡◌, ℕ, ◌<◌, ◌+◌, ◌*◌, ◌%◌};
ghost use Rattle.std.specs.Option.{SomeIff};

use std::marker::Model;

/// A packet identifier, 0 to 8191. A contract sees it as its number.
#[derive(Clone, Copy, Default, PartialEq, Eq, PartialOrd, Ord, Debug)]
pub struct Pid(u16);

impl Model for Pid {
    ghost Value = { ℕ };

    ghost view = { λ p. p.0 };

    ghost invariant = { λ p. p.0 < 8192 };

    ghost inverse = { λ n. record { 0 = n } };
}

impl Pid {
    /// The PID of this number. `None` exactly from 8192 up.
    pub fn new(n: u16) -> Option<Pid>
        ensures { SomeIff result (n < 8192) n }
    {
        if n < 8192 { Some(Pid(n)) } else { None }
    }

    /// Its number, below 8192.
    pub fn get(self) -> u16
        ensures number { result ≡ self }
        ensures bound { result < 8192 }
    {
        self.0
    }

    /// The PID in the second and third byte of a packet, behind three other bits.
    pub(crate) fn of_bytes(high: u8, low: u8) -> Pid
        ensures { result ≡ high % 32 * 256 + low }
    {
        Pid(high as u16 % 32 * 256 + low as u16)
    }
}
