//! Packets that are lost at regular distances.

/// Of the places below `until`, those are left out whose number plus 1 is divisible by `every`.
#[derive(Clone, Copy, Debug, PartialEq, Eq)]
pub struct RegularLoss {
    /// One place of so many is left out, 2 to 65,535.
    pub every: u16,
    /// No place from this one on is left out, 0 to 16,777,216.
    pub until: u32,
}

impl RegularLoss {
    ghost use Rattle.std.specs.Prelude.{◌≡◌, Some};
    ghost use Rattle.air_channel.specs.Aired.{is_lost};
    ghost use Rattle.air_channel.specs.Scripts.{IsLoss};

    /// Whether this place is left out.
    pub(crate) fn takes(&self, place: u32) -> bool
        requires { IsLoss self.now }
        ensures { result ≡ is_lost (Some self.now) place }
    {
        place < self.until && (place as u64 + 1) % self.every as u64 == 0
    }
}
