//! What a pair of the table announces.

ghost use Rattle.std.specs.Prelude.{◌↔◌, IsTrue};
ghost use Rattle.std.specs.Option.{IsSomeAnd};

use arrayvec::ArrayVec;
use ssu_time::Window;

/// A pair of the table that is for a box.
#[derive(Debug, Default, Drop)]
pub struct UntEntry {
    /// The component tag of the stream with the carousel.
    pub tag: u8,
    /// When the update may be taken; always, where there is no window.
    pub windows: ArrayVec<Window, 4>,
    /// Whether the user has to ask for the update.
    pub manual: bool,
    /// The subgroup of the carousel's groups to look for.
    pub subgroup: Option<u64>,
}

impl UntEntry {
    ghost use Rattle.ssu_unt.specs.Targeting.{HasOpenWindow, PairIsOpen};
    ghost use Rattle.ssu_unt.specs.Views.{entry_view};

    /// Whether the update may be taken in the second `now`, where one is known, by a box that does or
    /// does not allow manual updates.
    pub fn is_open(&self, now: Option<u64>, manual_allowed: bool) -> bool
        ensures open { IsTrue result ↔ PairIsOpen (entry_view self.now) now manual_allowed }
    {
        if self.manual && !manual_allowed {
            return false;
        }
        self.windows.is_empty() || self.has_open_window(now)
    }

    fn has_open_window(&self, now: Option<u64>) -> bool
        ensures { IsTrue result ↔ IsSomeAnd now (λ second. HasOpenWindow self.now.windows.items second) }
    {
        match now {
            Some(now) => self.windows.iter().any(|window| window.is_open(now)),
            None => false,
        }
    }
}
