//! A window of time, once or in turns.

ghost use Rattle.std.specs.Prelude.{◌↔◌, IsTrue};
ghost use Rattle.ssu_time.specs.Opening.{IsOpen};

/// A window of time, in seconds since the beginning of the day with Modified Julian Date 0.
#[derive(Clone, Copy, Debug, Default, PartialEq, Eq)]
pub struct Window {
    /// The first second of the window.
    pub start: u64,
    /// The first second after it.
    pub end: u64,
    /// The seconds from one turn to the next, or 0 where the window has no turns.
    pub period: u64,
    /// The seconds of each turn in which the window is open; without turns it says nothing.
    pub duration: u64,
}

impl Window {
    /// Whether the window is open in the second `now`.
    pub fn is_open(&self, now: u64) -> bool
        ensures open { IsTrue result
            ↔ IsOpen self.now.start self.now.end self.now.period self.now.duration now }
    {
        if now < self.start || now >= self.end {
            return false;
        }
        self.period == 0 || (now - self.start) % self.period < self.duration
    }
}
