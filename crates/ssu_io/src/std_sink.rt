//! Standard output as a sink.
ghost use Rattle.std.specs.Prelude.{◌≡◌, None};

use crate::faults::one_more;
use crate::{Failed, Sink};

/// A sink over standard output. It does not tell its bytes. Each error of a write is a fault.
#[derive(Drop)]
pub struct StdSink<'a, R: Print> {
    rt: &'a R,
    faults: u64,
}

impl<'a, R: Print> StdSink<'a, R> {
    /// Writes nothing yet.
    pub fn new(rt: &'a R) -> StdSink<'a, R>
        ensures { result.faults ≡ 0 }
    {
        StdSink { rt, faults: 0 }
    }
}

impl<R: Print> Sink for StdSink<'_, R> {
    ghost contents = { λ _. None };

    ghost faults = { λ s. s.faults };

    fn put(&mut self, piece: &[u8]) -> Result<(), Failed> {
        if piece.is_empty() {
            return Ok(());
        }
        match self.rt.write_all(piece) {
            Ok(()) => Ok(()),
            Err(_) => {
                self.faults = one_more(self.faults);
                Err(Failed)
            }
        }
    }
}
