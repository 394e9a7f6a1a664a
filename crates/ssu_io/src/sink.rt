//! Where bytes go to.
ghost use Rattle.std.specs.Prelude.{◌≡◌, ℕ, List, Option, OnOk, OnErr};
ghost use Rattle.ssu_io.specs.Bytes.{Gains, GainsPrefix};
ghost use Rattle.ssu_io.specs.Faults.{HasCause};

use crate::Failed;

/// Bytes in order, appended at the end.
pub trait Sink {
    /// The bytes that it got, or `None` where the sink does not tell them.
    ghost contents: { Self → Option (List ℕ) };

    /// How often a call failed: a u64 that never falls and stands still at its greatest value.
    ghost faults: { Self → ℕ };

    /// Appends the whole piece. `Failed` comes only where the count of faults rose; a prefix of the piece was
    /// appended then.
    fn put(&mut self, piece: &[u8]) -> Result<(), Failed>
        ensures whole { OnOk result (Gains (contents self.old) (contents self.new) piece.now) }
        // After a fault a prefix of the piece was appended.
        ensures prefix { OnErr result (GainsPrefix (contents self.old) (contents self.new) piece.now) }
        ensures cause { HasCause (faults self.old) (faults self.new) result };
}
