//! Where bytes come from.
ghost use Rattle.std.specs.Prelude.{◌≡◌, ◌<◌, ◌≤◌, ℕ, List, Option, length, take, IfOk, OnErr};
ghost use Rattle.ssu_io.specs.Bytes.{Takes, IsZeroAtEnd};
ghost use Rattle.ssu_io.specs.Faults.{HasCause};

use crate::Failed;

/// Bytes in order, taken from the front.
pub trait Source {
    /// The bytes that are left, or `None` where the source does not tell them.
    ghost left: { Self → Option (List ℕ) };

    /// How often a call failed: a u64 that never falls and stands still at its greatest value.
    ghost faults: { Self → ℕ };

    /// Puts the next bytes, at least one and no more than there is room for, in front of `buf`, and answers how many
    /// they are, or 0 at the end. `Failed` comes only where the count of faults rose; nothing was taken then.
    fn take(&mut self, buf: &mut [u8]) -> Result<usize, Failed>
        requires { 0 < length buf.old }
        ensures within { IfOk result (λ n. n ≤ length buf.new) }
        ensures taken { IfOk result (λ n. Takes (left self.old) (left self.new) (take n buf.new)) }
        ensures end { IfOk result (λ n. IsZeroAtEnd (left self.old) n) }
        // After a fault nothing was taken.
        ensures refused { OnErr result (left self.new ≡ left self.old) }
        ensures cause { HasCause (faults self.old) (faults self.new) result };
}
