//! A flash as the layers above see it.
ghost use Rattle.std.specs.Prelude.{◌≡◌, ◌⊎◌, ◌+◌, ◌*◌, ◌^◌, ◌<◌, ◌≤◌, ◌↔◌, List, ℕ, length, slice_index, IsErr, OnOk, OnErr};
ghost use Rattle.flash_dev.specs.Changes.{Changes, Holds, IsBlank, IsErased, IsProgrammed, IsTornErase, IsTornProgram, LiesInOneBlock};
ghost use Rattle.flash_dev.specs.Moments.{Elapses};
ghost use Rattle.ssu_io.specs.Faults.{HasCause};

use ssu_io::Failed;

/// A flash of `blocks` times `block_size` bytes, at most 4,294,967,295 of them; the layout of records and banks
/// allows fewer, 268,435,456. An erase sets all bytes of a block to 255, and a program writes bytes over erased ones.
/// Addresses count bytes from 0, and blocks are numbered from 0.
pub trait Flash {
    /// Holds where the type tells what a flash holds.
    ghost tells: { Type 0 };

    /// Holds where the type also tells what a power loss might have left.
    ghost tells_moments: { Type 0 };

    /// What the flash holds.
    ghost contents: { Self → List ℕ };

    /// The number of blocks.
    ghost block_count: { Self → ℕ };

    /// The length of a block in bytes.
    ghost block_len: { Self → ℕ };

    /// The moment, as a number that does not fall.
    ghost moment: { Self → ℕ };

    /// What a power loss at some moment from that one on might have left.
    ghost left_since: { Self → ℕ → List ℕ → Type 0 };

    /// Holds once no call changes the flash any more: each further erase and program fails.
    ghost halted: { Self → Type 0 };

    /// How often the flash has failed: a u64 that never falls and stands still at its greatest value.
    ghost faults: { Self → ℕ };

    /// The number of blocks, which never changes.
    fn blocks(&self) -> u32
        ensures value { result ≡ block_count self.now }
        ensures whole { tells → length (contents self.now) ≡ block_count self.now * block_len self.now }
        ensures addressable { block_count self.now * block_len self.now < 2 ^ 32 };

    /// The length of a block in bytes, which never changes.
    fn block_size(&self) -> u32
        ensures { result ≡ block_len self.now };

    /// Reads the bytes from `at` on into `buf`, all of which lie in the flash. `Failed` comes only where the flash
    /// failed and its count of faults rose.
    fn read(&mut self, at: u32, buf: &mut [u8]) -> Result<(), Failed>
        requires { at + length buf.old ≤ block_count self.old * block_len self.old }
        ensures bytes { tells → OnOk result (Holds (contents self.old) at buf.new) }
        ensures same { tells → contents self.new ≡ contents self.old }
        ensures blocks { block_count self.new ≡ block_count self.old }
        ensures block_size { block_len self.new ≡ block_len self.old }
        ensures time { Elapses (moment self.old) (moment self.new) (left_since self.old) (left_since self.new)
            (λ c. c ≡ contents self.new) }

        // A read halts no flash, and sets none going again.
        ensures halt { halted self.new ↔ halted self.old }
        ensures cause { HasCause (faults self.old) (faults self.new) result };

    /// Sets all bytes of a block to 255. `Failed` comes only where the flash failed and its count of faults rose; the
    /// block may be torn then.
    fn erase(&mut self, block: u32) -> Result<(), Failed>
        requires { block < block_count self.old }
        ensures done { tells → OnOk result (Changes (block * block_len self.old) (block_len self.old)
            IsErased (contents self.old) (contents self.new)) }
        ensures torn { tells → OnErr result (Changes (block * block_len self.old) (block_len self.old)
            IsTornErase (contents self.old) (contents self.new)) }
        ensures blocks { block_count self.new ≡ block_count self.old }
        ensures block_size { block_len self.new ≡ block_len self.old }
        ensures time { Elapses (moment self.old) (moment self.new) (left_since self.old) (left_since self.new)
            (λ c. Changes (block * block_len self.old) (block_len self.old) IsTornErase (contents self.old) c
            ⊎ (c ≡ contents self.new)) }

        // A power loss within the call might have left whatever is torn by it, also where the call failed.
        ensures counts { tells_moments → (halted self.old → ⊥) → (t : ℕ) (c : List ℕ) → t ≤ moment self.old
            → Changes (block * block_len self.old) (block_len self.old) IsTornErase (contents self.old) c
            → left_since self.new t c }
        ensures halt { halted self.old → IsErr result × halted self.new }
        ensures cause { HasCause (faults self.old) (faults self.new) result };

    /// Writes 1 to 256 bytes from `at` on, over erased ones and within one block. `Failed` comes only where the flash
    /// failed and its count of faults rose; the range may be torn then.
    fn program(&mut self, at: u32, bytes: &[u8]) -> Result<(), Failed>
        requires some { 1 ≤ length bytes.now }
        requires few { length bytes.now ≤ 256 }
        requires inside { at + length bytes.now ≤ block_count self.old * block_len self.old }
        requires one_block { LiesInOneBlock (block_len self.old) at (length bytes.now) }
        requires blank { tells → IsBlank (contents self.old) at (length bytes.now) }
        ensures done { tells → OnOk result (Changes at (length bytes.now)
            (IsProgrammed bytes.now) (contents self.old) (contents self.new)) }
        ensures torn { tells → OnErr result (Changes at (length bytes.now)
            (IsTornProgram bytes.now) (contents self.old) (contents self.new)) }
        ensures blocks { block_count self.new ≡ block_count self.old }
        ensures block_size { block_len self.new ≡ block_len self.old }
        ensures time { Elapses (moment self.old) (moment self.new) (left_since self.old) (left_since self.new)
            (λ c. Changes at (length bytes.now) (IsTornProgram bytes.now) (contents self.old) c
            ⊎ (c ≡ contents self.new)) }

        // A power loss within the call might have left whatever is torn by it, also where the call failed.
        ensures counts { tells_moments → (halted self.old → ⊥) → (t : ℕ) (c : List ℕ) → t ≤ moment self.old
            → Changes at (length bytes.now) (IsTornProgram bytes.now) (contents self.old) c
            → left_since self.new t c }
        ensures halt { halted self.old → IsErr result × halted self.new }
        ensures cause { HasCause (faults self.old) (faults self.new) result };

    /// What is held are bytes.
    ghost are_bytes: { tells → (flash : Self) (k : ℕ) → slice_index (contents flash) k ≤ 255 };

    /// What is held now is among what a power loss since an earlier moment might have left.
    ghost counts_now: { tells_moments → (flash : Self) (t : ℕ) → t ≤ moment flash → left_since flash t (contents flash) };

    /// Since this moment a power loss might have left what is held, and nothing else.
    ghost only_now: { (flash : Self) (c : List ℕ) → left_since flash (moment flash) c → c ≡ contents flash };
}
