//! Two banks of a flash: the one that boot takes, and the spare one, into which the next image goes.
//!
//! The order keeps what boot takes at every moment. `begin` erases the spare record before the spare bank, so no
//! valid record is left over a bank that changes. `fill` writes the image where no record points to. `commit`
//! writes the new record last, with one call: until it is whole it is not valid, and then it is current.
ghost use Rattle.std.specs.Prelude.{◌≡◌, ◌⊎◌, ◌+◌, ◌-◌, ◌*◌, ◌^◌, ◌<◌, ◌≤◌, ◌↔◌, true, false, length, IfOk, IsErrOf, OnOk, OnErr};
ghost use Rattle.flash_layout.specs.Layout.{HasJournals, IsInLimits, bank_len, blocks_of};
ghost use Rattle.flash_layout.specs.Shape.{geometry};

mod journal;

use crate::encoding::encoded;
use crate::fault::{BankFault, FlashFault};
use crate::find::{Current, find_current};
use crate::record::Record;
use crate::runs::{erase_spare, program_pieces};
use flash_dev::Flash;
use flash_layout::{Shape, shape_of};
use ssu_compat::SwId;

/// The banks of a flash, as they were found and as the calls of this value change them. After a fault of the
/// flash it is spent: no further call is allowed on it, and the flash is opened again.
#[derive(Drop)]
pub struct Bank {
    shape: Shape,
    current: Record,
    block: u32,
    begun: bool,
    spent: bool,
    ghost limits: { IsInLimits (geometry shape) },
    ghost block_is: { block < 2 },
    ghost bank_is: { current.bank < 2 },
    ghost least_layout: { 1 ≤ current.layout },
    ghost most_layout: { current.layout ≤ 2 },
    ghost room: { current.layout ≡ 2 → HasJournals (geometry shape) },
    ghost length_fits: { current.length ≤ bank_len (geometry shape) current.layout },
    ghost next_fits: { begun ≡ true → current.number < 4294967295 },
}

impl Bank {
    ghost use Rattle.flash_dev.specs.Changes.{Changes, Holds, IsBlank, IsProgrammed};
    ghost use Rattle.flash_dev.specs.Moments.{LeavesOnly};
    ghost use Rattle.flash_bank.specs.Bank.{IsLent, LeavesBegun, LeavesCommitted, LeavesFilled, block_of, current_of};
    ghost use Rattle.flash_layout.specs.Layout.{area_len};
    ghost use Rattle.flash_bank.specs.Layout.{IsPlaced};
    ghost use Rattle.flash_bank.specs.Bank.{geometry_of, is_begun, is_spent, len_of, spare_bank, spare_record};
    ghost use Rattle.flash_bank.specs.Record.{next_record};
    ghost use Rattle.flash_bank.specs.Runs.{OnlyReads};
    ghost use Rattle.flash_bank.specs.Sound.{Commits, IsSound, IsWorn, boot_of};
    ghost use Rattle.ssu_io.specs.Faults.{HasCause, Rose};

    /// Finds the current record. It changes nothing.
    ///
    /// Answers `Geometry` exactly where the number or the length of the blocks is out of the limits of the layout: 4
    /// to 65,536 blocks of 256 to 65,536 bytes, a multiple of 256, and 268,435,456 bytes at most; `Flash` only where
    /// the flash failed and its count of faults rose; `Foreign` where the contents are not sound; `Worn` where the
    /// current record has the greatest number, 4,294,967,295.
    pub fn open<F: Flash>(flash: &mut F) -> Result<Bank, BankFault>
        ensures lent { IfOk result (λ bank. IsLent F.tells F.contents F.block_count F.block_len bank flash.new) }
        ensures fresh { IfOk result (λ bank. is_begun bank ≡ false) }
        ensures next_fits { IfOk result (λ bank. (current_of bank).number < 4294967295) }

        // The number or the length of the blocks is out of the limits.
        ensures geometry { IsErrOf result BankFault.Geometry
            ↔ (IsInLimits (blocks_of F.Flash flash.old) → ⊥) }
        ensures in_limits { OnOk result (IsInLimits (blocks_of F.Flash flash.old)) }
        ensures fault { IsErrOf result BankFault.Flash → Rose (F.faults flash.old) (F.faults flash.new) }

        // The contents are not sound.
        ensures foreign { F.tells → IsErrOf result BankFault.Foreign
            → IsSound (blocks_of F.Flash flash.old) (F.contents flash.old) → ⊥ }
        ensures sound { F.tells → OnOk result
            (IsSound (blocks_of F.Flash flash.old) (F.contents flash.old)) }

        // The current record has the greatest number.
        ensures worn { F.tells → IsErrOf result BankFault.Worn
            → IsWorn (blocks_of F.Flash flash.old) (F.contents flash.old) }

        ensures reads { OnlyReads F.tells F.contents F.block_count F.block_len F.moment F.left_since flash.old flash.new }
        ensures faults { F.faults flash.old ≤ F.faults flash.new }
    {
        let Some(shape) = shape_of(flash) else {
            return Err(BankFault::Geometry);
        };
        match find_current(flash, shape) {
            Err(_) => Err(BankFault::Flash),
            Ok(None) => Err(BankFault::Foreign),
            Ok(Some(current)) => {
                if current.head.number == u32::MAX {
                    Err(BankFault::Worn)
                } else {
                    Ok(Bank::of(shape, current))
                }
            }
        }
    }

    /// The current record.
    pub fn current(&self) -> Record
        ensures value { result ≡ current_of self.now }
        ensures bank { result.bank < 2 }
        ensures fits { result.length ≤ len_of self.now }
    {
        self.current
    }

    /// The length of a bank in bytes.
    pub fn bank_len(&self) -> u32
        ensures value { result ≡ len_of self.now }
        ensures limits { IsInLimits (geometry_of self.now) }
    {
        self.shape.bank_len(self.current.layout)
    }

    /// Erases the spare record block and then the spare area, in layout 2 its journal before its bank. The current record is not
    /// the one with the greatest number. `FlashFault` comes only where the flash failed and its count of faults rose: the spare block and area
    /// may be torn then, and the bank is spent.
    pub fn begin<F: Flash>(&mut self, flash: &mut F) -> Result<(), FlashFault>
        requires lent { IsLent F.tells F.contents F.block_count F.block_len self.old flash.old }
        requires next_fits { (current_of self.old).number < 4294967295 }
        ensures lent { OnOk result (IsLent F.tells F.contents F.block_count F.block_len self.new flash.new) }
        ensures begun { OnOk result (is_begun self.new ≡ true) }
        ensures erased_record { F.tells → OnOk result
            (IsBlank (F.contents flash.new) (spare_record self.old) (geometry_of self.old).block_len) }
        ensures erased_area { F.tells → OnOk result
            (IsBlank (F.contents flash.new) (spare_bank self.old) (area_len (geometry_of self.old))) }
        ensures held { F.tells → LeavesBegun (geometry_of self.old) (F.contents flash.old) (F.contents flash.new) }
        ensures left { F.tells → LeavesOnly F.moment F.left_since flash.old flash.new
            (LeavesBegun (geometry_of self.old) (F.contents flash.old)) }
        ensures begun_err { OnErr result (is_begun self.new ≡ is_begun self.old) }
        ensures spent { OnErr result (is_spent self.new ≡ true) }
        ensures current { current_of self.new ≡ current_of self.old }
        ensures block { block_of self.new ≡ block_of self.old }
        ensures geometry { geometry_of self.new ≡ geometry_of self.old }
        ensures blocks { F.block_count flash.new ≡ F.block_count flash.old }
        ensures block_size { F.block_len flash.new ≡ F.block_len flash.old }
        ensures cause { HasCause (F.faults flash.old) (F.faults flash.new) result }
    {
        self.spent = true;
        erase_spare(
            flash,
            self.shape,
            self.current.layout,
            1 - self.block,
            1 - self.current.bank,
        )?;
        self.spent = false;
        self.begun = true;
        Ok(())
    }

    /// Programs bytes into the spare bank from byte `at` of it on, which is erased there: `begin` came before, and
    /// `at` and the number of bytes are together at most the length of a bank. `FlashFault` comes only where the
    /// flash failed and its count of faults rose: the range may be torn then, and the bank is spent.
    pub fn fill<F: Flash>(&mut self, flash: &mut F, at: u32, bytes: &[u8]) -> Result<(), FlashFault>
        requires lent { IsLent F.tells F.contents F.block_count F.block_len self.old flash.old }
        requires begun { is_begun self.old ≡ true }
        requires inside { at + length bytes.now ≤ len_of self.old }
        requires blank { F.tells → IsBlank (F.contents flash.old) (spare_bank self.old + at) (length bytes.now) }
        ensures lent { OnOk result (IsLent F.tells F.contents F.block_count F.block_len self.new flash.new) }
        ensures begun { OnOk result (is_begun self.new ≡ true) }
        ensures filled { F.tells → OnOk result (Changes (spare_bank self.old + at) (length bytes.now)
            (IsProgrammed bytes.now) (F.contents flash.old) (F.contents flash.new)) }
        ensures held { F.tells → LeavesFilled self.old at bytes.now (F.contents flash.old) (F.contents flash.new) }
        ensures left { F.tells → LeavesOnly F.moment F.left_since flash.old flash.new
            (LeavesFilled self.old at bytes.now (F.contents flash.old)) }
        ensures begun_err { OnErr result (is_begun self.new ≡ is_begun self.old) }
        ensures spent { OnErr result (is_spent self.new ≡ true) }
        ensures current { current_of self.new ≡ current_of self.old }
        ensures block { block_of self.new ≡ block_of self.old }
        ensures geometry { geometry_of self.new ≡ geometry_of self.old }
        ensures blocks { F.block_count flash.new ≡ F.block_count flash.old }
        ensures block_size { F.block_len flash.new ≡ F.block_len flash.old }
        ensures cause { HasCause (F.faults flash.old) (F.faults flash.new) result }
    {
        self.spent = true;
        let place = self.shape.area_place(1 - self.current.bank);
        program_pieces(flash, place + at, bytes)?;
        self.spent = false;
        Ok(())
    }

    /// Reads bytes of the spare bank from byte `at` of it on: `at` and the length of `buf` are together at most the
    /// length of a bank. `FlashFault` comes only where the flash failed and its count of faults rose; the bank is
    /// spent then.
    pub fn peek<F: Flash>(
        &mut self,
        flash: &mut F,
        at: u32,
        buf: &mut [u8],
    ) -> Result<(), FlashFault>
        requires lent { IsLent F.tells F.contents F.block_count F.block_len self.old flash.old }
        requires inside { at + length buf.old ≤ len_of self.old }
        ensures lent { OnOk result (IsLent F.tells F.contents F.block_count F.block_len self.new flash.new) }
        ensures begun { is_begun self.new ≡ is_begun self.old }
        ensures bytes { F.tells → OnOk result (Holds (F.contents flash.old) (spare_bank self.old + at) buf.new) }
        ensures reads { OnlyReads F.tells F.contents F.block_count F.block_len F.moment F.left_since flash.old flash.new }
        ensures spent { OnErr result (is_spent self.new ≡ true) }
        ensures current { current_of self.new ≡ current_of self.old }
        ensures block { block_of self.new ≡ block_of self.old }
        ensures geometry { geometry_of self.new ≡ geometry_of self.old }
        ensures cause { HasCause (F.faults flash.old) (F.faults flash.new) result }
    {
        self.spent = true;
        let place = self.shape.area_place(1 - self.current.bank);
        flash.read(place + at, buf)?;
        self.spent = false;
        Ok(())
    }

    /// Writes the next record, that of an image of `length` bytes at the front of the spare bank: `begin` came
    /// before, and `length` is at most that of a bank. At Ok it is the current one, and the bank has to be begun
    /// again. `FlashFault` comes only where the flash failed and its count of faults rose: boot takes the former
    /// image or the new one then, and the bank is spent.
    pub fn commit<F: Flash>(
        &mut self,
        flash: &mut F,
        length: u32,
        software: SwId,
        group: u32,
    ) -> Result<(), FlashFault>
        requires lent { IsLent F.tells F.contents F.block_count F.block_len self.old flash.old }
        requires begun { is_begun self.old ≡ true }
        requires fits { length ≤ len_of self.old }
        ensures lent { OnOk result (IsLent F.tells F.contents F.block_count F.block_len self.new flash.new) }
        ensures begun { OnOk result (is_begun self.new ≡ false) }
        ensures current { OnOk result (current_of self.new ≡ next_record (current_of self.old) length software group) }
        ensures block { OnOk result (block_of self.new ≡ 1 - block_of self.old) }
        ensures committed { F.tells → OnOk result (Commits (geometry_of self.old)
            (boot_of (geometry_of self.old) (F.contents flash.old) (next_record (current_of self.old) length software group))
            (F.contents flash.old) (F.contents flash.new)) }
        ensures held { F.tells → LeavesCommitted self.old (next_record (current_of self.old) length software group)
            (F.contents flash.old) (F.contents flash.new) }
        ensures left { F.tells → LeavesOnly F.moment F.left_since flash.old flash.new
            (LeavesCommitted self.old (next_record (current_of self.old) length software group) (F.contents flash.old)) }
        ensures begun_err { OnErr result (is_begun self.new ≡ is_begun self.old) }
        ensures current_err { OnErr result (current_of self.new ≡ current_of self.old) }
        ensures block_err { OnErr result (block_of self.new ≡ block_of self.old) }
        ensures spent { OnErr result (is_spent self.new ≡ true) }
        ensures len { len_of self.new ≡ len_of self.old }
        ensures geometry { geometry_of self.new ≡ geometry_of self.old }
        ensures blocks { F.block_count flash.new ≡ F.block_count flash.old }
        ensures block_size { F.block_len flash.new ≡ F.block_len flash.old }
        ensures cause { HasCause (F.faults flash.old) (F.faults flash.new) result }
    {
        self.spent = true;
        let block = 1 - self.block;
        let next = Record {
            layout: self.current.layout,
            number: self.current.number + 1,
            bank: 1 - self.current.bank,
            length,
            software,
            group,
        };
        flash.program(self.shape.record_place(block), &encoded(next))?;
        self.current = next;
        self.block = block;
        self.begun = false;
        self.spent = false;
        Ok(())
    }

    fn of(shape: Shape, current: Current) -> Bank
        requires limits { IsInLimits (geometry shape) }
        requires block { current.block < 2 }
        requires placed { IsPlaced (geometry shape) current.head }
        ensures geometry { geometry_of result ≡ geometry shape }
        ensures current { current_of result ≡ current.head }
        ensures block { block_of result ≡ current.block }
        ensures begun { is_begun result ≡ false }
        ensures spent { is_spent result ≡ false }
    {
        Bank {
            shape,
            current: current.head,
            block: current.block,
            begun: false,
            spent: false,
        }
    }
}
