//! The calls on the spare journal of a bank of layout 2.
//!
//! A header goes message first and fixed part last, a slot bytes first and head last. So where the part that says what
//! stands there is whole, what it speaks of is whole too.
ghost use Rattle.std.specs.Prelude.{◌≡◌, ◌+◌, ◌*◌, ◌<◌, ◌≤◌, true, false, length, OnOk, OnErr};
ghost use Rattle.flash_dev.specs.Changes.{Changes, Holds, IsBlank, IsErased, IsProgrammed};
ghost use Rattle.flash_dev.specs.Moments.{LeavesOnly};
ghost use Rattle.flash_layout.specs.Journal.{header_written, mark_written};
ghost use Rattle.flash_layout.specs.Layout.{mark_count};
ghost use Rattle.flash_layout.specs.Pairs.{paired};
ghost use Rattle.flash_layout.specs.Slots.{slot_written};
ghost use Rattle.flash_bank.specs.Bank.{IsLent, block_of, current_of, geometry_of, is_begun, is_spent, len_of, spare_journal, spare_record};
ghost use Rattle.flash_bank.specs.Journal.{ClearsBlock, LeavesForgotten, LeavesMarked, LeavesPut, LeavesResumed, Puts};
ghost use Rattle.flash_bank.specs.Journal.{journal_len_of, mark_count_of, mark_place, slot_place};
ghost use Rattle.flash_bank.specs.Runs.{OnlyReads};
ghost use Rattle.ssu_io.specs.Faults.{HasCause};

use crate::bank::Bank;
use crate::clear::{clear_record, erase_block};
use crate::fault::FlashFault;
use crate::journal_puts::{put_header, put_mark, put_slot};
use flash_dev::Flash;

impl Bank {
    /// The length of the spare journal in bytes, all its blocks; 0 in layout 1.
    pub fn journal_len(&self) -> u32
        ensures { result ≡ journal_len_of self.now }
    {
        if self.current.layout == 2 {
            self.shape.journal_len()
        } else {
            0
        }
    }

    /// The number of marks of the spare journal; 0 in layout 1.
    pub fn marks(&self) -> u32
        ensures { result ≡ mark_count_of self.now }
    {
        if self.current.layout == 2 {
            self.shape.mark_count()
        } else {
            0
        }
    }

    /// Reads bytes of the spare journal from byte `at` of it on: `at` and the length of `buf` are together at most the length of
    /// the journal, so in layout 1 both are 0. `FlashFault` comes only where the flash failed and its count of faults rose; the
    /// bank is spent then.
    pub fn glance<F: Flash>(
        &mut self,
        flash: &mut F,
        at: u32,
        buf: &mut [u8],
    ) -> Result<(), FlashFault>
        requires lent { IsLent F.tells F.contents F.block_count F.block_len self.old flash.old }
        requires inside { at + length buf.old ≤ journal_len_of self.old }
        ensures lent { OnOk result (IsLent F.tells F.contents F.block_count F.block_len self.new flash.new) }
        ensures begun { is_begun self.new ≡ is_begun self.old }
        ensures bytes { F.tells → OnOk result (Holds (F.contents flash.old) (spare_journal self.old + at) buf.new) }
        ensures reads { OnlyReads F.tells F.contents F.block_count F.block_len F.moment F.left_since flash.old flash.new }
        ensures spent { OnErr result (is_spent self.new ≡ true) }
        ensures current { current_of self.new ≡ current_of self.old }
        ensures block { block_of self.new ≡ block_of self.old }
        ensures geometry { geometry_of self.new ≡ geometry_of self.old }
        ensures cause { HasCause (F.faults flash.old) (F.faults flash.new) result }
    {
        if self.current.layout != 2 {
            return Ok(());
        }
        self.spent = true;
        let place = self.shape.journal_place(1 - self.current.bank);
        flash.read(place + at, buf)?;
        self.spent = false;
        Ok(())
    }

    /// Writes the header of the spare journal, with the number after the current one, over a message of 1 to 4,084 bytes. The bank
    /// is begun, its layout is 2, and the places of the fixed part and of the message's pairs are erased. `FlashFault` comes only
    /// where the flash failed and its count of faults rose: the header may be torn then, and the bank is spent.
    pub fn head<F: Flash>(&mut self, flash: &mut F, message: &[u8]) -> Result<(), FlashFault>
        requires lent { IsLent F.tells F.contents F.block_count F.block_len self.old flash.old }
        requires two { (current_of self.old).layout ≡ 2 }
        requires begun { is_begun self.old ≡ true }
        requires some { 1 ≤ length message.now }
        requires few { length message.now ≤ 4084 }
        requires blank { F.tells → IsBlank (F.contents flash.old) (spare_journal self.old) 32 }
        requires message_blank { F.tells → IsBlank (F.contents flash.old) (spare_journal self.old + 256) (2 * length message.now) }
        ensures lent { OnOk result (IsLent F.tells F.contents F.block_count F.block_len self.new flash.new) }
        ensures begun { OnOk result (is_begun self.new ≡ true) }
        ensures headed { F.tells → OnOk result (Puts (spare_journal self.old + 256) (paired message.now) (spare_journal self.old)
            (header_written ((current_of self.old).number + 1) (length message.now)) (F.contents flash.old) (F.contents flash.new)) }
        ensures held { F.tells → LeavesPut (geometry_of self.old) (spare_journal self.old + 256) (paired message.now) (spare_journal self.old)
            (header_written ((current_of self.old).number + 1) (length message.now)) (F.contents flash.old) (F.contents flash.new) }
        ensures left { F.tells → LeavesOnly F.moment F.left_since flash.old flash.new
            (LeavesPut (geometry_of self.old) (spare_journal self.old + 256) (paired message.now) (spare_journal self.old)
            (header_written ((current_of self.old).number + 1) (length message.now)) (F.contents flash.old)) }
        ensures begun_err { OnErr result (is_begun self.new ≡ is_begun self.old) }
        ensures spent { OnErr result (is_spent self.new ≡ true) }
        ensures current { current_of self.new ≡ current_of self.old }
        ensures block { block_of self.new ≡ block_of self.old }
        ensures geometry { geometry_of self.new ≡ geometry_of self.old }
        ensures blocks { F.block_count flash.new ≡ F.block_count flash.old }
        ensures block_size { F.block_len flash.new ≡ F.block_len flash.old }
        ensures cause { HasCause (F.faults flash.old) (F.faults flash.new) result }
    {
        self.spent = true;
        let place = self.shape.journal_place(1 - self.current.bank);
        put_header(flash, place, self.current.number + 1, message)?;
        self.spent = false;
        Ok(())
    }

    /// Marks a place, one of `marks`, in the spare journal. The bank is begun, its layout is 2, and the pair of the mark is erased.
    /// `FlashFault` comes only where the flash failed and its count of faults rose: the pair may be torn then, and the bank is
    /// spent.
    pub fn mark<F: Flash>(&mut self, flash: &mut F, place: u32) -> Result<(), FlashFault>
        requires lent { IsLent F.tells F.contents F.block_count F.block_len self.old flash.old }
        requires two { (current_of self.old).layout ≡ 2 }
        requires begun { is_begun self.old ≡ true }
        requires inside { place < mark_count (geometry_of self.old) }
        requires blank { F.tells → IsBlank (F.contents flash.old) (mark_place self.old place) 2 }
        ensures lent { OnOk result (IsLent F.tells F.contents F.block_count F.block_len self.new flash.new) }
        ensures begun { OnOk result (is_begun self.new ≡ true) }
        ensures marked { F.tells → OnOk result (Changes (mark_place self.old place) 2 (IsProgrammed mark_written)
            (F.contents flash.old) (F.contents flash.new)) }
        ensures held { F.tells → LeavesMarked self.old place (F.contents flash.old) (F.contents flash.new) }
        ensures left { F.tells → LeavesOnly F.moment F.left_since flash.old flash.new
            (LeavesMarked self.old place (F.contents flash.old)) }
        ensures begun_err { OnErr result (is_begun self.new ≡ is_begun self.old) }
        ensures spent { OnErr result (is_spent self.new ≡ true) }
        ensures current { current_of self.new ≡ current_of self.old }
        ensures block { block_of self.new ≡ block_of self.old }
        ensures geometry { geometry_of self.new ≡ geometry_of self.old }
        ensures blocks { F.block_count flash.new ≡ F.block_count flash.old }
        ensures block_size { F.block_len flash.new ≡ F.block_len flash.old }
        ensures cause { HasCause (F.faults flash.old) (F.faults flash.new) result }
    {
        self.spent = true;
        let journal = self.shape.journal_place(1 - self.current.bank);
        put_mark(flash, journal + 8448 + 2 * place)?;
        self.spent = false;
        Ok(())
    }

    /// Puts 1 to 4,066 bytes, which are for the bank from byte `at` of it on and lie in it, into a slot of the spare journal, one
    /// of 16. The bank is begun, its layout is 2, and all 4,352 bytes of the slot are erased. `FlashFault` comes only where the
    /// flash failed and its count of faults rose: the slot may be torn then, and the bank is spent.
    pub fn spare<F: Flash>(
        &mut self,
        flash: &mut F,
        slot: u32,
        at: u32,
        bytes: &[u8],
    ) -> Result<(), FlashFault>
        requires lent { IsLent F.tells F.contents F.block_count F.block_len self.old flash.old }
        requires two { (current_of self.old).layout ≡ 2 }
        requires begun { is_begun self.old ≡ true }
        requires slot { slot < 16 }
        requires some { 1 ≤ length bytes.now }
        requires few { length bytes.now ≤ 4066 }
        requires inside { at + length bytes.now ≤ len_of self.old }
        requires blank { F.tells → IsBlank (F.contents flash.old) (slot_place self.old slot) 4352 }
        ensures lent { OnOk result (IsLent F.tells F.contents F.block_count F.block_len self.new flash.new) }
        ensures begun { OnOk result (is_begun self.new ≡ true) }
        ensures spared { F.tells → OnOk result (Puts (slot_place self.old slot + 256) bytes.now (slot_place self.old slot)
            (slot_written at (length bytes.now)) (F.contents flash.old) (F.contents flash.new)) }
        ensures held { F.tells → LeavesPut (geometry_of self.old) (slot_place self.old slot + 256) bytes.now (slot_place self.old slot)
            (slot_written at (length bytes.now)) (F.contents flash.old) (F.contents flash.new) }
        ensures left { F.tells → LeavesOnly F.moment F.left_since flash.old flash.new
            (LeavesPut (geometry_of self.old) (slot_place self.old slot + 256) bytes.now (slot_place self.old slot)
            (slot_written at (length bytes.now)) (F.contents flash.old)) }
        ensures begun_err { OnErr result (is_begun self.new ≡ is_begun self.old) }
        ensures spent { OnErr result (is_spent self.new ≡ true) }
        ensures current { current_of self.new ≡ current_of self.old }
        ensures block { block_of self.new ≡ block_of self.old }
        ensures geometry { geometry_of self.new ≡ geometry_of self.old }
        ensures blocks { F.block_count flash.new ≡ F.block_count flash.old }
        ensures block_size { F.block_len flash.new ≡ F.block_len flash.old }
        ensures cause { HasCause (F.faults flash.old) (F.faults flash.new) result }
    {
        self.spent = true;
        let journal = self.shape.journal_place(1 - self.current.bank);
        put_slot(
            flash,
            journal + self.shape.slots_at() + 4352 * slot,
            at,
            bytes,
        )?;
        self.spent = false;
        Ok(())
    }

    /// Goes on with what stands in the spare area: erases the spare record block where its first 256 bytes are not all erased. The
    /// layout is 2, and the current record is not the one with the greatest number. Afterwards the bank counts as begun.
    /// `FlashFault` comes only where the flash failed and its count of faults rose: the block may be torn then, and the bank is
    /// spent.
    pub fn resume<F: Flash>(&mut self, flash: &mut F) -> Result<(), FlashFault>
        requires lent { IsLent F.tells F.contents F.block_count F.block_len self.old flash.old }
        requires two { (current_of self.old).layout ≡ 2 }
        requires next_fits { (current_of self.old).number < 4294967295 }
        ensures lent { OnOk result (IsLent F.tells F.contents F.block_count F.block_len self.new flash.new) }
        ensures begun { OnOk result (is_begun self.new ≡ true) }
        ensures resumed { F.tells → OnOk result (ClearsBlock (spare_record self.old) (geometry_of self.old).block_len
            (F.contents flash.old) (F.contents flash.new)) }
        ensures held { F.tells → LeavesResumed self.old (F.contents flash.old) (F.contents flash.new) }
        ensures left { F.tells → LeavesOnly F.moment F.left_since flash.old flash.new
            (LeavesResumed self.old (F.contents flash.old)) }
        ensures begun_err { OnErr result (is_begun self.new ≡ is_begun self.old) }
        ensures spent { OnErr result (is_spent self.new ≡ true) }
        ensures current { current_of self.new ≡ current_of self.old }
        ensures block { block_of self.new ≡ block_of self.old }
        ensures geometry { geometry_of self.new ≡ geometry_of self.old }
        ensures blocks { F.block_count flash.new ≡ F.block_count flash.old }
        ensures block_size { F.block_len flash.new ≡ F.block_len flash.old }
        ensures cause { HasCause (F.faults flash.old) (F.faults flash.new) result }
    {
        self.spent = true;
        clear_record(flash, self.shape, 1 - self.block)?;
        self.spent = false;
        self.begun = true;
        Ok(())
    }

    /// Erases the first block of the spare journal; the layout is 2. Afterwards the bank is not begun. `FlashFault` comes only where
    /// the flash failed and its count of faults rose: the block may be torn then, and the bank is spent.
    pub fn forget<F: Flash>(&mut self, flash: &mut F) -> Result<(), FlashFault>
        requires lent { IsLent F.tells F.contents F.block_count F.block_len self.old flash.old }
        requires two { (current_of self.old).layout ≡ 2 }
        ensures lent { OnOk result (IsLent F.tells F.contents F.block_count F.block_len self.new flash.new) }
        ensures begun { OnOk result (is_begun self.new ≡ false) }
        ensures forgot { F.tells → OnOk result (Changes (spare_journal self.old) (geometry_of self.old).block_len IsErased
            (F.contents flash.old) (F.contents flash.new)) }
        ensures held { F.tells → LeavesForgotten self.old (F.contents flash.old) (F.contents flash.new) }
        ensures left { F.tells → LeavesOnly F.moment F.left_since flash.old flash.new
            (LeavesForgotten self.old (F.contents flash.old)) }
        ensures begun_err { OnErr result (is_begun self.new ≡ is_begun self.old) }
        ensures spent { OnErr result (is_spent self.new ≡ true) }
        ensures current { current_of self.new ≡ current_of self.old }
        ensures block { block_of self.new ≡ block_of self.old }
        ensures geometry { geometry_of self.new ≡ geometry_of self.old }
        ensures blocks { F.block_count flash.new ≡ F.block_count flash.old }
        ensures block_size { F.block_len flash.new ≡ F.block_len flash.old }
        ensures cause { HasCause (F.faults flash.old) (F.faults flash.new) result }
    {
        self.spent = true;
        erase_block(
            flash,
            self.shape,
            self.shape.journal_block(1 - self.current.bank),
        )?;
        self.spent = false;
        self.begun = false;
        Ok(())
    }
}
