//! A flash in memory whose calls fail where a test says so, and which tells all that a power loss might have left.
ghost use Rattle.std.specs.Prelude.{true, IsErr, is_ok, if◌then◌else◌, ◌≡◌, ◌⊎◌, ◌↔◌, ◌+◌, ◌*◌, ◌%◌, ◌^◌, ◌<◌, ◌≤◌};
ghost use Rattle.std.specs.Prelude.{◌∷◌, ◌++◌, [], List, ℕ, length, replicate, slice_index, vec_len, IfOk, IsOk, OnOk};
ghost use Rattle.std.specs.Prelude.{OnErr, Some};
ghost use Rattle.std.specs.Vec.{vec_capacity};
ghost use Rattle.flash_dev.specs.Calls.{after_calls, changed, changed_in, recorded, Alters, IsInside, LeftSince, Tears};
ghost use Rattle.flash_dev.specs.Changes.{Changes, Holds, IsBlank, IsErased, IsProgrammed, IsTornErase, IsTornProgram, LiesInOneBlock};
ghost use Rattle.flash_dev.specs.Moments.{Elapses};
ghost use Rattle.flash_dev.specs.Tears.{erased_byte, programmed_byte};
ghost use Rattle.flash_dev.specs.Planned.{counted, planned, unplanned, ending_of, read_fails, after_change, after_read};
ghost use Rattle.flash_dev.specs.declared.tear.Ending.TheVariants.{Done};
ghost use Rattle.ssu_io.specs.Faults.{HasCause};

use crate::Flash;
use crate::call::{Call, Change, array_of};
use crate::change::apply;
use crate::schedule::Schedule;
use crate::tear::{Ending, Tear};
use ssu_io::{Failed, NoMemory};
use std::alloc::{AllocError, Global};

/// A flash in memory. It counts its erases and programs from 1, and its reads apart, those that fail
/// included; a test may have any of them fail. It keeps what it held at first and each change, as many as
/// were reserved.
#[derive(Drop)]
pub struct MemFlash {
    blocks: u32,
    block_size: u32,
    first: Vec<u8>,
    held: Vec<u8>,
    calls: Vec<Call>,
    schedule: Schedule,
    faults: u64,
    ghost whole: { length held.items ≡ blocks * block_size },
    ghost addressable: { blocks * block_size < 2 ^ 32 },
    ghost bytes: { (k : ℕ) → slice_index held.items k ≤ 255 },
    ghost replayed: { held.items ≡ after_calls calls.items first.items },
    ghost room: { schedule.room ≤ vec_capacity calls },
    ghost counted: { vec_len calls ≤ schedule.changes },
}

impl MemFlash {
    ghost use Rattle.flash_dev.specs.Memory.{block_count_of, block_len_of, contents_of, faults_of, halted_of, left_since_of, moment_of, plan_of};

    /// A flash of `blocks` blocks of `block_size` bytes that is all 255, with room for `calls` erases and programs.
    /// It has at most 4,294,967,295 bytes. `NoMemory` is the one refusal.
    pub fn blank(
        alloc: Global,
        blocks: u32,
        block_size: u32,
        calls: u32,
    ) -> Result<MemFlash, NoMemory>
        requires { blocks * block_size < 2 ^ 32 }
        ensures contents { IfOk result (λ flash. contents_of flash ≡ replicate (blocks * block_size) 255) }
        ensures blocks { IfOk result (λ flash. block_count_of flash ≡ blocks) }
        ensures block_size { IfOk result (λ flash. block_len_of flash ≡ block_size) }
        ensures plan { IfOk result (λ flash. plan_of flash ≡ unplanned calls) }
        ensures faults { IfOk result (λ flash. faults_of flash ≡ 0) }
        ensures moment { IfOk result (λ flash. moment_of flash ≡ 0) }
    {
        let len = blocks as usize * block_size as usize;
        let held = vec![in alloc; 255u8; len]?;
        MemFlash::of(alloc, held, blocks, block_size, calls)
    }

    /// A flash with these contents, which are whole blocks of `block_size` bytes and at most 4,294,967,295 bytes, and
    /// with room for `calls` erases and programs. `NoMemory` is the one refusal.
    pub fn holding(
        alloc: Global,
        contents: &[u8],
        block_size: u32,
        calls: u32,
    ) -> Result<MemFlash, NoMemory>
        requires whole { length contents.now % block_size ≡ 0 }
        requires addressable { length contents.now < 2 ^ 32 }
        ensures contents { IfOk result (λ flash. contents_of flash ≡ contents.now) }
        ensures blocks { IfOk result (λ flash. block_count_of flash * block_size ≡ length contents.now) }
        ensures block_size { IfOk result (λ flash. block_len_of flash ≡ block_size) }
        ensures plan { IfOk result (λ flash. plan_of flash ≡ unplanned calls) }
        ensures faults { IfOk result (λ flash. faults_of flash ≡ 0) }
        ensures moment { IfOk result (λ flash. moment_of flash ≡ 0) }
    {
        let blocks = block_number(contents.len(), block_size);
        let held = contents.to_vec(alloc)?;
        MemFlash::of(alloc, held, blocks, block_size, calls)
    }

    /// Has the erase or program of this number fail, torn as `tear` says. Of several such wishes for one number the
    /// first holds. `NoMemory` is the one refusal, and leaves all as it was.
    pub fn fail_at(&mut self, call: u32, tear: Tear) -> Result<(), NoMemory>
        ensures ok { OnOk result (plan_of self.new ≡ record (plan_of self.old) { fails = (plan_of self.old).fails ++ (call, tear) ∷ [] }) }
        ensures err { OnErr result (plan_of self.new ≡ plan_of self.old) }
        ensures contents { contents_of self.new ≡ contents_of self.old }
        ensures blocks { block_count_of self.new ≡ block_count_of self.old }
        ensures block_size { block_len_of self.new ≡ block_len_of self.old }
        ensures faults { faults_of self.new ≡ faults_of self.old }
        ensures moment { moment_of self.new ≡ moment_of self.old }
        ensures left { (t : ℕ) (c : List ℕ) → left_since_of self.new t c ↔ left_since_of self.old t c }
    {
        self.schedule.fail_at(call, tear)
    }

    /// Has the read of this number fail. `NoMemory` is the one refusal, and leaves all as it was.
    pub fn fail_read(&mut self, call: u32) -> Result<(), NoMemory>
        ensures ok { OnOk result (plan_of self.new ≡ record (plan_of self.old) { failing_reads = (plan_of self.old).failing_reads ++ call ∷ [] }) }
        ensures err { OnErr result (plan_of self.new ≡ plan_of self.old) }
        ensures contents { contents_of self.new ≡ contents_of self.old }
        ensures blocks { block_count_of self.new ≡ block_count_of self.old }
        ensures block_size { block_len_of self.new ≡ block_len_of self.old }
        ensures faults { faults_of self.new ≡ faults_of self.old }
        ensures moment { moment_of self.new ≡ moment_of self.old }
        ensures left { (t : ℕ) (c : List ℕ) → left_since_of self.new t c ↔ left_since_of self.old t c }
    {
        self.schedule.fail_read(call)
    }

    /// Has the erase or program of this number torn, and it and every later call of the flash fail. A
    /// later wish takes the place of an earlier one.
    pub fn stop_at(&mut self, call: u32, tear: Tear)
        ensures plan { plan_of self.new ≡ record (plan_of self.old) { stop = Some (call, tear) } }
        ensures contents { contents_of self.new ≡ contents_of self.old }
        ensures blocks { block_count_of self.new ≡ block_count_of self.old }
        ensures block_size { block_len_of self.new ≡ block_len_of self.old }
        ensures faults { faults_of self.new ≡ faults_of self.old }
        ensures moment { moment_of self.new ≡ moment_of self.old }
        ensures left { (t : ℕ) (c : List ℕ) → left_since_of self.new t c ↔ left_since_of self.old t c }
    {
        self.schedule.stop_at(call, tear);
    }

    /// What the flash holds.
    pub fn contents(&self) -> &[u8]
        ensures { result.now ≡ contents_of self.now }
    {
        &self.held
    }

    fn of(
        alloc: Global,
        held: Vec<u8>,
        blocks: u32,
        block_size: u32,
        calls: u32,
    ) -> Result<MemFlash, NoMemory>
        requires whole { length held.items ≡ blocks * block_size }
        requires addressable { blocks * block_size < 2 ^ 32 }
        ensures contents { IfOk result (λ flash. contents_of flash ≡ held.items) }
        ensures blocks { IfOk result (λ flash. block_count_of flash ≡ blocks) }
        ensures block_size { IfOk result (λ flash. block_len_of flash ≡ block_size) }
        ensures plan { IfOk result (λ flash. plan_of flash ≡ unplanned calls) }
        ensures faults { IfOk result (λ flash. faults_of flash ≡ 0) }
        ensures moment { IfOk result (λ flash. moment_of flash ≡ 0) }
    {
        let first = copied(alloc, &held)?;
        Ok(MemFlash {
            blocks,
            block_size,
            first,
            held,
            calls: Vec::with_capacity(alloc, calls as usize)?,
            schedule: Schedule::new(alloc, calls),
            faults: 0,
        })
    }

    /// Makes a change as far as it comes, and records it.
    fn change(&mut self, change: Change) -> Result<(), Failed>
        requires { IsInside change (length self.old.held.items) }
        ensures answer { IsOk result ↔ (ending_of (plan_of self.old) ≡ Done) }
        ensures held { self.new.held.items ≡ changed (ending_of (plan_of self.old)) change self.old.held.items }
        ensures alters { Alters (ending_of (plan_of self.old)) change self.old.held.items self.new.held.items }
        ensures calls { self.new.calls.items ≡ recorded self.old.calls.items change (ending_of (plan_of self.old)) }
        ensures first { self.new.first.items ≡ self.old.first.items }
        ensures blocks { self.new.blocks ≡ self.old.blocks }
        ensures block_size { self.new.block_size ≡ self.old.block_size }
        ensures plan { plan_of self.new ≡ after_change (plan_of self.old) }
        ensures time { Elapses (length self.old.calls.items) (length self.new.calls.items)
            (λ t c. LeftSince t self.old.calls.items self.old.first.items c)
            (λ t c. LeftSince t self.new.calls.items self.new.first.items c)
            (λ c. Tears change self.old.held.items c ⊎ (c ≡ self.new.held.items)) }
        ensures counts { (halted_of self.old → ⊥) → (t : ℕ) (c : List ℕ) → t ≤ length self.old.calls.items
            → Tears change self.old.held.items c → LeftSince t self.new.calls.items self.new.first.items c }
        ensures halt { halted_of self.old → IsErr result × halted_of self.new }
        ensures faults { self.new.faults ≡ (if is_ok result then self.old.faults else counted self.old.faults) }
        ensures cause { HasCause self.old.faults self.new.faults result }
    {
        let outcome = make(&mut self.held, &mut self.calls, &mut self.schedule, change);
        if outcome.is_err() {
            self.faults = self.faults.saturating_add(1);
        }
        outcome
    }
}

/// The same bytes, each of which is a byte.
fn copied(alloc: Global, bytes: &[u8]) -> Result<Vec<u8>, AllocError>
    ensures same { IfOk result (λ copy. copy.items ≡ bytes.now) }
    ensures bytes { (k : ℕ) → slice_index bytes.now k ≤ 255 }
{
    bytes.to_vec(alloc)
}

/// Makes a change that the schedule does not refuse, and records it.
fn make(
    held: &mut Vec<u8>,
    calls: &mut Vec<Call>,
    schedule: &mut Schedule,
    change: Change,
) -> Result<(), Failed>
    requires inside { IsInside change (length held.old.items) }
    requires addressable { length held.old.items < 2 ^ 32 }
    requires bytes { (k : ℕ) → slice_index held.old.items k ≤ 255 }
    requires room { schedule.old.room ≤ vec_capacity calls.old }
    requires counted { vec_len calls.old ≤ schedule.old.changes }
    ensures answer { IsOk result ↔ (ending_of (planned schedule.old) ≡ Done) }
    ensures held { held.new.items ≡ changed (ending_of (planned schedule.old)) change held.old.items }
    ensures alters { Alters (ending_of (planned schedule.old)) change held.old.items held.new.items }
    ensures bytes { (k : ℕ) → slice_index held.new.items k ≤ 255 }
    ensures calls { calls.new.items ≡ recorded calls.old.items change (ending_of (planned schedule.old)) }
    ensures room { schedule.new.room ≤ vec_capacity calls.new }
    ensures counted { vec_len calls.new ≤ schedule.new.changes }
    ensures plan { planned schedule.new ≡ after_change (planned schedule.old) }
{
    let ending = schedule.next_change();
    apply(held, &change, ending);
    match ending {
        Ending::Done => keep(calls, change, ending, Ok(())),
        Ending::Torn(_) => keep(calls, change, ending, Err(Failed)),
        Ending::Refused => Err(Failed),
    }
}

/// Records a change, for which there is room, and gives the answer back.
fn keep(
    calls: &mut Vec<Call>,
    change: Change,
    ending: Ending,
    answer: Result<(), Failed>,
) -> Result<(), Failed>
    requires { vec_len calls.old < vec_capacity calls.old }
    ensures calls { calls.new.items ≡ calls.old.items ++ record { change = change; ending = ending } ∷ [] }
    ensures capacity { vec_capacity calls.old ≤ vec_capacity calls.new }
    ensures len { vec_len calls.new ≡ vec_len calls.old + 1 }
    ensures answer { result ≡ answer }
{
    match calls.push(Call { change, ending }) {
        Ok(()) => answer,
        Err(_) => unreachable!(),
    }
}

/// The number of whole blocks, 0 where a block has no bytes.
fn block_number(len: usize, block_size: u32) -> u32
    requires whole { len % block_size ≡ 0 }
    requires addressable { len < 2 ^ 32 }
    ensures { result * block_size ≡ len }
{
    if block_size == 0 {
        0
    } else {
        (len / block_size as usize) as u32
    }
}

impl Flash for MemFlash {
    ghost use Rattle.flash_dev.specs.Memory.{block_count_of, block_len_of, contents_of, faults_of, halted_of};
    ghost use Rattle.flash_dev.specs.Memory.{left_held, left_since_of, moment_of, only_held, plan_of};

    ghost tells = { Unit {0} };

    ghost tells_moments = { Unit {0} };

    ghost contents = { contents_of };

    ghost block_count = { block_count_of };

    ghost block_len = { block_len_of };

    ghost moment = { moment_of };

    ghost left_since = { left_since_of };

    ghost halted = { halted_of };

    ghost faults = { faults_of };

    ghost are_bytes = { λ _ m k. m.bytes k };

    ghost counts_now = { λ _ m t le. left_held m t };

    ghost only_now = { λ m c left. only_held m c left };

    fn blocks(&self) -> u32 {
        self.blocks
    }

    fn block_size(&self) -> u32 {
        self.block_size
    }

    /// Beside what each flash promises: which reads fail. `Failed` comes exactly where the flash has stopped, or the
    /// read of this number is to fail.
    fn read(&mut self, at: u32, buf: &mut [u8]) -> Result<(), Failed>
        requires { at + length buf.old ≤ block_count_of self.old * block_len_of self.old }
        ensures answer { IsErr result ↔ (read_fails (plan_of self.old) ≡ true) }
        ensures plan { plan_of self.new ≡ after_read (plan_of self.old) }
        ensures bytes { OnOk result (Holds (contents_of self.old) at buf.new) }
        ensures same { contents_of self.new ≡ contents_of self.old }
        ensures blocks { block_count_of self.new ≡ block_count_of self.old }
        ensures block_size { block_len_of self.new ≡ block_len_of self.old }
        ensures time { Elapses (moment_of self.old) (moment_of self.new) (left_since_of self.old) (left_since_of self.new)
            (λ c. c ≡ contents_of self.new) }
        ensures halt { halted_of self.new ↔ halted_of self.old }
        ensures faults { faults_of self.new ≡ (if is_ok result then faults_of self.old else counted (faults_of self.old)) }
        ensures cause { HasCause (faults_of self.old) (faults_of self.new) result }
    {
        if self.schedule.next_read_fails() {
            self.faults = self.faults.saturating_add(1);
            return Err(Failed);
        }
        let start = at as usize;
        buf.copy_from_slice(&self.held[start..start + buf.len()]);
        Ok(())
    }

    /// Beside what each flash promises: which erases fail, and what exactly each leaves. `Failed` comes exactly where
    /// the flash has stopped, no room is left, or the erase of this number is to be torn.
    fn erase(&mut self, block: u32) -> Result<(), Failed>
        requires { block < block_count_of self.old }
        ensures answer { IsOk result ↔ (ending_of (plan_of self.old) ≡ Done) }
        ensures plan { plan_of self.new ≡ after_change (plan_of self.old) }
        ensures exact { contents_of self.new ≡ changed_in (block * block_len_of self.old) (block_len_of self.old)
            (erased_byte (ending_of (plan_of self.old))) (contents_of self.old) }
        ensures done { OnOk result (Changes (block * block_len_of self.old) (block_len_of self.old)
            IsErased (contents_of self.old) (contents_of self.new)) }
        ensures torn { OnErr result (Changes (block * block_len_of self.old) (block_len_of self.old)
            IsTornErase (contents_of self.old) (contents_of self.new)) }
        ensures blocks { block_count_of self.new ≡ block_count_of self.old }
        ensures block_size { block_len_of self.new ≡ block_len_of self.old }
        ensures time { Elapses (moment_of self.old) (moment_of self.new) (left_since_of self.old) (left_since_of self.new)
            (λ c. Changes (block * block_len_of self.old) (block_len_of self.old) IsTornErase (contents_of self.old) c
            ⊎ (c ≡ contents_of self.new)) }
        ensures counts { (halted_of self.old → ⊥) → (t : ℕ) (c : List ℕ) → t ≤ moment_of self.old
            → Changes (block * block_len_of self.old) (block_len_of self.old) IsTornErase (contents_of self.old) c
            → left_since_of self.new t c }
        ensures halt { halted_of self.old → IsErr result × halted_of self.new }
        ensures faults { faults_of self.new ≡ (if is_ok result then faults_of self.old else counted (faults_of self.old)) }
        ensures cause { HasCause (faults_of self.old) (faults_of self.new) result }
    {
        self.change(Change::Erase(block * self.block_size, self.block_size))
    }

    /// Beside what each flash promises: which programs fail, and what exactly each leaves. `Failed` comes exactly
    /// where the flash has stopped, no room is left, or the program of this number is to be torn.
    fn program(&mut self, at: u32, bytes: &[u8]) -> Result<(), Failed>
        requires few { length bytes.now ≤ 256 }
        requires inside { at + length bytes.now ≤ block_count_of self.old * block_len_of self.old }
        requires blank { IsBlank (contents_of self.old) at (length bytes.now) }
        ensures answer { IsOk result ↔ (ending_of (plan_of self.old) ≡ Done) }
        ensures plan { plan_of self.new ≡ after_change (plan_of self.old) }
        ensures exact { contents_of self.new ≡ changed_in at (length bytes.now)
            (λ k byte. programmed_byte (ending_of (plan_of self.old)) k (slice_index bytes.now k) byte) (contents_of self.old) }
        ensures done { OnOk result (Changes at (length bytes.now)
            (IsProgrammed bytes.now) (contents_of self.old) (contents_of self.new)) }
        ensures torn { OnErr result (Changes at (length bytes.now)
            (IsTornProgram bytes.now) (contents_of self.old) (contents_of self.new)) }
        ensures blocks { block_count_of self.new ≡ block_count_of self.old }
        ensures block_size { block_len_of self.new ≡ block_len_of self.old }
        ensures time { Elapses (moment_of self.old) (moment_of self.new) (left_since_of self.old) (left_since_of self.new)
            (λ c. Changes at (length bytes.now) (IsTornProgram bytes.now) (contents_of self.old) c
            ⊎ (c ≡ contents_of self.new)) }
        ensures counts { (halted_of self.old → ⊥) → (t : ℕ) (c : List ℕ) → t ≤ moment_of self.old
            → Changes at (length bytes.now) (IsTornProgram bytes.now) (contents_of self.old) c
            → left_since_of self.new t c }
        ensures halt { halted_of self.old → IsErr result × halted_of self.new }
        ensures faults { faults_of self.new ≡ (if is_ok result then faults_of self.old else counted (faults_of self.old)) }
        ensures cause { HasCause (faults_of self.old) (faults_of self.new) result }
    {
        self.change(Change::Program(at, array_of(bytes)))
    }
}
