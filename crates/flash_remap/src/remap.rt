//! A flash whose failing blocks are replaced by spares.
ghost use Rattle.std.specs.Prelude.{true, false, ◌≡◌, ◌⊎◌, ◌↔◌, ◌+◌, ◌-◌, ◌*◌, ◌/◌, ◌<◌, ◌≤◌, List, ℕ, length, IfErr, IfOk};
ghost use Rattle.std.specs.Prelude.{IsErrAnd, IsErr, OnErr, OnOk};
ghost use Rattle.flash_dev.specs.Changes.{Changes, Holds, IsBlank, IsErased, IsProgrammed, IsTornErase, IsTornProgram, LiesInOneBlock};
ghost use Rattle.flash_dev.specs.Moments.{Elapses};
ghost use Rattle.flash_remap.specs.Change.{AreBytes, FindsBlank, IsDoneBy, IsTornBy, LiesInBlock, begins_at, changed_len};
ghost use Rattle.flash_remap.specs.Layout.{IsInLimits, IsLaidOut, blocks_in, geometry_in, left_from, slots_in};
ghost use Rattle.flash_remap.specs.Logical.{logical};
ghost use Rattle.flash_remap.specs.Map.{AreNext, IsNextOf, are_below, counting, next_slot, next_spare, place_among, place_of};
ghost use Rattle.flash_remap.specs.Reads.{ChangesNothing};
ghost use Rattle.flash_remap.specs.Shape.{geometry};
ghost use Rattle.ssu_io.specs.Faults.{HasCause, Rose};

use crate::block_change::change_block;
use crate::change::Change;
use crate::entry::Entry;
use crate::fault::RemapFault;
use crate::layout::{Layout, Next, layout_of};
use crate::map::{Found, MOST_ENTRIES, place_among, read_map};
use crate::read::read_logical;
use arrayvec::ArrayVec;
use flash_dev::Flash;
use ssu_io::Failed;

/// A flash over a flash. Its blocks are the first ones of the flash beneath; a spare stands for each that failed, as the
/// map in the last block says. Once an erase or program fails and no replacement is left it is worn: each call fails
/// until the flash beneath is opened anew.
#[derive(Drop)]
pub struct Remap<F: Flash> {
    inner: F,
    layout: Layout,
    entries: ArrayVec<Entry, MOST_ENTRIES>,
    next: Next,
    worn: bool,
    faults: u64,
    ghost laid_out: { IsLaidOut (geometry layout) },
    ghost blocks: { F.block_count inner ≡ blocks_in (geometry layout) },
    ghost block_size: { F.block_len inner ≡ layout.block_size },
    ghost spare: { next.spare ≤ layout.spares },
    ghost slot: { next.slot ≤ slots_in (geometry layout) },
    ghost few: { length entries.items ≤ next.spare },
    ghost in_use: { are_below entries.items next.spare ≡ true },
    ghost whole: { F.tells → length (F.contents inner) ≡ F.block_count inner * F.block_len inner },
    ghost stands: { F.tells → worn ≡ false → (block : ℕ) → block < layout.logical
        → place_among (geometry layout) entries.items block ≡ place_of (geometry layout) (F.contents inner) block },
    ghost next_is: { F.tells → worn ≡ false → AreNext (geometry layout) (F.contents inner) next.spare next.slot },
    ghost used_up: { worn ≡ true → left_from (geometry layout) next.spare next.slot ≡ 0 },
}

impl<F: Flash> Remap<F> {
    ghost use Rattle.flash_remap.specs.Seen.{Answers, Places, Wears, block_count_of, block_len_of, contents_of, faults_of};
    ghost use Rattle.flash_remap.specs.Seen.{geometry_of, halted_of, inner_of, left_of, left_since_of, worn_of};

    /// Opens a flash that has so many spares, with the replacements that its map tells of. It changes nothing, and takes no
    /// memory.
    ///
    /// Answers `Geometry` exactly where `spares` is 0 or above 255, or the flash has fewer than `spares + 5` blocks or more
    /// than `spares + 65_537`; `Flash` only where the flash failed and its count of faults rose. Beside either it gives the
    /// flash back.
    pub fn open(inner: F, spares: u32) -> Result<Remap<F>, (F, RemapFault)>
        // The geometry.
        ensures limits { IsErrAnd result (λ refused. refused.1 ≡ RemapFault.Geometry) ↔ (IsInLimits (F.block_count inner) spares → ⊥) }
        ensures unchanged { IfErr result (λ refused. refused.1 ≡ RemapFault.Geometry → refused.0 ≡ inner) }
        ensures fault { IfErr result (λ refused. refused.1 ≡ RemapFault.Flash → Rose (F.faults inner) (F.faults refused.0)) }
        ensures geometry { IfOk result (λ it. geometry_of it ≡ geometry_in (F.block_count inner) spares (F.block_len inner)) }
        ensures blocks { IfOk result (λ it. block_count_of it ≡ F.block_count inner - 1 - spares) }
        ensures block_size { IfOk result (λ it. block_len_of it ≡ F.block_len inner) }

        // What is held, and what is left.
        ensures contents { F.tells → IfOk result (λ it. contents_of it
            ≡ logical (geometry_in (F.block_count inner) spares (F.block_len inner)) (F.contents inner)) }
        ensures left { F.tells → IfOk result (λ it. left_of it
            ≡ left_from (geometry_of it) (next_spare (geometry_of it) (F.contents inner)) (next_slot (geometry_of it) (F.contents inner))) }
        ensures fresh { IfOk result (λ it. (worn_of it ≡ false) × (faults_of it ≡ 0)) }
        ensures reads { IfOk result (λ it. ChangesNothing F.Flash inner (inner_of it)) }
        ensures reads_err { IfErr result (λ refused. ChangesNothing F.Flash inner refused.0) }
        ensures faults { IfOk result (λ it. F.faults inner ≤ F.faults (inner_of it)) }
        ensures faults_err { IfErr result (λ refused. F.faults inner ≤ F.faults refused.0) }
    {
        let Some(layout) = layout_of(&inner, spares) else {
            return Err((inner, RemapFault::Geometry));
        };
        let mut inner = inner;
        match read_map(&mut inner, layout) {
            Err(_) => Err((inner, RemapFault::Flash)),
            Ok(found) => Ok(Remap::of(inner, layout, found)),
        }
    }

    /// How many replacements are left: the lesser of the spares and the slots of the map that are not used up. Of a worn
    /// one none is; the map of the flash beneath may tell of more, which are tried again once it is opened anew.
    pub fn left(&self) -> u32
        ensures value { result ≡ left_of self.now }
        ensures told { F.tells → worn_of self.now ≡ false → result ≡ left_from (geometry_of self.now)
            (next_spare (geometry_of self.now) (F.contents (inner_of self.now))) (next_slot (geometry_of self.now) (F.contents (inner_of self.now))) }
        ensures worn { worn_of self.now ≡ true → result ≡ 0 }
    {
        self.layout.left_from(self.next)
    }

    /// Whether an erase or program failed because no replacement was left: then each call fails.
    pub fn is_worn(&self) -> bool
        ensures { result ≡ worn_of self.now }
    {
        self.worn
    }

    /// The flash beneath.
    pub fn into_inner(self) -> F
        ensures { result ≡ inner_of self }
    {
        let Remap {
            inner,
            layout: _,
            entries: _,
            next: _,
            worn: _,
            faults: _,
        } = self;
        inner
    }

    fn of(inner: F, layout: Layout, found: Found) -> Remap<F>
        requires laid_out { IsLaidOut (geometry layout) }
        requires blocks { F.block_count inner ≡ blocks_in (geometry layout) }
        requires block_size { F.block_len inner ≡ layout.block_size }
        requires whole { F.tells → length (F.contents inner) ≡ F.block_count inner * F.block_len inner }
        requires next_is { IsNextOf found.entries.items found.next.spare }
        requires few { length found.entries.items ≤ found.next.spare }
        requires most_spare { found.next.spare ≤ layout.spares }
        requires most_slot { found.next.slot ≤ slots_in (geometry layout) }
        requires entries { F.tells → found.entries.items ≡ counting (geometry layout) (F.contents inner) }
        requires next { F.tells → AreNext (geometry layout) (F.contents inner) found.next.spare found.next.slot }
        ensures inner { inner_of result ≡ inner }
        ensures geometry { geometry_of result ≡ geometry layout }
        ensures left { left_of result ≡ left_from (geometry layout) found.next.spare found.next.slot }
        ensures worn { worn_of result ≡ false }
        ensures faults { faults_of result ≡ 0 }
    {
        let Found { entries, next } = found;
        Remap {
            inner,
            layout,
            entries,
            next,
            worn: false,
            faults: 0,
        }
    }

    /// Changes a logical block: the block that stands for it, or, where that fails, a spare.
    fn change(&mut self, block: u32, change: Change<'_>) -> Result<(), Failed>
        requires block { block < block_count_of self.old }
        requires inside { LiesInBlock (block_len_of self.old) change }
        requires bytes { AreBytes change }
        requires finds { F.tells → FindsBlank (block_len_of self.old) change (contents_of self.old) block }
        ensures done { F.tells → OnOk result (Changes (block * block_len_of self.old + begins_at change.entry)
            (changed_len (block_len_of self.old) change.entry) (IsDoneBy change.entry) (contents_of self.old) (contents_of self.new)) }
        ensures torn { F.tells → OnErr result (Changes (block * block_len_of self.old + begins_at change.entry)
            (changed_len (block_len_of self.old) change.entry) (IsTornBy change.entry) (contents_of self.old) (contents_of self.new)) }
        ensures blocks { block_count_of self.new ≡ block_count_of self.old }
        ensures block_size { block_len_of self.new ≡ block_len_of self.old }
        ensures time { Elapses (F.moment (inner_of self.old)) (F.moment (inner_of self.new)) (left_since_of self.old) (left_since_of self.new)
            (λ c. Changes (block * block_len_of self.old + begins_at change.entry) (changed_len (block_len_of self.old) change.entry)
            (IsTornBy change.entry) (contents_of self.old) c ⊎ (c ≡ contents_of self.new)) }
        ensures counts { F.tells → F.tells_moments → (halted_of self.old → ⊥) → (t : ℕ) (c : List ℕ) → t ≤ F.moment (inner_of self.old)
            → Changes (block * block_len_of self.old + begins_at change.entry) (changed_len (block_len_of self.old) change.entry)
            (IsTornBy change.entry) (contents_of self.old) c
            → left_since_of self.new t c }
        ensures halt { halted_of self.old → IsErr result × halted_of self.new }
        ensures cause { HasCause (faults_of self.old) (faults_of self.new) result }
        ensures answers { Answers self.old self.new result }
        ensures wears { Wears self.old self.new result }
        ensures places { Places block self.old self.new result }
    {
        if self.worn {
            self.faults = self.faults.saturating_add(1);
            return Err(Failed);
        }
        let from = place_among(self.layout, self.entries.as_slice(), block);
        let moved = change_block(
            &mut self.inner,
            self.layout,
            &mut self.next,
            block as u16,
            from,
            change,
        );
        match moved {
            Ok(None) => Ok(()),
            Ok(Some(entry)) => {
                self.entries.push(entry);
                Ok(())
            }
            Err(_) => {
                self.worn = true;
                self.faults = self.faults.saturating_add(1);
                Err(Failed)
            }
        }
    }
}

impl<F: Flash> Flash for Remap<F> {
    ghost use Rattle.flash_remap.specs.SeenLaws.{byte_seen, only_seen, seen_now};
    ghost use Rattle.flash_remap.specs.Seen.{Answers, Places, Wears, block_count_of, block_len_of, contents_of, faults_of};
    ghost use Rattle.flash_remap.specs.Seen.{halted_of, inner_of, left_of, left_since_of, worn_of};

    ghost tells = { F.tells };

    ghost tells_moments = { F.tells × F.tells_moments };

    ghost contents = { contents_of };

    ghost block_count = { block_count_of };

    ghost block_len = { block_len_of };

    ghost moment = { λ it. F.moment it.inner };

    ghost left_since = { left_since_of };

    ghost halted = { halted_of };

    ghost faults = { faults_of };

    ghost are_bytes = { λ tells it k. byte_seen (geometry it.layout) (F.contents it.inner) (F.are_bytes tells it.inner) k };

    ghost counts_now = { λ both it t le. seen_now (geometry it.layout) it.inner t both.0 (F.counts_now both.1 it.inner t le) };

    ghost only_now = { λ it c left. only_seen (geometry it.layout) it.inner c (F.only_now it.inner) left };

    fn blocks(&self) -> u32 {
        self.layout.logical
    }

    fn block_size(&self) -> u32 {
        self.layout.block_size
    }

    /// Beside what each flash promises: it is not worn by a read, and uses no replacement.
    fn read(&mut self, at: u32, buf: &mut [u8]) -> Result<(), Failed>
        requires { at + length buf.old ≤ block_count_of self.old * block_len_of self.old }
        ensures bytes { F.tells → OnOk result (Holds (contents_of self.old) at buf.new) }
        ensures same { F.tells → contents_of self.new ≡ contents_of self.old }
        ensures blocks { block_count_of self.new ≡ block_count_of self.old }
        ensures block_size { block_len_of self.new ≡ block_len_of self.old }
        ensures time { Elapses (F.moment (inner_of self.old)) (F.moment (inner_of self.new)) (left_since_of self.old) (left_since_of self.new)
            (λ c. c ≡ contents_of self.new) }
        ensures halt { halted_of self.new ↔ halted_of self.old }
        ensures cause { HasCause (faults_of self.old) (faults_of self.new) result }
        ensures answers { Answers self.old self.new result }
        ensures still_worn { worn_of self.new ≡ worn_of self.old }
        ensures left { left_of self.new ≡ left_of self.old }
        ensures reads { ChangesNothing F.Flash (inner_of self.old) (inner_of self.new) }
    {
        if self.worn {
            self.faults = self.faults.saturating_add(1);
            return Err(Failed);
        }
        match read_logical(
            &mut self.inner,
            self.layout,
            self.entries.as_slice(),
            at,
            buf,
        ) {
            Ok(()) => Ok(()),
            Err(_) => {
                self.faults = self.faults.saturating_add(1);
                Err(Failed)
            }
        }
    }

    /// Beside what each flash promises: a block that fails is replaced, and `Failed` comes where no replacement is left.
    fn erase(&mut self, block: u32) -> Result<(), Failed>
        requires { block < block_count_of self.old }
        ensures done { F.tells → OnOk result (Changes (block * block_len_of self.old) (block_len_of self.old)
            IsErased (contents_of self.old) (contents_of self.new)) }
        ensures torn { F.tells → OnErr result (Changes (block * block_len_of self.old) (block_len_of self.old)
            IsTornErase (contents_of self.old) (contents_of self.new)) }
        ensures blocks { block_count_of self.new ≡ block_count_of self.old }
        ensures block_size { block_len_of self.new ≡ block_len_of self.old }
        ensures time { Elapses (F.moment (inner_of self.old)) (F.moment (inner_of self.new)) (left_since_of self.old) (left_since_of self.new)
            (λ c. Changes (block * block_len_of self.old) (block_len_of self.old) IsTornErase (contents_of self.old) c
            ⊎ (c ≡ contents_of self.new)) }
        ensures counts { F.tells × F.tells_moments → (halted_of self.old → ⊥) → (t : ℕ) (c : List ℕ) → t ≤ F.moment (inner_of self.old)
            → Changes (block * block_len_of self.old) (block_len_of self.old) IsTornErase (contents_of self.old) c
            → left_since_of self.new t c }
        ensures halt { halted_of self.old → IsErr result × halted_of self.new }
        ensures cause { HasCause (faults_of self.old) (faults_of self.new) result }
        ensures answers { Answers self.old self.new result }
        ensures wears { Wears self.old self.new result }
        ensures places { Places block self.old self.new result }
    {
        self.change(block, Change::Erase)
    }

    /// Beside what each flash promises: a block that fails is replaced, its other bytes copied, and `Failed` comes where no
    /// replacement is left.
    fn program(&mut self, at: u32, bytes: &[u8]) -> Result<(), Failed>
        requires some { 1 ≤ length bytes.now }
        requires few { length bytes.now ≤ 256 }
        requires inside { at + length bytes.now ≤ block_count_of self.old * block_len_of self.old }
        requires one_block { LiesInOneBlock (block_len_of self.old) at (length bytes.now) }
        requires blank { F.tells → IsBlank (contents_of self.old) at (length bytes.now) }
        ensures done { F.tells → OnOk result (Changes at (length bytes.now)
            (IsProgrammed bytes.now) (contents_of self.old) (contents_of self.new)) }
        ensures torn { F.tells → OnErr result (Changes at (length bytes.now)
            (IsTornProgram bytes.now) (contents_of self.old) (contents_of self.new)) }
        ensures blocks { block_count_of self.new ≡ block_count_of self.old }
        ensures block_size { block_len_of self.new ≡ block_len_of self.old }
        ensures time { Elapses (F.moment (inner_of self.old)) (F.moment (inner_of self.new)) (left_since_of self.old) (left_since_of self.new)
            (λ c. Changes at (length bytes.now) (IsTornProgram bytes.now) (contents_of self.old) c ⊎ (c ≡ contents_of self.new)) }
        ensures counts { F.tells × F.tells_moments → (halted_of self.old → ⊥) → (t : ℕ) (c : List ℕ) → t ≤ F.moment (inner_of self.old)
            → Changes at (length bytes.now) (IsTornProgram bytes.now) (contents_of self.old) c
            → left_since_of self.new t c }
        ensures halt { halted_of self.old → IsErr result × halted_of self.new }
        ensures cause { HasCause (faults_of self.old) (faults_of self.new) result }
        ensures answers { Answers self.old self.new result }
        ensures wears { Wears self.old self.new result }
        ensures places { Places (at / block_len_of self.old) self.old self.new result }
    {
        let (block, within) = self.layout.parts(at);
        self.change(block, Change::Program(within, bytes))
    }
}
