//! What a stage that keeps its places may build on, each law as the contract of a function that does nothing. x is what a flash held
//! before a call, and y what the call, torn or done, may leave of it.

ghost use Rattle.std.specs.Prelude.{◌≡◌, ◌+◌, ◌-◌, ◌<◌, ◌≤◌, List, length, slice_index, ℕ};
ghost use Rattle.bank_kept.specs.Bank.{area_of_bank};
ghost use Rattle.bank_kept.specs.Contents.{HasSpareArea, HoldsGroup, HoldsPlace, StagesGroup, StagesPlace, spare_of};
ghost use Rattle.bank_kept.specs.Leaving.{HoldsNoMore, HoldsNoMoreBut, KeepsStaged};
ghost use Rattle.dsmcc_msg.specs.Control.{DiiFields};
ghost use Rattle.flash_bank.specs.Bank.{Fits, LeavesBegun, LeavesCommitted, current_of, geometry_of, spare_journal};
ghost use Rattle.flash_bank.specs.Journal.{LeavesPut, LeavesResumed, Puts, slot_place};
ghost use Rattle.flash_bank.specs.Runs.{IsRaised};
ghost use Rattle.flash_bank.specs.Sound.{Boot, Commits, IsCurrent, IsSound, Keeps, number_in, record_in};
ghost use Rattle.flash_bank.specs.declared.bank.Bank.{Bank};
ghost use Rattle.flash_bank.specs.declared.record.Record.{Record};
ghost use Rattle.flash_dev.specs.Changes.{Changes, IsBlank};
ghost use Rattle.flash_kept.specs.Held.{HasHeldMessage};
ghost use Rattle.flash_kept.specs.Leaving.{ChangesHeader, ChangesSlot, HeaderStands, IsErasedArea, SameArea};
ghost use Rattle.flash_kept.specs.Lost.{lost_places};
ghost use Rattle.flash_kept.specs.Offering.{LeavesOffered, Offers};
ghost use Rattle.flash_kept.specs.Slots.{free_slots};
ghost use Rattle.flash_kept.specs.SpareArea.{SpareArea};
ghost use Rattle.flash_layout.specs.Journal.{header_written};
ghost use Rattle.flash_layout.specs.Layout.{Geometry, IsInLimits, journal_place};
ghost use Rattle.flash_layout.specs.Pairs.{paired};
ghost use Rattle.flash_layout.specs.Slots.{slot_written};
ghost use Rattle.ssu_group.specs.declared.places.Place.{Place};

/// Contents hold one message at most, of one DII.
pub fn one_group_is_held()
    ensures { (g : Geometry) (c first second : List ℕ) (one two : DiiFields) → HoldsGroup g c first one → HoldsGroup g c second two
        → (first ≡ second) × (one ≡ two) }
{}

/// `begin` and `forget` add nothing to what is held, wherever the power goes, and neither does any call that leaves the spare area as it was.
/// And so it is of calls one after another.
pub fn calls_hold_no_more()
    ensures begun { (g : Geometry) (x y : List ℕ) (r : ℕ) → IsInLimits g → IsSound g x → IsCurrent g x r → LeavesBegun g x y → HoldsNoMore g x y }
    ensures forgotten { (g : Geometry) (x y : List ℕ) (r : ℕ) → IsInLimits g → IsSound g x → IsCurrent g x r → Keeps g x y
        → Changes (journal_place g (1 - (record_in g x r).bank)) g.block_len IsRaised x y → HoldsNoMore g x y }
    ensures same { (g : Geometry) (x y : List ℕ) (r : ℕ) → IsInLimits g → IsSound g x → IsCurrent g x r → Keeps g x y
        → ((record_in g x r).layout ≡ 2 → SameArea (spare_of g x r) x y) → HoldsNoMore g x y }
    ensures joined { (g : Geometry) (x y z : List ℕ) → HoldsNoMore g x y → HoldsNoMore g y z → HoldsNoMore g x z }
{}

/// Where the first bytes of the spare journal are erased, no message is held.
pub fn erased_journal_holds_nothing()
    ensures { (g : Geometry) (c : List ℕ) (r : ℕ) → IsInLimits g → IsCurrent g c r → IsBlank c (journal_place g (1 - (record_in g c r).bank)) 2
        → (message : List ℕ) (dii : DiiFields) → HoldsGroup g c message dii → ⊥ }
{}

/// Once the next record stands, which names the area that was spare, no message is held: the header of the other area is too old.
pub fn committed_record_holds_nothing()
    ensures { (g : Geometry) (new : Boot) (x y : List ℕ) (r : ℕ) → IsInLimits g → IsCurrent g x r → new.head.number ≡ number_in g x r + 1
        → new.head.bank ≡ 1 - (record_in g x r).bank → Commits g new x y → (message : List ℕ) (dii : DiiFields) → HoldsGroup g y message dii → ⊥ }
{}

/// While `head` writes a header into an erased area no place is held; once the header stands with a message, its group is staged, with no place
/// lost and all 16 slots free.
pub fn header_stages_its_group()
    ensures torn { (g : Geometry) (area : SpareArea) (x y : List ℕ) → IsInLimits g → IsSound g x → HasSpareArea g x area → Keeps g x y
        → IsErasedArea area x → ChangesHeader area x y → (message : List ℕ) (n : ℕ) (bytes : List ℕ) → HoldsPlace g y message n bytes → ⊥ }
    ensures done { (g : Geometry) (area : SpareArea) (x y message : List ℕ) (dii : DiiFields) → IsInLimits g → IsSound g x → HasSpareArea g x area
        → Keeps g x y → IsErasedArea area x → ChangesHeader area x y → HasHeldMessage area y message dii → StagesGroup g y message dii }
    ensures none_lost { (g : Geometry) (area : SpareArea) (x y message : List ℕ) (dii : DiiFields) → IsInLimits g → IsSound g x → HasSpareArea g x area
        → IsErasedArea area x → ChangesHeader area x y → HasHeldMessage area y message dii → lost_places area dii y ≡ 0 }
    ensures all_free { (g : Geometry) (area : SpareArea) (x y : List ℕ) → IsInLimits g → IsSound g x → HasSpareArea g x area
        → IsErasedArea area x → ChangesHeader area x y → free_slots area y ≡ 16 }
{}

/// `resume`, and `commit` while boot takes what it took, leave the spare area as it was: all that was staged is, and the margin stays.
pub fn resumed_area_keeps_all()
    ensures group { (g : Geometry) (x y : List ℕ) → IsInLimits g → Keeps g x y
        → ((area : SpareArea) → HasSpareArea g x area → SameArea area x y) → (message : List ℕ) (dii : DiiFields) → StagesGroup g x message dii
        → StagesGroup g y message dii }
    ensures all { (g : Geometry) (x y : List ℕ) → IsInLimits g → Keeps g x y
        → ((area : SpareArea) → HasSpareArea g x area → SameArea area x y) → KeepsStaged g 0 0 x y }
{}

/// What the offer of a place leaves of the spare area it leaves of what is held and staged.
pub fn offers_stage_one_place()
    ensures left { (g : Geometry) (area : SpareArea) (dii : DiiFields) (message : List ℕ) (a : ℕ) (bytes x y : List ℕ) → HasSpareArea g x area
        → Keeps g x y → LeavesOffered area dii message a bytes x y → HoldsNoMoreBut g message a bytes x y }
    ensures left_staged { (g : Geometry) (area : SpareArea) (dii : DiiFields) (message : List ℕ) (a : ℕ) (bytes x y : List ℕ) → HasSpareArea g x area
        → Keeps g x y → StagesGroup g x message dii → LeavesOffered area dii message a bytes x y → KeepsStaged g 1 1 x y }
    ensures done { (g : Geometry) (area : SpareArea) (dii : DiiFields) (message : List ℕ) (a : ℕ) (bytes x y : List ℕ) → HasSpareArea g x area
        → Keeps g x y → Offers area dii message a bytes x y → StagesPlace g y message a bytes }
    ensures done_staged { (g : Geometry) (area : SpareArea) (dii : DiiFields) (message : List ℕ) (a : ℕ) (bytes x y : List ℕ) → HasSpareArea g x area
        → Keeps g x y → StagesGroup g x message dii → Offers area dii message a bytes x y → KeepsStaged g 0 0 x y }
{}

/// What the calls of an open bank of layout 2 change of its spare area, in the words of flash_kept: `spare` a slot, `head` the place of the
/// header, `resume` and `commit` nothing. What `fill` and `mark` say of their ranges is in those words as it stands.
pub fn calls_change_their_part()
    ensures area { (bank : Bank) (c : List ℕ) → Fits bank c → (current_of bank).layout ≡ 2 → HasSpareArea (geometry_of bank) c (area_of_bank bank) }
    ensures spared { (bank : Bank) (s : ℕ) (p : Place) (bytes x y : List ℕ) → length bytes ≡ p.len → p.len ≤ 4066
        → LeavesPut (geometry_of bank) (slot_place bank s + 256) bytes (slot_place bank s) (slot_written p.at (length bytes)) x y
        → ChangesSlot (area_of_bank bank) s p bytes x y }
    ensures spared_done { (bank : Bank) (s : ℕ) (p : Place) (bytes x y : List ℕ) → length bytes ≡ p.len → p.len ≤ 4066
        → Puts (slot_place bank s + 256) bytes (slot_place bank s) (slot_written p.at (length bytes)) x y
        → ChangesSlot (area_of_bank bank) s p bytes x y }
    ensures spared_head { (bank : Bank) (s : ℕ) (p : Place) (bytes x y : List ℕ) → length bytes ≡ p.len
        → Puts (slot_place bank s + 256) bytes (slot_place bank s) (slot_written p.at (length bytes)) x y
        → (k : ℕ) → k < 16 → slice_index y (slot_place bank s + k) ≡ slice_index (slot_written p.at p.len) k }
    ensures headed { (bank : Bank) (message x y : List ℕ) → length message ≤ 4084
        → LeavesPut (geometry_of bank) (spare_journal bank + 256) (paired message) (spare_journal bank)
        (header_written ((current_of bank).number + 1) (length message)) x y
        → ChangesHeader (area_of_bank bank) x y }
    ensures headed_done { (bank : Bank) (message x y : List ℕ) → length message ≤ 4084
        → Puts (spare_journal bank + 256) (paired message) (spare_journal bank) (header_written ((current_of bank).number + 1) (length message)) x y
        → ChangesHeader (area_of_bank bank) x y × HeaderStands (area_of_bank bank) message y }
    ensures resumed { (bank : Bank) (x y : List ℕ) → LeavesResumed bank x y → SameArea (area_of_bank bank) x y }
    ensures committed { (bank : Bank) (new : Record) (x y : List ℕ) → LeavesCommitted bank new x y → SameArea (area_of_bank bank) x y }
{}

/// Where calls one after another leave what boot takes, what each keeps of what is staged they keep together; a call that keeps all keeps as
/// much as one within which the power goes.
pub fn calls_keep_what_is_staged()
    ensures joined { (g : Geometry) (fall least : ℕ) (x y z : List ℕ) → Keeps g x y → KeepsStaged g 0 0 x y → KeepsStaged g fall least y z
        → KeepsStaged g fall least x z }
    ensures weaker { (g : Geometry) (fall least : ℕ) (x y : List ℕ) → KeepsStaged g 0 0 x y → KeepsStaged g fall least x y }
{}
