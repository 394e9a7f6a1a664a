//! What a stage that keeps its places may build on, each law as the contract of a function that does nothing.

ghost use Rattle.std.specs.Prelude.{◌≡◌, ◌⊎◌, ◌%◌, ◌+◌, ◌<◌, ◌≤◌, ◌^◌, List, Some, None, false, length, slice_index, true, ℕ};
ghost use Rattle.dsmcc_msg.specs.Control.{DiiFields, dii_message};
ghost use Rattle.flash_dev.specs.Changes.{Changes, IsBlank, IsProgrammed, IsTornProgram};
ghost use Rattle.flash_kept.specs.Held.{HasHeldMessage, IsHeld};
ghost use Rattle.flash_kept.specs.Leaving.{ChangesHeader, ChangesSlot, ClearsFirst, HeaderStands, IsErasedArea, PlacesLie, SameArea, SameIn};
ghost use Rattle.flash_kept.specs.Lost.{is_lost, is_untouched, lost_places};
ghost use Rattle.flash_kept.specs.Margins.{IsRun, Margin, NoneBelowZero, cuts};
ghost use Rattle.flash_kept.specs.Offering.{IsOffered, LeavesOffered, Offers};
ghost use Rattle.flash_kept.specs.Places.{place_count, place_of};
ghost use Rattle.flash_kept.specs.Slots.{free_slots, is_free, is_marked, is_slotted};
ghost use Rattle.flash_kept.specs.SpareArea.{IsInOrder, SpareArea, journal_in, mark_place, slot_place, spare_area};
ghost use Rattle.flash_kept.specs.Staged.{HasStagedMessage, IsStaged};
ghost use Rattle.flash_kept.specs.Told.{staged_bytes, staged_message};
ghost use Rattle.flash_layout.specs.Journal.{IsSettled, mark_written};
ghost use Rattle.flash_layout.specs.Layout.{Geometry, HasJournals, IsInLimits};
ghost use Rattle.flash_layout.specs.Slots.{slot_written};
ghost use Rattle.ssu_group.specs.Refusal.{refusal};
ghost use Rattle.ssu_group.specs.declared.places.Place.{Place};

/// Both areas of a flash of layout 2 are in order, and the group of a usable DII with a mark for each place lies in the bank.
pub fn areas_are_in_order()
    ensures areas { (g : Geometry) (k number : ℕ) → IsInLimits g → HasJournals g → k < 2 → IsInOrder (spare_area g k number) }
    ensures places { (area : SpareArea) (dii : DiiFields) → IsInOrder area → refusal dii area.bank_len ≡ None → place_count dii ≤ area.marks
        → PlacesLie area dii }
{}

/// Contents hold one message at most, of one DII. What is staged is held; and contents tell what is staged: the message, and one text for
/// each place.
pub fn contents_tell_what_is_staged()
    ensures one_message { (area : SpareArea) (c first second : List ℕ) (one two : DiiFields) → HasHeldMessage area c first one
        → HasHeldMessage area c second two → (first ≡ second) × (one ≡ two) }
    ensures held { (area : SpareArea) (c message : List ℕ) (n : ℕ) (bytes : List ℕ) → IsStaged area c message n bytes → IsHeld area c message n bytes }
    ensures message { (area : SpareArea) (c message : List ℕ) (dii : DiiFields) → IsInOrder area → HasStagedMessage area c message dii
        → staged_message area c ≡ Some message }
    ensures told_message { (area : SpareArea) (c message : List ℕ) → IsInOrder area → staged_message area c ≡ Some message
        → (dii : DiiFields) × HasStagedMessage area c message dii }
    ensures bytes { (area : SpareArea) (c message : List ℕ) (n : ℕ) (bytes : List ℕ) → IsInOrder area → IsStaged area c message n bytes
        → staged_bytes area c n ≡ Some bytes }
    ensures told_bytes { (area : SpareArea) (c message : List ℕ) (n : ℕ) (bytes : List ℕ) → IsInOrder area → staged_message area c ≡ Some message
        → staged_bytes area c n ≡ Some bytes → IsStaged area c message n bytes }
{}

/// While the first block of the journal is erased, as `begin` and `forget` do before all else, nothing new is held; once it is erased, no
/// message is. The block has an even number of bytes, and the slots begin behind it.
pub fn erased_block_adds_nothing()
    ensures torn { (area : SpareArea) (block_len : ℕ) (x y : List ℕ) → IsInOrder area → 2 ≤ block_len → block_len ≤ area.slots → block_len % 2 ≡ 0
        → IsSettled area.marks area.slots (journal_in area x) → area.journal + area.journal_len ≤ length x → ClearsFirst area block_len x y
        → (message : List ℕ) (n : ℕ) (bytes : List ℕ) → IsHeld area y message n bytes → IsHeld area x message n bytes }
    ensures done { (area : SpareArea) (block_len : ℕ) (y : List ℕ) → IsInOrder area → 2 ≤ block_len → IsBlank y area.journal block_len
        → (message : List ℕ) (dii : DiiFields) → HasHeldMessage area y message dii → ⊥ }
{}

/// While a header is written into an area that is erased no place is held; once it stands its message is staged, no place is lost, and all
/// 16 slots are free.
pub fn new_header_holds_no_place()
    ensures torn { (area : SpareArea) (x y : List ℕ) → IsInOrder area → area.journal + area.journal_len ≤ length x → IsErasedArea area x
        → ChangesHeader area x y → (message : List ℕ) (n : ℕ) (bytes : List ℕ) → IsHeld area y message n bytes → ⊥ }
    ensures stands { (area : SpareArea) (message y : List ℕ) (dii : DiiFields) → IsInOrder area → area.next < 2 ^ 32 → 1 ≤ length message
        → length message ≤ 4084 → ((i : ℕ) → i < length message → slice_index message i ≤ 255) → HeaderStands area message y
        → dii_message.of message ≡ Some dii → refusal dii area.bank_len ≡ None → place_count dii ≤ area.marks → HasHeldMessage area y message dii }
    ensures staged { (area : SpareArea) (x y message : List ℕ) (dii : DiiFields) → IsInOrder area → area.journal + area.journal_len ≤ length x
        → IsErasedArea area x → ChangesHeader area x y → HasHeldMessage area y message dii → HasStagedMessage area y message dii }
    ensures none_lost { (area : SpareArea) (x y message : List ℕ) (dii : DiiFields) → IsInOrder area → area.journal + area.journal_len ≤ length x
        → IsErasedArea area x → ChangesHeader area x y → HasHeldMessage area y message dii → lost_places area dii y ≡ 0 }
    ensures all_free { (area : SpareArea) (x y : List ℕ) → IsInOrder area → area.journal + area.journal_len ≤ length x → IsErasedArea area x
        → ChangesHeader area x y → free_slots area y ≡ 16 }
{}

/// A place that is not staged is blank in range and mark, or it is lost; and each lost place finds a free slot.
pub fn places_are_blank_or_lost()
    ensures either { (area : SpareArea) (c : List ℕ) (n : ℕ) (p : Place) → is_marked area c n ≡ false → is_slotted area c p ≡ false
        → (is_untouched area c n p ≡ true) ⊎ (is_lost area c n (Some p) ≡ true) }
    ensures slot { (area : SpareArea) (c message : List ℕ) (dii : DiiFields) (n : ℕ) → HasStagedMessage area c message dii → n < place_count dii
        → is_lost area c n (place_of dii n) ≡ true → (s : ℕ) × (s < 16) × (is_free area c s ≡ true) }
{}

/// The offer of a place that is blank: its range is filled, and then it is marked.
pub fn blank_place_is_filled_and_marked()
    ensures filling { (area : SpareArea) (dii : DiiFields) (message : List ℕ) (p : Place) (bytes x y : List ℕ) → IsOffered area dii message p bytes x
        → Changes (area.bank + p.at) (length bytes) (IsTornProgram bytes) x y → LeavesOffered area dii message p.number bytes x y }
    ensures marking { (area : SpareArea) (dii : DiiFields) (message : List ℕ) (p : Place) (bytes x z y : List ℕ) → IsOffered area dii message p bytes x
        → Changes (area.bank + p.at) (length bytes) (IsProgrammed bytes) x z → Changes (mark_place area p.number) 2 (IsTornProgram mark_written) z y
        → LeavesOffered area dii message p.number bytes x y }
    ensures done { (area : SpareArea) (dii : DiiFields) (message : List ℕ) (p : Place) (bytes x z y : List ℕ) → IsOffered area dii message p bytes x
        → Changes (area.bank + p.at) (length bytes) (IsProgrammed bytes) x z → Changes (mark_place area p.number) 2 (IsProgrammed mark_written) z y
        → Offers area dii message p.number bytes x y }
{}

/// The offer of a place that is lost: it goes to a slot that is free, its bytes first and then their head.
pub fn lost_place_goes_to_a_slot()
    ensures sparing { (area : SpareArea) (dii : DiiFields) (message : List ℕ) (p : Place) (bytes x y : List ℕ) (s : ℕ) → IsOffered area dii message p bytes x
        → s < 16 → is_free area x s ≡ true → is_lost area x p.number (Some p) ≡ true → ChangesSlot area s p bytes x y
        → LeavesOffered area dii message p.number bytes x y }
    ensures done { (area : SpareArea) (dii : DiiFields) (message : List ℕ) (p : Place) (bytes x y : List ℕ) (s : ℕ) → IsOffered area dii message p bytes x
        → s < 16 → is_free area x s ≡ true → is_lost area x p.number (Some p) ≡ true → ChangesSlot area s p bytes x y
        → ((k : ℕ) → k < 16 → slice_index y (slot_place area s + k) ≡ slice_index (slot_written p.at p.len) k)
        → Offers area dii message p.number bytes x y }
{}

/// Where header and message are as they were, no other message is held.
pub fn same_header_holds_the_same_message()
    ensures { (area : SpareArea) (x y message : List ℕ) (dii : DiiFields) → IsInOrder area → SameIn area.journal 8448 x y
        → HasHeldMessage area y message dii → HasHeldMessage area x message dii }
{}

/// Where bank and journal are as they were, as `resume` leaves them, and `commit` while boot takes what it took, so is all that is held and
/// staged, and the margin.
pub fn same_area_keeps_all()
    ensures held_before { (area : SpareArea) (x y : List ℕ) → IsInOrder area → SameArea area x y → (message : List ℕ) (n : ℕ) (bytes : List ℕ)
        → IsHeld area y message n bytes → IsHeld area x message n bytes }
    ensures held { (area : SpareArea) (x y : List ℕ) → IsInOrder area → SameArea area x y → (message : List ℕ) (n : ℕ) (bytes : List ℕ)
        → IsHeld area x message n bytes → IsHeld area y message n bytes }
    ensures message { (area : SpareArea) (x y : List ℕ) → IsInOrder area → SameArea area x y → (message : List ℕ) (dii : DiiFields)
        → HasStagedMessage area x message dii → HasStagedMessage area y message dii }
    ensures staged { (area : SpareArea) (x y : List ℕ) → IsInOrder area → SameArea area x y → (message : List ℕ) (n : ℕ) (bytes : List ℕ)
        → IsStaged area x message n bytes → IsStaged area y message n bytes }
    ensures lost { (area : SpareArea) (x y : List ℕ) → IsInOrder area → SameArea area x y → (dii : DiiFields) → PlacesLie area dii
        → lost_places area dii y ≡ lost_places area dii x }
    ensures free { (area : SpareArea) (x y : List ℕ) → IsInOrder area → SameArea area x y → free_slots area y ≡ free_slots area x }
{}

/// A list of margins that begins at 16 and falls only at a power loss or a fault of the flash, by one each at most, has no member below
/// 0 while there are at most sixteen of these.
pub fn margin_holds()
    ensures { (margins : List Margin) → IsRun margins → cuts margins ≤ 16 → NoneBelowZero margins }
{}
