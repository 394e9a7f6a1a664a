//! What boot takes after a life of replays and power losses, as the contracts of functions that do nothing.

ghost use Rattle.std.specs.Prelude.{◌⊎◌, ◌≡◌, ◌++◌, Bool, Contains, List, Some, true, ℕ};
ghost use Rattle.bank_kept.specs.Contents.{HoldsPlace, StagesGroup, StagesPlace};
ghost use Rattle.bank_kept.specs.Leaving.{HoldsNoMore};
ghost use Rattle.dsmcc_msg.specs.Control.{DiiFields};
ghost use Rattle.flash_bank.specs.Format.{Formats};
ghost use Rattle.flash_bank.specs.Leaving.{Installs, KeepsBoot};
ghost use Rattle.flash_bank.specs.Sound.{Boot, BootOf};
ghost use Rattle.flash_bank.specs.declared.record.Record.{Record};
ghost use Rattle.flash_layout.specs.Layout.{Geometry, IsInLimits};
ghost use Rattle.route_tables.specs.Values.{Receiver};
ghost use Rattle.ssu_answer.specs.declared.chosen.Chosen.{Chosen};
ghost use Rattle.ssu_group.specs.Carried.{brings};
ghost use Rattle.ssu_loader.specs.Decisions.{IsStanding, Reaches, Whole};
ghost use Rattle.ssu_loader.specs.Life.{ComesOfLife, HeardInLife, HeardUnder, HoldsHeard, IsBeginning, IsLife, Replay, StepsTo, WasStaged};
ghost use Rattle.ssu_loader.specs.Opening.{fills_at, opening_of};
ghost use Rattle.ssu_loader.specs.Replays.{record_after};
ghost use Rattle.ssu_route.specs.Windows.{standing, window};
ghost use Rattle.ssu_route.specs.declared.choice.Choice.{Choice};
ghost use Rattle.ts_section.specs.Events.{Heard};

/// After every life boot takes the image with which it began, or one each of whose blocks was heard in some replay of the life under one
/// message of a DII, whose modules have the CRCs of their descriptors, and whose group matched the box and was admitted in the replay that
/// installed it. Within each replay the power may go at any moment.
pub fn life_holds()
    ensures boot { (g : Geometry) (x y : List ℕ) (replays : List Replay) (b : Boot) → IsInLimits g → IsLife g x replays y → BootOf g y b
        → BootOf g x b ⊎ ComesOfLife g replays b }
    // And so each place that the flash holds then was heard under its message in some replay.
    ensures held { (g : Geometry) (x y : List ℕ) (replays : List Replay) → IsLife g x replays y → (message : List ℕ) (n : ℕ) (bytes : List ℕ)
        → HoldsPlace g y message n bytes → HeardInLife g replays message n bytes }
{}

/// Each byte of a choice that stands was staged at the opening or heard, under the message of the choice.
pub fn places_are_staged_or_heard()
    ensures { (me : Receiver) (heard : List Heard) (choice : Choice) (message : List ℕ) (n : ℕ) (bytes : List ℕ) → IsStanding me heard choice
        → standing me heard ≡ Some message → fills_at me heard choice.plan n ≡ Some bytes
        → WasStaged me message n bytes ⊎ HeardUnder me heard message n bytes }
{}

/// A stage that keeps its places finds at the opening what the flash has staged, and no other stage finds anything.
pub fn opening_is_what_is_staged()
    ensures message { (keeps : Bool) (g : Geometry) (x : List ℕ) (b : Boot) → IsInLimits g → BootOf g x b → (message : List ℕ)
        → (opening_of keeps g b.head x).message ≡ Some message → (keeps ≡ true) × ((dii : DiiFields) × StagesGroup g x message dii) }
    ensures bytes { (keeps : Bool) (g : Geometry) (x : List ℕ) (b : Boot) → IsInLimits g → BootOf g x b → (message : List ℕ)
        → (opening_of keeps g b.head x).message ≡ Some message → (n : ℕ) (bytes : List ℕ)
        → (opening_of keeps g b.head x).staged n ≡ Some bytes → StagesPlace g x message n bytes }
    ensures told_message { (g : Geometry) (x : List ℕ) (b : Boot) → IsInLimits g → BootOf g x b → (message : List ℕ) (dii : DiiFields)
        → StagesGroup g x message dii → (opening_of true g b.head x).message ≡ Some message }
    ensures told_bytes { (g : Geometry) (x : List ℕ) (b : Boot) → IsInLimits g → BootOf g x b → (message : List ℕ) (n : ℕ) (bytes : List ℕ)
        → StagesPlace g x message n bytes → (opening_of true g b.head x).staged n ≡ Some bytes }
{}

/// How what is left while sections are heard comes to be a step of a life, from the opening on: of what the calls of a stage leave of the
/// places that the flash holds, and of what boot takes.
pub fn steps_go_on()
    // After a call that holds no more, and after one with a block of the window of the choice that stands.
    ensures still { (g : Geometry) (me : Receiver) (heard : List Heard) (x y z : List ℕ) → HoldsHeard g me heard x y → HoldsNoMore g y z
        → HoldsHeard g me heard x z }
    ensures section { (g : Geometry) (me : Receiver) (heard : List Heard) (choice : Choice) (message section x y : List ℕ) → IsStanding me heard choice
        → standing me heard ≡ Some message → Contains (window me heard) section
        → ((other : List ℕ) (n : ℕ) (bytes : List ℕ) → HoldsPlace g y other n bytes
        → HoldsPlace g x other n bytes ⊎ ((other ≡ message) × (brings choice.plan n section ≡ Some bytes)))
        → HoldsHeard g me heard x y }
    ensures joined { (g : Geometry) (me : Receiver) (heard : List Heard) (x y z : List ℕ) → HoldsHeard g me heard x y → HoldsHeard g me heard y z
        → HoldsHeard g me heard x z }
    ensures heard_more { (g : Geometry) (me : Receiver) (later heard : List Heard) (x y : List ℕ) → HoldsHeard g me heard x y
        → HoldsHeard g me (later ++ heard) x y }
    // Where boot takes what it took, and where it takes a group that the sections carry whole.
    ensures keeps { (g : Geometry) (me : Receiver) (heard : List Heard) (former : Boot) (x y : List ℕ) → BootOf g x former → KeepsBoot g x y
        → HoldsHeard g me heard x y → StepsTo g me heard former x y }
    ensures installs { (g : Geometry) (me : Receiver) (heard : List Heard) (former : Boot) (chosen : Chosen) (image x y : List ℕ)
        → Reaches me heard (Whole chosen image) → Installs g (record_after former.head chosen) image x y → HoldsHeard g me heard x y
        → StepsTo g me heard former x y }
    // After other calls, and when more is heard.
    ensures after { (g : Geometry) (me : Receiver) (heard : List Heard) (former : Boot) (x y z : List ℕ) → HoldsHeard g me heard x y
        → StepsTo g me heard former y z → StepsTo g me heard former x z }
    ensures more { (g : Geometry) (me : Receiver) (later heard : List Heard) (former : Boot) (x y : List ℕ) → StepsTo g me heard former x y
        → StepsTo g me (later ++ heard) former x y }
{}

/// What `format` leaves at Ok is what a life begins with.
pub fn formatted_flash_begins_a_life()
    ensures { (g : Geometry) (head : Record) (image x y : List ℕ) → IsInLimits g → Formats g head image x y → IsBeginning g y }
{}
