//! What a client may build on, each law as the contract of a function that does nothing.

ghost use Rattle.std.specs.Prelude.{◌≡◌, ◌∷◌, ◌++◌, IsSome, List, None, Some, true, ℕ};
ghost use Rattle.bank_kept.specs.Contents.{StagesPlace};
ghost use Rattle.flash_bank.specs.Bank.{Fits, geometry_of};
ghost use Rattle.flash_bank.specs.Leaving.{KeepsBoot};
ghost use Rattle.flash_bank.specs.Sound.{Boot, BootOf};
ghost use Rattle.flash_bank.specs.declared.bank.Bank.{Bank};
ghost use Rattle.flash_layout.specs.Layout.{Geometry, IsInLimits};
ghost use Rattle.flash_stage.specs.Leaving.{SameBank};
ghost use Rattle.ts_section.specs.Events.{Heard};
ghost use Rattle.route_tables.specs.Values.{Receiver};
ghost use Rattle.ssu_group.specs.Carried.{filling, nothing_kept};
ghost use Rattle.ssu_group.specs.declared.group_plan.GroupPlan.{GroupPlan};
ghost use Rattle.ssu_route.specs.Choosing.{level_7};
ghost use Rattle.ssu_route.specs.Offers.{dii_of};
ghost use Rattle.ssu_route.specs.Windows.{beginnings, change_at, window};
ghost use Rattle.ssu_route.specs.declared.change.Change.TheVariants as change;
ghost use Rattle.ssu_route.specs.declared.choice.Choice.{Choice};
ghost use Rattle.ssu_loader.specs.Decisions.{Decision, IsStanding, Reaches};
ghost use Rattle.ssu_loader.specs.Leaving.{SectionsLeave};
ghost use Rattle.ssu_loader.specs.Opening.{KeepsNothing, earlier_windows, fills_at, is_within, kept, last_message, opening_of, places_in};
ghost use Rattle.ssu_loader.specs.Replays.{heard_in};

/// At most one thing is decided by the sections that a box heard, and it stays decided.
pub fn decisions_are_one()
    ensures one { (me : Receiver) (heard : List Heard) (d e : Decision) → Reaches me heard d → Reaches me heard e → d ≡ e }
    // When one section more is heard.
    ensures stays { (me : Receiver) (item : Heard) (heard : List Heard) (d : Decision) → Reaches me heard d → Reaches me (item ∷ heard) d }
    // When more bytes come.
    ensures front { (me : Receiver) (front back : List ℕ) (d : Decision) → Reaches me (heard_in me front) d
        → Reaches me (heard_in me (front ++ back)) d }
{}

/// What a choice keeps when it begins: the places that the flash had of its message at the opening, or those that the choice before
/// it had kept or filled, if that had the same message.
pub fn places_are_kept()
    // Before the first choice it is what was staged at the opening.
    ensures first { (me : Receiver) (heard : List Heard) (plan : GroupPlan) → beginnings me heard ≡ 0
        → (last_message me heard ≡ me.opening.message) × (kept me heard plan ≡ me.opening.staged) }
    // It stays while nothing changes, and all that a choice had is kept where it ends.
    ensures stays { (me : Receiver) (item : Heard) (heard : List Heard) (plan : GroupPlan) → change_at me item heard ≡ change.Same
        → kept me (item ∷ heard) plan ≡ kept me heard plan }
    ensures ends { (me : Receiver) (item : Heard) (heard : List Heard) (plan : GroupPlan) → change_at me item heard ≡ change.Lost
        → kept me (item ∷ heard) plan ≡ fills_at me heard plan }
    // A place that the choice has it has while it stands.
    ensures has { (me : Receiver) (item : Heard) (heard : List Heard) (plan : GroupPlan) (number : ℕ) (bytes : List ℕ)
        → change_at me item heard ≡ change.Same → IsSome (level_7 me (item ∷ heard))
        → fills_at me heard plan number ≡ Some bytes → fills_at me (item ∷ heard) plan number ≡ Some bytes }
    // A choice with that message begins with it, if its group is one that is kept; in all other cases nothing is kept.
    ensures again { (me : Receiver) (item : Heard) (heard : List Heard) (message : List ℕ) → level_7 me (item ∷ heard) ≡ Some message
        → (plan : GroupPlan) → change_at me item heard ≡ change.Chosen → last_message me heard ≡ Some message
        → is_within me.opening.most (places_in (dii_of message)) ≡ true → fills_at me (item ∷ heard) plan ≡ kept me heard plan }
    ensures anew { (me : Receiver) (item : Heard) (heard : List Heard) (message : List ℕ) → level_7 me (item ∷ heard) ≡ Some message
        → (plan : GroupPlan) → change_at me item heard ≡ change.Chosen
        → (last_message me heard ≡ Some message → is_within me.opening.most (places_in (dii_of message)) ≡ true → ⊥)
        → fills_at me (item ∷ heard) plan ≡ nothing_kept }
{}

/// Where the flash kept nothing and nothing is kept from one choice for the next, the choice that stands has the places that its
/// window fills and no other, so that its window alone carries its group.
pub fn window_counts_alone()
    ensures { (me : Receiver) (heard : List Heard) (choice : Choice) → KeepsNothing me → IsStanding me heard choice
        → fills_at me heard choice.plan ≡ filling choice.plan (window me heard) }
{}

/// Where the flash had no group staged at the opening, the choice that stands has the places that the windows of its message fill, since the
/// first of them after another message, and no other: so sections that were heard carry its group alone.
pub fn windows_count_alone()
    ensures { (me : Receiver) (heard : List Heard) (choice : Choice) → me.opening.message ≡ None → IsStanding me heard choice
        → fills_at me heard choice.plan ≡ filling choice.plan (window me heard ++ earlier_windows me heard) }
{}

/// Where the first choice of a replay has the message of the group that the flash had staged at the opening, the places of that group count
/// as filled, with their bytes, from the section at which the choice begins and while it stands. The stage is one that keeps its places.
pub fn first_choice_has_what_is_staged()
    ensures { (g : Geometry) (x : List ℕ) (b : Boot) → IsInLimits g → BootOf g x b → (me : Receiver) → me.opening ≡ opening_of true g b.head x
        → (heard : List Heard) (message : List ℕ) → beginnings me heard ≡ 1 → level_7 me heard ≡ Some message
        → (plan : GroupPlan) (n : ℕ) (bytes : List ℕ) → StagesPlace g x message n bytes → fills_at me heard plan n ≡ Some bytes }
{}

/// What one packet may leave after calls of the stage is what they may leave together, also where the bank is as it was: so
/// what each packet leaves holds from the opening on.
pub fn packets_go_on()
    ensures goes_on { (me : Receiver) (heard : List Heard) (bank : Bank) (x y z : List ℕ) → Fits bank x → KeepsBoot (geometry_of bank) x y
        → SectionsLeave me heard bank y z → SectionsLeave me heard bank x z }
    ensures bank { (me : Receiver) (heard : List Heard) (old new : Bank) (x y : List ℕ) → SameBank old new
        → SectionsLeave me heard new x y → SectionsLeave me heard old x y }
{}
