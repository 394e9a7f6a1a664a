//! What a loader may build on, each law as the contract of a function that does nothing.

ghost use Rattle.std.specs.Prelude.{◌≡◌, ◌≢◌, ◌↔◌, ◌+◌, ◌∷◌, ℕ, List, [], IsSome, Some, None, true};
ghost use Rattle.ts_section.specs.Events.{Heard};
ghost use Rattle.route_tables.specs.Values.{Receiver};
ghost use Rattle.route_tables.specs.Levels.{level_5};
ghost use Rattle.ssu_route.specs.declared.change.Change.TheVariants.{Same, Chosen, Lost};
ghost use Rattle.ssu_route.specs.Choosing.{level_7};
ghost use Rattle.ssu_route.specs.declared.choice.Choice.{Choice};
ghost use Rattle.ssu_route.specs.Route.{IsOwnMessage, IsPlanOfOwnMessage};
ghost use Rattle.ssu_route.specs.Windows.{IsChoice, begins_at, beginnings, change_at, window};
ghost use Rattle.ssu_route.specs.Queries.{carousel_pid};

/// What the answer to a section says of the choice before it and after it.
pub fn changes_tell()
    ensures none { (me : Receiver) → level_7 me [] ≡ None }
    ensures same { (me : Receiver) (item : Heard) (earlier : List Heard) → change_at me item earlier ≡ Same
        → level_7 me (item ∷ earlier) ≡ level_7 me earlier }
    ensures chosen { (me : Receiver) (item : Heard) (earlier : List Heard) → change_at me item earlier ≡ Chosen
        → IsSome (level_7 me (item ∷ earlier)) }
    ensures lost { (me : Receiver) (item : Heard) (earlier : List Heard) → change_at me item earlier ≡ Lost
        → level_7 me (item ∷ earlier) ≡ None }
    ensures stood { (me : Receiver) (item : Heard) (earlier : List Heard) → change_at me item earlier ≡ Lost
        → IsSome (level_7 me earlier) }
{}

/// The window of a choice: a section joins it exactly where it is on the PID that the carousel has after it.
pub fn windows_grow()
    ensures none { (me : Receiver) → window me [] ≡ [] }
    ensures joins { (me : Receiver) (item : Heard) (earlier : List Heard) (pid : ℕ) → change_at me item earlier ≡ Same
        → IsSome (level_7 me (item ∷ earlier)) → carousel_pid me (item ∷ earlier) ≡ Some pid → item.pid ≡ pid
        → window me (item ∷ earlier) ≡ item.section ∷ window me earlier }
    ensures passes { (me : Receiver) (item : Heard) (earlier : List Heard) (pid : ℕ) → change_at me item earlier ≡ Same
        → IsSome (level_7 me (item ∷ earlier)) → carousel_pid me (item ∷ earlier) ≡ Some pid → item.pid ≢ pid
        → window me (item ∷ earlier) ≡ window me earlier }
    // At a section at which a choice begins or ends, the window is empty.
    ensures empty { (me : Receiver) (item : Heard) (earlier : List Heard) → change_at me item earlier ≢ Same
        → window me (item ∷ earlier) ≡ [] }
    // Where a choice stands after a section, the carousel is what it was before.
    ensures carousel { (me : Receiver) (item : Heard) (earlier : List Heard) → IsSome (level_7 me (item ∷ earlier))
        → level_5 me (item ∷ earlier) ≡ level_5 me earlier }
    ensures pid { (me : Receiver) (heard : List Heard) → IsSome (level_7 me heard) → IsSome (carousel_pid me heard) }
{}

/// How many choices began: one more at each section that is answered with `Chosen`.
pub fn choices_count()
    ensures none { (me : Receiver) → beginnings me [] ≡ 0 }
    ensures begins { (me : Receiver) (item : Heard) (earlier : List Heard)
        → (begins_at me item earlier ≡ true) ↔ (change_at me item earlier ≡ Chosen) }
    ensures one_more { (me : Receiver) (item : Heard) (earlier : List Heard) → change_at me item earlier ≡ Chosen
        → beginnings me (item ∷ earlier) ≡ beginnings me earlier + 1 }
    ensures no_more { (me : Receiver) (item : Heard) (earlier : List Heard) → change_at me item earlier ≢ Chosen
        → beginnings me (item ∷ earlier) ≡ beginnings me earlier }
{}

/// The value of the last level is the message of a DII of the wanted group that can be used for the bank; and as long
/// as nothing changes, the choice is the same one.
pub fn choices_stay()
    ensures own { (me : Receiver) (heard : List Heard) (message : List ℕ) → level_7 me heard ≡ Some message → IsOwnMessage me heard message }
    ensures stays { (me : Receiver) (item : Heard) (earlier : List Heard) (choice : Choice) → change_at me item earlier ≡ Same
        → IsSome (level_7 me (item ∷ earlier)) → IsChoice me earlier choice → IsChoice me (item ∷ earlier) choice }
{}

/// The plan of a choice is that of its message, which spells a DII that can be used for the bank.
pub fn choices_have_messages()
    ensures { (me : Receiver) (heard : List Heard) (choice : Choice) → IsChoice me heard choice → IsPlanOfOwnMessage me.bank_len choice }
{}
