//! The laws of what the first item that says something says, with the items after it, and of verdicts.

ghost use Rattle.std.specs.Prelude.{◌≡◌, ℕ, List, [], ◌∷◌, Option, None};
ghost use Rattle.std.specs.Option.{option_or, option_map};
ghost use Rattle.ssu_answer.specs.declared.chosen.Chosen.{Chosen};
ghost use Rattle.tool_load.specs.Load.{IsLoaded, IsBad, first_with_later, one_later, none_later};

/// The first item that says something is an earlier one, and then the newest came after it, or else the newest, and
/// then nothing did.
#[tactic(auto, unfolding(crate::specs::Load::first_with_later))]
pub fn first_with_later_steps<X, A>()
    ensures none { (says : X → Option A) → first_with_later says [] ≡ None }
    ensures one_more { (says : X → Option A) (item : X) (earlier : List X)
        → first_with_later says (item ∷ earlier)
        ≡ option_or (option_map (one_later item) (first_with_later says earlier)) (option_map none_later (says item)) }
{}

/// A verdict that was reached is the verdict of every longer list of sections too. So it is the one of the first section at
/// which all places are filled.
pub fn verdict_stays()
    ensures loaded { (section : List ℕ) (sections : List (List ℕ)) (chosen : Chosen) (image : List ℕ)
        → IsLoaded sections chosen image → IsLoaded (section ∷ sections) chosen image }
    ensures bad { (section : List ℕ) (sections : List (List ℕ)) (id want found : ℕ)
        → IsBad sections id want found → IsBad (section ∷ sections) id want found }
{}
