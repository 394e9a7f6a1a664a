//! The laws, each as the contract of a function that does nothing.

ghost use Rattle.std.specs.Prelude.{◌≡◌, Bool, List, [], ◌∷◌, Option, if◌then◌else◌, IsTrue};
ghost use Rattle.std.specs.Option.{option_or};
ghost use Rattle.route_part.specs.Part.{since, steady};
ghost use Rattle.route_part.specs.Said.{last_said, first_said, fixed_said, held_said, IsSound, Fits, next_fixed, StepsBy};

/// The part since a value changed: an item joins it where the value stayed; where the value changed at the item,
/// nothing has come since.
#[tactic(auto, unfolding(crate::specs::Part::since))]
pub fn since_steps<X, V>()
    ensures none { (same : V → V → Bool) (value : List X → V) → since same value [] ≡ [] }
    ensures one_more { (same : V → V → Bool) (value : List X → V) (item : X) (earlier : List X)
        → since same value (item ∷ earlier)
        ≡ (if same (value (item ∷ earlier)) (value earlier) then item ∷ since same value earlier else []) }
{}

/// The items directly after which, and ever since, a value was what it is now: the newest one always is such an
/// item, and the earlier ones are where the value stayed.
#[tactic(auto, unfolding(crate::specs::Part::steady))]
pub fn steady_steps<X, V>()
    ensures none { (same : V → V → Bool) (value : List X → V) → steady same value [] ≡ [] }
    ensures one_more { (same : V → V → Bool) (value : List X → V) (item : X) (earlier : List X)
        → steady same value (item ∷ earlier)
        ≡ item ∷ (if same (value (item ∷ earlier)) (value earlier) then steady same value earlier else []) }
{}

/// The last that is said is said by the newest item, or else by the earlier ones.
#[tactic(auto, unfolding(crate::specs::Said::last_said))]
pub fn last_steps<X, A>()
    ensures none { (says : X → Option A) → last_said says [] ≡ None }
    ensures one_more { (says : X → Option A) (item : X) (earlier : List X)
        → last_said says (item ∷ earlier) ≡ option_or (says item) (last_said says earlier) }
{}

/// The first that is said is said by the earlier items, or else by the newest one.
#[tactic(auto, unfolding(crate::specs::Said::first_said))]
pub fn first_steps<X, A>()
    ensures none { (says : X → Option A) → first_said says [] ≡ None }
    ensures one_more { (says : X → Option A) (item : X) (earlier : List X)
        → first_said says (item ∷ earlier) ≡ option_or (first_said says earlier) (says item) }
{}

/// A key that an item fixed stays, and what a later item says under it takes the place of what stood there.
pub fn fixed_steps<X, K, A>()
    ensures none { (fixes : X → Option K) (says : K → X → Option A) → fixed_said fixes says [] ≡ None }
    ensures one_more { (fixes : X → Option K) (says : K → X → Option A) → Fits fixes says → (item : X) (earlier : List X)
        → fixed_said fixes says (item ∷ earlier) ≡ next_fixed fixes says item (fixed_said fixes says earlier) }
{}

/// What was said under a key is dropped when the key changes, and the item at which it changed speaks under the
/// new one.
pub fn held_steps<X, K, A>()
    ensures none { (same : K → K → Bool) (key : List X → K) (says : K → X → Option A) → held_said same key says [] ≡ None }
    ensures one_more { (same : K → K → Bool) (key : List X → K) (says : K → X → Option A) → IsSound same
        → (item : X) (earlier : List X)
        → held_said same key says (item ∷ earlier)
        ≡ option_or (says (key (item ∷ earlier)) item)
        (if same (key (item ∷ earlier)) (key earlier) then held_said same key says earlier else None) }
{}

/// A value that is made from the value of a level below and from the part since that one changed: one item takes it
/// to its next value where the level below stayed, and else it starts afresh, with no item.
pub fn by_part<X, W, B, V>()
    ensures alone { (same : B → B → Bool) (below : List X → B) (by : B → List X → V) (next : B → X → V → V) → IsSound same
        → StepsBy by next → (item : X) (earlier : List X)
        → by (below (item ∷ earlier)) (since same below (item ∷ earlier))
        ≡ (if same (below (item ∷ earlier)) (below earlier)
        then next (below (item ∷ earlier)) item (by (below earlier) (since same below earlier))
        else by (below (item ∷ earlier)) []) }
    // The value also reads what is not watched for the part: there it has to stay the same where the part goes on.
    ensures watching { (same : W → W → Bool) (watched : List X → W) (below : List X → B) (by : B → List X → V)
        (next : B → X → V → V) → StepsBy by next → (item : X) (earlier : List X)
        → (IsTrue (same (watched (item ∷ earlier)) (watched earlier))
        → by (below (item ∷ earlier)) (since same watched earlier) ≡ by (below earlier) (since same watched earlier))
        → by (below (item ∷ earlier)) (since same watched (item ∷ earlier))
        ≡ (if same (watched (item ∷ earlier)) (watched earlier)
        then next (below (item ∷ earlier)) item (by (below earlier) (since same watched earlier))
        else by (below (item ∷ earlier)) []) }
{}
