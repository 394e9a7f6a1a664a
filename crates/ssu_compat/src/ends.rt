//! No descriptor begins another.

ghost use Rattle.std.specs.Prelude.{◌≡◌, ◌++◌, ℕ, List, []};
ghost use Rattle.ssu_compat.specs.Compat.{EntryFields, compat};

/// The law of the grammar alone: no compatibility descriptor is a proper prefix of another, and one
/// stands for at most one list of entries.
pub fn compat_ends()
    ensures ends { (x y : List EntryFields) (p q more : List ℕ) → compat.Spells x p → compat.Spells y q → q ≡ p ++ more → more ≡ [] }
    ensures one_value { (x y : List EntryFields) (p : List ℕ) → compat.Spells x p → compat.Spells y p → x ≡ y }
{}
