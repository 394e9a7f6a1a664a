//! What a loader may build on, each law as the contract of a function that does nothing.

ghost use Rattle.std.specs.Prelude.{◌≡◌, ◌+◌, ◌<◌, Contains, List, [], length, ℕ, unwrap_or, Some};
ghost use Rattle.flash_bank.specs.Bank.{len_of};
ghost use Rattle.flash_layout.specs.Layout.{Geometry};
ghost use Rattle.flash_bank.specs.Leaving.{Installs, KeepsBoot};
ghost use Rattle.flash_bank.specs.Sound.{IsCurrent, IsSound};
ghost use Rattle.flash_bank.specs.declared.bank.Bank.{Bank};
ghost use Rattle.flash_bank.specs.declared.record.Record.{Record};
ghost use Rattle.flash_stage.specs.Leaving.{FinishLeaves, SameBank};
ghost use Rattle.flash_stage.specs.Outline.{module_text, outline_of};
ghost use Rattle.ssu_group.specs.Carried.{Fills, HaveLengths, carried_image, joined, missing_places, module_bytes};
ghost use Rattle.ssu_group.specs.Place.{place_at};
ghost use Rattle.ssu_group.specs.declared.group_plan.GroupPlan.{GroupPlan};
ghost use Rattle.ssu_group.specs.declared.module_plan.ModulePlan.{ModulePlan};
ghost use Rattle.ssu_group.specs.declared.places.Place.{Place};

/// What one call of a stage may leave, and then another, is what a call may leave: so it holds for all calls up to
/// `finish`, and with `finish`.
pub fn calls_go_on()
    ensures none { (g : Geometry) (x : List ℕ) → IsSound g x → KeepsBoot g x x }
    ensures more { (g : Geometry) (x y z : List ℕ) → KeepsBoot g x y → KeepsBoot g y z → KeepsBoot g x z }
    ensures finish { (g : Geometry) (new : Record) (image x y z : List ℕ) (block : ℕ) → IsCurrent g x block → KeepsBoot g x y
        → FinishLeaves g new image y z → FinishLeaves g new image x z }
    ensures installs { (g : Geometry) (new : Record) (image x y z : List ℕ) (block : ℕ) → IsCurrent g x block → KeepsBoot g x y
        → Installs g new image y z → Installs g new image x z }
{}

/// A bank that is as it was has the length that it had, call by call.
pub fn banks_stay()
    ensures len { (old new : Bank) → SameBank old new → len_of new ≡ len_of old }
    ensures joined { (first second third : Bank) → SameBank first second → SameBank second third → SameBank first third }
{}

/// Plans of the same modules have one outline.
pub fn same_modules_have_one_outline()
    ensures { (p q : GroupPlan) → p.block_size ≡ q.block_size → p.modules.items ≡ q.modules.items
        → outline_of p ≡ outline_of q }
{}

/// The bytes of a module are the texts of its places, joined.
pub fn modules_join_their_places()
    // The places of a module are places of the plan.
    ensures below { (plan : GroupPlan) (m : ModulePlan) (k : ℕ) → Contains plan.modules.items m → k < m.blocks
        → m.first + k < plan.places }
    // In the join of texts that have the lengths of the places.
    ensures texts { (plan : GroupPlan) (m : ModulePlan) (text : ℕ → List ℕ) → Contains plan.modules.items m
        → ((n : ℕ) (p : Place) → place_at plan.block_size plan.modules.items n ≡ Some p → length (text n) ≡ p.len)
        → module_bytes (joined text plan.places) m ≡ module_text text m }
    // In the image that sections carry.
    ensures carried { (plan : GroupPlan) (fills : Fills) (m : ModulePlan) → HaveLengths plan fills
        → missing_places plan fills ≡ 0 → Contains plan.modules.items m
        → module_bytes (carried_image plan fills) m ≡ module_text (λ n. unwrap_or (fills n) []) m }
    // The same texts join to the same bytes.
    ensures same { (f g : ℕ → List ℕ) (n : ℕ) → ((k : ℕ) → k < n → f k ≡ g k) → joined f n ≡ joined g n }
{}
