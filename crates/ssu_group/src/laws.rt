//! The places of a plan.

ghost use Rattle.std.specs.Prelude.{◌≡◌, List, ℕ, [], ◌∷◌, ◌++◌, ◌==◌, None, Some, length, map, slice_get, sum_by, true};
ghost use Rattle.std.specs.List.{list_any};
ghost use Rattle.dsmcc_msg.specs.Control.{ModuleFields};
ghost use Rattle.ssu_group.specs.declared.module_plan.ModulePlan.{ModulePlan};
ghost use Rattle.ssu_group.specs.Plan.{IsPlan, blocks_of, laid_out, module_at};
ghost use Rattle.ssu_group.specs.Place.{FillImage};
ghost use Rattle.ssu_group.specs.Refusal.{StoodEarlier, first_twice, id_of, total_of};

/// The places of every plan lie one behind the other, from byte 0 to its total, and each has 1 to `block_size` bytes.
pub fn places_fill_image()
    ensures { (block_size : ℕ) (modules : List ModulePlan) (places total : ℕ)
        → IsPlan block_size modules places total → FillImage block_size modules places total }
{}

/// A module begins at the sum of the sizes of the modules before it, and has their blocks before it.
pub fn modules_lie_in_order()
    ensures { (block_size : ℕ) (before : List ModuleFields) (m : ModuleFields) (behind : List ModuleFields)
        → slice_get (laid_out block_size 0 0 (before ++ m ∷ behind)) (length before)
        ≡ Some (module_at block_size (total_of before) (sum_by (blocks_of block_size) before) m) }
{}

/// The id that is refused as standing twice is the first that stood earlier.
pub fn twice_is_the_first_that_stood_earlier()
    ensures found { (before : List ModuleFields) (m : ModuleFields) (behind : List ModuleFields)
        → first_twice [] before ≡ None → list_any (λ id. id == m.id) (map id_of before) ≡ true
        → first_twice [] (before ++ m ∷ behind) ≡ Some m.id }
    ensures stood { (ms : List ModuleFields) (id : ℕ) → first_twice [] ms ≡ Some id → StoodEarlier [] ms id }
{}
