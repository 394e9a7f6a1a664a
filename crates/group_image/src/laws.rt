//! What the places of an image make together.

ghost use Rattle.std.specs.Prelude.{◌≡◌, ◌<◌, ℕ, List, length};
ghost use Rattle.ssu_group.specs.declared.group_plan.GroupPlan.{GroupPlan};
ghost use Rattle.ssu_group.specs.Carried.{Fills, HaveLengths, filling, joined, missing_places, carried_image};
ghost use Rattle.group_image.specs.Image.{Collected, image_of, bytes_at, IsFor};

/// The image is its places joined, from byte 0 to its end.
pub fn places_join_to_image()
    ensures { (plan : GroupPlan) (image : Collected) (text : ℕ → List ℕ) → IsFor plan image
        → ((number : ℕ) → number < plan.places → bytes_at plan image number ≡ text number)
        → joined text plan.places ≡ image_of image }
{}

/// The image that is carried where no place is missing has as many bytes as the plan.
pub fn whole_image_has_all_bytes()
    // The bytes of a block that fills a place have its length.
    ensures filled { (plan : GroupPlan) (sections : List (List ℕ)) → HaveLengths plan (filling plan sections) }
    ensures whole { (plan : GroupPlan) (fills : Fills) → HaveLengths plan fills → missing_places plan fills ≡ 0
        → length (carried_image plan fills) ≡ plan.total }
{}
