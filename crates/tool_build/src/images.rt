//! The files that a plan mentions.
ghost use Rattle.std.specs.Prelude.{◌≡◌, ◌≤◌, ◌++◌, ℕ, List, [], ◌∷◌, IfOk, IfErr, IsSome, OnOk, length, map};
ghost use Rattle.head_plan.specs.Plans.{mentions};
ghost use Rattle.ssu_io.specs.Faults.{Rose};
ghost use Rattle.ssu_status.specs.Status.{OnAbsent, OnShelfFault};
ghost use Rattle.ssu_status.specs.declared.status.Status.TheVariants.{NoMemory};
ghost use Rattle.tool_box.specs.Fetching.{IsErrWith, IsFetchRefusal, SaysAbsentOrFails};
ghost use Rattle.tool_build.specs.Held.{HasEach, IsFirstMissing};

use head_plan::Plan;
use ssu_io::Shelf;
use ssu_status::Status;
use std::alloc::Global;
use tool_box::fetch;

/// The bytes of each file that the plan mentions, in order. A file that is mentioned twice is fetched twice.
///
/// # Errors
///
/// `Absent` with the first name that the shelf has not, `ShelfFault` where the shelf failed, and `NoMemory`.
pub(crate) fn read_images<H: Shelf>(
    alloc: Global,
    shelf: &mut H,
    plan: &Plan,
) -> Result<Vec<Vec<u8>>, Status>
    ensures found { IfOk result (λ images. HasEach (H.held shelf.old) (mentions plan.now.group) (map (λ i. i.items) images.items)) }
    ensures count { IfOk result (λ images. length images.items ≡ length (mentions plan.now.group)) }
    ensures absent { IfErr result (λ status. OnAbsent status (λ told. IsFirstMissing (H.held shelf.old) (mentions plan.now.group) told)) }
    ensures missing { (name : List ℕ) → IsSome (H.held shelf.old) → IsFirstMissing (H.held shelf.old) (mentions plan.now.group) name
        → IsErrWith (SaysAbsentOrFails name) result }
    ensures absent_cause { IfErr result (λ status. OnAbsent status (λ _. Rose (H.absences shelf.old) (H.absences shelf.new))) }
    ensures fault_cause { IfErr result (λ status. OnShelfFault status (Rose (H.faults shelf.old) (H.faults shelf.new))) }
    ensures refusals { IfErr result IsFetchRefusal }
    ensures unchanged { H.held shelf.new ≡ H.held shelf.old }
    ensures faults { H.faults shelf.old ≤ H.faults shelf.new }
    ensures absences { H.absences shelf.old ≤ H.absences shelf.new }
{
    let mut images = Vec::new(alloc);
    for k in 0..plan.file_count() {
        let image = fetch(alloc, shelf, &plan.file(k))?;
        push(&mut images, image)?;
    }
    Ok(images)
}

fn push(images: &mut Vec<Vec<u8>>, image: Vec<u8>) -> Result<(), Status>
    ensures pushed { OnOk result (images.new.items ≡ images.old.items ++ image ∷ []) }
    ensures refused { IfErr result (λ status. status ≡ NoMemory) }
{
    match images.push(image) {
        Ok(()) => Ok(()),
        Err(_) => Err(Status::NoMemory),
    }
}
