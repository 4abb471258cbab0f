//! The images by which routers forward.

ghost use Rattle.std.specs.Prelude.{ℕ, None, Err, ◌≡◌, ◌+◌, ◌^◌, ◌<◌, map, IfOk, IfErr, IsSome, IsOk, OnOk, OnErr, MatchOption};
ghost use Rattle.network_model.specs.Step as steps;
ghost use Rattle.network_model.specs.Step.{router_publishing};
ghost use Rattle.world.specs.Steps.{DeliversWithRoom, DiscardsStale, HasRoomForSteps, IsDoneOr};
ghost use Rattle.course.specs.Course.{course_after, course_refusal};
ghost use Rattle.course.specs.Images.{chosen_image, due_at, image_in_force, images_in_force};
ghost use Rattle.simulation.specs.Patches.{IsImagePatchDue};
ghost use Rattle.image_patch.specs.Patches.{patched};

use course::Course;
use image_compiler::compile;
use image_patch::{Apply, Patch};
use network_model::{NoMemory, Refusal, SmallAllocator, Step};
use router_core::Router;
use tree_bitmap::Image;
use tree_bitmap::parts::copy;
use world::World;

// What a publication of the router would set in its image, did it publish now.
fn next_patch<A: SmallAllocator>(alloc: A, router: &Router<A>) -> Result<Patch<A>, NoMemory>
    requires { router.now.generation + 1 < 2 ^ 64 }
    ensures { IfOk result (λ patch. patched patch.generation patch.rows.items
        (image_in_force router.now) ≡ image_in_force (router_publishing router.now)) }
{
    let rows = router.patch_rows(alloc)?;
    Ok(Patch {
        generation: router.generation() + 1,
        rows,
    })
}

// What a publication of the router would set in its image; None where it would be refused.
fn patch_due<A: SmallAllocator>(
    alloc: A,
    world: &World<A>,
    router: u16,
) -> Result<Option<Patch<A>>, NoMemory>
    requires { HasRoomForSteps 1 world.now }
    ensures due { IfOk result (IsImagePatchDue world.now router) }
    ensures err { IfErr result (λ e. IsSome (due_at world.now router)) }
{
    let Some(publisher) = world.routers().get(usize::from(router)) else {
        return Ok(None);
    };
    if !publisher.due() {
        return Ok(None);
    }
    Ok(Some(next_patch(alloc, publisher)?))
}

// Does a step of the course; a publication puts the router's image in force, too. Refused, it leaves both as
// they were.
pub fn forward<A: SmallAllocator>(
    alloc: A,
    course: &mut Course<A>,
    images: &mut Vec<Image<A>, A>,
    step: Step,
) -> Result<(), Refusal>
    requires in_force { images.old.items ≡ images_in_force (course.old).world }
    ensures ok { OnOk result (steps.Lawful (course.old).world step
        × (course.new ≡ course_after course.old step)) }
    ensures err { OnErr result (course.new ≡ course.old) }
    ensures in_force { images.new.items ≡ images_in_force (course.new).world }
    ensures cause { IsDoneOr (course_refusal course.old step) result }
    ensures down { (l : ℕ) → step ≡ Step.LinkDown l
        → MatchOption (course_refusal course.old step) (IsOk result) (λ e. result ≡ Err e) }
    ensures stale { course_refusal course.old step ≡ None
        → DiscardsStale (course.old).world step result }
    ensures room { course_refusal course.old step ≡ None
        → DeliversWithRoom (course.old).world step result }
{
    match step {
        Step::Publish { router } => publish(alloc, course, images, router),
        _ => course.step(step),
    }
}

// Patches a router's image with what is due there, and does the course's step `Publish` then, which cannot
// fail any more. Refused, it leaves both as they were.
fn publish<A: SmallAllocator>(
    alloc: A,
    course: &mut Course<A>,
    images: &mut Vec<Image<A>, A>,
    router: u16,
) -> Result<(), Refusal>
    requires in_force { images.old.items ≡ images_in_force (course.old).world }
    ensures ok { OnOk result (steps.Lawful (course.old).world (Step.Publish router)
        × (course.new ≡ course_after course.old (Step.Publish router))) }
    ensures err { OnErr result (course.new ≡ course.old) }
    ensures in_force { images.new.items ≡ images_in_force (course.new).world }
    ensures cause { IsDoneOr (course_refusal course.old (Step.Publish router)) result }
{
    if course.is_full() {
        return Err(Refusal::JournalFull);
    }
    let Some(patch) = patch_due(alloc, course.world(), router)? else {
        return course.step(Step::Publish { router });
    };
    images[usize::from(router)].apply(&patch)?;
    course.step(Step::Publish { router }).unwrap();
    Ok(())
}

// The image of the rows that each router has chosen, of generation 0.
pub fn opening_images<A: SmallAllocator>(
    alloc: A,
    world: &World<A>,
) -> Result<Vec<Image<A>, A>, NoMemory>
    ensures { IfOk result (λ images. images.items ≡ map chosen_image (world.now).routers) }
{
    let mut images = Vec::new(alloc);
    for router in world.routers() {
        images.push(compile(alloc, router.table())?)?;
    }
    Ok(images)
}

// Equal images, in memory of this allocator.
pub fn copy_images<A: SmallAllocator>(
    alloc: A,
    images: &[Image<A>],
) -> Result<Vec<Image<A>, A>, NoMemory>
    ensures { IfOk result (λ v. v.items ≡ images.now) }
{
    let mut copies = Vec::with_capacity(alloc, images.len())?;
    for image in images {
        copies.push_reserved(copy(image, alloc)?);
    }
    Ok(copies)
}
