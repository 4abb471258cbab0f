//! The images by which routers forward.

ghost use Rattle.std.specs.Prelude.{◌≡◌, ◌+◌, ◌^◌, ◌<◌, ◌||◌, not, map, IfOk, IfErr, IsSome};
ghost use Rattle.std.specs.List.{list_any};
ghost use Rattle.ipv4_prefix.specs.Prefix.{prefix_eq};
ghost use Rattle.network_model.specs.{Step.has_row, Step.router_publishing, Publication.with_rows};
ghost use Rattle.world.specs.Steps.{HasRoomForSteps};
ghost use Rattle.course.specs.Images.{image_in_force, chosen_image, due_at};
ghost use Rattle.fabric.specs.Patches.{IsPatchDue, rows_to_set};
ghost use Rattle.image_patch.specs.Patches.{patched};

use image_compiler::compile;
use network_model::{Entry, NoMemory, Prefix, SmallAllocator};
use publication::Patch;
use route_table::RouteTable;
use router_core::Router;
use tree_bitmap::Image;
use world::World;

// Whether a publication names the row: it differs from the one in force, or its prefix waits.
fn is_to_set<A: SmallAllocator>(
    table: &RouteTable<A>,
    waiting: &[Prefix],
    prefix: Prefix,
    entry: Entry,
) -> bool
    ensures { result ≡ (not (has_row (table.now).table.published (prefix, entry)) || list_any
        (λ p. prefix_eq p prefix) waiting.now) }
{
    table.published(prefix) != Some(entry) || waiting.contains(&prefix)
}

// The rows that a publication names while these prefixes wait.
fn rows_named<A: SmallAllocator>(
    alloc: A,
    table: &RouteTable<A>,
    waiting: &[Prefix],
) -> Result<Vec<(Prefix, Entry), A>, NoMemory>
    ensures rows { IfOk result (λ rows. rows.items ≡ rows_to_set (table.now).table waiting.now) }
    ensures patch { IfOk result (λ rows. with_rows rows.items (table.now).table.published
        ≡ (table.now).table.control) }
{
    // What changed makes the chosen rows of the published ones.
    let _changed = table.changed();
    let mut rows = Vec::new(alloc);
    for (prefix, entry) in table.rows() {
        if is_to_set(table, waiting, prefix, entry) {
            rows.push((prefix, entry))?;
        }
    }
    Ok(rows)
}

// What a publication of the router would set in its image, did it publish now, while these prefixes wait.
fn next_patch<A: SmallAllocator>(
    alloc: A,
    router: &Router<A>,
    waiting: &[Prefix],
) -> Result<Patch<A>, NoMemory>
    requires { router.now.generation + 1 < 2 ^ 64 }
    ensures image { IfOk result (λ patch. patched patch.generation patch.rows.items
        (image_in_force router.now) ≡ image_in_force (router_publishing router.now)) }
    ensures rows { IfOk result (λ patch. patch.rows.items
        ≡ rows_to_set (router.now).table waiting.now) }
{
    let rows = if waiting.is_empty() {
        router.patch_rows(alloc)?
    } else {
        rows_named(alloc, router.table(), waiting)?
    };
    Ok(Patch {
        generation: router.generation() + 1,
        rows,
    })
}

// What a publication of the router would set in its image, while these prefixes wait; None where it
// would be refused.
pub fn patch_due<A: SmallAllocator>(
    alloc: A,
    world: &World<A>,
    router: u16,
    waiting: &[Prefix],
) -> Result<Option<Patch<A>>, NoMemory>
    requires { HasRoomForSteps 1 world.now }
    ensures due { IfOk result (IsPatchDue world.now router waiting.now) }
    ensures err { IfErr result (λ e. IsSome (due_at world.now router)) }
{
    let Some(publisher) = world.routers().get(usize::from(router)) else {
        return Ok(None);
    };
    if !publisher.due() {
        return Ok(None);
    }
    Ok(Some(next_patch(alloc, publisher, waiting)?))
}

// The image of the rows that each router has chosen, of generation 0.
pub fn opening_images<A: SmallAllocator>(
    alloc: A,
    world: &World<A>,
) -> Result<Vec<Image<A>, A>, NoMemory>
    ensures { IfOk result (λ images. images.items ≡ map chosen_image (world.now).routers) }
{
    let mut images = Vec::new(alloc);
    for router in world.routers() {
        images.push(compile(alloc, router.table())?)?;
    }
    Ok(images)
}
