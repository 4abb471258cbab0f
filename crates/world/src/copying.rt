//! Copies of the parts of a world.

ghost use Rattle.std.specs.Prelude.{◌≡◌, map, IfOk};

use crate::attachments::Attachments;
use network_model::{NoMemory, Place, SmallAllocator};
use router_core::Router;

// Equal places of each router's ports, in memory of this allocator.
pub fn copy_places<A: SmallAllocator>(
    alloc: A,
    places: &[Vec<Place, A>],
) -> Result<Vec<Vec<Place, A>, A>, NoMemory>
    ensures { IfOk result (λ v. map (λ ps. ps.items) v.items ≡ map (λ ps. ps.items) places.now) }
{
    let mut copies = Vec::with_capacity(alloc, places.len())?;
    for own in places {
        copies.push_reserved(Vec::from_slice(alloc, own)?);
    }
    Ok(copies)
}

// Equal attachments of each router, in memory of this allocator.
pub fn copy_attachments<A: SmallAllocator>(
    alloc: A,
    attachments: &[Attachments<A>],
) -> Result<Vec<Attachments<A>, A>, NoMemory>
    ensures { IfOk result (λ v. v.items ≡ attachments.now) }
{
    let mut copies = Vec::with_capacity(alloc, attachments.len())?;
    for own in attachments {
        copies.push_reserved(own.copy(alloc)?);
    }
    Ok(copies)
}

// Equal routers, in memory of this allocator.
pub fn copy_routers<A: SmallAllocator>(
    alloc: A,
    routers: &[Router<A>],
) -> Result<Vec<Router<A>, A>, NoMemory>
    ensures { IfOk result (λ v. v.items ≡ routers.now) }
{
    let mut copies = Vec::with_capacity(alloc, routers.len())?;
    for router in routers {
        copies.push_reserved(router.copy(alloc)?);
    }
    Ok(copies)
}
