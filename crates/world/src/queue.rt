//! The notices that a router has yet to take, as a list.

ghost use Rattle.std.specs.Prelude.{◌≡◌, ◌<◌, IfOk, IfSome, length, slice_get};

use crate::world::World;
use metric::Cost;
use network_model::{NoMemory, Notice};
use std::alloc::Global;

/// The notices of its own attachments that a router has yet to take, oldest first.
pub fn notices_at(alloc: Global, world: &World, router: u16) -> Result<Vec<Notice>, NoMemory>
    requires { router < length (world.now).routers }
    ensures { IfOk result (λ v. IfSome (slice_get (world.now).attachments router)
        (λ a. v.items ≡ a.notices)) }
{
    let mut notices = Vec::new(alloc);
    // A notice has a cost. The prover does not meet that type here unless it is named.
    let _cost: Option<Cost> = None;
    for place in 0..world.notices(router) {
        if let Some(notice) = world.notice(router, place) {
            notices.push(notice)?;
        }
    }
    Ok(notices)
}
