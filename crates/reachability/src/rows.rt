//! From which routers the published rows lead to a prefix.

ghost use Rattle.std.specs.Prelude.{ℕ, IsTrue, Some, ◌≡◌, ◌≢◌, ◌<◌, ◌↔◌, ◌&&◌, true, false, not, length};
ghost use Rattle.no_packet_loops.specs.Packets.{published_entry};
ghost use Rattle.reachability.specs.{Ways.HasWay, Ways.IsJoined, Marks.is_in, Marks.unmarked, Rounds.AllRouted, Rounds.OnlyRouted, Rounds.leads_home, Rounds.next_by_row, Rounds.IsLast};

use crate::marks::{clear, is_in, mark};
use network_model::{Entry, Prefix, SmallAllocator};
use world::World;

/// Marks each router from which published rows lead home: over links that are up in the rows' sessions, to a
/// router that is attached to the prefix and whose row is local.
pub fn mark_routed<A: SmallAllocator>(world: &World<A>, prefix: Prefix, marks: &mut [bool])
    requires size { length marks.old ≡ length (world.now).routers }
    requires joined { IsJoined world.now }
    ensures { (i : ℕ) → (is_in marks.new i ≡ true) ↔ HasWay world.now prefix i }
{
    clear(marks);
    while follow(world, prefix, marks) {}
}

// One round over the routers: marks each whose row leads home. Whether any was not marked before.
fn follow<A: SmallAllocator>(world: &World<A>, prefix: Prefix, marks: &mut [bool]) -> bool
    requires size { length marks.old ≡ length (world.now).routers }
    requires joined { IsJoined world.now }
    ensures only { OnlyRouted world.now prefix marks.old → OnlyRouted world.now prefix marks.new }
    ensures grown { result ≡ true → unmarked marks.new < unmarked marks.old }
    ensures closed { result ≡ false → AllRouted world.now prefix marks.new }
{
    let mut grown = false;
    for place in 0..marks.len() {
        let router = place as u16;
        let added = is_added(world, prefix, marks, router);
        if added {
            mark(marks, router);
            grown = true;
        }
    }
    grown
}

// Whether the router is not marked, and its row leads home.
fn is_added<A: SmallAllocator>(
    world: &World<A>,
    prefix: Prefix,
    marks: &[bool],
    router: u16,
) -> bool
    ensures { result ≡ (not (is_in marks.now router)
        && leads_home world.now prefix marks.now router) }
{
    !is_in(marks, router) && leads_home(world, prefix, marks, router)
}

// Whether the row that the router published is a local one at a router that is attached, or leads to a router
// that is marked.
fn leads_home<A: SmallAllocator>(
    world: &World<A>,
    prefix: Prefix,
    marks: &[bool],
    router: u16,
) -> bool
    ensures { result ≡ leads_home world.now prefix marks.now router }
{
    match published(world, prefix, router) {
        Some(Entry::Local) => world.attachment(router, prefix).is_some(),
        Some(Entry::Via { port, session }) => match world.far_router(router, port, session) {
            Some(next) => is_in(marks, next),
            None => false,
        },
        Some(Entry::Unreachable) | None => false,
    }
}

// The row that a router published.
fn published<A: SmallAllocator>(world: &World<A>, prefix: Prefix, router: u16) -> Option<Entry>
    ensures { result ≡ published_entry world.now router prefix }
{
    world
        .routers()
        .get(usize::from(router))?
        .table()
        .published(prefix)
}

// The router to which the row leads that this one published, over a link that is up in the row's session.
fn next_by_row<A: SmallAllocator>(world: &World<A>, prefix: Prefix, router: u16) -> Option<u16>
    ensures { result ≡ next_by_row world.now prefix router }
{
    match published(world, prefix, router)? {
        Entry::Via { port, session } => world.far_router(router, port, session),
        Entry::Local | Entry::Unreachable => None,
    }
}

// Whether a published row leads to the router.
fn is_met<A: SmallAllocator>(world: &World<A>, prefix: Prefix, router: u16) -> bool
    requires { IsJoined world.now }
    ensures { result ≡ false → (i : ℕ) → next_by_row world.now prefix i ≢ Some router }
{
    for place in 0..world.routers().len() {
        if let Some(next) = next_by_row(world, prefix, place as u16)
            && next == router
        {
            return true;
        }
    }
    false
}

/// Whether no published row leads to the router, and rows lead home from it.
pub fn is_last<A: SmallAllocator>(world: &World<A>, prefix: Prefix, router: u16) -> bool
    requires { IsJoined world.now }
    ensures { IsTrue result → IsLast world.now prefix router }
{
    let mut at = router;
    for _ in 0..world.routers().len() {
        match next_by_row(world, prefix, at) {
            Some(next) => at = next,
            None => {
                return leads_home(world, prefix, &[], at) && !is_met(world, prefix, router);
            }
        }
    }
    false
}
