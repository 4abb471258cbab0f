//! Events: what is left to do, each at its moment.

ghost use Rattle.std.specs.Prelude.{◌≡◌, ◌<◌, IfOk, IfSome, OnErr, OnOk, drop, if◌then◌else◌, insert, length, map, nat_lt, not, position};
ghost use Rattle.timed_simulation.specs.Events.{sooner};
ghost use Rattle.timed_simulation.specs.Timed.{begins_at, opening_router_time, place_among, routers_after};
ghost use Rattle.coming_to_rest.specs.Worlds.{is_own};

use network_model::{NoMemory, SmallAllocator, Step};
use std::collections::VecDeque;
use world::World;

/// A change that is given: the step of it, and the moment at which it is to be done, in microseconds since
/// the opening.
#[derive(Clone, Copy, Debug, PartialEq, Eq)]
pub struct Change {
    pub moment: u64,
    pub step: Step,
}

/// A step that is done at a moment, in microseconds since the opening; and whether it is a change that was
/// given.
#[derive(Clone, Copy, Debug, PartialEq, Eq)]
pub struct Event {
    pub moment: u64,
    pub step: Step,
    pub given: bool,
}

/// How long a router takes to publish, and since when it has something to publish, if it has; both in
/// microseconds.
#[derive(Clone, Copy)]
pub struct RouterTime {
    pub delay: u64,
    pub since: u64,
}

// The sooner of two; of two at one moment the first.
pub fn sooner(a: Option<Event>, b: Option<Event>) -> Option<Event>
    ensures { result ≡ sooner a b }
{
    match (a, b) {
        (Some(first), Some(second)) if second.moment < first.moment => b,
        (None, _) => b,
        _ => a,
    }
}

// Routers of these delays, that have nothing to publish yet.
pub fn opening_routers<A: SmallAllocator>(
    alloc: A,
    delays: &[u64],
) -> Result<Vec<RouterTime, A>, NoMemory>
    ensures { IfOk result (λ routers. routers.items ≡ map opening_router_time delays.now) }
{
    let mut routers = Vec::new(alloc);
    for delay in delays {
        routers.push(RouterTime {
            delay: *delay,
            since: 0,
        })?;
    }
    Ok(routers)
}

// The first of these changes that is later than a moment.
fn first_later<A: SmallAllocator>(changes: &VecDeque<Change, A>, moment: u64) -> Option<usize>
    ensures first { result ≡ position (λ given. nat_lt moment given.moment) changes.now.items }
    ensures within { IfSome result (λ place. place < length changes.now.items) }
{
    changes.iter().position(|given| moment < given.moment)
}

// Puts a change before the first that is later. Refused, it leaves all as it was.
pub fn insert_change<A: SmallAllocator>(
    changes: &mut VecDeque<Change, A>,
    change: Change,
) -> Result<(), NoMemory>
    ensures ok { OnOk result (changes.new.items
        ≡ insert changes.old.items (place_among change.moment changes.old.items) change) }
    ensures err { OnErr result (changes.new.items ≡ changes.old.items) }
{
    let place = first_later(changes, change.moment).unwrap_or(changes.len());
    changes.insert(place, change)?;
    Ok(())
}

// A change that was given and is done is taken off the list.
pub fn take_done<A: SmallAllocator>(changes: &mut VecDeque<Change, A>, given: bool)
    ensures { changes.new.items ≡ (if given then drop 1 changes.old.items else changes.old.items) }
{
    if given {
        let _done = changes.pop_front();
    }
}

// What the router has to publish that takes an item now, and had nothing before, it has since now.
pub fn note_begun<A: SmallAllocator>(
    routers: &mut Vec<RouterTime, A>,
    now: u64,
    begins: Option<u16>,
)
    ensures { routers.new.items ≡ routers_after now begins routers.old.items }
{
    let Some(router) = begins else {
        return;
    };
    if usize::from(router) >= routers.len() {
        return;
    }
    let time = &mut routers[usize::from(router)];
    time.since = now;
}

// The router that is about to take an item by this step and has nothing to publish before.
pub fn begins_at<A: SmallAllocator>(world: &World<A>, step: &Step) -> Option<u16>
    ensures { result ≡ begins_at world.now step.now }
{
    let Step::Deliver { router, .. } = *step else {
        return None;
    };
    match world.routers().get(usize::from(router)) {
        Some(found) if found.due() => None,
        _ => Some(router),
    }
}

/// Whether the step is a change that can be given: of a link, a cost or an attachment, and none that a router
/// does.
pub fn is_change(step: &Step) -> bool
    ensures { result ≡ not (is_own step.now) }
{
    !matches!(
        step,
        Step::Deliver { .. } | Step::Publish { .. } | Step::Release { .. }
    )
}
