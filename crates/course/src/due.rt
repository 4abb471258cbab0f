//! Which router is next, and what it has to do.

ghost use Rattle.std.specs.Prelude.{ℕ, ◌≡◌, ◌<◌, ◌≤◌, None, Some, IfSome};
ghost use Rattle.network_model.specs.Network.{most_routers};
ghost use Rattle.course.specs.Turns.{open_step};

use crate::watch::Watch;
use network_model::{SmallAllocator, Step};
use world::World;

/// What keeps routers from some steps that their world allows.
pub trait Shut {
    ghost use Rattle.std.specs.Prelude.{Bool};
    ghost use Rattle.network_model.specs.declared.step.Step.{Step};

    /// From which steps.
    ghost shuts: { Self → Step → Bool };

    /// Whether it keeps its router from the step.
    fn is_shut(&self, step: &Step) -> bool
        ensures { result ≡ shuts self.now step.now };
}

/// It keeps no router from anything.
#[derive(Clone, Copy)]
pub struct NoneShut;

impl Shut for NoneShut {
    ghost use Rattle.course.specs.Turns.{none_shut};

    ghost shuts = { λ n. none_shut };

    fn is_shut(&self, _step: &Step) -> bool {
        false
    }
}

/// What a router has to do next, if that is not shut.
pub fn open_step<A: SmallAllocator, S: Shut>(
    world: &World<A>,
    shut: &S,
    router: u16,
) -> Option<Step>
    ensures { result ≡ open_step (S.shuts shut.now) world.now router }
{
    let step = world.next_step(router)?;
    if shut.is_shut(&step) {
        return None;
    }
    Some(step)
}

// Of the routers that may have something to do the first from this one on that has, and what that is. Those that
// have nothing to do are taken out.
fn first_watched<A: SmallAllocator, S: Shut>(
    world: &World<A>,
    shut: &S,
    watch: &mut Watch<A>,
    from: u16,
) -> Option<(u16, Step)>
    ensures { IfSome result (λ d. open_step (S.shuts shut.now) world.now d.0 ≡ Some d.1) }
{
    for _ in 0..=u16::MAX {
        let router = watch.next(from)?;
        if let Some(step) = open_step(world, shut, router) {
            return Some((router, step));
        }
        watch.remove(router);
    }
    None
}

// The first of all routers that has something to do, and what that is.
fn first_of_all<A: SmallAllocator, S: Shut>(
    world: &World<A>,
    shut: &S,
    routers: usize,
) -> Option<(u16, Step)>
    requires { routers ≤ most_routers }
    ensures some { IfSome result (λ d. open_step (S.shuts shut.now) world.now d.0 ≡ Some d.1) }
    ensures none { result ≡ None → (i : ℕ) → i < routers
        → open_step (S.shuts shut.now) world.now i ≡ None }
{
    for place in 0..routers {
        let router = place as u16;
        match open_step(world, shut, router) {
            Some(step) => return Some((router, step)),
            None => {}
        }
    }
    None
}

/// A router that has something to do, and what that is. If the hint has none, all are asked.
pub fn first_due<A: SmallAllocator, S: Shut>(
    world: &World<A>,
    shut: &S,
    watch: &mut Watch<A>,
    routers: usize,
    from: u16,
) -> Option<(u16, Step)>
    requires { routers ≤ most_routers }
    ensures some { IfSome result (λ d. open_step (S.shuts shut.now) world.now d.0 ≡ Some d.1) }
    ensures none { result ≡ None → (i : ℕ) → i < routers
        → open_step (S.shuts shut.now) world.now i ≡ None }
{
    let found = first_watched(world, shut, watch, from);
    if found.is_some() {
        return found;
    }
    let found = first_of_all(world, shut, routers);
    watch.note_missed(found.is_some());
    found
}
