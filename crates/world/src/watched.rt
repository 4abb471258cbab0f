//! A world that knows whether it has come to rest.

ghost use Rattle.std.specs.Prelude.{ℕ, ◌≡◌, ◌≤◌, ◌+◌, false, slice_get, IfOk, IsOk, OnOk, OnErr, MatchOption, Err};
ghost use Rattle.std.specs.Option.{option_map_or};
ghost use Rattle.network_model.specs.World as model;
ghost use Rattle.network_model.specs.Step as steps;
ghost use Rattle.network_model.specs.Turns as turns;
ghost use Rattle.world.specs.Steps.{DeliversWithRoom, DiscardsStale, IsDoneOr, HasRoomForSteps};
ghost use Rattle.world.specs.{Rest.has_notice, Rest.is_busy, Rest.is_restless, Touched.touched_by, Touched.unrest_at};

use crate::network::Network;
use crate::touched::Touched;
use crate::world::World;
use link_fifo::Links;
use network_model::{End, NoMemory, Refusal, SmallAllocator, Step};
use router_core::Router;
use std::alloc::Global;
use std::marker::Model;

/// A world, and how much of it is not at rest: how many links have something on them, how many routers
/// have notices of their attachments to take, and how many have something to publish or to release. So
/// it is known whether anything is left to do without going through the network.
#[derive(Drop)]
pub struct WatchedWorld<A: SmallAllocator = Global> {
    world: World<A>,
    unrest: usize,
}

impl<A: SmallAllocator> Model for WatchedWorld<A> {
    ghost use Rattle.network_model.specs.World.{World as NetworkWorld};
    ghost use Rattle.world.specs.Rest.{IsWatched};

    ghost Value = { NetworkWorld };

    ghost view = { λ w. w.world };

    ghost invariant = { λ w. IsWatched w.world w.unrest };
}

impl<A: SmallAllocator> WatchedWorld<A> {
    /// The world of a network that opens.
    pub fn open(alloc: A, network: &Network) -> Result<WatchedWorld<A>, NoMemory>
        ensures { IfOk result (λ w. w ≡ model.opening network.now) }
    {
        let world = World::open(alloc, network)?;
        // At its opening a network is at rest.
        let _links = network.links();
        Ok(WatchedWorld { world, unrest: 0 })
    }

    /// An equal world in memory of this allocator: what becomes of one of the two leaves the other as it
    /// is. It takes time and memory by all that stands in the world.
    pub fn copy(&self, alloc: A) -> Result<WatchedWorld<A>, NoMemory>
        ensures { IfOk result (λ w. w ≡ self.now) }
    {
        let world = self.world.copy(alloc)?;
        Ok(WatchedWorld {
            world,
            unrest: self.unrest,
        })
    }

    /// The world.
    pub fn world(&self) -> &World<A>
        ensures { result.now ≡ self.now }
    {
        &self.world
    }

    /// Whether no item is queued on any link, no notice waits, nothing is due, and nothing is ripe.
    pub fn is_settled(&self) -> bool
        ensures { result ≡ turns.is_settled self.now }
    {
        self.unrest == 0
    }

    /// Does one step, as the world does it, and answers what the step could change.
    pub fn step(&mut self, step: Step) -> Result<Touched, Refusal>
        requires { HasRoomForSteps 1 self.old }
        ensures ok { OnOk result (steps.Lawful self.old step
            × (self.new ≡ steps.next self.old step)) }
        ensures err { OnErr result (self.new ≡ self.old) }
        ensures cause { IsDoneOr (steps.refusal self.old step) result }
        ensures publication { (i : ℕ) → step ≡ Step.Publish i
            → MatchOption (steps.refusal self.old step) (IsOk result) (λ e. result ≡ Err e) }
        ensures down { (l : ℕ) → step ≡ Step.LinkDown l
            → MatchOption (steps.refusal self.old step) (IsOk result) (λ e. result ≡ Err e) }
        ensures stale { DiscardsStale self.old step result }
        ensures room { DeliversWithRoom self.old step result }
        ensures touched { IfOk result (λ t. t ≡ touched_by step self.old) }
    {
        let touched = Touched::by(&step, &self.world);
        let before = unrest_of(touched, &self.world);
        self.world.step(step)?;
        let after = unrest_of(touched, &self.world);
        self.unrest = self.unrest - before + after;
        Ok(touched)
    }
}

// How much of what a step can change is not at rest.
fn unrest_of<A: SmallAllocator>(touched: Touched, world: &World<A>) -> usize
    ensures unrest { result ≡ unrest_at touched world.now }
    ensures few { result ≤ 3 }
{
    let busy = match touched.link {
        Some(link) => is_busy(world.links(), link),
        None => false,
    };
    let told = match touched.attachments {
        Some(router) => has_notice_at(world, router),
        None => false,
    };
    let restless = match touched.router {
        Some(router) => is_restless_at(world.routers(), router),
        None => false,
    };
    usize::from(busy) + usize::from(told) + usize::from(restless)
}

// Whether something stands on the link, in either direction.
fn is_busy<A: SmallAllocator>(links: &Links<A>, link: u16) -> bool
    ensures { result ≡ option_map_or is_busy (slice_get links.now.links link) false }
{
    links.front(link, End::A).is_ok() || links.front(link, End::B).is_ok()
}

// Whether a router has yet to take a notice of its attachments.
fn has_notice_at<A: SmallAllocator>(world: &World<A>, router: u16) -> bool
    ensures { result ≡ option_map_or has_notice (slice_get world.now.attachments router) false }
{
    usize::from(router) < world.routers().len() && world.notices(router) > 0
}

fn is_restless<A: SmallAllocator>(router: &Router<A>) -> bool
    ensures { result ≡ is_restless router.now }
{
    router.due() || router.ripe() > 0
}

fn is_restless_at<A: SmallAllocator>(routers: &[Router<A>], router: u16) -> bool
    ensures { result ≡ option_map_or is_restless (slice_get routers.now router) false }
{
    match routers.get(usize::from(router)) {
        Some(found) => is_restless(found),
        None => false,
    }
}
