//! Which routers are asked again after an event: those that its step touched, and the ends of the link that it
//! touched.

ghost use Rattle.std.specs.Prelude.{◌≡◌, length};
ghost use Rattle.timed_simulation.specs.Timed.{world_of};
ghost use Rattle.timed_simulation.specs.Next.{ends_of, looked_again, looked_at, looked_ends, looked_if, owner_of};

use crate::clocked::Clocked;
use minima::Minima;
use network_model::SmallAllocator;
use world::{Network, Touched};

// Notes when a router has something to do next, if there is such a router.
fn look_at<A: SmallAllocator>(minima: &mut Minima<A>, clocked: &Clocked<A>, router: u16)
    requires { length minima.old ≡ length (world_of clocked.now).routers }
    ensures same { length minima.new ≡ length minima.old }
    ensures looked { minima.new ≡ looked_at clocked.now router minima.old }
{
    if usize::from(router) >= clocked.router_count() {
        return;
    }
    minima.set(router, clocked.next_moment(router));
}

fn look_if<A: SmallAllocator>(minima: &mut Minima<A>, clocked: &Clocked<A>, router: Option<u16>)
    requires { length minima.old ≡ length (world_of clocked.now).routers }
    ensures same { length minima.new ≡ length minima.old }
    ensures looked { minima.new ≡ looked_if clocked.now router minima.old }
{
    let Some(router) = router else {
        return;
    };
    look_at(minima, clocked, router);
}

fn look_at_ends<A: SmallAllocator>(
    minima: &mut Minima<A>,
    clocked: &Clocked<A>,
    ends: Option<(u16, u16)>,
)
    requires { length minima.old ≡ length (world_of clocked.now).routers }
    ensures same { length minima.new ≡ length minima.old }
    ensures looked { minima.new ≡ looked_ends clocked.now ends minima.old }
{
    let Some(ends) = ends else {
        return;
    };
    look_at(minima, clocked, ends.0);
    look_at(minima, clocked, ends.1);
}

// The router that a step touched, or whose attachments.
fn touched_owner(touched: Touched) -> Option<u16>
    ensures { result ≡ owner_of touched }
{
    match touched.router {
        Some(router) => Some(router),
        None => touched.attachments,
    }
}

// The routers at the ends of the link that a step touched.
fn touched_ends(network: &Network, touched: Touched) -> Option<(u16, u16)>
    ensures { result ≡ ends_of network.now touched }
{
    let Some(link) = touched.link else {
        return None;
    };
    match network.links().get(usize::from(link)) {
        Some(spec) => Some((spec.a, spec.b)),
        None => None,
    }
}

/// Notes anew when the routers have something to do next that a step touched.
pub fn look_again<A: SmallAllocator>(minima: &mut Minima<A>, clocked: &Clocked<A>, touched: Touched)
    requires { length minima.old ≡ length (world_of clocked.now).routers }
    ensures { minima.new ≡ looked_again clocked.now touched minima.old }
{
    look_if(minima, clocked, touched_owner(touched));
    let ends = touched_ends(clocked.simulation().network(), touched);
    look_at_ends(minima, clocked, ends);
}
