//! What holds of every world of a run.

ghost use Rattle.world.specs.Headline.{IsReached};
ghost use Rattle.reachability.specs.Ways.{IsJoined};

use network_model::SmallAllocator;
use world::{Network, World};

/// It does nothing. The parts of a world fit together, as `look` of `CutOff` asks, if lawful steps lead to the
/// world from the opening of a network without faults.
pub fn always_joined<A: SmallAllocator>(network: &Network, world: &World<A>)
    requires { IsReached network.now world.now }
    ensures { IsJoined world.now }
{}
