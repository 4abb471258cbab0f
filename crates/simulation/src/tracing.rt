//! Where packets go along the images in force.

ghost use Rattle.std.specs.Prelude.{◌≡◌, None};
ghost use Rattle.network_model.specs.Forwarding.{by_row};
ghost use Rattle.simulation.specs.Tracing.{onward_of};

use network_model::{Ending, Entry, Prefix, SmallAllocator};
use world::World;

/// How far a packet was followed: the routers that it passes, as many as there was room for, and why it ends at
/// the last; None where the room was used up before.
#[derive(Clone, Copy)]
pub struct Traced {
    pub count: usize,
    pub end: Option<Ending>,
}

/// Where a packet goes from a router.
#[derive(Clone, Copy)]
pub enum Onward {
    Ends(Ending),
    // By the row of this prefix, to this router.
    Goes { prefix: Prefix, router: u16 },
}

// By a row that a router gave, whichever prefix it has.
pub fn by_row<A: SmallAllocator>(
    world: &World<A>,
    router: u16,
    matched: Option<(Prefix, Entry)>,
) -> Onward
    ensures { onward_of result ≡ by_row world.now router None matched }
{
    let Some((prefix, entry)) = matched else {
        return Onward::Ends(Ending::NoRoute);
    };
    match entry {
        Entry::Local => Onward::Ends(Ending::Delivered),
        Entry::Unreachable => Onward::Ends(Ending::Unreachable),
        Entry::Via { port, session } => match world.far_router(router, port, session) {
            Some(router) => Onward::Goes { prefix, router },
            None => Onward::Ends(Ending::DeadLink),
        },
    }
}
