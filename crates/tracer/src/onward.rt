//! What a trace does at one router.

ghost use Rattle.std.specs.Prelude.{◌≡◌, ◌⊎◌, ◌<◌, length, IfOk, IfErr};
ghost use Rattle.network_model.specs.Forwarding.{by_row, onward};
ghost use Rattle.tracer.specs.Tracing.{traced_onward};

use crate::fault::{TraceFault, lookup_fault};
use fabric::{Fabric, FabricName};
use network_model::{Ending, Entry, Prefix};
use world::World;

/// What a trace does at a router.
#[derive(Clone, Copy)]
pub enum Onward {
    Ends(Ending),
    // By the row of this prefix, to this router.
    Goes { prefix: Prefix, router: u16 },
}

// By a row that a router gave, after a first router that matched this prefix, if it left one.
fn by_row(
    world: &World,
    router: u16,
    first: Option<Prefix>,
    matched: Option<(Prefix, Entry)>,
) -> Onward
    ensures { traced_onward result ≡ by_row world.now router first matched }
{
    let Some((prefix, entry)) = matched else {
        return Onward::Ends(Ending::NoRoute);
    };
    if first.is_some_and(|first| first != prefix) {
        return Onward::Ends(Ending::Crossed);
    }
    match entry {
        Entry::Local => Onward::Ends(Ending::Delivered),
        Entry::Unreachable => Onward::Ends(Ending::Unreachable),
        Entry::Via { port, session } => match world.far_router(router, port, session) {
            Some(router) => Onward::Goes { prefix, router },
            None => Onward::Ends(Ending::DeadLink),
        },
    }
}

/// Asks the image in force at a router, once the first router matched this prefix, if it left one.
pub fn ask<B: FabricName>(
    fabric: &mut Fabric<B>,
    addr: u32,
    first: Option<Prefix>,
    router: u16,
) -> Result<Onward, TraceFault>
    requires known { router < length (fabric.old).world.routers }
    ensures ok { IfOk result (λ o. traced_onward o ≡ onward (fabric.old).world addr first router) }
    ensures err { IfErr result (λ e. (e ≡ TraceFault.Stale) ⊎ (e ≡ TraceFault.NoImage)) }
    ensures same { fabric.new ≡ fabric.old }
{
    match fabric.lookup(router, addr) {
        Ok(answer) => Ok(by_row(fabric.world(), router, first, answer.matched)),
        Err(refusal) => Err(lookup_fault(refusal)),
    }
}
