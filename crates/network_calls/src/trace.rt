//! Packets that are followed for C.

ghost use Rattle.std.specs.Prelude.{◌≡◌, None, Some, IfErr, IfOk, OnErr, OnOk};
ghost use Rattle.network_model.specs.World.{Router};
ghost use Rattle.network_calls.specs.{Calls.ending_number, Calls.router_fault, Calls.IsFollowed, declared.failure.Failure.TheVariants.Refused};

use network_model::{Ending, Refusal};
use simulation::Simulation;

/// Follows a packet for an address from a router on, along the images in force. It writes the routers that the
/// packet passes over the first of those that are there, as many as fit: how many these are, and the number of
/// its end. Refused with `UnknownRouter`.
pub fn trace_of(
    simulation: &Simulation,
    router: u16,
    addr: u32,
    hops: &mut [u16],
) -> Result<(usize, u8), Refusal>
    ensures ok { IfOk result (λ t. IsFollowed
        simulation.now addr router hops.old hops.new t.0 t.1) }
    ensures known { OnOk result (router_fault
        (λ (r : Router). None) (simulation.now).world.routers router ≡ None) }
    ensures unchanged { OnErr result (hops.new ≡ hops.old) }
    ensures err { IfErr result (λ e. router_fault
        (λ (r : Router). None) (simulation.now).world.routers router ≡ Some (Refused e)) }
{
    match simulation.trace(router, addr, hops) {
        Some(traced) => Ok((traced.count, ending_number(traced.end))),
        None => Err(Refusal::UnknownRouter),
    }
}

fn ending_number(end: Option<Ending>) -> u8
    ensures { result ≡ ending_number end }
{
    match end {
        Some(Ending::Delivered) => 0,
        Some(Ending::NoRoute) => 1,
        Some(Ending::Unreachable) => 2,
        Some(Ending::DeadLink) => 3,
        Some(Ending::Crossed) => 4,
        None => 255,
    }
}
