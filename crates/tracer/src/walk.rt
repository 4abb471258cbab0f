//! Traces of packets.

ghost use Rattle.std.specs.Prelude.{◌≡◌, ◌≢◌, ◌≤◌, ◌<◌, ◌⊎◌, false, length, vec_len, Err, IfOk, IfErr};
ghost use Rattle.ipv4_prefix.specs.Prefix.{Prefix};
ghost use Rattle.network_model.specs.Forwarding as model;
ghost use Rattle.fabric.specs.{Fabric.ForwardsAsPublished, Headline.IsImageWalk, Headline.IsImageWay, Headline.none_published};
ghost use Rattle.all_packets.specs.{Packets.IsWay, Through.ThroughEnds, Through.through as trace_through};
ghost use Rattle.loop_freedom.specs.Network.{meets_twice};
ghost use Rattle.no_packet_loops.specs.Packets.{TracesEnd};
ghost use Rattle.tracer.specs.Following.{FollowsEnd, followed_way, kept_prefix};
ghost use Rattle.course.specs.Links.{LeadsToRouters};

use crate::fault::TraceFault;
use crate::onward::{Onward, ask};
use fabric::{Fabric, FabricName};
use network_model::{Ending, Prefix, Trace};
use std::alloc::Global;

// The number of routers, and what holds of the traces of every fabric: its journal is a run.
fn router_count<B: FabricName>(fabric: &Fabric<B>) -> usize
    ensures count { result ≡ length (fabric.now).world.routers }
    ensures routers { LeadsToRouters (fabric.now).world }
    ensures traces { TracesEnd (fabric.now).world }
    ensures through { ThroughEnds (fabric.now).world }
    ensures ends { FollowsEnd (fabric.now).world }
    ensures forwards { ForwardsAsPublished fabric.now }
{
    fabric.holds();
    // The journal is a run of lawful steps from the opening.
    let _journal = fabric.journal();
    fabric.network().routers()
}

/// The trace of a packet for an address from a router: at each router it asks the image in force, and
/// follows the row's link where that is up in the row's session. It waits for nobody. Refused with
/// `UnknownRouter`; with `NoMemory`; with `Stale` while a ticket that has published is not back; with
/// `NoImage`, which does not happen.
pub fn trace<B: FabricName>(
    fabric: &mut Fabric<B>,
    alloc: Global,
    router: u16,
    addr: u32,
) -> Result<Trace, TraceFault>
    ensures ok { IfOk result (λ t. model.trace_of t ≡ model.trace (fabric.old).world router addr) }
    ensures walk { IfOk result (λ t. (p : Prefix)
        × model.IsPacketWalk (fabric.old).world addr p t.path.items) }
    ensures in_force { IfOk result (λ t. (p : Prefix)
        × IsImageWalk fabric.old none_published addr p t.path.items) }
    ensures no_loop { IfOk result (λ t. meets_twice t.path.items ≡ false) }
    ensures few { IfOk result (λ t. vec_len t.path ≤ length (fabric.old).world.routers) }
    ensures unknown { length (fabric.old).world.routers ≤ router → result
        ≡ Err TraceFault.UnknownRouter }
    ensures err { router < length (fabric.old).world.routers → IfErr result
        (λ e. (e ≡ TraceFault.NoMemory) ⊎ (e ≡ TraceFault.Stale) ⊎ (e ≡ TraceFault.NoImage)) }
    ensures same { fabric.new ≡ fabric.old }
{
    // It tells what holds of traces.
    let _routers = router_count(fabric);
    follow(fabric, alloc, router, addr, false)
}

/// The trace of a packet to its end, whichever prefixes match it on its way: where a `trace` ends
/// `crossed`, it goes on from the last router. So its end is another, and it meets no router twice. It
/// waits for nobody, and is refused as `trace` is.
pub fn trace_through<B: FabricName>(
    fabric: &mut Fabric<B>,
    alloc: Global,
    router: u16,
    addr: u32,
) -> Result<Trace, TraceFault>
    ensures ok { IfOk result (λ t. model.trace_of t
        ≡ trace_through (fabric.old).world router addr) }
    ensures way { IfOk result (λ t. IsWay (fabric.old).world addr t.path.items) }
    ensures in_force { IfOk result (λ t. IsImageWay fabric.old none_published addr t.path.items) }
    ensures no_loop { IfOk result (λ t. meets_twice t.path.items ≡ false) }
    ensures ended { IfOk result (λ t. t.end ≢ Ending.Crossed) }
    ensures few { IfOk result (λ t. vec_len t.path ≤ length (fabric.old).world.routers) }
    ensures unknown { length (fabric.old).world.routers ≤ router → result
        ≡ Err TraceFault.UnknownRouter }
    ensures err { router < length (fabric.old).world.routers → IfErr result
        (λ e. (e ≡ TraceFault.NoMemory) ⊎ (e ≡ TraceFault.Stale) ⊎ (e ≡ TraceFault.NoImage)) }
    ensures same { fabric.new ≡ fabric.old }
{
    // It tells what holds of traces.
    let _routers = router_count(fabric);
    follow(fabric, alloc, router, addr, true)
}

// The prefix that the routers behind one that matched this have to match too, if there is one.
fn kept_prefix(through: bool, prefix: Prefix) -> Option<Prefix>
    ensures { result ≡ kept_prefix through prefix }
{
    if through { None } else { Some(prefix) }
}

// Follows a packet router by router: while one prefix matches it, or through.
fn follow<B: FabricName>(
    fabric: &mut Fabric<B>,
    alloc: Global,
    router: u16,
    addr: u32,
    through: bool,
) -> Result<Trace, TraceFault>
    ensures ok { IfOk result (λ t. (router < length (fabric.old).world.routers)
        × (model.trace_of t ≡ followed_way through (fabric.old).world router addr)) }
    ensures few { IfOk result (λ t. vec_len t.path ≤ length (fabric.old).world.routers) }
    ensures unknown { length (fabric.old).world.routers ≤ router → result
        ≡ Err TraceFault.UnknownRouter }
    ensures err { router < length (fabric.old).world.routers → IfErr result
        (λ e. (e ≡ TraceFault.NoMemory) ⊎ (e ≡ TraceFault.Stale) ⊎ (e ≡ TraceFault.NoImage)) }
    ensures same { fabric.new ≡ fabric.old }
{
    let routers = router_count(fabric);
    if usize::from(router) >= routers {
        return Err(TraceFault::UnknownRouter);
    }
    let mut path = Vec::new(alloc);
    let mut first = None;
    let mut at = router;
    for _ in 0..routers {
        let next = ask(fabric, addr, first, at)?;
        path.push(at)?;
        match next {
            Onward::Ends(end) => return Ok(Trace { path, end }),
            Onward::Goes { prefix, router } => {
                first = kept_prefix(through, prefix);
                at = router;
            }
        }
    }
    // Of so many routers one would be met twice.
    unreachable!()
}
