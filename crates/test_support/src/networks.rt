//! Networks that several tests open.

use network_model::{Cost, LinkSpec, Prefix};
use std::alloc::Global;
use world::Network;

/// The prefix 10.0.0.0/8.
pub fn ten() -> Prefix {
    Prefix::covering(0x0A00_0000, 8)
}

/// A link of these two routers that costs the same each way; none if the cost is no cost.
pub fn link(a: u16, b: u16, cost: u32) -> Option<LinkSpec> {
    let cost = Cost::new(cost).ok()?;
    Some(LinkSpec {
        a,
        b,
        from_a: cost,
        from_b: cost,
    })
}

/// Routers 0 and 1 with one link at cost 5 each way. Router 0 is attached to 10.0.0.0/8 at cost 1. None for
/// want of memory.
pub fn two_routers(alloc: Global) -> Option<Network> {
    let links = vec![in alloc; link(0, 1, 5)?].ok()?;
    let attachments = vec![in alloc; (ten(), 0, Cost::ONE)].ok()?;
    Network::new(2, links, attachments).ok()
}
