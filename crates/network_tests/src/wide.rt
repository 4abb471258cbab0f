//! The network of the widest limits.

use crate::equal_to::{equal, holds};
use network_model::{Cost, Limits};
use std::alloc::Global;
use std::process::Abort;
use test_support::{link, ten};
use world::{LinkSpec, Network, World};

// As many routers as there can be, each with a link to the next one at the greatest cost.
fn widest_line(rt: &impl Abort, alloc: Global) -> Vec<LinkSpec> {
    let mut links = Vec::new(alloc);
    for a in 0..65_535u16 {
        let next = link(a, a + 1, 65_535).expect(rt, "cost");
        links.push(next).expect(rt, "memory");
    }
    links
}

#[test]
fn the_widest_line_opens(rt: HostRuntime) {
    let alloc = rt.alloc();
    let links = widest_line(&rt, alloc);
    let attachments = vec![in alloc; (ten(), 65_535, Cost::ONE)].expect(&rt, "memory");
    let network = Network::within(Limits::WIDEST, 65_536, links, attachments).expect(
        &rt, "network",
    );
    let world = World::open(alloc, &network).expect(&rt, "memory");
    holds(&rt, world.routers().len() == 65_536);
    equal(&rt, world.links().len(), 65_535);
    let last = world.router(65_535).table().published(ten());
    equal(&rt, last, Some(network_model::Entry::Local));
}
