//! What a network is made of, before it is opened.

ghost use Rattle.std.specs.Prelude.{◌≡◌, ◌≤◌, length, IfOk, IsOk, OnOk, MatchOption, Err, All};
ghost use Rattle.ipv4_prefix.specs.Prefix.{IsPrefix};
ghost use Rattle.metric.specs.Distance.{IsCost};
ghost use Rattle.network_model.specs.declared.network.Offer.TheVariants.{One};
ghost use Rattle.network_model.specs.World.{prefixes_of};
ghost use Rattle.network_model.specs.Network as valid;
ghost use Rattle.world.specs.Parts.{network_of_parts, HasAtMost};

use crate::attachment_faults::prefix_count;
use crate::link_faults::link_fault;
use network_model::{Cost, Limits, LinkSpec, NetworkFault, NoMemory, Prefix};
use std::marker::Model;

/// The parts of a network that can be opened: its number of routers, its links, and which routers
/// are attached to which prefixes.
#[derive(Drop)]
pub struct Network {
    routers: usize,
    links: Vec<LinkSpec>,
    attachments: Vec<(Prefix, u16, Cost)>,
    // How many prefixes these are of.
    prefixes: usize,
}

impl Model for Network {
    ghost use Rattle.std.specs.Prelude.{◌≡◌, length};
    ghost use Rattle.network_model.specs.World.{Network as Parts, prefixes_of};
    ghost use Rattle.network_model.specs.Network.{IsNetwork};
    ghost use Rattle.world.specs.Parts.{network_of_parts};

    ghost Value = { Parts };

    ghost view = { λ n. network_of_parts n.routers n.links.items n.attachments.items };

    ghost invariant = { λ n. IsNetwork (network_of_parts n.routers n.links.items n.attachments.items)
        × (n.prefixes ≡ length (prefixes_of n.attachments.items)) };
}

impl Network {
    /// The network of these parts, within the program's limits: routers are numbered from 0, links and
    /// attachments by their position, and each attachment is a prefix with the number of the router that is
    /// attached to it and the cost. The faults are tested in the order of the parts: the number of routers,
    /// each link, each attachment.
    pub fn new(
        routers: u16,
        links: Vec<LinkSpec>,
        attachments: Vec<(Prefix, u16, Cost)>,
    ) -> Result<Network, NetworkFault>
        ensures made { IfOk result (λ n. n ≡ network_of_parts routers links.items attachments.items) }
        ensures cause { MatchOption (valid.network_fault valid.program_limits
            (network_of_parts routers links.items attachments.items)) (IsOk result)
            (λ fault. result ≡ Err fault) }
        ensures few { OnOk result (HasAtMost valid.program_limits
            (network_of_parts routers links.items attachments.items)) }
    {
        Network::within(Limits::PROGRAM, usize::from(routers), links, attachments)
    }

    /// The network of these parts, as `new` makes it, within limits of your own, of which none is above
    /// the widest (`Limits::are_within`). It takes time by n log n of the routers, links and attachments.
    pub fn within(
        limits: Limits,
        routers: usize,
        links: Vec<LinkSpec>,
        attachments: Vec<(Prefix, u16, Cost)>,
    ) -> Result<Network, NetworkFault>
        requires { valid.AreWithin limits valid.widest_limits }
        ensures made { IfOk result (λ n. n ≡ network_of_parts routers links.items attachments.items) }
        ensures cause { MatchOption (valid.network_fault limits
            (network_of_parts routers links.items attachments.items)) (IsOk result)
            (λ fault. result ≡ Err fault) }
        ensures few { OnOk result (HasAtMost limits
            (network_of_parts routers links.items attachments.items)) }
    {
        if routers == 0 || routers > limits.routers {
            return Err(NetworkFault::BadRouters);
        }
        let alloc = *links.allocator();
        read_links(&links);
        read_attachments(&attachments);
        if let Some(fault) = link_fault(alloc, &limits, routers, &links) {
            return Err(fault);
        }
        let prefixes = prefix_count(alloc, &limits, routers, &attachments)?;
        Ok(Network {
            routers,
            links,
            attachments,
            prefixes,
        })
    }

    /// An equal network, in memory of the same allocator. It takes time and memory by the links and the
    /// attachments.
    pub fn copy(&self) -> Result<Network, NoMemory>
        ensures { IfOk result (λ n. n ≡ self.now) }
    {
        let alloc = *self.links.allocator();
        let links = Vec::from_slice(alloc, &self.links)?;
        let attachments = Vec::from_slice(alloc, &self.attachments)?;
        Ok(Network {
            routers: self.routers,
            links,
            attachments,
            prefixes: self.prefixes,
        })
    }

    /// The number of routers, from 1 to the limit that the network was made within: 256 by `new`, and at
    /// most 65536.
    pub fn routers(&self) -> usize
        ensures number { result ≡ (self.now).routers }
        ensures few { result ≤ valid.most_routers }
        ensures valid { valid.IsNetwork self.now }
    {
        self.routers
    }

    /// The links, by number: at most the limit that the network was made within, which is 1024 by `new`,
    /// and at most 65536. Each row of its routers has one next hop.
    pub fn links(&self) -> &[LinkSpec]
        ensures links { result.now ≡ (self.now).links }
        ensures few { length result.now ≤ valid.most_links }
        ensures valid { valid.IsNetwork self.now }
        ensures offer { (self.now).offer ≡ One }
    {
        &self.links
    }

    /// The prefixes with the routers that are attached to them, and the costs.
    pub fn attachments(&self) -> &[(Prefix, u16, Cost)]
        ensures attachments { result.now ≡ (self.now).attachments }
        ensures valid { valid.IsNetwork self.now }
    {
        &self.attachments
    }

    /// How many prefixes there are, each counted once.
    pub fn prefixes(&self) -> usize
        ensures { result ≡ length (prefixes_of (self.now).attachments) }
    {
        self.prefixes
    }
}

// What is read of a cost is known to be one.
fn read_links(links: &[LinkSpec])
    ensures { All valid.HasCosts links.now }
{
    for link in links {
        let _costs = (link.from_a.value(), link.from_b.value());
    }
}

// What is read of a prefix or a cost is known to be one.
fn read_attachments(attachments: &[(Prefix, u16, Cost)])
    ensures prefixes { All (λ a. IsPrefix a.0) attachments.now }
    ensures costs { All (λ a. IsCost a.2) attachments.now }
{
    for attachment in attachments {
        let _read = (attachment.0.len(), attachment.2.value());
    }
}
