//! Links, their ends, the ports of routers, and why a network cannot be opened.

ghost use Rattle.std.specs.Prelude.{◌≡◌, ◌↔◌, IsTrue};
ghost use Rattle.network_model.specs.Network as valid;
ghost use Rattle.network_model.specs.World as model;

use faults::FaultKind;
use metric::Cost;
use thiserror::Error;

/// The most links that can touch one router.
pub const MOST_PORTS: usize = 32;

/// How large a network may be.
#[derive(Clone, Copy)]
pub struct Limits {
    /// The most routers.
    pub routers: usize,
    /// The most links.
    pub links: usize,
    /// The most links that touch one router.
    pub ports: usize,
    /// The most prefixes, each counted once.
    pub prefixes: usize,
    /// The most attachments of routers to prefixes.
    pub attachments: usize,
}

impl Limits {
    /// The limits of the program.
    pub const PROGRAM: Limits = Limits {
        routers: 256,
        links: 1024,
        ports: MOST_PORTS,
        prefixes: 4096,
        attachments: 16_384,
    };

    /// The widest limits, within which all that is proved of networks holds. Routers and links have
    /// numbers of 16 bits, and of prefixes and attachments there are as many as there is memory for.
    pub const WIDEST: Limits = Limits {
        routers: 65_536,
        links: 65_536,
        ports: MOST_PORTS,
        prefixes: 4_294_967_295,
        attachments: 4_294_967_295,
    };

    /// Whether none of these limits is above that of the others.
    pub fn are_within(&self, others: &Limits) -> bool
        ensures { IsTrue result ↔ valid.AreWithin self.now others.now }
    {
        self.routers <= others.routers
            && self.links <= others.links
            && self.ports <= others.ports
            && self.prefixes <= others.prefixes
            && self.attachments <= others.attachments
    }
}

/// One of the two ends of a link.
#[derive(Clone, Copy)]
pub enum End {
    A,
    B,
}

impl End {
    /// The end across the link.
    pub fn other(self) -> End
        ensures { result ≡ model.other self }
    {
        match self {
            End::A => End::B,
            End::B => End::A,
        }
    }
}

/// A link to be: its two routers, and the cost from each.
#[derive(Clone, Copy)]
pub struct LinkSpec {
    pub a: u16,
    pub b: u16,
    pub from_a: Cost,
    pub from_b: Cost,
}

impl LinkSpec {
    /// The end at which the router has a port; none where the link does not touch the router.
    pub fn own_end(&self, router: u16) -> Option<End>
        ensures { result ≡ model.own_end router self.now }
    {
        if self.a == router {
            Some(End::A)
        } else if self.b == router {
            Some(End::B)
        } else {
            None
        }
    }

    /// The router across the link; none where the link does not touch the router.
    pub fn neighbour_of(&self, router: u16) -> Option<u16>
        ensures { result ≡ model.neighbour_of router self.now }
    {
        match self.own_end(router)? {
            End::A => Some(self.b),
            End::B => Some(self.a),
        }
    }

    /// Whether the router is at an end of the link.
    pub fn touches(&self, router: u16) -> bool
        ensures { result ≡ valid.touches router self.now }
    {
        self.a == router || self.b == router
    }

    /// Whether the link joins the two routers, in either order.
    pub fn joins(&self, a: u16, b: u16) -> bool
        ensures { result ≡ valid.joins a b self.now }
    {
        (self.a == a && self.b == b) || (self.a == b && self.b == a)
    }
}

/// The end of a link at which a router's port lies.
#[derive(Clone, Copy)]
pub struct Place {
    pub link: u16,
    pub end: End,
}

/// What a router's notices said last of one of its ports.
#[derive(Clone, Copy, Debug)]
pub struct Port {
    pub up: bool,
    pub session: u16,
    pub cost: Cost,
}

/// Which next hops a router offers beside its rows.
#[derive(Clone, Copy)]
pub enum Offer {
    /// None: a router has one next hop a row.
    One,
    /// The feasible neighbours at the least distance, at most so many.
    Equal { most: usize },
    /// All feasible neighbours, the nearest first, at most so many.
    Feasible { most: usize },
}

/// Why a network cannot be opened. A fault of a link or an attachment has its position in the list
/// that was given, from 0. Its text is its number and name.
#[derive(Clone, Copy, Debug, PartialEq, Eq, Drop, Error)]
#[error("{}", FaultKind::from(*self))]
pub enum NetworkFault {
    /// There is no router, or there are more than the limit, which is 256 in the program.
    BadRouters,
    /// An end of the link is no router of the network, both ends are one router, or an earlier link
    /// joins the same two.
    BadLink { link: usize },
    /// It is past the limit of links, or of the links of one of its routers: in the program the
    /// 1025th link, or the 33rd of a router.
    TooManyLinks { link: usize },
    /// The attached router is no router of the network, the prefix was given before at that router, it
    /// is past the limit of prefixes, or this is past the limit of attachments: in the program the
    /// 4097th prefix, or the 16,385th attachment.
    BadOwner { prefix: usize },
}

impl From<NetworkFault> for FaultKind {
    ghost use Rattle.std.specs.Prelude.{◌≡◌};
    ghost use Rattle.network_model.specs.Kinds.{network_kind};

    ghost from_gives = { λ fault k. k ≡ network_kind fault };

    fn from(fault: NetworkFault) -> FaultKind {
        match fault {
            NetworkFault::BadRouters => FaultKind::BadRouters,
            NetworkFault::BadLink { .. } => FaultKind::BadLink,
            NetworkFault::TooManyLinks { .. } => FaultKind::TooManyLinks,
            NetworkFault::BadOwner { .. } => FaultKind::BadOwner,
        }
    }
}
