//! What the machine of one router for one prefix is told, keeps of its neighbours, and sends.

ghost use Rattle.std.specs.Prelude.{◌≡◌, false};
ghost use Rattle.metric.specs.Distance.{infinity};

use metric::{Cost, Distance, Kind};

/// What a machine is told. Ports are the router's, numbered from 0.
#[derive(Clone, Copy)]
pub enum Event {
    /// The neighbour at the port sent a message of this kind with its reported distance.
    Message {
        port: u8,
        kind: Kind,
        value: Distance,
    },
    /// The link at the port, which was down, is up, at this cost from here.
    Up {
        port: u8,
        cost: Cost,
    },
    /// The link at the port, which was up, is down.
    Down {
        port: u8,
    },
    /// The link at the port, which is up, has this cost from here now.
    Cost {
        port: u8,
        cost: Cost,
    },
    /// The router is attached to the prefix at this cost, for the first time or at another cost than before.
    Attached {
        cost: Cost,
    },
    /// The router is no longer attached to the prefix.
    Detached,
}

/// What a machine keeps of the neighbour at one port.
#[derive(Clone, Copy, Debug)]
pub struct Neighbour {
    /// Whether the link is up. What a neighbour reported counts only while it is.
    pub up: bool,
    /// The cost of the link from here.
    pub cost: Cost,
    /// What the neighbour reported last since the link came up; `INF` where it reported nothing.
    pub reported: Distance,
}

/// Nothing is known of a neighbour over a link that is down.
impl Default for Neighbour {
    ghost is_default = { λ n. (n.up ≡ false) × (n.reported ≡ infinity) };

    fn default() -> Neighbour {
        Neighbour {
            up: false,
            cost: Cost::ONE,
            reported: Distance::INF,
        }
    }
}

/// A port as a machine meets it first: nothing is reported there yet.
#[derive(Clone, Copy)]
pub struct PortInfo {
    pub up: bool,
    pub cost: Cost,
}

/// A message that a machine sends to the neighbour at a port.
#[derive(Clone, Copy)]
pub struct Outgoing {
    pub port: u8,
    pub kind: Kind,
    pub value: Distance,
}
