//! What travels between routers.

use ipv4_prefix::Prefix;
use metric::{Cost, Distance, Kind};

/// What a router tells a neighbour: its reported distance to a prefix.
#[derive(Clone, Copy, Debug, PartialEq, Eq)]
pub struct Message {
    pub kind: Kind,
    pub prefix: Prefix,
    pub value: Distance,
}

/// What stands on a link: a notice of a change of the link itself, or a message. A session counts
/// how often the link came up; each notice names the one in which it was made.
#[derive(Clone, Copy, Debug, PartialEq, Eq)]
pub enum Item {
    /// The link came up; `cost` is the cost from the end that takes the notice.
    Up { session: u16, cost: Cost },
    /// The link went down.
    Down { session: u16 },
    /// The cost from the end that takes the notice changed.
    Cost { session: u16, cost: Cost },
    /// A routing message.
    Message(Message),
}

/// What a router is told of its own attachment to a prefix: its cost, new or changed, or that it is
/// gone.
#[derive(Clone, Copy)]
pub struct Notice {
    pub prefix: Prefix,
    pub cost: Option<Cost>,
}

/// A message that its router has not yet put on the link, with the port that it leaves by and the
/// session of that port when it was sent.
#[derive(Clone, Copy, Debug, PartialEq, Eq)]
pub struct Held {
    pub port: u8,
    pub session: u16,
    pub message: Message,
}
