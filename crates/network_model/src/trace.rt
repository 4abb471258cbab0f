//! Where packets went.

/// Why a trace ends.
#[derive(Clone, Copy, Debug, PartialEq, Eq)]
pub enum Ending {
    /// The last router is attached to the prefix that matched.
    Delivered,
    /// No row of the last router covers the address.
    NoRoute,
    /// The last router knows no way.
    Unreachable,
    /// The link of the row is down, or up in another session.
    DeadLink,
    /// The last router matched another prefix than the first.
    Crossed,
}

/// The routers that a packet passes, from its first on, and why it ends at the last.
#[derive(Drop)]
pub struct Trace {
    pub path: Vec<u16>,
    pub end: Ending,
}
