//! Rows of a routing table, and what they answer.

use ipv4_prefix::Prefix;

/// Where packets that a prefix matches go.
#[derive(Clone, Copy, Debug, PartialEq, Eq)]
pub enum Entry {
    /// To the router's own attachment to the prefix.
    Local,
    /// To the neighbour at a port, while its link is up in this session.
    Via { port: u8, session: u16 },
    /// Nowhere: the prefix was heard of, and no way to it is known.
    Unreachable,
}

/// Over which port packets go, while its link is up in this session.
#[derive(Clone, Copy)]
pub struct NextHop {
    pub port: u8,
    pub session: u16,
}

/// What a router's image in force answers for an address.
#[derive(Clone, Copy, Debug, PartialEq, Eq)]
pub struct Answer {
    /// Which publication of its router the image is, from 0.
    pub generation: u64,
    /// The row with the longest prefix that covers the address; none where no row covers it.
    pub matched: Option<(Prefix, Entry)>,
}
