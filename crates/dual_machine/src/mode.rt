//! What a machine is at.

use diffusing_replies::{Debt, Origin, PortSet, Replies};

// What is kept of a computation under way.
#[derive(Clone, Copy, Debug)]
pub(crate) struct Active {
    pub(crate) origin: Origin,
    pub(crate) replies: Replies,
    pub(crate) debt: Debt,
}

/// Whether a computation is under way, and which.
#[derive(Clone, Copy)]
pub enum Mode {
    /// None is.
    Passive,
    /// One is, with its origin state, the ports whose reply it awaits, and the port to which a reply
    /// is owed, if one is.
    Active {
        origin: Origin,
        awaited: PortSet,
        debt: Debt,
    },
}
