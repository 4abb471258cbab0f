//! The replies that a computation awaits.

ghost use Rattle.std.specs.Prelude.{◌≡◌, ℕ, ◌<◌, ◌==◌, ◌&&◌, ◌↔◌, IsTrue, not, false};
ghost use Rattle.std.specs.FinSet as set;

use crate::port_set::PortSet;
use std::marker::Model;

/// The port to which a reply is owed, or none.
pub type Debt = Option<u8>;

/// The ports whose reply a computation awaits.
#[derive(Clone, Copy, Debug, PartialEq, Eq)]
pub struct Replies {
    awaited: PortSet,
}

impl Model for Replies {
    ghost use Rattle.std.specs.Ordering.{nat_cmp};
    ghost use Rattle.std.specs.FinSet as set;
    ghost use Rattle.std.specs.Coded.{coded_ℕ};

    ghost Value = { set.FinSet nat_cmp };

    ghost coded = { set.code coded_ℕ };

    ghost view = { λ r. r.awaited };

    ghost inverse = { λ s. record { awaited = s } };
}

impl Replies {
    /// The replies of all these ports, which were asked.
    pub fn begin(up: PortSet) -> Replies
        ensures { result ≡ up }
    {
        Replies { awaited: up }
    }

    /// The reply of this port came.
    pub fn came(&mut self, port: u8)
        requires { port < 32 }
        ensures { (q : ℕ) → set.contains self.new q ≡ (set.contains self.old q && not (q == port)) }
    {
        self.awaited = self.awaited.without(port);
    }

    /// The link of this port is lost, and no reply will come.
    pub fn lost(&mut self, port: u8)
        requires { port < 32 }
        ensures { (q : ℕ) → set.contains self.new q ≡ (set.contains self.old q && not (q == port)) }
    {
        self.came(port);
    }

    /// The ports that are awaited.
    pub fn awaited(self) -> PortSet
        ensures { result ≡ self }
    {
        self.awaited
    }

    /// Whether no port is awaited any more.
    pub fn is_done(self) -> bool
        ensures { IsTrue result ↔ ((q : ℕ) → set.contains self q ≡ false) }
    {
        self.awaited.is_empty()
    }
}
