//! Sets of ports.

ghost use Rattle.std.specs.Prelude.{◌≡◌, ℕ, ◌<◌, ◌==◌, ◌&&◌, ◌||◌, ◌↔◌, IsTrue, not, false};
ghost use Rattle.std.specs.FinSet as set;

use std::marker::Model;

/// A set of ports below 32.
#[derive(Clone, Copy, Debug, PartialEq, Eq)]
pub struct PortSet {
    // The bit of a port says whether it is in the set.
    mask: u32,
}

impl Model for PortSet {
    ghost use Rattle.std.specs.Prelude.{◌<◌, ◌^◌};
    ghost use Rattle.std.specs.Ordering.{nat_cmp};
    ghost use Rattle.std.specs.FinSet as set;
    ghost use Rattle.std.specs.Coded.{coded_ℕ};
    ghost use Rattle.std.proofs.Common.{ap};
    ghost use Rattle.diffusing_replies.specs.Ports.{ports_of, mask_of, mask_of-ports_of};

    ghost Value = { set.FinSet nat_cmp };

    ghost coded = { set.code coded_ℕ };

    ghost view = { λ s. ports_of s.mask };

    ghost invariant = { λ s. s.mask < 2 ^ 32 };

    ghost inverse = { λ s. record { mask = mask_of s } };

    ghost inverse_ok = { λ s below. ap (λ m. record { mask = m }) (mask_of-ports_of s.mask below) };
}

impl PortSet {
    /// No port.
    pub fn empty() -> PortSet
        ensures { (q : ℕ) → set.contains result q ≡ false }
    {
        PortSet { mask: 0 }
    }

    /// These ports, and this one.
    pub fn with(self, port: u8) -> PortSet
        requires { port < 32 }
        ensures { (q : ℕ) → set.contains result q ≡ (q == port || set.contains self q) }
    {
        PortSet {
            mask: self.mask | 1 << port,
        }
    }

    // These ports, but not this one.
    pub(crate) fn without(self, port: u8) -> PortSet
        requires { port < 32 }
        ensures { (q : ℕ) → set.contains result q ≡ (set.contains self q && not (q == port)) }
    {
        PortSet {
            mask: self.mask & !(1 << port),
        }
    }

    /// Whether the port is in the set.
    pub fn has(self, port: u8) -> bool
        ensures value { result ≡ set.contains self port }
        ensures below { IsTrue result → port < 32 }
    {
        port < 32 && self.mask >> port & 1 == 1
    }

    // Whether no port is in the set.
    pub(crate) fn is_empty(self) -> bool
        ensures { IsTrue result ↔ ((q : ℕ) → set.contains self q ≡ false) }
    {
        self.mask == 0
    }
}
