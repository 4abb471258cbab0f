//! Distances to a destination.

ghost use Rattle.std.specs.Prelude.{◌≡◌, ◌≤◌, ◌↔◌, IsTrue};
ghost use Rattle.metric.specs.Distance.{infinity, plus};

use crate::cost::Cost;
use std::fmt;
use std::marker::Model;

/// How far a destination is: the sum of the costs on the way, or `Distance::INF` where no way is
/// known.
#[derive(Clone, Copy, Debug, PartialEq, Eq, PartialOrd, Ord)]
pub struct Distance {
    value: u32,
}

impl Model for Distance {
    ghost use Rattle.std.specs.Prelude.{ℕ};

    ghost Value = { ℕ };

    ghost view = { λ d. d.value };

    ghost inverse = { λ n. record { value = n } };
}

impl Distance {
    /// The distance of a destination at hand.
    pub const ZERO: Distance = Distance { value: 0 };

    /// No way is known.
    pub const INF: Distance = Distance { value: u32::MAX };

    /// The distance of this number; the greatest number is `INF`.
    pub fn new(value: u32) -> Distance
        ensures { result ≡ value }
    {
        Self { value }
    }

    /// The distance as a number.
    pub fn value(self) -> u32
        ensures value { result ≡ self }
        ensures bounded { result ≤ infinity }
    {
        let Distance { value } = self;
        value
    }

    /// Whether no way is known.
    pub fn is_infinite(self) -> bool
        ensures { IsTrue result ↔ (self ≡ infinity) }
    {
        self.value == u32::MAX
    }

    /// The distance over one more link of this cost; `INF` where the sum reaches it.
    pub fn plus(self, cost: Cost) -> Distance
        ensures { result ≡ plus self cost }
    {
        Distance {
            value: self.value.saturating_add(cost.value()),
        }
    }
}

impl fmt::Display for Distance {
    ghost use Rattle.std.specs.Prelude.{Some};
    ghost use Rattle.metric.specs.Distance.{distance_text};

    ghost output = { λ d. Some (distance_text d) };

    fn fmt<W: fmt::Write>(&self, f: &mut fmt::Formatter<W>) -> fmt::Result {
        if self.is_infinite() {
            return f.write_str("inf");
        }
        let value = self.value;
        write!(f, "{value}")
    }
}
