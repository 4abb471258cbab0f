//! Link costs.

ghost use Rattle.std.specs.Prelude.{◌≡◌, IfOk, IsOk, ◌↔◌};
ghost use Rattle.metric.specs.Distance.{IsCost};

use faults::FaultKind;
use std::fmt;
use std::marker::Model;
use thiserror::Error;

/// The cost of a link from one of its ends, 1..=65535. A cost of zero would let a loop of links
/// cost nothing, so there is none.
#[derive(Clone, Copy, Debug, PartialEq, Eq)]
pub struct Cost {
    value: u16,
}

impl Model for Cost {
    ghost use Rattle.std.specs.Prelude.{ℕ, ◌≤◌};

    ghost Value = { ℕ };

    ghost view = { λ c. c.value };

    ghost inverse = { λ n. record { value = n } };

    ghost invariant = { λ c. 1 ≤ c.value };
}

/// A number that is no cost: 0, or above 65535.
#[derive(Clone, Copy, Debug, Drop, Error)]
#[error("{}", FaultKind::from(*self))]
pub struct BadCost;

impl From<BadCost> for FaultKind {
    ghost use Rattle.faults.specs.declared.kind.FaultKind.TheVariants.{BadCost as CostKind};

    ghost from_gives = { λ _ k. k ≡ CostKind };

    fn from(_fault: BadCost) -> FaultKind {
        FaultKind::BadCost
    }
}

impl Cost {
    /// The least cost.
    pub const ONE: Cost = Cost { value: 1 };

    /// The cost of this number, where there is one.
    pub fn new(value: u32) -> Result<Cost, BadCost>
        ensures ok { IfOk result (λ c. c ≡ value) }
        ensures exactly { IsOk result ↔ IsCost value }
    {
        match u16::try_from(value) {
            Ok(value) if value > 0 => Ok(Cost { value }),
            _ => Err(BadCost),
        }
    }

    /// The cost as a number.
    pub fn value(self) -> u32
        ensures value { result ≡ self }
        ensures cost { IsCost result }
    {
        u32::from(self.value)
    }
}

impl fmt::Display for Cost {
    ghost use Rattle.std.specs.Prelude.{Some, decimal};

    ghost output = { λ c. Some (decimal c) };

    fn fmt<W: fmt::Write>(&self, f: &mut fmt::Formatter<W>) -> fmt::Result {
        let value = self.value;
        write!(f, "{value}")
    }
}
