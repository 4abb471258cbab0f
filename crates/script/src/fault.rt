//! What is wrong with the lines of a scenario.

ghost use Rattle.std.specs.Prelude.{◌≡◌};
ghost use Rattle.script.specs.declared.fault.LineFault.TheVariants.{Prefix as OfPrefix, BadCost as CostFault, NoMemory as OutOfMemory};

use faults::FaultKind;
use ipv4_prefix::PrefixFault;
use metric::BadCost;
use std::alloc::{AllocError, AllocFailed};
use thiserror::Error;

/// Why the lines of a scenario cannot be read. Its text is its number and name.
#[derive(Clone, Copy, Debug, Drop, Error)]
#[error("{}", FaultKind::from(*self))]
pub enum LineFault {
    /// A router's name is no name, or was given before.
    BadName,
    /// The line of a link or of a prefix has a wrong number of words, an unreadable number, or, of a
    /// prefix, a router that is not known.
    BadLine,
    /// A cost is outside 1..=65535.
    BadCost,
    /// The text of a prefix or of an address is not one.
    Prefix(PrefixFault),
    /// A line of the script is no command, or names a router, a link or a prefix that is not there.
    BadCommand,
    /// The script has more than 10,000 commands.
    TooLarge,
    /// A growth was refused.
    NoMemory,
}

impl From<LineFault> for FaultKind {
    ghost use Rattle.script.specs.Kinds.{line_kind};

    ghost from_gives = { λ fault k. k ≡ line_kind fault };

    fn from(fault: LineFault) -> FaultKind {
        match fault {
            LineFault::BadName => FaultKind::BadName,
            LineFault::BadLine => FaultKind::BadLine,
            LineFault::BadCost => FaultKind::BadCost,
            LineFault::Prefix(fault) => FaultKind::from(fault),
            LineFault::BadCommand => FaultKind::BadCommand,
            LineFault::TooLarge => FaultKind::TooLarge,
            LineFault::NoMemory => FaultKind::NoMemory,
        }
    }
}

impl From<PrefixFault> for LineFault {
    ghost from_gives = { λ p e. e ≡ OfPrefix p };

    fn from(fault: PrefixFault) -> LineFault {
        LineFault::Prefix(fault)
    }
}

impl From<BadCost> for LineFault {
    ghost from_gives = { λ _ e. e ≡ CostFault };

    fn from(_fault: BadCost) -> LineFault {
        LineFault::BadCost
    }
}

impl From<AllocError> for LineFault {
    ghost from_gives = { λ _ e. e ≡ OutOfMemory };

    fn from(_error: AllocError) -> LineFault {
        LineFault::NoMemory
    }
}

impl<T: Drop> From<AllocFailed<T>> for LineFault {
    ghost from_gives = { λ _ e. e ≡ OutOfMemory };

    fn from(_error: AllocFailed<T>) -> LineFault {
        LineFault::NoMemory
    }
}
