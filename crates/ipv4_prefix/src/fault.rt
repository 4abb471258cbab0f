//! What is wrong with a text or a pair of numbers that is no prefix.

use faults::FaultKind;
use thiserror::Error;

/// What is wrong with a text or a pair of numbers that is no prefix, in the order of the tests. It
/// is displayed as its number and its name.
#[derive(Clone, Copy, Debug, PartialEq, Eq, Drop, Error)]
#[error("{}", FaultKind::from(*self))]
pub enum PrefixFault {
    /// The text has no slash.
    NoSlash,
    /// What stands before the first slash is not the canonical text of an address.
    BadAddress,
    /// The length is above 32, or its text is not the canonical one of such a number.
    BadLength,
    /// The address has bits set after the first `len`.
    HostBits,
}

impl From<PrefixFault> for FaultKind {
    ghost use Rattle.std.specs.Prelude.{◌≡◌};
    ghost use Rattle.ipv4_prefix.specs.Faults.{prefix_kind};

    ghost from_gives = { λ fault k. k ≡ prefix_kind fault };

    fn from(fault: PrefixFault) -> FaultKind {
        match fault {
            PrefixFault::NoSlash => FaultKind::NoSlash,
            PrefixFault::BadAddress => FaultKind::BadAddress,
            PrefixFault::BadLength => FaultKind::BadLength,
            PrefixFault::HostBits => FaultKind::HostBits,
        }
    }
}
