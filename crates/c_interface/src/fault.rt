//! Why a call is refused.

ghost use Rattle.std.specs.Prelude.{◌≡◌, ◌<◌, OnOk, IfErr};
ghost use Rattle.faults.specs.Numbers.{kind_number};
ghost use Rattle.c_interface.specs.{Faults.fault_number, declared.fault.CallFault.TheVariants.NoMemory as OutOfMemory, declared.fault.CallFault.TheVariants.BadCost as CostFault};

use faults::FaultKind;
use network_model::{BadCost, NoMemory};
use std::alloc::{AllocError, AllocFailed};

/// Why a call is refused, by the numbers by which C knows the faults.
#[derive(Clone, Copy)]
pub enum CallFault {
    /// A prefix's length is above 32.
    BadLength,
    /// A prefix's address has bits set after the first `len`.
    HostBits,
    /// A cost is outside 1..=65535.
    BadCost,
    /// A row's or a message's kind is above 2.
    BadKind,
    /// The handle holds nothing.
    Empty,
    /// A list is of another length than the call can use.
    BadCount,
    /// Other handles hold the image too.
    Shared,
    /// The router has no such port.
    UnknownPort,
    /// The link is up.
    AlreadyUp,
    /// The link is down.
    IsDown,
    /// The router's chosen rows are those in force, and all that it holds may leave.
    NothingDue,
    /// The router holds nothing, or its front message may not leave yet.
    NothingRipe,
    /// A growth was refused.
    NoMemory,
    /// A router would have more than 32 ports.
    TooManyPorts,
    /// A router would know more prefixes than it may.
    TooManyPrefixes,
    /// The router has not heard of the prefix.
    UnknownPrefix,
    /// The router is not attached to the prefix.
    NotAttached,
    /// A message of another session than that of its port, or a link that comes up in a session that is
    /// not later than the last.
    OtherSession,
    /// The router has published as often as a number of 64 bits can count.
    GenerationsSpent,
    /// A reply to no query: the router awaits none of this prefix from this port.
    Unasked,
    /// A query of a prefix from a port to which the router still owes the reply to the one before.
    AskedTwice,
    /// The router knows something of the prefix, or its row is not yet in force as Unreachable.
    StillUsed,
}

impl CallFault {
    /// The number by which C knows the fault.
    pub fn number(self) -> u32
        ensures { result ≡ fault_number self }
    {
        match self {
            CallFault::BadLength => number_of(FaultKind::BadLength),
            CallFault::HostBits => number_of(FaultKind::HostBits),
            CallFault::BadCost => number_of(FaultKind::BadCost),
            CallFault::BadKind => 6,
            CallFault::Empty => 7,
            CallFault::BadCount => 8,
            CallFault::Shared => 9,
            CallFault::UnknownPort => 11,
            CallFault::AlreadyUp => number_of(FaultKind::AlreadyUp),
            CallFault::IsDown => number_of(FaultKind::IsDown),
            CallFault::NothingDue => number_of(FaultKind::NothingDue),
            CallFault::NothingRipe => number_of(FaultKind::NothingRipe),
            CallFault::NoMemory => number_of(FaultKind::NoMemory),
            CallFault::TooManyPorts => 26,
            CallFault::TooManyPrefixes => 27,
            CallFault::UnknownPrefix => number_of(FaultKind::UnknownPrefix),
            CallFault::NotAttached => number_of(FaultKind::NotAttached),
            CallFault::OtherSession => 36,
            CallFault::GenerationsSpent => 37,
            CallFault::Unasked => 38,
            CallFault::AskedTwice => 39,
            CallFault::StillUsed => 44,
        }
    }
}

// The number of a fault that others have too.
fn number_of(kind: FaultKind) -> u32
    ensures { result ≡ kind_number kind }
{
    u32::from(kind.number())
}

impl From<BadCost> for CallFault {
    ghost from_gives = { λ _ f. f ≡ CostFault };

    fn from(_fault: BadCost) -> CallFault {
        CallFault::BadCost
    }
}

impl From<NoMemory> for CallFault {
    ghost from_gives = { λ _ f. f ≡ OutOfMemory };

    fn from(_error: NoMemory) -> CallFault {
        CallFault::NoMemory
    }
}

impl From<AllocError> for CallFault {
    ghost from_gives = { λ _ f. f ≡ OutOfMemory };

    fn from(_error: AllocError) -> CallFault {
        CallFault::NoMemory
    }
}

impl<T: Drop> From<AllocFailed<T>> for CallFault {
    ghost from_gives = { λ _ f. f ≡ OutOfMemory };

    fn from(_error: AllocFailed<T>) -> CallFault {
        CallFault::NoMemory
    }
}

/// What C is told of an outcome: 0, or the number of its fault.
pub fn status(outcome: Result<(), CallFault>) -> u32
    ensures ok { OnOk outcome (result ≡ 0) }
    ensures err { IfErr outcome (λ f. (result ≡ fault_number f) × (0 < result)) }
{
    match outcome {
        Ok(()) => 0,
        Err(fault) => fault.number(),
    }
}
