//! Why a packet is not traced.

ghost use Rattle.std.specs.Prelude.{◌≡◌, ◌⊎◌};
ghost use Rattle.tracer.specs.{Faults.trace_refusal, declared.fault.TraceFault.TheVariants.NoMemory as OutOfMemory};

use faults::FaultKind;
use network_model::Refusal;
use std::alloc::AllocFailed;
use thiserror::Error;

/// Why a packet is not traced. Its text is its number and name.
#[derive(Clone, Copy, Debug, PartialEq, Eq, Drop, Error)]
#[error("{}", FaultKind::from(*self))]
pub enum TraceFault {
    /// The router's number is too large.
    UnknownRouter,
    /// A growth was refused.
    NoMemory,
    /// A reader showed a later image than the one in force.
    Stale,
    /// A reader was given no image.
    NoImage,
}

impl From<TraceFault> for FaultKind {
    ghost use Rattle.network_model.specs.Kinds.{refusal_kind};

    ghost from_gives = { λ fault k. k ≡ refusal_kind (trace_refusal fault) };

    fn from(fault: TraceFault) -> FaultKind {
        FaultKind::from(Refusal::from(fault))
    }
}

impl<T: Drop> From<AllocFailed<T>> for TraceFault {
    ghost from_gives = { λ _ e. e ≡ OutOfMemory };

    fn from(_error: AllocFailed<T>) -> TraceFault {
        TraceFault::NoMemory
    }
}

impl From<TraceFault> for Refusal {
    ghost from_gives = { λ fault e. e ≡ trace_refusal fault };

    fn from(fault: TraceFault) -> Refusal {
        match fault {
            TraceFault::UnknownRouter => Refusal::UnknownRouter,
            TraceFault::NoMemory => Refusal::NoMemory,
            TraceFault::Stale => Refusal::Stale,
            TraceFault::NoImage => Refusal::NoImage,
        }
    }
}

// The fault of a look-up at a router that is known.
pub fn lookup_fault(refusal: Refusal) -> TraceFault
    requires { (refusal ≡ Refusal.Stale) ⊎ (refusal ≡ Refusal.NoImage) }
    ensures stale { refusal ≡ Refusal.Stale → result ≡ TraceFault.Stale }
    ensures no_image { refusal ≡ Refusal.NoImage → result ≡ TraceFault.NoImage }
{
    match refusal {
        Refusal::Stale => TraceFault::Stale,
        Refusal::NoImage => TraceFault::NoImage,
        _ => unreachable!(),
    }
}
