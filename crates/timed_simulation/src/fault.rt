//! Why a call on simulated time is refused.

ghost use Rattle.std.specs.Prelude.{◌≡◌};
ghost use Rattle.timed_simulation.specs.declared.fault.TimeFault.TheVariants.{Refused as StepRefused};
ghost use Rattle.network_model.specs.declared.step.Refusal.TheVariants.{NoMemory as OutOfMemory};

use faults::FaultKind;
use network_model::{NoMemory, Refusal};
use thiserror::Error;

/// Why an event is not done, or a change is not taken. Its text is its number and name.
#[derive(Clone, Copy, Debug, PartialEq, Eq, Drop, Error)]
#[error("{}", FaultKind::from(*self))]
pub enum TimeFault {
    /// The moment of the change is before the present one.
    PastMoment,
    /// The moment of the next event is 2^64 - 1 microseconds, the last that the clock can show, or later.
    TimeSpent,
    /// The step of the next event is refused.
    Refused(Refusal),
}

impl From<TimeFault> for FaultKind {
    ghost use Rattle.timed_simulation.specs.Kinds.{time_kind};

    ghost from_gives = { λ fault k. k ≡ time_kind fault };

    fn from(fault: TimeFault) -> FaultKind {
        match fault {
            TimeFault::PastMoment => FaultKind::PastMoment,
            TimeFault::TimeSpent => FaultKind::TimeSpent,
            TimeFault::Refused(fault) => FaultKind::from(fault),
        }
    }
}

impl From<Refusal> for TimeFault {
    ghost from_gives = { λ refusal e. e ≡ StepRefused refusal };

    fn from(refusal: Refusal) -> TimeFault {
        TimeFault::Refused(refusal)
    }
}

impl From<NoMemory> for TimeFault {
    ghost from_gives = { λ _ e. e ≡ StepRefused OutOfMemory };

    fn from(_error: NoMemory) -> TimeFault {
        TimeFault::Refused(Refusal::NoMemory)
    }
}
