//! Why a call on a network is refused.

ghost use Rattle.std.specs.Prelude.{◌≡◌, ◌<◌, OnOk, IfErr};
ghost use Rattle.network_calls.specs.Failures.{failure_number};

use c_interface::CallFault;
use faults::FaultKind;
use network_model::{NetworkFault, Refusal};
use timed_simulation::TimeFault;

/// Why a call on a network is refused.
#[derive(Clone, Copy)]
pub enum Failure {
    /// What was given has a fault, or the handle holds nothing.
    Given(CallFault),
    /// A limit of a network is above the widest.
    BadLimits,
    /// The network keeps no record.
    NoRecord,
    /// The network is in simulated time, so no step is done by its caller.
    HasClock,
    /// The network is not in simulated time.
    NoClock,
    /// The moment of a change is past, or an event cannot be done.
    Time(TimeFault),
    /// The network cannot be opened.
    Network(NetworkFault),
    /// A step, or a call at a router, is refused.
    Refused(Refusal),
}

impl Failure {
    /// The number by which C knows it.
    pub fn number(self) -> u32
        ensures number { result ≡ failure_number self }
        ensures some { 0 < result }
    {
        match self {
            Failure::Given(fault) => fault.number(),
            Failure::BadLimits => 50,
            Failure::NoRecord => 53,
            Failure::HasClock => 56,
            Failure::NoClock => 57,
            Failure::Time(fault) => u32::from(FaultKind::from(fault).number()),
            Failure::Network(fault) => u32::from(FaultKind::from(fault).number()),
            Failure::Refused(refusal) => u32::from(FaultKind::from(refusal).number()),
        }
    }
}

/// What C is told of an outcome: 0, or the number of why it is refused.
pub fn status(outcome: Result<(), Failure>) -> u32
    ensures ok { OnOk outcome (result ≡ 0) }
    ensures err { IfErr outcome (λ f. (result ≡ failure_number f) × (0 < result)) }
{
    match outcome {
        Ok(()) => 0,
        Err(failure) => failure.number(),
    }
}
