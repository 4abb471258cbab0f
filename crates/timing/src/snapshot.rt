//! How far a run is, and the changes that were begun.

ghost use Rattle.std.specs.Prelude.{◌≡◌};
ghost use Rattle.timing.specs.Runs.{snapshot_of};

use lines::Counts;
use network_model::Refusal;
use timed_simulation::{Event, TimedSimulation};

/// How far a run is.
#[derive(Clone, Copy)]
pub struct Snapshot {
    /// The moment of the last event, in microseconds since the opening.
    pub now: u64,
    /// How many steps were done, and how many messages of each kind were sent.
    pub counts: Counts,
    /// Whether the network has nothing left to do.
    pub rests: bool,
}

impl Snapshot {
    /// How far it is.
    pub fn of(timed: &TimedSimulation) -> Snapshot
        ensures { result ≡ snapshot_of timed.now }
    {
        let simulation = timed.simulation();
        let counts = Counts {
            steps: simulation.steps(),
            sent: simulation.sent(),
        };
        Snapshot {
            now: timed.now(),
            counts,
            rests: simulation.is_settled(),
        }
    }
}

/// A change that was done, or refused and taken off.
#[derive(Clone, Copy)]
pub struct Begun {
    /// The step of the change, and its moment.
    pub event: Event,
    /// How far the run was before.
    pub before: Snapshot,
    /// Why it was refused, if it was.
    pub refusal: Option<Refusal>,
}
