//! The steps of a run in simulated time, each with its moment, for who shows them.

ghost use Rattle.std.specs.Prelude.{◌≡◌, ◌++◌, ◌∷◌, [], All, IfOk, OnOk, Some, false, length};
ghost use Rattle.coming_to_rest.specs.Worlds.{is_own};
ghost use Rattle.timed_simulation.specs.{Due.IsDue, Due.NothingIsDue, Events.next_event, Runs.steps_of};
ghost use Rattle.timed_reports.specs.Recordings.{timed_in};
ghost use Rattle.timing.specs.Runs.{ComesNext, with_changes};
ghost use Rattle.timing.specs.Steps.{Came, IsDoneAt, RunsInSteps, done_of, event_moments};

use crate::run::{do_event, give};
use crate::times::Times;
use network_model::{Refusal, Step};
use plans::Fault;
use std::alloc::Global;
use timed_reports::Recording;
use timed_simulation::{Change, Event};
use world::Network;

/// A run in simulated time: what it did.
#[derive(Drop)]
pub struct SteppedRun {
    recording: Recording,
    /// The steps, in the order in which they were done.
    pub steps: Vec<Step>,
    /// The moment of each, in microseconds since the opening.
    pub moments: Vec<u64>,
}

impl SteppedRun {
    /// The network.
    pub fn network(&self) -> &Network
        ensures { result.now ≡ ((timed_in self.now.recording).simulation).network }
    {
        self.recording.timed().simulation().network()
    }

    // Gives the changes, and does all that is left to do then.
    fn do_changes(&mut self, changes: &[Change]) -> Result<(), Fault>
        requires begins { (self.old.steps.items ≡ []) × (self.old.moments.items ≡ []) }
        requires changes { All (λ c. is_own c.step ≡ false) changes.now }
        ensures done { OnOk result (IsDoneAt (with_changes changes.now (timed_in self.old.recording))
            self.new.steps.items self.new.moments.items (timed_in self.new.recording)) }
        ensures rest { OnOk result (NothingIsDue (timed_in self.new.recording)) }
    {
        give(&mut self.recording, changes)?;
        do_all(&mut self.recording, &mut self.steps, &mut self.moments)
    }
}

/// Runs a network with these delays and changes until nothing is left to do, and keeps each step with its moment. A
/// change that is refused is left out. It takes memory by the steps.
pub fn run_in_steps(alloc: Global, network: Network, times: &Times) -> Result<SteppedRun, Fault>
    requires links { length times.now.links.items ≡ length network.links }
    requires routers { length times.now.routers.items ≡ network.routers }
    requires changes { All (λ c. is_own c.step ≡ false) times.now.changes.items }
    ensures { IfOk result (λ r. RunsInSteps network times.now r.steps.items r.moments.items (timed_in r.recording)) }
{
    let recording = Recording::open(alloc, false, network, &times.links, &times.routers)?;
    let mut run = SteppedRun {
        recording,
        steps: Vec::new(alloc),
        moments: Vec::new(alloc),
    };
    run.do_changes(&times.changes)?;
    Ok(run)
}

// Does all that is left to do, and adds each step and its moment to the lists.
fn do_all(
    recording: &mut Recording,
    steps: &mut Vec<Step>,
    moments: &mut Vec<u64>,
) -> Result<(), Fault>
    requires { (steps.old.items ≡ []) × (moments.old.items ≡ []) }
    ensures done { OnOk result (IsDoneAt (timed_in recording.old) steps.new.items moments.new.items (timed_in recording.new)) }
    ensures rest { OnOk result (NothingIsDue (timed_in recording.new)) }
{
    for _ in 0..usize::MAX {
        let Some(event) = recording.timed().next_event() else {
            return Ok(());
        };
        do_next(recording, &event, steps, moments)?;
    }
    Err(Fault::from(Refusal::JournalFull))
}

// Does the next event, and adds its step and its moment to the lists; or takes it off, if it is a change that is refused.
fn do_next(
    recording: &mut Recording,
    event: &Event,
    steps: &mut Vec<Step>,
    moments: &mut Vec<u64>,
) -> Result<(), Fault>
    requires next { next_event (timed_in recording.old) ≡ Some event.now }
    requires due { IsDue (timed_in recording.old) event.now }
    ensures { OnOk result ((c : Came) × ComesNext (timed_in recording.old) c.event (timed_in recording.new) c.refusal
        × (steps.new.items ≡ steps.old.items ++ steps_of (done_of (c ∷ [])))
        × (moments.new.items ≡ moments.old.items ++ event_moments (done_of (c ∷ [])))) }
{
    match do_event(recording, event)? {
        None => {
            steps.push(event.step)?;
            moments.push(event.moment)?;
            Ok(())
        }
        Some(_) => Ok(()),
    }
}
