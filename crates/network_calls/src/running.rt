//! The network that C has behind a handle: one that goes on by the steps of its caller, or one in simulated time.

ghost use Rattle.std.specs.Prelude.{◌≡◌, ◌≢◌, None, Some, false, length, option_map, IfOk, MatchOption, OnErr, OnOk};
ghost use Rattle.coming_to_rest.specs.Worlds.{is_own};
ghost use Rattle.timed_simulation.specs.Timed.{with_timed_change};
ghost use Rattle.timed_reports.specs.Recordings.{timed_in, with_timed, without_first, GoesOn};
ghost use Rattle.network_calls.specs.Calls.{running_fault, IsDoneOrFails, IsRun, IsSettling, StepNeedsMemory};
ghost use Rattle.network_calls.specs.{Delays.parts_of_event, Failures.failure_number, Failures.IsStatusByFailure, Headline.HasHeadline, Steps.step_of, declared.failure.Failure.TheVariants.HasClock, declared.failure.Failure.TheVariants.NoClock};
ghost use Rattle.network_calls.specs.Running.{clocked_in, network_in, opening_steps, reported_in, with_recording, with_step_done, GoesBySteps, GoesInTime, IsTimedOpening};
ghost use Rattle.network_calls.specs.Times.{clock_failure, first_change, IsRunToRest, IsRunUntil};

use crate::delays::EventParts;
use crate::failure::{Failure, status};
use crate::step::StepParts;
use crate::stepped::{read_and_step, run};
use crate::timed::{give, withdraw};
use network_model::{NoMemory, Step};
use simulation::{Network, Order, Simulation};
use std::alloc::Global;
use std::marker::Model;
use timed_reports::{Recording, Report};
use timed_simulation::{LinkDelays, TimedSimulation};

/// How a network goes on.
#[derive(Drop)]
pub enum Going {
    /// By the steps of its caller.
    BySteps(Simulation),
    /// In simulated time, with a record or without.
    InTime(Recording),
}

/// A network that runs, in memory of the program's.
#[derive(Drop)]
pub struct Running {
    going: Going,
}

impl Model for Running {
    ghost use Rattle.network_calls.specs.declared.running.Going.{Going};

    ghost Value = { Going };

    ghost view = { λ r. r.going };
}

impl Running {
    /// Opens a network that goes on by steps.
    pub fn open(alloc: Global, network: Network) -> Result<Running, NoMemory>
        ensures { IfOk result (λ r. r ≡ opening_steps network) }
    {
        let simulation = Simulation::open(alloc, network)?;
        Ok(Running {
            going: Going::BySteps(simulation),
        })
    }

    /// Opens a network in simulated time, with these delays of its links and of its routers' publications; one that
    /// keeps a record, if this is asked for.
    pub fn open_timed(
        alloc: Global,
        records: bool,
        network: Network,
        delays: &[LinkDelays],
        publications: &[u64],
    ) -> Result<Running, NoMemory>
        requires each_link { length delays.now ≡ length network.links }
        requires each_router { length publications.now ≡ network.routers }
        ensures { IfOk result (IsTimedOpening records network delays.now publications.now) }
    {
        let recording = Recording::open(alloc, records, network, delays, publications)?;
        Ok(Running {
            going: Going::InTime(recording),
        })
    }

    /// An equal network.
    pub fn copy(&self, alloc: Global) -> Result<Running, NoMemory>
        ensures { IfOk result (λ r. r ≡ self.now) }
    {
        match &self.going {
            Going::BySteps(simulation) => {
                let copy = simulation.copy(alloc)?;
                Ok(Running {
                    going: Going::BySteps(copy),
                })
            }
            Going::InTime(recording) => {
                let copy = recording.copy(alloc)?;
                Ok(Running {
                    going: Going::InTime(copy),
                })
            }
        }
    }

    /// It does nothing. The four parts of the headline hold of every network, whoever has it.
    pub fn holds(&self)
        ensures { HasHeadline (network_in self.now) }
    {
        self.simulation().holds();
    }

    /// The network, without its time.
    pub fn simulation(&self) -> &Simulation
        ensures { result.now ≡ network_in self.now }
    {
        match &self.going {
            Going::BySteps(simulation) => simulation,
            Going::InTime(recording) => recording.timed().simulation(),
        }
    }

    /// The network in simulated time, if it is one.
    pub fn timed(&self) -> Option<&TimedSimulation>
        ensures { MatchOption result (clocked_in self.now ≡ None)
            (λ t. clocked_in self.now ≡ Some t.now) }
    {
        match &self.going {
            Going::BySteps(_) => None,
            Going::InTime(recording) => Some(recording.timed()),
        }
    }

    /// The same with its record, if it keeps one.
    pub fn report(&self) -> Option<&Report>
        ensures { MatchOption result (reported_in self.now ≡ None)
            (λ r. reported_in self.now ≡ Some r.now) }
    {
        match &self.going {
            Going::BySteps(_) => None,
            Going::InTime(recording) => recording.report(),
        }
    }

    /// Reads and does a step. In simulated time no step is done by its caller.
    pub fn read_and_step(&mut self, parts: StepParts) -> Result<(), Failure>
        ensures ok { OnOk result (self.new ≡ with_step_done (step_of parts) self.old) }
        ensures err { OnErr result (self.new ≡ self.old) }
        ensures cause { IsDoneOrFails (running_fault parts self.old)
            (StepNeedsMemory (step_of parts) (network_in self.old).world) result }
    {
        match &mut self.going {
            Going::BySteps(simulation) => read_and_step(simulation, parts),
            Going::InTime(_) => match parts.read() {
                Ok(_) => Err(Failure::HasClock),
                Err(fault) => Err(Failure::Given(fault)),
            },
        }
    }

    /// Reads and does steps in order, up to the first that has a fault or is refused: how many were done, and 0 or
    /// the number of why it stopped.
    pub fn run(&mut self, parts: &[StepParts]) -> (usize, u32)
        ensures { GoesBySteps (λ s t. IsRun parts.now s t result.0 result.1)
            ((result.0 ≡ 0) × (result.1 ≡ failure_number HasClock)) self.old self.new }
    {
        match &mut self.going {
            Going::BySteps(simulation) => {
                let (count, outcome) = run(simulation, parts);
                (count, status(outcome))
            }
            Going::InTime(_) => (0, Failure::HasClock.number()),
        }
    }

    /// Lets routers take turns, at most so many, until nothing is left to do or a step is refused: how many were
    /// taken, and 0 or the number of why it stopped.
    pub fn settle(&mut self, order: Order, most: usize) -> (usize, u32)
        ensures { GoesBySteps (λ s t. IsSettling s t most result.0 result.1)
            ((result.0 ≡ 0) × (result.1 ≡ failure_number HasClock)) self.old self.new }
    {
        match &mut self.going {
            Going::BySteps(simulation) => {
                let ran = simulation.settle(order, most);
                match ran.refusal {
                    None => (ran.done, 0),
                    Some(refusal) => (ran.done, Failure::Refused(refusal).number()),
                }
            }
            Going::InTime(_) => (0, Failure::HasClock.number()),
        }
    }

    /// Gives a change that is to be done at a moment: 0, or the number of why it is not taken.
    pub fn give(&mut self, moment: u64, change: Step) -> u32
        requires { is_own change ≡ false }
        ensures status { IsStatusByFailure (clock_failure moment self.old) result }
        ensures done { result ≡ 0 → self.new ≡ with_recording
            (with_timed (with_timed_change (record { moment = moment; step = change }))) self.old }
        ensures refused { result ≢ 0 → self.new ≡ self.old }
    {
        match &mut self.going {
            Going::BySteps(_) => Failure::NoClock.number(),
            Going::InTime(recording) => give(recording, moment, change),
        }
    }

    /// Takes the first of the changes off the list, if the network is in simulated time.
    pub fn withdraw(&mut self) -> Option<EventParts>
        ensures change { result
            ≡ option_map (λ t. parts_of_event (first_change t)) (clocked_in self.old) }
        ensures rest { self.new ≡ with_recording (with_timed without_first) self.old }
    {
        match &mut self.going {
            Going::BySteps(_) => None,
            Going::InTime(recording) => Some(withdraw(recording)),
        }
    }

    /// Does what is due up to a moment, that included, at most so many events: how many were done, and 0 or the
    /// number of why it stopped.
    pub fn run_until(&mut self, moment: u64, most: usize) -> (usize, u32)
        ensures { GoesInTime (λ s t. IsRunUntil
            moment (timed_in s) (timed_in t) most result.0 result.1 × GoesOn s t result.0)
            ((result.0 ≡ 0) × (result.1 ≡ failure_number NoClock)) self.old self.new }
    {
        match &mut self.going {
            Going::BySteps(_) => (0, Failure::NoClock.number()),
            Going::InTime(recording) => {
                let ran = recording.run_until(moment, most);
                match ran.fault {
                    None => (ran.done, 0),
                    Some(fault) => (ran.done, Failure::Time(fault).number()),
                }
            }
        }
    }

    /// Does all that is left to do, at most so many events: how many were done, and 0 or the number of why it
    /// stopped.
    pub fn run_to_rest(&mut self, most: usize) -> (usize, u32)
        ensures { GoesInTime (λ s t. IsRunToRest
            (timed_in s) (timed_in t) most result.0 result.1 × GoesOn s t result.0)
            ((result.0 ≡ 0) × (result.1 ≡ failure_number NoClock)) self.old self.new }
    {
        match &mut self.going {
            Going::BySteps(_) => (0, Failure::NoClock.number()),
            Going::InTime(recording) => {
                let ran = recording.run_to_rest(most);
                match ran.fault {
                    None => (ran.done, 0),
                    Some(fault) => (ran.done, Failure::Time(fault).number()),
                }
            }
        }
    }
}
