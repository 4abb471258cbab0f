//! Steps of C, done by a network that goes on by the steps of its caller.

ghost use Rattle.std.specs.Prelude.{◌≡◌, None, OnErr, OnOk};
ghost use Rattle.network_model.specs.Step as steps;
ghost use Rattle.world.specs.Steps.{IsDoneOr};
ghost use Rattle.simulation.specs.Simulation.{after_step, simulation_refusal};
ghost use Rattle.network_calls.specs.Calls.{running_fault, IsDoneOrFails, IsRanTo, StepNeedsMemory, StopsBy};
ghost use Rattle.network_calls.specs.{Steps.step_of, declared.running.Going.TheVariants.BySteps};

use crate::failure::Failure;
use crate::step::StepParts;
use network_model::{Refusal, Step};
use simulation::Simulation;

// Does one step. Memory is refused only if the step may need some.
fn do_step(simulation: &mut Simulation, step: Step) -> Result<(), Refusal>
    ensures ok { OnOk result (steps.Lawful (simulation.old).world step
        × (simulation.new ≡ after_step simulation.old step)) }
    ensures err { OnErr result (simulation.new ≡ simulation.old) }
    ensures cause { IsDoneOr (simulation_refusal simulation.old step) result }
    ensures memory { simulation_refusal simulation.old step ≡ None
        → OnErr result (StepNeedsMemory step (simulation.old).world) }
{
    simulation.step(step)
}

/// Reads and does a step.
pub fn read_and_step(simulation: &mut Simulation, parts: StepParts) -> Result<(), Failure>
    ensures ok { OnOk result (steps.Lawful (simulation.old).world (step_of parts)
        × (simulation.new ≡ after_step simulation.old (step_of parts))) }
    ensures err { OnErr result (simulation.new ≡ simulation.old) }
    ensures cause { IsDoneOrFails (running_fault parts (BySteps simulation.old))
        (StepNeedsMemory (step_of parts) (simulation.old).world) result }
{
    let step = match parts.read() {
        Ok(step) => step,
        Err(fault) => return Err(Failure::Given(fault)),
    };
    match do_step(simulation, step) {
        Ok(()) => Ok(()),
        Err(refusal) => Err(Failure::Refused(refusal)),
    }
}

/// Reads and does steps in order, up to the first that has a fault or is refused.
pub fn run(simulation: &mut Simulation, parts: &[StepParts]) -> (usize, Result<(), Failure>)
    ensures ran { IsRanTo parts.now simulation.old simulation.new result.0 }
    ensures stop { StopsBy parts.now simulation.new result.0 result.1 }
{
    for (place, &part) in parts.iter().enumerate() {
        match read_and_step(simulation, part) {
            Ok(()) => {}
            Err(failure) => return (place, Err(failure)),
        }
    }
    (parts.len(), Ok(()))
}
