//! Delays, changes and events, as C writes and reads them.

ghost use Rattle.std.specs.Prelude.{◌≡◌, None, Some, false, map, IfErr, IfOk};
ghost use Rattle.coming_to_rest.specs.Worlds.{is_own};
ghost use Rattle.network_calls.specs.{Steps.step_of, Delays.change_fault, Delays.delays_of, Delays.parts_of_event};

use crate::step::StepParts;
use c_interface::CallFault;
use network_model::{NoMemory, Step};
use std::alloc::Global;
use timed_simulation::{Event, LinkDelays, is_change};

/// How long an item is on its way over a link, towards the first of its routers and towards the second, in
/// microseconds.
#[repr(C)]
#[derive(Clone, Copy)]
pub struct DelayParts {
    pub to_a: u64,
    pub to_b: u64,
}

/// A step at a moment, in microseconds since the opening, and whether it is a change that was given (1, else 0).
/// Of none the step's kind is 255, and the other fields are 0.
#[repr(C)]
#[derive(Clone, Copy, Debug, PartialEq, Eq)]
pub struct EventParts {
    pub moment: u64,
    pub step: StepParts,
    pub given: u8,
}

impl EventParts {
    /// The parts of an event, or of none.
    pub fn of(event: Option<Event>) -> EventParts
        ensures { result ≡ parts_of_event event }
    {
        match event {
            Some(event) => EventParts {
                moment: event.moment,
                step: StepParts::of(Some(event.step)),
                given: u8::from(event.given),
            },
            None => EventParts {
                moment: 0,
                step: StepParts::of(None),
                given: 0,
            },
        }
    }
}

/// The delays of these parts.
pub fn read_delays(alloc: Global, delays: &[DelayParts]) -> Result<Vec<LinkDelays>, NoMemory>
    ensures { IfOk result (λ read. read.items ≡ map delays_of delays.now) }
{
    let mut read = Vec::with_capacity(alloc, delays.len())?;
    for delay in delays {
        read.push(LinkDelays {
            to_a: delay.to_a,
            to_b: delay.to_b,
        })?;
    }
    Ok(read)
}

/// The change of these parts. A step that a router does is none.
pub fn read_change(parts: &StepParts) -> Result<Step, CallFault>
    ensures ok { IfOk result (λ s. (change_fault parts.now ≡ None)
        × (s ≡ step_of parts.now) × (is_own s ≡ false)) }
    ensures err { IfErr result (λ f. change_fault parts.now ≡ Some f) }
{
    let step = parts.read()?;
    if !is_change(&step) {
        return Err(CallFault::BadKind);
    }
    Ok(step)
}
