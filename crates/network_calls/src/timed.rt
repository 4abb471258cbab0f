//! Changes of C, given to a network in simulated time and taken back.

ghost use Rattle.std.specs.Prelude.{◌≡◌, ◌≢◌, false};
ghost use Rattle.coming_to_rest.specs.Worlds.{is_own};
ghost use Rattle.timed_simulation.specs.{Runs.IsAtRest, Timed.with_timed_change};
ghost use Rattle.timed_reports.specs.Recordings.{timed_in, with_timed, without_first};
ghost use Rattle.network_calls.specs.{Delays.parts_of_event, Failures.IsStatusByFailure, Times.first_change, Times.moment_failure, Times.IsFlagOf};

use crate::delays::EventParts;
use crate::failure::Failure;
use network_model::Step;
use timed_reports::Recording;
use timed_simulation::{Event, TimedSimulation};

/// Gives a change that is to be done at a moment: 0, or the number of why it is not taken.
pub fn give(recording: &mut Recording, moment: u64, change: Step) -> u32
    requires { is_own change ≡ false }
    ensures status { IsStatusByFailure (moment_failure moment (timed_in recording.old)) result }
    ensures done { result ≡ 0 → recording.new
        ≡ with_timed (with_timed_change (record { moment = moment; step = change })) recording.old }
    ensures refused { result ≢ 0 → recording.new ≡ recording.old }
{
    match recording.at(moment, change) {
        Ok(()) => 0,
        Err(fault) => Failure::Time(fault).number(),
    }
}

/// Takes the first of the changes off the list.
pub fn withdraw(recording: &mut Recording) -> EventParts
    ensures change { result ≡ parts_of_event (first_change (timed_in recording.old)) }
    ensures rest { recording.new ≡ with_timed without_first recording.old }
{
    let Some(change) = recording.withdraw() else {
        return EventParts::of(None);
    };
    EventParts::of(Some(Event {
        moment: change.moment,
        step: change.step,
        given: true,
    }))
}

/// 1 where nothing is left to do, else 0.
pub fn is_at_rest(timed: &TimedSimulation) -> u8
    ensures { IsFlagOf (IsAtRest timed.now) result }
{
    if timed.is_at_rest() { 1 } else { 0 }
}
