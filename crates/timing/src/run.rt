//! Runs a network in simulated time, change by change.

ghost use Rattle.std.specs.Prelude.{◌≡◌, ◌≢◌, ◌<◌, ◌-◌, ◌^◌, All, IfErr, IfOk, None, OnOk, Some, [], false, length, slice_get, true};
ghost use Rattle.coming_to_rest.specs.Worlds.{is_own};
ghost use Rattle.timed_simulation.specs.{Due.IsDue, Events.next_event, Runs.IsAtRest};
ghost use Rattle.timed_reports.specs.Recordings.{timed_in};
ghost use Rattle.timing.specs.Runs.{ComesNext, IsBegun, IsOfEvents, IsReady, Leads, LeadsAlone, with_changes};

use crate::snapshot::{Begun, Snapshot};
use faults::FaultKind;
use lines::Counts;
use network_model::{NoMemory, Refusal, Step};
use plans::Fault;
use simulation::Sent;
use timed_reports::Recording;
use timed_simulation::{Change, Event, TimeFault, TimedRan};

/// Gives the changes, one after another, at moment 0, before which there is none.
pub fn give(recording: &mut Recording, changes: &[Change]) -> Result<(), NoMemory>
    requires { All (λ c. is_own c.step ≡ false) changes.now }
    ensures { OnOk result (timed_in recording.new ≡ with_changes changes.now (timed_in recording.old)) }
{
    for change in changes {
        if recording.at(change.moment, change.step).is_err() {
            return Err(NoMemory);
        }
    }
    Ok(())
}

/// Does all changes, each after what is due before it, and then all that is left to do. Each change is put down
/// in the list, and no other is done.
pub fn run_changes(recording: &mut Recording, begun: &mut Vec<Begun>) -> Result<(), Fault>
    requires { begun.old.items ≡ [] }
    ensures leads { OnOk result (Leads (timed_in recording.old) begun.new.items (timed_in recording.new)) }
    ensures rest { OnOk result (IsAtRest (timed_in recording.new)) }
    ensures fault { IfErr result IsOfEvents }
{
    // Names the types of what the list has, without which the checker has no plan for it.
    let _step: Option<Step> = None;
    let _event: Option<Event> = None;
    let _sent: Option<Sent> = None;
    let _counts: Option<Counts> = None;
    let count = changes_left(recording);
    for done in 0..count {
        run_before(recording)?;
        let one = begin(recording)?;
        begun.push(one)?;
    }
    run_to_rest(recording)
}

// How many changes are to come.
fn changes_left(recording: &Recording) -> usize
    ensures { result ≡ length (timed_in recording.now).changes }
{
    recording.timed().changes().len()
}

// The first of the changes that are to come.
fn first_change(recording: &Recording) -> Option<Change>
    ensures { result ≡ slice_get (timed_in recording.now).changes 0 }
{
    recording.timed().changes().front().copied()
}

// Does what is due before the first change, and no change.
fn run_before(recording: &mut Recording) -> Result<(), Fault>
    requires { (timed_in recording.old).changes ≢ [] }
    ensures alone { OnOk result (LeadsAlone (timed_in recording.old) (timed_in recording.new)) }
    ensures ready { OnOk result (IsReady (timed_in recording.new)) }
    ensures fault { IfErr result IsOfEvents }
{
    recording.timed().holds();
    let Some(change) = first_change(recording) else {
        unreachable!()
    };
    let moment = change.moment;
    if moment == 0 {
        return Ok(());
    }
    let ran = recording.run_until(moment - 1, usize::MAX);
    ended(ran)
}

// Does all that is left to do, where no change is to come.
fn run_to_rest(recording: &mut Recording) -> Result<(), Fault>
    requires { (timed_in recording.old).changes ≡ [] }
    ensures alone { OnOk result (LeadsAlone (timed_in recording.old) (timed_in recording.new)) }
    ensures rest { OnOk result (IsAtRest (timed_in recording.new)) }
    ensures fault { IfErr result IsOfEvents }
{
    let ran = recording.run_to_rest(usize::MAX);
    ended(ran)
}

// Whether a run of as many events as can be counted came to its end.
fn ended(ran: TimedRan) -> Result<(), Fault>
    ensures ok { OnOk result ((ran.fault ≡ None) × (ran.done < 2 ^ 64 - 1)) }
    ensures fault { IfErr result IsOfEvents }
{
    match ran.fault {
        Some(fault) => Err(fault_of(fault)),
        None if ran.done == usize::MAX => Err(Fault::from(Refusal::JournalFull)),
        None => Ok(()),
    }
}

// Does the first change, which is the next event; or takes it off, if its step is refused.
fn begin(recording: &mut Recording) -> Result<Begun, Fault>
    requires { IsReady (timed_in recording.old) }
    ensures ok { IfOk result (λ b. IsBegun (timed_in recording.old) b (timed_in recording.new)) }
    ensures fault { IfErr result IsOfEvents }
{
    let Some(event) = recording.timed().next_event() else {
        unreachable!()
    };
    let before = Snapshot::of(recording.timed());
    let refusal = do_event(recording, &event)?;
    Ok(Begun {
        event,
        before,
        refusal,
    })
}

/// Does the next event. If it is a change that is refused, it is taken off, and the answer says why it is refused.
pub fn do_event(recording: &mut Recording, event: &Event) -> Result<Option<Refusal>, Fault>
    requires next { next_event (timed_in recording.old) ≡ Some event.now }
    requires due { IsDue (timed_in recording.old) event.now }
    ensures ok { IfOk result (ComesNext (timed_in recording.old) event.now (timed_in recording.new)) }
    ensures fault { IfErr result IsOfEvents }
{
    let ran = recording.run_until(event.moment, 1);
    match ran.fault {
        None => Ok(None),
        Some(TimeFault::Refused(refusal)) if event.given && ran.done == 0 && is_of_step(refusal) =>
            {
                let _change = recording.withdraw();
                Ok(Some(refusal))
            }
        Some(fault) => Err(fault_of(fault)),
    }
}

// Whether a step is refused for what it is, and not for want of memory or of numbers.
fn is_of_step(refusal: Refusal) -> bool
    ensures { result ≡ true → refusal ≢ Refusal.NoMemory }
{
    !matches!(refusal, Refusal::NoMemory | Refusal::JournalFull)
}

// Why a run stops. No change is given for a past moment.
fn fault_of(fault: TimeFault) -> Fault
    ensures { IsOfEvents result }
{
    match fault {
        TimeFault::Refused(refusal) => Fault::from(refusal),
        TimeFault::PastMoment | TimeFault::TimeSpent => Fault::from(FaultKind::TimeSpent),
    }
}
