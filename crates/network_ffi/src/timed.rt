//! The calls of a network in simulated time: how it is opened, given changes, and run.

ghost use Rattle.std.specs.Prelude.{◌≡◌, ◌≢◌, None, true, nat_lt, map, IfNone, IfSome, MatchOption, is_some, option_map};
ghost use Rattle.c_interface.specs.Faults.{fault_number};
ghost use Rattle.network_model.specs.Network.{widest_limits, AreWithin};
ghost use Rattle.timed_simulation.specs.{Events.next_event, Runs.IsAtRest, Timed.with_timed_change};
ghost use Rattle.timed_reports.specs.Recordings.{timed_in, with_timed, without_first, GoesOn};
ghost use Rattle.network_calls.specs.{Calls.at_clock, Failures.failure_number, Failures.status_by_failure, Failures.IsStatusByFailure, Headline.HasHeadline, Running.with_recording, Running.GoesInTime, Running.IsTimedOpening, Steps.step_of};
ghost use Rattle.network_calls.specs.Delays.{delays_of, is_counted, parts_of_event, IsTimedFault};
ghost use Rattle.network_calls.specs.Parts.{limits_of, list_fault, network_failure, parts_network, IsNotOpened};
ghost use Rattle.network_calls.specs.Times.{first_change, given_failure, IsFlagOf, IsRunToRest, IsRunUntil};
ghost use Rattle.network_calls.specs.Handles.{handle_going, handle_network, handle_timed};

use c_interface::CallFault;
use network_calls::{
    AttachmentParts, DelayParts, EventParts, Failure, FaultPlace, LimitsParts, LinkParts,
    NetworkHandle, StepParts, is_at_rest, open_timed, read_change,
};
use std::alloc::Global;

/// Opens the network of so many routers, with these links and attachments, within these limits, at moment 0, and
/// puts it into the handle; the network that the handle held is freed. There are delays for each link, and one
/// for each router: how long it takes to publish. It keeps a record from then on, unless `keeps_record` is 0. If none is
/// opened, it answers why, and writes where that stands.
#[unsafe(no_mangle)]
pub extern "C" fn tuhvondi_network_with_delays(
    alloc: Global,
    limits: &LimitsParts,
    routers: usize,
    links: &[LinkParts],
    attachments: &[AttachmentParts],
    delays: &[DelayParts],
    publications: &[u64],
    keeps_record: u8,
    place: &mut FaultPlace,
    network: &mut NetworkHandle,
) -> u32
    ensures counted { result ≡ 0 → is_counted routers links.now delays.now publications.now ≡ true }
    ensures limits { result ≡ 0 → AreWithin (limits_of limits.now) widest_limits }
    ensures lists { result ≡ 0 → list_fault links.now attachments.now ≡ None }
    ensures valid { result ≡ 0 → network_failure
        (limits_of limits.now) routers links.now attachments.now ≡ None }
    ensures done { result ≡ 0 → MatchOption (handle_going network.new) ⊥ (IsTimedOpening (nat_lt 0 keeps_record)
        (parts_network routers links.now attachments.now) (map delays_of delays.now) publications.now) }
    ensures headline { result ≡ 0 → IfSome (handle_network network.new) HasHeadline }
    ensures place { result ≡ 0 → place.new ≡ place.old }
    ensures refused { result ≢ 0 → handle_going network.new ≡ handle_going network.old }
    ensures cause { result ≢ 0 → IsNotOpened (IsTimedFault (limits_of limits.now)
        routers links.now attachments.now delays.now publications.now) result place.new }
{
    match open_timed(
        alloc,
        limits,
        routers,
        links,
        attachments,
        delays,
        publications,
        keeps_record > 0,
    ) {
        Ok(opened) => {
            opened.holds();
            network.put(opened);
            0
        }
        Err((failure, there)) => {
            *place = there;
            failure.number()
        }
    }
}

/// Gives a change that is to be done at a moment, after those that were given before for the same one.
#[unsafe(no_mangle)]
pub extern "C" fn tuhvondi_network_at(
    alloc: Global,
    network: &mut NetworkHandle,
    moment: u64,
    change: &StepParts,
) -> u32
    ensures status { IsStatusByFailure (given_failure moment change.now (handle_going network.old)) result }
    ensures done { result ≡ 0 → handle_going network.new ≡ option_map (with_recording
        (with_timed (with_timed_change (record { moment = moment; step = step_of change.now }))))
        (handle_going network.old) }
    ensures refused { result ≢ 0 → handle_going network.new ≡ handle_going network.old }
{
    let step = match read_change(change) {
        Ok(step) => step,
        Err(fault) => return fault.number(),
    };
    let Some(mut held) = network.take(alloc) else {
        return CallFault::Empty.number();
    };
    let given = held.give(moment, step);
    network.put(held);
    given
}

/// Takes the first of the changes that are to be done off the list, and writes it, for example one whose step is
/// refused. If there is none, the step's kind is 255.
#[unsafe(no_mangle)]
pub extern "C" fn tuhvondi_network_withdraw(
    alloc: Global,
    network: &mut NetworkHandle,
    change: &mut EventParts,
) -> u32
    ensures status { result ≡ status_by_failure (at_clock (handle_going network.old)) }
    ensures done { result ≡ 0 → IfSome (handle_timed network.old) (λ t.
        change.new ≡ parts_of_event (first_change t)) }
    ensures refused { result ≢ 0 → change.new ≡ change.old }
    ensures left { handle_going network.new
        ≡ option_map (with_recording (with_timed without_first)) (handle_going network.old) }
{
    let Some(mut held) = network.take(alloc) else {
        return CallFault::Empty.number();
    };
    let first = held.withdraw();
    network.put(held);
    let Some(first) = first else {
        return Failure::NoClock.number();
    };
    *change = first;
    0
}

/// Does what is due up to a moment, that included, in the order of the moments: at most so many events, until
/// nothing is left to do up to then or an event cannot be done. It writes how many were done.
#[unsafe(no_mangle)]
pub extern "C" fn tuhvondi_network_run_until(
    alloc: Global,
    network: &mut NetworkHandle,
    moment: u64,
    most: usize,
    done: &mut usize,
) -> u32
    ensures some { IfSome (handle_going network.old) (λ f. IfSome (handle_going network.new)
        (GoesInTime (λ s t. IsRunUntil moment (timed_in s) (timed_in t) most done.new result × GoesOn s t done.new)
        ((done.new ≡ 0) × (result ≡ failure_number Failure.NoClock)) f)) }
    ensures headline { IfSome (handle_network network.new) HasHeadline }
    ensures kept { is_some (handle_going network.new) ≡ is_some (handle_going network.old) }
    ensures none { IfNone (handle_going network.old)
        ((result ≡ fault_number CallFault.Empty) × (done.new ≡ done.old)) }
{
    let Some(mut held) = network.take(alloc) else {
        return CallFault::Empty.number();
    };
    let (count, number) = held.run_until(moment, most);
    held.holds();
    network.put(held);
    *done = count;
    number
}

/// Does all that is left to do, in the order of the moments: at most so many events, until the network is at
/// rest or an event cannot be done. It writes how many were done.
#[unsafe(no_mangle)]
pub extern "C" fn tuhvondi_network_run_to_rest(
    alloc: Global,
    network: &mut NetworkHandle,
    most: usize,
    done: &mut usize,
) -> u32
    ensures some { IfSome (handle_going network.old) (λ f. IfSome (handle_going network.new)
        (GoesInTime (λ s t. IsRunToRest (timed_in s) (timed_in t) most done.new result × GoesOn s t done.new)
        ((done.new ≡ 0) × (result ≡ failure_number Failure.NoClock)) f)) }
    ensures headline { IfSome (handle_network network.new) HasHeadline }
    ensures kept { is_some (handle_going network.new) ≡ is_some (handle_going network.old) }
    ensures none { IfNone (handle_going network.old)
        ((result ≡ fault_number CallFault.Empty) × (done.new ≡ done.old)) }
{
    let Some(mut held) = network.take(alloc) else {
        return CallFault::Empty.number();
    };
    let (count, number) = held.run_to_rest(most);
    held.holds();
    network.put(held);
    *done = count;
    number
}

/// Writes the moment of the last event, in microseconds since the opening.
#[unsafe(no_mangle)]
pub extern "C" fn tuhvondi_network_now(
    alloc: Global,
    network: &mut NetworkHandle,
    moment: &mut u64,
) -> u32
    ensures status { result ≡ status_by_failure (at_clock (handle_going network.old)) }
    ensures done { result ≡ 0 → IfSome (handle_timed network.old) (λ t. moment.new ≡ t.clock) }
    ensures refused { result ≢ 0 → moment.new ≡ moment.old }
    ensures network { handle_going network.new ≡ handle_going network.old }
{
    let Some(held) = network.take(alloc) else {
        return CallFault::Empty.number();
    };
    let told = match held.timed() {
        Some(timed) => Some(timed.now()),
        None => None,
    };
    network.put(held);
    let Some(told) = told else {
        return Failure::NoClock.number();
    };
    *moment = told;
    0
}

/// Writes what is done next, and when. If nothing is left to do, the step's kind is 255.
#[unsafe(no_mangle)]
pub extern "C" fn tuhvondi_network_next_event(
    alloc: Global,
    network: &mut NetworkHandle,
    event: &mut EventParts,
) -> u32
    ensures status { result ≡ status_by_failure (at_clock (handle_going network.old)) }
    ensures done { result ≡ 0 → IfSome (handle_timed network.old) (λ t. event.new ≡ parts_of_event (next_event t)) }
    ensures refused { result ≢ 0 → event.new ≡ event.old }
    ensures network { handle_going network.new ≡ handle_going network.old }
{
    let Some(held) = network.take(alloc) else {
        return CallFault::Empty.number();
    };
    let told = match held.timed() {
        Some(timed) => Some(EventParts::of(timed.next_event())),
        None => None,
    };
    network.put(held);
    let Some(told) = told else {
        return Failure::NoClock.number();
    };
    *event = told;
    0
}

/// Writes 1 where nothing is left to do: each change that was given is done, and the network is settled. Else it
/// writes 0.
#[unsafe(no_mangle)]
pub extern "C" fn tuhvondi_network_is_at_rest(
    alloc: Global,
    network: &mut NetworkHandle,
    rests: &mut u8,
) -> u32
    ensures status { result ≡ status_by_failure (at_clock (handle_going network.old)) }
    ensures done { result ≡ 0 → IfSome (handle_timed network.old) (λ t. IsFlagOf (IsAtRest t) rests.new) }
    ensures refused { result ≢ 0 → rests.new ≡ rests.old }
    ensures network { handle_going network.new ≡ handle_going network.old }
{
    let Some(held) = network.take(alloc) else {
        return CallFault::Empty.number();
    };
    let told = match held.timed() {
        Some(timed) => Some(is_at_rest(timed)),
        None => None,
    };
    network.put(held);
    let Some(told) = told else {
        return Failure::NoClock.number();
    };
    *rests = told;
    0
}
