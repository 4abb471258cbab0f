//! A whole network for C programs, behind a handle.
//!
//! A simulator in C wants a network that it changes and looks at (`simulation`). It has no types that keep it
//! from giving a wrong number, or from using a network that is not there. So each call tests what it is
//! given, in a fixed order, and answers a number. C sees `include/tuhvondi_network.h`, which has the rules
//! for callers.
//!
//! ```text
//! struct tuhvondi_network n = TUHVONDI_NO_NETWORK;
//! tuhvondi_network_new(2, links, 1, owners, 1, &place, &n);     /* 0: done */
//! tuhvondi_network_step(&n, &up);                               /* a link comes up */
//! tuhvondi_network_settle(&n, 0, 1000, &done);                  /* routers go on until all is done */
//! tuhvondi_network_trace(&n, 1, addr, hops, 2, &count, &end);   /* the way of a packet */
//! tuhvondi_network_free(&n);
//! ```
//!
//! A network may be in simulated time: then messages are on their way for a time, and routers take a time to publish
//! (`timed_simulation`). It is opened with delays, is given changes, and runs until a moment or until it is at rest
//! (`src/timed.rt`), while the calls that show something show it of both kinds. If you ask for it, such a network
//! keeps a record of its computations and outages, whose lists C is shown from a place on (`src/recorded.rt`).
//!
//! ```text
//! tuhvondi_network_with_delays(&limits, 2, links, 1, owners, 1, delays, 1, publications, 2, 0, &place, &n);
//! tuhvondi_network_at(&n, 1000, &up);                           /* a link comes up, after a millisecond */
//! tuhvondi_network_run_to_rest(&n, 1000, &done);                /* until nothing is left to do */
//! tuhvondi_network_now(&n, &moment);                            /* when that was, in microseconds */
//! ```
//!
//! The words: a *handle* is a pointer to a network in a box, and a flag if there is one. A *status* is 0, or
//! the number of why a call is refused (`failure_number` in `specs/Failures.antt` of `network_calls`). A *moment* is a
//! number of microseconds since the opening, a *change* a step that a router does not do by itself, and an *event* a step
//! at its moment.
//!
//! What always holds: the tests have an order. Faults of the numbers come first, then an empty handle, then that
//! the network has a clock or has none, then its own refusal or that a moment is past, and want of memory last
//! (`step_fault` in `specs/Calls.antt`, `given_failure` in `specs/Times.antt` of `network_calls`). If a call is done, the
//! network is what `simulation` or `timed_simulation` says, by the very definitions that their contracts cite. The four
//! parts of the headline are clauses of each call that makes or changes one (`HasHeadline`). A record is exact, as
//! `timed_reports` defines that, of all events since the opening (`IsOpened`, `GoesOn`). If a call is refused, the network
//! stays as it was, but for the steps and events that a run or a settling did before. Nothing is written but what the
//! contract names. Only the calls that open or copy a network, do steps or events, or are given a change ask for memory.
//!
//! What is tricky is the pointer. Each call takes the box out of the handle, works on what is in it, and puts
//! it back. So only three small functions touch the pointer (`network_calls/src/handle.rt`), and these are
//! proved by hand. A handle is for one call at a time. It has no lock, and may go to another thread.
//!
//! The proofs take for granted that C keeps the rules of the header. For example, lists are as long as a call
//! is told, and no two arguments overlap.
#![tactic(auto)]

ghost use Rattle.std.specs.Prelude.{◌≡◌, ◌≢◌, None, Some, IfSome, IfNone, is_some, length, option_map, slice_get};
ghost use Rattle.network_model.specs.Turns as turns;
ghost use Rattle.c_interface.specs.Faults.{fault_number};
ghost use Rattle.single_router.specs.States.{flag};
ghost use Rattle.network_calls.specs.Handles.{handle_going, handle_network};
ghost use Rattle.network_calls.specs.Failures.{failure_number, status_by_failure, IsStatusByFailure, IsStatusOnlyByFailure};
ghost use Rattle.network_model.specs.Network.{program_limits, widest_limits, AreWithin};
ghost use Rattle.network_calls.specs.{Headline.HasHeadline, Running.opening_steps, Running.with_step_done, Running.GoesBySteps, Steps.parts_of_step, Steps.step_of};
ghost use Rattle.network_calls.specs.Parts.{limits_of, list_fault, network_failure, parts_network, IsFaultWithin, IsNotOpened};
ghost use Rattle.network_calls.specs.Calls.{at_all, at_router, counts_of, lookup_fault, step_fault, HeldNeedsMemory, IsAnswered, IsFollowed, AreRowsListed, IsRun, IsSettling};

use c_interface::{CallFault, Row};
use network_calls::{
    AttachmentParts, Counts, Failure, FaultPlace, LimitsParts, LinkParts, NetworkHandle, StepParts,
    copy_of, look_up, open, rows_of, status, trace_of,
};
use network_model::Refusal;
use simulation::Order;
use std::alloc::Global;

mod inspecting;
mod recorded;
mod timed;

/// Opens the network of so many routers, with these links and attachments, and puts it into the handle; the
/// network that the handle held is freed. If none is opened, it answers why, and writes where that stands.
/// The limits are those of the program.
#[unsafe(no_mangle)]
pub extern "C" fn tuhvondi_network_new(
    alloc: Global,
    routers: u16,
    links: &[LinkParts],
    attachments: &[AttachmentParts],
    place: &mut FaultPlace,
    network: &mut NetworkHandle,
) -> u32
    ensures lists { result ≡ 0 → list_fault links.now attachments.now ≡ None }
    ensures valid { result ≡ 0 → network_failure program_limits routers links.now attachments.now ≡ None }
    ensures done { result ≡ 0 → handle_going network.new
        ≡ Some (opening_steps (parts_network routers links.now attachments.now)) }
    ensures headline { result ≡ 0 → IfSome (handle_network network.new) HasHeadline }
    ensures place { result ≡ 0 → place.new ≡ place.old }
    ensures refused { result ≢ 0 → handle_going network.new ≡ handle_going network.old }
    ensures cause { result ≢ 0 → IsNotOpened
        (IsFaultWithin program_limits routers links.now attachments.now) result place.new }
{
    match open(
        alloc,
        &LimitsParts::PROGRAM,
        usize::from(routers),
        links,
        attachments,
    ) {
        Ok(running) => {
            running.holds();
            network.put(running);
            0
        }
        Err((failure, at)) => {
            *place = at;
            failure.number()
        }
    }
}

/// Opens a network as `tuhvondi_network_new` does, within limits of the caller's, which are tested first.
#[unsafe(no_mangle)]
pub extern "C" fn tuhvondi_network_within(
    alloc: Global,
    limits: &LimitsParts,
    routers: usize,
    links: &[LinkParts],
    attachments: &[AttachmentParts],
    place: &mut FaultPlace,
    network: &mut NetworkHandle,
) -> u32
    ensures limits { result ≡ 0 → AreWithin (limits_of limits.now) widest_limits }
    ensures lists { result ≡ 0 → list_fault links.now attachments.now ≡ None }
    ensures valid { result ≡ 0 → network_failure
        (limits_of limits.now) routers links.now attachments.now ≡ None }
    ensures done { result ≡ 0 → handle_going network.new
        ≡ Some (opening_steps (parts_network routers links.now attachments.now)) }
    ensures headline { result ≡ 0 → IfSome (handle_network network.new) HasHeadline }
    ensures place { result ≡ 0 → place.new ≡ place.old }
    ensures refused { result ≢ 0 → handle_going network.new ≡ handle_going network.old }
    ensures cause { result ≢ 0 → IsNotOpened
        (IsFaultWithin (limits_of limits.now) routers links.now attachments.now) result place.new }
{
    match open(alloc, limits, routers, links, attachments) {
        Ok(opened) => {
            opened.holds();
            network.put(opened);
            0
        }
        Err((failure, there)) => {
            *place = there;
            failure.number()
        }
    }
}

/// Puts an equal network into another handle; the network that the other held is freed. What becomes of one
/// of the two leaves the other as it is.
#[unsafe(no_mangle)]
pub extern "C" fn tuhvondi_network_copy(
    alloc: Global,
    network: &mut NetworkHandle,
    other: &mut NetworkHandle,
) -> u32
    ensures status { IsStatusByFailure (at_all (handle_going network.old)) result }
    ensures done { result ≡ 0 → handle_going other.new ≡ handle_going network.old }
    ensures headline { result ≡ 0 → IfSome (handle_network other.new) HasHeadline }
    ensures refused { result ≢ 0 → handle_going other.new ≡ handle_going other.old }
    ensures network { handle_going network.new ≡ handle_going network.old }
{
    let Some(held) = network.take(alloc) else {
        return CallFault::Empty.number();
    };
    let made = copy_of(alloc, &held);
    network.put(held);
    match made {
        Ok(copy) => {
            copy.holds();
            other.put(copy);
            0
        }
        Err(_) => CallFault::NoMemory.number(),
    }
}

/// Does a step. It is refused if the network has a clock.
#[unsafe(no_mangle)]
pub extern "C" fn tuhvondi_network_step(
    alloc: Global,
    network: &mut NetworkHandle,
    parts: &StepParts,
) -> u32
    ensures status { IsStatusOnlyByFailure (step_fault parts.now (handle_going network.old))
        (HeldNeedsMemory (step_of parts.now) (handle_going network.old)) result }
    ensures done { result ≡ 0 → handle_going network.new
        ≡ option_map (with_step_done (step_of parts.now)) (handle_going network.old) }
    ensures headline { result ≡ 0 → IfSome (handle_network network.new) HasHeadline }
    ensures refused { result ≢ 0 → handle_going network.new ≡ handle_going network.old }
{
    status(network.step(alloc, *parts))
}

/// Does steps in order, up to the first that has a fault or is refused, and writes how many were done. None is done
/// if the network has a clock.
#[unsafe(no_mangle)]
pub extern "C" fn tuhvondi_network_run(
    alloc: Global,
    network: &mut NetworkHandle,
    steps: &[StepParts],
    done: &mut usize,
) -> u32
    ensures some { IfSome (handle_going network.old) (λ f. IfSome (handle_going network.new)
        (GoesBySteps (λ s t. IsRun steps.now s t done.new result)
        ((done.new ≡ 0) × (result ≡ failure_number Failure.HasClock)) f)) }
    ensures headline { IfSome (handle_network network.new) HasHeadline }
    ensures kept { is_some (handle_going network.new) ≡ is_some (handle_going network.old) }
    ensures none { IfNone (handle_going network.old)
        ((result ≡ fault_number CallFault.Empty) × (done.new ≡ done.old)) }
{
    let Some(mut held) = network.take(alloc) else {
        return CallFault::Empty.number();
    };
    let (count, number) = held.run(steps);
    held.holds();
    network.put(held);
    *done = count;
    number
}

/// Writes what a router has to do next. If it has nothing to do, the kind is 255.
#[unsafe(no_mangle)]
pub extern "C" fn tuhvondi_network_next_step(
    alloc: Global,
    network: &mut NetworkHandle,
    router: u16,
    step: &mut StepParts,
) -> u32
    ensures status { result ≡ status_by_failure (at_router router (handle_network network.old)) }
    ensures done { result ≡ 0 → IfSome (handle_network network.old) (λ s. step.new
        ≡ parts_of_step (turns.next_step s.world router)) }
    ensures refused { result ≢ 0 → step.new ≡ step.old }
    ensures network { handle_going network.new ≡ handle_going network.old }
{
    let Some(held) = network.take(alloc) else {
        return CallFault::Empty.number();
    };
    let known = usize::from(router) < held.simulation().world().routers().len();
    let next = held.simulation().next_step(router);
    network.put(held);
    if !known {
        return Failure::Refused(Refusal::UnknownRouter).number();
    }
    *step = StepParts::of(next);
    0
}

/// Lets routers take turns, at most so many, until nothing is left to do, and writes how many were taken.
/// With seed 0 they do so in cyclic order, and else in a pseudo-random order that the seed determines. None is taken
/// if the network has a clock.
#[unsafe(no_mangle)]
pub extern "C" fn tuhvondi_network_settle(
    alloc: Global,
    network: &mut NetworkHandle,
    seed: u64,
    most: usize,
    done: &mut usize,
) -> u32
    ensures some { IfSome (handle_going network.old) (λ f. IfSome (handle_going network.new)
        (GoesBySteps (λ s t. IsSettling s t most done.new result)
        ((done.new ≡ 0) × (result ≡ failure_number Failure.HasClock)) f)) }
    ensures headline { IfSome (handle_network network.new) HasHeadline }
    ensures kept { is_some (handle_going network.new) ≡ is_some (handle_going network.old) }
    ensures none { IfNone (handle_going network.old)
        ((result ≡ fault_number CallFault.Empty) × (done.new ≡ done.old)) }
{
    let Some(mut held) = network.take(alloc) else {
        return CallFault::Empty.number();
    };
    let order = if seed == 0 {
        Order::Cyclic
    } else {
        Order::Seeded(seed)
    };
    let (turns, number) = held.settle(order, most);
    held.holds();
    network.put(held);
    *done = turns;
    number
}

/// Writes 1 where nothing is left to do, else 0.
#[unsafe(no_mangle)]
pub extern "C" fn tuhvondi_network_is_settled(
    alloc: Global,
    network: &mut NetworkHandle,
    settled: &mut u8,
) -> u32
    ensures some { IfSome (handle_network network.old) (λ s.
        (result ≡ 0) × (settled.new ≡ flag (turns.is_settled s.world))) }
    ensures none { IfNone (handle_network network.old)
        ((result ≡ fault_number CallFault.Empty) × (settled.new ≡ settled.old)) }
    ensures network { handle_going network.new ≡ handle_going network.old }
{
    let Some(held) = network.take(alloc) else {
        return CallFault::Empty.number();
    };
    *settled = u8::from(held.simulation().is_settled());
    network.put(held);
    0
}

/// Writes, for each address, the row with the longest prefix that covers it, of the image in force at a
/// router. If no row does, the kind is 3. It takes no memory.
#[unsafe(no_mangle)]
pub extern "C" fn tuhvondi_network_lookup(
    alloc: Global,
    network: &mut NetworkHandle,
    router: u16,
    addrs: &[u32],
    answers: &mut [Row],
) -> u32
    ensures status { result ≡ status_by_failure (lookup_fault
        router (length addrs.now) (length answers.old) (handle_network network.old)) }
    ensures done { result ≡ 0 →
        IfSome (handle_network network.old) (IsAnswered router addrs.now answers.new) }
    ensures refused { result ≢ 0 → answers.new ≡ answers.old }
    ensures network { handle_going network.new ≡ handle_going network.old }
{
    let Some(held) = network.take(alloc) else {
        return CallFault::Empty.number();
    };
    let outcome = look_up(held.simulation(), router, addrs, answers);
    network.put(held);
    status(outcome)
}

/// Writes the routers that a packet for an address passes from a router on, along the images in force, as
/// many as there is room for, how many these are, and why the packet ends at the last: 0 delivered, 1 no row,
/// 2 unreachable, 3 a link that is down or up in another session, 255 there is no room. It takes no memory.
#[unsafe(no_mangle)]
pub extern "C" fn tuhvondi_network_trace(
    alloc: Global,
    network: &mut NetworkHandle,
    router: u16,
    addr: u32,
    hops: &mut [u16],
    count: &mut usize,
    end: &mut u8,
) -> u32
    ensures status { result ≡ status_by_failure (at_router router (handle_network network.old)) }
    ensures done { result ≡ 0 → IfSome (handle_network network.old) (λ s. IsFollowed
        s addr router hops.old hops.new count.new end.new) }
    ensures refused { result ≢ 0 →
        (hops.new ≡ hops.old) × (count.new ≡ count.old) × (end.new ≡ end.old) }
    ensures network { handle_going network.new ≡ handle_going network.old }
{
    let Some(held) = network.take(alloc) else {
        return CallFault::Empty.number();
    };
    let followed = trace_of(held.simulation(), router, addr, hops);
    network.put(held);
    match followed {
        Ok((passed, number)) => {
            *count = passed;
            *end = number;
            0
        }
        Err(refusal) => Failure::Refused(refusal).number(),
    }
}

/// Writes the rows that a router has in force, in the order of their prefixes, as many as there is room for,
/// how many these are, and whether there are more (1, else 0). It takes no memory.
#[unsafe(no_mangle)]
pub extern "C" fn tuhvondi_network_rows(
    alloc: Global,
    network: &mut NetworkHandle,
    router: u16,
    rows: &mut [Row],
    written: &mut usize,
    more: &mut u8,
) -> u32
    ensures status { result ≡ status_by_failure (at_router router (handle_network network.old)) }
    ensures done { result ≡ 0 → IfSome (handle_network network.old) (λ s.
        IfSome (slice_get s.world.routers router)
        (λ r. AreRowsListed r rows.old rows.new written.new more.new)) }
    ensures refused { result ≢ 0 →
        (rows.new ≡ rows.old) × (written.new ≡ written.old) × (more.new ≡ more.old) }
    ensures network { handle_going network.new ≡ handle_going network.old }
{
    let Some(held) = network.take(alloc) else {
        return CallFault::Empty.number();
    };
    let told = rows_of(held.simulation().world(), router, rows);
    network.put(held);
    match told {
        Ok((count, left)) => {
            *written = count;
            *more = u8::from(left);
            0
        }
        Err(refusal) => Failure::Refused(refusal).number(),
    }
}

/// Writes how many steps were done since the opening, and how many messages of each kind they put on links.
#[unsafe(no_mangle)]
pub extern "C" fn tuhvondi_network_counts(
    alloc: Global,
    network: &mut NetworkHandle,
    counts: &mut Counts,
) -> u32
    ensures some { IfSome (handle_network network.old) (λ s.
        (result ≡ 0) × (counts.new ≡ counts_of s)) }
    ensures none { IfNone (handle_network network.old)
        ((result ≡ fault_number CallFault.Empty) × (counts.new ≡ counts.old)) }
    ensures network { handle_going network.new ≡ handle_going network.old }
{
    let Some(held) = network.take(alloc) else {
        return CallFault::Empty.number();
    };
    *counts = Counts::of(held.simulation());
    network.put(held);
    0
}

/// Frees the network, if there is one. The handle then holds none.
#[unsafe(no_mangle)]
pub extern "C" fn tuhvondi_network_free(alloc: Global, network: &mut NetworkHandle)
    ensures { handle_going network.new ≡ None }
{
    *network = NetworkHandle::none(alloc);
}

#[cfg(test)]
mod tests;
#[cfg(test)]
mod timed_tests;
