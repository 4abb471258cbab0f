//! Want of memory in simulated time. Which events are done, and when, is asked by the tests of `network_ffi` and by
//! the cases of `trials`.

ghost use Rattle.std.specs.Prelude.{◌≡◌, length, IfSome};

use crate::equal_to::equal;
use network_model::SmallAllocator;
use reachability::CutOff;
use std::alloc::Global;
use std::fmt;
use std::fmt::Write;
use test_support::{Refused, Refusing, two_routers};
use timed_simulation::{
    LinkDelays, Network, Refusal, Step, TimeFault, TimedRan, TimedSimulation, is_change,
};

// More allocations than a call makes.
const MOST: u64 = 4096;

// An address of 10.0.0.0/8.
const ADDR: u32 = 0x0A00_0001;

// An item is 5 microseconds on its way to router 0 and 7 to router 1.
const DELAYS: LinkDelays = LinkDelays { to_a: 5, to_b: 7 };

// The routers publish 10 and 20 microseconds after they have something to publish.
const PUBLICATIONS: [u64; 2] = [10, 20];

// The two routers and their link, counted.
fn counted(alloc: Global) -> Option<Network>
    ensures links { IfSome result (λ n. length n.links ≡ 1) }
    ensures routers { IfSome result (λ n. n.routers ≡ 2) }
{
    let network = two_routers(alloc)?;
    if network.links().len() == 1 && network.routers() == 2 {
        Some(network)
    } else {
        None
    }
}

// The two routers, opened.
fn opened<A: SmallAllocator>(alloc: Global, memory: A) -> Option<TimedSimulation<A>> {
    TimedSimulation::open(memory, counted(alloc)?, &[DELAYS], &PUBLICATIONS).ok()
}

const UP: Step = Step::LinkUp { link: 0 };

const DOWN: Step = Step::LinkDown { link: 0 };

// What is shown of it.
fn print_timed<A: SmallAllocator>(out: &mut String, timed: &TimedSimulation<A>) -> fmt::Result {
    write!(out, "{} {:?} ", timed.now(), timed.next_event())?;
    for change in timed.changes() {
        write!(out, "{change:?} ")?;
    }
    write!(out, "{:?} ", timed.simulation().sent())?;
    for router in 0..2u16 {
        write!(out, "{:?} ", timed.simulation().lookup(router, ADDR))?;
    }
    Ok(())
}

fn report_of<A: SmallAllocator>(alloc: Global, timed: &TimedSimulation<A>) -> Option<String> {
    let mut report = String::new(alloc);
    print_timed(&mut report, timed).ok()?;
    Some(report)
}

// The changes that are given before any event is done.
const CHANGES: [(u64, Step); 2] = [(3, UP), (60, DOWN)];

// Gives a change; without one it does the next event.
fn attempt<A: SmallAllocator>(
    timed: &mut TimedSimulation<A>,
    change: Option<&(u64, Step)>,
) -> TimedRan {
    if let Some((moment, step)) = change
        && is_change(step)
    {
        let fault = timed.at(*moment, *step).err();
        return TimedRan { done: 0, fault };
    }
    timed.run_until(u64::MAX, 1)
}

// Whether that is refused, where an allocation is, with all behind it; none where a refusal changes something.
fn is_refused(
    alloc: Global,
    memory: &Refusing<Global>,
    timed: &mut TimedSimulation<&Refusing<Global>>,
    change: Option<&(u64, Step)>,
    nth: u64,
    before: &Option<String>,
) -> Option<bool> {
    memory.refuse(Refused::From(nth));
    let ran = attempt(timed, change);
    memory.was_met(ran.fault != None)?;
    if ran.fault == None {
        return Some(false);
    }
    let no_memory = (0, Some(TimeFault::Refused(Refusal::NoMemory)));
    let is_as_before = report_of(alloc, timed) == *before;
    (is_as_before && (ran.done, ran.fault) == no_memory).then_some(true)
}

// Does that, of which one allocation after another is refused before. Whether a refused call changes nothing.
fn is_done_at_last(
    alloc: Global,
    memory: &Refusing<Global>,
    timed: &mut TimedSimulation<&Refusing<Global>>,
    change: Option<&(u64, Step)>,
    before: &Option<String>,
) -> bool {
    for nth in 1..MOST {
        match is_refused(alloc, memory, timed, change, nth, before) {
            Some(true) => {}
            end => return end == Some(false),
        }
    }
    false
}

// Whether an opening is refused, where this allocation is, with all behind it; none where that does not fit.
fn is_opening_refused(alloc: Global, memory: &Refusing<Global>, nth: u64) -> Option<bool> {
    memory.refuse(Refused::From(nth));
    let has_failed = opened(alloc, memory).is_none();
    let was_met = memory.was_met(has_failed)?;
    (was_met == has_failed).then_some(was_met)
}

// Whether more than three openings are refused, before one is done.
fn is_opened_at_last(alloc: Global) -> Option<bool> {
    let memory = Refusing::new(alloc);
    for nth in 1..MOST {
        if !is_opening_refused(alloc, &memory, nth)? {
            return Some(memory.met() > 3);
        }
    }
    None
}

// Gives both changes and does twelve events; of each allocations are refused, if this is asked for. What is shown then,
// at 67.
fn go_on(
    alloc: Global,
    memory: &Refusing<Global>,
    timed: &mut TimedSimulation<&Refusing<Global>>,
    is_refused: bool,
) -> Option<String> {
    for place in 0..14 {
        let change = CHANGES.get(place);
        let is_done = if is_refused {
            let before = report_of(alloc, timed);
            is_done_at_last(alloc, memory, timed, change, &before)
        } else {
            attempt(timed, change).fault == None
        };
        if !is_done {
            return None;
        }
    }
    if timed.now() == 67 {
        report_of(alloc, timed)
    } else {
        None
    }
}

fn end_of(alloc: Global, is_refused: bool) -> Option<String> {
    let memory = Refusing::new(alloc);
    match opened(alloc, &memory) {
        Some(mut timed) => go_on(alloc, &memory, &mut timed, is_refused),
        None => None,
    }
}

// Each allocation of each call is refused once, with all behind it. A refused call changes nothing, and the
// end is that of a run without refusals.
#[test]
fn refused_allocations(rt: HostRuntime) {
    equal(&rt, is_opened_at_last(rt.alloc()), Some(true));
    let end = end_of(rt.alloc(), false).expect(&rt, "end");
    equal(&rt, end_of(rt.alloc(), true), Some(end));
}

// Whether the n-th allocation is refused; none where a router is cut off in the end, be it past the last.
fn is_room_refused(alloc: Global, nth: u64) -> Option<bool> {
    let memory = Refusing::new(alloc);
    memory.refuse(Refused::From(nth));
    let was_met = memory.was_met(CutOff::new(&memory, 2).is_err());
    let made = CutOff::new(&memory, 2).ok()?;
    let is_any = made.is_cut_off(0) || made.is_cut_off(1) || made.is_cut_off(2);
    if made.routers() == 2 && !is_any {
        was_met
    } else {
        None
    }
}

#[test]
fn room_for_who_is_cut_off_is_refused(rt: HostRuntime) {
    for (nth, wanted) in [(1, true), (2, true), (3, false)] {
        equal(&rt, is_room_refused(rt.alloc(), nth), Some(wanted));
    }
}
