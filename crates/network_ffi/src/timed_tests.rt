//! The calls on a network in simulated time, as C makes them. Which events are done, and when, is worked out by hand from
//! the delays.

use crate::recorded::{
    tuhvondi_network_computations, tuhvondi_network_computing, tuhvondi_network_cut_off,
    tuhvondi_network_outages,
};
use crate::tests::{NOWHERE, OWNER, UP, VIA, equal, line, look_up};
use crate::timed::{
    tuhvondi_network_at, tuhvondi_network_is_at_rest, tuhvondi_network_next_event,
    tuhvondi_network_now, tuhvondi_network_run_to_rest, tuhvondi_network_run_until,
    tuhvondi_network_with_delays, tuhvondi_network_withdraw,
};
use crate::{
    tuhvondi_network_copy, tuhvondi_network_free, tuhvondi_network_run, tuhvondi_network_settle,
    tuhvondi_network_step,
};
use network_calls::{
    DelayParts, EventParts, FaultPlace, LimitsParts, LinkParts, NetworkHandle, SpellParts,
    StepParts,
};
use std::alloc::Global;

const LINK: [LinkParts; 1] = [LinkParts {
    from_a: 5,
    from_b: 5,
    a: 0,
    b: 1,
}];

const DELAYS: [DelayParts; 1] = [DelayParts { to_a: 5, to_b: 7 }];

const NO_PLACE: FaultPlace = FaultPlace {
    position: 0,
    list: 0,
};

// Two routers. An item is 5 microseconds on its way to router 0 and 7 to router 1, and the routers publish 10
// and 20 microseconds after they have something to publish. So many delays of links are given.
fn open(
    alloc: Global,
    delays: &[DelayParts],
    record: u8,
    network: &mut NetworkHandle,
) -> (u32, FaultPlace) {
    let mut place = NOWHERE;
    let status = tuhvondi_network_with_delays(
        alloc,
        &LimitsParts::PROGRAM,
        2,
        &LINK,
        &OWNER,
        delays,
        &[10, 20],
        record,
        &mut place,
        network,
    );
    (status, place)
}

fn opened(alloc: Global, record: u8) -> NetworkHandle {
    let mut network = NetworkHandle::none(alloc);
    let _ = open(alloc, &DELAYS, record, &mut network);
    network
}

fn at(alloc: Global, network: &mut NetworkHandle, moment: u64, change: StepParts) -> u32 {
    tuhvondi_network_at(alloc, network, moment, &change)
}

fn now(alloc: Global, network: &mut NetworkHandle) -> (u32, u64) {
    let mut moment = 9;
    let status = tuhvondi_network_now(alloc, network, &mut moment);
    (status, moment)
}

// Runs until a moment: the status, how many events were done, and the moment of the last.
fn until(alloc: Global, network: &mut NetworkHandle, moment: u64) -> (u32, usize, u64) {
    let mut done = 9;
    let status = tuhvondi_network_run_until(alloc, network, moment, 1000, &mut done);
    (status, done, now(alloc, network).1)
}

fn to_rest(alloc: Global, network: &mut NetworkHandle) -> (u32, usize, u64) {
    let mut done = 9;
    let status = tuhvondi_network_run_to_rest(alloc, network, 1000, &mut done);
    (status, done, now(alloc, network).1)
}

fn rests(alloc: Global, network: &mut NetworkHandle) -> (u32, u8) {
    let mut rests = 9;
    let status = tuhvondi_network_is_at_rest(alloc, network, &mut rests);
    (status, rests)
}

// What is done next: a change that was given, what is due, or nothing.
const GIVEN: EventParts = EventParts {
    moment: 3,
    step: UP,
    given: 1,
};

const DUE: EventParts = EventParts {
    moment: 18,
    step: StepParts { kind: 4, ..UP },
    given: 0,
};

const NOTHING: EventParts = EventParts {
    moment: 0,
    step: StepParts { kind: 255, ..UP },
    given: 0,
};

fn next(alloc: Global, network: &mut NetworkHandle) -> (u32, EventParts) {
    let mut found = DUE;
    let status = tuhvondi_network_next_event(alloc, network, &mut found);
    (status, found)
}

fn withdrawn(alloc: Global, network: &mut NetworkHandle) -> (u32, EventParts) {
    let mut found = DUE;
    let status = tuhvondi_network_withdraw(alloc, network, &mut found);
    (status, found)
}

// Router 0 hears of the link at 8 and publishes at 18. Its message is at router 1 at 25, which publishes at 45
// and answers. All is done when router 0 has the answer, at 50.
#[test]
fn two_routers_come_to_rest(rt: HostRuntime) {
    let alloc = rt.alloc();
    let mut net = opened(alloc, 0);
    equal(&rt, rests(alloc, &mut net), (0, 1));
    equal(&rt, next(alloc, &mut net), (0, NOTHING));
    equal(&rt, at(alloc, &mut net, 3, UP), 0);
    equal(&rt, next(alloc, &mut net), (0, GIVEN));
    equal(&rt, rests(alloc, &mut net), (0, 0));
    equal(&rt, until(alloc, &mut net, 17), (0, 3, 10));
    equal(&rt, next(alloc, &mut net), (0, DUE));
    equal(&rt, to_rest(alloc, &mut net), (0, 6, 50));
    equal(&rt, rests(alloc, &mut net), (0, 1));
    equal(&rt, look_up(alloc, &mut net, 1), VIA);
    tuhvondi_network_free(alloc, &mut net);
    equal(&rt, until(alloc, &mut net, 60), (7, 9, 9));
    equal(&rt, at(alloc, &mut net, 60, UP), 7);
}

// A change of which a fault is told is not taken. One whose step is refused stays the first, until it is
// withdrawn.
#[test]
fn refused_changes(rt: HostRuntime) {
    let alloc = rt.alloc();
    let mut net = opened(alloc, 0);
    for (kind, status) in [(4, 6), (8, 6), (2, 5)] {
        equal(
            &rt,
            at(alloc, &mut net, 3, StepParts { kind, ..UP }),
            status,
        );
    }
    for moment in [3, 4] {
        equal(&rt, at(alloc, &mut net, moment, UP), 0);
    }
    equal(&rt, to_rest(alloc, &mut net), (13, 1, 3));
    equal(&rt, at(alloc, &mut net, 2, StepParts { kind: 1, ..UP }), 51);
    let later = EventParts { moment: 4, ..GIVEN };
    equal(&rt, withdrawn(alloc, &mut net), (0, later));
    equal(&rt, to_rest(alloc, &mut net), (0, 8, 50));
    equal(&rt, withdrawn(alloc, &mut net), (0, NOTHING));
}

// As many delays are asked for as there are links, and what is on its way for ever does not come.
#[test]
fn delays_that_are_missing_or_endless(rt: HostRuntime) {
    let alloc = rt.alloc();
    let mut net = opened(alloc, 0);
    for record in [0, 1] {
        equal(&rt, open(alloc, &[], record, &mut net), (8, NO_PLACE));
    }
    equal(&rt, rests(alloc, &mut net), (0, 1));
    let endless = [DelayParts {
        to_a: u64::MAX,
        to_b: 1,
    }];
    equal(&rt, open(alloc, &endless, 0, &mut net), (0, NOWHERE));
    equal(&rt, at(alloc, &mut net, 7, UP), 0);
    equal(&rt, to_rest(alloc, &mut net), (52, 2, 8));
}

// The status of a call by steps, and how many were done.
fn by_steps(alloc: Global, network: &mut NetworkHandle) -> [(u32, usize); 2] {
    let (mut ran, mut turns) = (9, 9);
    let status = tuhvondi_network_run(alloc, network, &[UP], &mut ran);
    let settled = tuhvondi_network_settle(alloc, network, 0, 1000, &mut turns);
    [(status, ran), (settled, turns)]
}

// A network with a clock does no step of its caller's, and one without a clock no event. A fault of what is given comes
// first.
#[test]
fn steps_and_moments_do_not_mix(rt: HostRuntime) {
    let alloc = rt.alloc();
    let mut net = opened(alloc, 1);
    for (kind, status) in [(8, 6), (0, 56)] {
        let found = tuhvondi_network_step(alloc, &mut net, &StepParts { kind, ..UP });
        equal(&rt, found, status);
    }
    equal(&rt, by_steps(alloc, &mut net), [(56, 0); 2]);
    equal(&rt, now(alloc, &mut net), (0, 0));
    let mut stepped = line(alloc);
    for (kind, status) in [(8, 6), (0, 57)] {
        equal(
            &rt,
            at(alloc, &mut stepped, 3, StepParts { kind, ..UP }),
            status,
        );
    }
    equal(&rt, until(alloc, &mut stepped, 3), (57, 0, 9));
    equal(&rt, to_rest(alloc, &mut stepped), (57, 0, 9));
    equal(&rt, now(alloc, &mut stepped), (57, 9));
    equal(&rt, rests(alloc, &mut stepped), (57, 9));
    equal(&rt, next(alloc, &mut stepped).0, 57);
    equal(&rt, withdrawn(alloc, &mut stepped).0, 57);
    equal(&rt, by_steps(alloc, &mut stepped)[0], (0, 1));
}

// What is there before a call.
const NO_SPELL: SpellParts = SpellParts {
    from: 9,
    to: 9,
    addr: 9,
    router: 9,
    len: 9,
};

// What a call wrote: its answer, the spell if there was room for one, how many, and whether there are more.
type Told = (u32, [SpellParts; 1], usize, u8);

const NONE: Told = (0, [NO_SPELL], 0, 0);

// One spell at a router, for 10.0.0.0/8, and whether there are more.
fn spell(router: u16, from: u64, to: u64, more: u8) -> Told {
    let spell = SpellParts {
        from,
        to,
        addr: 0x0a00_0000,
        router,
        len: 8,
    };
    (0, [spell], 1, more)
}

fn computations(alloc: Global, network: &mut NetworkHandle, from: usize) -> Told {
    let (mut it, mut count, mut more) = ([NO_SPELL], 9, 9);
    let status = tuhvondi_network_computations(
        alloc, network, from, &mut it, &mut count, &mut more,
    );
    (status, it, count, more)
}

fn computing(alloc: Global, network: &mut NetworkHandle) -> Told {
    let (mut it, mut count, mut more) = ([NO_SPELL], 9, 9);
    let status = tuhvondi_network_computing(alloc, network, &mut it, &mut count, &mut more);
    (status, it, count, more)
}

fn outages(alloc: Global, network: &mut NetworkHandle, from: usize) -> Told {
    let (mut it, mut count, mut more) = ([NO_SPELL], 9, 9);
    let status = tuhvondi_network_outages(alloc, network, from, &mut it, &mut count, &mut more);
    (status, it, count, more)
}

fn cut_off(alloc: Global, network: &mut NetworkHandle) -> Told {
    let (mut it, mut count, mut more) = ([NO_SPELL], 9, 9);
    let status = tuhvondi_network_cut_off(alloc, network, &mut it, &mut count, &mut more);
    (status, it, count, more)
}

// Router 1 is cut off from when the link comes up, at 3, until it has published, at 45. At 100 the attachment is
// gone. Router 0 hears of it at once, and asks router 1 as it publishes, at 110. Router 1 has the question at 117,
// and asks back at 137. The answer to that is there at 142, leaves at 152 and arrives at 159. Then router 1 answers:
// its answer leaves at 179, and arrives at 184. A copy, made at 44, has the record until then, and comes to rest alike.
#[test]
fn a_record_is_kept(rt: HostRuntime) {
    let alloc = rt.alloc();
    let mut net = opened(alloc, 1);
    let mut other = NetworkHandle::none(alloc);
    equal(&rt, cut_off(alloc, &mut net), NONE);
    equal(&rt, at(alloc, &mut net, 3, UP), 0);
    equal(&rt, until(alloc, &mut net, 44), (0, 6, 25));
    let goes_on = spell(1, 3, u64::MAX, 0);
    equal(&rt, cut_off(alloc, &mut net), goes_on);
    equal(&rt, outages(alloc, &mut net, 0), NONE);
    let copied = tuhvondi_network_copy(alloc, &mut net, &mut other);
    equal(&rt, copied, 0);
    equal(&rt, to_rest(alloc, &mut net), (0, 3, 50));
    equal(&rt, cut_off(alloc, &mut net), NONE);
    equal(&rt, outages(alloc, &mut net, 0), spell(1, 3, 45, 0));
    equal(&rt, outages(alloc, &mut net, 1), NONE);
    equal(&rt, cut_off(alloc, &mut other), goes_on);
    equal(&rt, to_rest(alloc, &mut other), (0, 3, 50));
    equal(&rt, outages(alloc, &mut other, 0), spell(1, 3, 45, 0));
    let (mut count, mut more) = (9, 9);
    let status = tuhvondi_network_outages(alloc, &mut net, 0, &mut [], &mut count, &mut more);
    equal(&rt, (status, count, more), (0, 0, 1));
    let gone = StepParts {
        addr: 0x0a00_0000,
        len: 8,
        kind: 7,
        ..UP
    };
    equal(&rt, at(alloc, &mut net, 100, gone), 0);
    equal(&rt, until(alloc, &mut net, 120).0, 0);
    equal(&rt, computing(alloc, &mut net), spell(0, 100, u64::MAX, 1));
    equal(&rt, computations(alloc, &mut net, 0), NONE);
    equal(&rt, to_rest(alloc, &mut net).0, 0);
    equal(&rt, computing(alloc, &mut net), NONE);
    equal(&rt, computations(alloc, &mut net, 0), spell(1, 117, 159, 1));
    equal(&rt, computations(alloc, &mut net, 1), spell(0, 100, 184, 0));
}

fn all_told(alloc: Global, mut network: NetworkHandle) -> [Told; 4] {
    [
        computations(alloc, &mut network, 0),
        computing(alloc, &mut network),
        outages(alloc, &mut network, 0),
        cut_off(alloc, &mut network),
    ]
}

// A handle that holds none, and networks that keep no record: one in simulated time, and one that goes by steps.
#[test]
fn no_record_is_kept(rt: HostRuntime) {
    let alloc = rt.alloc();
    let told = |status| [(status, [NO_SPELL], 9, 9); 4];
    equal(&rt, all_told(alloc, NetworkHandle::none(alloc)), told(7));
    equal(&rt, all_told(alloc, opened(alloc, 0)), told(53));
    equal(&rt, all_told(alloc, line(alloc)), told(53));
}
