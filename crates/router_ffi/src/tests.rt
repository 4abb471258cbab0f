//! The calls, as C makes them.

use crate::{
    tuhvondi_router_attached, tuhvondi_router_counts, tuhvondi_router_detached,
    tuhvondi_router_forget, tuhvondi_router_free, tuhvondi_router_link_cost,
    tuhvondi_router_link_down, tuhvondi_router_link_up, tuhvondi_router_message,
    tuhvondi_router_new, tuhvondi_router_publish, tuhvondi_router_release, tuhvondi_router_rows,
    tuhvondi_router_state,
};
use c_interface::{CallFault, Row};
use single_router::{Attachment, Counts, Frame, RouterHandle, State};
use std::alloc::Global;
use std::process::Abort;
use std::test::Fail;

const UPDATE: u8 = 0;

const QUERY: u8 = 1;

const REPLY: u8 = 2;

// A call. A message is about 10.0.0.0/8, of the first session of its port, and has a kind, a port and a value. The calls
// that name no prefix are about 10.0.0.0/8, too.
#[derive(Clone, Copy)]
enum Call {
    Open(&'static [u32], &'static [Attachment], usize),
    Up(u8, u16, u32),
    Down(u8),
    Cost(u8, u32),
    Message(u8, u8, u32),
    Attached(u32, u8, u32),
    Detached,
    Forget,
    Publish(usize),
    Release,
    State,
    Rows(usize),
    Counts,
    Free,
}

// The status of a call, or what it wrote: for rows the first, how many these are, whether there are more, and the number
// of the publication; for counts the prefixes that the router knows, and how many rows it has to publish.
#[derive(Clone, Copy, PartialEq)]
enum Answer {
    Status(u32),
    Rows(Row, usize, u8, u64),
    Sent(Frame),
    State(State),
    Counts(usize, usize),
}

const DONE: Answer = Answer::Status(0);

const NO_ROW: Row = Row {
    addr: 0,
    len: 0,
    kind: 3,
    port: 0,
    session: 0,
};

// 10.0.0.0/8 by port 0 in its first session.
const VIA: Row = Row {
    addr: 0x0a00_0000,
    len: 8,
    kind: 1,
    port: 0,
    session: 1,
};

const LOCAL: Row = Row {
    kind: 0,
    session: 0,
    ..VIA
};

const UNREACHABLE: Row = Row { kind: 2, ..LOCAL };

// An update and a query, as a router sends them that has a way of 12 and then one of 105.
const TOLD: Frame = Frame {
    addr: 0x0a00_0000,
    value: 12,
    session: 1,
    len: 8,
    kind: UPDATE,
    port: 0,
};

const ASKED: Frame = Frame {
    value: 105,
    kind: QUERY,
    ..TOLD
};

// A router that has a way of 12 by port 0, and has not published it.
const LEARNT: State = State {
    rd: 12,
    fd: 12,
    attached: 0,
    chosen: VIA,
    published: NO_ROW,
    active: 0,
    owed: 255,
    awaited: [0; 32],
};

fn counts(alloc: Global, router: &mut RouterHandle) -> Answer {
    let mut counts = Counts {
        prefixes: 0,
        changed: 0,
        held: 0,
        ripe: 0,
        generation: 0,
        due: 0,
    };
    match tuhvondi_router_counts(alloc, router, &mut counts) {
        0 => Answer::Counts(counts.prefixes, counts.changed),
        fault => Answer::Status(fault),
    }
}

fn release(alloc: Global, router: &mut RouterHandle) -> Answer {
    let mut message = ASKED;
    match tuhvondi_router_release(alloc, router, &mut message) {
        0 => Answer::Sent(message),
        fault => Answer::Status(fault),
    }
}

fn state(alloc: Global, router: &mut RouterHandle) -> Answer {
    let mut state = LEARNT;
    match tuhvondi_router_state(alloc, router, 0x0a00_0000, 8, &mut state) {
        0 => Answer::State(state),
        fault => Answer::Status(fault),
    }
}

// A publication with room for so many rows, at most two.
fn publish(alloc: Global, router: &mut RouterHandle, room: usize) -> Answer {
    let mut rows = [NO_ROW; 2];
    let (mut count, mut more, mut number) = (9, 9, 9);
    let list = &mut rows[..room.min(2)];
    match tuhvondi_router_publish(alloc, router, list, &mut count, &mut more, &mut number) {
        0 => Answer::Rows(rows[0], count, more, number),
        fault => Answer::Status(fault),
    }
}

// The chosen rows, with room for so many, at most one. A refused call does not write how many there are.
fn rows(alloc: Global, router: &mut RouterHandle, room: usize) -> Answer {
    let (mut rows, mut count) = ([NO_ROW], 9);
    let list = &mut rows[..room.min(1)];
    match tuhvondi_router_rows(alloc, router, list, &mut count) {
        0 => Answer::Rows(rows[0], count, 0, 0),
        fault if count == 9 => Answer::Status(fault),
        _ => DONE,
    }
}

fn message(alloc: Global, router: &mut RouterHandle, kind: u8, port: u8, value: u32) -> u32 {
    let frame = Frame {
        value,
        kind,
        port,
        ..TOLD
    };
    tuhvondi_router_message(alloc, router, &frame)
}

fn answer_to(alloc: Global, it: &mut RouterHandle, call: Call) -> Answer {
    Answer::Status(match call {
        Call::Open(costs, ours, most) => tuhvondi_router_new(alloc, costs, ours, most, it),
        Call::Up(port, session, cost) => tuhvondi_router_link_up(alloc, it, port, session, cost),
        Call::Down(port) => tuhvondi_router_link_down(alloc, it, port),
        Call::Cost(port, cost) => tuhvondi_router_link_cost(alloc, it, port, cost),
        Call::Message(kind, port, value) => message(alloc, it, kind, port, value),
        Call::Attached(addr, len, cost) => tuhvondi_router_attached(alloc, it, addr, len, cost),
        Call::Detached => tuhvondi_router_detached(alloc, it, 0x0a00_0000, 8),
        Call::Forget => tuhvondi_router_forget(alloc, it, 0x0a00_0000, 8),
        Call::Publish(room) => return publish(alloc, it, room),
        Call::Release => return release(alloc, it),
        Call::State => return state(alloc, it),
        Call::Rows(room) => return rows(alloc, it, room),
        Call::Counts => return counts(alloc, it),
        Call::Free => {
            tuhvondi_router_free(alloc, it);
            0
        }
    })
}

// Makes calls with one handle, each of which answers what stands beside it.
fn make(rt: &impl Abort, alloc: Global, calls: &[(Call, Answer)]) {
    let mut router = RouterHandle::none(alloc);
    for (row, &(call, wanted)) in calls.iter().enumerate() {
        let found = answer_to(alloc, &mut router, call);
        assert!(rt; found == wanted, "row {row}");
    }
}

const A_ROUTE: [(Call, Answer); 14] = [
    (Call::Open(&[5, 10], &[], 4), DONE),
    (Call::Up(0, 1, 5), DONE),
    (Call::State, Answer::Status(28)),
    // The neighbour at port 0 has a way of 7, so there is one of 12.
    (Call::Message(UPDATE, 0, 7), DONE),
    (Call::State, Answer::State(LEARNT)),
    // Nothing leaves before the publication.
    (Call::Release, Answer::Status(18)),
    (Call::Publish(2), Answer::Rows(VIA, 1, 0, 1)),
    (Call::Release, Answer::Sent(TOLD)),
    (Call::Release, Answer::Status(18)),
    (Call::Publish(2), Answer::Status(17)),
    (Call::Rows(1), Answer::Rows(VIA, 1, 0, 0)),
    (Call::Free, DONE),
    (Call::State, Answer::Status(7)),
    (Call::Free, DONE),
];

#[test]
fn a_route_is_learnt_published_and_told(rt: HostRuntime) {
    make(&rt, rt.alloc(), &A_ROUTE);
}

// 100 is not below the feasible distance 12, so the router asks its only neighbour.
const ACTIVE: State = State {
    rd: 105,
    active: 1,
    awaited: [
        1, 0, 0, 0, 0, 0, 0, 0, 0, 0, 0, 0, 0, 0, 0, 0, 0, 0, 0, 0, 0, 0, 0, 0, 0, 0, 0, 0, 0, 0,
        0, 0,
    ],
    ..LEARNT
};

const PASSIVE: State = State {
    rd: 105,
    fd: 105,
    published: VIA,
    ..LEARNT
};

const CUT_OFF: State = State {
    rd: u32::MAX,
    fd: u32::MAX,
    chosen: UNREACHABLE,
    ..PASSIVE
};

const A_QUERY: [(Call, Answer); 13] = [
    (Call::Open(&[5, 10], &[], 4), DONE),
    (Call::Up(0, 1, 5), DONE),
    (Call::Message(UPDATE, 0, 7), DONE),
    (Call::Message(UPDATE, 0, 100), DONE),
    (Call::State, Answer::State(ACTIVE)),
    (Call::Publish(2), Answer::Rows(VIA, 1, 0, 1)),
    (Call::Release, Answer::Sent(TOLD)),
    (Call::Release, Answer::Sent(ASKED)),
    (Call::Message(REPLY, 0, 100), DONE),
    (Call::State, Answer::State(PASSIVE)),
    // The link goes down, and with it the only way.
    (Call::Cost(0, 6), DONE),
    (Call::Down(0), DONE),
    (Call::State, Answer::State(CUT_OFF)),
];

#[test]
fn a_router_asks_where_no_neighbour_is_feasible(rt: HostRuntime) {
    make(&rt, rt.alloc(), &A_QUERY);
}

const LAST: Row = Row {
    addr: 0xc000_0200,
    len: 24,
    ..LOCAL
};

const LAST_TOLD: Frame = Frame {
    addr: 0xc000_0200,
    value: 1,
    len: 24,
    ..TOLD
};

const ONE_BY_ONE: [(Call, Answer); 9] = [
    (Call::Open(&[5], &[], 4), DONE),
    (Call::Up(0, 1, 5), DONE),
    (Call::Attached(0xc000_0200, 24, 1), DONE),
    (Call::Attached(0x0a00_0000, 8, 1), DONE),
    (Call::Publish(1), Answer::Rows(LOCAL, 1, 1, 0)),
    // The first row is in force, and nothing may leave before the second is.
    (Call::Counts, Answer::Counts(2, 1)),
    (Call::Release, Answer::Status(18)),
    (Call::Publish(2), Answer::Rows(LAST, 1, 0, 1)),
    (Call::Release, Answer::Sent(LAST_TOLD)),
];

#[test]
fn rows_are_published_as_many_as_there_is_room_for(rt: HostRuntime) {
    make(&rt, rt.alloc(), &ONE_BY_ONE);
}

// The neighbour has no way any more, and answers so. It asks nothing twice, and answers once. Since there is room for one
// prefix, there is some for another once it is forgotten.
const FORGOTTEN: [(Call, Answer); 15] = [
    (Call::Open(&[5], &[], 1), DONE),
    (Call::Up(0, 1, 5), DONE),
    (Call::Message(UPDATE, 0, 7), DONE),
    (Call::Publish(2), Answer::Rows(VIA, 1, 0, 1)),
    (Call::Forget, Answer::Status(44)),
    (Call::Message(QUERY, 0, u32::MAX), DONE),
    (Call::Message(QUERY, 0, u32::MAX), Answer::Status(39)),
    (Call::Message(REPLY, 0, u32::MAX), DONE),
    (Call::Message(REPLY, 0, u32::MAX), Answer::Status(38)),
    (Call::Forget, Answer::Status(44)),
    (Call::Publish(2), Answer::Rows(UNREACHABLE, 1, 0, 2)),
    (Call::Attached(0, 0, 1), Answer::Status(27)),
    (Call::Forget, DONE),
    (Call::Forget, Answer::Status(28)),
    (Call::Attached(0, 0, 1), DONE),
];

#[test]
fn a_prefix_of_which_nothing_is_known_is_forgotten(rt: HostRuntime) {
    make(&rt, rt.alloc(), &FORGOTTEN);
}

const OURS: [Attachment; 1] = [Attachment {
    addr: 0x0a00_0000,
    cost: 3,
    len: 8,
}];

const ATTACHED: State = State {
    rd: 3,
    fd: 3,
    attached: 3,
    chosen: LOCAL,
    published: LOCAL,
    ..LEARNT
};

const NEARER: State = State {
    rd: 2,
    fd: 2,
    attached: 2,
    ..ATTACHED
};

const DETACHED: State = State {
    rd: u32::MAX,
    fd: u32::MAX,
    attached: 0,
    chosen: UNREACHABLE,
    ..ATTACHED
};

// It is attached at another cost, then no more, then again.
const AN_ATTACHMENT: [(Call, Answer); 10] = [
    (Call::Open(&[5], &OURS, 4), DONE),
    (Call::State, Answer::State(ATTACHED)),
    (Call::Publish(2), Answer::Status(17)),
    (Call::Attached(0x0a00_0000, 8, 2), DONE),
    (Call::State, Answer::State(NEARER)),
    (Call::Detached, DONE),
    (Call::State, Answer::State(DETACHED)),
    (Call::Detached, Answer::Status(29)),
    (Call::Attached(0x0a00_0000, 8, 4), DONE),
    (Call::Counts, Answer::Counts(1, 0)),
];

#[test]
fn an_attachment_is_published_from_the_opening_on(rt: HostRuntime) {
    make(&rt, rt.alloc(), &AN_ATTACHMENT);
}

const BAD: Attachment = Attachment {
    addr: 1,
    cost: 0,
    len: 33,
};

const HOST_BITS: Attachment = Attachment {
    addr: 1,
    cost: 1,
    len: 8,
};

const FAULTS: [(Call, Answer); 21] = [
    (Call::Open(&[1; 33], &[BAD], 4), Answer::Status(26)),
    (Call::Open(&[1, 0, 70000], &[BAD], 4), Answer::Status(5)),
    (Call::Open(&[1], &[BAD, HOST_BITS], 4), Answer::Status(3)),
    (Call::Open(&[1], &[HOST_BITS], 4), Answer::Status(4)),
    (Call::Down(0), Answer::Status(7)),
    (Call::Release, Answer::Status(7)),
    (Call::Publish(2), Answer::Status(7)),
    (Call::Open(&[1, 1], &[], 4), DONE),
    (Call::Up(2, 1, 0), Answer::Status(5)),
    (Call::Up(2, 1, 1), Answer::Status(11)),
    (Call::Up(0, 0, 1), Answer::Status(36)),
    (Call::Down(0), Answer::Status(14)),
    (Call::Message(UPDATE, 0, 1), Answer::Status(14)),
    (Call::Up(0, 2, 1), DONE),
    (Call::Up(0, 3, 1), Answer::Status(13)),
    (Call::Message(UPDATE, 0, 1), Answer::Status(36)),
    (Call::Message(3, 0, 1), Answer::Status(6)),
    (Call::Attached(0x0a00_0000, 8, 0), Answer::Status(5)),
    (Call::Attached(0x0a00_0000, 8, 1), DONE),
    (Call::Rows(0), Answer::Status(8)),
    (Call::Open(&[1], &OURS, 0), Answer::Status(27)),
];

#[test]
fn each_fault_has_its_number(rt: HostRuntime) {
    make(&rt, rt.alloc(), &FAULTS);
    assert!(&rt; CallFault::GenerationsSpent.number() == 37);
}
