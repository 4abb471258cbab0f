//! The calls, as C makes them.

use crate::inspecting::{
    tuhvondi_network_gate, tuhvondi_network_held, tuhvondi_network_link, tuhvondi_network_machine,
    tuhvondi_network_notices, tuhvondi_network_queue,
};
use crate::{
    tuhvondi_network_copy, tuhvondi_network_counts, tuhvondi_network_free,
    tuhvondi_network_is_settled, tuhvondi_network_lookup, tuhvondi_network_new,
    tuhvondi_network_next_step, tuhvondi_network_rows, tuhvondi_network_run,
    tuhvondi_network_settle, tuhvondi_network_step, tuhvondi_network_trace,
    tuhvondi_network_within,
};
use c_interface::Row;
use network_calls::{
    AttachmentParts, Counts, FaultPlace, GateShown, ItemShown, LimitsParts, LinkParts, LinkShown,
    MachineShown, NeighbourShown, NetworkHandle, NoticeShown, StepParts,
};
use single_router::{Frame, State};
use std::alloc::Global;
use std::fmt::Debug;
use std::process::Abort;

// What was found is what was wanted. An `assert_eq!` that is written out costs the gate three seconds, and a call of this
// function less than one, because it is proved once.
pub(crate) fn equal<T: PartialEq + Debug + Drop>(rt: &impl Abort, found: T, wanted: T) {
    assert_eq!(rt; found, wanted);
}

pub(crate) const NOWHERE: FaultPlace = FaultPlace {
    position: 9,
    list: 9,
};

const NO_ROW: Row = Row {
    addr: 0,
    len: 0,
    kind: 3,
    port: 0,
    session: 0,
};

// Two routers and a third in a line, each link at cost 1, and router 0 attached to 10.0.0.0/8 at cost 1.
const LINE: [LinkParts; 2] = [
    LinkParts {
        from_a: 1,
        from_b: 1,
        a: 0,
        b: 1,
    },
    LinkParts {
        from_a: 1,
        from_b: 1,
        a: 1,
        b: 2,
    },
];

pub(crate) const OWNER: [AttachmentParts; 1] = [AttachmentParts {
    addr: 0x0a00_0000,
    cost: 1,
    router: 0,
    len: 8,
}];

// 10.0.0.0/8: by port 0 in its first session, local, and unreachable.
pub(crate) const VIA: Row = Row {
    addr: 0x0a00_0000,
    len: 8,
    kind: 1,
    port: 0,
    session: 1,
};

const LOCAL: Row = Row {
    kind: 0,
    session: 0,
    ..VIA
};

const UNREACHABLE: Row = Row { kind: 2, ..LOCAL };

// The first link comes up, or the second.
pub(crate) const UP: StepParts = StepParts {
    addr: 0,
    cost: 0,
    subject: 0,
    kind: 0,
    port: 0,
    len: 0,
};

const SECOND_UP: StepParts = StepParts { subject: 1, ..UP };

const UPS: [StepParts; 2] = [UP, SECOND_UP];

fn plain(kind: u8, subject: u16) -> StepParts {
    StepParts {
        subject,
        kind,
        ..UP
    }
}

pub(crate) fn line(alloc: Global) -> NetworkHandle {
    let mut network = NetworkHandle::none(alloc);
    let mut place = NOWHERE;
    let _ = tuhvondi_network_new(alloc, 3, &LINE, &OWNER, &mut place, &mut network);
    network
}

pub(crate) fn look_up(alloc: Global, network: &mut NetworkHandle, router: u16) -> Row {
    let mut answers = [NO_ROW];
    let _ = tuhvondi_network_lookup(alloc, network, router, &[0x0a01_0203], &mut answers);
    answers[0]
}

fn step(alloc: Global, network: &mut NetworkHandle, kind: u8, subject: u16) -> u32 {
    tuhvondi_network_step(alloc, network, &plain(kind, subject))
}

// Runs steps: the status, and how many were done.
fn run(alloc: Global, network: &mut NetworkHandle, steps: &[StepParts]) -> (u32, usize) {
    let mut done = 9;
    let status = tuhvondi_network_run(alloc, network, steps, &mut done);
    (status, done)
}

fn settle(alloc: Global, network: &mut NetworkHandle, seed: u64, most: usize) -> (u32, usize) {
    let mut done = 9;
    let status = tuhvondi_network_settle(alloc, network, seed, most, &mut done);
    (status, done)
}

// Follows a packet: the status, the routers that it passes, how many these are, and its end.
fn trace(alloc: Global, network: &mut NetworkHandle, router: u16) -> (u32, [u16; 4], usize, u8) {
    let (mut hops, mut count, mut end) = ([9; 4], 9, 9);
    let to = 0x0a01_0203;
    let status = tuhvondi_network_trace(
        alloc, network, router, to, &mut hops, &mut count, &mut end,
    );
    (status, hops, count, end)
}

// Brings both links of the line up.
fn joined(alloc: Global) -> NetworkHandle {
    let mut network = line(alloc);
    let _ = run(alloc, &mut network, &UPS);
    network
}

#[test]
fn line_settles_and_a_cut_is_heard(rt: HostRuntime) {
    let alloc = rt.alloc();
    let mut net = line(alloc);
    equal(&rt, run(alloc, &mut net, &UPS), (0, 2));
    for seed in [0, 1, 7] {
        equal(&rt, settle(alloc, &mut net, seed, 10_000).0, 0);
    }
    let mut settled = 9;
    let status = tuhvondi_network_is_settled(alloc, &mut net, &mut settled);
    equal(&rt, (status, settled), (0, 1));
    equal(&rt, look_up(alloc, &mut net, 0), LOCAL);
    equal(&rt, look_up(alloc, &mut net, 1), VIA);
    equal(&rt, look_up(alloc, &mut net, 2), VIA);
    equal(&rt, trace(alloc, &mut net, 2), (0, [2, 1, 0, 9], 3, 0));
    let (mut rows, mut count, mut more) = ([NO_ROW; 2], 9, 9);
    let status = tuhvondi_network_rows(alloc, &mut net, 2, &mut rows, &mut count, &mut more);
    equal(&rt, (status, count, more), (0, 1, 0));
    equal(&rt, rows, [VIA, NO_ROW]);
    // The link of routers 0 and 1 goes down: until router 1 hears of that, its row leads over a dead link.
    equal(&rt, step(alloc, &mut net, 1, 0), 0);
    equal(&rt, trace(alloc, &mut net, 2), (0, [2, 1, 9, 9], 2, 3));
    equal(&rt, settle(alloc, &mut net, 0, 10_000).0, 0);
    equal(&rt, look_up(alloc, &mut net, 1), UNREACHABLE);
    equal(&rt, look_up(alloc, &mut net, 2), UNREACHABLE);
    let mut counts = Counts {
        steps: 0,
        updates: 0,
        queries: 0,
        replies: 0,
    };
    let status = tuhvondi_network_counts(alloc, &mut net, &mut counts);
    // Each query is answered once.
    equal(&rt, (status, counts.queries), (0, counts.replies));
}

// What router 1 is shown of its machine, or the number of a fault.
fn machine(alloc: Global, network: &mut NetworkHandle) -> Result<MachineShown, u32> {
    let mut shown = MachineShown {
        state: State {
            rd: 9,
            fd: 9,
            attached: 9,
            chosen: NO_ROW,
            published: NO_ROW,
            active: 9,
            owed: 9,
            awaited: [9; 32],
        },
        neighbours: [NeighbourShown {
            reported: 9,
            cost: 9,
            up: 9,
        }; 32],
        successor: 9,
    };
    match tuhvondi_network_machine(alloc, network, 1, 0x0a00_0000, 8, &mut shown) {
        0 => Ok(shown),
        fault => Err(fault),
    }
}

const NO_MESSAGE: Frame = Frame {
    addr: 0,
    value: 0,
    session: 0,
    len: 0,
    kind: 255,
    port: 0,
};

// What router 1 holds back, or the number of a fault.
fn gate(alloc: Global, network: &mut NetworkHandle, router: u16) -> Result<GateShown, u32> {
    let mut shown = GateShown {
        held: 9,
        ripe: 9,
        notices: 9,
        generation: 9,
        front: NO_MESSAGE,
        due: 9,
    };
    match tuhvondi_network_gate(alloc, network, router, &mut shown) {
        0 => Ok(shown),
        fault => Err(fault),
    }
}

fn link(alloc: Global, network: &mut NetworkHandle, number: u16) -> Result<LinkShown, u32> {
    let mut shown = LinkShown {
        to_a: 9,
        to_b: 9,
        from_a: 9,
        from_b: 9,
        a: 9,
        b: 9,
        session: 9,
        up: 9,
    };
    match tuhvondi_network_link(alloc, network, number, &mut shown) {
        0 => Ok(shown),
        fault => Err(fault),
    }
}

const NO_ITEM: ItemShown = ItemShown {
    addr: 0,
    value: 0,
    session: 0,
    kind: 255,
    len: 0,
};

// The item that a router takes next from its port, how many were shown, and whether there are more.
fn item(
    alloc: Global,
    network: &mut NetworkHandle,
    router: u16,
    port: u8,
    room: usize,
) -> Result<(ItemShown, usize, u8), u32> {
    let mut items = [NO_ITEM; 2];
    let (mut written, mut more) = (9, 9);
    match tuhvondi_network_queue(
        alloc,
        network,
        router,
        port,
        &mut items[..room.min(2)],
        &mut written,
        &mut more,
    ) {
        0 => Ok((items[0], written, more)),
        fault => Err(fault),
    }
}

#[test]
fn a_query_is_shown_on_its_way(rt: HostRuntime) {
    let alloc = rt.alloc();
    let mut net = line(alloc);
    equal(&rt, machine(alloc, &mut net), Err(28));
    equal(&rt, run(alloc, &mut net, &UPS), (0, 2));
    let came_up = ItemShown {
        value: 1,
        session: 1,
        kind: 3,
        ..NO_ITEM
    };
    equal(&rt, item(alloc, &mut net, 1, 0, 2), Ok((came_up, 1, 0)));
    equal(&rt, item(alloc, &mut net, 1, 0, 0), Ok((NO_ITEM, 0, 1)));
    equal(&rt, settle(alloc, &mut net, 0, 10_000).0, 0);
    // Router 1 loses its successor, and router 2 is no feasible one. So router 1 asks it, and waits until its
    // row is in force.
    let cut = [plain(1, 0), plain(3, 1)];
    equal(&rt, run(alloc, &mut net, &cut), (0, 2));
    let shown = machine(alloc, &mut net);
    equal(
        &rt,
        shown.is_ok_and(|m| m.successor == 255
            && m.neighbours[0].up == 0
            && m.neighbours[1]
                == NeighbourShown {
                    reported: 3,
                    cost: 1,
                    up: 1,
                }),
        true,
    );
    equal(
        &rt,
        shown.is_ok_and(|m| m.state.rd == u32::MAX
            && m.state.fd == 2
            && m.state.active == 1
            && m.state.awaited[1] == 1
            && m.state.published == VIA),
        true,
    );
    let down = LinkShown {
        to_a: 1,
        to_b: 0,
        from_a: 1,
        from_b: 1,
        a: 0,
        b: 1,
        session: 1,
        up: 0,
    };
    equal(&rt, link(alloc, &mut net, 0), Ok(down));
    let mut waits = GateShown {
        held: 1,
        ripe: 0,
        notices: 0,
        generation: 1,
        front: NO_MESSAGE,
        due: 1,
    };
    equal(&rt, gate(alloc, &mut net, 1), Ok(waits));
    // Router 1 publishes, and then its query leaves: it has no distance any more.
    equal(&rt, step(alloc, &mut net, 4, 1), 0);
    waits.ripe = 1;
    waits.generation = 2;
    waits.due = 0;
    waits.front = Frame {
        addr: 0x0a00_0000,
        value: u32::MAX,
        session: 1,
        len: 8,
        kind: 1,
        port: 1,
    };
    equal(&rt, gate(alloc, &mut net, 1), Ok(waits));
    equal(&rt, step(alloc, &mut net, 5, 1), 0);
    let query = ItemShown {
        addr: 0x0a00_0000,
        value: u32::MAX,
        session: 0,
        kind: 1,
        len: 8,
    };
    equal(&rt, item(alloc, &mut net, 2, 0, 2), Ok((query, 1, 0)));
    // Hostile arguments.
    equal(&rt, item(alloc, &mut net, 3, 0, 2), Err(10));
    equal(&rt, item(alloc, &mut net, 2, 1, 2), Err(11));
    equal(&rt, link(alloc, &mut net, 2), Err(11));
    equal(&rt, gate(alloc, &mut net, 3), Err(10));
    tuhvondi_network_free(alloc, &mut net);
    equal(&rt, machine(alloc, &mut net), Err(7));
    equal(&rt, gate(alloc, &mut net, 0), Err(7));
}

// Opens a network: the status, and where a fault stands.
fn open(
    alloc: Global,
    routers: u16,
    links: &[LinkParts],
    owners: &[AttachmentParts],
    network: &mut NetworkHandle,
) -> (u32, FaultPlace) {
    let mut place = NOWHERE;
    let status = tuhvondi_network_new(alloc, routers, links, owners, &mut place, network);
    (status, place)
}

fn fault(status: u32, position: usize, list: u8) -> (u32, FaultPlace) {
    (status, FaultPlace { position, list })
}

#[test]
fn faults_are_told_with_their_place(rt: HostRuntime) {
    let alloc = rt.alloc();
    let mut net = NetworkHandle::none(alloc);
    // No router; the second link joins the same two; it has no cost from its second end.
    let found = open(alloc, 0, &[], &[], &mut net);
    equal(&rt, found, fault(24, 0, 0));
    let twice = [LINE[0], LINE[0]];
    let found = open(alloc, 3, &twice, &OWNER, &mut net);
    equal(&rt, found, fault(25, 1, 1));
    let costless = LinkParts {
        from_b: 0,
        ..LINE[1]
    };
    let found = open(alloc, 3, &[LINE[0], costless], &OWNER, &mut net);
    equal(&rt, found, fault(5, 1, 1));
    let long = AttachmentParts {
        len: 33,
        ..OWNER[0]
    };
    let found = open(alloc, 3, &LINE, &[OWNER[0], long], &mut net);
    equal(&rt, found, fault(3, 1, 2));
    let nobody = AttachmentParts {
        router: 3,
        ..OWNER[0]
    };
    let found = open(alloc, 3, &LINE, &[nobody], &mut net);
    equal(&rt, found, fault(27, 0, 2));
    // The handle is empty still.
    equal(&rt, step(alloc, &mut net, 0, 0), 7);
}

#[test]
fn refused_steps_are_told(rt: HostRuntime) {
    let alloc = rt.alloc();
    let mut net = line(alloc);
    let rows = [
        (8, 0, 6),
        (0, 2, 11),
        (1, 0, 14),
        (4, 3, 10),
        (4, 0, 17),
        (5, 0, 18),
    ];
    for (kind, subject, status) in rows {
        equal(&rt, step(alloc, &mut net, kind, subject), status);
    }
    let ups = [UP, UP];
    equal(&rt, run(alloc, &mut net, &ups), (13, 1));
    let mut next = plain(9, 9);
    for (router, status, kind) in [(0, 0, 3), (2, 0, 255), (3, 10, 255)] {
        let found = tuhvondi_network_next_step(alloc, &mut net, router, &mut next);
        equal(&rt, (found, next), (status, plain(kind, 0)));
    }
}

// Lets a network come to rest: how many steps that takes.
fn rest(alloc: Global, network: &mut NetworkHandle) -> usize {
    settle(alloc, network, 0, 1_000_000).1
}

#[test]
fn a_copy_goes_its_own_way(rt: HostRuntime) {
    let alloc = rt.alloc();
    let mut net = joined(alloc);
    let mut other = NetworkHandle::none(alloc);
    let _ = settle(alloc, &mut net, 0, 3);
    let status = tuhvondi_network_copy(alloc, &mut net, &mut other);
    equal(&rt, status, 0);
    // Both have as much left to do, and come to rest alike.
    equal(&rt, rest(alloc, &mut other), rest(alloc, &mut net));
    equal(&rt, look_up(alloc, &mut other, 2), VIA);
    // A link of the copy goes down. Then a copy of that copy replaces it.
    equal(&rt, step(alloc, &mut other, 1, 0), 0);
    let mut third = line(alloc);
    let status = tuhvondi_network_copy(alloc, &mut other, &mut third);
    equal(&rt, status, 0);
    tuhvondi_network_free(alloc, &mut other);
    equal(&rt, rest(alloc, &mut third) > 0, true);
    equal(&rt, look_up(alloc, &mut third, 2), UNREACHABLE);
    equal(&rt, look_up(alloc, &mut net, 2), VIA);
    equal(&rt, rest(alloc, &mut net), 0);
    // An empty handle has nothing to copy, and the other keeps what it holds.
    let status = tuhvondi_network_copy(alloc, &mut other, &mut third);
    equal(&rt, status, 7);
    equal(&rt, look_up(alloc, &mut third, 2), UNREACHABLE);
}

// Limits: of routers, links, ports, prefixes and attachments.
type Limits = [usize; 5];

// Opens a network within limits: the status, and where a fault stands.
fn within(
    alloc: Global,
    own: Limits,
    routers: usize,
    links: &[LinkParts],
    owners: &[AttachmentParts],
    network: &mut NetworkHandle,
) -> (u32, FaultPlace) {
    let mut place = NOWHERE;
    let limits = LimitsParts {
        routers: own[0],
        links: own[1],
        ports: own[2],
        prefixes: own[3],
        attachments: own[4],
    };
    let status = tuhvondi_network_within(
        alloc, &limits, routers, links, owners, &mut place, network,
    );
    (status, place)
}

const MANY: usize = 4_294_967_295;

// What the line needs, and not more; and then less, or more than there may be. Beside the limits stand the status, and the
// place of the fault.
const OF_THE_LINE: [(Limits, (u32, usize, u8)); 15] = [
    ([3, 2, 2, 1, 1], (0, 9, 9)),
    ([65_536, 65_536, 32, MANY, MANY], (0, 9, 9)),
    ([2, 2, 2, 1, 1], (24, 0, 0)),
    ([0, 2, 2, 1, 1], (24, 0, 0)),
    ([3, 1, 2, 1, 1], (26, 1, 1)),
    ([3, 0, 2, 1, 1], (26, 0, 1)),
    ([3, 2, 1, 1, 1], (26, 1, 1)),
    ([3, 2, 0, 1, 1], (26, 0, 1)),
    ([3, 2, 2, 0, 1], (27, 0, 2)),
    ([3, 2, 2, 1, 0], (27, 0, 2)),
    ([65_537, 65_536, 32, MANY, MANY], (50, 0, 0)),
    ([65_536, 65_537, 32, MANY, MANY], (50, 0, 0)),
    ([3, 2, 33, 1, 1], (50, 0, 0)),
    ([3, 2, 2, MANY + 1, 1], (50, 0, 0)),
    ([3, 2, 2, 1, usize::MAX], (50, 0, 0)),
];

#[test]
fn limits_are_those_of_the_caller(rt: HostRuntime) {
    let alloc = rt.alloc();
    let mut net = NetworkHandle::none(alloc);
    for (own, (status, position, list)) in OF_THE_LINE {
        let found = within(alloc, own, 3, &LINE, &OWNER, &mut net);
        equal(&rt, found, fault(status, position, list));
    }
    // The network of the widest limits is held still. A fault of the limits comes before those of the lists.
    equal(&rt, look_up(alloc, &mut net, 0), LOCAL);
    let costless = [LinkParts {
        from_a: 0,
        ..LINE[0]
    }];
    for (ports, status) in [(33, 50), (2, 5)] {
        let own = [3, 2, ports, 1, 1];
        let found = within(alloc, own, 0, &costless, &[], &mut net);
        equal(&rt, found.0, status);
    }
}

#[test]
fn the_last_of_all_routers_is_reached(rt: HostRuntime) {
    let alloc = rt.alloc();
    let mut net = NetworkHandle::none(alloc);
    let links = [LinkParts {
        from_a: 65_535,
        from_b: 65_535,
        a: 65_535,
        b: 0,
    }];
    let owner = [AttachmentParts {
        router: 65_535,
        ..OWNER[0]
    }];
    let widest = [65_536, 65_536, 32, MANY, MANY];
    for (routers, status) in [(65_537, 24), (65_536, 0)] {
        let found = within(alloc, widest, routers, &links, &owner, &mut net);
        equal(&rt, found.0, status);
    }
    equal(&rt, step(alloc, &mut net, 0, 0), 0);
    equal(&rt, rest(alloc, &mut net) > 0, true);
    let wanted = (0, [0, 65_535, 9, 9], 2, 0);
    equal(&rt, trace(alloc, &mut net, 0), wanted);
}

// A step of router 1 that attaches it at this cost, or detaches it.
fn attachment(kind: u8, cost: u32) -> StepParts {
    StepParts {
        addr: 0x0a00_0000,
        cost,
        len: 8,
        ..plain(kind, 1)
    }
}

const NO_NOTICE: NoticeShown = NoticeShown {
    addr: 9,
    cost: 9,
    len: 9,
};

// Shows notices, so many at the most: the status, the notices, how many these are, and whether there are more.
fn notices(
    alloc: Global,
    network: &mut NetworkHandle,
    router: u16,
    room: usize,
) -> (u32, [NoticeShown; 3], usize, u8) {
    let (mut shown, mut count, mut more) = ([NO_NOTICE; 3], 9, 9);
    let list = &mut shown[..room.min(3)];
    let status = tuhvondi_network_notices(alloc, network, router, list, &mut count, &mut more);
    (status, shown, count, more)
}

// Shows held messages in the same way.
fn held(
    alloc: Global,
    network: &mut NetworkHandle,
    router: u16,
    room: usize,
) -> (u32, [Frame; 3], usize, u8) {
    let (mut shown, mut count, mut more) = ([NO_MESSAGE; 3], 9, 9);
    let list = &mut shown[..room.min(3)];
    let status = tuhvondi_network_held(alloc, network, router, list, &mut count, &mut more);
    (status, shown, count, more)
}

#[test]
fn notices_and_held_messages_are_shown(rt: HostRuntime) {
    let alloc = rt.alloc();
    let mut net = line(alloc);
    let steps = [attachment(6, 3), attachment(7, 0), attachment(6, 2)];
    equal(&rt, run(alloc, &mut net, &steps), (0, 3));
    let told = |cost| NoticeShown {
        addr: 0x0a00_0000,
        cost,
        len: 8,
    };
    let two = [told(3), told(0), NO_NOTICE];
    equal(&rt, notices(alloc, &mut net, 1, 2), (0, two, 2, 1));
    let three = [told(3), told(0), told(2)];
    equal(&rt, notices(alloc, &mut net, 1, 3), (0, three, 3, 0));
    // Router 1 hears of both its links, and then of its attachment: it holds an update for each neighbour.
    let taken = |port| StepParts {
        port,
        ..plain(3, 1)
    };
    let steps = [UP, SECOND_UP, taken(0), taken(1), taken(2)];
    equal(&rt, run(alloc, &mut net, &steps), (0, 5));
    let update = |port| Frame {
        addr: 0x0a00_0000,
        value: 3,
        session: 1,
        len: 8,
        kind: 0,
        port,
    };
    let one = [update(0), NO_MESSAGE, NO_MESSAGE];
    equal(&rt, held(alloc, &mut net, 1, 1), (0, one, 1, 1));
    let both = [update(0), update(1), NO_MESSAGE];
    equal(&rt, held(alloc, &mut net, 1, 3), (0, both, 2, 0));
    // Hostile arguments write nothing.
    for router in [3, 65_535] {
        let none = [NO_MESSAGE; 3];
        equal(&rt, held(alloc, &mut net, router, 3), (10, none, 9, 9));
        let none = [NO_NOTICE; 3];
        equal(&rt, notices(alloc, &mut net, router, 3), (10, none, 9, 9));
    }
}
