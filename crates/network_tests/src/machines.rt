//! Rows of a machine with ports 0 and 1 up at cost 1. Its attachment has the number 2.

use crate::equal_to::equal;
use dual_machine::{Cost, Debt, Distance, Event, Kind, Machine, Mode, PortInfo, PortSet, Sends};
use std::alloc::Global;
use std::process::Abort;

// What a machine is told.
enum Told {
    Nothing,
    // A message, with a distance, comes from a port.
    Heard(Kind, u32, u8),
    // The link of a port has a cost.
    Cost(u8, u32),
    Attached(u32),
    Detached,
}

// What a machine is told, and what it shows then: RD and FD, the successor, of a computation the number
// of its origin state, the ports that it awaits, as bits, and the debt, and what it has sent: messages,
// each with a distance, to a port.
struct Row(
    Told,
    (u32, u32),
    Option<u8>,
    Option<(u8, u32, Debt)>,
    &'static [(Kind, u32, u8)],
);

const INF: u32 = u32::MAX;

const ONLY_0: u32 = 0b01;

const ONLY_1: u32 = 0b10;

const BOTH: u32 = 0b11;

fn cost(rt: &impl Abort, cost: u32) -> Cost {
    Cost::new(cost).expect(rt, "cost")
}

impl Told {
    fn event(&self, rt: &impl Abort) -> Option<Event> {
        match *self {
            Told::Nothing => None,
            Told::Heard(kind, value, port) => {
                let value = Distance::new(value);
                Some(Event::Message { port, kind, value })
            }
            Told::Cost(port, value) => {
                let cost = cost(rt, value);
                Some(Event::Cost { port, cost })
            }
            Told::Attached(value) => Some(Event::Attached {
                cost: cost(rt, value),
            }),
            Told::Detached => Some(Event::Detached),
        }
    }
}

fn ports(bits: u32) -> PortSet {
    let mut ports = PortSet::empty();
    for port in 0..32 {
        if bits >> port & 1 == 1 {
            ports = ports.with(port);
        }
    }
    ports
}

fn shows(rt: &impl Abort, machine: &Machine, row: &Row) {
    let Row(_, distances, successor, active, _) = *row;
    equal(rt, (machine.rd().value(), machine.fd().value()), distances);
    equal(rt, machine.successor(), successor);
    let awaited = ports(active.map_or(0, |(_, bits, _)| bits));
    let shown = match machine.mode() {
        Mode::Passive => None,
        Mode::Active {
            origin,
            awaited,
            debt,
        } => Some((origin.number(), awaited, debt)),
    };
    let wanted = active.map(|(number, _, debt)| (number, awaited, debt));
    equal(rt, shown, wanted);
    for port in 0..32 {
        equal(rt, machine.awaits(port), awaited.has(port));
    }
}

fn sent(rt: &impl Abort, sends: &Sends, row: &Row) {
    let (sent, wanted) = (sends.as_slice(), row.4);
    assert_eq!(rt; sent.len(), wanted.len());
    for i in 0..sent.len() {
        let message = sent[i];
        let found = (message.kind, message.value.value(), message.port);
        equal(rt, found, wanted[i]);
    }
}

fn is_told(rt: &impl Abort, machine: &mut Machine, sends: &mut Sends, row: &Row) {
    sends.clear();
    let told = row.0.event(rt);
    if let Some(event) = &told {
        assert!(rt; machine.is_timely(*event));
        machine.event(*event, sends).expect(rt, "memory");
    }
    shows(rt, machine, row);
    sent(rt, sends, row);
}

const PORTS: [PortInfo; 2] = [PortInfo {
    up: true,
    cost: Cost::ONE,
}; 2];

fn are_told(rt: &impl Abort, machine: &mut Machine, sends: &mut Sends, rows: &[Row]) {
    for row in rows {
        is_told(rt, machine, sends, row);
    }
}

// A machine with this attachment is told these rows, and then those.
fn goes(rt: &impl Abort, alloc: Global, attachment: Option<Cost>, first: &[Row], last: &[Row]) {
    let mut machine = Machine::new(alloc, attachment, &PORTS).expect(rt, "memory");
    let mut sends = Sends::new(alloc);
    are_told(rt, &mut machine, &mut sends, first);
    are_told(rt, &mut machine, &mut sends, last);
}

static A_COST_RISES_AGAIN: [Row; 8] = [
    Row(
        Told::Heard(Kind::Update, 0, 0),
        (1, 1),
        Some(0),
        None,
        &[(Kind::Update, 1, 0), (Kind::Update, 1, 1)],
    ),
    Row(Told::Heard(Kind::Update, 2, 1), (1, 1), Some(0), None, &[]),
    Row(
        Told::Cost(0, 10),
        (10, 1),
        Some(0),
        Some((1, BOTH, None)),
        &[(Kind::Query, 10, 0), (Kind::Query, 10, 1)],
    ),
    Row(
        Told::Heard(Kind::Reply, 0, 0),
        (10, 1),
        Some(0),
        Some((1, ONLY_1, None)),
        &[],
    ),
    Row(
        Told::Cost(0, 20),
        (10, 1),
        Some(0),
        Some((0, ONLY_1, None)),
        &[],
    ),
    Row(
        Told::Heard(Kind::Reply, 11, 1),
        (20, 10),
        Some(0),
        Some((1, BOTH, None)),
        &[(Kind::Query, 20, 0), (Kind::Query, 20, 1)],
    ),
    Row(
        Told::Heard(Kind::Reply, 0, 0),
        (20, 10),
        Some(0),
        Some((1, ONLY_1, None)),
        &[],
    ),
    Row(
        Told::Heard(Kind::Reply, 12, 1),
        (13, 13),
        Some(1),
        None,
        &[(Kind::Update, 13, 0), (Kind::Update, 13, 1)],
    ),
];

#[test]
fn a_cost_rises_again(rt: HostRuntime) {
    goes(&rt, rt.alloc(), None, &A_COST_RISES_AGAIN, &[]);
}

// The successor asks, and asks again; the other port asks in between, and its reply is awaited.
static IS_ASKED_TWICE: [Row; 5] = [
    Row(
        Told::Heard(Kind::Update, 0, 0),
        (1, 1),
        Some(0),
        None,
        &[(Kind::Update, 1, 0), (Kind::Update, 1, 1)],
    ),
    Row(
        Told::Heard(Kind::Query, 5, 0),
        (6, 1),
        Some(0),
        Some((3, BOTH, Some(0))),
        &[(Kind::Query, 6, 0), (Kind::Query, 6, 1)],
    ),
    Row(
        Told::Heard(Kind::Query, 7, 0),
        (6, 1),
        Some(0),
        Some((2, BOTH, Some(0))),
        &[],
    ),
    Row(
        Told::Heard(Kind::Reply, 7, 0),
        (6, 1),
        Some(0),
        Some((2, ONLY_1, Some(0))),
        &[],
    ),
    Row(
        Told::Heard(Kind::Query, 3, 1),
        (6, 1),
        Some(0),
        Some((2, ONLY_1, Some(0))),
        &[(Kind::Reply, 6, 1)],
    ),
];

static PAYS: [Row; 1] = [Row(
    Told::Heard(Kind::Reply, 4, 1),
    (5, 5),
    Some(1),
    None,
    &[(Kind::Reply, 5, 0), (Kind::Update, 5, 1)],
)];

static KEEPS: [Row; 1] = [Row(
    Told::Heard(Kind::Reply, 20, 1),
    (8, 6),
    Some(0),
    Some((3, BOTH, Some(0))),
    &[(Kind::Query, 8, 0), (Kind::Query, 8, 1)],
)];

#[test]
fn the_debt_is_paid(rt: HostRuntime) {
    goes(&rt, rt.alloc(), None, &IS_ASKED_TWICE, &PAYS);
}

#[test]
fn the_debt_is_kept(rt: HostRuntime) {
    goes(&rt, rt.alloc(), None, &IS_ASKED_TWICE, &KEEPS);
}

// The attachment grows dearer, twice while the neighbours are asked, and a neighbour takes its place.
static GROWS_DEARER: [Row; 6] = [
    Row(Told::Nothing, (3, 3), Some(2), None, &[]),
    Row(Told::Heard(Kind::Update, 4, 0), (3, 3), Some(2), None, &[]),
    Row(
        Told::Attached(8),
        (8, 3),
        Some(2),
        Some((1, BOTH, None)),
        &[(Kind::Query, 8, 0), (Kind::Query, 8, 1)],
    ),
    Row(
        Told::Attached(12),
        (8, 3),
        Some(2),
        Some((0, BOTH, None)),
        &[],
    ),
    Row(
        Told::Heard(Kind::Reply, 4, 0),
        (8, 3),
        Some(2),
        Some((0, ONLY_1, None)),
        &[],
    ),
    Row(
        Told::Heard(Kind::Reply, INF, 1),
        (5, 5),
        Some(0),
        None,
        &[(Kind::Update, 5, 0), (Kind::Update, 5, 1)],
    ),
];

#[test]
fn the_attachment_grows_dearer(rt: HostRuntime) {
    let attachment = cost(&rt, 3);
    goes(&rt, rt.alloc(), Some(attachment), &GROWS_DEARER, &[]);
}

static IS_LOST: [Row; 5] = [
    Row(
        Told::Heard(Kind::Update, 4, 0),
        (5, 5),
        Some(0),
        None,
        &[(Kind::Update, 5, 0), (Kind::Update, 5, 1)],
    ),
    Row(
        Told::Attached(1),
        (1, 1),
        Some(2),
        None,
        &[(Kind::Update, 1, 0), (Kind::Update, 1, 1)],
    ),
    Row(
        Told::Detached,
        (INF, 1),
        None,
        Some((1, BOTH, None)),
        &[(Kind::Query, INF, 0), (Kind::Query, INF, 1)],
    ),
    Row(
        Told::Heard(Kind::Reply, INF, 1),
        (INF, 1),
        None,
        Some((1, ONLY_0, None)),
        &[],
    ),
    Row(
        Told::Heard(Kind::Reply, 4, 0),
        (5, 5),
        Some(0),
        None,
        &[(Kind::Update, 5, 0), (Kind::Update, 5, 1)],
    ),
];

#[test]
fn the_attachment_is_lost(rt: HostRuntime) {
    goes(&rt, rt.alloc(), None, &IS_LOST, &[]);
}

#[test]
fn room_for_messages_is_made(rt: HostRuntime) {
    let mut sends = Sends::new(rt.alloc());
    sends.reserve(3).expect(&rt, "memory");
    assert!(rt; sends.as_slice().is_empty());
}
