//! Calls that take memory. Each is refused, and changes nothing, where a heap has too little left, be it
//! 0, 16, 32 or more bytes; once there is room it ends as if it had never been refused.

use crate::array_images::{copy_five, set_two};
use crate::equal_to::{equal, holds};
use crate::links::one_link;
use crate::values::{addr, cost, prefix, update};
use crate::word_images::set_words;
use dual_machine::{Cost, Distance, Event, Kind, Machine, PortInfo, Sends};
use image_compiler::compile;
use link_fifo::{LinkRefusal, Links};
use linked_list_allocator::LocalHeap as Heap;
use network_model::{End, Held, Item, Port, SmallAllocator};
use release_gate::Gate;
use route_table::{Entry, RouteTable};
use router_core::Router;
use std::alloc::Global;
use std::process::Abort;
use test_support::ten;
use tree_bitmap::Image;

// More than each of the calls takes.
pub(crate) const ROOM: usize = 4096;

// What a heap gives is a multiple of so many bytes.
const UNIT: usize = 16;

#[derive(Clone, Copy)]
enum Call {
    // A machine opens over so many ports.
    Open(usize),
    // A machine hears an update.
    Event,
    // A table takes its first row.
    Set,
    // A gate takes its first message.
    Hold,
    // A link comes up, of which each end is told.
    Up,
    // An image of a table of two rows.
    Compile,
    // An image of an array takes two rows, is copied, or made anew.
    SetTwo,
    CopyFive(bool),
    // An image with words takes two rows.
    SetWords,
    // A router takes the notice that its link came up.
    AcceptNotice,
    // A router takes the first message of a prefix.
    AcceptMessage,
}

impl Call {
    // Whether the call is refused with so many bytes left.
    fn is_refused(self, rt: &impl Abort, alloc: Global, left: usize) -> bool {
        let heap = Heap::new(alloc, ROOM).expect(rt, "memory");
        self.is_refused_by(rt, alloc, &heap, left)
    }

    fn is_refused_by(self, rt: &impl Abort, alloc: Global, heap: &Heap, left: usize) -> bool {
        match self {
            Call::Open(count) => open(rt, heap, left, count),
            Call::Event => hear(rt, heap, left),
            Call::Set => set(rt, heap, left),
            Call::Hold => hold(rt, heap, left),
            Call::Up => come_up(rt, heap, left),
            Call::Compile => compile_two(rt, alloc, heap, left),
            Call::SetTwo => set_two(rt, heap, left),
            Call::CopyFive(anew) => copy_five(rt, heap, left, anew),
            Call::SetWords => set_words(rt, heap, left),
            Call::AcceptNotice => accept_notice(rt, heap, left),
            Call::AcceptMessage => accept_message(rt, heap, left),
        }
    }
}

// The call is refused with little left, and from some room on never more.
fn needs_room(rt: &impl Abort, alloc: Global, call: Call) {
    let mut refused = 0;
    for units in 0..128usize {
        if call.is_refused(rt, alloc, units * UNIT) {
            equal(rt, refused, units);
            refused = units + 1;
        }
    }
    holds(rt, refused > 0);
    holds(rt, refused < 128);
}

// Takes all of the heap but so many bytes, until it is dropped.
pub(crate) fn ballast<'h>(rt: &impl Abort, heap: &'h Heap, left: usize) -> Vec<u8, &'h Heap> {
    Vec::with_capacity(heap, heap.free().saturating_sub(left)).expect(rt, "memory")
}

// 32 ports, each up at cost 1.
const PORTS: [PortInfo; 32] = [PortInfo {
    up: true,
    cost: Cost::ONE,
}; 32];

// What a machine shows.
fn shown<A: SmallAllocator>(machine: &Machine<A>) -> (Distance, Distance, Option<u8>, bool) {
    (
        machine.rd(),
        machine.fd(),
        machine.successor(),
        machine.is_passive(),
    )
}

// A machine over no port, or so many, that has heard nothing.
fn is_new(rt: &impl Abort, machine: &Machine<&Heap>, count: usize) {
    equal(
        rt,
        shown(machine),
        (Distance::INF, Distance::INF, None, true),
    );
    for port in 0..32u8 {
        equal(
            rt,
            machine.neighbour(port).is_some(),
            usize::from(port) < count,
        );
    }
}

// Whether a machine is refused with so many bytes left.
fn is_not_opened(rt: &impl Abort, heap: &Heap, left: usize, ports: &[PortInfo]) -> bool {
    let _weight = ballast(rt, heap, left);
    holds(rt, ports.len() <= PORTS.len());
    let made = Machine::new(heap, None, ports);
    if let Ok(machine) = &made {
        is_new(rt, machine, ports.len());
    }
    made.is_err()
}

fn open(rt: &impl Abort, heap: &Heap, left: usize, count: usize) -> bool {
    holds(rt, count <= PORTS.len());
    let is_refused = is_not_opened(rt, heap, left, &PORTS[..count]);
    if is_refused {
        equal(rt, heap.used(), 0);
        holds(rt, !is_not_opened(rt, heap, ROOM, &PORTS[..count]));
    }
    is_refused
}

const UPDATE: Event = Event::Message {
    port: 0,
    kind: Kind::Update,
    value: Distance::ZERO,
};

// Whether an update is refused with so many bytes left.
fn is_not_heard<'h>(
    rt: &impl Abort,
    heap: &Heap,
    left: usize,
    machine: &mut Machine<&'h Heap>,
    sends: &mut Sends<&'h Heap>,
) -> bool {
    let _weight = ballast(rt, heap, left);
    holds(rt, machine.is_timely(UPDATE));
    machine.event(UPDATE, sends).is_err()
}

fn hear(rt: &impl Abort, heap: &Heap, left: usize) -> bool {
    let mut machine = Machine::new(heap, None, &PORTS[..2]).expect(rt, "room");
    let mut sends = Sends::new(heap);
    let before = shown(&machine);
    let is_refused = is_not_heard(rt, heap, left, &mut machine, &mut sends);
    if is_refused {
        equal(rt, (shown(&machine), sends.as_slice().len()), (before, 0));
        holds(rt, !is_not_heard(rt, heap, ROOM, &mut machine, &mut sends));
    }
    let after = (Distance::new(1), Distance::new(1), Some(0), true);
    equal(rt, (shown(&machine), sends.as_slice().len()), (after, 2));
    is_refused
}

// Whether a row is refused with so many bytes left.
fn is_not_set(rt: &impl Abort, heap: &Heap, left: usize, table: &mut RouteTable<&Heap>) -> bool {
    let _weight = ballast(rt, heap, left);
    table.set(ten(), Entry::Local).is_err()
}

fn set(rt: &impl Abort, heap: &Heap, left: usize) -> bool {
    let mut table = RouteTable::new(heap);
    let is_refused = is_not_set(rt, heap, left, &mut table);
    if is_refused {
        equal(rt, (table.len(), table.get(ten())), (0, None));
        holds(rt, !table.is_changed());
        holds(rt, !is_not_set(rt, heap, ROOM, &mut table));
    }
    equal(rt, (table.len(), table.get(ten())), (1, Some(Entry::Local)));
    equal(rt, table.published(ten()), None);
    is_refused
}

// An update that leaves by this port.
fn held(port: u8) -> Held {
    Held {
        port,
        session: 1,
        message: update(),
    }
}

// Whether a message is refused with so many bytes left.
fn is_not_held(rt: &impl Abort, heap: &Heap, left: usize, gate: &mut Gate<&Heap>) -> bool {
    let _weight = ballast(rt, heap, left);
    gate.hold(held(0)).is_err()
}

fn hold(rt: &impl Abort, heap: &Heap, left: usize) -> bool {
    let mut gate = Gate::new(heap);
    let is_refused = is_not_held(rt, heap, left, &mut gate);
    if is_refused {
        equal(rt, gate.held(), 0);
        holds(rt, !is_not_held(rt, heap, ROOM, &mut gate));
    }
    gate.ripen();
    equal(rt, (gate.held(), gate.release()), (1, Some(held(0))));
    is_refused
}

// Whether the link is up, and how many notices each end has yet to take.
fn is_at(rt: &impl Abort, links: &Links<&Heap>, up: bool, notices: usize) {
    holds(rt, !links.is_empty());
    let queued = (links.queued(0, End::A), links.queued(0, End::B));
    equal(rt, (links.is_up(0), queued), (up, (notices, notices)));
}

// Whether the link may not come up with so many bytes left.
fn is_not_up(rt: &impl Abort, heap: &Heap, left: usize, links: &mut Links<&Heap>) -> bool {
    let _weight = ballast(rt, heap, left);
    matches!(links.up(0), Err(LinkRefusal::NoMemory))
}

fn come_up(rt: &impl Abort, heap: &Heap, left: usize) -> bool {
    let mut links = one_link(rt, heap);
    let is_refused = is_not_up(rt, heap, left, &mut links);
    if is_refused {
        is_at(rt, &links, false, 0);
        holds(rt, !is_not_up(rt, heap, ROOM, &mut links));
    }
    is_at(rt, &links, true, 1);
    is_refused
}

// Whether an image is refused with so many bytes left. One that is not answers by the table's two rows.
fn is_not_compiled(rt: &impl Abort, heap: &Heap, left: usize, table: &RouteTable) -> bool {
    let _weight = ballast(rt, heap, left);
    let image = compile(heap, table);
    if let Ok(image) = &image {
        answers_by_two(rt, image);
    }
    image.is_err()
}

// A refusal leaves nothing behind.
fn compile_two(rt: &impl Abort, alloc: Global, heap: &Heap, left: usize) -> bool {
    let mut table = RouteTable::new(alloc);
    table.set(ten(), Entry::Local).expect(rt, "memory");
    let narrow = prefix(rt, "10.1.0.0/16");
    table.set(narrow, Entry::Unreachable).expect(rt, "memory");
    let is_refused = is_not_compiled(rt, heap, left, &table);
    if is_refused {
        equal(rt, heap.used(), 0);
        holds(rt, !is_not_compiled(rt, heap, ROOM, &table));
    }
    is_refused
}

fn answers_by_two(rt: &impl Abort, image: &Image<&Heap>) {
    let narrow = (prefix(rt, "10.1.0.0/16"), Entry::Unreachable);
    equal(rt, image.lookup(addr(rt, "10.1.0.1")), Some(narrow));
    let wide = (ten(), Entry::Local);
    equal(rt, image.lookup(addr(rt, "10.2.0.1")), Some(wide));
}

// A router with one port, at cost 5, that is down.
fn one_port<A: SmallAllocator>(rt: &impl Abort, alloc: A) -> Router<A> {
    let port = Port {
        up: false,
        session: 0,
        cost: cost(rt, 5),
    };
    let ports = vec![in alloc; port].expect(rt, "memory");
    Router::new(alloc, ports, &[]).expect(rt, "memory")
}

// Takes the item, where it may be taken.
fn take<A: SmallAllocator>(rt: &impl Abort, router: &mut Router<A>, item: Item) {
    holds(rt, router.can_take(0, &item));
    router.accept(0, &item).expect(rt, "memory");
}

// The link comes up.
fn up(rt: &impl Abort) -> Item {
    Item::Up {
        session: 1,
        cost: cost(rt, 5),
    }
}

// What a router shows: how many rows it has chosen and messages it holds, and whether it would publish.
fn told(router: &Router<&Heap>) -> (usize, usize, bool) {
    (router.table().len(), router.held(), router.due())
}

// Whether an item is refused with so many bytes left.
fn is_not_taken(
    rt: &impl Abort,
    heap: &Heap,
    left: usize,
    router: &mut Router<&Heap>,
    item: &Item,
) -> bool {
    let _weight = ballast(rt, heap, left);
    holds(rt, router.can_take(0, item));
    router.accept(0, item).is_err()
}

fn accept(
    rt: &impl Abort,
    heap: &Heap,
    left: usize,
    router: &mut Router<&Heap>,
    item: &Item,
) -> bool {
    let before = told(router);
    let is_refused = is_not_taken(rt, heap, left, router, item);
    if is_refused {
        equal(rt, told(router), before);
        holds(rt, !is_not_taken(rt, heap, ROOM, router, item));
    }
    is_refused
}

fn accept_notice(rt: &impl Abort, heap: &Heap, left: usize) -> bool {
    let mut router = one_port(rt, heap);
    let is_refused = accept(rt, heap, left, &mut router, &up(rt));
    holds(rt, router.can_take(0, &Item::Message(update())));
    is_refused
}

fn accept_message(rt: &impl Abort, heap: &Heap, left: usize) -> bool {
    let mut router = one_port(rt, heap);
    take(rt, &mut router, up(rt));
    let is_refused = accept(rt, heap, left, &mut router, &Item::Message(update()));
    equal(rt, told(&router), (1, 1, true));
    is_refused
}

#[test]
fn a_machine_of_more_than_four_ports_needs_room_to_open(rt: HostRuntime) {
    needs_room(&rt, rt.alloc(), Call::Open(5));
    needs_room(&rt, rt.alloc(), Call::Open(32));
}

#[test]
fn a_machine_needs_room_for_what_it_sends(rt: HostRuntime) {
    needs_room(&rt, rt.alloc(), Call::Event);
}

#[test]
fn a_table_needs_room_for_a_new_row(rt: HostRuntime) {
    needs_room(&rt, rt.alloc(), Call::Set);
}

#[test]
fn a_gate_needs_room_for_a_message(rt: HostRuntime) {
    needs_room(&rt, rt.alloc(), Call::Hold);
}

#[test]
fn a_link_needs_room_for_its_notices(rt: HostRuntime) {
    needs_room(&rt, rt.alloc(), Call::Up);
}

#[test]
fn an_image_needs_room_for_its_nodes(rt: HostRuntime) {
    needs_room(&rt, rt.alloc(), Call::Compile);
}

#[test]
fn an_image_of_an_array_needs_room_for_its_blocks(rt: HostRuntime) {
    needs_room(&rt, rt.alloc(), Call::SetTwo);
    needs_room(&rt, rt.alloc(), Call::CopyFive(false));
    needs_room(&rt, rt.alloc(), Call::CopyFive(true));
}

#[test]
fn an_image_with_words_needs_room_for_its_cells(rt: HostRuntime) {
    needs_room(&rt, rt.alloc(), Call::SetWords);
}

#[test]
fn a_router_needs_room_for_a_new_prefix(rt: HostRuntime) {
    needs_room(&rt, rt.alloc(), Call::AcceptMessage);
}

#[test]
fn a_router_without_prefixes_needs_no_room_for_a_notice(rt: HostRuntime) {
    holds(&rt, !Call::AcceptNotice.is_refused(&rt, rt.alloc(), 0));
}
