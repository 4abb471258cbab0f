//! Scripts of steps. Of each step the first, second, third .. allocation is refused, alone or with all behind
//! it, until an attempt meets no refusal. A refused attempt changes nothing that can be read, and the end is
//! that of the run which is never refused.

ghost use Rattle.std.specs.Prelude.{◌≡◌, vec_len};
ghost use Rattle.fabric.specs.Writers.{opening_tables};

use crate::equal_to::{equal, holds};
use crate::tickets::give_back;
use fabric::{
    Entry, Fabric, FabricName, ImageReader, Network, Prefix, Refusal, Step, Ticket, Unnamed,
};
use linked_list_allocator::LocalHeap;
use network_model::{Cost, Distance, SmallAllocator};
use router_core::Router;
use std::alloc::{AllocError, Global};
use std::fmt;
use std::fmt::Write;
use std::marker::Brand;
use std::process::Abort;
use std::sync::Wait;
use test_support::{Refused, Refusing, link, ten, two_routers};

// More allocations than a call makes.
const MOST: u64 = 4096;

// More bytes than an opening takes.
const HEAP: usize = 64 << 20;

// An address of 10.0.0.0/8.
const ADDR: u32 = 0x0A00_0001;

// What is done: a step; steps until nothing is left to do, after so many links came up or at once; or a
// publication by a ticket, with a step while the writer is out.
#[derive(Clone, Copy)]
enum Act {
    Do(Step),
    Start(u16),
    Settle,
    Lend(u16, Step),
}

// A router that is passive for a prefix, with its RD and FD, and the port and session of the row that it
// published; none where that is unreachable.
type End = (u16, Prefix, u32, u32, Option<(u8, u16)>);

// The networks: two routers; three in a triangle, of which one link has this cost; three in a line.
#[derive(Clone, Copy)]
pub(crate) enum Shape {
    Two,
    Triangle(u32),
    Line,
}

// A script, and some of what the network shows at its end.
#[derive(Clone, Copy)]
struct Case<'a> {
    shape: Shape,
    script: &'a [Act],
    ends: &'a [End],
}

// Which allocation of a call is refused first, and whether all behind it are.
#[derive(Clone, Copy)]
struct Sweep {
    first: u64,
    all: bool,
}

// Where a script runs: what reports are made of, the memory of the fabric, and what is refused of it.
#[derive(Drop)]
struct Means<'m, H> {
    rt: &'m H,
    alloc: Global,
    memory: &'m Refusing<Global>,
    sweep: Sweep,
}

// The fabric of a script.
type Tried<'m, B> = Fabric<B, &'m Refusing<Global>>;

impl<H: Abort> Means<'_, H> {
    // Refuses the n-th allocation of the call to come.
    fn refuse(&self, nth: u64) {
        self.memory.refuse(if self.sweep.all {
            Refused::From(nth)
        } else {
            Refused::One(nth)
        });
    }

    // Whether that was met, when it ends.
    fn was_met(&self, has_failed: bool) -> bool {
        self.memory.was_met(has_failed).expect(self.rt, "refusal")
    }
}

// Shows it on a line.
fn print<T: fmt::Debug>(out: &mut String, shown: &T) -> Result<(), AllocError> {
    writeln!(out, "{shown:?}")
}

// What is shown of a router.
fn print_router<A: SmallAllocator + fmt::Debug>(
    out: &mut String,
    router: &Router<A>,
    notices: usize,
) -> Result<(), AllocError> {
    let waiting = (router.held(), router.ripe(), router.front());
    print(out, &(router.generation(), waiting, notices))?;
    for number in 0..3u8 {
        print(out, &router.port(number))?;
    }
    print_rows(out, router)
}

// What is shown of each prefix.
fn print_rows<A: SmallAllocator + fmt::Debug>(
    out: &mut String,
    router: &Router<A>,
) -> Result<(), AllocError> {
    for row in router.table().rows() {
        let published = router.table().published(row.0);
        print(out, &(row, published, router.machine(row.0)))?;
    }
    Ok(())
}

// What is shown of each router, link and step, and what the images answer.
fn print_network<B: FabricName, A: SmallAllocator + fmt::Debug>(
    out: &mut String,
    fabric: &mut Fabric<B, A>,
) -> Result<(), AllocError> {
    print(out, &(fabric.journal(), fabric.world().links()))?;
    for number in 0..3u16 {
        print(out, &(number, fabric.lookup(number, ADDR)))?;
        let world = fabric.world();
        if usize::from(number) < world.routers().len() {
            print_router(out, world.router(number), world.notices(number))?;
        }
    }
    Ok(())
}

// All that a network of at most three routers shows, line by line.
fn report_of<B: FabricName, A: SmallAllocator + fmt::Debug>(
    rt: &impl Abort,
    alloc: Global,
    fabric: &mut Fabric<B, A>,
) -> String {
    let mut report = String::new(alloc);
    print_network(&mut report, fabric).expect(rt, "memory");
    report
}

// It shows what it showed before.
fn is_unchanged<B: FabricName, A: SmallAllocator + fmt::Debug>(
    rt: &impl Abort,
    alloc: Global,
    fabric: &mut Fabric<B, A>,
    before: &String,
) {
    holds(rt, report_of(rt, alloc, fabric) == *before);
}

// Whether the step is done, of which this allocation is refused.
fn is_done<B: FabricName, H: Wait + Abort>(
    on: &Means<'_, H>,
    fabric: &mut Tried<'_, B>,
    next: &Step,
    nth: u64,
) -> bool {
    on.refuse(nth);
    let end = fabric.step(on.rt, *next);
    on.was_met(end.is_err());
    holds(on.rt, matches!(end, Ok(()) | Err(Refusal::NoMemory)));
    end.is_ok()
}

// Does a step, of which one allocation after another is refused before.
fn step<B: FabricName, H: Wait + Abort>(on: &Means<'_, H>, fabric: &mut Tried<'_, B>, next: &Step) {
    let before = report_of(on.rt, on.alloc, fabric);
    for nth in on.sweep.first..MOST + 1 {
        if is_done(on, fabric, next, nth) {
            return;
        }
        is_unchanged(on.rt, on.alloc, fabric, &before);
    }
    panic!(on.rt; "refused for ever");
}

// The ticket of a router, unless this allocation is refused to it.
fn ticket<'h, B: FabricName, H: Abort>(
    on: &Means<'_, H>,
    fabric: &mut Tried<'h, B>,
    router: u16,
    nth: u64,
) -> Option<Ticket<B, &'h Refusing<Global>>> {
    on.refuse(nth);
    let end = fabric.ticket(router);
    on.was_met(end.is_err());
    match end {
        Ok(ticket) => Some(ticket),
        Err(refusal) => {
            equal(on.rt, refusal, Refusal::NoMemory);
            None
        }
    }
}

// A router's writer goes out, after as many refusals.
fn lent<'h, B: FabricName, H: Abort>(
    on: &Means<'_, H>,
    fabric: &mut Tried<'h, B>,
    router: u16,
) -> Ticket<B, &'h Refusing<Global>> {
    let before = report_of(on.rt, on.alloc, fabric);
    for nth in on.sweep.first..MOST + 1 {
        if let Some(ticket) = ticket(on, fabric, router, nth) {
            return ticket;
        }
        is_unchanged(on.rt, on.alloc, fabric, &before);
    }
    panic!(on.rt; "refused for ever");
}

// Whether the ticket is published, of which this allocation is refused.
fn is_published<'h, B: FabricName, H: Wait + Abort>(
    on: &Means<'_, H>,
    ticket: &mut Ticket<B, &'h Refusing<Global>>,
    nth: u64,
) -> bool {
    if ticket.is_published() {
        panic!(on.rt; "published by a refused call");
    }
    on.refuse(nth);
    let end = ticket.publish(on.rt);
    on.was_met(end.is_err());
    end.is_ok()
}

// The ticket is published, after as many refusals.
fn publish_ticket<'h, B: FabricName, H: Wait + Abort>(
    on: &Means<'_, H>,
    fabric: &mut Tried<'h, B>,
    ticket: &mut Ticket<B, &'h Refusing<Global>>,
) {
    let before = report_of(on.rt, on.alloc, fabric);
    for nth in on.sweep.first..MOST + 1 {
        if is_published(on, ticket, nth) {
            return;
        }
        is_unchanged(on.rt, on.alloc, fabric, &before);
    }
    panic!(on.rt; "refused for ever");
}

// A router publishes by a ticket, and a step is done while the writer is out.
fn lend<B: FabricName, H: Wait + Abort>(
    on: &Means<'_, H>,
    fabric: &mut Tried<'_, B>,
    router: u16,
    next: &Step,
) {
    let mut ticket = lent(on, fabric, router);
    step(on, fabric, next);
    publish_ticket(on, fabric, &mut ticket);
    give_back(on.rt, fabric, ticket);
}

// The first three routers take turns until nothing is left to do.
fn settle<B: FabricName, H: Wait + Abort>(on: &Means<'_, H>, fabric: &mut Tried<'_, B>) {
    for turn in 0..1000u16 {
        if fabric.is_settled() {
            return;
        }
        if let Some(next) = fabric.next_step(turn % 3) {
            step(on, fabric, &next);
        }
    }
    panic!(on.rt; "never at rest");
}

// So many links come up, and all settles.
fn start<B: FabricName, H: Wait + Abort>(on: &Means<'_, H>, fabric: &mut Tried<'_, B>, links: u16) {
    for link in 0..links {
        step(on, fabric, &Step::LinkUp { link });
    }
    settle(on, fabric);
}

// Runs the script, and gives what the network shows then.
fn run<B: FabricName, H: Wait + Abort>(
    on: &Means<'_, H>,
    fabric: &mut Tried<'_, B>,
    case: &Case<'_>,
) -> String {
    for &next in case.script {
        match next {
            Act::Do(next) => step(on, fabric, &next),
            Act::Settle => settle(on, fabric),
            Act::Start(links) => start(on, fabric, links),
            Act::Lend(router, next) => lend(on, fabric, router, &next),
        }
    }
    are_at(on.rt, fabric, case.ends);
    report_of(on.rt, on.alloc, fabric)
}

// The router of an end is so.
fn is_at<A: SmallAllocator>(rt: &impl Abort, router: &Router<A>, end: &End) {
    let &(_number, prefix, rd, fd, row) = end;
    let machine = router.machine(prefix).expect(rt, "machine");
    let (successor, entry) = match row {
        Some((port, session)) => (Some(port), Entry::Via { port, session }),
        None => (None, Entry::Unreachable),
    };
    equal(
        rt,
        (machine.is_passive(), machine.rd(), machine.fd()),
        (true, Distance::new(rd), Distance::new(fd)),
    );
    let published = router.table().published(prefix);
    equal(
        rt,
        (machine.successor(), published),
        (successor, Some(entry)),
    );
}

// Each of these routers is so.
fn are_at<B: FabricName, A: SmallAllocator>(rt: &impl Abort, fabric: &Fabric<B, A>, ends: &[End]) {
    for end in ends {
        let router = fabric.world().routers().get(usize::from(end.0));
        is_at(rt, router.expect(rt, "router"), end);
    }
}

// What the network shows once the script is run.
fn open_and_run<'h, B: FabricName, H: Wait + Abort>(
    on: &Means<'h, H>,
    network: Network,
    unnamed: Vec<Unnamed, &'h Refusing<Global>>,
    case: &Case<'_>,
) -> String
    requires books { unnamed.items ≡ B.books }
    requires each { vec_len unnamed ≡ network.routers }
    requires openings { opening_tables network ≡ B.openings }
{
    let Ok((mut fabric, _ports)) = Fabric::<B, _>::open(on.rt, on.memory, network, unnamed, 0)
    else {
        panic!(on.rt; "open");
    };
    let last = run(on, &mut fabric, case);
    fabric.close(on.rt);
    last
}

// Routers 0, 1 and 2, of which 0 is attached to 10.0.0.0/8 at cost 1; the links 0 1 and 1 2 at cost 1, and
// in a triangle 0 2 at this one. Router 1 has 0 at its port 0, and 2 has 1 there and 0 at port 1. In a line
// router 2 is attached to all, at cost 1.
pub(crate) fn made(rt: &impl Abort, alloc: Global, shape: Shape) -> Network {
    let mut links = vec![in alloc;
        link(0, 1, 1).expect(rt, "cost"),
        link(1, 2, 1).expect(rt, "cost"),
    ]
    .expect(rt, "memory");
    let mut attachments = vec![in alloc; (ten(), 0, Cost::ONE)].expect(rt, "memory");
    match shape {
        Shape::Two => return two_routers(alloc).expect(rt, "network"),
        Shape::Triangle(cost) => links
            .push(link(0, 2, cost).expect(rt, "cost"))
            .expect(rt, "memory"),
        Shape::Line => attachments.push((any(), 2, Cost::ONE)).expect(rt, "memory"),
    }
    Network::new(3, links, attachments).expect(rt, "network")
}

// What the network of a case shows at the end, and how many calls met a refusal.
fn end_of<H: Wait + Abort>(rt: &H, alloc: Global, case: &Case<'_>, sweep: Sweep) -> (String, u64) {
    let memory = Refusing::new(alloc);
    let network = made(rt, alloc, case.shape);
    let unnamed = Unnamed::many(&memory, network.routers()).expect(rt, "memory");
    let means = Means {
        rt,
        alloc,
        memory: &memory,
        sweep,
    };
    let end = open_and_run::<Brand, H>(&means, network, unnamed, case);
    (end, memory.met())
}

// The end is the same where memory runs out at each allocation, and where each alone is refused, up to
// the run that meets no refusal. A call that is done although its n-th allocation alone is refused meets
// the next one in the run that begins with it.
fn leads_to<H: Wait + Abort>(rt: &H, alloc: Global, shape: Shape, script: &[Act], ends: &[End]) {
    let case = Case {
        shape,
        script,
        ends,
    };
    let whole = Sweep {
        first: 1,
        all: true,
    };
    let (end, met) = end_of(rt, alloc, &case, whole);
    holds(rt, met > 0);
    for first in 1..MOST {
        let (again, met) = end_of(rt, alloc, &case, Sweep { first, all: false });
        holds(rt, again == end);
        if met == 0 {
            return;
        }
    }
    panic!(rt; "refused for ever");
}

// The prefix of all addresses.
fn any() -> Prefix {
    Prefix::covering(0, 0)
}

fn up(link: u16) -> Act {
    Act::Do(Step::LinkUp { link })
}

fn down(link: u16) -> Act {
    Act::Do(Step::LinkDown { link })
}

fn costs(rt: &impl Abort, router: u16, port: u8, cost: u32) -> Step {
    Step::SetCost {
        router,
        port,
        cost: Cost::new(cost).expect(rt, "cost"),
    }
}

fn attach(rt: &impl Abort, router: u16, cost: u32) -> Act {
    Act::Do(Step::Attach {
        router,
        prefix: ten(),
        cost: Cost::new(cost).expect(rt, "cost"),
    })
}

fn detach(router: u16) -> Act {
    Act::Do(Step::Detach {
        router,
        prefix: ten(),
    })
}

fn deliver(router: u16, port: u8) -> Act {
    Act::Do(Step::Deliver { router, port })
}

fn publish(router: u16) -> Act {
    Act::Do(Step::Publish { router })
}

fn release(router: u16) -> Act {
    Act::Do(Step::Release { router })
}

#[test]
fn a_link_comes_up_twice(rt: HostRuntime) {
    let script = [up(0), Act::Settle, down(0), up(0), Act::Settle];
    let ends = [(1, ten(), 6, 6, Some((0, 2)))];
    leads_to(&rt, rt.alloc(), Shape::Two, &script, &ends);
}

#[test]
fn a_writer_goes_out(rt: HostRuntime) {
    let script = [
        up(0),
        deliver(0, 0),
        deliver(1, 0),
        publish(0),
        release(0),
        deliver(1, 0),
        Act::Lend(1, costs(&rt, 1, 0, 10)),
        Act::Settle,
    ];
    let ends = [(1, ten(), 11, 6, Some((0, 1)))];
    leads_to(&rt, rt.alloc(), Shape::Two, &script, &ends);
}

#[test]
fn a_diffusing_computation_goes_round_a_triangle(rt: HostRuntime) {
    let script = [
        Act::Start(3),
        down(0),
        deliver(1, 0),
        publish(1),
        release(1),
        deliver(2, 0),
        publish(2),
        Act::Settle,
    ];
    let ends = [
        (1, ten(), 7, 7, Some((1, 1))),
        (2, ten(), 6, 3, Some((1, 1))),
    ];
    leads_to(&rt, rt.alloc(), Shape::Triangle(5), &script, &ends);
}

#[test]
fn a_cost_rises_twice(rt: HostRuntime) {
    let script = [
        Act::Start(3),
        Act::Do(costs(&rt, 1, 0, 10)),
        deliver(1, 0),
        Act::Do(costs(&rt, 1, 0, 20)),
        deliver(1, 0),
        Act::Settle,
    ];
    let ends = [
        (1, ten(), 14, 14, Some((1, 1))),
        (2, ten(), 13, 12, Some((1, 1))),
    ];
    leads_to(&rt, rt.alloc(), Shape::Triangle(12), &script, &ends);
}

#[test]
fn a_prefix_is_cut_off(rt: HostRuntime) {
    let script = [
        Act::Start(2),
        down(0),
        deliver(1, 0),
        publish(1),
        release(1),
        deliver(2, 0),
        Act::Settle,
    ];
    let ends = [
        (0, any(), u32::MAX, u32::MAX, None),
        (1, ten(), u32::MAX, u32::MAX, None),
        (2, ten(), u32::MAX, u32::MAX, None),
    ];
    leads_to(&rt, rt.alloc(), Shape::Line, &script, &ends);
}

// Router 2 has two notices when it takes the first.
#[test]
fn an_attachment_moves(rt: HostRuntime) {
    let script = [
        Act::Start(2),
        attach(&rt, 2, 5),
        attach(&rt, 2, 1),
        deliver(2, 1),
        detach(0),
        Act::Settle,
    ];
    let ends = [
        (0, ten(), 3, 3, Some((0, 1))),
        (1, ten(), 2, 2, Some((1, 1))),
    ];
    leads_to(&rt, rt.alloc(), Shape::Line, &script, &ends);
}

// Whether the opening met a refusal.
fn is_opening_refused_over<'m, B: FabricName, H: Wait + Abort>(
    rt: &H,
    memory: &'m Refusing<&'m LocalHeap>,
    network: Network,
    unnamed: Vec<Unnamed, &'m Refusing<&'m LocalHeap>>,
    refused: Refused,
) -> bool
    requires books { unnamed.items ≡ B.books }
    requires each { vec_len unnamed ≡ network.routers }
    requires openings { opening_tables network ≡ B.openings }
{
    memory.refuse(refused);
    let end = Fabric::<B, _>::open(rt, memory, network, unnamed, 1);
    let was_met = memory.was_met(end.is_err()).expect(rt, "refusal");
    end_opening(rt, end);
    was_met
}

// Closes what was opened, or looks at the refusal.
fn end_opening<B: FabricName, A: SmallAllocator, H: Wait + Abort>(
    rt: &H,
    end: Result<(Fabric<B, A>, Vec<Vec<ImageReader<B, A>, A>, A>), Refusal>,
) {
    match end {
        Ok((fabric, _ports)) => fabric.close(rt),
        Err(refusal) => {
            holds(
                rt,
                matches!(refusal, Refusal::NoMemory | Refusal::NoReaderPlace),
            );
        }
    }
}

// Whether an opening of two routers, and of a reader of each for one worker, meets a refusal of these. Nothing is left
// behind.
fn is_opening_refused<H: Wait + Abort>(rt: &H, alloc: Global, refused: Refused) -> bool {
    let heap = LocalHeap::new(alloc, HEAP).expect(rt, "memory");
    let memory = Refusing::new(&heap);
    let network = two_routers(alloc).expect(rt, "network");
    let unnamed = Unnamed::many(&memory, network.routers()).expect(rt, "room");
    let is_refused = is_opening_refused_over::<Brand, H>(rt, &memory, network, unnamed, refused);
    equal(rt, heap.used(), 0);
    is_refused
}

#[test]
fn an_opening_is_refused_at_each_allocation(rt: HostRuntime) {
    let mut last = 0;
    for nth in 1..MOST {
        let one = is_opening_refused(&rt, rt.alloc(), Refused::One(nth));
        let from = is_opening_refused(&rt, rt.alloc(), Refused::From(nth));
        equal(&rt, from, one);
        if !one {
            break;
        }
        last = nth;
    }
    holds(&rt, last > 0 && last < MOST - 1);
}
