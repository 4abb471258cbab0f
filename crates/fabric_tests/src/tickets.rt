//! Tickets: what is refused while a router's writer is out, and what the journal has afterwards.

ghost use Rattle.std.specs.Prelude.{◌≡◌, false};

use crate::equal_to::{equal, holds};
use crate::fabrics::{LEARNS, Trial, two};
use fabric::{Fabric, FabricName, Refusal, Step, Ticket};
use network_model::SmallAllocator;
use std::alloc::Global;
use std::process::Abort;
use std::sync::Wait;
use tracer::{Ending, TraceFault, trace};

// An address of the prefix of router 0.
const ADDR: u32 = 0x0A00_0001;

// The fabric takes it back.
pub fn give_back<B: FabricName, A: SmallAllocator, H: Wait + Abort>(
    rt: &H,
    fabric: &mut Fabric<B, A>,
    ticket: Ticket<B, A>,
) {
    if let Err(ticket) = fabric.give_back(ticket) {
        ticket.close(rt);
        panic!(rt; "not back");
    }
}

// No ticket is made.
fn refuses<B: FabricName, H: Wait + Abort>(
    rt: &H,
    fabric: &mut Fabric<B>,
    router: u16,
    wanted: Refusal,
) {
    match fabric.ticket(router) {
        Ok(ticket) => {
            ticket.close(rt);
            panic!(rt; "a ticket");
        }
        Err(refusal) => equal(rt, refusal, wanted),
    }
}

fn steps<B: FabricName, H: Wait + Abort>(
    rt: &H,
    fabric: &mut Fabric<B>,
    step: Step,
    wanted: Result<(), Refusal>,
) {
    equal(rt, fabric.step(rt, step), wanted);
}

// So many steps are in the journal.
fn has_steps<B: FabricName>(rt: &impl Abort, fabric: &Fabric<B>, steps: usize) {
    equal(rt, fabric.journal().len(), steps);
}

// What waits for the writer of router 1 while it is out, and what does not.
fn is_busy<B: FabricName, H: Wait + Abort>(rt: &H, fabric: &mut Fabric<B>) {
    for (step, refusal) in [
        (Step::Deliver { router: 1, port: 0 }, Refusal::Busy),
        (Step::Deliver { router: 1, port: 9 }, Refusal::Busy),
        (Step::Publish { router: 1 }, Refusal::Busy),
        (Step::Publish { router: 2 }, Refusal::UnknownRouter),
        (Step::Publish { router: 0 }, Refusal::NothingDue),
    ] {
        steps(rt, fabric, step, Err(refusal));
    }
    refuses(rt, fabric, 1, Refusal::Busy);
    equal(rt, fabric.next_step(1), None);
    has_steps(rt, fabric, 6);
}

// How a packet for the prefix of router 0 ends at router 1.
fn ends<B: FabricName>(
    rt: &impl Abort,
    alloc: Global,
    fabric: &mut Fabric<B>,
    wanted: Result<Ending, TraceFault>,
) {
    let end = trace(fabric, alloc, 1, ADDR).map(|t| t.end);
    equal(rt, end, wanted);
}

// From router 1 on, the next turn is this router's, and no turn was missed.
fn has_turn<B: FabricName>(rt: &impl Abort, fabric: &mut Fabric<B>, router: u16) {
    let turn = fabric.turn_from(1).map(|turn| turn.0);
    equal(rt, turn, Some(router));
    equal(rt, fabric.missed_turns(), 0);
}

// The writer of router 1 publishes, while the fabric goes on.
fn goes_on<B: FabricName, H: Wait + Abort>(
    rt: &H,
    alloc: Global,
    fabric: &mut Fabric<B>,
    mut ticket: Ticket<B>,
)
    requires { ticket.is_published ≡ false }
{
    steps(rt, fabric, Step::LinkDown { link: 0 }, Ok(()));
    has_steps(rt, fabric, 7);
    has_turn(rt, fabric, 0);
    ends(rt, alloc, fabric, Ok(Ending::NoRoute));
    holds(rt, ticket.publish(rt).is_ok());
    has_steps(rt, fabric, 7);
    ends(rt, alloc, fabric, Err(TraceFault::Stale));
    give_back(rt, fabric, ticket);
    has_steps(rt, fabric, 8);
    has_published(rt, alloc, fabric);
    has_turn(rt, fabric, 1);
}

// The publication is the last step, and its link is down.
fn has_published<B: FabricName>(rt: &impl Abort, alloc: Global, fabric: &mut Fabric<B>) {
    let last = fabric.journal().last().copied();
    equal(rt, last, Some(Step::Publish { router: 1 }));
    let after = trace(fabric, alloc, 1, ADDR).expect(rt, "trace");
    equal(rt, after.end, Ending::DeadLink);
    equal(rt, after.path.as_slice(), [1u16].as_slice());
}

pub(crate) fn lends<B: FabricName, H: Wait + Abort>(rt: &H, alloc: Global, fabric: &mut Fabric<B>) {
    let ran = fabric.run(rt, &LEARNS[..6]);
    equal(rt, (ran.done, ran.refusal), (6, None));
    refuses(rt, fabric, 2, Refusal::UnknownRouter);
    refuses(rt, fabric, 0, Refusal::NothingDue);
    let ticket = fabric.ticket(1).expect(rt, "ticket");
    give_back(rt, fabric, ticket);
    has_steps(rt, fabric, 6);
    let Ok(ticket) = fabric.ticket(1) else {
        panic!(rt; "ticket again");
    };
    is_busy(rt, fabric);
    goes_on(rt, alloc, fabric, ticket);
}

#[test]
fn goes_on_while_a_writer_is_out(rt: HostRuntime) {
    two(&rt, rt.alloc(), Trial::LendsAWriter);
}
