use crate::equal_to::{equal, holds};
use crate::values::via;
use std::process::Abort;
use test_support::{ten, two_routers};
use world::{Refusal, Step, World};

// Does the step, or is refused so.
fn does(rt: &impl Abort, world: &mut World, step: Step, wanted: Result<(), Refusal>) {
    holds(rt, world.has_room_for(1));
    equal(rt, world.step(step), wanted);
}

// Router 1 learns the way of router 0, and publishes it.
const LEARNS: [Step; 7] = [
    Step::LinkUp { link: 0 },
    Step::Deliver { router: 0, port: 0 },
    Step::Deliver { router: 1, port: 0 },
    Step::Publish { router: 0 },
    Step::Release { router: 0 },
    Step::Deliver { router: 1, port: 0 },
    Step::Publish { router: 1 },
];

#[test]
fn a_world_learns_the_way(rt: HostRuntime) {
    let network = two_routers(rt.alloc()).expect(&rt, "network");
    let mut world = World::open(rt.alloc(), &network).expect(&rt, "memory");
    does(&rt, &mut world, LEARNS[1], Err(Refusal::NothingToDeliver));
    for step in LEARNS {
        does(&rt, &mut world, step, Ok(()));
    }
    holds(&rt, world.routers().len() == 2);
    let learned = world.router(1).table().published(ten());
    equal(&rt, learned, Some(via(0)));
}
