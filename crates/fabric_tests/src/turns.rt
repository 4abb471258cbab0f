//! Turns of a course between other steps: the hint has each router that has something to do.

use crate::equal_to::{equal, holds};
use crate::scripts::{Shape, made};
use course::{Course, Order, Step, Stepping, Turns, settle};
use network_model::Cost;
use test_support::ten;

// The step for a number that was drawn: two in three are turns, and of the others many are refused.
fn drawn(course: &mut Course, draw: u16) -> Option<Step> {
    let place = draw % 3;
    let (prefix, cost) = (ten(), Cost::ONE);
    match draw / 3 % 15 {
        0 | 1 => Some(Step::LinkUp { link: place }),
        2 => Some(Step::LinkDown { link: place }),
        3 => Some(Step::Attach {
            router: place,
            prefix,
            cost,
        }),
        4 => Some(Step::Detach {
            router: place,
            prefix,
        }),
        _ => course.turn_from(place).map(|turn| turn.1),
    }
}

#[test]
fn no_turn_is_missed(rt: HostRuntime) {
    let network = made(&rt, rt.alloc(), Shape::Triangle(5));
    let mut course = Course::open(rt.alloc(), network).expect(&rt, "memory");
    let mut draws = Turns::new(Order::Seeded(82), 60_000);
    for _ in 0..3000u16 {
        if let Some(step) = drawn(&mut course, draws.from()) {
            let _ = course.step(step);
        }
        draws.after(0);
    }
    holds(&rt, course.steps() > 1000);
    let ran = settle(&mut course, Order::Cyclic, 10_000);
    let end = (ran.refusal, course.is_settled());
    equal(&rt, (end, course.missed_turns()), ((None, true), 0));
}
