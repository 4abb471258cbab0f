//! What is left in a queue.

ghost use Rattle.std.specs.Prelude.{◌≡◌, List, length};
ghost use Rattle.publication.specs.declared.job.Job.{Job};
ghost use Rattle.packet_queue.specs.{declared.message.Taken.Taken, Jobs.jobs_of, Ends.AreAllEnds, Ends.AreJobsLeft, Ends.AreMessagesLeft};

use crate::injector::Injector;
use crate::rule::{Cut, Total};
use crate::taker::Taker;
use publication::FabricName;
use std::alloc::Allocator;

/// The number of jobs that are left in a queue, whose ends these are. It ends the queue.
pub fn reckon<B: FabricName, A: Allocator>(
    injector: Injector<B, A>,
    mut takers: Vec<Taker<B, A>, A>,
) -> u64
    requires { AreAllEnds injector takers.items }
    ensures messages { (left : List (Taken B)) × AreMessagesLeft injector takers.items left
        × (result ≡ length (jobs_of left)) }
    ensures jobs { (left : List (Job B)) × AreJobsLeft injector takers.items left
        × (result ≡ length left) }
{
    let Injector {
        sender,
        mut pass,
        workers: _,
        jobs,
    } = injector;
    let mut taken: u128 = 0;
    while let Some(taker) = takers.pop() {
        let Taker {
            receiver: _,
            pass: theirs,
            jobs,
        } = taker;
        sender.absorb::<Cut>(&mut pass, theirs);
        taken += jobs as u128;
    }
    sender.learn_as::<Total>(&mut pass);
    (jobs as u128 - taken) as u64
}
