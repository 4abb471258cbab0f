//! A new queue.

ghost use Rattle.std.specs.Prelude.{◌≡◌, [], All, IfOk, length};
ghost use Rattle.packet_queue.specs.Ends.{put_by, taken_by, workers_of, AreAllEnds};

use crate::injector::Injector;
use crate::message::Taken;
use crate::rule::{Cut, Fair, Hand};
use crate::taker::Taker;
use crossbeam_channel::bounded_with;
use network_model::NoMemory;
use publication::FabricName;
use std::alloc::Allocator;

const PLACES: usize = 64;

/// A queue from one injector to several workers.
pub struct PacketQueue;

impl PacketQueue {
    /// A queue of 64 places, with an end for each worker. With no workers it is closed.
    pub fn new<B: FabricName, A: Allocator + Copy>(
        alloc: A,
        workers: u8,
    ) -> Result<(Injector<B, A>, Vec<Taker<B, A>, A>), NoMemory>
        ensures all { IfOk result (λ r. AreAllEnds r.0 r.1.items) }
        ensures workers { IfOk result (λ r. (length r.1.items ≡ workers)
            × (workers_of r.0 ≡ workers)) }
        ensures empty { IfOk result (λ r. (put_by r.0 ≡ [])
            × All (λ t. taken_by t ≡ []) r.1.items) }
    {
        let Ok((sender, receiver, mut pass)) = bounded_with::<Taken<B>, Hand<B>, Fair, A>(
            alloc, PLACES,
        ) else {
            return Err(NoMemory);
        };
        let mut takers = Vec::with_capacity(alloc, usize::from(workers))?;
        for _i in 0..workers {
            let theirs = sender.another::<Cut>(&mut pass);
            let Ok(receiver) = receiver.try_clone() else {
                return Err(NoMemory);
            };
            takers.push_reserved(Taker::new(receiver, theirs));
        }
        Ok((Injector::new(sender, pass, workers), takers))
    }
}
