//! An end of a queue that takes.

ghost use Rattle.std.specs.Prelude.{◌≡◌, ◌<◌, ◌^◌, ◌++◌, ◌∷◌, [], sum_by, MatchOption};
ghost use Rattle.crossbeam_channel.specs.{Claims.view, Claims.IsSeatAt, Ends.receives_on};
ghost use Rattle.packet_queue.specs.Hands.{hand, one_job};

use crate::message::Taken;
use crate::rule::{Fair, Hand, Takes};
use crossbeam_channel::{Pass, RuledReceiver};
use publication::FabricName;
use std::alloc::{Allocator, Global};
use std::sync::Wait;

/// An end that takes.
#[derive(Drop)]
pub struct Taker<B: FabricName, A: Allocator = Global> {
    pub(crate) receiver: RuledReceiver<Taken<B>, Hand<B>, Fair, A>,
    pub(crate) pass: Pass<Taken<B>, Hand<B>>,
    // How many jobs it has taken.
    pub(crate) jobs: u64,
    ghost here: { IsSeatAt (receives_on receiver) pass },
    ghost one_part: { (view pass).parts ≡ 1 },
    ghost nothing: { (view pass).put ≡ [] },
    ghost counted: { jobs ≡ sum_by one_job (view pass).taken },
    ghost fits: { jobs < 2 ^ 64 },
}

impl<B: FabricName, A: Allocator> Taker<B, A> {
    ghost use Rattle.packet_queue.specs.Ends.{takes_from, taken_by};

    /// Takes the message at the front, and waits for one. None where the queue is empty and its
    /// injector is gone. After 2^64 - 1 jobs it waits for ever.
    pub fn next<R: Wait>(&mut self, rt: &R) -> Option<Taken<B>>
        ensures same { takes_from self.new ≡ takes_from self.old }
        ensures taken { MatchOption result
            (taken_by self.new ≡ taken_by self.old)
            (λ x. taken_by self.new ≡ taken_by self.old ++ x ∷ []) }
    {
        if self.jobs == u64::MAX {
            for _ in rt.forever() {}
            unreachable!()
        }
        let Ok(taken) = self.receiver.recv_as::<Takes, R>(rt, &mut self.pass) else {
            return None;
        };
        if let Taken::Job(_) = &taken {
            self.jobs += 1;
        }
        Some(taken)
    }

    // A taker that has taken nothing.
    pub(crate) fn new(
        receiver: RuledReceiver<Taken<B>, Hand<B>, Fair, A>,
        pass: Pass<Taken<B>, Hand<B>>,
    ) -> Taker<B, A>
        requires here { IsSeatAt (receives_on receiver) pass }
        requires fresh { view pass ≡ hand 1 [] [] }
        ensures { (result.receiver ≡ receiver) × (view result.pass ≡ hand 1 [] []) }
    {
        Taker {
            receiver,
            pass,
            jobs: 0,
        }
    }
}
