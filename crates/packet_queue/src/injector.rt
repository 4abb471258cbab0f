//! The end of a queue that puts.

ghost use Rattle.std.specs.Prelude.{◌≡◌, ◌<◌, ◌≤◌, ◌==◌, ◌++◌, ◌∷◌, [], ℕ, replicate, sum_by, MatchBool, MatchResult};
ghost use Rattle.packet_queue.specs.declared.message.Taken.TheVariants as T;
ghost use Rattle.crossbeam_channel.specs.{Claims.view, Claims.IsSeatAt, Ends.sends_on};
ghost use Rattle.packet_queue.specs.Hands.{one_job};

use crate::message::Taken;
use crate::rule::{Fair, Hand, Puts};
use crossbeam_channel::{Pass, RuledSender};
use publication::{FabricName, Job};
use std::alloc::{Allocator, Global};
use std::sync::Wait;

/// The end that puts.
#[derive(Drop)]
pub struct Injector<B: FabricName, A: Allocator = Global> {
    pub(crate) sender: RuledSender<Taken<B>, Hand<B>, Fair, A>,
    pub(crate) pass: Pass<Taken<B>, Hand<B>>,
    pub(crate) workers: u8,
    // How many jobs it has put.
    pub(crate) jobs: u64,
    ghost here: { IsSeatAt (sends_on sender) pass },
    ghost some_part: { 0 < (view pass).parts },
    ghost nothing: { (view pass).taken ≡ [] },
    ghost counted: { jobs ≡ sum_by one_job (view pass).put },
}

impl<B: FabricName, A: Allocator> Injector<B, A> {
    ghost use Rattle.packet_queue.specs.Ends.{put_by, workers_of, IsSameInjector};

    /// How many workers the queue was made for.
    pub fn workers(&self) -> u8
        ensures { result ≡ workers_of self.now }
    {
        self.workers
    }

    /// Puts a job at the back, and waits for a place there. A job handed back changed nothing: the
    /// queue is closed. After 2^64 - 1 jobs it waits for ever.
    pub fn inject<R: Wait>(&mut self, rt: &R, job: Job<B>) -> Result<(), Job<B>>
        ensures same { IsSameInjector self.old self.new }
        ensures put { MatchResult result
            (λ _. put_by self.new ≡ put_by self.old ++ T.Job job ∷ [])
            (λ back. (back ≡ job) × (put_by self.new ≡ put_by self.old)) }
    {
        if self.jobs == u64::MAX {
            for _ in rt.forever() {}
            unreachable!()
        }
        let sent = self
            .sender
            .send_as::<Puts, R>(rt, &mut self.pass, Taken::Job(job));
        match sent {
            Ok(()) => {
                self.jobs += 1;
                Ok(())
            }
            Err(refused) => match refused.into_inner() {
                Taken::Job(back) => Err(back),
                Taken::Stop => unreachable!(),
            },
        }
    }

    /// Puts a stop message for each worker, and says whether it put them all. Where one was handed
    /// back, those put before it stay.
    pub fn stop<R: Wait>(&mut self, rt: &R) -> bool
        ensures same { IsSameInjector self.old self.new }
        ensures put { (n : ℕ) × (n ≤ workers_of self.old)
            × (result ≡ (n == workers_of self.old))
            × (put_by self.new ≡ put_by self.old ++ replicate n T.Stop) }
    {
        for _i in 0..self.workers {
            if !self.stop_one(rt) {
                return false;
            }
        }
        true
    }

    fn stop_one<R: Wait>(&mut self, rt: &R) -> bool
        ensures same { IsSameInjector self.old self.new }
        ensures put { MatchBool result
            (put_by self.new ≡ put_by self.old ++ T.Stop ∷ [])
            (put_by self.new ≡ put_by self.old) }
    {
        self.sender
            .send_as::<Puts, R>(rt, &mut self.pass, Taken::Stop)
            .is_ok()
    }

    // An injector that has put nothing.
    pub(crate) fn new(
        sender: RuledSender<Taken<B>, Hand<B>, Fair, A>,
        pass: Pass<Taken<B>, Hand<B>>,
        workers: u8,
    ) -> Injector<B, A>
        requires here { IsSeatAt (sends_on sender) pass }
        requires fresh { (0 < (view pass).parts) × ((view pass).put ≡ [])
            × ((view pass).taken ≡ []) }
        ensures { (result.sender ≡ sender) × (view result.pass ≡ view pass)
            × (result.workers ≡ workers) }
    {
        Injector {
            sender,
            pass,
            workers,
            jobs: 0,
        }
    }
}
