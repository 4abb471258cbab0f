//! A worker: what takes jobs from a queue and answers them.

ghost use Rattle.std.specs.Prelude.{◌≡◌, ◌⊎◌, ◌<◌, ◌++◌, ◌∷◌, [], Err, length, map, IfOk, IfErr, MatchOption};
ghost use Rattle.network_model.specs.declared.step.Refusal.TheVariants.{NoMemory as OutOfMemory, NoImage as WithoutImage};
ghost use Rattle.packet_queue.specs.{Ends.takes_from, Ends.taken_by, Jobs.jobs_of};
ghost use Rattle.forwarder.specs.Ports.{AreLater};

use crate::port::ForwardPort;
use crate::reply::Reply;
use network_model::Refusal;
use packet_queue::{Taken, Taker};
use publication::{FabricName, Job};
use std::alloc::{Allocator, Global};
use std::sync::Wait;

/// What a worker meets at each job.
pub trait JobGate {
    /// Called once a job is taken, before its address is looked up.
    fn before(&self, job: u64);

    /// Called once a job is answered.
    fn after(&self, job: u64);
}

/// What a worker gives back when it ends.
#[derive(Drop)]
pub struct Worked<B: FabricName, A: Allocator = Global> {
    pub port: ForwardPort<B, A>,
    pub taker: Taker<B, A>,
    /// A reply to each job that it took, in the order in which it took them.
    pub replies: Result<Vec<Reply<B>, A>, Refusal>,
}

/// Takes jobs and answers them, until it takes a stop message or the queue is closed. Where its list
/// of replies cannot grow (`NoMemory`), or an answer has no image (`NoImage`), it goes on taking, and
/// tells the first such refusal in place of its replies, job by job as `with_reply` does.
pub fn work<B: FabricName, A: Allocator, R: Wait, G: JobGate>(
    rt: &R,
    alloc: A,
    port: ForwardPort<B, A>,
    taker: Taker<B, A>,
    gate: &G,
) -> Worked<B, A>
    ensures port { AreLater port result.port }
    ensures queue { takes_from result.taker ≡ takes_from taker }
    ensures replies { IfOk result.replies (λ rs. jobs_of (taken_by result.taker)
        ≡ jobs_of (taken_by taker) ++ map (λ r. r.job) rs.items) }
    ensures refused { IfErr result.replies (λ e. (e ≡ OutOfMemory) ⊎ (e ≡ WithoutImage)) }
    ensures some { IfErr result.replies
        (λ _. length (jobs_of (taken_by taker)) < length (jobs_of (taken_by result.taker))) }
{
    let mut port = port;
    let mut taker = taker;
    let mut replies = Ok(Vec::new(alloc));
    for _ in rt.forever() {
        let Some(job) = next_job(rt, &mut taker) else {
            break;
        };
        gate.before(job.number);
        replies = with_reply(replies, &mut port, &job);
        gate.after(job.number);
    }
    Worked {
        port,
        taker,
        replies,
    }
}

// The next job; none where a stop message comes, or the queue is closed.
#[tactic(auto, using(packet_queue::proofs::Jobs::jobs_of_job, packet_queue::proofs::Jobs::jobs_of_stop))]
fn next_job<B: FabricName, A: Allocator, R: Wait>(rt: &R, taker: &mut Taker<B, A>) -> Option<Job<B>>
    ensures queue { takes_from taker.new ≡ takes_from taker.old }
    ensures taken { MatchOption result
        (jobs_of (taken_by taker.new) ≡ jobs_of (taken_by taker.old))
        (λ job. jobs_of (taken_by taker.new) ≡ jobs_of (taken_by taker.old) ++ job ∷ []) }
{
    match taker.next(rt) {
        Some(Taken::Job(job)) => Some(job),
        _ => None,
    }
}

/// A worker's replies, with one to this job behind them. Where one before was refused, that refusal
/// stays; else it is refused with `NoMemory`, or with `NoImage`.
pub fn with_reply<B: FabricName, A: Allocator>(
    replies: Result<Vec<Reply<B>, A>, Refusal>,
    port: &mut ForwardPort<B, A>,
    job: &Job<B>,
) -> Result<Vec<Reply<B>, A>, Refusal>
    requires { IfErr replies (λ e. (e ≡ OutOfMemory) ⊎ (e ≡ WithoutImage)) }
    ensures later { AreLater port.old port.new }
    ensures ok { IfOk result (λ rs. IfOk replies
        (λ old. map (λ r. r.job) rs.items ≡ map (λ r. r.job) old.items ++ job.now ∷ [])) }
    ensures first { IfErr replies (λ e. result ≡ Err e) }
    ensures err { IfErr result (λ e. (e ≡ OutOfMemory) ⊎ (e ≡ WithoutImage)) }
{
    let mut replies = replies?;
    let reply = port.answer(job)?;
    replies.push(reply).map_err(|_| Refusal::NoMemory)?;
    Ok(replies)
}
