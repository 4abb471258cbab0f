//! Replies put in order of their jobs.

ghost use Rattle.std.specs.Prelude.{◌≡◌, ◌==◌, true, [], map, All, IsPermutation, count_by, IfOk, MatchResult, Some, None};
ghost use Rattle.std.specs.{List.list_any, List.list_all, List.Sorted.IsNonDecreasingBy, List.Sorted.IsStrictlyIncreasing};
ghost use Rattle.forwarder.specs.Gathering.{is_reply_to, job_number, fault_at, fault_in, fault_of};

use crate::reply::Reply;
use faults::FaultKind;
use publication::{FabricName, Job};
use std::alloc::Allocator;
use thiserror::Error;

/// Why replies are not those to the jobs.
#[derive(Clone, Copy, Debug, PartialEq, Eq, Drop, Error)]
#[error("{}", FaultKind::from(*self))]
pub enum GatherFault {
    /// A reply to a job that is not in the list.
    Stranger,
    /// Two replies to one job.
    Doubled,
    /// No reply to a job.
    Missing,
}

impl From<GatherFault> for FaultKind {
    ghost use Rattle.forwarder.specs.Gathering.{gather_kind};

    ghost from_gives = { λ fault k. k ≡ gather_kind fault };

    fn from(fault: GatherFault) -> FaultKind {
        match fault {
            GatherFault::Stranger => FaultKind::Stranger,
            GatherFault::Doubled => FaultKind::Doubled,
            GatherFault::Missing => FaultKind::Missing,
        }
    }
}

// Whether a reply keeps the number, the router and the address of a job.
fn is_to<B: FabricName>(job: &Job<B>, reply: &Reply<B>) -> bool
    ensures { result ≡ is_reply_to job.now reply.now }
{
    reply.job().number == job.number
        && reply.job().router() == job.router()
        && reply.job().addr == job.addr
}

fn has_job<B: FabricName>(jobs: &[Job<B>], reply: &Reply<B>) -> bool
    ensures { result ≡ list_any (λ j. is_reply_to j reply.now) jobs.now }
{
    jobs.iter().any(|job| is_to(job, reply))
}

fn has_reply<B: FabricName>(replies: &[Reply<B>], job: &Job<B>) -> bool
    ensures { result ≡ list_any (is_reply_to job.now) replies.now }
{
    replies.iter().any(|reply| is_to(job, reply))
}

fn has_number<B: FabricName>(replies: &[Reply<B>], number: u64) -> bool
    ensures { result ≡ list_any (λ r. job_number r == number) replies.now }
{
    replies.iter().any(|reply| reply.job().number == number)
}

fn check_one<B: FabricName>(
    jobs: &[Job<B>],
    earlier: &[Reply<B>],
    reply: &Reply<B>,
) -> Result<(), GatherFault>
    ensures { MatchResult result (λ _. fault_at jobs.now earlier.now reply.now ≡ None)
        (λ e. fault_at jobs.now earlier.now reply.now ≡ Some e) }
{
    if !has_job(jobs, reply) {
        return Err(GatherFault::Stranger);
    }
    if has_number(earlier, reply.job().number) {
        return Err(GatherFault::Doubled);
    }
    Ok(())
}

fn check_replies<B: FabricName>(jobs: &[Job<B>], replies: &[Reply<B>]) -> Result<(), GatherFault>
    ensures { MatchResult result (λ _. fault_in jobs.now [] replies.now ≡ None)
        (λ e. fault_in jobs.now [] replies.now ≡ Some e) }
{
    for i in 0..replies.len() {
        check_one(jobs, &replies[..i], &replies[i])?;
    }
    Ok(())
}

fn has_all<B: FabricName>(jobs: &[Job<B>], replies: &[Reply<B>]) -> bool
    ensures { result ≡ list_all (λ j. list_any (is_reply_to j) replies.now) jobs.now }
{
    jobs.iter().all(|job| has_reply(replies, job))
}

fn in_order<B: FabricName, A: Allocator>(mut replies: Vec<Reply<B>, A>) -> Vec<Reply<B>, A>
    ensures given { IsPermutation replies.items result.items }
    ensures order { IsNonDecreasingBy job_number result.items }
{
    replies.sort_unstable_by_key(|reply| reply.job().number);
    replies
}

/// For each job the one given reply to it, in order of the jobs' numbers. Each reply in turn is
/// tested for a stranger's, then for a second one; a missing one comes last. It takes no memory.
pub fn gather<B: FabricName, A: Allocator>(
    jobs: &[Job<B>],
    replies: Vec<Reply<B>, A>,
) -> Result<Vec<Reply<B>, A>, GatherFault>
    ensures fault { MatchResult result (λ _. fault_of jobs.now replies.items ≡ None)
        (λ e. fault_of jobs.now replies.items ≡ Some e) }
    ensures given { IfOk result (λ v. IsPermutation replies.items v.items) }
    ensures order { IfOk result (λ v. IsStrictlyIncreasing (map job_number v.items)) }
    ensures each { IfOk result (λ v. All (λ j. count_by (is_reply_to j) v.items ≡ 1) jobs.now) }
    ensures only { IfOk result (λ v. All
        (λ r. list_any (λ j. is_reply_to j r) jobs.now ≡ true) v.items) }
{
    check_replies(jobs, replies.as_slice())?;
    if !has_all(jobs, replies.as_slice()) {
        return Err(GatherFault::Missing);
    }
    Ok(in_order(replies))
}
