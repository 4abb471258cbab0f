//! Jobs of a script, which workers answer.

ghost use Rattle.std.specs.Prelude.{◌≡◌, ◌≤◌, ◌++◌, ◌∷◌, [], None, true, All, IfOk, IfErr, IfSome, OnErr, OnOk, count_by, length, map, vec_len};
ghost use Rattle.std.specs.{List.list_any, List.Sorted.IsStrictlyIncreasing, Io.KnownBytes.Appends};
ghost use Rattle.network_model.specs.Network.{most_workers};
ghost use Rattle.fabric.specs.Writers.{IsReaderPort};
ghost use Rattle.forwarder.specs.Gathering.{is_reply_to, job_number};
ghost use Rattle.worker_pool.specs.Faults.{IsDrainFault};
ghost use Rattle.lines.specs.Report.{unknown_router};
ghost use Rattle.interpreter.specs.Dispatching.{CannotInject, CannotWork, IsNextJob, jobs_in, packets_text, workers_in};

use crate::host::Host;
use fabric::{Fabric, FabricName};
use faults::FaultKind;
use lines::{Answer, Asked, Line, Printer};
use network_model::NoMemory;
use publication::ImageReader;
use std::alloc::Global;
use std::io::Write;
use std::marker::Model;
use std::{io, mem};
use worker_pool::{ForwardPort, PoolFault, Reply, WorkerPool};

/// The workers of a run, and the jobs that they were given. They begin with the first job after a
/// `drain`; until then they are at rest, and their ports are here. Contracts see the jobs that wait for
/// a `drain`, in order, the number of the last job that was given, and how many workers there are. It is
/// not `Drop`: end it by `close`, so that no worker is left running.
pub struct Dispatcher<B: FabricName> {
    at_rest: Vec<ForwardPort<B>>,
    pool: Option<WorkerPool<B>>,
    last: u64,
}

impl<B: FabricName> Model for Dispatcher<B> {
    ghost use Rattle.std.specs.Prelude.{◌≡◌, ◌≤◌, IfSome, vec_len};
    ghost use Rattle.network_model.specs.Network.{most_workers};
    ghost use Rattle.interpreter.specs.Dispatching.{Dispatched, jobs_in, workers_in};

    ghost Value = { Dispatched B };

    ghost view = { λ d. record {
      jobs = jobs_in d.pool;
      last = d.last;
      workers = workers_in (vec_len d.at_rest) d.pool;
    } };

    ghost invariant = { λ d. (workers_in (vec_len d.at_rest) d.pool ≤ most_workers)
        × IfSome d.pool (λ _. vec_len d.at_rest ≡ 0) };
}

impl<B: FabricName + Send + Sync + 'static> Dispatcher<B> {
    /// Of workers with these ports, at most 16, which are at rest.
    pub fn new(ports: Vec<ForwardPort<B>>) -> Dispatcher<B>
        requires { vec_len ports ≤ most_workers }
        ensures jobs { result.jobs ≡ [] }
        ensures last { result.last ≡ 0 }
        ensures workers { result.workers ≡ vec_len ports }
    {
        Dispatcher {
            at_rest: ports,
            pool: None,
            last: 0,
        }
    }

    /// Gives the workers the next job: to look the address up at the router, in an image no older than
    /// the one in force now. Jobs are numbered from 1. Refused, it gives no job, takes no number, and
    /// keeps its workers: the next job may begin them.
    #[tactic(auto, using(crate::proofs::Dispatching::no_job, crate::proofs::Dispatching::not_taken))]
    pub fn inject<H: Host>(
        &mut self,
        rt: H,
        alloc: Global,
        fabric: &Fabric<B>,
        router: u16,
        addr: u32,
    ) -> Result<(), FaultKind>
        ensures ok { OnOk result ((job : _)
            × IsNextJob B.openings (fabric.now).images self.old.last router addr job
            × (self.new.jobs ≡ self.old.jobs ++ job ∷ []) × (self.new.last ≡ job.number)) }
        ensures refused { OnErr result ((self.new.jobs ≡ self.old.jobs)
            × (self.new.last ≡ self.old.last)) }
        ensures err { IfErr result (CannotInject (unknown_router (fabric.now).world router)) }
        ensures workers { self.new.workers ≡ self.old.workers }
    {
        let job = fabric.job(self.last.saturating_add(1), router, addr)?;
        let number = job.number;
        let mut pool = begun(rt, alloc, self.pool.take(), &mut self.at_rest)?;
        let given = pool.inject(&rt, job);
        // There are no others, since they were taken.
        if let Some(others) = self.pool.replace(pool) {
            drop(others.end(&rt));
        }
        match given {
            Ok(()) => {
                self.last = number;
                Ok(())
            }
            Err(fault) => Err(FaultKind::from(fault)),
        }
    }

    /// Waits until the workers have answered all jobs, and answers their replies: one to each job, in
    /// order of the jobs' numbers. Then the workers are at rest.
    pub fn drain<H: Host>(&mut self, rt: &H, alloc: Global) -> Result<Vec<Reply<B>>, PoolFault>
        ensures order { IfOk result (λ rs. IsStrictlyIncreasing (map job_number rs.items)) }
        ensures each { IfOk result (λ rs. All
            (λ j. count_by (is_reply_to j) rs.items ≡ 1) self.old.jobs) }
        ensures only { IfOk result (λ rs. All
            (λ r. list_any (λ j. is_reply_to j r) self.old.jobs ≡ true) rs.items) }
        ensures fault { IfErr result (IsDrainFault self.old.jobs) }
        ensures jobs { self.new.jobs ≡ [] }
        ensures last { self.new.last ≡ self.old.last }
        ensures workers { self.new.workers ≡ self.old.workers }
    {
        let Some(pool) = self.pool.take() else {
            return Ok(Vec::new(alloc));
        };
        let (ports, replies) = pool.drain(rt, alloc);
        self.at_rest = ports;
        replies
    }

    /// Waits until the workers have answered all jobs, answers their replies as `drain` does, and lets
    /// their ports go.
    pub fn close<H: Host>(self, rt: &H, alloc: Global) -> Result<Vec<Reply<B>>, PoolFault>
        ensures order { IfOk result (λ rs. IsStrictlyIncreasing (map job_number rs.items)) }
        ensures each { IfOk result (λ rs. All
            (λ j. count_by (is_reply_to j) rs.items ≡ 1) self.jobs) }
        ensures only { IfOk result (λ rs. All
            (λ r. list_any (λ j. is_reply_to j r) self.jobs ≡ true) rs.items) }
        ensures fault { IfErr result (IsDrainFault self.jobs) }
    {
        let mut drained = self;
        let replies = drained.drain(rt, alloc);
        let Dispatcher {
            at_rest: _,
            pool,
            last: _,
        } = drained;
        // There are none, since they were drained.
        if let Some(others) = pool {
            drop(others.end(rt));
        }
        replies
    }
}

// The workers, which begin if they are at rest. Refused, they stay so.
#[tactic(auto, using(crate::proofs::Dispatching::not_begun))]
fn begun<B: FabricName + Send + Sync + 'static, H: Host>(
    rt: H,
    alloc: Global,
    pool: Option<WorkerPool<B>>,
    at_rest: &mut Vec<ForwardPort<B>>,
) -> Result<WorkerPool<B>, FaultKind>
    requires few { workers_in (vec_len at_rest.old) pool ≤ most_workers }
    requires apart { IfSome pool (λ _. vec_len at_rest.old ≡ 0) }
    ensures jobs { IfOk result (λ p. p.jobs ≡ jobs_in pool) }
    ensures workers { IfOk result (λ p. p.workers ≡ workers_in (vec_len at_rest.old) pool) }
    ensures gone { OnOk result (vec_len at_rest.new ≡ 0) }
    ensures refused { OnErr result ((pool ≡ None) × (vec_len at_rest.new ≡ vec_len at_rest.old)) }
    ensures err { IfErr result CannotWork }
{
    if let Some(pool) = pool {
        return Ok(pool);
    }
    let ports = mem::replace(at_rest, Vec::new(alloc));
    match WorkerPool::new(rt, alloc, ports) {
        Ok(pool) => Ok(pool),
        Err(refused) => {
            *at_rest = refused.ports;
            Err(FaultKind::from(refused.fault))
        }
    }
}

/// The ports of workers that look up by these readers.
pub fn ports_of<B: FabricName>(
    alloc: Global,
    lists: Vec<Vec<ImageReader<B>>>,
) -> Result<Vec<ForwardPort<B>>, NoMemory>
    requires { All (λ readers. IsReaderPort (length B.books) readers.items) lists.items }
    ensures { IfOk result (λ ports. vec_len ports ≡ vec_len lists) }
{
    let mut ports = Vec::with_capacity(alloc, lists.len())?;
    for readers in lists {
        ports.push_reserved(ForwardPort::new(readers));
    }
    Ok(ports)
}

/// Prints what workers answered, a line for each reply, up to the first write that fails.
pub fn print_replies<B: FabricName, W: Write>(
    printer: &Printer<'_>,
    replies: &[Reply<B>],
    out: &mut W,
) -> io::Result<()>
    ensures { OnOk result (Appends (W.contents out.old) (W.contents out.new)
        (packets_text printer.now replies.now)) }
{
    for reply in replies {
        let job = reply.job();
        let found = reply.answer().matched;
        let answer = Answer {
            router: job.router(),
            addr: job.addr,
            found,
        };
        printer.print(&Line::Asked(Asked::Packet(job.number, answer)), out)?;
    }
    Ok(())
}
