//! A pool of workers.

ghost use Rattle.std.specs.Prelude.{◌≡◌, ◌+◌, ◌≤◌, ◌⊎◌, ◌++◌, ◌∷◌, [], Err, true, All, count_by, map, IfErr, IfOk, MatchResult, vec_len};
ghost use Rattle.std.specs.{List.list_any, List.Sorted.IsStrictlyIncreasing, Vec.vec_capacity};
ghost use Rattle.network_model.specs.{declared.step.Refusal.TheVariants.NoMemory as OutOfMemory, declared.step.Refusal.TheVariants.NoImage as WithoutImage, Network.most_workers};
ghost use Rattle.forwarder.specs.Gathering.{is_reply_to, job_number};
ghost use Rattle.worker_pool.specs.declared.fault.PoolFault.TheVariants.{Closed as IsClosed};
ghost use Rattle.worker_pool.specs.Faults.{IsBeginFault, IsInjectFault, IsWorkFault, IsDrainFault};

use crate::fault::{NotBegun, PoolFault};
use forwarder::{FabricName, ForwardPort, Job, JobGate, Reply, Worked, gather, work};
use network_model::{NoMemory, Refusal};
use packet_queue::{Injector, PacketQueue, Taker};
use std::alloc::Global;
use std::marker::Model;
use std::sync::Wait;
use std::thread;
use std::thread::{Promise, PromisedHandle, Threads};

/// Workers that take jobs from one queue, each in a thread of its own. It is not `Drop`: end it by
/// `drain` or `end`, which wait for every thread. Contracts see how many workers there are, and the
/// jobs that they were given, in order.
pub struct WorkerPool<B: FabricName> {
    injector: Injector<B>,
    running: Vec<Running<B>>,
    jobs: Vec<Job<B>>,
    // Room for the workers' ports.
    ports: Vec<ForwardPort<B>>,
}

impl<B: FabricName> Model for WorkerPool<B> {
    ghost use Rattle.std.specs.Prelude.{◌≡◌, ◌≤◌, [], vec_len};
    ghost use Rattle.std.specs.Vec.{vec_capacity};
    ghost use Rattle.worker_pool.specs.Crews.{Crew};

    ghost Value = { Crew B };

    ghost view = { λ p. record { workers = vec_len p.running; jobs = p.jobs.items } };

    ghost invariant = { λ p. (p.ports.items ≡ []) × (vec_len p.running ≤ vec_capacity p.ports) };
}

// Nobody watches the jobs of workers.
#[derive(Clone, Copy)]
struct Unwatched;

impl JobGate for Unwatched {
    fn before(&self, _job: u64) {}

    fn after(&self, _job: u64) {}
}

// A worker that is refused tells why.
#[derive(Drop)]
struct TellsWhy;

impl<B: FabricName> Promise<Worked<B>> for TellsWhy {
    ghost use Rattle.std.specs.Prelude.{◌≡◌, ◌⊎◌, IfErr};
    ghost use Rattle.network_model.specs.declared.step.Refusal.TheVariants.{NoMemory as OutOfMemory, NoImage as WithoutImage};

    ghost kept_by = { λ _ w. IfErr w.replies (λ e. (e ≡ OutOfMemory) ⊎ (e ≡ WithoutImage)) };
}

type Running<B> = PromisedHandle<Worked<B>, TellsWhy>;

// Begins a worker. If that is refused, nobody gives the others a job any more, and its port is handed back.
fn begin<B, R, G>(
    rt: R,
    alloc: Global,
    injector: Injector<B>,
    port: ForwardPort<B>,
    taker: Taker<B>,
    gate: &G,
) -> Result<(Injector<B>, Running<B>), (PoolFault, ForwardPort<B>)>
where
    B: FabricName + Send + Sync + 'static,
    R: Threads + Wait + Copy + Send + 'static,
    G: JobGate + Clone + Send + 'static,
    ensures { IfErr result (λ refused. IsBeginFault refused.0) }
{
    let Ok(gate) = gate.clone() else {
        return Err((PoolFault::Memory(NoMemory), port));
    };
    let worker = move || {
        let (port, taker) = (port, taker);
        work(&rt, alloc, port, taker, &gate)
    };
    match thread::spawn_with(&rt, TellsWhy, worker) {
        Ok(handle) => Ok((injector, handle)),
        Err(refused) => {
            // Without an injector it finds no job, so it ends at once.
            drop(injector);
            let worker = refused.value;
            Err((PoolFault::NoThread, worker().port))
        }
    }
}

// Waits for workers whom nobody gives a job any more, and adds their ports to these, which have room for them.
fn end_all<B: FabricName, R: Threads>(
    rt: &R,
    running: Vec<Running<B>>,
    ports: Vec<ForwardPort<B>>,
) -> Vec<ForwardPort<B>>
    requires fits { vec_len ports + vec_len running ≤ vec_capacity ports }
    ensures { vec_len result ≡ vec_len ports + vec_len running }
{
    let (mut running, mut ports) = (running, ports);
    while let Some(handle) = running.pop() {
        ports.push_reserved(handle.join(rt).port);
    }
    ports
}

impl<B: FabricName + Send + Sync + 'static> WorkerPool<B> {
    /// Begins a worker for each port, at most 16; there may be none. Refused with `NoThread` if there is
    /// no thread for one of them, or with `Memory`: it has waited for those that it began, and hands all
    /// ports back, in any order.
    pub fn new<R>(
        rt: R,
        alloc: Global,
        ports: Vec<ForwardPort<B>>,
    ) -> Result<WorkerPool<B>, NotBegun<B>>
    where
        R: Threads + Wait + Copy + Send + 'static,
        requires few { vec_len ports ≤ most_workers }
        ensures jobs { IfOk result (λ p. p.jobs ≡ []) }
        ensures workers { IfOk result (λ p. p.workers ≡ vec_len ports) }
        ensures err { IfErr result (λ e. IsBeginFault e.fault) }
        ensures ports { IfErr result (λ e. vec_len e.ports ≡ vec_len ports) }
    {
        WorkerPool::watched(rt, alloc, ports, &Unwatched)
    }

    /// The same, of workers that call this gate at each of their jobs: each has a clone of it.
    pub fn watched<R, G>(
        rt: R,
        alloc: Global,
        ports: Vec<ForwardPort<B>>,
        gate: &G,
    ) -> Result<WorkerPool<B>, NotBegun<B>>
    where
        R: Threads + Wait + Copy + Send + 'static,
        G: JobGate + Clone + Send + 'static,
        requires few { vec_len ports ≤ most_workers }
        ensures jobs { IfOk result (λ p. p.jobs ≡ []) }
        ensures workers { IfOk result (λ p. p.workers ≡ vec_len ports) }
        ensures err { IfErr result (λ e. IsBeginFault e.fault) }
        ensures ports { IfErr result (λ e. vec_len e.ports ≡ vec_len ports) }
    {
        let Ok(mut running) = Vec::with_capacity(alloc, ports.len()) else {
            return Err(without_memory(ports));
        };
        let Ok(room) = Vec::with_capacity(alloc, ports.len()) else {
            return Err(without_memory(ports));
        };
        let Ok((injector, takers)) = PacketQueue::new::<B, _>(alloc, ports.len() as u8) else {
            return Err(without_memory(ports));
        };
        let (mut injector, mut ports, mut takers) = (injector, ports, takers);
        while let Some(port) = ports.pop() {
            let Some(taker) = takers.pop() else {
                unreachable!()
            };
            match begin(rt, alloc, injector, port, taker, gate) {
                Ok((kept, handle)) => {
                    injector = kept;
                    running.push_reserved(handle);
                }
                Err((fault, port)) => {
                    ports.push_reserved(port);
                    let ports = end_all(&rt, running, ports);
                    return Err(NotBegun { fault, ports });
                }
            }
        }
        Ok(WorkerPool {
            injector,
            running,
            jobs: Vec::new(alloc),
            ports: room,
        })
    }
}

impl<B: FabricName> WorkerPool<B> {
    /// Gives the workers a job. It waits where 64 jobs wait already. Refused with `Closed` where there
    /// are no workers, or the queue hands the job back, or with `Memory`.
    pub fn inject<R: Wait>(&mut self, rt: &R, job: Job<B>) -> Result<(), PoolFault>
        ensures jobs { MatchResult result
            (λ _. (self.new).jobs ≡ (self.old).jobs ++ job ∷ [])
            (λ _. (self.new).jobs ≡ (self.old).jobs) }
        ensures workers { (self.new).workers ≡ (self.old).workers }
        ensures none { (self.old).workers ≡ 0 → result ≡ Err IsClosed }
        ensures err { IfErr result IsInjectFault }
    {
        if self.running.is_empty() {
            return Err(PoolFault::Closed);
        }
        if self.jobs.reserve(1).is_err() {
            return Err(PoolFault::Memory(NoMemory));
        }
        let kept = job.again();
        if self.injector.inject(rt, job).is_err() {
            return Err(PoolFault::Closed);
        }
        self.jobs.push_reserved(kept);
        Ok(())
    }

    /// Waits until the workers have answered all jobs and ended. Gives their ports back, and for each
    /// job the one reply to it, in order of the jobs' numbers. Refused with `Memory`; with `Refused`,
    /// where a worker was refused memory or had no image; or with `Gather`.
    pub fn drain<R: Threads + Wait>(
        self,
        rt: &R,
        alloc: Global,
    ) -> (Vec<ForwardPort<B>>, Result<Vec<Reply<B>>, PoolFault>)
        ensures ports { vec_len result.0 ≡ self.workers }
        ensures order { IfOk result.1 (λ rs. IsStrictlyIncreasing (map job_number rs.items)) }
        ensures each { IfOk result.1 (λ rs. All
            (λ j. count_by (is_reply_to j) rs.items ≡ 1) self.jobs) }
        ensures only { IfOk result.1 (λ rs. All
            (λ r. list_any (λ j. is_reply_to j r) self.jobs ≡ true) rs.items) }
        ensures fault { IfErr result.1 (IsDrainFault self.jobs) }
    {
        let WorkerPool {
            mut injector,
            mut running,
            jobs,
            mut ports,
        } = self;
        let _ = injector.stop(rt);
        drop(injector);
        let mut replies = Ok(Vec::new(alloc));
        while let Some(handle) = running.pop() {
            let Worked {
                port,
                taker: _,
                replies: own,
            } = handle.join(rt);
            ports.push_reserved(port);
            replies = with_replies(replies, own);
        }
        (ports, gather_all(&jobs, replies))
    }

    /// Waits until the workers have ended, and lets their replies go. They answer the jobs that wait
    /// first. Gives their ports back; it takes no memory.
    pub fn end<R: Threads>(self, rt: &R) -> Vec<ForwardPort<B>>
        ensures { vec_len result ≡ self.workers }
    {
        let WorkerPool {
            injector,
            running,
            jobs: _,
            ports,
        } = self;
        drop(injector);
        end_all(rt, running, ports)
    }
}

// No worker has begun, because memory was refused.
fn without_memory<B: FabricName>(ports: Vec<ForwardPort<B>>) -> NotBegun<B>
    ensures fault { IsBeginFault result.fault }
    ensures ports { vec_len result.ports ≡ vec_len ports }
{
    NotBegun {
        fault: PoolFault::Memory(NoMemory),
        ports,
    }
}

// The replies with those of one worker more.
fn with_replies<B: FabricName>(
    replies: Result<Vec<Reply<B>>, PoolFault>,
    own: Result<Vec<Reply<B>>, Refusal>,
) -> Result<Vec<Reply<B>>, PoolFault>
    requires so_far { IfErr replies IsWorkFault }
    requires own { IfErr own (λ e. (e ≡ OutOfMemory) ⊎ (e ≡ WithoutImage)) }
    ensures { IfErr result IsWorkFault }
{
    let mut replies = replies?;
    let mut own = match own {
        Ok(own) => own,
        Err(refusal) => return Err(PoolFault::Refused(refusal)),
    };
    match replies.append(&mut own) {
        Ok(()) => Ok(replies),
        Err(_) => Err(PoolFault::Memory(NoMemory)),
    }
}

// The replies to these jobs, in order.
fn gather_all<B: FabricName>(
    jobs: &[Job<B>],
    replies: Result<Vec<Reply<B>>, PoolFault>,
) -> Result<Vec<Reply<B>>, PoolFault>
    requires { IfErr replies IsWorkFault }
    ensures order { IfOk result (λ rs. IsStrictlyIncreasing (map job_number rs.items)) }
    ensures each { IfOk result (λ rs. All (λ j. count_by (is_reply_to j) rs.items ≡ 1) jobs.now) }
    ensures only { IfOk result (λ rs. All
        (λ r. list_any (λ j. is_reply_to j r) jobs.now ≡ true) rs.items) }
    ensures fault { IfErr result (IsDrainFault jobs.now) }
{
    match gather(jobs, replies?) {
        Ok(replies) => Ok(replies),
        Err(fault) => Err(PoolFault::Gather(fault)),
    }
}
