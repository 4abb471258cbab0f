//! Jobs at two routers, answered by workers.

ghost use Rattle.std.specs.Prelude.{◌≡◌, ◌≤◌, All, IfOk, length, map, vec_len};
ghost use Rattle.network_model.specs.Network.{most_workers};

use crate::equal_to::{equal, holds};
use crate::publications::via;
use forwarder::{Answer, GatherFault, ImageReader};
use network_model::{NoMemory, Refusal};
use publication::{Told, Unnamed, close_all, open_all};
use std::alloc::{AllocError, Global};
use std::marker::Brand;
use std::process::Abort;
use std::sync::atomic::{AtomicU64, Ordering};
use std::sync::{Arc, Wait};
use std::thread::Threads;
use std::time::Clock;
use test_support::{gets_to, ten};
use tree_bitmap::Image;
use tree_bitmap::parts::{empty, set_row};
use worker_pool::{FabricName, ForwardPort, Job, JobGate, PoolFault, Reply, WorkerPool};

// An image of 10.0.0.0/8 over the port that has the router's number.
fn image(rt: &impl Abort, alloc: Global, router: u8) -> Image
    ensures { result.generation ≡ 0 }
{
    let mut image = empty(alloc).expect(rt, "memory");
    set_row(&mut image, ten(), via(router)).expect(rt, "memory");
    image
}

// A port of the two routers.
fn port_of<B: FabricName>(
    rt: &impl Abort,
    alloc: Global,
    first: ImageReader<B>,
    second: ImageReader<B>,
) -> ForwardPort<B>
    requires { length B.books ≡ 2 }
{
    holds(rt, first.view().router() == 0);
    holds(rt, second.view().router() == 1);
    ForwardPort::new(vec![in alloc; first, second].expect(rt, "memory"))
}

// A port for each of so many workers.
fn ports_of<B: FabricName>(
    rt: &impl Abort,
    alloc: Global,
    workers: u8,
    mut lists: Vec<Vec<ImageReader<B>>>,
) -> Vec<ForwardPort<B>>
    requires { length B.books ≡ 2 }
{
    let mut seconds = lists.pop().expect(rt, "readers");
    let mut firsts = lists.pop().expect(rt, "readers");
    let mut ports = Vec::new(alloc);
    for _ in 0..workers {
        let first = firsts.pop().expect(rt, "reader");
        let second = seconds.pop().expect(rt, "reader");
        holds(rt, ports.push(port_of(rt, alloc, first, second)).is_ok());
    }
    ports
}

// What the two routers have published.
#[derive(Drop)]
struct Tolds<B: FabricName> {
    first: Told<B>,
    second: Told<B>,
}

impl<B: FabricName> Tolds<B> {
    // A job at the first router, where its number is even, and else at the second.
    fn job(&self, number: u8) -> Job<B> {
        let told = if number % 2 == 0 {
            self.first.again()
        } else {
            self.second.again()
        };
        Job {
            number: u64::from(number),
            addr: 0x0A01_0203,
            told,
        }
    }
}

// Gives the workers so many jobs, the greatest number first.
fn ask<B: FabricName, R: Wait + Abort>(rt: &R, pool: &mut WorkerPool<B>, tolds: &Tolds<B>, jobs: u8)
    ensures { pool.new.workers ≡ pool.old.workers }
{
    for place in 0..jobs {
        pool.inject(rt, tolds.job(jobs - 1 - place))
            .expect(rt, "job");
    }
}

// This is the reply to the job of a number, from its router.
fn is_right<B: FabricName>(rt: &impl Abort, reply: &Reply<B>, number: u8) {
    let (job, router) = (reply.job(), number % 2);
    let asked = (u64::from(number), u16::from(router));
    equal(rt, (job.number, job.router()), asked);
    let answer = Answer {
        generation: 0,
        matched: Some((ten(), via(router))),
    };
    equal(rt, reply.answer(), answer);
}

// There is one reply to each of so many jobs, in order of their numbers, from the router of each.
fn are_right<B: FabricName>(rt: &impl Abort, replies: &[Reply<B>], jobs: u8) {
    equal(rt, replies.len(), usize::from(jobs));
    for number in 0..jobs {
        is_right(
            rt,
            replies.get(usize::from(number)).expect(rt, "reply"),
            number,
        );
    }
}

// The ports of a pool that has answered so many jobs.
fn drained<B, R>(rt: &R, alloc: Global, pool: WorkerPool<B>, jobs: u8) -> Vec<ForwardPort<B>>
where
    B: FabricName + Send + Sync + 'static,
    R: Threads + Wait + Abort,
    ensures { vec_len result ≡ pool.workers }
{
    let (ports, replies) = pool.drain(rt, alloc);
    are_right(rt, &replies.expect(rt, "replies"), jobs);
    ports
}

// The workers of these ports answer so many jobs, and give the ports back.
fn answers<B, R>(
    rt: R,
    alloc: Global,
    ports: Vec<ForwardPort<B>>,
    tolds: &Tolds<B>,
    jobs: u8,
) -> Vec<ForwardPort<B>>
where
    B: FabricName + Send + Sync + 'static,
    R: Threads + Wait + Abort + Copy + Send + 'static,
    requires { vec_len ports ≤ most_workers }
    ensures { vec_len result ≡ vec_len ports }
{
    let mut pool = WorkerPool::new(rt, alloc, ports).expect(&rt, "workers");
    ask(&rt, &mut pool, tolds, jobs);
    drained(&rt, alloc, pool, jobs)
}

// How many jobs were taken, and how many of them waited in vain for another to be taken.
#[derive(Drop)]
struct Taken {
    taken: AtomicU64,
    missed: AtomicU64,
}

// Each of two jobs waits, once it is taken, until the other is taken too.
#[derive(Drop)]
struct Meeting<R> {
    rt: R,
    jobs: Arc<Taken, Global>,
}

impl<R: Clock + Copy> Clone for Meeting<R> {
    fn clone(&self) -> Result<Self, AllocError> {
        Ok(Meeting {
            rt: self.rt,
            jobs: Arc::try_clone(&self.jobs)?,
        })
    }
}

impl<R: Clock> JobGate for Meeting<R> {
    fn before(&self, _job: u64) {
        self.jobs.taken.fetch_add(1, Ordering::SeqCst);
        if !gets_to(&self.rt, &self.jobs.taken, 2) {
            self.jobs.missed.fetch_add(1, Ordering::SeqCst);
        }
    }

    fn after(&self, _job: u64) {}
}

// The workers of these ports take a job each.
fn meets<B, R>(rt: R, alloc: Global, ports: Vec<ForwardPort<B>>, tolds: &Tolds<B>)
where
    B: FabricName + Send + Sync + 'static,
    R: Threads + Wait + Abort + Clock + Copy + Send + 'static,
    requires { vec_len ports ≤ most_workers }
{
    let taken = Taken {
        taken: AtomicU64::new(0),
        missed: AtomicU64::new(0),
    };
    let jobs = Arc::new(alloc, taken).expect(&rt, "memory");
    let gate = Meeting { rt, jobs };
    let mut pool = WorkerPool::watched(rt, alloc, ports, &gate).expect(&rt, "workers");
    ask(&rt, &mut pool, tolds, 2);
    drained(&rt, alloc, pool, 2);
    equal(&rt, gate.jobs.taken.load(Ordering::SeqCst), 2);
    equal(&rt, gate.jobs.missed.load(Ordering::SeqCst), 0);
}

// Workers that are ended give their ports back, by which others answer.
fn answers_later<B, R>(rt: R, alloc: Global, ports: Vec<ForwardPort<B>>, tolds: &Tolds<B>)
where
    B: FabricName + Send + Sync + 'static,
    R: Threads + Wait + Abort + Copy + Send + 'static,
    requires { vec_len ports ≤ most_workers }
{
    let mut pool = WorkerPool::new(rt, alloc, ports).expect(&rt, "workers");
    ask(&rt, &mut pool, tolds, 70);
    let ports = pool.end(&rt);
    let ports = answers(rt, alloc, ports, tolds, 3);
    answers(rt, alloc, ports, tolds, 0);
}

// Three jobs, two of them with one number, or all of them at ports without an image, have this fault.
fn has_fault<B, R>(
    rt: R,
    alloc: Global,
    ports: Vec<ForwardPort<B>>,
    tolds: &Tolds<B>,
    fault: PoolFault,
)
where
    B: FabricName + Send + Sync + 'static,
    R: Threads + Wait + Abort + Copy + Send + 'static,
    requires { vec_len ports ≤ most_workers }
{
    let mut pool = WorkerPool::new(rt, alloc, ports).expect(&rt, "workers");
    ask(&rt, &mut pool, tolds, 2);
    pool.inject(&rt, tolds.job(1)).expect(&rt, "job");
    let (_ports, replies) = pool.drain(&rt, alloc);
    equal(&rt, replies.err(), Some(fault));
}

// A gate whose second copy is refused.
#[derive(Drop)]
struct CopiedOnce {
    copies: AtomicU64,
}

impl Clone for CopiedOnce {
    fn clone(&self) -> Result<Self, AllocError> {
        if self.copies.fetch_add(1, Ordering::SeqCst) == 1 {
            return Err(AllocError);
        }
        Ok(CopiedOnce {
            copies: AtomicU64::new(0),
        })
    }
}

impl JobGate for CopiedOnce {
    fn before(&self, _job: u64) {}

    fn after(&self, _job: u64) {}
}

// Workers of which the second is refused give all ports back, by which others answer.
fn answers_after_a_refusal<B, R>(rt: R, alloc: Global, ports: Vec<ForwardPort<B>>, tolds: &Tolds<B>)
where
    B: FabricName + Send + Sync + 'static,
    R: Threads + Wait + Abort + Copy + Send + 'static,
    requires { vec_len ports ≤ most_workers }
{
    let gate = CopiedOnce {
        copies: AtomicU64::new(0),
    };
    let many = ports.len();
    let refused = match WorkerPool::watched(rt, alloc, ports, &gate) {
        Ok(pool) => {
            drop(pool.end(&rt));
            panic!(rt; "a second worker");
        }
        Err(refused) => refused,
    };
    equal(&rt, refused.fault, PoolFault::Memory(NoMemory));
    holds(&rt, refused.ports.len() == many);
    drop(answers(rt, alloc, refused.ports, tolds, 3));
}

// Without workers each job is refused.
fn refuses<B, R>(rt: R, alloc: Global, tolds: &Tolds<B>)
where
    B: FabricName + Send + Sync + 'static,
    R: Threads + Wait + Abort + Copy + Send + 'static,
{
    let mut pool = WorkerPool::new(rt, alloc, Vec::new(alloc)).expect(&rt, "workers");
    let early = pool.inject(&rt, tolds.job(0));
    equal(&rt, early, Err(PoolFault::Closed));
    let ports = drained(&rt, alloc, pool, 0);
    holds(&rt, ports.is_empty());
    let pool = WorkerPool::new(rt, alloc, ports).expect(&rt, "workers");
    holds(&rt, pool.end(&rt).is_empty());
}

// What is done with ports of two routers.
#[derive(Clone, Copy)]
enum Trial {
    Answers(u8),
    Meets,
    AnswersLater,
    AnswersAfterARefusal,
    // Without an image, if that is the fault.
    Fails(PoolFault),
    Refuses,
}

fn tried<B, R>(rt: R, alloc: Global, ports: Vec<ForwardPort<B>>, tolds: &Tolds<B>, trial: Trial)
where
    B: FabricName + Send + Sync + 'static,
    R: Threads + Wait + Abort + Clock + Copy + Send + 'static,
{
    holds(&rt, ports.len() <= 16);
    match trial {
        Trial::Answers(jobs) => drop(answers(rt, alloc, ports, tolds, jobs)),
        Trial::Meets => meets(rt, alloc, ports, tolds),
        Trial::AnswersLater => answers_later(rt, alloc, ports, tolds),
        Trial::AnswersAfterARefusal => answers_after_a_refusal(rt, alloc, ports, tolds),
        Trial::Fails(fault) => has_fault(rt, alloc, ports, tolds, fault),
        Trial::Refuses => refuses(rt, alloc, tolds),
    }
}

// Opens the writers of two routers, makes a port for each worker, and does this; without an image it
// does it when the writers are closed.
fn opened<B, R>(
    rt: R,
    alloc: Global,
    unnamed: Vec<Unnamed>,
    images: Vec<Image>,
    workers: u8,
    trial: Trial,
)
where
    B: FabricName + Send + Sync + 'static,
    R: Threads + Wait + Abort + Clock + Copy + Send + 'static,
    requires books { unnamed.items ≡ B.books }
    requires rows { map (λ i. i.rows) images.items ≡ B.openings }
    requires generation { All (λ i. i.generation ≡ 0) images.items }
    requires each { vec_len unnamed ≡ 2 }
    requires two { vec_len images ≡ 2 }
{
    let (writers, lists) = open_all::<B, _, R>(&rt, alloc, unnamed, images, workers).expect(
        &rt, "open",
    );
    let tolds = Tolds {
        first: writers[0].tell(),
        second: writers[1].tell(),
    };
    let ports = ports_of(&rt, alloc, workers, lists);
    if let Trial::Fails(PoolFault::Refused(_)) = trial {
        close_all(&rt, writers);
        tried(rt, alloc, ports, &tolds, trial);
    } else {
        tried(rt, alloc, ports, &tolds, trial);
        close_all(&rt, writers);
    }
}

fn pooled<R>(rt: R, alloc: Global, workers: u8, trial: Trial)
where
    R: Threads + Wait + Abort + Clock + Copy + Send + 'static,
{
    let (first, second) = (image(&rt, alloc, 0), image(&rt, alloc, 1));
    let images = vec![in alloc; first, second].expect(&rt, "memory");
    let unnamed = Unnamed::many(alloc, 2).expect(&rt, "memory");
    opened::<Brand, R>(rt, alloc, unnamed, images, workers, trial);
}

#[test]
fn one_worker_answers_all_jobs(rt: HostRuntime) {
    pooled(rt, rt.alloc(), 1, Trial::Answers(200));
}

#[test]
fn two_workers_answer_all_jobs(rt: HostRuntime) {
    pooled(rt, rt.alloc(), 2, Trial::Answers(200));
}

#[test]
fn two_workers_of_a_pool_meet_at_their_first_jobs(rt: HostRuntime) {
    pooled(rt, rt.alloc(), 2, Trial::Meets);
}

#[test]
fn sixteen_workers_answer_all_jobs(rt: HostRuntime) {
    pooled(rt, rt.alloc(), 16, Trial::Answers(200));
}

#[test]
fn the_ports_of_a_pool_come_back(rt: HostRuntime) {
    pooled(rt, rt.alloc(), 2, Trial::AnswersLater);
}

#[test]
fn the_ports_of_a_refused_pool_come_back(rt: HostRuntime) {
    pooled(rt, rt.alloc(), 3, Trial::AnswersAfterARefusal);
}

#[test]
fn a_number_that_two_jobs_have_is_found(rt: HostRuntime) {
    let fault = PoolFault::Gather(GatherFault::Doubled);
    pooled(rt, rt.alloc(), 2, Trial::Fails(fault));
}

#[test]
fn workers_without_an_image(rt: HostRuntime) {
    let fault = PoolFault::Refused(Refusal::NoImage);
    pooled(rt, rt.alloc(), 2, Trial::Fails(fault));
}

#[test]
fn a_pool_of_no_workers_takes_no_job(rt: HostRuntime) {
    pooled(rt, rt.alloc(), 0, Trial::Refuses);
}
