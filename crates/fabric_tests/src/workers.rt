//! Jobs that one worker answers, and replies that are gathered. What several workers do, the tests of their pool ask.

ghost use Rattle.std.specs.Prelude.{◌≡◌, ◌∷◌, [], length};

use crate::equal_to::{equal, holds};
use crate::publications::ADDR;
use forwarder::{ForwardPort, GatherFault, JobGate, Reply, gather, work};
use network_model::Refusal;
use packet_queue::{Injector, PacketQueue, Taker};
use publication::{FabricName, ImageReader, Job, Told, Unnamed, open};
use std::alloc::{Allocator, Global};
use std::marker::Brand;
use std::process::Abort;
use std::sync::Wait;
use std::sync::atomic::{AtomicU64, Ordering};
use tree_bitmap::Image;
use tree_bitmap::parts::empty;

fn asked<B: FabricName>(number: u64, addr: u32, told: &Told<B>) -> Job<B>
    ensures { result.told ≡ told.now }
{
    Job {
        number,
        addr,
        told: told.again(),
    }
}

// A port of one reader.
pub(crate) fn port_of<B: FabricName, A: Allocator>(
    rt: &impl Abort,
    alloc: A,
    reader: ImageReader<B, A>,
) -> ForwardPort<B, A>
    requires one { length B.books ≡ 1 }
    requires first { reader.router ≡ 0 }
{
    ForwardPort::new(vec![in alloc; reader].expect(rt, "memory"))
}

fn replies_to<B: FabricName>(
    rt: &impl Abort,
    alloc: Global,
    port: &mut ForwardPort<B>,
    told: &Told<B>,
    numbers: &[u64],
) -> Vec<Reply<B>> {
    let mut replies = Vec::new(alloc);
    for number in numbers {
        let reply = port.answer(&asked(*number, 9, told)).expect(rt, "image");
        holds(rt, replies.push(reply).is_ok());
    }
    replies
}

// The numbers of the jobs of three replies.
fn numbers_of<B: FabricName>(rt: &impl Abort, replies: &[Reply<B>]) -> [u64; 3] {
    holds(rt, replies.len() == 3);
    [
        replies[0].job().number,
        replies[1].job().number,
        replies[2].job().number,
    ]
}

// Replies to these jobs are gathered for jobs 1 to 3, in this order, or with this fault.
fn gathers_as<B: FabricName>(
    rt: &impl Abort,
    alloc: Global,
    port: &mut ForwardPort<B>,
    told: &Told<B>,
    numbers: &[u64],
    wanted: Result<[u64; 3], GatherFault>,
) {
    let replies = replies_to(rt, alloc, port, told, numbers);
    equal(rt, gathered(rt, told, replies), wanted);
}

fn gathered<B: FabricName>(
    rt: &impl Abort,
    told: &Told<B>,
    replies: Vec<Reply<B>>,
) -> Result<[u64; 3], GatherFault> {
    let jobs = [asked(1, 9, told), asked(2, 9, told), asked(3, 9, told)];
    Ok(numbers_of(rt, &gather(&jobs, replies)?))
}

static GATHERED: [(&[u64], Result<[u64; 3], GatherFault>); 4] = [
    (&[3, 1, 2], Ok([1, 2, 3])),
    (&[1, 4, 1], Err(GatherFault::Stranger)),
    (&[1, 1, 4], Err(GatherFault::Doubled)),
    (&[1, 3], Err(GatherFault::Missing)),
];

fn gathers<B: FabricName, R: Abort>(
    rt: &R,
    alloc: Global,
    told: &Told<B>,
    port: &mut ForwardPort<B>,
) {
    for (numbers, wanted) in &GATHERED {
        gathers_as(rt, alloc, port, told, numbers, *wanted);
    }
}

// Adds up the numbers of the jobs that it meets.
#[derive(Drop)]
struct Met {
    before: AtomicU64,
    after: AtomicU64,
}

impl JobGate for Met {
    fn before(&self, job: u64) {
        self.before.fetch_add(job, Ordering::SeqCst);
    }

    fn after(&self, job: u64) {
        self.after.fetch_add(job, Ordering::SeqCst);
    }
}

// Puts jobs 1 to the last into a queue.
fn put<B: FabricName, A: Allocator, R: Wait + Abort>(
    rt: &R,
    injector: &mut Injector<B, A>,
    told: &Told<B>,
    last: u64,
) {
    for number in 0..last {
        let job = asked(number + 1, ADDR, told);
        holds(rt, injector.inject(rt, job).is_ok());
    }
}

// The takers of a queue of so many jobs, for so many workers. If it stops, a stop message for each of them and one more
// job come behind.
pub(crate) fn takers_of<B: FabricName, A: Allocator + Copy, R: Wait + Abort>(
    rt: &R,
    alloc: A,
    told: &Told<B>,
    workers: u8,
    jobs: u64,
    stops: bool,
) -> Vec<Taker<B, A>, A> {
    let (mut injector, takers) = PacketQueue::new::<B, _>(alloc, workers).expect(rt, "memory");
    put(rt, &mut injector, told, jobs);
    if stops {
        holds(rt, injector.stop(rt));
        put(rt, &mut injector, told, 1);
    }
    takers
}

// A worker of this port takes what is in a queue, until a stop message or the end of the queue, and meets jobs 1 to 5.
fn work_five<B: FabricName, R: Wait + Abort>(
    rt: &R,
    alloc: Global,
    told: &Told<B>,
    port: ForwardPort<B>,
    stops: bool,
) -> Result<Vec<Reply<B>>, Refusal> {
    let mut takers = takers_of(rt, alloc, told, 1, 5, stops);
    let taker = takers.pop().expect(rt, "taker");
    let gate = Met {
        before: AtomicU64::new(0),
        after: AtomicU64::new(0),
    };
    let replies = work(rt, alloc, port, taker, &gate).replies;
    equal(rt, gate.before.load(Ordering::SeqCst), 15);
    equal(rt, gate.after.load(Ordering::SeqCst), 15);
    replies
}

// One worker answers five jobs.
fn works<B: FabricName, R: Wait + Abort>(
    rt: &R,
    alloc: Global,
    told: &Told<B>,
    port: ForwardPort<B>,
    stops: bool,
) {
    let replies = work_five(rt, alloc, told, port, stops).expect(rt, "replies");
    are_one_to_five(rt, &replies);
}

// There are replies to jobs 1 to 5, in order.
fn are_one_to_five<B: FabricName>(rt: &impl Abort, replies: &[Reply<B>]) {
    holds(rt, replies.len() == 5);
    for place in 0..5usize {
        equal(rt, replies[place].job().number, place as u64 + 1);
    }
}

// A worker without an image takes all jobs, answers none, and says why.
fn goes_on<B: FabricName, R: Wait + Abort>(
    rt: &R,
    alloc: Global,
    told: &Told<B>,
    port: ForwardPort<B>,
) {
    let refusal = work_five(rt, alloc, told, port, false).err();
    equal(rt, refusal, Some(Refusal::NoImage));
}

// What is done with a port.
#[derive(Clone, Copy)]
enum Trial {
    Gathers,
    // Until a stop message, or to the end of the queue.
    Works(bool),
    // Once the writer is closed.
    GoesOn,
}

fn opened<B, R>(rt: &R, alloc: Global, unnamed: Unnamed, image: Image, trial: Trial)
where
    B: FabricName,
    R: Wait + Abort,
    requires books { B.books ≡ unnamed ∷ [] }
    requires openings { B.openings ≡ image.rows ∷ [] }
    requires generation { image.generation ≡ 0 }
{
    let (writer, mut readers) = open::<B, _, R>(rt, alloc, unnamed, 0, image, 1).expect(rt, "open");
    let mut port = port_of(rt, alloc, readers.pop().expect(rt, "reader"));
    let told = writer.tell();
    match trial {
        Trial::Gathers => gathers(rt, alloc, &told, &mut port),
        Trial::Works(stops) => works(rt, alloc, &told, port, stops),
        Trial::GoesOn => {
            writer.close(rt);
            goes_on(rt, alloc, &told, port);
            return;
        }
    }
    writer.close(rt);
}

fn one_router<R: Wait + Abort>(rt: &R, alloc: Global, trial: Trial) {
    let image = empty(alloc).expect(rt, "memory");
    opened::<Brand, R>(rt, alloc, Unnamed::new(), image, trial);
}

#[test]
fn replies_are_gathered_in_order_of_their_jobs(rt: HostRuntime) {
    one_router(&rt, rt.alloc(), Trial::Gathers);
}

#[test]
fn a_worker_works_until_it_is_stopped(rt: HostRuntime) {
    one_router(&rt, rt.alloc(), Trial::Works(true));
}

#[test]
fn works_to_the_end(rt: HostRuntime) {
    one_router(&rt, rt.alloc(), Trial::Works(false));
}

#[test]
fn goes_on_without_an_image(rt: HostRuntime) {
    one_router(&rt, rt.alloc(), Trial::GoesOn);
}
