//! Queues in one thread. What threads take of them, the tests of workers ask.

ghost use Rattle.std.specs.Prelude.{◌≡◌, ◌∷◌, []};
ghost use Rattle.publication.specs.Lists.{opening_of};
ghost use Rattle.packet_queue.specs.Ends.{takes_from, AreAllEnds, IsSameInjector};

use crate::equal_to::{equal, holds};
use packet_queue::{FabricName, Injector, Job, PacketQueue, Taken, Taker, reckon};
use publication::{Told, Unnamed, open};
use std::alloc::Global;
use std::marker::Brand;
use std::process::Abort;
use std::sync::Wait;
use tree_bitmap::Image;
use tree_bitmap::parts::empty;

fn asked<B: FabricName>(number: u64, told: &Told<B>) -> Job<B> {
    Job {
        number,
        addr: 7,
        told: told.again(),
    }
}

// What came out of a queue, by its number.
#[derive(Clone, Copy, PartialEq, Debug)]
enum Sight {
    Job(u64),
    Stop,
    Closed,
}

fn seen_as<B: FabricName>(taken: Option<Taken<B>>) -> Sight {
    match taken {
        Some(Taken::Job(job)) => Sight::Job(job.number),
        Some(Taken::Stop) => Sight::Stop,
        None => Sight::Closed,
    }
}

// The number of a job that was handed back.
fn back<B: FabricName>(put: Result<(), Job<B>>) -> Option<u64> {
    match put {
        Ok(()) => None,
        Err(job) => Some(job.number),
    }
}

// The queue takes a job of this number, or hands it back.
fn puts<B: FabricName, R: Wait + Abort>(
    rt: &R,
    injector: &mut Injector<B>,
    told: &Told<B>,
    number: u64,
    wanted: Option<u64>,
)
    ensures { IsSameInjector injector.old injector.new }
{
    equal(rt, back(injector.inject(rt, asked(number, told))), wanted);
}

// Puts so many jobs, and a stop message for each worker.
fn fill<B: FabricName, R: Wait + Abort>(
    rt: &R,
    injector: &mut Injector<B>,
    told: &Told<B>,
    jobs: u64,
)
    ensures { IsSameInjector injector.old injector.new }
{
    for number in 0..jobs {
        puts(rt, injector, told, number, None);
    }
    holds(rt, injector.stop(rt));
}

// What comes out of the queue next.
fn gives<B: FabricName, R: Wait + Abort>(rt: &R, taker: &mut Taker<B>, wanted: Sight) {
    equal(rt, seen_as(taker.next(rt)), wanted);
}

// Three jobs and two stop messages come out as they were put in, whoever takes them.
fn give_all<B: FabricName, R: Wait + Abort>(rt: &R, first: &mut Taker<B>, second: &mut Taker<B>) {
    gives(rt, first, Sight::Job(0));
    gives(rt, second, Sight::Job(1));
    gives(rt, second, Sight::Job(2));
    gives(rt, second, Sight::Stop);
    gives(rt, first, Sight::Stop);
}

fn in_order<B: FabricName, R: Wait + Abort>(rt: &R, alloc: Global, told: &Told<B>) {
    let (mut injector, mut takers) = PacketQueue::new::<B, _>(alloc, 2).expect(rt, "memory");
    equal(rt, (injector.workers(), takers.len()), (2, 2));
    fill(rt, &mut injector, told, 3);
    let mut second = takers.pop().expect(rt, "two");
    let mut first = takers.pop().expect(rt, "two");
    give_all(rt, &mut first, &mut second);
    drop(injector);
    gives(rt, &mut first, Sight::Closed);
}

// Takes so many messages.
fn take_some<B: FabricName, R: Wait + Abort>(rt: &R, taker: &mut Taker<B>, count: u64)
    ensures { takes_from taker.new ≡ takes_from taker.old }
{
    for _ in 0..count {
        holds(rt, taker.next(rt).is_some());
    }
}

// Puts so many jobs, takes so many messages by the last taker, and counts what is left.
fn left_of<B: FabricName, R: Wait + Abort>(
    rt: &R,
    told: &Told<B>,
    mut injector: Injector<B>,
    mut takers: Vec<Taker<B>>,
    put: u64,
    take: u64,
) -> u64
    requires { AreAllEnds injector takers.items }
{
    fill(rt, &mut injector, told, put);
    let Some(mut taker) = takers.pop() else {
        panic!(rt; "three");
    };
    take_some(rt, &mut taker, take);
    let Ok(()) = takers.push(taker) else {
        panic!(rt; "memory");
    };
    reckon(injector, takers)
}

fn counted<B: FabricName, R: Wait + Abort>(rt: &R, alloc: Global, told: &Told<B>) {
    for (put, take, left) in [(0, 0, 0), (5, 0, 5), (61, 20, 41), (5, 5, 0), (5, 7, 0)] {
        let (injector, takers) = PacketQueue::new::<B, _>(alloc, 3).expect(rt, "memory");
        equal(rt, left_of(rt, told, injector, takers, put, take), left);
    }
}

// A queue for no worker takes no job.
fn closed_from_the_first<B: FabricName, R: Wait + Abort>(rt: &R, alloc: Global, told: &Told<B>) {
    let (mut injector, takers) = PacketQueue::new::<B, _>(alloc, 0).expect(rt, "memory");
    puts(rt, &mut injector, told, 1, Some(1));
    holds(rt, injector.stop(rt));
    equal(rt, reckon(injector, takers), 0);
}

// Nor does one whose takers are gone.
fn closed_by_takers<B: FabricName, R: Wait + Abort>(rt: &R, alloc: Global, told: &Told<B>) {
    let (mut injector, takers) = PacketQueue::new::<B, _>(alloc, 2).expect(rt, "memory");
    puts(rt, &mut injector, told, 2, None);
    drop(takers);
    puts(rt, &mut injector, told, 3, Some(3));
    holds(rt, !injector.stop(rt));
}

// What is in a queue whose injector is gone comes out.
fn closed_by_injector<B: FabricName, R: Wait + Abort>(rt: &R, alloc: Global, told: &Told<B>) {
    let (mut injector, mut takers) = PacketQueue::new::<B, _>(alloc, 1).expect(rt, "memory");
    puts(rt, &mut injector, told, 4, None);
    drop(injector);
    let mut taker = takers.pop().expect(rt, "one");
    gives(rt, &mut taker, Sight::Job(4));
    gives(rt, &mut taker, Sight::Closed);
}

fn closed<B: FabricName, R: Wait + Abort>(rt: &R, alloc: Global, told: &Told<B>) {
    closed_from_the_first(rt, alloc, told);
    closed_by_takers(rt, alloc, told);
    closed_by_injector(rt, alloc, told);
}

// What is done with a queue.
#[derive(Clone, Copy)]
enum Trial {
    KeepsTheOrder,
    CountsWhatIsLeft,
    Closes,
}

fn tried<B: FabricName, R: Wait + Abort>(rt: &R, alloc: Global, told: &Told<B>, trial: Trial) {
    match trial {
        Trial::KeepsTheOrder => in_order(rt, alloc, told),
        Trial::CountsWhatIsLeft => counted(rt, alloc, told),
        Trial::Closes => closed(rt, alloc, told),
    }
}

// Opens the writer of a router, whose list the jobs are told of.
fn opened<B: FabricName, R: Wait + Abort>(
    rt: &R,
    alloc: Global,
    unnamed: Unnamed,
    image: Image,
    trial: Trial,
)
    requires books { B.books ≡ unnamed ∷ [] }
    requires generation { image.generation ≡ 0 }
    requires rows { image.rows ≡ opening_of B.openings 0 }
{
    let (writer, _) = open::<B, _, R>(rt, alloc, unnamed, 0, image, 0).expect(rt, "open");
    tried(rt, alloc, &writer.tell(), trial);
    writer.close(rt);
}

fn with_told<R: Wait + Abort>(rt: &R, alloc: Global, trial: Trial) {
    let image = empty(alloc).expect(rt, "memory");
    opened::<Brand, R>(rt, alloc, Unnamed::new(), image, trial);
}

#[test]
fn jobs_come_out_as_they_were_put_in(rt: HostRuntime) {
    with_told(&rt, rt.alloc(), Trial::KeepsTheOrder);
}

#[test]
fn counts_what_is_left(rt: HostRuntime) {
    with_told(&rt, rt.alloc(), Trial::CountsWhatIsLeft);
}

#[test]
fn hands_back_when_closed(rt: HostRuntime) {
    with_told(&rt, rt.alloc(), Trial::Closes);
}
