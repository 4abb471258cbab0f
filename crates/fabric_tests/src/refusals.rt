//! A publication and a queue of which one allocation after another is refused, and which are done again
//! then; and a worker whose replies are refused so, beside another.

ghost use Rattle.std.specs.Prelude.{◌≡◌, ◌⊎◌, ◌∷◌, [], length, map};
ghost use Rattle.publication.specs.Lists.{opening_of, patched_prefixes};

use crate::equal_to::{equal, holds};
use crate::publications::{found, set, via};
use crate::workers::{port_of, takers_of};
use forwarder::{ForwardPort, JobGate, Reply, work};
use linked_list_allocator::LocalHeap;
use network_model::Refusal;
use packet_queue::{PacketQueue, Taker};
use publication::{
    Entry, FabricName, ImageReader, ImageWriter, NoMemory, Patch, Prefix, Told, Unnamed, open,
};
use std::alloc::{Allocator, Global};
use std::marker::Brand;
use std::process::Abort;
use std::sync::Wait;
use std::sync::atomic::{AtomicBool, AtomicU64, Ordering};
use std::thread::{Threads, join};
use std::time::Clock;
use test_support::{Refused, Refusing, gets_to, ten};
use tree_bitmap::Image;
use tree_bitmap::parts::empty;

// More allocations than a call makes.
const MOST: u64 = 4096;

// A call of which an allocation is refused.
#[derive(Clone, Copy)]
enum Call {
    Publish,
    MakeQueue,
    Work,
}

// Whether the call meets a refusal of these.
fn is_refused<R>(rt: &R, alloc: Global, call: Call, refused: Refused) -> bool
where
    R: Threads + Wait + Clock + Abort + Sync,
{
    match call {
        Call::MakeQueue => is_queue_refused::<Brand>(rt, alloc, refused),
        _ => is_refused_to_one_router(rt, alloc, call, refused),
    }
}

// Each of its allocations is refused, alone and with all behind it.
fn is_refused_at_each<R>(rt: &R, alloc: Global, call: Call)
where
    R: Threads + Wait + Clock + Abort + Sync,
{
    let mut last = 0;
    for nth in 1..MOST {
        let one = is_refused(rt, alloc, call, Refused::One(nth));
        let all = is_refused(rt, alloc, call, Refused::From(nth));
        if !one && !all {
            break;
        }
        last = nth;
    }
    holds(rt, last > 0);
    holds(rt, last < MOST - 1);
}

fn is_refused_to_one_router<R>(rt: &R, alloc: Global, call: Call, refused: Refused) -> bool
where
    R: Threads + Wait + Clock + Abort + Sync,
{
    let memory = Refusing::new(alloc);
    let image = empty(&memory).expect(rt, "memory");
    with_readers::<Brand, R>(rt, &memory, Unnamed::new(), image, call, refused)
}

fn with_readers<'h, B, R>(
    rt: &R,
    memory: &'h Refusing<Global>,
    unnamed: Unnamed,
    image: Image<&'h Refusing<Global>>,
    call: Call,
    refused: Refused,
) -> bool
where
    B: FabricName + Send + Sync,
    R: Threads + Wait + Clock + Abort + Sync,
    requires books { B.books ≡ unnamed ∷ [] }
    requires generation { image.generation ≡ 0 }
    requires rows { image.rows ≡ opening_of B.openings 0 }
{
    let (mut writer, mut readers) = open::<B, _, R>(rt, memory, unnamed, 0, image, 2).expect(
        rt, "open",
    );
    let mut first = readers.pop().expect(rt, "reader");
    let second = readers.pop().expect(rt, "reader");
    let end = match call {
        Call::Work => are_replies_refused(rt, memory, &writer.tell(), first, second, refused),
        _ => is_publication_refused(rt, memory, &mut writer, &mut first, refused),
    };
    writer.close(rt);
    end
}

// A reader that learns this answers two addresses by these rows.
fn answers<'h, B: FabricName>(
    rt: &impl Abort,
    reader: &mut ImageReader<B, &'h Refusing<Global>>,
    told: &Told<B>,
    generation: u64,
    rows: &[(Prefix, Entry); 2],
)
    requires { reader.old.router ≡ told.now.router }
    ensures { reader.new.router ≡ reader.old.router }
{
    reader.learn(told);
    let [(one, first), (two, second)] = *rows;
    equal(
        rt,
        reader.lookup(0x0A00_0001),
        found(generation, one, first),
    );
    equal(
        rt,
        reader.lookup(0x0A01_0001),
        found(generation, two, second),
    );
}

// Publishes a row of 10.0.0.0/8, then with a refusal another, and one of 10.1.0.0/16. Where that is
// refused, a reader that learns meanwhile sees the first publication, until the third, of the same
// prefixes.
fn is_publication_refused<'h, B: FabricName, R: Wait + Abort>(
    rt: &R,
    memory: &'h Refusing<Global>,
    writer: &mut ImageWriter<B, &'h Refusing<Global>>,
    reader: &mut ImageReader<B, &'h Refusing<Global>>,
    refused: Refused,
) -> bool
    requires empty { writer.old.waiting ≡ [] }
    requires router { reader.old.router ≡ writer.old.published.router }
{
    let (wide, narrow) = (ten(), Prefix::covering(0x0A01_0000, 16));
    let told = set(rt, memory, writer, &[(wide, via(0))]).expect(rt, "memory");
    reader.learn(&told);
    memory.refuse(refused);
    let is_refused = set(rt, memory, writer, &[(wide, via(1)), (narrow, via(1))]).is_err();
    let was_met = memory.was_met(is_refused).expect(rt, "refusal");
    if is_refused {
        let last = [(wide, Entry::Unreachable), (narrow, via(2))];
        publishes_again(rt, memory, writer, reader, &last);
    }
    was_met
}

// A reader sees the first publication until rows of the same prefixes as those that were refused are published.
fn publishes_again<'h, B: FabricName, R: Wait + Abort>(
    rt: &R,
    memory: &'h Refusing<Global>,
    writer: &mut ImageWriter<B, &'h Refusing<Global>>,
    reader: &mut ImageReader<B, &'h Refusing<Global>>,
    rows: &[(Prefix, Entry); 2],
)
    requires waits { (writer.old.waiting ≡ [])
        ⊎ (patched_prefixes writer.old.waiting ≡ map (λ r. r.0) rows.now) }
    requires router { reader.old.router ≡ writer.old.published.router }
{
    holds(rt, writer.generation() == 1);
    let shown = [(ten(), via(0)), (ten(), via(0))];
    answers(rt, reader, &writer.tell(), 1, &shown);
    let patch = Patch {
        generation: 2,
        rows: Vec::from_slice(memory, rows).expect(rt, "memory"),
    };
    let told = writer.publish(rt, patch).expect(rt, "memory");
    equal(rt, writer.generation(), 2);
    answers(rt, reader, &told, 2, rows);
}

// Two workers beside each other: the one that takes the first job waits until the other has answered five,
// 1000 polls at most.
struct Beside<'a, R> {
    rt: &'a R,
    taken: AtomicU64,
    answered: AtomicU64,
    late: AtomicBool,
}

impl<R> Drop for Beside<'_, R> {
    fn drop(self) {
        let Self {
            rt: _,
            taken: _,
            answered: _,
            late: _,
        } = self;
    }
}

impl<R: Clock> JobGate for Beside<'_, R> {
    fn before(&self, _job: u64) {
        if self.taken.fetch_add(1, Ordering::SeqCst) == 0 && !gets_to(self.rt, &self.answered, 5) {
            self.late.store(true, Ordering::SeqCst);
        }
    }

    fn after(&self, _job: u64) {
        self.answered.fetch_add(1, Ordering::SeqCst);
    }
}

// What two workers reply that work at the same time.
fn work_both<B, A, R, G>(
    rt: &R,
    alloc: A,
    gate: &G,
    first: (ForwardPort<B, A>, Taker<B, A>),
    second: (ForwardPort<B, A>, Taker<B, A>),
) -> (
    Result<Vec<Reply<B>, A>, Refusal>,
    Result<Vec<Reply<B>, A>, Refusal>,
)
where
    B: FabricName + Send + Sync,
    A: Allocator + Copy + Send + Sync,
    R: Threads + Wait + Sync,
    G: JobGate + Sync,
{
    let (one, other) = join(
        rt,
        || work(rt, alloc, first.0, first.1, gate),
        || work(rt, alloc, second.0, second.1, gate),
    );
    (one.replies, other.replies)
}

// How many replies there are.
fn count_of<B: FabricName, A: Allocator>(
    replies: Result<Vec<Reply<B>, A>, Refusal>,
) -> Result<usize, Refusal> {
    Ok(replies?.len())
}

// How many replies two workers have, of which one answers a job and the other five.
fn work_beside<'h, B, R>(
    rt: &R,
    memory: &'h Refusing<Global>,
    first: (
        ForwardPort<B, &'h Refusing<Global>>,
        Taker<B, &'h Refusing<Global>>,
    ),
    second: (
        ForwardPort<B, &'h Refusing<Global>>,
        Taker<B, &'h Refusing<Global>>,
    ),
) -> (Result<usize, Refusal>, Result<usize, Refusal>)
where
    B: FabricName + Send + Sync,
    R: Threads + Wait + Clock + Abort + Sync,
{
    let gate = Beside {
        rt,
        taken: AtomicU64::new(0),
        answered: AtomicU64::new(0),
        late: AtomicBool::new(false),
    };
    let (one, other) = work_both(rt, memory, &gate, first, second);
    holds(rt, !gate.late.load(Ordering::SeqCst));
    equal(rt, gate.answered.load(Ordering::SeqCst), 6);
    (count_of(one), count_of(other))
}

// There is one reply, or five, or want of memory in their place.
fn is_end(rt: &impl Abort, end: Result<usize, Refusal>) {
    holds(rt, matches!(end, Ok(1 | 5) | Err(Refusal::NoMemory)));
}

// One worker has one reply and the other five, or want of memory in their place. Where one allocation alone is
// refused, one of them has its replies.
fn are_ends(
    rt: &impl Abort,
    one: Result<usize, Refusal>,
    other: Result<usize, Refusal>,
    refused: Refused,
) {
    is_end(rt, one);
    is_end(rt, other);
    holds(rt, one != other || one.is_err());
    if let Refused::One(_) = refused {
        holds(rt, one.is_ok() || other.is_ok());
    }
}

// Whether one of two workers has its list of replies refused. Both go on to their stop messages, behind
// which there is one more job.
fn are_replies_refused<'h, B, R>(
    rt: &R,
    memory: &'h Refusing<Global>,
    told: &Told<B>,
    first: ImageReader<B, &'h Refusing<Global>>,
    second: ImageReader<B, &'h Refusing<Global>>,
    refused: Refused,
) -> bool
where
    B: FabricName + Send + Sync,
    R: Threads + Wait + Clock + Abort + Sync,
    requires one { length B.books ≡ 1 }
    requires first { first.router ≡ 0 }
    requires second { second.router ≡ 0 }
{
    let mut takers = takers_of(rt, memory, told, 2, 6, true);
    let first = (port_of(rt, memory, first), takers.pop().expect(rt, "taker"));
    let second = (
        port_of(rt, memory, second),
        takers.pop().expect(rt, "taker"),
    );
    memory.refuse(refused);
    let (one, other) = work_beside(rt, memory, first, second);
    are_ends(rt, one, other, refused);
    memory
        .was_met(one.is_err() || other.is_err())
        .expect(rt, "refusal")
}

// Whether a queue for two workers is made.
fn is_made<B: FabricName, A: Allocator + Copy>(rt: &impl Abort, alloc: A) -> bool {
    match PacketQueue::new::<B, _>(alloc, 2) {
        Ok((_injector, takers)) => {
            equal(rt, takers.len(), 2);
            true
        }
        Err(_) => false,
    }
}

// Whether it meets a refusal of these. Nothing is left behind.
fn is_queue_refused<B: FabricName>(rt: &impl Abort, alloc: Global, refused: Refused) -> bool {
    let heap = LocalHeap::new(alloc, 1 << 16).expect(rt, "memory");
    let memory = Refusing::new(&heap);
    memory.refuse(refused);
    let has_failed = !is_made::<B, _>(rt, &memory);
    let was_met = memory.was_met(has_failed).expect(rt, "refusal");
    equal(rt, heap.used(), 0);
    holds(rt, is_made::<B, _>(rt, &memory));
    was_met
}

#[test]
fn a_publication_is_refused_at_each_allocation(rt: HostRuntime) {
    is_refused_at_each(&rt, rt.alloc(), Call::Publish);
}

#[test]
fn a_queue_is_refused_at_each_allocation(rt: HostRuntime) {
    is_refused_at_each(&rt, rt.alloc(), Call::MakeQueue);
}

#[test]
fn a_worker_without_memory_goes_on_to_its_stop(rt: HostRuntime) {
    is_refused_at_each(&rt, rt.alloc(), Call::Work);
}
