//! Patches that are published, and addresses that are looked up meanwhile.

ghost use Rattle.std.specs.Prelude.{◌≡◌, ◌⊎◌, ◌∷◌, [], All, map, IfOk, OnOk, OnErr, vec_len};
ghost use Rattle.std.specs.Thread.{IsSend, IsSync};
ghost use Rattle.publication.specs.Lists.{opening_of, patched_prefixes};

use crate::equal_to::{equal, holds};
use publication::{
    Answer, Entry, FabricName, ImageReader, ImageWriter, Job, NoImage, NoMemory, Patch, Prefix,
    ReadGate, Told, Unnamed, close_all, open, open_all,
};
use std::alloc::{Allocator, Global};
use std::marker::Brand;
use std::process::Abort;
use std::sync::Wait;
use std::sync::atomic::{AtomicBool, AtomicU64, Ordering};
use std::thread;
use std::thread::{Threads, join};
use std::time::{Clock, Duration};
use test_support::{gets_to, ten};
use tree_bitmap::Image;
use tree_bitmap::parts::empty;

pub(crate) fn via(port: u8) -> Entry {
    Entry::Via { port, session: 1 }
}

// The answer that a prefix's row gives.
pub(crate) fn found(generation: u64, prefix: Prefix, entry: Entry) -> Result<Answer, NoImage> {
    Ok(Answer {
        generation,
        matched: Some((prefix, entry)),
    })
}

// Publishes rows, where nothing waits.
pub(crate) fn set<B: FabricName, A: Allocator + Copy, R: Wait>(
    rt: &R,
    alloc: A,
    writer: &mut ImageWriter<B, A>,
    rows: &[(Prefix, Entry)],
) -> Result<Told<B>, NoMemory>
    requires { writer.old.waiting ≡ [] }
    ensures told { IfOk result (λ t. t ≡ writer.new.published) }
    ensures router { writer.new.published.router ≡ writer.old.published.router }
    ensures ok { OnOk result (writer.new.waiting ≡ []) }
    ensures err { OnErr result ((writer.new.waiting ≡ [])
        ⊎ (patched_prefixes writer.new.waiting ≡ map (λ r. r.0) rows.now)) }
{
    let Some(generation) = writer.generation().checked_add(1) else {
        return Err(NoMemory);
    };
    let rows = Vec::from_slice(alloc, rows)?;
    writer.publish(rt, Patch { generation, rows })
}

// An address of 10.0.0.0/8.
pub(crate) const ADDR: u32 = 0x0A00_0001;

// What a reader answers from an opening image without rows.
pub(crate) const NOTHING: Answer = Answer {
    generation: 0,
    matched: None,
};

// Publishes a row of 10.0.0.0/8, where nothing waits.
pub(crate) fn set_ten<B: FabricName, R: Wait + Abort>(
    rt: &R,
    alloc: Global,
    writer: &mut ImageWriter<B>,
    entry: Entry,
) -> Told<B>
    requires { writer.old.waiting ≡ [] }
    ensures told { result ≡ writer.new.published }
    ensures router { writer.new.published.router ≡ writer.old.published.router }
    ensures empty { writer.new.waiting ≡ [] }
{
    set(rt, alloc, writer, &[(ten(), entry)]).expect(rt, "memory")
}

// Publishes three patches of one row, where nothing waits.
fn publish_three<B: FabricName, R: Wait + Abort>(
    rt: &R,
    alloc: Global,
    writer: &mut ImageWriter<B>,
) -> Told<B>
    requires { writer.old.waiting ≡ [] }
    ensures { result.router ≡ writer.old.published.router }
{
    set_ten(rt, alloc, writer, via(0));
    set_ten(rt, alloc, writer, via(1));
    set_ten(rt, alloc, writer, Entry::Unreachable)
}

fn three_patches<B: FabricName, R: Wait + Abort>(
    rt: &R,
    alloc: Global,
    writer: &mut ImageWriter<B>,
    reader: &mut ImageReader<B>,
)
    requires empty { writer.old.waiting ≡ [] }
    requires router { reader.old.router ≡ writer.old.published.router }
{
    equal(rt, reader.lookup(ADDR), Ok(NOTHING));
    let told = publish_three(rt, alloc, writer);
    reader.learn(&told);
    holds(rt, reader.is_at(&told));
    equal(rt, reader.lookup(ADDR), found(3, ten(), Entry::Unreachable));
    holds(rt, !writer.waits_for(ten()));
    let job = Job {
        number: 1,
        addr: ADDR,
        told,
    };
    equal(rt, (job.router(), job.generation()), (1, 3));
}

// At the second of two routers.
fn at_second<B: FabricName, R: Wait + Abort>(
    rt: &R,
    alloc: Global,
    unnamed: Vec<Unnamed>,
    images: Vec<Image>,
)
    requires name { unnamed.items ≡ B.books }
    requires rows { map (λ i. i.rows) images.items ≡ B.openings }
    requires generation { All (λ i. i.generation ≡ 0) images.items }
    requires each { vec_len unnamed ≡ 2 }
    requires two { vec_len images ≡ 2 }
{
    let (mut writers, mut lists) = open_all::<B, _, R>(rt, alloc, unnamed, images, 1).expect(
        rt, "open",
    );
    let mut reader = lists[1].pop().expect(rt, "reader");
    three_patches(rt, alloc, &mut writers[1], &mut reader);
    close_all(rt, writers);
}

#[test]
fn readers_see_three_patches_one_after_another(rt: HostRuntime) {
    let alloc = rt.alloc();
    let first = empty(alloc).expect(&rt, "memory");
    let second = empty(alloc).expect(&rt, "memory");
    let images = vec![in alloc; first, second].expect(&rt, "memory");
    let unnamed = Unnamed::many(alloc, 2).expect(&rt, "memory");
    at_second::<Brand, _>(&rt, alloc, unnamed, images);
}

// Publishes 200 patches of two rows.
fn set_many<B: FabricName, R: Wait + Abort>(
    rt: &R,
    alloc: Global,
    writer: &mut ImageWriter<B>,
    wide: Prefix,
    narrow: Prefix,
)
    requires { writer.old.waiting ≡ [] }
{
    for k in 1..201u8 {
        set(rt, alloc, writer, &[(wide, via(0)), (narrow, via(k))]).expect(rt, "memory");
    }
}

// Counts the answers whose generation fell, and those that were refused.
fn look_many<B: FabricName>(mut reader: ImageReader<B>, addr: u32) -> (ImageReader<B>, u32) {
    let (mut last, mut wrong) = (0, 0u32);
    for _ in 0..2_000u32 {
        match reader.lookup(addr) {
            Ok(answer) => {
                wrong = wrong.wrapping_add((answer.generation < last) as u32);
                last = answer.generation;
            }
            Err(_) => wrong = wrong.wrapping_add(1),
        }
    }
    (reader, wrong)
}

fn race<B: FabricName + Send + Sync, R: Threads + Wait + Abort + Sync>(
    rt: &R,
    alloc: Global,
    unnamed: Unnamed,
    image: Image,
)
    requires books { B.books ≡ unnamed ∷ [] }
    requires generation { image.generation ≡ 0 }
    requires rows { image.rows ≡ opening_of B.openings 0 }
{
    let (wide, narrow) = (ten(), Prefix::covering(0x0A01_0000, 16));
    let addr = 0x0A01_0001;
    let (mut writer, mut readers) = open::<B, _, R>(rt, alloc, unnamed, 0, image, 1).expect(
        rt, "open",
    );
    let reader = readers.pop().expect(rt, "reader");
    let (_, (reader, wrong)) = join(
        rt,
        || set_many(rt, alloc, &mut writer, wide, narrow),
        || look_many(reader, addr),
    );
    let mut reader = reader;
    let last = reader.lookup(addr);
    writer.close(rt);
    equal(rt, wrong, 0);
    equal(rt, last, found(200, narrow, via(200)));
    equal(rt, reader.lookup(addr), Err(NoImage));
}

#[test]
fn a_reader_never_sees_an_older_generation(rt: HostRuntime) {
    let image = empty(rt.alloc()).expect(&rt, "memory");
    race::<Brand, _>(&rt, rt.alloc(), Unnamed::new(), image);
}

// Holds a reader inside until another has looked up 1000 times since the writer began to publish, and
// then for 20 milliseconds more. Meanwhile the writer is not done with two publications, the second of
// which changes the copy that is held.
struct Hold<'a, R> {
    rt: &'a R,
    held: AtomicU64,
    publishes: AtomicU64,
    looked: AtomicU64,
    published: AtomicBool,
    late: AtomicBool,
}

impl<R> Drop for Hold<'_, R> {
    fn drop(self) {
        let Self {
            rt: _,
            held: _,
            publishes: _,
            looked: _,
            published: _,
            late: _,
        } = self;
    }
}

impl<R: Clock> Hold<'_, R> {
    // Waits until it is so great: 1000 polls at most.
    fn wait_for(&self, number: &AtomicU64, wanted: u64) {
        if !gets_to(self.rt, number, wanted) {
            self.late.store(true, Ordering::SeqCst);
        }
    }
}

impl<R: Clock> ReadGate for Hold<'_, R> {
    fn inside(&self) {
        self.held.store(1, Ordering::SeqCst);
        self.wait_for(&self.looked, 1_000);
        thread::sleep(self.rt, Duration::from_millis(20));
        if self.published.load(Ordering::SeqCst) {
            self.late.store(true, Ordering::SeqCst);
        }
    }
}

// Publishes a row once the reader is held, and then another.
fn set_while_held<B: FabricName, R: Wait + Clock + Abort>(
    rt: &R,
    alloc: Global,
    writer: &mut ImageWriter<B>,
    gate: &Hold<'_, R>,
) -> Told<B>
    requires { writer.old.waiting ≡ [] }
{
    gate.wait_for(&gate.held, 1);
    gate.publishes.store(1, Ordering::SeqCst);
    set_ten(rt, alloc, writer, via(0));
    let last = set_ten(rt, alloc, writer, via(1));
    gate.published.store(true, Ordering::SeqCst);
    last
}

// Once a reader has learned what was told at its router, it answers by the second row.
fn has_learned<B: FabricName>(rt: &impl Abort, mut reader: ImageReader<B>, told: &Told<B>) {
    holds(rt, reader.view().router() == told.router());
    reader.learn(told);
    equal(rt, reader.lookup(ADDR), found(2, ten(), via(1)));
}

// Looks up 1000 times once the writer publishes, and counts the answers that were refused or whose
// generation fell.
fn look_while_held<B: FabricName, R: Clock>(
    mut reader: ImageReader<B>,
    gate: &Hold<'_, R>,
) -> (ImageReader<B>, u32) {
    let (mut last, mut wrong) = (0, 0u32);
    gate.wait_for(&gate.publishes, 1);
    for _ in 0..1_000u32 {
        match reader.lookup(ADDR) {
            Ok(answer) => {
                wrong = wrong.wrapping_add((answer.generation < last) as u32);
                last = answer.generation;
            }
            Err(_) => wrong = wrong.wrapping_add(1),
        }
        gate.looked.fetch_add(1, Ordering::SeqCst);
    }
    (reader, wrong)
}

// Publishes, while a reader that looks up is held.
fn publish_and_look<B: FabricName + Send + Sync, R: Threads + Wait + Clock + Abort + Sync>(
    rt: &R,
    alloc: Global,
    writer: &mut ImageWriter<B>,
    reader: &mut ImageReader<B>,
    gate: &Hold<'_, R>,
) -> (Told<B>, Result<Answer, NoImage>)
    requires { writer.old.waiting ≡ [] }
{
    join(
        rt,
        || set_while_held(rt, alloc, writer, gate),
        || reader.lookup_held(ADDR, gate),
    )
}

fn publish_while_held<B: FabricName + Send + Sync, R: Threads + Wait + Clock + Abort + Sync>(
    rt: &R,
    alloc: Global,
    unnamed: Unnamed,
    image: Image,
)
    requires books { B.books ≡ unnamed ∷ [] }
    requires generation { image.generation ≡ 0 }
    requires rows { image.rows ≡ opening_of B.openings 0 }
{
    let (mut writer, mut readers) = open::<B, _, R>(rt, alloc, unnamed, 0, image, 2).expect(
        rt, "open",
    );
    let mut first = readers.pop().expect(rt, "reader");
    let second = readers.pop().expect(rt, "reader");
    let gate = Hold {
        rt,
        held: AtomicU64::new(0),
        publishes: AtomicU64::new(0),
        looked: AtomicU64::new(0),
        published: AtomicBool::new(false),
        late: AtomicBool::new(false),
    };
    let ((told, answer), (second, wrong)) = join(
        rt,
        ||
            requires shared { IsSync R.row }
            requires named { IsSend B.row × IsSync B.row }
            requires empty { writer.waiting ≡ [] }
        { publish_and_look(rt, alloc, &mut writer, &mut first, &gate) },
        || look_while_held(second, &gate),
    );
    has_learned(rt, first, &told);
    has_learned(rt, second, &told);
    writer.close(rt);
    holds(rt, !gate.late.load(Ordering::SeqCst));
    equal(rt, (answer, wrong), (Ok(NOTHING), 0));
}

#[test]
fn a_held_reader_keeps_its_image(rt: HostRuntime) {
    let image = empty(rt.alloc()).expect(&rt, "memory");
    publish_while_held::<Brand, _>(&rt, rt.alloc(), Unnamed::new(), image);
}
