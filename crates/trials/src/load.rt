//! Workers that look up at a router whose writer publishes all the time. What is printed is how many jobs
//! they answered; to the standard error, how often the writer published meanwhile. It is timed from outside.

ghost use Rattle.std.specs.Prelude.{◌≡◌, ◌+◌, ◌<◌, ◌≤◌, ◌∷◌, [], length, IfOk};
ghost use Rattle.publication.specs.Lists.{opening_of};

use forwarder::{FabricName, ForwardPort, ImageReader, Job};
use network_model::{Entry, Prefix};
use play::Host;
use publication::{ImageWriter, Patch, Told, Unnamed, open};
use std::alloc::{AllocError, Global};
use std::io::Write;
use std::marker::Brand;
use std::sync::Wait;
use std::sync::atomic::{AtomicBool, Ordering};
use std::thread;
use std::thread::Threads;
use tree_bitmap::Image;
use tree_bitmap::parts::{empty, set_row};

/// Whether 1 to 16 workers answer all jobs, so many each, and there is one; tells how many they answer.
pub fn are_jobs_answered<H: Host, W: Write>(
    rt: &HostRuntime,
    wait: &H,
    workers: u8,
    answers: u32,
    out: &mut W,
) -> bool {
    let workers = workers.max(1).min(16);
    let Some((answered, published)) = measure_once(wait, rt.alloc(), workers, answers) else {
        let _ = writeln!(out, "workers {workers}: no memory");
        return false;
    };
    let _ = writeln!(out, "workers {workers}: answered {answered}");
    let _ = writeln!(&mut rt.stderr(), "published {published}");
    answered > 0 && answered == u64::from(workers).saturating_mul(u64::from(answers))
}

// How many jobs were answered, and how often the writer published; none without memory.
fn measure_once<H: Host>(rt: &H, alloc: Global, workers: u8, answers: u32) -> Option<(u64, u64)> {
    let unnamed = Unnamed::new();
    let Ok(image) = table(alloc) else {
        return None;
    };
    measure::<Brand, H>(rt, alloc, unnamed, image, workers, answers)
}

// 4096 rows of 24 bits below 10.0.0.0/8, and the row of 10.0.0.0/8.
fn table(alloc: Global) -> Result<Image, network_model::NoMemory>
    ensures { IfOk result (λ i. i.generation ≡ 0) }
{
    let mut image = empty(alloc)?;
    set_row(&mut image, Prefix::covering(0x0A00_0000, 8), Entry::Local)?;
    for number in 0..4096u32 {
        let prefix = Prefix::covering(0x0A00_0000 + number * 4096, 24);
        set_row(
            &mut image,
            prefix,
            Entry::Via {
                port: 1,
                session: 1,
            },
        )?;
    }
    Ok(image)
}

// A worker, and how many jobs it answered.
#[derive(Drop)]
struct Lane<B: FabricName> {
    port: ForwardPort<B>,
    answered: u64,
}

impl<B: FabricName> Lane<B> {
    // Answers so many jobs, each for another address below 10.0.0.0/8.
    fn run(&mut self, told: &Told<B>, answers: u32)
        ensures few { self.new.answered ≤ self.old.answered + answers }
    {
        let mut addr = 0x0A00_0000u32;
        let mut answered = 0u64;
        for number in 0..answers {
            let job = Job {
                number: u64::from(number),
                addr,
                told: told.again(),
            };
            if self.port.answer(&job).is_ok() {
                answered = answered.saturating_add(1);
            }
            addr = 0x0A00_0000 | (addr.wrapping_mul(1_664_525).wrapping_add(1_013_904_223) >> 8);
        }
        self.answered = self.answered.saturating_add(answered);
    }
}

// A port of a fabric's only router.
fn port_of<B: FabricName>(
    alloc: Global,
    reader: ImageReader<B>,
) -> Result<ForwardPort<B>, AllocError>
    requires { length B.books ≡ 1 }
{
    let first = reader.view().router();
    if first != 0 {
        return Err(AllocError);
    }
    // Room for eight, so that no two workers write to one cache line.
    let mut readers = Vec::with_capacity(alloc, 8)?;
    readers.push_reserved(reader);
    Ok(ForwardPort::new(readers))
}

fn lanes_of<B: FabricName>(
    alloc: Global,
    readers: Vec<ImageReader<B>>,
) -> Result<Vec<Lane<B>>, AllocError>
    requires { length B.books ≡ 1 }
{
    let mut lanes = Vec::new(alloc);
    for reader in readers {
        let port = port_of(alloc, reader)?;
        lanes.push(Lane { port, answered: 0 })?;
    }
    Ok(lanes)
}

// Publishes one row of 10.0.0.0/8 or another until it is told to stop. How often it did.
fn publish_until<B: FabricName, R: Wait>(
    rt: &R,
    alloc: Global,
    writer: &mut ImageWriter<B>,
    stop: &AtomicBool,
) -> u64
    requires { writer.old.waiting ≡ [] }
{
    let mut published = 0u64;
    for _ in rt.forever() {
        if stop.load(Ordering::SeqCst) {
            break;
        }
        let port = (published % 2) as u8;
        let Ok(rows) = vec![in alloc;
            (
                Prefix::covering(0x0A00_0000, 8),
                Entry::Via { port, session: 1 }
            ),
        ] else {
            break;
        };
        let Some(generation) = writer.generation().checked_add(1) else {
            break;
        };
        if writer.publish(rt, Patch { generation, rows }).is_err() {
            break;
        }
        published = published.saturating_add(1);
    }
    published
}

// How many jobs were answered, and how often the writer published; none without memory.
fn measure<B: FabricName + Send + Sync, R: Threads + Wait + Sync>(
    rt: &R,
    alloc: Global,
    unnamed: Unnamed,
    image: Image,
    workers: u8,
    answers: u32,
) -> Option<(u64, u64)>
    requires books { B.books ≡ unnamed ∷ [] }
    requires generation { image.generation ≡ 0 }
    requires rows { image.rows ≡ opening_of B.openings 0 }
{
    let (mut writer, readers) = open::<B, _, R>(rt, alloc, unnamed, 0, image, workers).ok()?;
    let measured = match lanes_of(alloc, readers) {
        Ok(mut lanes) => Some(race(rt, alloc, &mut writer, lanes.as_mut_slice(), answers)),
        Err(_) => None,
    };
    writer.close(rt);
    measured
}

// Lets all workers answer while the writer publishes.
fn race<B: FabricName + Send + Sync, R: Threads + Wait + Sync>(
    rt: &R,
    alloc: Global,
    writer: &mut ImageWriter<B>,
    lanes: &mut [Lane<B>],
    answers: u32,
) -> (u64, u64)
    requires { writer.old.waiting ≡ [] }
{
    let told = writer.tell();
    let stop = AtomicBool::new(false);
    let threads = lanes.len().max(1);
    let (published, ()) = thread::join(
        rt,
        || publish_until(rt, alloc, writer, &stop),
        ||
            requires { 0 < threads }
        {
            thread::for_each_mut(
                rt,
                lanes,
                threads,
                &|_, lane| {
                    lane.run(&told, answers);
                },
            );
            stop.store(true, Ordering::SeqCst);
        },
    );
    let mut answered = 0u64;
    for lane in lanes {
        answered = answered.saturating_add(lane.answered);
    }
    (answered, published)
}
