//! The readers by which a worker looks addresses up.

ghost use Rattle.std.specs.Prelude.{◌≡◌, Some, IfOk, length, slice_get};
ghost use Rattle.publication.specs.Lists.{Begins};
ghost use Rattle.forwarder.specs.Ports.{AreLater, IsOneEach};

use crate::reply::Reply;
use publication::{FabricName, ImageReader, Job, NoImage};
use std::alloc::{Allocator, Global};
use std::marker::Model;

/// One reader of each of a fabric's routers. Contracts see it as the views of its readers, by the
/// routers' numbers.
#[derive(Drop)]
pub struct ForwardPort<B: FabricName, A: Allocator = Global> {
    readers: Vec<ImageReader<B, A>, A>,
}

impl<B: FabricName, A: Allocator> Model for ForwardPort<B, A> {
    ghost use Rattle.std.specs.Prelude.{List, length};
    ghost use Rattle.publication.specs.declared.known.Known.{Known};
    ghost use Rattle.forwarder.specs.Ports.{IsOneEach};

    ghost Value = { List Known };

    ghost view = { λ p. p.readers.items };

    ghost invariant = { λ p. IsOneEach (length B.books) p.readers.items };
}

impl<B: FabricName, A: Allocator> ForwardPort<B, A> {
    /// A port of these readers, one of each router, in order.
    pub fn new(readers: Vec<ImageReader<B, A>, A>) -> ForwardPort<B, A>
        requires { IsOneEach (length B.books) readers.items }
        ensures { result ≡ readers.items }
    {
        ForwardPort { readers }
    }

    /// Looks a job's address up at its router, in an image no older than the job was told of. It
    /// takes no memory, and waits for nobody. Refused, where there is no image, its views may be later
    /// than they were.
    pub fn answer(&mut self, job: &Job<B>) -> Result<Reply<B>, NoImage>
        ensures job { IfOk result (λ r. r.job ≡ job.now) }
        ensures seen { IfOk result (λ r. slice_get self.new job.now.told.router ≡ Some r.seen) }
        ensures later { AreLater self.old self.new }
    {
        look(&mut self.readers[usize::from(job.router())], job)
    }
}

// What a reader of a job's router answers to it.
fn look<B: FabricName, A: Allocator>(
    reader: &mut ImageReader<B, A>,
    job: &Job<B>,
) -> Result<Reply<B>, NoImage>
    requires { job.now.told.router ≡ reader.old.router }
    ensures job { IfOk result (λ r. r.job ≡ job.now) }
    ensures seen { IfOk result (λ r. r.seen ≡ reader.new) }
    ensures later { Begins reader.old reader.new }
{
    reader.learn(&job.told);
    let answer = reader.lookup(job.addr)?;
    Ok(Reply::new(job.again(), reader.view(), answer))
}
