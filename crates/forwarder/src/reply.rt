//! What a job is answered.

ghost use Rattle.std.specs.Prelude.{◌≡◌};
ghost use Rattle.network_model.specs.Publication.{answer_of};
ghost use Rattle.publication.specs.Lists.{Begins, image_of};

use network_model::Answer;
use publication::{FabricName, Job, Told};
use std::marker::Model;

/// The answer to a job, with the list of the view that gave it: one that its router's writer has
/// published, and that begins with what the job was told.
#[derive(Drop)]
pub struct Reply<B: FabricName> {
    job: Job<B>,
    seen: Told<B>,
    answer: Answer,
}

impl<B: FabricName> Model for Reply<B> {
    ghost use Rattle.forwarder.specs.Replies.{Replied, IsOfPublished};

    ghost Value = { Replied B };

    ghost view = { λ r. record { job = r.job; seen = r.seen; answer = r.answer } };

    ghost invariant = { λ r. IsOfPublished B.openings
        (record { job = r.job; seen = r.seen; answer = r.answer }) };
}

impl<B: FabricName> Reply<B> {
    pub(crate) fn new(job: Job<B>, seen: Told<B>, answer: Answer) -> Reply<B>
        requires later { Begins job.told seen }
        requires answered { answer ≡ answer_of (image_of B.openings seen) job.addr }
        ensures job { result.job ≡ job }
        ensures seen { result.seen ≡ seen }
    {
        Reply { job, seen, answer }
    }

    /// The job: its number, its router and its address.
    pub fn job(&self) -> &Job<B>
        ensures { result.now ≡ self.now.job }
    {
        &self.job
    }

    /// The list of the view that answered.
    pub fn seen(&self) -> &Told<B>
        ensures seen { result.now ≡ self.now.seen }
        ensures later { Begins self.now.job.told result.now }
    {
        &self.seen
    }

    /// The generation that answered, and the row with the longest prefix that covers the address.
    pub fn answer(&self) -> Answer
        ensures answer { result ≡ self.now.answer }
        ensures answered { result ≡ answer_of
            (image_of B.openings self.now.seen) self.now.job.addr }
    {
        self.answer
    }
}
