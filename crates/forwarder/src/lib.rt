//! Forwarding workers: the readers by which they look up, what they answer to jobs, and replies in order.
//!
//! A packet is looked up in another thread than the one that asked. When the answer comes back, its router
//! may have published again. So an answer has to say of itself to which job it is, and which table it is
//! from.
//!
//! That is what a [`Reply`] does: it keeps the job, the answer, and the list of publications that answered.
//! Its type promises the rest (`IsOfPublished` in `specs/Replies.antt`). The list begins with what the job
//! was told, so no older table than the asker knew of has answered. And the answer is the longest match of
//! that list's image, so a reply needs no test, by whatever way it came.
//!
//! ```text
//!   Job     number 7, router 3, address 10.1.2.3     told: publications p1, p2
//!   Reply   that job                                 seen: publications p1, p2, p3
//!           answer: generation 3, 10.0.0.0/8 via port 1 in session 1
//! ```
//!
//! - A [`ForwardPort`] has a reader of each router, by the routers' numbers. It answers a job with no lock,
//!   no wait and no memory. What its readers see never gets older.
//! - [`work`] is what a worker does: it takes jobs from its queue and answers them, until a stop message
//!   comes.
//! - [`gather`] puts the replies of all workers in order of the jobs' numbers. It names the first fault: a
//!   reply to no job (`Stranger`), a second one (`Doubled`), or a job without one (`Missing`).
//!
//! ```text
//! let reply = port.answer(&job)?;                         // one job
//! let worked = work(&rt, alloc, port, taker, &gate);      // all jobs of a queue, until it ends
//! let replies = gather(&jobs, replies)?;                  // one for each job
//! ```
//!
//! What is tricky: a worker that gets no memory for a reply, or no image, does not stop. It goes on taking
//! jobs, and at the end tells its first refusal in place of its replies (`first` of [`with_reply`]).
//!
//! A *port* here is no port of a router. A *gate* ([`JobGate`]) is called before and after each job, so tests
//! can watch a worker or hold it back.
#![tactic(auto)]

mod gathering;
mod port;
mod reply;
mod worker;

pub use gathering::{GatherFault, gather};
pub use port::ForwardPort;
pub use publication::{Answer, FabricName, ImageReader, Job, NoImage};
pub use reply::Reply;
pub use worker::{JobGate, Worked, with_reply, work};
