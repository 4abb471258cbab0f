//! Workers that answer jobs, each in a thread of its own.
//!
//! Threads have to begin, be fed and end on every path, also if the tenth of them cannot be made. And who
//! gave the jobs wants to know that each was answered once, whatever the threads did. [`WorkerPool`] does
//! both, over the queue of `packet_queue` and the workers of `forwarder`:
//!
//! ```text
//! let mut pool = WorkerPool::new(rt, alloc, ports)?;    // a worker, in a thread, for each port: 0 to 16
//! pool.inject(&rt, job)?;                               // waits while 64 jobs wait in the queue
//! let (ports, replies) = pool.drain(&rt, alloc);        // ends the workers; a reply to each job, or a fault
//! ```
//!
//! - `new` begins a worker for each port, or is refused and hands all ports back ([`NotBegun`]).
//! - `inject` keeps a copy of each job that it puts into the queue. A job that is refused is not kept.
//! - `drain` sends stop messages, joins the threads, and compares the replies with the copies. So if it gives
//!   replies, there is exactly one to each job and none to anything else, in order of the numbers (`each`,
//!   `only`, `order`).
//! - `end` joins the threads too, and lets the replies go. Both give the ports back, for the next pool.
//!
//! What always holds: contracts see how many workers there are, and the jobs that they were given, in order
//! (`Crew` in `specs/Crews.antt`). Room for the workers' ports is made when the pool begins, so `end` takes
//! no memory (the invariant of `WorkerPool`).
//!
//! A [`PoolFault`] says why jobs are not answered, and `specs/Faults.antt` which call answers which. For
//! example, 12 is a thread that could not be made, and 33 a closed queue. 30 to 32 name what is wrong with
//! the replies.
//!
//! What is tricky:
//!
//! - A pool is not `Drop`. If you let one go without `drain` or `end`, your program does not compile, so no
//!   thread is left for which nobody waits.
//! - A pool without workers is a pool. It refuses each job as closed.
//! - No clause says that threads come back, or that ports which are given back are those that the workers
//!   had. Nor does one say that a `new` that is refused has waited for the threads that it began.
//! - A thread that could not be made leaves its work behind, with the port inside. So `new` closes the queue and
//!   does that work itself: it finds no job, and gives the port back.
//!
//! The takers of a pool are let go when their workers have ended, so nobody reckons what is left in its
//! queue. `gather` compares the replies with the jobs, which the pool keeps.
#![tactic(auto)]

mod fault;
mod pool;

pub use fault::{NotBegun, PoolFault};
pub use forwarder::{FabricName, ForwardPort, Job, JobGate, Reply};
pub use pool::WorkerPool;
