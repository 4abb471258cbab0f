//! A queue of packets from one injector to several workers. Each job comes out as often as it went in.
//!
//! The ends of the queue are in several threads. A clause can say what one end did, but not what the others
//! did meanwhile. So who can say that no job was lost, and none was answered twice?
//!
//! The answer is a rule that the channel keeps (`crossbeam_channel`), and a sum at the end. Each end has a
//! list, in the proofs alone, of what it has put or taken. The rule: what all ends have put is what all ends
//! have taken and what the queue holds, each message as often. The right to use this rule for a sum has 256
//! parts. Each [`Taker`] has one, and the [`Injector`] has the rest.
//!
//! ```text
//!    Injector  -- put -->  [ job | job | stop | .. ]  -- take -->  Taker    Taker    ..
//!    256 - n parts          64 places at most                      1 part   1 part       n takers
//! ```
//!
//! So [`reckon`] asks for all ends at once. It adds up how many jobs each of them put or took, and answers
//! how many are left. It takes no job out, waits for nothing, and takes no memory.
//!
//! ```text
//! let (mut injector, takers) = PacketQueue::new::<B, _>(alloc, 2)?;   // two takers, for two threads
//! injector.inject(&rt, job)          // waits for a place; Err(job) if the queue is closed
//! taker.next(&rt)                    // waits for a message: Job(..) or Stop; None if no more can come
//! injector.stop(&rt)                 // a Stop for each worker
//! let left = reckon(injector, takers);    // how many jobs nobody took
//! ```
//!
//! What always holds: `Balanced` in `specs/Hands.antt`, the rule. "As often" is said by weights: give each
//! message any number, and the sums of both sides are equal. For example, give one job 1 and all others 0.
//! Then a sum says how often that job stands there.
//!
//! What is tricky:
//!
//! - Each end knows its own order, and nothing is said of the order between two takers.
//! - No clause says when a job is handed back, or when a taker finds none. The tests try both.
//! - A taker that is dropped takes its part along. Then nobody can reckon any more.
//! - After 2^64 - 1 jobs an end waits for ever, because it counts them in 64 bits.
//!
//! A queue with no workers is closed from the start: each job is handed back, and `stop` has put all its
//! messages.
#![tactic(auto)]

mod injector;
mod message;
mod queue;
mod reckoning;
mod rule;
mod taker;

pub use injector::Injector;
pub use message::Taken;
pub use network_model::NoMemory;
pub use publication::{FabricName, Job};
pub use queue::PacketQueue;
pub use reckoning::reckon;
pub use taker::Taker;
