//! A network that runs: its world, how many steps made it, and which router is next.
//!
//! A network runs in more than one place: a `simulation` owns an image for each router, and a `fabric` has
//! writers, readers and a journal. Both do the same steps of the same world, in turns, and both promise the same
//! of them, so what they share is here once.
//!
//! ```text
//!   Course
//!     network   the network that was opened, without faults
//!     world     = opening, then s1, then s2, .., then sn     each step lawful
//!     steps     n, at most 2^64 - 1; the steps themselves are not kept
//!     sent      how many updates, queries and replies these steps put on links
//!     watch     which routers may have something to do: a hint
//! ```
//!
//! What always holds of a course (`IsCourse` in `specs/Course.antt`): some list of lawful steps, as long as the
//! count says, leads from the opening of the network to the world. From that come, by the laws, the parts of the
//! headline that speak of published tables (`headline` of [`Course::holds`]): no packet circles, at quiet rows
//! lead at least cost, and left alone the network comes to rest there. Where the published tables are, as images
//! or otherwise, is for whoever has the course; which image is in force, and which is due, `specs/Images.antt`
//! says for all of them.
//!
//! What is tricky: a router that has something to do may have to wait for something outside of its world, as a
//! fabric's router waits for its writer. [`Shut`] tells of which steps that is so.
//!
//! [`run`] and [`settle`] do steps of anything that does them as a course does ([`Stepping`]).
//!
//! Where there was a choice:
//!
//! - After 2^64 - 1 steps the next is refused with `JournalFull` (19), though no journal is kept, because
//!   no other refusal says that a count is full.
//! - That routers take turns in cyclic order, or in one that the seed draws, is seen in the code. Which
//!   of them may have something to do is a hint, and if it names none, all are asked.
#![tactic(auto)]

mod course;
mod due;
mod order;
mod sent;
mod stepping;
mod watch;

pub use course::Course;
pub use due::{NoneShut, Shut};
pub use network_model::{NoMemory, Refusal, Step};
pub use order::{Order, Turns};
pub use sent::Sent;
pub use stepping::{Stepping, run, settle};
pub use world::{Network, Ran, World};
