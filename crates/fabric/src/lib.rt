//! A network that runs, with each router's image in force and the journal of all steps done.
//!
//! A world knows which rows a router has published, and packets are forwarded by images, in which readers
//! look up at any moment. What the one says and what the others do must never part, also if memory is
//! refused in between.
//!
//! ```text
//!   Fabric
//!     course    the network that was opened, and its world: opening, then s1, then s2, .., then sn
//!     journal   s1, s2, .., sn     each lawful; with a place for each writer that is out, at most a million
//!     desks     one a router: its writer, or what stays of one that is out with a ticket
//!     readers   one a router, by which the fabric looks up itself; workers are given others
//! ```
//!
//! A step other than a publication is the world's, and is written into the journal. A publication first makes
//! the patch of the rows that differ, and of those that a refused publication left waiting. Then it hands the
//! patch to the router's writer. Only then it does the world's step, which cannot fail any more.
//!
//! A writer may *go out*. [`Fabric::ticket`] hands it over with the patch that is due, and its holder
//! publishes that while the fabric goes on. [`Fabric::give_back`] makes that the step `Publish`, or leaves
//! all as it was if nothing was published. Meanwhile deliveries and publications at that router are refused
//! with `Busy`, and all other steps go on.
//!
//! ```text
//! let (mut fabric, readers) = Fabric::<B>::open(&rt, alloc, network, unnamed, 0)?;
//! fabric.step(&rt, Step::LinkUp { link: 0 })?;
//! fabric.lookup(0, addr)?                   // what router 0's image in force answers
//! fabric.close(&rt);
//! ```
//!
//! What always holds of a fabric (`IsFabric` in `specs/Fabric.antt`): the world is the run of the journal.
//! Each image in force has the rows that its router published. Each writer that is out has a patch that is
//! still due (`LentAreDue` in `specs/Writers.antt`). From these come the four parts of the headline, which
//! `open`, `step`, `run` and `holds` hand on: `forwards`, `no_loop`, `least_cost` and `converges`.
//!
//! What is tricky: a fabric is not `Drop`, because a writer ends only by `close`, which waits for its
//! readers.
//!
//! Where there was a choice:
//!
//! - Room for the journal is made when a network is opened, for a million steps, so no step is refused
//!   for want of it. The journal's sum is kept by the fabric, because a control may be made after every
//!   step of a script.
//! - A look-up that finds its reader ahead of the writer is answered as such (22, `Stale`), which happens
//!   from a ticket's publication until the ticket is back. No clause of `left_right` rules out that it
//!   happens at other times, or that there is no image (34, `NoImage`). It does not, and no step is
//!   refused with either.
//! - Which ticket is a router's is known by its patch, which has the number after its list's generation.
//!   A ticket that `give_back` rejects is met by no test, because no program can come to one.
//! - 21 (`Busy`) comes before what the world says, because a router whose writer is out is there. So a
//!   delivery at a port that it does not have is refused with 21, too.
//! - A ticket that is closed ends its writer, which the fabric cannot know: the router stays busy, and
//!   its place in the journal stays reserved.
//! - What holds of every fabric may be asked at any time by `Fabric::holds`, which does nothing, for
//!   example of a fabric that you were handed under a lock.
#![tactic(auto)]

ghost use Rattle.fabric.specs.Ahead.{SomePacketGoesAhead};

mod desk;
mod fabric;
mod images;
mod ports;

pub use course::Sent;
pub use fabric::{Fabric, MOST_STEPS};
pub use network_model::{Answer, Entry, Prefix, Refusal, Step};
pub use publication::{FabricName, ImageReader, Job, Ticket, Unnamed};
pub use world::{Network, Ran, World};

/// The mixtures of which the headline speaks are not empty: in some fabric a packet goes on by a row that a
/// writer is still out to publish.
pub fn some_packet_goes_ahead()
    ensures { SomePacketGoesAhead }
{}
