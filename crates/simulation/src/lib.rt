//! A network that runs, with an image in force at each router, for one thread.
//!
//! ```text
//!   Simulation
//!     course    the network, its world, and how many steps and messages there were
//!     images    one a router: the rows and the generation that it published
//! ```
//!
//! A `fabric` serves threads: it has writers, readers, tickets and a journal. A simulation has none of them, so
//! it takes no lock, has no limit of steps but the count's, and is `Drop`.
//!
//! A publication makes the patch of the rows that differ, applies it to the router's image, and only then does
//! the course's step, which cannot fail any more. A patch that is refused for want of memory changes nothing.
//!
//! What always holds of a simulation besides what holds of its course (`IsSimulation` in
//! `specs/Simulation.antt`): each image has what its router published. From both come the four parts of the
//! headline, which `open`, `step`, `run` and `holds` hand on: `forwards`, `no_loop`, `least_cost` and `converges`.
//! Which image is in force, and which is due, is defined in `course`, so a library for C has no lock below it.
#![tactic(auto)]

mod images;
mod simulation;
mod tracing;

pub use course::{Order, Sent, Turns};
pub use network_model::{Answer, Ending, Entry, NoMemory, Prefix, Refusal, Step};
pub use simulation::Simulation;
pub use tracing::Traced;
pub use tree_bitmap::Image;
pub use world::{Network, Ran, World};
