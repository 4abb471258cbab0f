//! A network that runs in simulated time: a discrete-event simulation.
//!
//! How long a network takes to come to rest depends on how long messages are on their way and how long
//! routers take to publish. A list of steps says nothing of that, so here each direction of a link has a
//! *delay*, and so has each router. What is due first is done first, and the clock jumps from one event to
//! the next.
//!
//! ```text
//!   TimedSimulation
//!     simulation   the network, its world and the images in force, as the steps made them
//!     clock        the moment of the last event, in microseconds since the opening
//!     links        for each direction its delay, and for each item on its way the moment of its arrival
//!     routers      for each its delay, and since when it has something to publish
//!     changes      those that are given and not yet done, by their moments
//!     minima       for each router when it has something to do next, and which of them is first
//! ```
//!
//! The *event list* is what is left to do, each at its moment:
//!
//! - a change that was given, at the moment that was given with it;
//! - a release of a message that may leave, and the notice of a router's own attachment: at once;
//! - a publication: the router's delay after the moment since which it has something to publish;
//! - an item on a link: the delay of its direction after the moment at which it was put.
//!
//! Of one moment changes come first, in the order in which they were given, and then routers by number. A
//! router releases first, and then publishes, takes items by ascending port, and takes the notice of its
//! attachment. So a run is determined by what is given.
//!
//! ```text
//! let mut timed = TimedSimulation::open(alloc, network, &delays, &publications)?;
//! timed.at(0, Step::LinkUp { link: 0 })?;
//! timed.at(1_000_000, Step::LinkDown { link: 0 })?;
//! let ran = timed.run_to_rest(1_000_000);              // timed.now() is the moment of rest
//! ```
//!
//! The steps of events are steps of the world, each lawful where it is done. So the four parts of the
//! headline hold at every moment, whatever the delays are. A direction's delay does not change, so its items
//! arrive in the order in which they were put. Sums of moments stop at 2^64 - 1, and an event at that moment
//! is refused.
//!
//! What always holds (`IsTimed` in `specs/Runs.antt`): some events, whose moments never decrease, lead by
//! lawful steps from the opening of the network to its world, and the moments that are kept are those of the
//! routers (`KeepsMoments` in `specs/Next.antt`). A refused call changes nothing.
//!
//! Where there was a choice:
//!
//! - A notice of a link takes the direction's delay, as a message does, so one list for each direction
//!   keeps the order. A delay cannot change, because then a later item could arrive first.
//! - What is due is said twice. `next_event` says which event is next, as the code looks for it, and
//!   `IsDue` says of each event by itself that it is left to do, and when. So a `next_event` that leaves
//!   something out, or does it late, does not pass.
//! - A row that changes back before it is published begins its delay anew later.
//! - Sums stop at 2^64 - 1, and an event at that moment is refused with 52 (`TimeSpent`), because a sum
//!   that wrapped would be done first. A change for a moment that is past is refused with 51
//!   (`PastMoment`).
//! - A tree has the moment of each router (`minima`), and after an event only those routers are asked again
//!   that its step touched (`src/again.rt`), because all others keep what they have to do next. A heap of events
//!   would have to take out those of messages that a link loses.
#![tactic(auto)]

mod again;
mod clocked;
mod events;
mod fault;
mod links;
mod timed;

pub use events::{Change, Event, is_change};
pub use fault::TimeFault;
pub use links::LinkDelays;
pub use network_model::{NoMemory, Prefix, Refusal, Step};
pub use simulation::Simulation;
pub use timed::{TimedRan, TimedSimulation};
pub use world::Network;
