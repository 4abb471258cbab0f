//! A network of routers and links, and its atomic steps.
//!
//! What a network does is a mixture of what many routers do at once. To speak of all mixtures, you need
//! steps so small that each is done whole or not at all. Then a run is a list of steps, in any order, and a
//! law has to hold after each list.
//!
//! A [`Network`] is what can be opened: so many routers, links with a cost from each end, and which routers
//! are attached to which prefixes. `Network::new` refuses the first fault with its place. A [`World`] is such
//! a network at one moment: routers, links, and each router's attachments with the notices that it has yet to
//! take. It changes by eight steps alone:
//!
//! ```text
//!   LinkUp    Down    SetCost       of a link: the link changes, and its ends are told
//!   Attach    Detach                of a router: its record changes, and it is told
//!   Deliver   the front item at a port, or of its own notices -> the router reacts, and holds what it sends
//!   Publish   the router's chosen rows are in force, and what it holds is ripe
//!   Release   the router's front message, if ripe -> its link (or nowhere: the session is over)
//! ```
//!
//! A router's ports are the ends of the links that join it, in the order of the links. The port after the
//! last is that of its own notices.
//!
//! What always holds of a world (`IsWorld` in `specs/Kept.antt`): each port lies at an end of a link that no
//! other port has. What a router has yet to take at a port leads from up or down, as it knows the link, to
//! what the link is. So a delivery needs no test of the item.
//!
//! A step is refused for its first cause (`causes` of `network_model/specs/Step.antt`), and for want of
//! memory last. A refused step changes nothing.
//!
//! ```text
//! let mut world = World::open(alloc, &network)?;
//! world.step(Step::LinkUp { link: 0 })?;
//! while let Some(step) = world.next_step(0) { world.step(step)?; }     // all that router 0 can do now
//! ```
//!
//! A [`WatchedWorld`] counts besides what is not at rest, so one comparison tells if a world has settled.
//!
//! If lawful steps lead to a world from the opening of a network without faults, the laws apply (`headline`
//! of [`World::run`]). No packet circles along the published rows. In a quiet world rows lead at least cost,
//! and a network that is left alone comes to rest there.
//!
//! Where there was a choice:
//!
//! - `World::port` answers `None` for a router or a port that does not exist, so no caller has to know
//!   that it exists, and one test refuses a step there.
//! - A link that goes down is never refused for want of memory, because nobody can put off the failure of
//!   a line. So a link that comes up, a new cost and a message ask for room for two items: their own, and
//!   the notice that the link went down.
//! - To attach a router at the cost that it has puts a notice, too. To detach one is judged by the
//!   world's record, and not by what the router has been told.
//! - Two lines of one prefix are two attachments of it, and only the same prefix twice at one router is a
//!   fault. Prefixes are counted once each.
//! - Room in the generations, which are numbers of 64 bits, is asked of the caller, and `has_room_for`
//!   tells whether it is there.
#![tactic(auto)]

mod attachment_faults;
mod attachments;
mod by_router;
mod copying;
mod link_faults;
mod network;
mod opening;
mod queue;
mod touched;
mod watched;
mod world;

pub use network::Network;
pub use network_model::{
    Cost, Limits, LinkSpec, MOST_PORTS, NetworkFault, Place, Prefix, Refusal, Step,
};
pub use queue::notices_at;
pub use touched::Touched;
pub use watched::WatchedWorld;
pub use world::{Ran, World};
