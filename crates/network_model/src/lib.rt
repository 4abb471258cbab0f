//! What a network of DUAL routers is: the plain types that code and definitions share, and the definitions
//! that every contract above cites.
//!
//! A theorem about a model says nothing of a program that was written beside it, so both use one set of
//! definitions. The code's contracts cite them, and so do the laws, without a translation in between: a
//! `Vec<Outgoing>` of the code is the `List Outgoing` of the definition. So a law of the definitions is a law
//! of the program.
//!
//! ```text
//!   specs/Machine       one router's machine for one prefix: what an event makes of it, and what it sends
//!   specs/NextHops      the next hops that a router may use beside its rows
//!   specs/World         links, routers and attachments, and with what a network opens
//!   specs/Network       which faults a network may have
//!   specs/Step          the eight steps: when each is lawful, why it is refused, and what it makes
//!   specs/Run, Turns    lists of steps; what a router does next, and when nothing is left to do
//!   specs/Forwarding    longest match by published rows, traces, walks, and when a network is quiet
//!   specs/Publication   patches and images            specs/Journal   steps as numbers, and their sum
//!   specs/View          a network as one prefix sees it, for the laws
//! ```
//!
//! Four steps of a network in which router 1 is attached to a prefix:
//!
//! ```text
//! LinkUp { link: 0 }                 // the link is up in session 1, and both ends have a notice to take
//! Deliver { router: 1, port: 0 }     // router 1 takes its notice; what its machines send is held back
//! Publish { router: 1 }              // its chosen rows are in force; what it holds may leave
//! Release { router: 1 }              // its oldest message goes onto the link
//! ```
//!
//! What always holds: worked examples hold of the definitions by computation (`proofs/MachineRows.antt`,
//! `proofs/NetworkRows.antt`), and a step that can be asked for is lawful exactly if it is not refused
//! (`proofs/Lawful.antt`).
//!
//! The machine is that of J. J. Garcia-Luna-Aceves, *Loop-Free Routing Using Diffusing Computations*, 1993,
//! from which it differs as docs/model.md says. Forwarding is that of RFC 1812, section 5.2.4.3. The gate,
//! which holds messages back until rows are published, is this project's own.
//!
//! What is tricky: nearly all crates stand on this one, so a change here proves them all again. Since a
//! mistake here is in every law, read a definition aloud before you change it.
#![tactic(auto)]

mod item;
mod machine;
mod memory;
mod network;
mod route;
mod step;
mod trace;

pub use ipv4_prefix::Prefix;
pub use item::{Held, Item, Message, Notice};
pub use machine::{Event, Neighbour, Outgoing, PortInfo};
pub use memory::{NoMemory, SmallAllocator};
pub use metric::{BadCost, Cost, Distance, Kind};
pub use network::{End, Limits, LinkSpec, MOST_PORTS, NetworkFault, Offer, Place, Port};
pub use route::{Answer, Entry, NextHop};
pub use step::{Refusal, Step};
pub use trace::{Ending, Trace};
