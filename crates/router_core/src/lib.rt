//! One router of a network: its ports, a machine for each prefix it has heard of, its table and its gate.
//!
//! DUAL is defined for one destination, and a router has many. A link that fails concerns all its machines
//! at once. What they decide has to come into one table and leave by one queue. A [`Router`] puts these
//! parts together, and does one router's part of each step of the network:
//!
//! ```text
//!   item from a port ---> one machine, or all ---> rows that are chosen      (`route_table`)
//!                                      |
//!                                      '---------> messages, held back       (`release_gate`)
//!   mark_published        the chosen rows are in force, and all that is held is ripe
//!   release               the oldest message leaves, if it is ripe
//! ```
//!
//! - `accept` takes an item from a port. A notice of the link changes the port, and then each machine meets
//!   it, in the order of the prefixes. A message meets the machine of its prefix alone.
//! - `notice` takes a notice of the router's own attachment, which the machine of that prefix meets.
//! - The first message or notice that names a prefix opens its machine. Before that it is *unheard*.
//!
//! ```text
//! if router.can_take(port, &item) { router.accept(port, &item)?; }
//! if router.due() { router.mark_published(); }
//! while let Some(held) = router.release() { .. }    // for the port and the session that it names
//! ```
//!
//! The contracts say exactly what the definition says (`router_accepting`, `router_at_home`,
//! `router_publishing`, `router_releasing` in `network_model/specs/Step.antt`).
//!
//! What always holds (`IsRouter` in `specs/Parts.antt`): there are at most 32 ports. The machines stand in
//! the order of their prefixes, each over the router's ports. The control rows are those that the machines
//! choose, so the code sets one row when one machine has met an event.
//!
//! What is tricky is memory: a notice must not be refused after some machines have met it. So room is made
//! first for all that they may send, one message more than there are ports for each. Besides, a router always
//! has room for 33 messages (`specs/Room.antt`). So if it holds nothing, no message of a known prefix is
//! refused.
//!
//! A router in a process of its own can also publish some of its rows, or forget a prefix
//! (`specs/Alone.antt`).
//!
//! Where there was a choice:
//!
//! - The allocator is the last type parameter, and `Global` if you name none. A machine, a router and a
//!   world ask for a `SmallAllocator`, which is known to take no room, or as much as a reference, because
//!   a value with places for records beside an allocator of unknown size could not be known to fit in
//!   memory.
//! - A router keeps room for 33 messages from its opening on, one more than it can have ports. So if a
//!   program publishes and releases after each message, none of a known prefix is ever refused for want
//!   of memory.
//! - A notice that an attachment is gone opens a machine without a route, if the prefix is unheard. No
//!   run comes to this, because notices come in order.
#![tactic(auto)]

mod effects;
mod holding;
mod knowledge;
mod router;

pub use holding::held_messages;
pub use network_model::{Cost, Entry, Held, Item, Message, NoMemory, Port, Prefix};
pub use router::Router;
