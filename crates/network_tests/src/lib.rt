//! Tests of images, machines, links, worlds and networks in simulated time, each through its public surface.
//!
//! A body that gives up for want of memory meets any contract, because such a refusal is always allowed. So
//! calls that take memory are run here on a path on which they have to succeed, and some facts have no
//! clause. For example, rows that come and go take no more memory from their second round on. What the tests of
//! `network_ffi` or the cases of `trials` run is not run here again.
//!
//! The tests stand in a crate above those that they test, because a crate with tests is checked a second time
//! with them. So they see public surfaces alone, as a user does.
//!
//! ```text
//!   pools, node_pools, word_pools     blocks that are taken and given back
//!   images, array_images, word_images rows that are set, listed and taken out, and looked up
//!   patches                           what patches make of images
//!   machines                          worked tables of one machine, with origin states and awaited ports
//!   links, worlds, wide               links, two routers, and the network of the widest limits
//!   timed                             want of memory in simulated time, and for who is cut off
//!   refusals                          want of memory elsewhere
//! ```
//!
//! Want of memory (`src/refusals.rt`): a call is made over a heap with 0, 16, 32 .. bytes left, until it is
//! done. A refused call leaves what can be read as it was. Done again with room, it ends as if it had never
//! been refused.
//!
//! What a test expects is taken from the definitions or from an outside source, and never from what the
//! program gave. The crate promises nothing, and no crate stands on it.
#![tactic(auto)]

#[cfg(test)]
mod array_images;
#[cfg(test)]
mod equal_to;
#[cfg(test)]
mod images;
#[cfg(test)]
mod links;
#[cfg(test)]
mod machines;
#[cfg(test)]
mod node_pools;
#[cfg(test)]
mod patches;
#[cfg(test)]
mod pools;
#[cfg(test)]
mod refusals;
#[cfg(test)]
mod timed;
#[cfg(test)]
mod values;
#[cfg(test)]
mod wide;
#[cfg(test)]
mod word_images;
#[cfg(test)]
mod word_pools;
#[cfg(test)]
mod worlds;
