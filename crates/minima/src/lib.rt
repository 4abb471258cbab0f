//! When each router is due, and which of them is first: a tree of least pairs.
//!
//! Whoever does what is due in the order of its moments has to find the first of many again and again, although
//! only a few of them change in between. So a [`Minima`] keeps a pair of a moment and a router in each node of a
//! tree, and above two nodes the lesser of their pairs:
//!
//! ```text
//!                  (3, 2)                   the root: router 2 is first, at 3
//!          (7, 1)          (3, 2)
//!       none   (7, 1)   (3, 2)   (5, 3)     a leaf for each router, 0 to 3
//! ```
//!
//! ```text
//! let mut minima = Minima::new(alloc, 4)?;           // nothing is due
//! minima.set(1, Some(7));
//! minima.set(2, Some(3));
//! minima.set(3, Some(5));
//! minima.first()                                     // router 2, at 3
//! ```
//!
//! To set a moment takes time by the logarithm of the routers, and to find the first takes none that grows. What
//! is left alone costs nothing, which a heap of events could not promise if some of them have to be taken out.
//!
//! What always holds (`IsTree` in `specs/Trees.antt`): the leaf of a router has that router, and each node above
//! the leaves has the lesser of the two below it. From that comes that the root is the first of all
//! (`IsFirstDue`). Pairs are compared by both of their parts, so that it does not matter in which order the leaves
//! stand, and any number of routers will do, not only a power of two.
#![tactic(auto)]

mod due;
mod minima;
mod tree;

pub use due::Due;
pub use minima::Minima;
pub use network_model::{NoMemory, SmallAllocator};
