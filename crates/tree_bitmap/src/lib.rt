//! Forwarding: for an address, the published row with the longest prefix that covers it.
//!
//! An image keeps its rows in a tree bitmap (W. Eatherton, G. Varghese and Z. Dittia, *Tree Bitmap:
//! Hardware/Software IP Lookups with Incremental Updates*, 2004). An address goes down the tree four
//! bits at a time, by nine nodes at most. A node is two bitmaps and two places:
//!
//! ```text
//!  internal, 15 bits: which prefixes of 0 to 3 further bits have a row
//!      length 0            0                    the bit of the last l bits with value x
//!      length 1        1       2                is 2^l - 1 + x
//!      length 2      3   4   5   6
//!      length 3     7 8 9 .. .. 14
//!  external, 16 bits: which of the 16 children there are, by the next four bits
//!
//!  result_base -> [entry][entry] ..     in the order of the internal bits
//!  child_base  -> [node][node] ..       in the order of the external bits
//! ```
//!
//! A child's place is `child_base` and the number of external bits below its own that are set, its
//! *rank*; so is a result's. Depths 0 to 8 stand after 0, 4, .., 32 bits; at depth 8 a node has internal
//! bit 0 alone, the prefixes of 32 bits, and no children.
//!
//! - A look-up notes at each node the longest prefix that ends there and covers the address. Then it goes on
//!   to the child of the next four bits. The last that it noted is the answer, because a longer prefix ends
//!   deeper, or in the same node at a higher bit.
//! - A row is set from the root down. If a child or a result is missing, a block of one cell more takes the
//!   place of the old block ([`node_pool`]), with what stood to its right moved up by one. The cells are
//!   reserved before the first is written, so a refusal leaves the image as it was.
//! - A row stays. A router publishes that a prefix has no route by a row with a null entry, so it takes no row
//!   out of its image. (`array_bitmap` does take rows out, for programs that keep a table of their own.)
//!
//! What always holds of a tree: its root is in use, the children and results of every node that is in
//! use are there, no two nodes share any, and the root is no one's child (`IsLaidOut` in
//! `specs/Tree.antt`). Contracts see an image as its rows and its generation, and no cell.
//!
//! Where there was a choice:
//!
//! - The rows that an image stands for are those of all prefixes that have an entry (`table_rows`),
//!   although the image keeps no such list. So contracts are equations. Which cells are in use is kept
//!   with each cell, so soundness need not speak of reachable nodes.
//! - Nodes with nothing in them are left by a set that is refused half way, and the next set of that row
//!   uses them.
#![tactic(auto)]

mod image;
mod lanes;
mod node;
pub mod parts;
mod tree;

pub use image::Image;
pub use network_model::{Entry, Prefix};
pub use tree::Visits;
