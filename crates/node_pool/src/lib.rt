//! Memory for the nodes and results of a tree: blocks of cells, taken and given back.
//!
//! An image changes row by row for as long as its router runs. A new row makes blocks of children or
//! results a cell larger, and the block that it leaves must be found again without memory.
//!
//! So all cells of one kind stand in one vector, a [`Pool`]. The *place* of its first cell, a number of 32
//! bits, names a block. A free block names the next free one of its size in its own first cell, so to give a
//! block back takes no memory. A [`NodePool`] is two such pools, one of nodes and one of results.
//!
//! ```text
//! let mut pool = Pool::new(Global);
//! let a = pool.take(2, x)?;           // cells 0 and 1         [x x]
//! let b = pool.grow(a, 2, 1, y)?;     // cells 2, 3 and 4      (f f)[x y x]     (f) is a free cell
//! let c = pool.take(2, z)?;           // cells 0 and 1 again   [z z][x y x]     it takes no memory
//! ```
//!
//! - `take` uses a free block of the very size, if there is one. If not, the pool gets more cells at its end.
//! - `grow` moves a block to one that is a cell larger, with a gap for the new value, and the old block is
//!   free then.
//! - `reserve` makes room first, so that takes which ask for no more cells than this are not refused.
//!
//! The *spare* of a size is how many free blocks of it there are, and the *room* is how many cells can be
//! added without memory. A pool has at most 2^32 cells, and the room counts that bound.
//!
//! What always holds (`IsLinked` in `specs/FreeLists.antt`): each list links as many free blocks as it
//! counts, all their cells are free, and no two of them share a cell. Contracts see a pool as a function from
//! places to values. So blocks in use never overlap: every cell of a block that is taken was free, and all
//! others stay (`IsTaken` in `specs/Pool.antt`).
//!
//! What is tricky: a pool does not know which cells were taken as one block. When you give cells back, you
//! say how many they are, and they only have to be in use.
//!
//! Where there was a choice:
//!
//! - Places have 32 bits, so that a node with its tag takes 16 bytes. With 64 it would take 32.
//! - A pool takes a block with the value that its cells get, so that no cell is without one.
#![tactic(auto)]

mod cells;
mod pool;
mod pools;

pub use cells::Cell;
pub use network_model::NoMemory;
pub use pool::Pool;
pub use pools::{Block, MOST_NODES, MOST_RESULTS, NodePool};
