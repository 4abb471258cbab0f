//! Memory for the blocks of a forwarding image: one pool of words, in which blocks are taken and given back.
//!
//! The problem is that of `node_pool`, for an image whose nodes are blocks of plain words. Blocks have six
//! sizes: 4, 8, 16, 32, 64 and 128 words, each at a multiple of its size, and the place of its first word
//! names it.
//!
//! - `take` uses a free block. If only a larger one is free, that is halved until it fits, and if none is
//!   large enough, the pool grows by 128 words. Nothing says which words a block has when it is taken.
//! - `give` frees a block, and `halve` frees its upper half. Neither takes memory, because the first word of
//!   a free block links the next one of its size. Free blocks are never joined.
//!
//! ```text
//! let mut pool = Pool::new(Global)?;  // [0](4)(8)(16)(32)(64)     the free block at 4 has 4 words, ..
//! let a = pool.take(8)?;              // 8
//! let b = pool.take(8)?;              // 16: the block of 16 is halved, and its upper half, at 24, is free
//! pool.give(a, 8);                    // the next take of 8 words answers 8 again
//! ```
//!
//! At place 0 there is always a block of four zeros. It is never taken, given back or written, so a place
//! that stands for no block can be 0, and a look-up reads it without a test.
//!
//! Contracts see a heap and no layout (`blocks` in `specs/Pool.antt`): from places to the words of the block
//! in use that begins there, or none. Each call changes it at one place, so nothing has to be said of
//! overlaps.
//!
//! What always holds (`IsLaid` in `specs/Layout.antt`): all blocks, in use or free, lie apart, each at a
//! multiple of its size, and each list links as many free blocks of its size as it counts.
//!
//! What is tricky: no word tells which blocks are in use. Contracts know it by a `Tag` (`src/known.rt`), a
//! value with no bytes, whose numbers only clauses read. So to know it costs neither time nor memory.
#![tactic(auto)]

mod known;
mod pool;

pub use network_model::NoMemory;
pub use pool::Pool;
