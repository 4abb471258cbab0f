//! Forwarding: for an address, the published row with the longest prefix that covers it.
//!
//! An image keeps its rows in two parts. An array goes by the first 4, 9, 14 or 19 bits of an address.
//! It has the rows of at most so many bits, and, for each value of the first bits, the answer of the
//! longest of them and the place of a block. A block is a tree-bitmap node with a stride of five bits
//! (W. Eatherton, G. Varghese and Z. Dittia, *Tree Bitmap: Hardware/Software IP Lookups with
//! Incremental Updates*, 2004), whose rows and kids stand beside it in one piece of memory:
//!
//! ```text
//!  [rows, low half] [rows, high half] [kids] [a word for each row ..] [a place for each kid ..]
//!
//!  rows, 62 bits: which prefixes of 1 to 5 further bits have a row
//!      length 1            0       1           the bit of the last l bits with value x
//!      length 2          2   3   4   5         is 2^l - 2 + x
//!      length 3          6 7 .. .. 13
//!      length 4         14 .. .. .. 29
//!      length 5         30 .. .. .. 61
//!  kids, 32 bits: which of the 32 blocks below there are, by the next five bits
//! ```
//!
//! A row's word has the whole answer in 32 bits: session, port, kind and length. Where a word stands in
//! a block follows from the number of bits below its own that are set. A block has 4, 8, .. or 128
//! words, the least that hold what is in use ([`word_pool`]).
//!
//! - A look-up begins with the array's answer. At each block it notes the word of the greatest bit that
//!   covers the address, if there is one, and goes on to the kid of the next five bits. The last word
//!   that it noted is the answer: a longer prefix ends in a deeper block, or in the same one at a
//!   greater bit.
//! - A row that the array goes by is set there, and becomes the answer of each value of the first bits
//!   that it covers and that has no longer one.
//! - A longer row is set from the array down. A block that is missing is made. A block that is full
//!   moves to one of twice the size, and its one name, in the array or in the block above, is written. A
//!   row that is refused leaves none of the blocks that were made for it.
//! - Many rows are set one after another. Where one is refused, what each prefix had before is put back,
//!   the last first. That needs no memory, so no room has to be made before.
//! - A row is taken out where it ends. A block whose words fit into half of its size moves to a free
//!   block of that size. Where none is free, it gives its upper half back, so this needs no memory, and
//!   rows that come and go take the same blocks each time. From there up, each block that is left with no
//!   row and no kid is given back, up to the first that has some.
//! - Look-ups of many addresses go down side by side, each in a *lane*, 32 at a time and one level at a
//!   time. First the bitmaps of all blocks of a level are read, so that they wait for memory at once. Then
//!   each lane takes its step. A lane whose path has ended writes its word, and leaves.
//! - A step of a look-up has no branch on what it finds. Where a block has no row or no kid for it, another
//!   word of the block is read, and a multiplication or a mask drops it.
//! - An image whose rows have become many is made anew from its rows, with an array that goes by more
//!   bits.
//! - Rows are listed in the order of their prefixes, from any prefix on. The cursor is a prefix, so it
//!   needs no memory and stays right when rows change.
//!
//! What always holds: each place in the array or in a block is that of a block in use, or 0, and no
//! block has two names; a block is as large as its words want; the array has the longest of its rows
//! (`IsSoundCells` in `specs/Tree.antt`). Contracts see an image as its rows and its generation, and no word.
//!
//! Where there was a choice:
//!
//! - Most rows of real tables have 24 bits, and blocks read five. So after 4, 9, 14 and 19 bits a row of
//!   24 bits is of the last length in a block, and its look-up reads no block more. `FirstBits::for_rows`
//!   goes by the number of rows.
//! - Rows and kids stand beside the bitmaps, because with words apart a look-up took 1.1 to 1.4 times as
//!   long in C, and blocks have sizes of powers of two, because exact sizes took 1.1 to 1.2 times as
//!   long.
//! - A block that shrinks moves to a free block of half its size. If it always gave back its upper half,
//!   a row that comes and goes at the edge of two sizes would take a larger block each time and leave two
//!   smaller ones, because free blocks are not joined.
//! - No count of rows is kept. The words of the pool say when an image is to be made anew, and then the
//!   rows are counted. The next row of a block is found by a count of zeros for each of the five lengths,
//!   because a block may have few rows.
#![tactic(auto)]

mod batch;
mod bits;
mod blocks;
mod cursor;
mod image;
mod lanes;
pub mod parts;
mod tree;
mod widen;
mod words;

pub use cursor::next_prefix;
pub use image::Image;
pub use network_model::{Entry, Prefix};
