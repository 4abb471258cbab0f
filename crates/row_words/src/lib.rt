//! Images whose rows have a word of the caller's own beside their entries.
//!
//! A data plane keeps more for a row than where packets go, for example the index of a next hop in an
//! adjacency table. An image of `array_bitmap` has one word of 32 bits for each row, and the entry and the
//! length of the prefix fill it.
//!
//! So the rows of such an image have numbers in place of their entries. A number has 24 bits, and stands for
//! a *cell* of a list, which has the entry and the caller's word:
//!
//! ```text
//!   rows of the image        10.0.0.0/8 -> 1      10.1.0.0/16 -> 3
//!
//!   cells    0                  1                      2                   3
//!            no row, 2^32 - 1   via port 1, 700        (of no row now)     local, 12
//! ```
//!
//! - To set rows is to put their cells behind the others, and to set their numbers in one call. If that is
//!   refused, the new cells are taken off again, so a refused call changes nothing.
//! - A look-up of words reads the number that the image answers, and then the word of its cell. Many
//!   addresses go down side by side, and then their cells are read. Cell 0 has the word for no row, so no
//!   branch depends on whether there is a row.
//! - A row that is set again, or taken out, leaves its cell behind. If the cells have become twice as many as
//!   the rows were, the image is made anew from its rows.
//!
//! What always holds: the number of each row is that of a cell, and not 0 (`AreSlots` in `specs/Rows.antt`).
//! Contracts see an image as its generation, and its rows with their entries and words.
//!
//! Where there was a choice:
//!
//! - Two other forms were looked at. A second image with the callers' words as its rows' words would
//!   leave 26 bits for the caller, and a look-up would go down twice. A second word in each block would
//!   cost 4 bytes a row also if you use no words.
//! - To write the word of the old cell would be shorter, but then no two rows may share a cell, and a
//!   call that is refused half way has to write old words back.
//! - An image is made anew if there are more than 1,024 cells, and more than twice as many as after the
//!   last time, so a row that is set pays for a constant share of it. If memory is refused, it stays as
//!   it is until it has twice the cells.
//! - A row may have the word 2^32 - 1, which is also the answer if no row covers the address. Whoever has
//!   to tell the two apart gives no row that word.
#![tactic(auto)]

mod cells;
mod image;
mod parts;

pub use cells::{Marked, NO_WORD};
pub use image::WordImage;
pub use network_model::{Entry, NoMemory, Prefix};
