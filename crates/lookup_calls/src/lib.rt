//! What the calls on images do for C programs (`lookup_ffi`), and the handles by which these hold them.
//!
//! C gives rows, words and addresses as lists of numbers, and wants answers written over lists of its own.
//! Meanwhile another thread may change the image. All of that needs no name of C, so it stands here and is
//! proved once, while a crate with tests is proved twice.
//!
//! ```text
//!   Row, word ── check_rows, check_words ──> first fault, or none
//!   rows ── image_of_rows, image_of_words ──> Shared ── apply, apply_words, remove ──> Shared
//!   Shared ── get ──> Kept ── look_up, look_up_words, list_rows, list_words ──> what C is shown
//!   Kept ── writer_of ──> ImageWriter ── publish_rows, publish_words
//!                         ImageWriter ── reader_of ──> ImageReader ── read, read_words
//! ```
//!
//! - An image is *kept* with words or without (`src/kept.rt`). Without words it stays as small and as fast as
//!   one that could have none.
//! - A *shared* image has several holders, and does not change while it has more than one (`src/shared.rt`).
//! - A *writer* has two copies, of which readers take the one that is shown, while the writer changes the
//!   other (`src/writer.rt`). It keeps the last change, because the other copy misses it.
//! - A *board* has two places for each reader, one for each copy (`src/board.rt`), where nobody waits,
//!   because each tries, and is refused if the other has the place.
//!
//! What always holds: answers are those of the longest match over the rows that were given, set in order
//! (`answer_rows` and `answer_words` in `specs/Rows.antt`). A reader never answers by an older image than
//! before (`GrowsTo` of [`receipts`]). A refused call changes nothing.
//!
//! What is tricky: what a reader knows of its writer is a receipt for a list of images (`src/past.rt`). The
//! list exists in the proofs alone, while at run time only its length is there.
//!
//! Where there was a choice:
//!
//! - The crate `publication` has such copies too, but its `publish` waits for readers, so it needs a
//!   handle `Wait`, which an exported function cannot have, and a static library may not wait. Claims of
//!   `counted_slot` never wait: one that cannot be had says so.
//! - A change is made twice, once in each copy, because to copy the whole image for each publication
//!   takes time and memory by all rows. Each reader has places of its own with unused memory between
//!   them, so that no reader slows another one down.
//! - A reader tries 1,000 times before it is refused (9), and it tries again only if its writer has
//!   published since. A copy to which something happened that cannot happen is never shown again, and
//!   each later publication is refused (9). No clause rules that out.
//! - The order of atomic steps is `SeqCst` everywhere, so without data races the orders that the model of
//!   `trials/readers` tries are all there are.
//! - An image with words stays one, even if all rows with words are taken out, because to find that out
//!   it would have to go through all rows.
#![tactic(auto)]

mod board;
mod change;
mod handle;
pub mod held;
pub mod held_words;
mod images;
mod kept;
mod lookups;
mod past;
mod patch;
mod prefixes;
mod publishing;
mod reader;
mod reader_handle;
mod rows;
mod shared;
mod writer;
mod writer_handle;

pub use handle::ImageHandle;
pub use kept::Kept;
pub use lookups::{look_up, look_up_words, read, read_words};
pub use prefixes::Block;
pub use reader::ImageReader;
pub use reader_handle::ReaderHandle;
pub use shared::Shared;
pub use writer::ImageWriter;
pub use writer_handle::WriterHandle;
