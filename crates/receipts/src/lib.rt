//! Receipts for a list that only grows. The list exists in the proofs alone.
//!
//! Whoever publishes has published a list: images, or patches. Readers answer by some beginning of it, and a
//! later answer must not be by an earlier beginning. So what a reader knows is a *receipt*, which stands for the
//! elements that the list had at some moment. At run time it is one number, the count of them.
//!
//! ```text
//!   open ──> Head, Receipt of nothing             Receipt, Head, element ── add ──> Receipt with one more
//!   Receipt, Receipt ── begins ──> whether the one begins the other
//! ```
//!
//! - The list is the log of a *book* ([`logbook`]), whose first word counts its elements. The writer has that word
//!   ([`Head`]), so `add` finds out whether the receipt is of the whole list.
//! - What an element is in the proofs, and what stands for one at run time, are two types (`Element`): of an image
//!   that is published it is the table, of patches it is their rows.
//!
//! What always holds: two receipts of one book are of beginnings of one list, so the one with no more elements
//! begins the other (`meet`, `GrowsTo` in `specs/Logs.antt`). A receipt can be copied, because it takes no memory
//! and gives no right.
//!
//! What is tricky: a receipt says nothing of another book, and no type tells two books apart here. `publication`
//! and `lookup_calls` keep them apart, the one by the name of a fabric, the other by the writer's own places.
#![tactic(auto)]

mod receipt;

pub use receipt::{Add, Element, Head, Law, Nothing, Receipt};
