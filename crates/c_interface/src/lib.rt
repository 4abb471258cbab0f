//! What the libraries for C programs share: the numbers of faults, rows as C has them, and what a handle
//! owns.
//!
//! C has no `Result`, no enum with fields and no owner. So each call of the three libraries (`lookup_ffi`,
//! `router_ffi`, `network_ffi`) answers a number, reads and writes plain structs, and is handed
//! a pointer. This crate says once what these mean.
//!
//! - A *status* is 0, or the number of the [`CallFault`] for which the call was refused. Numbers that the program
//!   has too (`docs/dualnet.1`) mean the same here. 6 to 9, 36 to 39, 44, 50, 53, 56 and 57 are of the libraries alone.
//! - A [`Row`] is a prefix, and where packets go that it matches. Its `kind` is 0 for local, 1 for via, 2 for
//!   unreachable, and in answers 3 for no row.
//! - A *handle* is a pointer to a box, and a flag if there is one. What each library's handle holds and owns
//!   is said by one definition (`specs/Handles.antt`).
//!
//! ```text
//!   C:      struct tuhvondi_row row = { 0x0a000000, 8, 1, 0, 4 };      10.0.0.0/8 via port 0, session 4
//!   here:   row.read()                       Ok((10.0.0.0/8, Entry::Via { port: 0, session: 4 }))
//!           Row { len: 33, ..row }.read()    Err(CallFault::BadLength)
//!           status(Err(CallFault::BadLength))    3
//! ```
//!
//! What always holds: a number is the fault's and no other's (`fault_number` in `specs/Faults.antt`). A row
//! is read exactly if it has no fault (`row_fault` in `specs/Rows.antt`). If it has several, the first is
//! told: the length, then bits after it, then the kind. `IsStatusBy` is how a call answers: what its tests
//! find, or if they find nothing, done or want of memory (20).
//!
//! What is tricky: only a row via a neighbour has a port and a session. In rows that you give, these fields
//! of other rows are not read. In answers they are 0.
//!
//! `include/tuhvondi.h` and `include/tuhvondi_router.h` have the same numbers and structs for C. No proof
//! compares them with this crate, but `docs/check` compares the numbers.
#![tactic(auto)]

mod fault;
mod row;

pub use fault::{CallFault, status};
pub use row::{Row, read_prefix};
