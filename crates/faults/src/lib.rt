//! The faults that the program and its libraries tell, each with its number and its name, in one table.
//!
//! Programs tell faults apart by their numbers, people by their names, and both have to be the same wherever a fault
//! comes from. So an error that the program prints says which [`FaultKind`] it is, and is displayed as that:
//!
//! ```text
//! #[derive(.., Error)]
//! #[error("{}", FaultKind::from(*self))]           // 4 HostBits
//! pub enum PrefixFault { .., HostBits }
//!
//! impl From<PrefixFault> for FaultKind {           // HostBits => FaultKind::HostBits
//!     ghost from_gives = { λ fault k. k ≡ prefix_kind fault };
//! ```
//!
//! The numbers have gaps, because some are only for the libraries for C (`c_interface`). For example, 7 says
//! there that a handle is empty, and is no kind here. The program never prints some kinds, because it does
//! not let them happen: 51 (`timed_simulation`), for example.
//!
//! ```text
//! let kind = FaultKind::of(45)?;                   // None for a number that no kind has
//! kind.name()                                      // "BadCommand"
//! ```
//!
//! A few letters are too short if you meet a fault for the first time, so `advice` has a page of each kind.
//!
//! What always holds: no two kinds have one number, and `FaultKind::of` finds the kind of each (`only` of it). The
//! number, the name and the text of a kind are those of one table (`kind_number`, `name_of` in `specs/Numbers.antt`).
//!
//! What is tricky: nearly all crates stand on this one, so a new number has them proved anew.
//!
//! Each enum of faults is one of `thiserror`, and displays its kind, for example `4 HostBits`. What the
//! derive writes has no contract, so that is tested. Which kind each is, is proved, by an `impl From` of
//! its own with a ghost member (`from_gives`) that no derive can write.
#![tactic(auto)]

mod kind;

pub use kind::FaultKind;
