//! A fabric as a lock guards it: its steps and turns, with the books in which they are counted for each
//! holder of a share.
//!
//! A clause can say of a call that takes a lock what it did, but not of which fabric: others may have
//! stepped it meanwhile. So what is guarded is named ([`ControlName`]) by the fabric from which it began, the
//! steps that may be asked for, and three *ledgers*. In two of them each holder's share adds up the numbers of
//! the steps that it did, and the third counts the writers that are out:
//!
//! ```text
//!   Guarded                                   beside it
//!     fabric  journal s1 .. sn                  Share 0   sum of its holder's steps
//!     books   high * 2^64 + low                 Share 1
//!             = sum of the steps' numbers       ..        = share 0 + share 1 + ..
//! ```
//!
//! A step has a number that no other step has, and the sum of a journal tells how many it has; so whoever
//! hands all shares in ([`Guarded::close`]) knows that the journal has just the steps that they did, and no
//! thread can have counted a step that it did not do.
//!
//! What always holds: the fabric is that of the name with some more steps done, each one that some router had
//! to do next, or that may be asked for (`IsServed` in `specs/Served.antt`), so that the headline holds of it.
//!
//! Where there was a choice:
//!
//! - The sum of a share stands in two ledgers, because a ledger adds 64 bits at a time: one has the units
//!   of 2^64, the other the rest.
//! - The name has how many writers were out when the books were opened, because `settle` opens those of one
//!   fabric again and again. Outstanding tickets stay so until they are closed, because no ticket is taken back
//!   that was not given here.
//! - A pass takes many turns, because each step but a publication is shorter than the lock's way from one
//!   thread to another. It ends with 512 rows to publish, by the program's `THRESHOLDS`, and leaves
//!   publications of 32 rows and more to errands.
#![tactic(auto)]

mod errand;
mod guarded;
mod name;
mod pass;
mod share;
mod thresholds;

pub use errand::Errand;
pub use guarded::Guarded;
pub use name::ControlName;
pub use pass::{MOST_TICKETS, Pass, rows_due};
pub use share::{Opening, Share};
pub use thresholds::{NO_THRESHOLDS, THRESHOLDS, Thresholds};
