//! What tests of several crates share: an allocator that refuses the n-th allocation, small networks, and a
//! wait for another thread.
//!
//! A test of refused memory lends [`Refusing`] to what it tries, tells it which allocation is to be refused,
//! makes one call, and asks [`Refusing::was_met`]. It counts on until a call meets no refusal.
//!
//! ```text
//! for nth in 1..MOST {
//!     memory.refuse(Refused::From(nth));
//!     let end = timed.at(moment, change);
//!     if !memory.was_met(end.is_err())? { break; }
//!     // here all has to be as it was before the call
//! }
//! ```
//!
//! The crate promises nothing, and only tests stand on it.
#![tactic(auto)]

mod networks;
mod refusing;
mod waiting;

pub use networks::{link, ten, two_routers};
pub use refusing::{Refused, Refusing};
pub use waiting::gets_to;
