//! A fabric under a lock, stepped by several threads.
//!
//! - [`Control::step`] does the step that is asked, [`Control::turn`] the one that a router has to do
//!   next. A turn that publishes takes a ticket under the lock, publishes without it, and gives the ticket
//!   back under it again.
//! - [`Control::serve`] starts a thread for each share, which takes turns at its own routers until the
//!   fabric is settled. [`settle`] does it with one thread, and calls others where there is as much to
//!   publish as its caller's [`Thresholds`] say. [`settle_in_order`] does it with one thread, in an order of its
//!   caller's.
//!
//! What lies under the lock, and how whoever closes it knows what was done, is the crate `guarded`.
//!
//! Where there was a choice:
//!
//! - Of several refusals `settle` answers 35 before any other, so a caller who is answered another knows
//!   that its writers are in. `serve` answers that of the lowest thread.
//! - By the program's `THRESHOLDS`, threads are started with 16,384 rows to publish and a publication of
//!   512 or more due, and a thread that has 512 rows to publish calls another. One thread begins alone, because
//!   all steps but publications are done under the lock.
//! - Some things no clause says, and they are seen in the code: that no ticket of a turn is rejected
//!   (35), which thread did a step, and that `settle_in_order` keeps to the order that it is given. If
//!   the system gives fewer threads than there are shares, `serve` may never return. `settle` returns
//!   then, because each of its threads serves all routers.
#![tactic(auto)]

mod control;
mod crew;
mod crowd;
mod ordered;
mod progress;
mod serve;
mod settling;

pub use control::Control;
pub use course::Order;
pub use crew::Crew;
pub use guarded::{ControlName, NO_THRESHOLDS, Opening, Share, THRESHOLDS, Thresholds};
pub use network_model::{Refusal, Step};
pub use ordered::settle_in_order;
pub use progress::Progress;
pub use serve::{NoGate, TurnGate};
pub use settling::settle;
