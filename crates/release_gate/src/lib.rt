//! What a router holds back until it has published: a list of messages, those at the front ripe.
//!
//! A router chooses a row first, and puts it in force later, when it publishes. If it told its neighbours
//! of the row at once, they could send it packets for that row. But it would still forward these by the old
//! one, perhaps back to them. So what a router sends waits in its [`Gate`] until the router has published.
//!
//! A message is *held* when it is sent, *ripe* when its router has published since, and *released* when it
//! leaves. Messages leave in the order in which they were held, so the ripe ones are always at the front:
//!
//! ```text
//!   hold m1, hold m2     [ | m1 m2 ]      nothing is ripe: `release` gives none
//!   ripen                [ m1 m2 | ]      the router has published
//!   hold m3              [ m1 m2 | m3 ]   m3 waits for the next publication
//!   release              [ m2 | m3 ]      gives m1
//! ```
//!
//! What always holds: at most as many messages are ripe as are held (the invariant of `Gate`). Contracts see
//! the list and the count of the definition (`Gate` in `network_model/specs/World.antt`). Beside them stands
//! the room that is left (`GateState` in `specs/GateState.antt`). `hold` is refused only if there is no room,
//! and `reserve` makes room before.
//!
//! What is tricky: a gate does not know if the session of a held message is over. The link finds that out
//! when the message is put there (`link_fifo`).
//!
//! The rule is this project's own, and no part of the paper on DUAL. The second of the four facts on which
//! the freedom from loops rests speaks of it (`loop_freedom`).
#![tactic(auto)]

mod gate;

pub use gate::Gate;
pub use network_model::{Held, Message};
