//! What the calls on whole networks do, for C programs, which have a network behind a handle (`network_ffi`).
//!
//! C has a network as lists of numbers, does steps as numbers, and is shown numbers.
//!
//! ```text
//!   LimitsParts, LinkParts, AttachmentParts ── open ──> Running, by steps        (or Failure, FaultPlace)
//!   the same, DelayParts ── open_timed ──> Running, in simulated time
//!   StepParts ── read ──> Step ── of ──> StepParts
//!   Simulation, World ── look_up, trace_of, rows_of, machine_of, queue_of, .. ──> what C is shown
//! ```
//!
//! A network goes on by the steps of its caller or in simulated time ([`Running`]), and what is shown of both is the
//! same. A step that is asked of a network with a clock is refused, and so is a moment of one that has none.
//!
//! What always holds: numbers are tested in a fixed order, and the first fault is answered. Each refusal has a
//! number of its own (`failure_number` in `specs/Failures.antt`), which is never 0. What C is shown is what the
//! definitions say (`specs/Calls.antt`, `specs/Shown.antt`). Nothing here changes a network but its steps and, with
//! a clock, the list of changes that are to be done.
//!
//! What is tricky: lists that are written for C have a length that C chose. So a call writes over the first
//! elements, as many as fit, says how many these are and whether there are more, and leaves the rest as it was.
#![tactic(auto)]

mod counts;
mod delays;
mod failure;
mod gate;
mod handle;
mod link;
mod machine;
mod opening;
mod parts;
mod rows;
mod running;
mod spells;
mod step;
mod stepped;
mod timed;
mod trace;

pub use counts::Counts;
pub use delays::{DelayParts, EventParts, read_change};
pub use failure::{Failure, status};
pub use gate::{GateShown, NoticeShown, write_held, write_notices};
pub use handle::NetworkHandle;
pub use link::{ItemShown, LinkShown, queue_of};
pub use machine::{MachineShown, NeighbourShown, machine_of};
pub use opening::{copy_of, open, open_timed};
pub use parts::{AttachmentParts, FaultPlace, LimitsParts, LinkParts};
pub use rows::{look_up, rows_of};
pub use running::Running;
pub use spells::{SpellParts, write_ended, write_going_on};
pub use step::StepParts;
pub use timed::is_at_rest;
pub use trace::trace_of;
