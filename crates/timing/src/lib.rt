//! Runs a network in simulated time, as a scenario and a document of times say, and tells what comes of each change.
//!
//! A scenario says what a network is, and its script in which order steps are done. Nothing there says how
//! long a message is on its way. So whoever wants to know when the network is at rest again gives a second
//! document, with the delays, and with the changes at their moments:
//!
//! ```text
//! links = ["a b 500 700"]          # microseconds from a to b, and from b to a
//! routers = ["a 20"]               # from when a has something to publish until it publishes
//! changes = ["0 up a b", "1000000 down a b"]
//! link = 1000                      # of links that are not listed
//! router = 100                     # of routers that are not listed
//! ```
//!
//! ```text
//! let end = time(alloc, scenario, times, Format::Text, false, &mut out)?;
//!
//!   0 up a b: at rest 1760 later, 9 steps, 2 updates 0 queries 0 replies
//!   1000000 down a b: ..
//!   done: 18 steps, at rest at 1000700
//! ```
//!
//! - [`time`] reads both documents, runs the network to rest, and prints a line for each change, in the order of
//!   the moments.
//! - A change that is refused is told, and taken off. The run goes on.
//! - [`run_in_steps`] keeps each step with its moment, for pictures (`view`).
//!
//! What always holds: what is done is what the simulation of the network has to do next, each time
//! (`Leads` in `specs/Runs.antt`). A change that is told as refused is refused so. The delays and the changes are
//! those that the document says (`IsTimes` in `specs/Times.antt`), and at the end the network is at rest
//! (`IsTimedToEnd` in `specs/Ends.antt`).
//!
//! What is tricky: the text of each line is proved (`lines`), but no clause says that a document which is right is
//! read, nor that each change is told. Cases do.
#![tactic(auto)]

mod document;
mod given;
mod line_reading;
mod printing;
mod run;
mod snapshot;
mod steps;
mod tally;
mod timed;
mod times;

pub use snapshot::{Begun, Snapshot};
pub use steps::{SteppedRun, run_in_steps};
pub use timed::time;
pub use times::{Times, read_times, read_times_text};
