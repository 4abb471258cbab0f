//! What the lines of a scenario say: names, links, prefixes and commands; and the names of routers.
//!
//! People call routers by names, and the network by numbers. Each command, fault and printed row has to be
//! translated, and a wrong number would be a wrong router. So a name becomes a number once, when a line is read
//! ([`Names`]), and a number a name once, when a line is written ([`Directory`]). What is written is in `lines`.
//!
//! ```text
//!   "a b 5 5"           ->  LinkSpec { a: 0, b: 1, from_a: 5, from_b: 5 }
//!   "10.0.0.0/8 a 1"    ->  (10.0.0.0/8, 0, 1)                             a prefix, its router, the cost
//!   "deliver b a"       ->  Command::Step(Step::Deliver { router: 1, port: 0 })
//!   "lookup b 10.1.2.3" ->  Command::Lookup { router: 1, addr: .. }
//!
//!   Directory::neighbour(1, 0)  ->  Some(0)                                port 0 of b is the one to a
//! ```
//!
//! ```text
//! let reading = read_script(alloc, &routers, &links, &prefixes, &commands)?;
//! if let Some(at) = reading.fault { .. }       // displayed as `43 BadLine at links 0`
//! ```
//!
//! [`read_script`] reads the lists in this order, and stops at the first fault. What stands before the fault
//! was read, so a caller can first look for faults of the network.
//!
//! What always holds: what was read is what the first lines say, in order, and nothing else (`AreParts` in
//! `specs/Reading.antt`). The fault is that of the line behind them, at its position in its list
//! (`ReadingOutcome`). The names are 1 to 16 small letters and digits, a letter first, and no two are the same
//! (`AreNames` in `specs/Routers.antt`). The name of a router and the one across its port are those of the
//! network's links (`specs/Directories.antt`).
//!
//! What is tricky:
//!
//! - A link may name a router that is not known. That end is read as 65535, which no network has, so the
//!   fault is found when the network is opened, after the faults of all lines.
//! - In a command, an unknown name or link is `45 BadCommand`. It comes before the fault of a cost or an
//!   address, but a prefix that the scenario does not have comes last.
//! - `deliver a a` asks for the port of a's own attachments, which has the number after its last link's.
//! - `up a` and `down a` ask for all links of a, and are no steps, so `try up a` is a `45 BadCommand`.
//!
//! Lines of a journal are tested in the same order.
#![tactic(auto)]

mod attachment;
mod command;
mod directory;
mod fault;
mod link;
mod names;
mod operand;
mod place;
mod reading;
mod step;

pub use command::{Command, read_command};
pub use directory::Directory;
pub use fault::LineFault;
pub use names::Names;
pub use place::{Key, Located, Place};
pub use reading::{Reading, Script, read_script};
pub use step::{parse_step, place_between};
