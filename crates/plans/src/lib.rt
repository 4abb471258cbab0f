//! What a scenario asks for, and what can be wrong: the text of a file is read, and a [`Plan`] is made of it.
//!
//! A scenario can be wrong in many ways, and often in several at once. Whoever wrote it has to be told one
//! fault, always the same one, with its place. So the tests have a fixed order, and each has its number:
//!
//! ```text
//!   file            47 Unreadable, 46 TooLarge (above 4,194,304 bytes; a journal above 268,435,456)
//!   document        40 BadToml, 41 BadKey                             `src/document.rt`
//!   names           42 BadName
//!   network         24 BadRouters, 25 to 27 with their place          `world`
//!   other lines     1 to 5, 43, 45, 46 (more than 10,000 commands)    `script`
//! ```
//!
//! The document is TOML, because people and programs know it, and has exactly four keys, each with an array of strings:
//!
//! ```text
//! routers = ["a", "b"]                     # the names of the routers
//! links = ["a b 5 5"]                      # two names, and the cost from each
//! prefixes = ["10.0.0.0/8 a 1"]            # a prefix, a router that is attached to it, the cost
//! script = ["up a b", "settle"]            # the commands, in order
//! ```
//!
//! What the strings say is read by `script`, so a string may be any text. What is TOML says the kit's crate `toml`
//! (`parse_document`), and `specs/Document.antt` adds the four keys alone.
//!
//! A [`Plan`] is a network that can be opened, the names of its routers, and the commands of its script. A
//! [`Fault`] is a kind and the place where it stands, if it stands in a text ([`Where`]). It is displayed as `25
//! BadLink at links 0`.
//!
//! ```text
//! let text = read_text(alloc, file)?;
//! let Plan { network, directory, commands } = read_plan(alloc, &text)?;
//! // or, at the end of a program:
//! return refuse(fault, &mut err);      // prints `dualnet: 25 BadLink at links 0`, and answers 1
//! ```
//!
//! What always holds: a plan is made only of a text that is a scenario without faults (`IsScenario` in
//! `specs/Scenarios.antt`). If none is made, the fault is the first in this order (`IsScenarioFault`), or
//! want of memory. The exit status follows from the kind: it is 1 for a fault in the input. It is 2 if a step or a
//! job was refused, no state could be saved or restored, the output could not be written, or memory ran out
//! (`status_of` in `specs/Faults.antt`).
//!
//! What is tricky: a text that is no TOML document is `40 BadToml`, whatever keys it has, and a document with a fifth
//! key, or a number in a list, is `41 BadKey`. The network's faults come before those of lines, although lines are
//! read first. The network is made of what was read before the first faulty line. Only a name that is no router's
//! name comes first.
//!
//! A document of times is read by `timing`. Where it is at fault is a [`Where`] too, because a scenario and a
//! document can have faults of one kind, and advice has to know which of them to show.
#![tactic(auto)]

mod document;
mod fault;
mod outcome;
mod place;
mod plan;
mod read;

pub use document::{DocumentFault, Lines, lines_at, read_scenario};
pub use fault::{Fault, refuse};
pub use outcome::Outcome;
pub use place::{TimesKey, Where};
pub use plan::{Plan, read_plan};
pub use read::{read_bytes, read_failure, read_text};
