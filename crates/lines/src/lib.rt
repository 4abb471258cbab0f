//! The lines that are printed of a network, each as text for people and as an object of JSON.
//!
//! A run, a shell and a replay print the same lines, a run in simulated time has some more, and a journal keeps
//! some of them. If each wrote its own, a replay could not compare them, so what a line tells of a network is read
//! from it here. A text for people is hard to read by programs, so each line can be printed as JSON, too. A line is
//! therefore a value ([`Line`]), made once, and there are two renderings of it ([`Told`]), which stand side by side:
//!
//! ```text
//!   Line::Asked(Asked::Row { .. })        Text  b 10.0.0.0/8 via a 1
//!                                         Json  {"kind":"row","router":"b","prefix":"10.0.0.0/8",
//!                                                "entry":"via","neighbour":"a","session":1}
//!   Line::Ended(Ended::Done { steps: 9 }) Text  done: 9 steps
//!                                         Json  {"kind":"done","steps":9}
//! ```
//!
//! ```text
//! let printer = Printer { directory: &directory, format: Format::Text, listed: false };
//! printer.print(&Line::Asked(Asked::Row { router, prefix, entry }), &mut out)?;
//! print_report(fabric.world(), &printer, &mut out)?;
//!
//!   link a b up 1 5 5 queued 0 0                  costs from both ends, items to be taken at both
//!   a gen 1 held 0 ripe 0 attach 0                publications, messages held and ripe, notices
//!   a 10.0.0.0/8 passive RD 1 FD 1 local          its machine for the prefix
//! ```
//!
//! - [`print_report`] prints each link, then each router with its machines, in the order of the prefixes.
//! - [`print_state`] prints one machine, and why it is at that, if more is to be told. [`show_table`] prints
//!   a router's published rows.
//! - [`show_next`] prints what a router has to do next, [`show_queue`] what it has yet to take from a port, and
//!   [`show_held`] what it holds. [`moved_by`] tells what a step takes from a queue, or sends.
//! - [`LinkState`], [`RouterState`] and [`MachineState`] are plain records of what each is at, and `run_states`
//!   compares them from step to step.
//!
//! - The first key of an object is `kind`, by which a reader knows the other keys, which come in one order.
//! - A distance is null if no way is known (`distance_json`), and a row's prefix and entry are null if none
//!   was found.
//! - What `--explain` adds has kinds of its own: `awaits`, `owes`, `attached`, `neighbour`.
//!
//! What always holds: what is written is the text of its definition, to the byte (`line_text` and `line_json`
//! in `specs/Lines.antt`; what they say of each kind of line is in `specs/Texts.antt` and `specs/Objects.antt`).
//! There are no spaces between the parts of an object. A line is written part by part, which takes no memory.
//! A record says what the model's link, router or machine has (`specs/States.antt`), and so does a line of a
//! machine (`IsMachineLine` in `specs/Report.antt`), of a queue or of a gate (`specs/Waiting.antt`).
//!
//! No clause says that a report tells of all links and routers, so that is tested.
//!
//! What is tricky: no text is escaped, because none needs it: names are small letters and digits, and
//! prefixes and addresses are digits, dots and slashes. `Names` takes no other names, so none can come here.
//!
//! That each object is JSON for another reader is tested with `serde_json`. The schema is
//! `docs/lines.schema.json`. It has the objects by which a shell answers, too, which are those of `play`.
//!
//! A line is told to people without the router and the prefix, if it stands below one that has them. A
//! debt to a port without a neighbour is told as none.
#![tactic(auto)]

// Writes the first text if lines are told for people, and the second if they are told as JSON.
macro_rules! write_either {
    ($f:ident, $by:ident; $text:literal, $json:literal) => {
        crate::told::either($f, $by.format, format_args!($text), format_args!($json))
    };
}

mod answers;
mod ends;
mod line;
mod queues;
mod reasons;
mod records;
mod report;
mod states;
mod times;
mod told;
mod values;
mod waiting;

pub use answers::{Answer, Asked, TraceLine};
pub use ends::{Counts, Ended, NextLine};
pub use line::Line;
pub use queues::{show_held, show_next, show_queue};
pub use reasons::{AwaitsLine, Known, KnownLine};
pub use records::{LinkState, MachineState, RouterState};
pub use report::{print_report, print_state, show_table};
pub use states::{LinkLine, MachineLine, RouterLine};
pub use times::{ChangeLine, Effect, SpellLine, Tally};
pub use told::{Printer, Told};
pub use values::kind_words;
pub use waiting::{Waiting, moved_by};
