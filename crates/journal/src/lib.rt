//! The text of a journal: written, read, and compared with a network's state.
//!
//! A run has to be repeatable, also by others and later. The script alone does not say what was done, because
//! `settle` may leave the order to threads. So a run writes down each step that it did, in the words of a script, and
//! behind them a report of what they made. A *replay* does the steps again, and compares the reports.
//!
//! ```text
//! dualnet journal 2                    the heading, with the version
//! up a b                               a line for each step, in order
//! deliver a b
//! deliver b a
//! publish a
//! end
//! link a b up 1 5 5 queued 0 0         the report: whatever follows
//! a gen 1 held 1 ripe 1 attach 0
//! ```
//!
//! ```text
//! write_steps(&directory, links, steps, &mut out)?;                      // all but the report
//! let journal = read_journal(alloc, &names, links, attachments, &bytes)?;
//! first_difference(&printed, journal.report)                             // None, or a line from 1
//! ```
//!
//! What always holds: [`read_journal`] reads a text if it is a journal of this network (`IsJournal` in
//! `specs/Journal.antt`) and memory is left, and no other text. If it is none, the fault says that it is no
//! UTF-8, or names the first line that is not what stands there (`IsJournalFault`). What [`write_steps`]
//! writes is `journal_text`.
//!
//! What is tricky:
//!
//! - A step does not keep in which order its routers were named, so `up` and `down` are written in the order
//!   of the link, and read in either.
//! - A journal has plain steps alone: no `settle`, no `try`, no `report`.
//! - Two versions are read, of which one is written. The report of the first has other distances, so it
//!   is not compared.
//! - That a journal which was written is read again as the same steps is tested, and no clause says it.
#![tactic(auto)]

mod compare;
mod fault;
mod read;
mod step_text;
mod write;

pub use compare::first_difference;
pub use fault::JournalFault;
pub use read::{Journal, Version, read_journal};
pub use step_text::StepText;
pub use write::write_steps;
